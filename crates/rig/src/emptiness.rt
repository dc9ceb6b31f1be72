// Whether a store is fit to begin with.
ghost use Rattle.std.specs.Prelude.{◌≡◌};
ghost use Rattle.model.specs.Loads.{empty_check};

use cells::{CellStore, Mark};
use refusal::Refusal;

// Refuses a store that has not that many cells, or else the first cell that is not empty.
pub fn check_empty<S: CellStore>(store: &S, cells: usize) -> Result<(), Refusal>
    ensures value { result ≡ empty_check cells (S.marks store.now) }
{
    if store.count() != cells {
        return Err(Refusal::CellCount);
    }
    match (1..=cells).find(|name| store.read(*name) != Ok(Mark::Empty)) {
        Some(name) => Err(Refusal::CellTaken { name }),
        None => Ok(()),
    }
}
