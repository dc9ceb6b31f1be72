// What every store gives, proved once.
ghost use Rattle.std.specs.Prelude.{◌≡◌};
ghost use Rattle.cells.specs.Marks.{after_write, read_back};

use crate::mark::Mark;
use crate::store::CellStore;
use refusal::Refusal;

// Puts a mark at a name and reads it back: where neither is refused, it is the mark that was put.
pub fn read_after_write<S: CellStore>(
    store: &mut S,
    name: usize,
    mark: Mark,
) -> Result<Mark, Refusal>
    ensures value { result ≡ read_back (S.marks store.old) name mark }
    ensures after { S.marks store.new ≡ after_write (S.marks store.old) name mark }
{
    store.write(name, mark)?;
    store.read(name)
}
