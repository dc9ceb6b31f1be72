// Renumbered stores that stand one over the other.
ghost use Rattle.std.specs.Prelude.{◌≡◌, ℕ};
ghost use Rattle.renumbered.specs.Stores.{stands_for, marks_above, lender_above};

use crate::renumbered::Renumbered;
use cells::CellStore;

// One renumbered store in the place of two: a name stands for what it stood for through both.
pub fn flattened<S: CellStore>(pile: Renumbered<Renumbered<S>>) -> Renumbered<S>
    ensures store { result.store ≡ pile.store.store }
    ensures names { (y : ℕ) → stands_for S.CellStore.marks result y ≡ stands_for S.CellStore.marks pile.store (stands_for (marks_above S.CellStore.marks) pile y) }
    ensures marks { marks_above S.CellStore.marks result ≡ marks_above (marks_above S.CellStore.marks) pile }
    ensures same { lender_above S.CellStore.lender result ≡ lender_above (lender_above S.CellStore.lender) pile }
{
    let Renumbered {
        store: under,
        numbering: upper,
    } = pile;
    let Renumbered {
        store,
        numbering: lower,
    } = under;
    let numbering = upper.over(&lower, store.count());
    Renumbered { store, numbering }
}
