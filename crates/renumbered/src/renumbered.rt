// A store over another store, whose cells it gives other names.
ghost use Rattle.std.specs.Prelude.{◌≡◌, ℕ, ◌≤◌, length, IfOk, IfErr};
ghost use Rattle.renumbered.specs.Renumberings.{entry, renumbered_marks, row_check};
ghost use Rattle.renumbered.specs.Stores.{cells_below, stands_for, name_answer, marks_above, row_answer, name_after, marks_after, lender_above};

use crate::numbering::Numbering;
use crate::rows::{Given, Same};
use cells::{CellStore, Mark, check_name};
use numbers::rows::first_misfit;
use refusal::Refusal;

// Each name here stands for a name of the store below, by the numbering.
#[derive(Drop)]
pub struct Renumbered<S> {
    pub(crate) store: S,
    pub(crate) numbering: Numbering,
}

impl<S: CellStore> Renumbered<S> {
    // Every cell keeps its name.
    pub fn new(store: S) -> Renumbered<S>
        ensures store { result.store ≡ store }
        ensures names { (y : ℕ) → stands_for S.CellStore.marks result y ≡ y }
        ensures marks { marks_above S.CellStore.marks result ≡ S.CellStore.marks store }
        ensures same { lender_above S.CellStore.lender result ≡ S.CellStore.lender store }
    {
        let numbering = Numbering::from_row(&Same, store.count());
        Renumbered { store, numbering }
    }

    // From now on name y stands for name `row[y - 1]` of the store below, whatever it stood for before. A row that is
    // refused changes nothing.
    pub fn renumber(&mut self, row: &[usize]) -> Result<(), Refusal>
        ensures value { result ≡ row_answer S.CellStore.marks self.old row.now }
        ensures names { (y : ℕ) → 1 ≤ y → y ≤ cells_below S.CellStore.marks self.old → stands_for S.CellStore.marks self.new y ≡ name_after S.CellStore.marks self.old row.now y }
        ensures after { marks_above S.CellStore.marks self.new ≡ marks_after S.CellStore.marks self.old row.now }
        ensures below { self.new.store ≡ self.old.store }
        ensures same { lender_above S.CellStore.lender self.new ≡ lender_above S.CellStore.lender self.old }
    {
        let count = self.store.count();
        if row.len() != count {
            return Err(Refusal::RowLength);
        }
        let given = Given { row };
        // The count is not cut: a store has at most 64 cells.
        if let Some(name) = first_misfit(&given, count, count as u16) {
            return Err(Refusal::BadRenumbering { name });
        }
        self.numbering = Numbering::from_row(&given, count);
        Ok(())
    }

    // A store under which each name stands for the name that a row gives it.
    pub fn with_row(store: S, row: &[usize]) -> Result<Renumbered<S>, Refusal>
    where
        S: Drop,
        ensures refused { IfErr result (λ e. Err e ≡ row_check row.now (length (S.CellStore.marks store))) }
        ensures accepted { IfOk result (λ s. Ok tt ≡ row_check row.now (length (S.CellStore.marks store))) }
        ensures store { IfOk result (λ s. s.store ≡ store) }
        ensures names { IfOk result (λ s. (y : ℕ) → 1 ≤ y → y ≤ length (S.CellStore.marks store) → stands_for S.CellStore.marks s y ≡ entry row.now y) }
        ensures marks { IfOk result (λ s. marks_above S.CellStore.marks s ≡ renumbered_marks (entry row.now) (S.CellStore.marks store)) }
        ensures same { IfOk result (λ s. lender_above S.CellStore.lender s ≡ S.CellStore.lender store) }
    {
        let mut above = Renumbered::new(store);
        above.renumber(row)?;
        Ok(above)
    }

    // The name below that a name stands for.
    pub fn name_below(&self, name: usize) -> Result<usize, Refusal>
        ensures value { result ≡ name_answer S.CellStore.marks self.now name }
    {
        let count = self.store.count();
        check_name(name, count)?;
        Ok(self.numbering.below(name, count))
    }

    // The store below, as it is.
    pub fn into_store(self) -> S
        ensures value { result ≡ self.store }
    {
        let Renumbered {
            store,
            numbering: _,
        } = self;
        store
    }
}

impl<S: CellStore> CellStore for Renumbered<S> {
    ghost marks = { marks_above S.CellStore.marks };

    ghost lender = { lender_above S.CellStore.lender };

    fn count(&self) -> usize {
        self.store.count()
    }

    fn read(&self, name: usize) -> Result<Mark, Refusal> {
        let below = self.name_below(name)?;
        self.store.read(below)
    }

    fn write(&mut self, name: usize, mark: Mark) -> Result<(), Refusal> {
        let below = self.name_below(name)?;
        self.store.write(below, mark)
    }

    fn swap(&mut self, name: usize, old: Mark, new: Mark) -> Result<bool, Refusal> {
        let below = self.name_below(name)?;
        self.store.swap(below, old, new)
    }
}
