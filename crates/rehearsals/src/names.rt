// A plan's cells and its twin's.
ghost use Rattle.std.specs.Prelude.{◌≡◌, ℕ, Some};
ghost use Rattle.numbers.specs.First.{first_of};
ghost use Rattle.plan.specs.Plans.{model, entry_named};
ghost use Rattle.renumbering.specs.Renumbering.{Renumbers};
ghost use Rattle.rehearsals.specs.Twins.{is_number, name_in_twin};

use crate::twins::Twins;

impl Twins<'_> {
    // Whether agent 1 of the plan calls that cell by that name.
    fn is_called(&self, name: usize, cell: usize) -> bool
        ensures value { result ≡ is_number (entry_named (model self.now.plan) 1 name) cell }
    {
        self.plan
            .table_entry(1, name)
            .is_some_and(|entry| usize::from(entry) == cell)
    }

    // The first name by which agent 1 of the plan calls that cell.
    fn name_in_plan(&self, cell: usize) -> Option<usize>
        ensures value { result ≡ first_of (λ x. is_number (entry_named (model self.now.plan) 1 x) cell) 1 (model self.now.plan).cells }
    {
        (1..=self.plan.cells()).find(|name| self.is_called(*name, cell))
    }

    // The cell that agent 1 of the twin calls as agent 1 of the plan calls this cell. Where the twin renumbers the cells
    // of the plan, it is the new name of this cell.
    pub fn name_in_twin(&self, cell: usize) -> Option<u8>
        ensures value { result ≡ name_in_twin (model self.now.plan) (model self.now.twin) cell }
        ensures renumbered { (σ : ℕ → ℕ) (z : ℕ) → Renumbers σ (model self.now.plan) (model self.now.twin) → result ≡ Some z → z ≡ σ cell }
    {
        let name = self.name_in_plan(cell)?;
        self.twin.table_entry(1, name)
    }
}
