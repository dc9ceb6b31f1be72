// One numbering over another.
ghost use Rattle.std.specs.Prelude.{◌≡◌, ℕ, ◌≤◌};
ghost use Rattle.renumbered.specs.Stores.{by_table};

use crate::numbering::Numbering;
use numbers::rows::Row;

// The names that come out below both, over `cells` cells.
#[derive(Clone, Copy)]
struct Composed<'a> {
    upper: &'a Numbering,
    lower: &'a Numbering,
    cells: usize,
}

impl Row for Composed<'_> {
    ghost numbers = { λ s y. by_table s.lower.now s.cells (by_table s.upper.now s.cells y) };

    fn number_at(&self, place: u16) -> usize {
        let between = self.upper.below(usize::from(place), self.cells);
        self.lower.below(between, self.cells)
    }
}

impl Numbering {
    // Both in one: the name that the lower one has for the name that this one has.
    pub fn over(&self, lower: &Numbering, cells: usize) -> Numbering
        requires { cells ≤ 64 }
        ensures names { (y : ℕ) → by_table result cells y ≡ by_table lower.now cells (by_table self.now cells y) }
    {
        let both = Composed {
            upper: self,
            lower,
            cells,
        };
        Numbering::from_row(&both, cells)
    }
}
