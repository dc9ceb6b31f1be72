// The interface of a store of cells.
ghost use Rattle.std.specs.Prelude.{◌≡◌, ℕ, ◌≤◌, List, length};
ghost use Rattle.cells.specs.declared.mark.Mark.{Mark};
ghost use Rattle.cells.specs.Marks.{read_answer, write_answer, after_write, swap_answer, after_swap};

use crate::mark::Mark;
use refusal::Refusal;

// A store means a list of at most 64 marks, whose names count from 1. Where a store works on lent memory, `lender` is
// the name under which that memory is followed, and 0 where it works on its own. Each call that changes a store says
// itself that this name stays, since a caller knows no more of a call than its clauses.
pub trait CellStore {
    ghost marks: { Self → List Mark };

    ghost lender: { Self → ℕ };

    // How many cells there are.
    fn count(&self) -> usize
        ensures value { result ≡ length (marks self.now) }
        ensures bound { result ≤ 64 };

    // The mark at a name.
    fn read(&self, name: usize) -> Result<Mark, Refusal>
        ensures value { result ≡ read_answer (marks self.now) name };

    // Puts a mark at a name.
    fn write(&mut self, name: usize, mark: Mark) -> Result<(), Refusal>
        ensures value { result ≡ write_answer (marks self.old) name mark }
        ensures after { marks self.new ≡ after_write (marks self.old) name mark }
        ensures same { lender self.new ≡ lender self.old };

    // Puts a new mark at a name and answers yes, if the mark there is the old one; else answers no.
    fn swap(&mut self, name: usize, old: Mark, new: Mark) -> Result<bool, Refusal>
        ensures value { result ≡ swap_answer (marks self.old) name old new }
        ensures after { marks self.new ≡ after_swap (marks self.old) name old new }
        ensures same { lender self.new ≡ lender self.old };
}
