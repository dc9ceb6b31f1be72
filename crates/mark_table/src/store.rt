// What a mark table does as a store.
ghost use Rattle.std.specs.Prelude.{◌≡◌, min, replicate};
ghost use Rattle.cells.specs.declared.mark.Mark.TheVariants.{Empty};
ghost use Rattle.mark_table.specs.Tables.{table_marks};

use crate::table::MarkTable;
use cells::{CellStore, Mark, check_mark, check_name};
use refusal::Refusal;

impl MarkTable {
    // A table of empty cells; a count above 64 becomes 64.
    pub fn new(count: usize) -> MarkTable
        ensures value { table_marks result ≡ replicate (min count 64) Empty }
    {
        MarkTable {
            room: [Mark::Empty; 64],
            cells: count.min(64),
        }
    }
}

// Three stores of different kind are asked for, and each checks its calls over its own memory. A name counts from 1, so
// that its mark is at `name - 1`.
impl CellStore for MarkTable {
    ghost marks = { table_marks };

    ghost lender = { λ _. 0 };

    fn count(&self) -> usize {
        self.cells
    }

    fn read(&self, name: usize) -> Result<Mark, Refusal> {
        check_name(name, self.count())?;
        Ok(self.room[name - 1])
    }

    fn write(&mut self, name: usize, mark: Mark) -> Result<(), Refusal> {
        check_name(name, self.count())?;
        check_mark(mark)?;
        self.room[name - 1] = mark;
        Ok(())
    }

    fn swap(&mut self, name: usize, old: Mark, new: Mark) -> Result<bool, Refusal> {
        check_name(name, self.count())?;
        check_mark(old)?;
        check_mark(new)?;
        let there = self.room[name - 1];
        let found = there == old;
        if found {
            self.room[name - 1] = new;
        }
        Ok(found)
    }
}
