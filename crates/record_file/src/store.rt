// What a record file does as a store.
ghost use Rattle.std.specs.Prelude.{◌≡◌, ◌+◌, ◌*◌, ◌≤◌, length, replicate};
ghost use Rattle.cells.specs.declared.mark.Mark.TheVariants.{Empty};
ghost use Rattle.cells.specs.Marks.{write_answer, after_write, swap_answer, after_swap};
ghost use Rattle.record_file.specs.Records.{record_at, put_record, record_count, start, records, emptied, encoded, bytes_written, bytes_swapped};

use crate::file::RecordFile;
use crate::record::Record;
use cells::{CellStore, Mark, check_mark, check_name};
use refusal::Refusal;

// How many cells a file of so many bytes has: as many as whole records fit, at most 64.
fn cells_in(length: usize) -> usize
    ensures value { result ≡ record_count length }
{
    (length / 4).min(64)
}

// Where the record of a name begins.
fn start(name: usize) -> usize
    requires { start name ≤ usize.MAX }
    ensures { result ≡ start name }
{
    4 * name.saturating_sub(1)
}

impl<'a> RecordFile<'a> {
    // Empties the records of a file and makes a store of it; later bytes stay.
    pub fn new(file: &'a mut [u8]) -> RecordFile<'a>
        ensures bytes { result.file.now ≡ emptied file.old (4 * record_count (length file.old)) }
        ensures lender { result.file.ghost_name ≡ file.entry.ghost_name }
        ensures marks { records result.file.now ≡ replicate (record_count (length file.old)) Empty }
    {
        let size = 4 * cells_in(file.len());
        file[..size].fill(0);
        RecordFile { file }
    }

    // The mark of the record with a name.
    fn mark_at(&self, name: usize) -> Mark
        requires { start name + 4 ≤ length self.now.file.now }
        ensures value { result ≡ record_at self.now.file.now (start name) }
    {
        let [kind, zero, high, low, ..] = &self.file[start(name)..] else {
            // Never: a whole record stands there.
            return Mark::Empty;
        };
        Mark::from(Record([*kind, *zero, *high, *low]))
    }

    // Puts the record of a mark at a name.
    fn put(&mut self, name: usize, mark: Mark)
        requires { start name + 4 ≤ length self.old.file.now }
        ensures after { self.new.file.now ≡ put_record self.old.file.now (start name) (encoded mark) }
        ensures same { self.new.file.ghost_name ≡ self.old.file.ghost_name }
    {
        let at = start(name);
        let record = Record::from(mark);
        self.file[at..at + 4].copy_from_slice(&record.0);
    }
}

// Three stores of different kind are asked for, and each checks its calls over its own memory.
impl CellStore for RecordFile<'_> {
    ghost marks = { λ s. records s.file.now };

    ghost lender = { λ s. s.file.ghost_name };

    fn count(&self) -> usize {
        cells_in(self.file.len())
    }

    fn read(&self, name: usize) -> Result<Mark, Refusal> {
        check_name(name, self.count())?;
        Ok(self.mark_at(name))
    }

    fn write(&mut self, name: usize, mark: Mark) -> Result<(), Refusal>
        ensures value { result ≡ write_answer (records self.old.file.now) name mark }
        ensures after { records self.new.file.now ≡ after_write (records self.old.file.now) name mark }
        ensures same { self.new.file.ghost_name ≡ self.old.file.ghost_name }
        ensures bytes { self.new.file.now ≡ bytes_written self.old.file.now name mark }
    {
        check_name(name, self.count())?;
        check_mark(mark)?;
        self.put(name, mark);
        Ok(())
    }

    fn swap(&mut self, name: usize, old: Mark, new: Mark) -> Result<bool, Refusal>
        ensures value { result ≡ swap_answer (records self.old.file.now) name old new }
        ensures after { records self.new.file.now ≡ after_swap (records self.old.file.now) name old new }
        ensures same { self.new.file.ghost_name ≡ self.old.file.ghost_name }
        ensures bytes { self.new.file.now ≡ bytes_swapped self.old.file.now name old new }
    {
        check_name(name, self.count())?;
        check_mark(old)?;
        check_mark(new)?;
        let found = self.mark_at(name) == old;
        if found {
            self.put(name, new);
        }
        Ok(found)
    }
}
