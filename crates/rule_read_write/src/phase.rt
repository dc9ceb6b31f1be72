// What an agent does next.

// A look at all cells; a put of the own mark; a read, and a clearing of a cell that was read as own.
#[derive(Clone, Copy, PartialEq, Eq, Debug)]
pub enum ReadWritePhase {
    Look,
    Put,
    Read,
    Clear,
}
