// What an agent wants of the cells, by its local names.
use cells::Mark;

// A look at all cells, or a read, write or swap (of an old mark for a new one) of one.
#[derive(Clone, Copy)]
pub enum Want {
    Look,
    Read(usize),
    Write(usize, Mark),
    Swap(usize, Mark, Mark),
}
