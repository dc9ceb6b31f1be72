// What the cells answer.
use cells::Mark;

// All marks, lent, for a look; a mark for a read; that it is done for a write; yes or no for a swap.
#[derive(Clone, Copy)]
pub enum Answer<'a> {
    Marks(&'a [Mark]),
    Cell(Mark),
    Done,
    Went(bool),
}
