// The phases of the ladder.

// An agent seeks until all cells are empty, takes each, and on each rung above the first raises its marks, and fills the
// cells that are lower by trying to swap; it drops its marks to withdraw or to leave.
#[derive(Clone, Copy, PartialEq, Eq, Debug)]
pub enum LadderPhase {
    Seek,
    Take,
    Raise,
    Fill,
    Try,
    Drop,
}
