// What is done to the cells.
use cells::{CellStore, Mark};
use refusal::Refusal;
use std::fmt;

#[derive(Clone, Copy)]
pub enum Step {
    Write(usize, Mark),
    Swap(usize, Mark, Mark),
}

// The steps are data: each is taken, and shown with what it answered.
pub const STEPS: [Step; 7] = [
    Step::Write(1, Mark::Owner(700)),
    Step::Swap(2, Mark::Empty, Mark::Rung(3)),
    Step::Swap(2, Mark::Empty, Mark::Owner(41)),
    Step::Swap(2, Mark::Rung(3), Mark::Rung(4)),
    Step::Write(0, Mark::Empty),
    Step::Write(99, Mark::Empty),
    Step::Write(1, Mark::Rung(17)),
];

impl Step {
    // Yes where a mark was put.
    pub fn take<S: CellStore>(self, store: &mut S) -> Result<bool, Refusal> {
        match self {
            Step::Write(name, mark) => {
                store.write(name, mark)?;
                Ok(true)
            }
            Step::Swap(name, old, new) => store.swap(name, old, new),
        }
    }
}

impl fmt::Display for Step {
    fn fmt<W: fmt::Write>(&self, f: &mut fmt::Formatter<W>) -> fmt::Result {
        match self {
            Step::Write(name, mark) => write!(f, "write {name} {mark}"),
            Step::Swap(name, old, new) => write!(f, "swap {name} {old} for {new}"),
        }
    }
}
