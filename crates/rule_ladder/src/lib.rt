// The ladder: an agent climbs by one rung at a time, each time with enough of the cells, and holds on the highest.

#![tactic(auto)]

mod flags;
mod ladder;
mod moves;
mod phase;
mod verdict;

pub use ladder::Ladder;
pub use phase::LadderPhase;
pub use verdict::{Verdict, judge};
