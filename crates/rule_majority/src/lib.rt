// The locking rule `majority`: an agent takes every empty cell, and holds once more than half of the cells are its own.

#![tactic(auto)]

mod majority;
mod moves;
mod phase;
mod verdict;

pub use majority::Majority;
pub use phase::MajorityPhase;
