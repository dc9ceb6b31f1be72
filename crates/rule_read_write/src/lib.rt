// The locking rule for cells that can only be read and written.

#![tactic(auto)]

mod judging;
mod phase;
mod rule;

pub use phase::ReadWritePhase;
pub use rule::ReadWrite;
