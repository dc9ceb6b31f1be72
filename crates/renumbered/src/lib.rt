// A store of cells that stands over another and gives its cells other names.

#![tactic(auto)]

mod composed;
mod numbering;
mod pile;
mod renumbered;
mod rows;

pub use pile::flattened;
pub use renumbered::Renumbered;
