// Runs of rigs, and what is shown of every run.

#![tactic(auto)]

mod playing;
mod rehearsal;
mod theorems;

pub use playing::{StandoffScript, play_plan, play_rounds, run_file, run_standoff};
pub use rehearsal::{Rehearsal, Script, rehearse};
pub use theorems::{TwinLoads, play, play_standoff, play_twins};
