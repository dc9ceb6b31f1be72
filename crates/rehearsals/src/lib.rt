// Whether what two rigs answer agrees: a plan's rig and its twin's, and the agents of a stand-off.

#![tactic(auto)]

mod agents;
mod answers;
mod marks;
mod names;
mod twins;

pub use agents::{are_together, is_alike};
pub use twins::Twins;
