// The rig: agents that share the cells of a store under a locking rule, one call at a time.

#![tactic(auto)]

mod calls;
mod emptiness;
mod loads;
mod making;
mod moves;
mod newcomers;
mod questions;
mod rig;
mod rounds;
mod seat;
mod seats;
mod sections;
mod service;
mod sizes;
mod standoffs;

pub use rig::Rig;
pub use seat::Seat;
pub use seats::Seats;
