// A locking rule as the machine of one agent: its record, what it wants of the cells, and what it becomes by the answer.

#![tactic(auto)]

mod agent;
mod answer;
mod marks;
mod moves;
mod rule;
mod want;

pub use agent::{Agent, Section};
pub use answer::Answer;
pub use marks::front;
pub use rule::Rule;
pub use want::Want;
