// A stand-off as a program is asked for it: read from words, played, and told as text.

#![tactic(auto)]

mod letters;
mod numerals;
mod reading;
mod request;
mod telling;

pub use letters::rounds_of;
pub use numerals::number_of;
pub use reading::rule_of;
pub use request::{Fault, Standoff};
pub use telling::run_standoff_report;
