// Facts of numbers that the rest builds on: common factors, names, and rows of numbers with no repeats.

#![tactic(auto)]

pub mod factors;
pub mod names;
pub mod rows;
pub mod sizes;
