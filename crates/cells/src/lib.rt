// Cells that agents share: the mark in a cell, and the interface of a store of cells.

#![tactic(auto)]

mod checks;
mod mark;
mod store;
mod uses;

pub use checks::{check_mark, check_name};
pub use mark::Mark;
pub use store::CellStore;
pub use uses::read_after_write;
