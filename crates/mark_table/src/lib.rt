// A store of cells that holds its marks itself.

#![tactic(auto)]

mod store;
mod table;

pub use table::MarkTable;
