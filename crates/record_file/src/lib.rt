// A store of cells in the bytes of a caller's card file.

#![tactic(auto)]

mod file;
mod record;
mod store;

pub use file::RecordFile;
pub use record::Record;
