// Rigs by rule 1 to begin with.
use crate::lines::{Line, follows};
use cells::{CellStore, Mark};
use mark_table::MarkTable;
use rig::{Rig, Seats};
use rule_read_write::ReadWrite;
use std::alloc::Global;
use std::test::Fail;

pub type Plain = Rig<MarkTable, ReadWrite>;

// Two agents, 700 and 41, over three cells: the second calls cell 3 by name 1, cell 1 by name 2 and cell 2 by name 3. No
// events.
pub const TWO_OVER_THREE: [u8; 22] = [
    // Version, rule, agents and cells.
    1, 1, 2, 3,
    // Where identities, tables and events begin, and the event count.
    0, 12, 0, 16, 0, 22, 0, 0,
    // At 12: identities 700 and 41.
    2, 188, 0, 41,
    // At 16: the table of agent 1.
    1, 2, 3,
    // At 19: of agent 2.
    3, 1, 2,
];

// A store of so many cells, of which 2 and 3 are taken.
pub fn taken(cells: usize) -> MarkTable {
    let mut store = MarkTable::new(cells);
    let _ = store.write(3, Mark::Rung(1));
    let _ = store.write(2, Mark::Owner(7));
    store
}

// Whether a blank rig over a store follows the lines.
pub fn blank_follows(heap: Global, store: MarkTable, lines: &[Line]) -> Result<(), Fail> {
    let seats = Seats::new(heap)?;
    let mut rig = Rig::new(store, ReadWrite, seats);
    let found = follows(&mut rig, lines);
    let _ = rig.into_store();
    found
}
