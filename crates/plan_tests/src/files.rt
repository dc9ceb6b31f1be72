// Good plan files to start from.
use std::alloc::{AllocError, Global};

// Three agents and five cells under rule 1: the parts one behind another, and nothing else.
pub const TIGHT: [u8; 39] = [
    // Version, rule, agents and cells.
    1, 1, 3, 5,
    // Where identities, tables and events begin, and the event count.
    0, 12, 0, 18, 0, 33, 0, 3,
    // At 12: identities 7, 256 and 65,535.
    0, 7, 1, 0, 255, 255,
    // At 18: the table of agent 1.
    1, 2, 3, 4, 5,
    // At 23: of agent 2.
    5, 4, 3, 2, 1,
    // At 28: of agent 3.
    2, 4, 1, 5, 3,
    // At 33: agent 1 requests, agent 3 steps, agent 2 leaves.
    1, 1, 2, 3, 3, 2,
];

// The same sizes under rule 3: tables, events and identities in this order, with bytes of 99 around them.
pub const LOOSE: [u8; 45] = [
    // Version, rule, agents and cells.
    1, 3, 3, 5,
    // Where identities, tables and events begin, and the event count.
    0, 37, 0, 13, 0, 29, 0, 3,
    // At 12: in no part.
    99,
    // At 13: the table of agent 1.
    3, 1, 2, 5, 4,
    // At 18: of agent 2.
    4, 5, 1, 2, 3,
    // At 23: of agent 3.
    1, 2, 3, 4, 5,
    // At 28: in no part.
    99,
    // At 29: agent 3 steps, agent 2 leaves, agent 1 requests.
    2, 3, 3, 2, 1, 1,
    // At 35: in no part.
    99, 99,
    // At 37: identities 258, 3 and 772.
    1, 2, 0, 3, 3, 4,
    // At 43: in no part.
    99, 99,
];

// A byte to put at an offset.
pub type Edit = (usize, u8);

// A file with some of its bytes replaced.
pub fn edited<const N: usize>(mut file: [u8; N], edits: &[Edit]) -> [u8; N] {
    for (at, byte) in edits {
        if let Some(place) = file.get_mut(*at) {
            *place = *byte;
        }
    }
    file
}

// A file of any size under rule 1: events, identities and tables in this order, and no fault but the size.
pub fn sized(heap: Global, agents: u8, cells: u8) -> Result<Vec<u8>, AllocError> {
    let mut file = Vec::new(heap);
    file.extend_from_slice(&[1, 1, agents, cells, 0, 16])?;
    let tables = 16 + 2 * u16::from(agents);
    file.extend_from_slice(&tables.to_be_bytes())?;
    file.extend_from_slice(&[0, 12, 0, 2])?;
    // Agent 1 requests and steps.
    file.extend_from_slice(&[1, 1, 2, 1])?;
    for agent in 1..=agents {
        file.extend_from_slice(&[0, agent])?;
    }
    for _ in 0..agents {
        for cell in 1..=cells {
            file.push(cell)?;
        }
    }
    Ok(file)
}

// A file with bytes behind it up to a length.
pub fn padded(heap: Global, file: &[u8], length: usize) -> Result<Vec<u8>, AllocError> {
    let mut longer = Vec::from_slice(heap, file)?;
    longer.resize(length, 99)?;
    Ok(longer)
}
