// What every store answers at its boundaries.
use cells::{CellStore, Mark};
use mark_table::MarkTable;
use record_file::RecordFile;
use renumbered::Renumbered;
use std::test::Fail;
use test_checks::{check_eq, verdict};

// Names 0 and count + 1 are refused by every call, names 1 and count by none.
fn names_are<S: CellStore>(store: &mut S, count: usize, past: usize) -> Result<(), Fail> {
    check_eq(store.count(), count)?;
    check_eq(verdict(store.read(0)), Err((17, 0, 0)))?;
    check_eq(verdict(store.read(past)), Err((17, past, 0)))?;
    check_eq(
        verdict(store.write(past, Mark::Owner(0))),
        Err((17, past, 0)),
    )?;
    check_eq(
        verdict(store.swap(past, Mark::Rung(0), Mark::Empty)),
        Err((17, past, 0)),
    )?;
    check_eq(verdict(store.write(0, Mark::Empty)), Err((17, 0, 0)))
}

fn ends_are_cells<S: CellStore>(store: &mut S, count: usize) -> Result<(), Fail> {
    check_eq(verdict(store.write(1, Mark::Owner(65_535))), Ok(()))?;
    check_eq(verdict(store.write(count, Mark::Rung(16))), Ok(()))?;
    check_eq(store.read(1)?, Mark::Owner(65_535))?;
    check_eq(store.read(count)?, Mark::Rung(16))
}

// Unlawful marks are refused and change nothing; a swap tells whether it found the old mark.
fn marks_are<S: CellStore>(store: &mut S) -> Result<(), Fail> {
    check_eq(verdict(store.write(2, Mark::Owner(0))), Err((18, 0, 0)))?;
    check_eq(verdict(store.write(2, Mark::Rung(0))), Err((18, 0, 0)))?;
    check_eq(verdict(store.write(2, Mark::Rung(17))), Err((18, 0, 0)))?;
    check_eq(
        verdict(store.swap(2, Mark::Empty, Mark::Rung(255))),
        Err((18, 0, 0)),
    )?;
    check_eq(
        verdict(store.swap(2, Mark::Owner(0), Mark::Rung(1))),
        Err((18, 0, 0)),
    )?;
    check_eq(store.read(2)?, Mark::Empty)
}

fn swaps_are<S: CellStore>(store: &mut S) -> Result<(), Fail> {
    check_eq(store.swap(2, Mark::Empty, Mark::Owner(7))?, true)?;
    check_eq(store.swap(2, Mark::Empty, Mark::Owner(8))?, false)?;
    check_eq(store.swap(2, Mark::Rung(7), Mark::Owner(8))?, false)?;
    check_eq(store.read(2)?, Mark::Owner(7))?;
    check_eq(store.swap(2, Mark::Owner(7), Mark::Empty)?, true)?;
    check_eq(store.read(2)?, Mark::Empty)
}

fn behaves<S: CellStore>(store: &mut S, count: usize, past: usize) -> Result<(), Fail> {
    names_are(store, count, past)?;
    marks_are(store)?;
    swaps_are(store)?;
    ends_are_cells(store, count)
}

#[test]
fn mark_tables() -> Result<(), Fail> {
    names_are(&mut MarkTable::new(0), 0, 1)?;
    behaves(&mut MarkTable::new(63), 63, 64)?;
    behaves(&mut MarkTable::new(64), 64, 65)?;
    behaves(&mut MarkTable::new(65), 64, 65)
}

#[test]
fn record_files() -> Result<(), Fail> {
    names_are(&mut RecordFile::new(&mut [9; 3]), 0, 1)?;
    behaves(&mut RecordFile::new(&mut [9; 255]), 63, 64)?;
    behaves(&mut RecordFile::new(&mut [9; 256]), 64, 65)?;
    behaves(&mut RecordFile::new(&mut [9; 300]), 64, 65)
}

#[test]
fn renumbered_stores() -> Result<(), Fail> {
    names_are(&mut Renumbered::new(MarkTable::new(0)), 0, 1)?;
    behaves(&mut Renumbered::new(MarkTable::new(5)), 5, 6)?;
    let mut bytes = [9; 20];
    behaves(
        &mut Renumbered::new(Renumbered::new(RecordFile::new(&mut bytes))),
        5,
        6,
    )
}
