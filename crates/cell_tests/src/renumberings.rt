// Rows that set a renumbering, refused ones, and piles of renumberings.
use cells::{CellStore, Mark};
use mark_table::MarkTable;
use renumbered::{Renumbered, flattened};
use std::test::Fail;
use test_checks::{check_eq, verdict};

#[test]
fn rows() -> Result<(), Fail> {
    let mut cells = Renumbered::new(MarkTable::new(3));
    check_eq(verdict(cells.renumber(&[1, 2])), Err((19, 0, 0)))?;
    check_eq(verdict(cells.renumber(&[1, 2, 3, 4])), Err((19, 0, 0)))?;
    check_eq(verdict(cells.renumber(&[0, 2, 3])), Err((10, 0, 1)))?;
    check_eq(verdict(cells.renumber(&[2, 4, 2])), Err((10, 0, 2)))?;
    check_eq(verdict(cells.renumber(&[2, 3, 2])), Err((10, 0, 3)))?;
    check_eq(verdict(cells.renumber(&[2, 3, 257])), Err((10, 0, 3)))?;
    check_eq(verdict(cells.renumber(&[2, 3, 1])), Ok(()))
}

// A row replaces the one before it, and a refused one changes nothing.
#[test]
fn rows_replace() -> Result<(), Fail> {
    let mut cells = Renumbered::new(MarkTable::new(3));
    cells.renumber(&[2, 3, 1])?;
    cells.write(1, Mark::Owner(7))?;
    cells.renumber(&[2, 3, 1])?;
    check_eq(cells.read(1)?, Mark::Owner(7))?;
    check_eq(verdict(cells.renumber(&[1, 1, 1])), Err((10, 0, 2)))?;
    check_eq(cells.read(1)?, Mark::Owner(7))?;
    let below = cells.into_store();
    check_eq(below.read(2)?, Mark::Owner(7))?;
    check_eq(below.read(1)?, Mark::Empty)
}

// A store that is made with its row, and one whose row is refused.
#[test]
fn stores_with_rows() -> Result<(), Fail> {
    let mut cells = Renumbered::with_row(MarkTable::new(3), &[2, 3, 1])?;
    cells.write(1, Mark::Owner(7))?;
    check_eq(cells.into_store().read(2)?, Mark::Owner(7))?;
    let none = Renumbered::with_row(MarkTable::new(3), &[1, 1, 1]);
    check_eq(verdict(none.map(|_| ())), Err((10, 0, 2)))
}

// Three renumberings, each 1 to 2, 2 to 3, 3 to 1: together they change no name; two of them take 1 to 3.
#[test]
fn piles() -> Result<(), Fail> {
    let mut first = Renumbered::new(MarkTable::new(3));
    first.renumber(&[2, 3, 1])?;
    let mut second = Renumbered::new(first);
    second.renumber(&[2, 3, 1])?;
    let mut third = Renumbered::new(second);
    third.renumber(&[2, 3, 1])?;
    third.write(1, Mark::Rung(4))?;
    check_eq(third.read(1)?, Mark::Rung(4))?;
    let two = third.into_store();
    check_eq(two.read(2)?, Mark::Rung(4))?;
    let one = flattened(two);
    check_eq(one.read(2)?, Mark::Rung(4))?;
    check_eq(one.into_store().read(1)?, Mark::Rung(4))
}
