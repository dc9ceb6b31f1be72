// The bytes of a record file, and records in no good form.
use cells::{CellStore, Mark};
use record_file::{Record, RecordFile};
use std::test::Fail;
use test_checks::check_eq;

fn decodes(cases: &[([u8; 4], Mark)]) -> Result<(), Fail> {
    for (bytes, mark) in cases {
        check_eq(Mark::from(Record(*bytes)), *mark)?;
    }
    Ok(())
}

#[test]
fn good_records() -> Result<(), Fail> {
    decodes(&[
        ([0, 0, 0, 0], Mark::Empty),
        ([1, 0, 0, 1], Mark::Owner(1)),
        ([1, 0, 2, 188], Mark::Owner(700)),
        ([1, 0, 255, 255], Mark::Owner(65_535)),
        ([2, 0, 0, 1], Mark::Rung(1)),
        ([2, 0, 0, 16], Mark::Rung(16)),
    ])?;
    check_eq(Record::from(Mark::Empty), Record([0, 0, 0, 0]))?;
    check_eq(Record::from(Mark::Owner(700)), Record([1, 0, 2, 188]))?;
    check_eq(Record::from(Mark::Rung(16)), Record([2, 0, 0, 16]))
}

#[test]
fn malformed_records() -> Result<(), Fail> {
    decodes(&[
        // Another kind.
        ([3, 0, 0, 1], Mark::Empty),
        ([255, 0, 0, 1], Mark::Empty),
        // A second byte that is not zero.
        ([1, 1, 0, 1], Mark::Empty),
        ([2, 255, 0, 1], Mark::Empty),
        // An empty one with a value.
        ([0, 0, 0, 1], Mark::Empty),
        // Identity 0, and rungs 0, 17 and 257.
        ([1, 0, 0, 0], Mark::Empty),
        ([2, 0, 0, 0], Mark::Empty),
        ([2, 0, 0, 17], Mark::Empty),
        ([2, 0, 1, 1], Mark::Empty),
    ])
}

// Makes a record file of some bytes: how many cells it has, and how many of the bytes are zero then.
fn made(bytes: &mut [u8]) -> (usize, usize) {
    let count = RecordFile::new(bytes).count();
    let zeros = bytes.iter().filter(|byte| **byte == 0).count();
    (count, zeros)
}

#[test]
fn whole_records_are_emptied() -> Result<(), Fail> {
    check_eq(made(&mut []), (0, 0))?;
    check_eq(made(&mut [9; 3]), (0, 0))?;
    check_eq(made(&mut [9; 4]), (1, 4))?;
    check_eq(made(&mut [9; 255]), (63, 252))?;
    check_eq(made(&mut [9; 256]), (64, 256))?;
    check_eq(made(&mut [9; 300]), (64, 256))
}

#[test]
fn later_bytes_stay() -> Result<(), Fail> {
    let mut bytes = [9; 7];
    check_eq(made(&mut bytes), (1, 4))?;
    check_eq(bytes, [0, 0, 0, 0, 9, 9, 9])
}

#[test]
fn a_write_changes_its_record() -> Result<(), Fail> {
    let mut bytes = [9; 11];
    let mut file = RecordFile::new(&mut bytes);
    file.write(2, Mark::Owner(700))?;
    file.swap(1, Mark::Rung(1), Mark::Rung(2))?;
    check_eq(file.count(), 2)?;
    check_eq(bytes, [0, 0, 0, 0, 1, 0, 2, 188, 9, 9, 9])
}
