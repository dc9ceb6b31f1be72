// The report of a blank rig, in buffers of several lengths.
use mark_table::MarkTable;
use refusal::Refusal;
use report::{MAX_REPORT, report, report_of_blank};
use rig::{Rig, Seats};
use rule_read_write::ReadWrite;
use std::alloc::{AllocError, Global};
use std::test::Fail;
use test_checks::{check, check_eq};

// How many bytes the report of a blank rig has.
const LENGTH: usize = 41;

// Reports a blank rig over three cells.
fn report_blank(heap: Global, buffer: &mut [u8]) -> Result<Result<usize, Refusal>, AllocError> {
    let seats = Seats::new(heap)?;
    let rig = Rig::new(MarkTable::new(3), ReadWrite, seats);
    let answer = report(&rig, buffer);
    let _ = rig.into_store();
    Ok(answer)
}

#[test]
fn long_buffer(rt: HostRuntime) -> Result<(), Fail> {
    let mut buffer = [7; MAX_REPORT];
    check_eq(report_blank(rt.alloc(), &mut buffer)?, Ok(LENGTH))?;
    check(&buffer[0..LENGTH] == report_of_blank())?;
    check_eq(buffer[LENGTH], 7)
}

#[test]
fn exact_buffer(rt: HostRuntime) -> Result<(), Fail> {
    let mut buffer = [7; LENGTH];
    check_eq(report_blank(rt.alloc(), &mut buffer)?, Ok(LENGTH))?;
    check(&buffer[0..LENGTH] == report_of_blank())
}

#[test]
fn short_buffer(rt: HostRuntime) -> Result<(), Fail> {
    let mut buffer = [7; LENGTH - 1];
    check_eq(
        report_blank(rt.alloc(), &mut buffer)?,
        Err(Refusal::BufferTooShort),
    )?;
    check_eq(buffer[0], 7)?;
    check_eq(buffer[LENGTH - 2], 7)
}
