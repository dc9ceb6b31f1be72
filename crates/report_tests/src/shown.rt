// What is shown of a plan file: the report of its trial, or the line of its refusal.
use report::report_after_two_requests;
use std::alloc::{AllocError, Global};
use std::test::Fail;
use test_checks::{check, check_eq};
use trials::{MAX_REPORT, show_trial, trial_text};

// Two agents over three cells, by rule 1.
const HEADER: [u8; 12] = [1, 1, 2, 3, 0, 12, 0, 16, 0, 22, 0, 21];

// 700 and 41.
const IDENTITIES: [u8; 4] = [2, 188, 0, 41];

const TABLES: [u8; 6] = [1, 2, 3, 2, 3, 1];

// Both agents ask, and step until the second holds.
const EVENTS: [u8; 42] = [
    1, 1, 1, 2, 2, 1, 2, 2, 2, 1, 2, 2, 2, 1, 2, 2, 2, 1, 2, 2, 2, 1, 2, 2, 2, 1, 2, 1, 2, 1, 2, 1,
    2, 2, 2, 2, 2, 2, 2, 1, 3, 1,
];

// The whole plan.
fn two_requests(heap: Global) -> Result<Vec<u8>, AllocError> {
    let mut file = Vec::from_slice(heap, &HEADER)?;
    file.extend_from_slice(&IDENTITIES)?;
    file.extend_from_slice(&TABLES)?;
    file.extend_from_slice(&EVENTS)?;
    Ok(file)
}

#[test]
fn accepted_plan(rt: HostRuntime) -> Result<(), Fail> {
    let file = two_requests(rt.alloc())?;
    let text = trial_text(rt.alloc(), &file)?;
    check(text.as_slice() == report_after_two_requests())
}

#[test]
fn refused_file(rt: HostRuntime) -> Result<(), Fail> {
    let text = trial_text(rt.alloc(), &HEADER[..11])?;
    check(text.as_slice() == b"refused 1 file place 0 0\n".as_slice())
}

#[test]
fn accepted_plan_in_buffer(rt: HostRuntime) -> Result<(), Fail> {
    let file = two_requests(rt.alloc())?;
    let mut buffer = [7; MAX_REPORT];
    let length = show_trial(rt.alloc(), &file, &mut buffer)?;
    check(&buffer[..length] == report_after_two_requests())?;
    check_eq(buffer.get(length).copied(), Some(7))
}

#[test]
fn refused_file_in_buffer(rt: HostRuntime) -> Result<(), Fail> {
    let mut buffer = [7; MAX_REPORT];
    let length = show_trial(rt.alloc(), &HEADER[..11], &mut buffer)?;
    check(&buffer[..length] == b"refused 1 file place 0 0\n".as_slice())?;
    check_eq(buffer.get(length).copied(), Some(7))
}
