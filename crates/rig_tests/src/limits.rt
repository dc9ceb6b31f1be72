// The last of 1,000,000 calls, and what comes after it.
use crate::lines::{Call, Counts, Line};
use crate::rigs::blank_follows;
use mark_table::MarkTable;
use rules::Section;
use std::test::Fail;

// Agent 2, which is idle, would leave 999,999 times. The next call is accepted; then all are refused before their
// sections are looked at, and nothing is counted.
const LAST_CALL: &[Line] = &[
    Line::Gives(Call::Plan, Ok(())),
    Line::Times(999_999, Call::Leave(2)),
    Line::Figures(
        2,
        Counts {
            steps: 0,
            entries: 0,
            refused: 999_999,
            heard: 999_999,
        },
    ),
    Line::Gives(Call::Request(1), Ok(())),
    Line::Gives(Call::Step(1), Err((16, 0, 0))),
    Line::Gives(Call::Request(1), Err((16, 0, 0))),
    Line::Gives(Call::Leave(2), Err((16, 0, 0))),
    Line::Gives(Call::Step(2), Err((16, 0, 0))),
    Line::Gives(Call::Step(3), Err((12, 3, 0))),
    Line::Gives(Call::StepRound, Err((23, 0, 0))),
    Line::Section(1, Section::Asking),
    Line::Figures(
        1,
        Counts {
            steps: 0,
            entries: 0,
            refused: 0,
            heard: 1_000_000,
        },
    ),
    Line::Figures(
        2,
        Counts {
            steps: 0,
            entries: 0,
            refused: 999_999,
            heard: 1_000_000,
        },
    ),
];

// The last call may be a refused one.
const LAST_REFUSAL: &[Line] = &[
    Line::Gives(Call::Plan, Ok(())),
    Line::Times(999_999, Call::Leave(2)),
    Line::Gives(Call::Leave(2), Err((14, 2, 0))),
    Line::Gives(Call::Leave(2), Err((16, 0, 0))),
    Line::Figures(
        2,
        Counts {
            steps: 0,
            entries: 0,
            refused: 1_000_000,
            heard: 1_000_000,
        },
    ),
];

// Two agents: 999,998 calls and a round of two are just all.
const LAST_ROUND: &[Line] = &[
    Line::Gives(Call::Standoff(2, 4), Ok(())),
    Line::Times(499_999, Call::LeaveRound),
    Line::Figures(
        1,
        Counts {
            steps: 0,
            entries: 0,
            refused: 499_999,
            heard: 999_998,
        },
    ),
    Line::Gives(Call::RequestRound, Ok(())),
    Line::Figures(
        2,
        Counts {
            steps: 0,
            entries: 0,
            refused: 499_999,
            heard: 1_000_000,
        },
    ),
    Line::Gives(Call::StepRound, Err((16, 0, 0))),
    Line::Gives(Call::RequestRound, Err((16, 0, 0))),
    Line::Gives(Call::LeaveRound, Err((16, 0, 0))),
    Line::Gives(Call::Step(1), Err((23, 0, 0))),
    Line::Section(1, Section::Asking),
    Line::Figures(
        1,
        Counts {
            steps: 0,
            entries: 0,
            refused: 499_999,
            heard: 1_000_000,
        },
    ),
];

// Three agents: after 999,999 calls a round of three is too much, and none of the three is heard.
const ROUND_TOO_MANY: &[Line] = &[
    Line::Gives(Call::Standoff(3, 9), Ok(())),
    Line::Times(333_333, Call::LeaveRound),
    Line::Figures(
        3,
        Counts {
            steps: 0,
            entries: 0,
            refused: 333_333,
            heard: 999_999,
        },
    ),
    Line::Gives(Call::RequestRound, Err((16, 0, 0))),
    Line::Gives(Call::StepRound, Err((16, 0, 0))),
    Line::Section(1, Section::Idle),
    Line::Figures(
        1,
        Counts {
            steps: 0,
            entries: 0,
            refused: 333_333,
            heard: 999_999,
        },
    ),
];

#[test]
fn last_call(rt: HostRuntime) -> Result<(), Fail> {
    blank_follows(rt.alloc(), MarkTable::new(3), LAST_CALL)?;
    blank_follows(rt.alloc(), MarkTable::new(3), LAST_REFUSAL)
}

#[test]
fn last_round(rt: HostRuntime) -> Result<(), Fail> {
    blank_follows(rt.alloc(), MarkTable::new(4), LAST_ROUND)
}

#[test]
fn round_too_many(rt: HostRuntime) -> Result<(), Fail> {
    blank_follows(rt.alloc(), MarkTable::new(9), ROUND_TOO_MANY)
}
