// Rounds of stand-offs.
use crate::lines::{Call, Counts, Line};
use crate::rigs::blank_follows;
use cells::Mark;
use mark_table::MarkTable;
use model::Round;
use rules::Section;
use std::test::Fail;

// Four agents over six cells, of which two move together. A call of one agent is not heard, however it would be refused.
// A refused round names agent 1, and is counted for the two agents that move and for no other.
const REFUSED_ROUNDS: &[Line] = &[
    Line::Gives(Call::Standoff(4, 6), Ok(())),
    Line::Gives(Call::Request(0), Err((12, 0, 0))),
    Line::Gives(Call::Step(5), Err((12, 5, 0))),
    Line::Gives(Call::Request(4), Err((23, 0, 0))),
    Line::Gives(Call::Step(1), Err((23, 0, 0))),
    Line::Gives(Call::Leave(2), Err((23, 0, 0))),
    Line::Figures(
        1,
        Counts {
            steps: 0,
            entries: 0,
            refused: 0,
            heard: 0,
        },
    ),
    Line::Gives(Call::StepRound, Err((15, 1, 0))),
    Line::Gives(Call::LeaveRound, Err((14, 1, 0))),
    Line::Figures(
        1,
        Counts {
            steps: 0,
            entries: 0,
            refused: 2,
            heard: 4,
        },
    ),
    Line::Gives(Call::RequestRound, Ok(())),
    Line::Gives(Call::Round(Round::Request), Err((13, 1, 0))),
    Line::Figures(
        1,
        Counts {
            steps: 0,
            entries: 0,
            refused: 3,
            heard: 8,
        },
    ),
    Line::Figures(
        2,
        Counts {
            steps: 0,
            entries: 0,
            refused: 3,
            heard: 8,
        },
    ),
    Line::Figures(
        3,
        Counts {
            steps: 0,
            entries: 0,
            refused: 0,
            heard: 8,
        },
    ),
    Line::Section(2, Section::Asking),
    Line::Section(3, Section::Idle),
    Line::Sizes(4, 6, 2),
];

// Two agents over four cells, the second from cell 3 on: two marks each, and then no look lets either hold or withdraw.
const FRUITLESS: &[Line] = &[
    Line::Gives(Call::Standoff(2, 4), Ok(())),
    Line::Gives(Call::RequestRound, Ok(())),
    Line::Times(9, Call::StepRound),
    Line::Cell(1, Mark::Owner(1)),
    Line::Cell(2, Mark::Owner(1)),
    Line::Cell(3, Mark::Owner(2)),
    Line::Cell(4, Mark::Owner(2)),
    Line::Figures(
        2,
        Counts {
            steps: 9,
            entries: 0,
            refused: 0,
            heard: 20,
        },
    ),
    Line::Gives(Call::Round(Round::Step), Ok(())),
    Line::Gives(Call::Round(Round::Leave), Err((14, 1, 0))),
    Line::Holder(None),
];

#[test]
fn refused_rounds(rt: HostRuntime) -> Result<(), Fail> {
    blank_follows(rt.alloc(), MarkTable::new(6), REFUSED_ROUNDS)
}

#[test]
fn fruitless_rounds(rt: HostRuntime) -> Result<(), Fail> {
    blank_follows(rt.alloc(), MarkTable::new(4), FRUITLESS)
}
