// Calls of one agent: a refusal comes before every later one, and only those for the section are counted.
use crate::lines::{Call, Counts, Line};
use crate::rigs::blank_follows;
use cells::Mark;
use mark_table::MarkTable;
use plan::Event;
use rules::Section;
use std::test::Fail;

// A blank rig has no agents and is no stand-off; its store answers for itself.
const BLANK: &[Line] = &[
    Line::Sizes(0, 0, 0),
    Line::Holder(None),
    Line::Gives(Call::Request(1), Err((12, 1, 0))),
    Line::Gives(Call::Step(0), Err((12, 0, 0))),
    Line::Gives(Call::Leave(16), Err((12, 16, 0))),
    Line::Gives(Call::Section(1), Err((12, 1, 0))),
    Line::Gives(Call::Figures(1), Err((12, 1, 0))),
    Line::Gives(Call::RequestRound, Err((23, 0, 0))),
    Line::Gives(Call::StepRound, Err((23, 0, 0))),
    Line::Gives(Call::LeaveRound, Err((23, 0, 0))),
    Line::Gives(Call::Cell(0), Err((17, 0, 0))),
    Line::Cell(3, Mark::Empty),
    Line::Gives(Call::Cell(4), Err((17, 4, 0))),
];

// An idle agent cannot step or leave, one that asks can only step. Agents 0 and 3 and rounds are heard by nobody.
const REFUSED: &[Line] = &[
    Line::Gives(Call::Plan, Ok(())),
    Line::Gives(Call::Step(1), Err((15, 1, 0))),
    Line::Gives(Call::Event(Event::Leave(1)), Err((14, 1, 0))),
    Line::Figures(
        1,
        Counts {
            steps: 0,
            entries: 0,
            refused: 2,
            heard: 2,
        },
    ),
    Line::Section(1, Section::Idle),
    Line::Gives(Call::Request(0), Err((12, 0, 0))),
    Line::Gives(Call::Event(Event::Request(3)), Err((12, 3, 0))),
    Line::Gives(Call::RequestRound, Err((23, 0, 0))),
    Line::Gives(Call::Request(1), Ok(())),
    Line::Gives(Call::Request(1), Err((13, 1, 0))),
    Line::Gives(Call::Leave(1), Err((14, 1, 0))),
    Line::Section(1, Section::Asking),
    Line::Gives(Call::Event(Event::Step(1)), Ok(())),
    Line::Figures(
        1,
        Counts {
            steps: 1,
            entries: 0,
            refused: 4,
            heard: 6,
        },
    ),
    Line::Figures(
        2,
        Counts {
            steps: 0,
            entries: 0,
            refused: 0,
            heard: 6,
        },
    ),
    Line::Sizes(2, 3, 1),
    Line::Cell(1, Mark::Empty),
];

// Alone an agent looks four times and puts three marks, and then holds; leaving, it reads and clears three cells. Two of
// the first nine steps come too late, and one of the last seven.
const WHOLE_TURN: &[Line] = &[
    Line::Gives(Call::Plan, Ok(())),
    Line::Gives(Call::Request(1), Ok(())),
    Line::Times(6, Call::Step(1)),
    Line::Holder(None),
    Line::Times(3, Call::Step(1)),
    Line::Holder(Some(1)),
    Line::Cell(2, Mark::Owner(700)),
    Line::Cell(3, Mark::Owner(700)),
    Line::Figures(
        1,
        Counts {
            steps: 7,
            entries: 1,
            refused: 2,
            heard: 10,
        },
    ),
    Line::Gives(Call::Request(1), Err((13, 1, 0))),
    Line::Gives(Call::Leave(1), Ok(())),
    Line::Gives(Call::Leave(1), Err((14, 1, 0))),
    Line::Section(1, Section::Leaving),
    Line::Times(7, Call::Step(1)),
    Line::Section(1, Section::Idle),
    Line::Cell(3, Mark::Empty),
    Line::Figures(
        1,
        Counts {
            steps: 13,
            entries: 1,
            refused: 5,
            heard: 20,
        },
    ),
];

// Agent 2 looks and puts its mark at its name 1, which is cell 3; nothing of agent 1 changes. The crowd stays at the
// most.
const OWN_TABLE: &[Line] = &[
    Line::Gives(Call::Plan, Ok(())),
    Line::Gives(Call::Request(2), Ok(())),
    Line::Times(2, Call::Step(2)),
    Line::Cell(1, Mark::Empty),
    Line::Cell(2, Mark::Empty),
    Line::Cell(3, Mark::Owner(41)),
    Line::Section(1, Section::Idle),
    Line::Figures(
        1,
        Counts {
            steps: 0,
            entries: 0,
            refused: 0,
            heard: 3,
        },
    ),
    Line::Gives(Call::Request(1), Ok(())),
    Line::Sizes(2, 3, 2),
    Line::Times(5, Call::Step(2)),
    Line::Holder(Some(2)),
    Line::Cell(1, Mark::Owner(41)),
    Line::Sizes(2, 3, 2),
];

#[test]
fn blank_rig(rt: HostRuntime) -> Result<(), Fail> {
    blank_follows(rt.alloc(), MarkTable::new(3), BLANK)
}

#[test]
fn counted_refusals(rt: HostRuntime) -> Result<(), Fail> {
    blank_follows(rt.alloc(), MarkTable::new(3), REFUSED)
}

#[test]
fn whole_turn(rt: HostRuntime) -> Result<(), Fail> {
    blank_follows(rt.alloc(), MarkTable::new(3), WHOLE_TURN)
}

#[test]
fn own_table(rt: HostRuntime) -> Result<(), Fail> {
    blank_follows(rt.alloc(), MarkTable::new(3), OWN_TABLE)
}
