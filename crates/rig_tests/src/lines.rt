// What a test says of a rig, line by line.
use crate::rigs::{Plain, TWO_OVER_THREE};
use cells::Mark;
use model::Round;
use numbers::sizes::Sizes;
use plan::Event;
use rules::{Rule, Section};
use std::test::Fail;
use test_checks::{check_eq, verdict};

// A call of a rig, or a question. Calls and lines are data: a test is a table of them, and not a chain of code.
#[derive(Clone, Copy)]
pub enum Call {
    // The plan of two agents over three cells, or only its first bytes.
    Plan,
    ShortPlan,
    // A stand-off of so many agents over so many cells.
    Standoff(usize, usize),
    Event(Event),
    Request(usize),
    Step(usize),
    Leave(usize),
    Round(Round),
    RequestRound,
    StepRound,
    LeaveRound,
    Section(usize),
    Figures(usize),
    Cell(usize),
}

// Accepted, or the number and both places of a refusal.
pub type Verdict = Result<(), (u8, usize, usize)>;

// An agent's steps, entries and refusals, and the calls that were heard. Not `model::Figures`: a line tells these four
// counts, and the crowd has its own.
#[derive(Clone, Copy, PartialEq, Eq, Debug)]
pub struct Counts {
    pub steps: u32,
    pub entries: u32,
    pub refused: u32,
    pub heard: u32,
}

#[derive(Clone, Copy)]
pub enum Line {
    // The call has this verdict.
    Gives(Call, Verdict),
    // The call is made so many times, whatever it answers.
    Times(usize, Call),
    Figures(usize, Counts),
    Section(usize, Section),
    Holder(Option<usize>),
    Cell(usize, Mark),
    // Agents, cells, and the crowd.
    Sizes(usize, usize, u8),
}

fn answer(rig: &mut Plain, call: Call) -> Verdict {
    match call {
        Call::Plan => verdict(rig.load(&TWO_OVER_THREE)),
        Call::ShortPlan => verdict(rig.load(&TWO_OVER_THREE[..11])),
        Call::Standoff(agents, cells) => verdict(rig.load_standoff(Sizes { agents, cells })),
        Call::Event(event) => verdict(rig.call(event)),
        Call::Request(agent) => verdict(rig.request(agent)),
        Call::Step(agent) => verdict(rig.step(agent)),
        Call::Leave(agent) => verdict(rig.leave(agent)),
        Call::Round(round) => verdict(rig.round(round)),
        Call::RequestRound => verdict(rig.request_round()),
        Call::StepRound => verdict(rig.step_round()),
        Call::LeaveRound => verdict(rig.leave_round()),
        Call::Section(agent) => verdict(rig.section(agent)).map(|_| ()),
        Call::Figures(agent) => verdict(rig.figures(agent)).map(|_| ()),
        Call::Cell(name) => verdict(rig.cell(name)).map(|_| ()),
    }
}

fn repeat(rig: &mut Plain, times: usize, call: Call) {
    for _ in 0..times {
        let _ = answer(rig, call);
    }
}

// What is counted of an agent, if there is one.
fn counted(rig: &Plain, agent: usize) -> Option<Counts> {
    let figures = rig.figures(agent).ok()?;
    Some(Counts {
        steps: figures.steps,
        entries: figures.entries,
        refused: figures.refused,
        heard: figures.heard,
    })
}

fn holds(rig: &mut Plain, line: Line) -> Result<(), Fail> {
    match line {
        Line::Gives(call, expected) => check_eq(answer(rig, call), expected),
        Line::Times(times, call) => {
            repeat(rig, times, call);
            Ok(())
        }
        Line::Figures(agent, expected) => check_eq(counted(rig, agent), Some(expected)),
        Line::Section(agent, expected) => check_eq(rig.section(agent).ok(), Some(expected)),
        Line::Holder(expected) => check_eq(rig.holder(), expected),
        Line::Cell(name, expected) => check_eq(rig.cell(name).ok(), Some(expected)),
        Line::Sizes(agents, cells, crowd) => {
            check_eq(
                (rig.agents(), rig.cells(), rig.crowd()),
                (agents, cells, crowd),
            )
        }
    }
}

// Each line holds after those before it.
pub fn follows(rig: &mut Plain, lines: &[Line]) -> Result<(), Fail> {
    for line in lines {
        holds(rig, *line)?;
    }
    Ok(())
}
