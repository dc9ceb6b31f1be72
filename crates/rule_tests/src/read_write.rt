// Rule 1.
use crate::agents::{NONE, OTHER, OWN, SIZES, THIRD, at, has_seen, over, stands, steps};
use cells::Mark;
use rule_read_write::{ReadWrite, ReadWritePhase as Phase};
use rules::{Answer, Rule, Section};
use std::test::Fail;

// An asking agent looks at these marks, of as many cells, and goes to a section, a phase and a name.
fn looks(marks: &[Mark], section: Section, phase: Phase, name: usize) -> Result<(), Fail> {
    let mut agent = at(Section::Asking, Phase::Look, 1);
    ReadWrite::step(over(marks.len()), &mut agent, Answer::Marks(marks));
    has_seen(&agent, marks)?;
    stands(&agent, section, phase, name)
}

#[test]
fn looks_that_hold_wait_or_put() -> Result<(), Fail> {
    looks(&[OWN, OWN, OWN], Section::Holding, Phase::Look, 1)?;
    looks(&[OTHER, NONE, NONE], Section::Asking, Phase::Look, 1)?;
    looks(&[OTHER, OTHER, OTHER], Section::Asking, Phase::Look, 1)?;
    looks(&[NONE, NONE, NONE], Section::Asking, Phase::Put, 1)?;
    looks(&[OWN, NONE, OTHER], Section::Asking, Phase::Put, 2)?;
    looks(&[OTHER, OWN, NONE], Section::Asking, Phase::Put, 3)
}

// With k own marks and d identities: k × d is 4 of 5, 4 of 4, 6 of 5, 3 of 4, and 6 of 5.
#[test]
fn looks_at_full_cells() -> Result<(), Fail> {
    looks(
        &[OWN, OTHER, OWN, OTHER, OTHER],
        Section::Asking,
        Phase::Read,
        1,
    )?;
    looks(&[OWN, OTHER, OWN, OTHER], Section::Asking, Phase::Look, 1)?;
    looks(
        &[OWN, OTHER, OWN, OTHER, OWN],
        Section::Asking,
        Phase::Look,
        1,
    )?;
    looks(&[OWN, OTHER, THIRD, OTHER], Section::Asking, Phase::Read, 1)?;
    looks(
        &[OWN, OTHER, OWN, THIRD, OTHER],
        Section::Asking,
        Phase::Look,
        1,
    )
}

#[test]
fn puts_and_clears() -> Result<(), Fail> {
    let asking = Section::Asking;
    steps::<ReadWrite>(
        (asking, Phase::Put, 1),
        Answer::Done,
        (asking, Phase::Look, 1),
    )?;
    steps::<ReadWrite>(
        (asking, Phase::Put, 3),
        Answer::Done,
        (asking, Phase::Look, 1),
    )?;
    steps::<ReadWrite>(
        (asking, Phase::Clear, 1),
        Answer::Done,
        (asking, Phase::Read, 2),
    )?;
    steps::<ReadWrite>(
        (asking, Phase::Clear, 3),
        Answer::Done,
        (asking, Phase::Look, 1),
    )
}

#[test]
fn reads() -> Result<(), Fail> {
    let asking = Section::Asking;
    steps::<ReadWrite>(
        (asking, Phase::Read, 1),
        Answer::Cell(OWN),
        (asking, Phase::Clear, 1),
    )?;
    steps::<ReadWrite>(
        (asking, Phase::Read, 1),
        Answer::Cell(OTHER),
        (asking, Phase::Read, 2),
    )?;
    steps::<ReadWrite>(
        (asking, Phase::Read, 3),
        Answer::Cell(OWN),
        (asking, Phase::Clear, 3),
    )?;
    steps::<ReadWrite>(
        (asking, Phase::Read, 3),
        Answer::Cell(NONE),
        (asking, Phase::Look, 1),
    )
}

#[test]
fn leaves() -> Result<(), Fail> {
    let leaving = Section::Leaving;
    let idle = (Section::Idle, Phase::Look, 1);
    steps::<ReadWrite>(
        (leaving, Phase::Read, 2),
        Answer::Cell(NONE),
        (leaving, Phase::Read, 3),
    )?;
    steps::<ReadWrite>((leaving, Phase::Read, 3), Answer::Cell(OTHER), idle)?;
    steps::<ReadWrite>(
        (leaving, Phase::Clear, 2),
        Answer::Done,
        (leaving, Phase::Read, 3),
    )?;
    steps::<ReadWrite>((leaving, Phase::Clear, 3), Answer::Done, idle)?;
    let mut agent = at(Section::Holding, Phase::Look, 1);
    ReadWrite::leave(over(1), &mut agent);
    stands(&agent, leaving, Phase::Read, 1)?;
    ReadWrite::step(over(1), &mut agent, Answer::Cell(OWN));
    stands(&agent, leaving, Phase::Clear, 1)?;
    ReadWrite::step(over(1), &mut agent, Answer::Done);
    stands(&agent, Section::Idle, Phase::Look, 1)
}

// A request forgets what was seen; an answer of another kind changes nothing.
#[test]
fn requests() -> Result<(), Fail> {
    let mut agent = at(Section::Idle, Phase::Look, 1);
    agent.see(OTHER);
    ReadWrite::ask(SIZES, &mut agent);
    has_seen(&agent, &[NONE])?;
    stands(&agent, Section::Asking, Phase::Look, 1)?;
    ReadWrite::step(SIZES, &mut agent, Answer::Went(true));
    stands(&agent, Section::Asking, Phase::Look, 1)
}
