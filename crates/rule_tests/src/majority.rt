// Rule 2.
use crate::agents::{NONE, OTHER, OWN, SIZES, THIRD, at, has_seen, having, over, stands, steps};
use cells::Mark;
use rule_majority::{Majority, MajorityPhase as Phase};
use rules::{Answer, Rule, Section};
use std::test::Fail;

// The last of these marks is read in `Phase::Scan`, the others were seen before.
fn scans(
    marks: &[Mark],
    last: Mark,
    section: Section,
    phase: Phase,
    name: usize,
) -> Result<(), Fail> {
    let cells = marks.len();
    let mut agent = having(at(Section::Asking, Phase::Scan, cells), marks);
    Majority::step(over(cells), &mut agent, Answer::Cell(last));
    stands(&agent, section, phase, name)
}

#[test]
fn takes_and_scans() -> Result<(), Fail> {
    let asking = Section::Asking;
    steps::<Majority>(
        (asking, Phase::Take, 1),
        Answer::Went(true),
        (asking, Phase::Take, 2),
    )?;
    steps::<Majority>(
        (asking, Phase::Take, 1),
        Answer::Went(false),
        (asking, Phase::Take, 2),
    )?;
    steps::<Majority>(
        (asking, Phase::Take, 3),
        Answer::Went(false),
        (asking, Phase::Scan, 1),
    )?;
    steps::<Majority>(
        (asking, Phase::Scan, 1),
        Answer::Cell(OTHER),
        (asking, Phase::Scan, 2),
    )
}

#[test]
fn waits() -> Result<(), Fail> {
    let asking = Section::Asking;
    steps::<Majority>(
        (asking, Phase::Wait, 1),
        Answer::Cell(OTHER),
        (asking, Phase::Wait, 2),
    )?;
    steps::<Majority>(
        (asking, Phase::Wait, 3),
        Answer::Cell(NONE),
        (asking, Phase::Take, 1),
    )?;
    steps::<Majority>(
        (asking, Phase::Wait, 3),
        Answer::Cell(OTHER),
        (asking, Phase::Wait, 1),
    )?;
    let mut agent = having(at(asking, Phase::Wait, 3), &[NONE, OTHER, NONE]);
    Majority::step(SIZES, &mut agent, Answer::Cell(NONE));
    stands(&agent, asking, Phase::Wait, 1)
}

// Own marks against the most of one identity: 2 and 2 of 3; 1 and 2; 0 and 2; 1 and 1; none; rungs do not count.
#[test]
fn scans_of_three() -> Result<(), Fail> {
    let rung = Mark::Rung(2);
    scans(&[OWN, OWN, NONE], OTHER, Section::Holding, Phase::Take, 1)?;
    scans(&[OTHER, OWN, NONE], OTHER, Section::Asking, Phase::Give, 2)?;
    scans(&[OTHER, OTHER, NONE], NONE, Section::Asking, Phase::Wait, 1)?;
    scans(&[OWN, OTHER, NONE], THIRD, Section::Asking, Phase::Take, 1)?;
    scans(&[NONE, NONE, NONE], NONE, Section::Asking, Phase::Take, 1)?;
    scans(&[rung, rung, NONE], OWN, Section::Asking, Phase::Take, 1)
}

// 2 × k against 4: equal, and two more.
#[test]
fn scans_of_four() -> Result<(), Fail> {
    scans(
        &[OWN, OTHER, OWN, NONE],
        OTHER,
        Section::Asking,
        Phase::Take,
        1,
    )?;
    scans(
        &[OWN, OTHER, OWN, NONE],
        OWN,
        Section::Holding,
        Phase::Take,
        1,
    )?;
    scans(
        &[OWN, OTHER, OWN, NONE],
        NONE,
        Section::Asking,
        Phase::Take,
        1,
    )
}

#[test]
fn gives_while_asking() -> Result<(), Fail> {
    let mut agent = having(at(Section::Asking, Phase::Give, 1), &[OWN, OTHER, OWN]);
    Majority::step(SIZES, &mut agent, Answer::Done);
    has_seen(&agent, &[NONE, OTHER, OWN])?;
    stands(&agent, Section::Asking, Phase::Give, 3)?;
    Majority::step(SIZES, &mut agent, Answer::Done);
    has_seen(&agent, &[NONE, OTHER, NONE])?;
    stands(&agent, Section::Asking, Phase::Wait, 1)
}

#[test]
fn leaves() -> Result<(), Fail> {
    let mut agent = having(at(Section::Holding, Phase::Take, 1), &[OTHER, OWN, OWN]);
    Majority::leave(SIZES, &mut agent);
    stands(&agent, Section::Leaving, Phase::Give, 2)?;
    Majority::step(SIZES, &mut agent, Answer::Done);
    stands(&agent, Section::Leaving, Phase::Give, 3)?;
    Majority::step(SIZES, &mut agent, Answer::Done);
    stands(&agent, Section::Idle, Phase::Take, 1)?;
    has_seen(&agent, &[OTHER, NONE, NONE])
}

#[test]
fn requests() -> Result<(), Fail> {
    let mut agent = having(at(Section::Idle, Phase::Take, 1), &[OTHER, OWN]);
    Majority::ask(SIZES, &mut agent);
    has_seen(&agent, &[NONE, NONE])?;
    stands(&agent, Section::Asking, Phase::Take, 1)
}
