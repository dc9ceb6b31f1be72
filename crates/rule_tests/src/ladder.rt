// Rule 3, mostly with two agents and three cells.
use crate::agents::{NONE, OTHER, SIZES, at, has_seen, having, over, stands};
use cells::Mark;
use rule_ladder::{Ladder, LadderPhase as Phase};
use rules::{Agent, Answer, Rule, Section};
use std::test::Fail;
use test_checks::check_eq;

// An asking agent on a rung, with flags at the first names.
fn climber(phase: Phase, name: usize, rung: u8, flags: [bool; 4]) -> Agent<Phase> {
    let mut agent = at(Section::Asking, phase, name);
    agent.rung = rung;
    agent.flags[..4].copy_from_slice(&flags);
    agent
}

// The rung, and the flags at the first names.
fn has(agent: &Agent<Phase>, rung: u8, flags: [bool; 4]) -> Result<(), Fail> {
    check_eq(agent.rung, rung)?;
    for (flag, expected) in agent.flags.iter().zip(&flags) {
        check_eq(*flag, *expected)?;
    }
    Ok(())
}

const FLAT: [bool; 4] = [false, false, false, false];

const ENDS: [bool; 4] = [true, false, true, false];

const THREE: [bool; 4] = [true, true, true, false];

#[test]
fn seeks() -> Result<(), Fail> {
    let mut agent = climber(Phase::Seek, 1, 0, FLAT);
    Ladder::step(SIZES, &mut agent, Answer::Cell(OTHER));
    stands(&agent, Section::Asking, Phase::Seek, 2)?;
    let mut agent = climber(Phase::Seek, 3, 0, FLAT);
    Ladder::step(SIZES, &mut agent, Answer::Cell(NONE));
    stands(&agent, Section::Asking, Phase::Take, 1)?;
    has(&agent, 1, FLAT)?;
    let mut agent = having(climber(Phase::Seek, 3, 0, FLAT), &[NONE, OTHER, NONE]);
    Ladder::step(SIZES, &mut agent, Answer::Cell(NONE));
    stands(&agent, Section::Asking, Phase::Seek, 1)?;
    has(&agent, 0, FLAT)
}

// After `Phase::Take` at name 3 on rung 1 twice the count stands against 3: here 0 and 2.
#[test]
fn takes() -> Result<(), Fail> {
    let mut agent = climber(Phase::Take, 1, 1, FLAT);
    Ladder::step(SIZES, &mut agent, Answer::Went(true));
    stands(&agent, Section::Asking, Phase::Take, 2)?;
    has(&agent, 1, [true, false, false, false])?;
    let mut agent = climber(Phase::Take, 3, 1, FLAT);
    Ladder::step(SIZES, &mut agent, Answer::Went(false));
    stands(&agent, Section::Asking, Phase::Seek, 1)?;
    has(&agent, 0, FLAT)?;
    let mut agent = climber(Phase::Take, 3, 1, [false, true, false, false]);
    Ladder::step(SIZES, &mut agent, Answer::Went(false));
    stands(&agent, Section::Asking, Phase::Drop, 2)?;
    has(&agent, 0, [false, true, false, false])
}

// Here 4 against 3, and of four cells 4 against 4.
#[test]
fn climbs() -> Result<(), Fail> {
    let mut agent = climber(Phase::Take, 3, 1, [true, false, false, false]);
    Ladder::step(SIZES, &mut agent, Answer::Went(true));
    stands(&agent, Section::Asking, Phase::Raise, 1)?;
    has(&agent, 2, ENDS)?;
    Ladder::step(SIZES, &mut agent, Answer::Done);
    stands(&agent, Section::Asking, Phase::Raise, 3)?;
    Ladder::step(SIZES, &mut agent, Answer::Done);
    stands(&agent, Section::Asking, Phase::Fill, 1)?;
    let mut agent = climber(Phase::Take, 4, 1, ENDS);
    Ladder::step(over(4), &mut agent, Answer::Went(false));
    stands(&agent, Section::Asking, Phase::Raise, 1)?;
    has(&agent, 2, ENDS)
}

#[test]
fn fills() -> Result<(), Fail> {
    let mut agent = climber(Phase::Fill, 1, 2, ENDS);
    Ladder::step(SIZES, &mut agent, Answer::Cell(Mark::Rung(2)));
    stands(&agent, Section::Asking, Phase::Fill, 2)?;
    Ladder::step(SIZES, &mut agent, Answer::Cell(Mark::Rung(1)));
    stands(&agent, Section::Asking, Phase::Try, 2)?;
    Ladder::step(SIZES, &mut agent, Answer::Went(false));
    stands(&agent, Section::Asking, Phase::Fill, 2)?;
    Ladder::step(SIZES, &mut agent, Answer::Cell(NONE));
    Ladder::step(SIZES, &mut agent, Answer::Went(true));
    stands(&agent, Section::Asking, Phase::Fill, 3)?;
    has(&agent, 2, THREE)?;
    Ladder::step(SIZES, &mut agent, Answer::Cell(Mark::Rung(3)));
    stands(&agent, Section::Holding, Phase::Seek, 1)?;
    has(&agent, 2, THREE)
}

// On the highest rung all three cells are needed.
#[test]
fn fails_on_the_highest_rung() -> Result<(), Fail> {
    let mut agent = climber(Phase::Fill, 3, 2, ENDS);
    Ladder::step(SIZES, &mut agent, Answer::Cell(Mark::Rung(2)));
    stands(&agent, Section::Asking, Phase::Drop, 1)?;
    has(&agent, 0, ENDS)?;
    Ladder::step(SIZES, &mut agent, Answer::Done);
    stands(&agent, Section::Asking, Phase::Drop, 3)?;
    has(&agent, 0, [false, false, true, false])?;
    Ladder::step(SIZES, &mut agent, Answer::Done);
    stands(&agent, Section::Asking, Phase::Seek, 1)?;
    has(&agent, 0, FLAT)
}

#[test]
fn leaves() -> Result<(), Fail> {
    let mut agent = climber(Phase::Seek, 1, 2, ENDS);
    agent.section = Section::Holding;
    Ladder::leave(SIZES, &mut agent);
    stands(&agent, Section::Leaving, Phase::Drop, 1)?;
    has(&agent, 0, ENDS)?;
    Ladder::step(SIZES, &mut agent, Answer::Done);
    stands(&agent, Section::Leaving, Phase::Drop, 3)?;
    Ladder::step(SIZES, &mut agent, Answer::Done);
    stands(&agent, Section::Idle, Phase::Seek, 1)?;
    has(&agent, 0, FLAT)
}

// A request drops rung and flags, and keeps what was seen.
#[test]
fn requests() -> Result<(), Fail> {
    let mut agent = having(climber(Phase::Seek, 1, 2, ENDS), &[OTHER]);
    agent.section = Section::Idle;
    Ladder::ask(SIZES, &mut agent);
    stands(&agent, Section::Asking, Phase::Seek, 1)?;
    has(&agent, 0, FLAT)?;
    has_seen(&agent, &[OTHER])
}
