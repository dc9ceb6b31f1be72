// Agents to begin with, and what is checked of them afterwards.
use cells::Mark;
use numbers::sizes::Sizes;
use rules::{Agent, Answer, Rule, Section};
use std::fmt::Debug;
use std::test::Fail;
use test_checks::check_eq;

// The identity of every agent here.
pub const ME: u16 = 7;

pub const OWN: Mark = Mark::Owner(ME);

pub const OTHER: Mark = Mark::Owner(9);

pub const THIRD: Mark = Mark::Owner(3);

pub const NONE: Mark = Mark::Empty;

// Two agents and three cells, as in most tests.
pub const SIZES: Sizes = Sizes {
    agents: 2,
    cells: 3,
};

// Two agents, and other cells.
pub fn over(cells: usize) -> Sizes {
    Sizes { agents: 2, cells }
}

pub fn at<P: Copy>(section: Section, phase: P, name: usize) -> Agent<P> {
    Agent {
        section,
        identity: ME,
        phase,
        name,
        rung: 0,
        seen: [Mark::Empty; 64],
        flags: [false; 64],
    }
}

pub fn stands<P: PartialEq + Debug + Copy>(
    agent: &Agent<P>,
    section: Section,
    phase: P,
    name: usize,
) -> Result<(), Fail> {
    check_eq(agent.section, section)?;
    check_eq(agent.phase, phase)?;
    check_eq(agent.name, name)?;
    check_eq(agent.identity, ME)
}

// An agent in a section, at a phase and a name, gets an answer, among three cells, and goes to others.
pub fn steps<R: Rule>(
    from: (Section, R::Phase, usize),
    answer: Answer<'_>,
    to: (Section, R::Phase, usize),
) -> Result<(), Fail>
where
    R::Phase: PartialEq + Debug,
{
    let (section, phase, name) = from;
    let mut agent = at(section, phase, name);
    R::step(SIZES, &mut agent, answer);
    let (section, phase, name) = to;
    stands(&agent, section, phase, name)
}

// What was seen at the first names.
pub fn has_seen<P: Copy>(agent: &Agent<P>, marks: &[Mark]) -> Result<(), Fail> {
    for (seen, mark) in agent.seen.iter().zip(marks) {
        check_eq(*seen, *mark)?;
    }
    Ok(())
}

// The same agent, having seen these marks at the first names.
pub fn having<P: Copy>(mut agent: Agent<P>, marks: &[Mark]) -> Agent<P> {
    agent.see_all(marks);
    agent
}
