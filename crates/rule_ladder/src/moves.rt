// The moves of an agent on the ladder.
ghost use Rattle.std.specs.Prelude.{◌≡◌};
ghost use Rattle.rule_ladder.specs.Moves.{rested, sought, dropping, raising_at, raising_next, judged, onward};

use crate::flags::next_flag_set;
use crate::phase::LadderPhase;
use crate::verdict::{Verdict, judge};
use cells::Mark;
use numbers::sizes::Sizes;
use rules::{Agent, Section};
use tally::{count_flags, lowest_flag_set};

// Notes a mark while seeking, and goes on to the next name; after the last one to take, if all are empty, or else to seek
// again.
pub fn seek(sizes: Sizes, agent: &mut Agent<LadderPhase>, mark: Mark)
    ensures after { agent.new ≡ sought sizes.cells agent.old mark }
{
    agent.see(mark);
    if agent.name < sizes.cells {
        agent.turn(LadderPhase::Seek, agent.name + 1);
    } else if agent.saw_all_empty(sizes.cells) {
        agent.rung = 1;
        agent.turn(LadderPhase::Take, 1);
    } else {
        agent.turn(LadderPhase::Seek, 1);
    }
}

// Goes on with a phase at the next name; after the last one the agent is judged.
pub fn go_on(sizes: Sizes, agent: &mut Agent<LadderPhase>, phase: LadderPhase)
    ensures after { agent.new ≡ onward sizes.agents sizes.cells agent.old phase }
{
    if agent.name < sizes.cells {
        agent.turn(phase, agent.name + 1);
    } else {
        settle(sizes, agent);
    }
}

// Judges an agent, and does as the verdict says.
fn settle(sizes: Sizes, agent: &mut Agent<LadderPhase>)
    ensures after { agent.new ≡ judged sizes.agents sizes.cells agent.old }
{
    let count = count_flags(agent.flags_at(sizes.cells));
    match judge(sizes, agent.rung, count) {
        Verdict::Withdraw => {
            agent.rung = 0;
            drop_lowest(sizes, agent);
        }
        Verdict::Hold => agent.go(Section::Holding, LadderPhase::Seek, 1),
        Verdict::Climb => {
            agent.rung = agent.rung.saturating_add(1);
            let lowest = lowest_flag_set(agent.flags_at(sizes.cells));
            raise(agent, lowest);
        }
    }
}

// Goes to raise the mark at a flagged name, and where there is none to fill.
fn raise(agent: &mut Agent<LadderPhase>, flagged: Option<usize>)
    ensures after { agent.new ≡ raising_at agent.old flagged }
{
    match flagged {
        Some(name) => agent.turn(LadderPhase::Raise, name),
        None => agent.turn(LadderPhase::Fill, 1),
    }
}

// Goes to raise the mark at the next flagged name, and after the last one to fill.
pub fn raise_next(sizes: Sizes, agent: &mut Agent<LadderPhase>)
    ensures after { agent.new ≡ raising_next sizes.cells agent.old }
{
    let next = next_flag_set(agent.flags_at(sizes.cells), agent.name);
    raise(agent, next);
}

// Goes to drop the mark at the lowest flagged name, and where no flag is left to seek again or to be idle.
pub fn drop_lowest(sizes: Sizes, agent: &mut Agent<LadderPhase>)
    ensures after { agent.new ≡ dropping sizes.cells agent.old }
{
    match lowest_flag_set(agent.flags_at(sizes.cells)) {
        Some(name) => agent.turn(LadderPhase::Drop, name),
        None => agent.go(rest(agent.section), LadderPhase::Seek, 1),
    }
}

// The section of an agent that has dropped all its marks.
fn rest(section: Section) -> Section
    ensures value { result ≡ rested section }
{
    match section {
        Section::Leaving => Section::Idle,
        other => other,
    }
}
