// The moves of an agent under the rule.
ghost use Rattle.std.specs.Prelude.{◌≡◌};
ghost use Rattle.rule_majority.specs.Majority.{own_name, own_seen, most_seen, nothing_left, give_next, decided, waited};

use crate::phase::MajorityPhase;
use crate::verdict::{Verdict, judge};
use numbers::sizes::Sizes;
use rules::{Agent, Section};
use tally::{count_of, lowest_name_of, most_of_one_identity};

// The lowest name seen as the agent's own.
pub fn lowest_own(sizes: Sizes, agent: &Agent<MajorityPhase>) -> Option<usize>
    ensures value { result ≡ own_name sizes.cells agent.now }
{
    lowest_name_of(agent.seen_at(sizes.cells), agent.own())
}

// How many marks were seen as the agent's own.
fn count_own(sizes: Sizes, agent: &Agent<MajorityPhase>) -> usize
    ensures value { result ≡ own_seen sizes.cells agent.now }
{
    count_of(agent.seen_at(sizes.cells), agent.own())
}

// The most marks seen of one identity.
fn count_most(sizes: Sizes, agent: &Agent<MajorityPhase>) -> usize
    ensures value { result ≡ most_seen sizes.cells agent.now }
{
    most_of_one_identity(agent.seen_at(sizes.cells))
}

// With nothing left to give, an asking agent waits and a leaving one is idle.
fn end_giving(agent: &mut Agent<MajorityPhase>)
    ensures after { agent.new ≡ nothing_left agent.old }
{
    match agent.section {
        Section::Leaving => agent.go(Section::Idle, MajorityPhase::Take, 1),
        _ => agent.turn(MajorityPhase::Wait, 1),
    }
}

// Gives at the lowest name seen as the agent's own, or ends giving.
pub fn give_next(sizes: Sizes, agent: &mut Agent<MajorityPhase>)
    ensures after { agent.new ≡ give_next sizes.cells agent.old }
{
    match lowest_own(sizes, agent) {
        Some(name) => agent.turn(MajorityPhase::Give, name),
        None => end_giving(agent),
    }
}

// After a scan: withdraws, holds, or takes again.
pub fn decide(sizes: Sizes, agent: &mut Agent<MajorityPhase>)
    ensures after { agent.new ≡ decided sizes.cells agent.old }
{
    let own = count_own(sizes, agent);
    let most = count_most(sizes, agent);
    match judge(own, most, sizes.cells) {
        Verdict::Withdraw => give_next(sizes, agent),
        Verdict::Hold => agent.go(Section::Holding, MajorityPhase::Take, 1),
        Verdict::Again => agent.turn(MajorityPhase::Take, 1),
    }
}

// After a round of waiting: takes again once all cells were seen empty, and else waits on.
pub fn wait_on(sizes: Sizes, agent: &mut Agent<MajorityPhase>)
    ensures after { agent.new ≡ waited sizes.cells agent.old }
{
    let phase = if agent.saw_all_empty(sizes.cells) {
        MajorityPhase::Take
    } else {
        MajorityPhase::Wait
    };
    agent.turn(phase, 1);
}
