// The machine of one agent.
ghost use Rattle.std.specs.Prelude.{◌≡◌};
ghost use Rattle.rule_read_write.specs.declared.phase.ReadWritePhase.TheVariants.{Look};
ghost use Rattle.rule_read_write.specs.ReadWrite.{looked, onward, wants_next, next, first_asking, first_leaving, Reached};
ghost use Rattle.rule_read_write.specs.Laws;
ghost use Rattle.rule_read_write.specs.Laws.{steps_replaced};
ghost use Rattle.std.proofs.Common.{rules};

use crate::judging::{Verdict, judge_look};
use crate::phase::ReadWritePhase as Phase;
use cells::Mark;
use numbers::sizes::Sizes;
use rules::{Agent, Answer, Rule, Section, Want};

// Rule 1.
#[derive(Clone, Copy)]
pub struct ReadWrite;

// Where a request begins, and where an agent at rest stands.
const FIRST: Phase = Phase::Look;

// After a look: the marks are noted and judged in the same step.
fn look(sizes: Sizes, agent: &mut Agent<Phase>, marks: &[Mark])
    ensures after { agent.new ≡ looked sizes.cells agent.old marks.now }
{
    agent.see_all(marks);
    match judge_look(marks, agent.own(), sizes.cells) {
        Verdict::Hold => agent.go(Section::Holding, Phase::Look, 1),
        Verdict::Again => agent.turn(Phase::Look, 1),
        Verdict::Put(name) => agent.turn(Phase::Put, name),
        Verdict::Withdraw => agent.turn(Phase::Read, 1),
    }
}

// From one name to the next; behind the last an asking agent looks again, and a leaving one is idle.
fn go_on(sizes: Sizes, agent: &mut Agent<Phase>)
    ensures after { agent.new ≡ onward sizes.cells agent.old }
{
    match agent.section {
        _ if agent.name < sizes.cells => agent.turn(Phase::Read, agent.name + 1),
        Section::Leaving => agent.go(Section::Idle, Phase::Look, 1),
        _ => agent.turn(Phase::Look, 1),
    }
}

impl Rule for ReadWrite {
    const NUMBER: u8 = 1;

    ghost NUMBER = { 1 };

    type Phase = Phase;

    ghost loaded = { Look };

    ghost asked = { first_asking };

    ghost left = { first_leaving };

    ghost wants = { wants_next };

    ghost becomes = { next };

    ghost reachable = { Reached };

    ghost loads = { λ n m i sized good. Laws.loads n m i sized good };

    ghost asks = { λ n m a sized h idle. Laws.asks n m a sized h };

    ghost leaves = { Prim.search rules };

    ghost steps = { λ n m a r sized h moves fits. Laws.steps n m a sized h moves r fits };

    ghost proper = { Prim.search rules };

    ghost sections = { Prim.search rules };

    ghost asking = { Prim.search rules };

    ghost leaving = { Prim.search rules };

    ghost identity = { Prim.search rules };

    ghost renamed = { λ n m a π sized h perm. Laws.renamed n m a π h perm };

    ghost renamedask = { Prim.search rules };

    ghost renamedleave = { Prim.search rules };

    ghost renamedwant = { Prim.search rules };

    ghost renamedstep = { λ n m a r π sized h moves fits perm. steps_replaced n m a π h perm r fits };

    fn loaded_phase() -> Phase {
        FIRST
    }

    fn ask(_sizes: Sizes, agent: &mut Agent<Phase>) {
        agent.forget();
        agent.go(Section::Asking, FIRST, 1);
    }

    fn leave(_sizes: Sizes, agent: &mut Agent<Phase>) {
        agent.go(Section::Leaving, Phase::Read, 1);
    }

    fn want(_sizes: Sizes, agent: &Agent<Phase>) -> Want {
        match agent.phase {
            Phase::Look => Want::Look,
            Phase::Put => Want::Write(agent.name, agent.own()),
            Phase::Read => Want::Read(agent.name),
            Phase::Clear => Want::Write(agent.name, Mark::Empty),
        }
    }

    fn step(sizes: Sizes, agent: &mut Agent<Phase>, answer: Answer<'_>) {
        // One match on phase and answer together: a read and a clearing go on to the next name alike.
        match (agent.phase, answer) {
            (Phase::Look, Answer::Marks(marks)) => look(sizes, agent, marks),
            (Phase::Put, Answer::Done) => agent.turn(Phase::Look, 1),
            (Phase::Read, Answer::Cell(mark)) if mark == agent.own() => {
                agent.turn(Phase::Clear, agent.name);
            }
            (Phase::Read, Answer::Cell(_)) => go_on(sizes, agent),
            (Phase::Clear, Answer::Done) => go_on(sizes, agent),
            _ => {}
        }
    }
}
