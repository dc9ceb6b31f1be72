// The ladder as a rule.
ghost use Rattle.rule_ladder.specs.declared.phase.LadderPhase.TheVariants.{Seek};
ghost use Rattle.rule_ladder.specs.Ladder.{ladder_wants, ladder_becomes, ladder_asked, ladder_left, ladder_reachable};
ghost use Rattle.rule_ladder.specs.StartLaws.{loads_reachable, leaves_reachable};
ghost use Rattle.rule_ladder.specs.ReachLaws.{reachable_step};
ghost use Rattle.rule_ladder.specs.RenameLaws.{reachable_other, becomes_other};
ghost use Rattle.std.proofs.Common.{rules};

use crate::moves::{drop_lowest, go_on, raise_next, seek};
use crate::phase::LadderPhase;
use cells::Mark;
use numbers::sizes::Sizes;
use rules::{Agent, Answer, Rule, Section, Want};
use tally::lowest_flag_set;

// The rule: an agent takes empty cells for rung 1, and climbs as long as it has its share of the cells.
#[derive(Clone, Copy)]
pub struct Ladder;

impl Rule for Ladder {
    const NUMBER: u8 = 3;

    ghost NUMBER = { 3 };

    type Phase = LadderPhase;

    ghost loaded = { Seek };

    ghost asked = { ladder_asked };

    ghost left = { ladder_left };

    ghost wants = { ladder_wants };

    ghost becomes = { ladder_becomes };

    ghost reachable = { ladder_reachable };

    ghost loads = { λ n m i size good. loads_reachable n m i size good };

    ghost asks = { Prim.search rules };

    ghost leaves = { λ n m a size h holds. leaves_reachable n m a size h holds };

    ghost steps = { λ n m a r size h moves good. reachable_step n m size a r h moves good };

    ghost proper = { Prim.search rules };

    ghost sections = { Prim.search rules };

    ghost asking = { Prim.search rules };

    ghost leaving = { Prim.search rules };

    ghost identity = { Prim.search rules };

    ghost renamed = { λ n m a π size h perm. reachable_other π perm n m a h };

    ghost renamedask = { Prim.search rules };

    ghost renamedleave = { Prim.search rules };

    ghost renamedwant = { Prim.search rules };

    ghost renamedstep = { λ n m a r π size h moves good perm. becomes_other π perm n m a r h good };

    fn loaded_phase() -> LadderPhase {
        LadderPhase::Seek
    }

    fn ask(_sizes: Sizes, agent: &mut Agent<LadderPhase>) {
        agent.rung = 0;
        agent.flags = [false; 64];
        agent.go(Section::Asking, LadderPhase::Seek, 1);
    }

    fn leave(sizes: Sizes, agent: &mut Agent<LadderPhase>) {
        agent.rung = 0;
        let lowest = lowest_flag_set(agent.flags_at(sizes.cells));
        // At name 1 where no flag is set, as the definition says.
        agent.go(Section::Leaving, LadderPhase::Drop, lowest.unwrap_or(1));
    }

    fn want(_sizes: Sizes, agent: &Agent<LadderPhase>) -> Want {
        match agent.phase {
            LadderPhase::Seek | LadderPhase::Fill => Want::Read(agent.name),
            LadderPhase::Take => Want::Swap(agent.name, Mark::Empty, Mark::Rung(1)),
            LadderPhase::Raise => Want::Write(agent.name, Mark::Rung(agent.rung)),
            LadderPhase::Try => Want::Swap(agent.name, Mark::Empty, Mark::Rung(agent.rung)),
            LadderPhase::Drop => Want::Write(agent.name, Mark::Empty),
        }
    }

    fn step(sizes: Sizes, agent: &mut Agent<LadderPhase>, answer: Answer<'_>) {
        // One match on phase and answer together: what is next after a name is told in the arm of its phase.
        match (agent.phase, answer) {
            (LadderPhase::Seek, Answer::Cell(mark)) => seek(sizes, agent, mark),
            (LadderPhase::Take, Answer::Went(true)) => {
                agent.flag(true);
                go_on(sizes, agent, LadderPhase::Take);
            }
            (LadderPhase::Take, Answer::Went(false)) => {
                go_on(sizes, agent, LadderPhase::Take);
            }
            (LadderPhase::Raise, Answer::Done) => raise_next(sizes, agent),
            (LadderPhase::Fill, Answer::Cell(Mark::Rung(rung))) if rung >= agent.rung => {
                go_on(sizes, agent, LadderPhase::Fill);
            }
            (LadderPhase::Fill, Answer::Cell(_)) => agent.turn(LadderPhase::Try, agent.name),
            (LadderPhase::Try, Answer::Went(true)) => {
                agent.flag(true);
                go_on(sizes, agent, LadderPhase::Fill);
            }
            (LadderPhase::Try, Answer::Went(false)) => agent.turn(LadderPhase::Fill, agent.name),
            (LadderPhase::Drop, Answer::Done) => {
                agent.flag(false);
                drop_lowest(sizes, agent);
            }
            _ => {}
        }
    }
}
