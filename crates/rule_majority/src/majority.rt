// The rule, number 2.
ghost use Rattle.rule_majority.specs.declared.phase.MajorityPhase.TheVariants.{Take};
ghost use Rattle.rule_majority.specs.Majority.{majority_asked, majority_left, majority_wants, majority_becomes, majority_reachable};
ghost use Rattle.rule_majority.specs.ReachLaws.{load_reachable, ask_reachable, leave_reachable, step_reachable};
ghost use Rattle.rule_majority.specs.RenameLaws.{reachable_renamed, leave_renamed, step_where_most_stays};
ghost use Rattle.rules.proofs.ReplaceLaws.{lawful_take, most_replaced};
ghost use Rattle.rules.specs.Lawful.{replaced};
ghost use Rattle.rules.specs.Records.{seen_at};
ghost use Rattle.std.proofs.Common.{rules, ap, ◌∙◌};
ghost use Rattle.std.proofs.lemmas.List.{take-map};
ghost use Rattle.tally.specs.Counts.{most_of_one};

use crate::moves::{decide, give_next, lowest_own, wait_on};
use crate::phase::MajorityPhase;
use cells::Mark;
use numbers::sizes::Sizes;
use rules::{Agent, Answer, Rule, Section, Want};

// A request takes all cells in turn, then scans them. With fewer marks than another identity the agent gives its own back
// and waits until all cells are empty; with more than half of the cells it holds; else it takes again.
#[derive(Clone, Copy)]
pub struct Majority;

impl Rule for Majority {
    const NUMBER: u8 = 2;

    ghost NUMBER = { 2 };

    type Phase = MajorityPhase;

    ghost loaded = { Take };

    ghost asked = { majority_asked };

    ghost left = { majority_left };

    ghost wants = { majority_wants };

    ghost becomes = { majority_becomes };

    ghost reachable = { majority_reachable };

    ghost loads = { λ n m i sized good. load_reachable n m i sized good };

    ghost asks = { λ n m a sized h idles. ask_reachable n m a sized h };

    ghost leaves = { λ n m a sized h holds. leave_reachable n m a sized h holds };

    ghost steps = { λ n m a r sized h moves fits. step_reachable n m a r sized h moves fits };

    ghost proper = { Prim.search rules };

    ghost sections = { Prim.search rules };

    ghost asking = { Prim.search rules };

    ghost leaving = { Prim.search rules };

    ghost identity = { Prim.search rules };

    ghost renamed = { λ n m a π sized h perm. reachable_renamed π perm m a h };

    ghost renamedask = { Prim.search rules };

    ghost renamedleave = { λ n m a π sized h perm. leave_renamed π perm m a h.lawful_identity h.lawful_seen n };

    ghost renamedwant = { Prim.search rules };

    ghost renamedstep = { λ n m a r π sized h moves fits perm. step_where_most_stays π perm m a h.lawful_identity h.lawful_seen (λ b all. ap most_of_one (take-map (replaced π) m b.seen) ∙ most_replaced π perm (seen_at b m) (lawful_take m b.seen all)) a.phase r fits };

    fn loaded_phase() -> MajorityPhase {
        MajorityPhase::Take
    }

    fn ask(_sizes: Sizes, agent: &mut Agent<MajorityPhase>) {
        agent.forget();
        agent.go(Section::Asking, MajorityPhase::Take, 1);
    }

    fn leave(sizes: Sizes, agent: &mut Agent<MajorityPhase>) {
        // Name 1 where none was seen as own, as the definition says.
        let name = lowest_own(sizes, agent).unwrap_or(1);
        agent.go(Section::Leaving, MajorityPhase::Give, name);
    }

    fn want(_sizes: Sizes, agent: &Agent<MajorityPhase>) -> Want {
        match agent.phase {
            MajorityPhase::Take => Want::Swap(agent.name, Mark::Empty, agent.own()),
            MajorityPhase::Scan | MajorityPhase::Wait => Want::Read(agent.name),
            MajorityPhase::Give => Want::Write(agent.name, Mark::Empty),
        }
    }

    fn step(sizes: Sizes, agent: &mut Agent<MajorityPhase>, answer: Answer<'_>) {
        // One match on phase and answer together: each phase has its arm for a next name, and one for after the last.
        match (agent.phase, answer) {
            (MajorityPhase::Take, Answer::Went(_)) if agent.name < sizes.cells => {
                agent.turn(MajorityPhase::Take, agent.name + 1);
            }
            (MajorityPhase::Take, Answer::Went(_)) => agent.turn(MajorityPhase::Scan, 1),
            (MajorityPhase::Scan, Answer::Cell(mark)) if agent.name < sizes.cells => {
                agent.see(mark);
                agent.turn(MajorityPhase::Scan, agent.name + 1);
            }
            (MajorityPhase::Scan, Answer::Cell(mark)) => {
                agent.see(mark);
                decide(sizes, agent);
            }
            (MajorityPhase::Give, Answer::Done) => {
                agent.see(Mark::Empty);
                give_next(sizes, agent);
            }
            (MajorityPhase::Wait, Answer::Cell(mark)) if agent.name < sizes.cells => {
                agent.see(mark);
                agent.turn(MajorityPhase::Wait, agent.name + 1);
            }
            (MajorityPhase::Wait, Answer::Cell(mark)) => {
                agent.see(mark);
                wait_on(sizes, agent);
            }
            _ => {}
        }
    }
}
