// A rehearsal: a plan, its twin, and a stand-off, played under one rule; with all that is shown of such runs.
ghost use Rattle.std.specs.Prelude.{◌≡◌};
ghost use Rattle.exclusion.specs.Exclusion.{NoTwoHolders};
ghost use Rattle.lockstep.specs.Standoffs.{StandsOff, SameSection, NobodyHolds};
ghost use Rattle.model.specs.Meanings.{meaning_of, read_and_write, by_majority, by_ladder};
ghost use Rattle.model.specs.Loads.{load_answer, standoff_answer};
ghost use Rattle.renumbering.specs.Renumbering.{RenumberingInvisible};
ghost use Rattle.rig.specs.Worlds.{world};
ghost use Rattle.playing.specs.Runs.{after_run, after_rounds};

use crate::playing::{StandoffScript, run_standoff};
use crate::theorems::{TwinLoads, play_twins};
use cells::CellStore;
use exclusion::exclusive_rules;
use lockstep::{fruitless_rules, same_section};
use refusal::Refusal;
use rig::Rig;
use rules::Rule;

// What is rehearsed: a plan file, the file of its twin, and a stand-off with its rounds.
#[derive(Clone, Copy)]
pub struct Script<'a> {
    pub plan: &'a [u8],
    pub twin: &'a [u8],
    pub standoff: StandoffScript<'a>,
}

// What the three loads answered.
#[derive(Clone, Copy, PartialEq, Eq, Debug)]
pub struct Rehearsal {
    pub twins: TwinLoads,
    pub standoff: Result<(), Refusal>,
}

// Loads the plan into the first rig and its twin into the second, over whatever stores, and plays the plan's events on
// both; loads the stand-off into the third and plays its rounds.
//
// No two agents hold together, from any accepted load and after any calls, under each of the three rules. Renumbering
// cells and replacing identities is invisible, under every lawful rule. On a stand-off the agents that move together are
// always in the same section, under every lawful rule, and under the three rules nobody ever holds.
pub fn rehearse<S: CellStore, T: CellStore, U: CellStore, R: Rule>(
    first: &mut Rig<S, R>,
    second: &mut Rig<T, R>,
    third: &mut Rig<U, R>,
    script: &Script<'_>,
) -> Rehearsal
    ensures plan { result.twins.plan ≡ load_answer (meaning_of R.Rule) (world S.marks first.old) script.now.plan.now }
    ensures twin { result.twins.twin ≡ load_answer (meaning_of R.Rule) (world T.marks second.old) script.now.twin.now }
    ensures standoff { result.standoff ≡ standoff_answer (meaning_of R.Rule) (world U.marks third.old) script.now.standoff.sizes.agents script.now.standoff.sizes.cells }
    ensures after_plan { world S.marks first.new ≡ after_run (meaning_of R.Rule) (world S.marks first.old) script.now.plan.now script.now.plan.now }
    ensures after_twin { world T.marks second.new ≡ after_run (meaning_of R.Rule) (world T.marks second.old) script.now.twin.now script.now.plan.now }
    ensures after_standoff { world U.marks third.new ≡ after_rounds (meaning_of R.Rule) (world U.marks third.old) script.now.standoff.sizes.agents script.now.standoff.sizes.cells script.now.standoff.rounds.now }
    ensures no_two_holders_by_read_write { NoTwoHolders read_and_write }
    ensures no_two_holders_by_majority { NoTwoHolders by_majority }
    ensures no_two_holders_by_ladder { NoTwoHolders by_ladder }
    ensures renumbering_invisible { RenumberingInvisible (meaning_of R.Rule) }
    ensures stands_off { StandsOff (meaning_of R.Rule) }
    ensures same_section { SameSection (meaning_of R.Rule) }
    ensures nobody_holds_by_read_write { NobodyHolds read_and_write }
    ensures nobody_holds_by_majority { NobodyHolds by_majority }
    ensures nobody_holds_by_ladder { NobodyHolds by_ladder }
{
    let _ = exclusive_rules();
    let _ = fruitless_rules();
    let _ = same_section::<R>();
    Rehearsal {
        twins: play_twins(first, second, script.plan, script.twin),
        standoff: run_standoff(third, &script.standoff),
    }
}
