// Runs on rigs, with what is shown of every such run.
ghost use Rattle.std.specs.Prelude.{◌≡◌};
ghost use Rattle.exclusion.specs.Exclusion.{NoTwoHolders};
ghost use Rattle.lockstep.specs.Standoffs.{SameSection, NobodyHolds};
ghost use Rattle.model.specs.Meanings.{meaning_of};
ghost use Rattle.model.specs.Loads.{load_answer, standoff_answer};
ghost use Rattle.renumbering.specs.Renumbering.{RenumberingInvisible};
ghost use Rattle.rig.specs.Worlds.{world};
ghost use Rattle.playing.specs.Runs.{after_run, after_rounds};

use crate::playing::{StandoffScript, run_file, run_standoff};
use cells::CellStore;
use exclusion::{ExclusiveRule, no_two_holders};
use lockstep::{nobody_holds, same_section};
use refusal::Refusal;
use renumbering::renumbering_unseen;
use rig::Rig;
use rules::Rule;

// Loads a plan file and plays its events. At no moment of such a run do two agents hold.
pub fn play<S: CellStore, R: ExclusiveRule>(rig: &mut Rig<S, R>, file: &[u8]) -> Result<(), Refusal>
    ensures value { result ≡ load_answer (meaning_of R.Rule) (world S.marks rig.old) file.now }
    ensures after { world S.marks rig.new ≡ after_run (meaning_of R.Rule) (world S.marks rig.old) file.now file.now }
    ensures same { S.lender rig.new.store ≡ S.lender rig.old.store }
    ensures no_two_holders { NoTwoHolders (meaning_of R.Rule) }
{
    let _ = no_two_holders::<R>();
    run_file(rig, file, file)
}

// What the loads of a plan and of its twin answered.
#[derive(Clone, Copy, PartialEq, Eq, Debug)]
pub struct TwinLoads {
    pub plan: Result<(), Refusal>,
    pub twin: Result<(), Refusal>,
}

// Loads a plan file into one rig and another into a second one, over whatever stores, and plays the events of the first
// on both. Where the second plan renumbers the cells of the first and has other identities, the rigs answer alike.
pub fn play_twins<S: CellStore, T: CellStore, R: Rule>(
    first: &mut Rig<S, R>,
    second: &mut Rig<T, R>,
    file: &[u8],
    twin: &[u8],
) -> TwinLoads
    ensures value { result.plan ≡ load_answer (meaning_of R.Rule) (world S.marks first.old) file.now }
    ensures value_second { result.twin ≡ load_answer (meaning_of R.Rule) (world T.marks second.old) twin.now }
    ensures after { world S.marks first.new ≡ after_run (meaning_of R.Rule) (world S.marks first.old) file.now file.now }
    ensures after_second { world T.marks second.new ≡ after_run (meaning_of R.Rule) (world T.marks second.old) twin.now file.now }
    ensures same { S.lender first.new.store ≡ S.lender first.old.store }
    ensures same_second { T.lender second.new.store ≡ T.lender second.old.store }
    ensures invisible { RenumberingInvisible (meaning_of R.Rule) }
{
    let _ = renumbering_unseen::<R>();
    TwinLoads {
        plan: run_file(first, file, file),
        twin: run_file(second, twin, file),
    }
}

// Loads a stand-off and plays its rounds. The agents that move together stay in the same section, and nobody holds.
pub fn play_standoff<S: CellStore, R: ExclusiveRule>(
    rig: &mut Rig<S, R>,
    script: &StandoffScript<'_>,
) -> Result<(), Refusal>
    ensures value { result ≡ standoff_answer (meaning_of R.Rule) (world S.marks rig.old) script.now.sizes.agents script.now.sizes.cells }
    ensures after { world S.marks rig.new ≡ after_rounds (meaning_of R.Rule) (world S.marks rig.old) script.now.sizes.agents script.now.sizes.cells script.now.rounds.now }
    ensures same { S.lender rig.new.store ≡ S.lender rig.old.store }
    ensures same_section { SameSection (meaning_of R.Rule) }
    ensures nobody_holds { NobodyHolds (meaning_of R.Rule) }
{
    let _ = same_section::<R>();
    let _ = nobody_holds::<R>();
    run_standoff(rig, script)
}
