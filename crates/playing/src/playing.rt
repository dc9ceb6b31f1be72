// Plans and rounds played on a rig. What is refused on the way is counted by the rig, and the run goes on.
ghost use Rattle.std.specs.Prelude.{◌≡◌};
ghost use Rattle.plan.specs.Plans.{model};
ghost use Rattle.model.specs.Meanings.{meaning_of};
ghost use Rattle.model.specs.Rigs.{run};
ghost use Rattle.model.specs.Rounds.{rounds};
ghost use Rattle.model.specs.Loads.{load_answer, standoff_answer};
ghost use Rattle.rig.specs.Worlds.{world};
ghost use Rattle.playing.specs.Runs.{events_of, after_run, after_rounds};

use cells::CellStore;
use model::Round;
use numbers::sizes::Sizes;
use plan::Plan;
use refusal::Refusal;
use rig::Rig;
use rules::Rule;

// Plays all events of a plan.
pub fn play_plan<S: CellStore, R: Rule>(rig: &mut Rig<S, R>, plan: &Plan<'_>)
    ensures after { world S.marks rig.new ≡ run (meaning_of R.Rule) (world S.marks rig.old) (model plan.now).events }
    ensures same { S.lender rig.new.store ≡ S.lender rig.old.store }
{
    for event in plan.events() {
        let _ = rig.call(event);
    }
}

// Plays the events of a plan file; a file that is no plan for this rule has none.
fn play_file<S: CellStore, R: Rule>(rig: &mut Rig<S, R>, file: &[u8])
    ensures after { world S.marks rig.new ≡ run (meaning_of R.Rule) (world S.marks rig.old) (events_of (meaning_of R.Rule) file.now) }
    ensures same { S.lender rig.new.store ≡ S.lender rig.old.store }
{
    if let Ok(plan) = Plan::decode(file, R::NUMBER) {
        play_plan(rig, &plan);
    }
}

// Loads one plan file and plays the events of another: the same one, for the run of a plan.
pub fn run_file<S: CellStore, R: Rule>(
    rig: &mut Rig<S, R>,
    file: &[u8],
    others: &[u8],
) -> Result<(), Refusal>
    ensures value { result ≡ load_answer (meaning_of R.Rule) (world S.marks rig.old) file.now }
    ensures after { world S.marks rig.new ≡ after_run (meaning_of R.Rule) (world S.marks rig.old) file.now others.now }
    ensures same { S.lender rig.new.store ≡ S.lender rig.old.store }
{
    rig.load(file)?;
    play_file(rig, others);
    Ok(())
}

// Plays rounds.
pub fn play_rounds<S: CellStore, R: Rule>(rig: &mut Rig<S, R>, given: &[Round])
    ensures after { world S.marks rig.new ≡ rounds (meaning_of R.Rule) (world S.marks rig.old) given.now }
    ensures same { S.lender rig.new.store ≡ S.lender rig.old.store }
{
    for round in given {
        let _ = rig.round(*round);
    }
}

// A stand-off to load, and the rounds to play on it.
#[derive(Clone, Copy)]
pub struct StandoffScript<'a> {
    pub sizes: Sizes,
    pub rounds: &'a [Round],
}

// Loads a stand-off and plays its rounds.
pub fn run_standoff<S: CellStore, R: Rule>(
    rig: &mut Rig<S, R>,
    script: &StandoffScript<'_>,
) -> Result<(), Refusal>
    ensures value { result ≡ standoff_answer (meaning_of R.Rule) (world S.marks rig.old) script.now.sizes.agents script.now.sizes.cells }
    ensures after { world S.marks rig.new ≡ after_rounds (meaning_of R.Rule) (world S.marks rig.old) script.now.sizes.agents script.now.sizes.cells script.now.rounds.now }
    ensures same { S.lender rig.new.store ≡ S.lender rig.old.store }
{
    rig.load_standoff(script.sizes)?;
    play_rounds(rig, script.rounds);
    Ok(())
}
