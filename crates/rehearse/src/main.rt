// Rehearses each of the three rules: plays a plan over a mark table, its twin over a renumbered card file, and a
// stand-off over another mark table, in the one call that has all that is shown of such runs; then asks the rigs, and
// prints that they agree as they must.

#![tactic(auto)]

mod acts;
mod standoffs;
mod twins;

use acts::{Act, LADDER, MAJORITY, READ_WRITE, rounds_of};
use anyhow::anyhow;
use cells::CellStore;
use mark_table::MarkTable;
use numbers::factors::smallest_common_factor;
use plan::Plan;
use playing::{Rehearsal, Script, StandoffScript, rehearse};
use record_file::RecordFile;
use refusal::Refusal;
use rehearsals::Twins;
use renumbered::Renumbered;
use rig::{Rig, Seats};
use rule_ladder::Ladder;
use rule_majority::Majority;
use rule_read_write::ReadWrite;
use rules::Rule;
use standoffs::tell_standoff;
use std::alloc::Global;
use std::{fs, iter};
use twins::TwinRigs;

// The names moved on by one: the last stands for the first below.
fn moved_on<S: CellStore + Drop>(heap: Global, store: S) -> anyhow::Result<Renumbered<S>> {
    let row: Vec<usize> = (2..=store.count()).chain(iter::once(1)).collect(heap)?;
    Renumbered::with_row(store, row.as_slice()).map_err(|_| anyhow!(
        "the names moved on were refused"
    ))
}

// The word for what a load answered: only this program says so, and a Result has no words.
fn load_word(answer: Result<(), Refusal>) -> &'static str {
    if answer.is_ok() {
        "accepted"
    } else {
        "refused"
    }
}

// What the loads answered.
fn tell_loads(rt: &impl Print, answers: &Rehearsal) -> anyhow::Result<bool> {
    let plan = load_word(answers.twins.plan);
    let twin = load_word(answers.twins.twin);
    let standoff = load_word(answers.standoff);
    println!(rt; "plan {plan}, twin {twin}, stand-off {standoff}")?;
    Ok(answers.twins.plan.is_ok() && answers.twins.twin.is_ok() && answers.standoff.is_ok())
}

// The plan and its twin.
fn decode_twins<'a>(script: &Script<'a>, rule: u8) -> Result<Twins<'a>, Refusal> {
    Ok(Twins {
        plan: Plan::decode(script.plan, rule)?,
        twin: Plan::decode(script.twin, rule)?,
    })
}

// Plays the script on three blank rigs, and tells what they answer.
fn play_script<S: CellStore, T: CellStore, U: CellStore, R: Rule>(
    rt: &impl Print,
    first: &mut Rig<S, R>,
    second: &mut Rig<T, R>,
    third: &mut Rig<U, R>,
    script: &Script<'_>,
) -> anyhow::Result<bool> {
    let answers = rehearse(first, second, third, script);
    let rule = R::NUMBER;
    println!(rt; "rule {rule}")?;
    let loads = tell_loads(rt, &answers)?;
    let twins = match decode_twins(script, rule) {
        Ok(twins) => TwinRigs {
            first,
            second,
            twins,
        }
        .tell(rt)?,
        Err(_) => false,
    };
    // Without a common factor the load is refused, and the line says that 0 agents move together.
    let together = smallest_common_factor(script.standoff.sizes).unwrap_or(0);
    let standoff = tell_standoff(rt, third, together)?;
    Ok(loads && twins && standoff)
}

// Plays the script on rigs of its own: over a mark table, over the cards in `image`, and over another mark table.
fn play_act<R: Rule + Copy>(
    rt: &HostRuntime,
    rule: R,
    script: &Script<'_>,
    image: &mut [u8],
) -> anyhow::Result<bool> {
    let file = moved_on(rt.alloc(), RecordFile::new(image))?;
    let one = Seats::new(rt.alloc())?;
    let two = Seats::new(rt.alloc())?;
    let three = Seats::new(rt.alloc())?;
    let mut first = Rig::new(MarkTable::new(file.count()), rule, one);
    let mut second = Rig::new(file, rule, two);
    let mut third = Rig::new(MarkTable::new(script.standoff.sizes.cells), rule, three);
    let told = play_script(rt, &mut first, &mut second, &mut third, script);
    let _ = first.into_store();
    let _ = second.into_store();
    let _ = third.into_store();
    told
}

// Rehearses one rule.
fn run_act<R: Rule + Copy>(rt: &HostRuntime, rule: R, act: Act) -> anyhow::Result<bool> {
    let plan = fs::read(rt, act.plan)?;
    let twin = fs::read(rt, act.twin)?;
    let letters = fs::read(rt, act.rounds)?;
    let rounds = rounds_of(rt.alloc(), letters.as_slice())?;
    let script = Script {
        plan: plan.as_slice(),
        twin: twin.as_slice(),
        standoff: StandoffScript {
            sizes: act.sizes,
            rounds: rounds.as_slice(),
        },
    };
    let Ok(accepted) = Plan::decode(script.plan, R::NUMBER) else {
        return Err(anyhow!("the plan is refused"));
    };
    let mut image = vec![in rt.alloc(); 0u8; accepted.cells().saturating_mul(4)]?;
    play_act(rt, rule, &script, image.as_mut_slice())
}

fn run(rt: &HostRuntime) -> anyhow::Result<()> {
    let read_write = run_act(rt, ReadWrite, READ_WRITE)?;
    let majority = run_act(rt, Majority, MAJORITY)?;
    let ladder = run_act(rt, Ladder, LADDER)?;
    if read_write && majority && ladder {
        println!(rt; "all agree")?;
    } else {
        println!(rt; "not all agree")?;
    }
    Ok(())
}

fn main(rt: HostRuntime) -> anyhow::Result<()> {
    run(&rt)
}
