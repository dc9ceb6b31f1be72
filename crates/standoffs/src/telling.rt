// A stand-off played, and told as text.
ghost use Rattle.std.specs.Prelude.{◌≡◌, ◌++◌, IfOk, OnOk};
ghost use Rattle.lockstep.specs.Standoffs.{SameSection, NobodyHolds};
ghost use Rattle.model.specs.Meanings.{meaning_of};
ghost use Rattle.model.specs.Rounds.{rounds};
ghost use Rattle.report.specs.Reports.{report_text};
ghost use Rattle.rig.specs.Worlds.{world};
ghost use Rattle.standoffs.specs.Told.{answer_line, round_lines, told, standoff_told, chosen_told};

use crate::request::Standoff;
use cells::CellStore;
use exclusion::ExclusiveRule;
use lockstep::{nobody_holds, same_section};
use mark_table::MarkTable;
use model::Round;
use plan::PublishedRule;
use playing::StandoffScript;
use refusal::Refusal;
use report::{MAX_REPORT, report};
use rig::{Rig, Seats};
use rule_ladder::Ladder;
use rule_majority::Majority;
use rule_read_write::ReadWrite;
use rules::Rule;
use std::alloc::{AllocError, Global};

// Adds the line of an answer.
fn tell_answer(answer: Result<(), Refusal>, text: &mut Vec<u8>) -> Result<(), AllocError>
    ensures after { OnOk result (text.new.items ≡ text.old.items ++ answer_line answer) }
{
    match answer {
        Ok(()) => text.extend_from_slice(b"ok\n"),
        Err(refusal) => {
            let line = format!(in *text.allocator(); "{refusal}\n")?;
            text.extend_from_slice(line.as_bytes())
        }
    }
}

// Plays rounds, and adds the line of each.
fn tell_rounds<S: CellStore, R: Rule>(
    rig: &mut Rig<S, R>,
    given: &[Round],
    text: &mut Vec<u8>,
) -> Result<(), AllocError>
    ensures rig { OnOk result (world S.marks rig.new ≡ rounds (meaning_of R.Rule) (world S.marks rig.old) given.now) }
    ensures after { OnOk result (text.new.items ≡ text.old.items ++ round_lines (meaning_of R.Rule) (world S.marks rig.old) given.now) }
{
    for round in given {
        let answer = rig.round(*round);
        tell_answer(answer, text)?;
    }
    Ok(())
}

// Adds the report, through a buffer, since the report itself takes no memory of its own.
fn tell_report<S: CellStore, R: Rule>(rig: &Rig<S, R>, text: &mut Vec<u8>) -> Result<(), AllocError>
    ensures after { OnOk result (text.new.items ≡ text.old.items ++ report_text R.NUMBER (world S.marks rig.now)) }
{
    let mut buffer = [0; MAX_REPORT];
    match report(rig, &mut buffer) {
        Ok(length) => text.extend_from_slice(&buffer[..length]),
        Err(_) => unreachable(),
    }
}

// Loads a stand-off, plays its rounds, and adds what is told of it.
fn tell<S: CellStore, R: Rule>(
    rig: &mut Rig<S, R>,
    script: &StandoffScript<'_>,
    text: &mut Vec<u8>,
) -> Result<(), AllocError>
    ensures after { OnOk result (text.new.items ≡ text.old.items ++ told (meaning_of R.Rule) (world S.marks rig.old) script.now.sizes.agents script.now.sizes.cells script.now.rounds.now) }
{
    match rig.load_standoff(script.sizes) {
        Ok(()) => {
            tell_rounds(rig, script.rounds, text)?;
            tell_report(rig, text)
        }
        Err(refusal) => tell_answer(Err(refusal), text),
    }
}

// Loads a stand-off over a new mark table, plays its rounds, and tells what each answered and what the rig then reports;
// of a refused load, only the refusal. The agents that move together stay in the same section, and nobody holds.
pub fn run_standoff_report<R: ExclusiveRule + Drop>(
    heap: Global,
    rule: R,
    script: &StandoffScript<'_>,
) -> Result<Vec<u8>, AllocError>
    ensures value { IfOk result (λ text. text.items ≡ standoff_told (meaning_of R.Rule) script.now.sizes.agents script.now.sizes.cells script.now.rounds.now) }
    ensures same_section { SameSection (meaning_of R.Rule) }
    ensures nobody_holds { NobodyHolds (meaning_of R.Rule) }
{
    let _ = same_section::<R>();
    let _ = nobody_holds::<R>();
    let seats = Seats::new(heap)?;
    let mut rig = Rig::new(MarkTable::new(script.sizes.cells), rule, seats);
    let mut text = Vec::new(heap);
    let told = tell(&mut rig, script, &mut text);
    let _ = rig.into_store();
    told?;
    Ok(text)
}

impl Standoff {
    // What the program prints.
    pub fn told(&self, heap: Global) -> Result<Vec<u8>, AllocError>
        ensures value { IfOk result (λ text. text.items ≡ chosen_told self.now.rule self.now.sizes.agents self.now.sizes.cells self.now.rounds.items) }
    {
        let script = StandoffScript {
            sizes: self.sizes,
            rounds: self.rounds.as_slice(),
        };
        // Each arm is a rule of another type.
        match self.rule {
            PublishedRule::ReadWrite => run_standoff_report(heap, ReadWrite, &script),
            PublishedRule::Majority => run_standoff_report(heap, Majority, &script),
            PublishedRule::Ladder => run_standoff_report(heap, Ladder, &script),
        }
    }
}
