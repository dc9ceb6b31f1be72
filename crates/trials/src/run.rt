// The run of a plan file under a given rule.
ghost use Rattle.std.specs.Prelude.{◌≡◌, ◌≤◌, length, IfOk};
ghost use Rattle.exclusion.specs.Exclusion.{NoTwoHolders};
ghost use Rattle.model.specs.Meanings.{meaning_of};
ghost use Rattle.rig.specs.Worlds.{world};
ghost use Rattle.trials.specs.Trials.{run_answer, run_length, run_buffer, file_answer, file_length, file_buffer};

use crate::sizes::cells_asked;
use cells::CellStore;
use exclusion::ExclusiveRule;
use mark_table::MarkTable;
use playing::play;
use refusal::Refusal;
use report::report;
use rig::{Rig, Seats};

// Loads the file, plays all its events, and writes the report into the buffer; a refused load leaves the buffer as it is.
fn report_play<S: CellStore, R: ExclusiveRule>(
    rig: &mut Rig<S, R>,
    file: &[u8],
    buffer: &mut [u8],
) -> Result<usize, Refusal>
    ensures value { result ≡ run_answer (meaning_of R.Rule) (world S.marks rig.old) file.now buffer.old }
    ensures after { buffer.new ≡ run_buffer (meaning_of R.Rule) (world S.marks rig.old) file.now buffer.old }
    ensures enough { 2336 ≤ length buffer.old → result ≡ run_length (meaning_of R.Rule) (world S.marks rig.old) file.now }
    ensures inside { IfOk result (λ n. n ≤ length buffer.old) }
    ensures no_two_holders { NoTwoHolders (meaning_of R.Rule) }
{
    play(rig, file)?;
    report(rig, buffer)
}

// Runs the file on a blank rig over a table of empty cells, as many as the file asks for, and answers how many bytes the
// report has; a buffer of MAX_REPORT bytes is always long enough. At no moment of the run do two agents hold.
pub fn report_run<R: ExclusiveRule + Drop>(
    rule: R,
    seats: Seats<R::Phase>,
    file: &[u8],
    buffer: &mut [u8],
) -> Result<usize, Refusal>
    ensures value { result ≡ file_answer (meaning_of R.Rule) file.now buffer.old }
    ensures after { buffer.new ≡ file_buffer (meaning_of R.Rule) file.now buffer.old }
    ensures enough { 2336 ≤ length buffer.old → result ≡ file_length (meaning_of R.Rule) file.now }
    ensures inside { IfOk result (λ n. n ≤ length buffer.old) }
    ensures no_two_holders { NoTwoHolders (meaning_of R.Rule) }
{
    let mut rig = Rig::new(MarkTable::new(cells_asked(file)), rule, seats);
    let answer = report_play(&mut rig, file, buffer);
    let _ = rig.into_store();
    answer
}
