// The trial of a plan file under the rule that it asks for.
ghost use Rattle.std.specs.Prelude.{◌≡◌, ◌≤◌, length, IfOk, OnErr, OnOk};
ghost use Rattle.exclusion.specs.Exclusion.{NoTwoHolders};
ghost use Rattle.model.specs.Meanings.{read_and_write, by_majority, by_ladder};
ghost use Rattle.trials.specs.Trials.{trial_answer, trial_length, trial_buffer};

use crate::run::report_run;
use exclusion::exclusive_rules;
use plan::{PublishedRule, rule_asked};
use refusal::Refusal;
use rig::Seats;
use rule_ladder::Ladder;
use rule_majority::Majority;
use rule_read_write::ReadWrite;
use std::alloc::{AllocError, Global};

// Runs the plan and writes the report into the buffer, or answers why the plan is refused; an error where memory for
// the agents is wanting. A buffer of MAX_REPORT bytes is always long enough. Under none of the three rules do two agents
// ever hold together.
// A Result in a Result: a refusal is an answer, want of memory is not.
pub fn trial_report(
    heap: Global,
    file: &[u8],
    buffer: &mut [u8],
) -> Result<Result<usize, Refusal>, AllocError>
    ensures value { IfOk result (λ a. a ≡ trial_answer file.now buffer.old) }
    ensures after { OnOk result (buffer.new ≡ trial_buffer file.now buffer.old) }
    ensures enough { IfOk result (λ a. 2336 ≤ length buffer.old → a ≡ trial_length file.now) }
    ensures inside { IfOk result (λ a. IfOk a (λ n. n ≤ length buffer.old)) }
    ensures same { OnErr result (buffer.new ≡ buffer.old) }
    ensures no_two_holders_by_read_write { NoTwoHolders read_and_write }
    ensures no_two_holders_by_majority { NoTwoHolders by_majority }
    ensures no_two_holders_by_ladder { NoTwoHolders by_ladder }
{
    let _ = exclusive_rules();
    // Each arm is a rule of another type.
    match rule_asked(file) {
        PublishedRule::ReadWrite => Ok(report_run(ReadWrite, Seats::new(heap)?, file, buffer)),
        PublishedRule::Majority => Ok(report_run(Majority, Seats::new(heap)?, file, buffer)),
        PublishedRule::Ladder => Ok(report_run(Ladder, Seats::new(heap)?, file, buffer)),
    }
}
