// What a program shows of a plan file.
ghost use Rattle.std.specs.Prelude.{◌≡◌, ◌≤◌, ◌++◌, length, drop, IfOk, OnErr, OnOk};
ghost use Rattle.exclusion.specs.Exclusion.{NoTwoHolders};
ghost use Rattle.model.specs.Meanings.{read_and_write, by_majority, by_ladder};
ghost use Rattle.trials.specs.Trials.{trial_text};

use crate::trial::trial_report;
use report::{MAX_REPORT, refusal_line};
use std::alloc::{AllocError, Global};

// Puts the report of the file's trial, or the line of its refusal, at the front of the buffer and answers how many bytes it
// has; an error where memory for the agents is wanting. No other memory is wanted. Under none of the three rules do two
// agents ever hold together.
pub fn show_trial(
    heap: Global,
    file: &[u8],
    buffer: &mut [u8; MAX_REPORT],
) -> Result<usize, AllocError>
    ensures value { IfOk result (λ n. n ≡ length (trial_text file.now)) }
    ensures after { OnOk result (buffer.new ≡ trial_text file.now ++ drop (length (trial_text file.now)) buffer.old) }
    ensures inside { IfOk result (λ n. n ≤ 2336) }
    ensures same { OnErr result (buffer.new ≡ buffer.old) }
    ensures no_two_holders_by_read_write { NoTwoHolders read_and_write }
    ensures no_two_holders_by_majority { NoTwoHolders by_majority }
    ensures no_two_holders_by_ladder { NoTwoHolders by_ladder }
{
    match trial_report(heap, file, buffer)? {
        Ok(length) => Ok(length),
        Err(refusal) => Ok(refusal_line(refusal, buffer).unwrap()),
    }
}

// The same as a text of its own.
pub fn trial_text(heap: Global, file: &[u8]) -> Result<Vec<u8>, AllocError>
    ensures value { IfOk result (λ text. text.items ≡ trial_text file.now) }
    ensures no_two_holders_by_read_write { NoTwoHolders read_and_write }
    ensures no_two_holders_by_majority { NoTwoHolders by_majority }
    ensures no_two_holders_by_ladder { NoTwoHolders by_ladder }
{
    let mut buffer = [0; MAX_REPORT];
    let length = show_trial(heap, file, &mut buffer)?;
    Vec::from_slice(heap, &buffer[..length])
}
