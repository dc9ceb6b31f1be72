// A refusal's line.
ghost use Rattle.std.specs.Prelude.{◌≡◌, ◌≤◌, ◌++◌, length, Ok};
ghost use Rattle.refusal.specs.Refusals.{refusal_line};
ghost use Rattle.report.specs.Lines.{line_end};
ghost use Rattle.report.specs.Reports.{copy_answer, copy_after};

use crate::sheet::Sheet;
use refusal::Refusal;

// Writes the refusal's line into the buffer and answers how many bytes it has; a buffer of MAX_REPORT bytes is long
// enough for every refusal.
pub fn refusal_line(refusal: Refusal, buffer: &mut [u8]) -> Result<usize, Refusal>
    ensures value { result ≡ copy_answer (refusal_line refusal ++ line_end) buffer.old }
    ensures after { buffer.new ≡ copy_after (refusal_line refusal ++ line_end) buffer.old }
    ensures enough { 2336 ≤ length buffer.old → result ≡ Ok (length (refusal_line refusal ++ line_end)) }
    ensures fits { length (refusal_line refusal ++ line_end) ≤ 2336 }
{
    let mut sheet = Sheet::new();
    sheet.refusal_line(refusal);
    sheet.copy_to(buffer)
}
