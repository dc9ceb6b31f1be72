// What a look leads to.
ghost use Rattle.std.specs.Prelude.{◌≡◌};
ghost use Rattle.rule_read_write.specs.Judging.{verdict, look_verdict};

use cells::Mark;
use tally::{count_identities, count_of, lowest_name_of};

// Hold the window; look again; put the own mark at a name; or withdraw.
#[derive(Clone, Copy, PartialEq, Eq, Debug)]
pub enum Verdict {
    Hold,
    Again,
    Put(usize),
    Withdraw,
}

// By how many marks are own, how many cells are empty, the lowest empty name, and how many identities there are.
fn judged(
    own: usize,
    empty: usize,
    lowest: Option<usize>,
    identities: usize,
    cells: usize,
) -> Verdict
    ensures value { result ≡ verdict own empty lowest identities cells }
{
    match lowest {
        _ if own == cells => Verdict::Hold,
        _ if own == 0 && empty != cells => Verdict::Again,
        Some(name) => Verdict::Put(name),
        None if own.saturating_mul(identities) < cells => Verdict::Withdraw,
        None => Verdict::Again,
    }
}

// What the marks of all cells lead to, for an agent with its own mark.
pub fn judge_look(marks: &[Mark], own: Mark, cells: usize) -> Verdict
    ensures value { result ≡ look_verdict marks.now own cells }
{
    judged(
        count_of(marks, own),
        count_of(marks, Mark::Empty),
        lowest_name_of(marks, Mark::Empty),
        count_identities(marks),
        cells,
    )
}
