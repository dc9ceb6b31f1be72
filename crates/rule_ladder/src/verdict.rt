// What becomes of an agent on a rung, by the number of its flags.
ghost use Rattle.std.specs.Prelude.{◌≡◌};
ghost use Rattle.rule_ladder.specs.Verdicts.{verdict};

use numbers::sizes::Sizes;

// To drop its marks and seek again, to hold, or to climb to the next rung.
#[derive(Clone, Copy, PartialEq, Eq, Debug)]
pub enum Verdict {
    Withdraw,
    Hold,
    Climb,
}

// Judges an agent that has `count` flags set on a rung: as many for each agent that the rungs from this one up have room
// for are to cover the cells.
pub fn judge(sizes: Sizes, rung: u8, count: usize) -> Verdict
    ensures value { result ≡ verdict count sizes.agents rung sizes.cells }
{
    let above = sizes.agents.saturating_sub(usize::from(rung));
    // By `as`: no `From` widens a `usize`.
    match count as u128 * (above as u128 + 1) {
        share if share < sizes.cells as u128 => Verdict::Withdraw,
        _ if usize::from(rung) >= sizes.agents => Verdict::Hold,
        _ => Verdict::Climb,
    }
}
