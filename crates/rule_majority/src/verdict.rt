// What follows from the counts after a scan.
ghost use Rattle.std.specs.Prelude.{◌≡◌};
ghost use Rattle.rule_majority.specs.Verdicts.{verdict};

#[derive(Clone, Copy, PartialEq, Eq, Debug)]
pub enum Verdict {
    Withdraw,
    Hold,
    Again,
}

// Holds the agent's own marks against the most marks of one identity, and against half of the cells.
pub fn judge(own: usize, most: usize, cells: usize) -> Verdict
    ensures value { result ≡ verdict own most cells }
{
    match (own, most) {
        (own, most) if own < most => Verdict::Withdraw,
        (own, _) if cells / 2 < own => Verdict::Hold,
        _ => Verdict::Again,
    }
}
