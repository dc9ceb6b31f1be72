// No two agents hold the window together, under each of the three rules.

#![tactic(auto)]

ghost use Rattle.std.specs.Prelude.{◌≡◌, [], ◌∷◌};
ghost use Rattle.model.specs.Meanings.{meaning_of, read_and_write, by_majority, by_ladder};
ghost use Rattle.exclusion.specs.Exclusion.{NoTwoHolders};
ghost use Rattle.exclusion.specs.Excluding.{no_two_holders};
ghost use Rattle.exclusion.specs.ReadWriteSteady.{steady};
ghost use Rattle.exclusion.specs.ReadWriteExclusion.{exclusive};
ghost use Rattle.exclusion.specs.MajoritySteady;
ghost use Rattle.exclusion.specs.MajorityExclusion;
ghost use Rattle.exclusion.specs.LadderSteady;
ghost use Rattle.exclusion.specs.LadderExclusion;

use rule_ladder::Ladder;
use rule_majority::Majority;
use rule_read_write::ReadWrite;
use rules::Rule;

// A rule under which no two agents ever hold together, from any accepted load and after any calls.
pub trait ExclusiveRule: Rule {
    ghost excludes: { NoTwoHolders (meaning_of Self.Rule) };
}

impl ExclusiveRule for ReadWrite {
    ghost excludes = { no_two_holders read_and_write steady exclusive };
}

impl ExclusiveRule for Majority {
    ghost excludes = { no_two_holders by_majority MajoritySteady.steady MajorityExclusion.exclusive };
}

impl ExclusiveRule for Ladder {
    ghost excludes = { no_two_holders by_ladder LadderSteady.steady LadderExclusion.exclusive };
}

// Under a rule of this kind no two agents hold together: the theorem, for a caller that names the rule.
// It answers `true` and not `()`, so that whoever tests the answer goes on as before; the theorem is the contract.
pub fn no_two_holders<R: ExclusiveRule>() -> bool
    ensures exclusive { NoTwoHolders (meaning_of R.Rule) }
{
    true
}

// The numbers of the three published rules, under each of which no two agents hold together. `fruitless_rules` of
// crate lockstep has the same lines, but its clauses name another theorem.
pub fn exclusive_rules() -> [u8; 3]
    ensures value { result ≡ read_and_write.number ∷ by_majority.number ∷ by_ladder.number ∷ [] }
    ensures read_write { NoTwoHolders read_and_write }
    ensures majority { NoTwoHolders by_majority }
    ensures ladder { NoTwoHolders by_ladder }
{
    let _ = no_two_holders::<ReadWrite>();
    let _ = no_two_holders::<Majority>();
    let _ = no_two_holders::<Ladder>();
    [ReadWrite::NUMBER, Majority::NUMBER, Ladder::NUMBER]
}
