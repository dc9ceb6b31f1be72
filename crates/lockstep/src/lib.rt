// Stand-offs: where the number of cells has a common factor with a number of agents, agents that move together stay
// together.

#![tactic(auto)]

ghost use Rattle.std.specs.Prelude.{◌≡◌, [], ◌∷◌};
ghost use Rattle.model.specs.Meanings.{meaning_of, read_and_write, by_majority, by_ladder};
ghost use Rattle.lockstep.specs.Standoffs.{StandsOff, SameSection, NobodyHolds};

use exclusion::ExclusiveRule;
use rule_ladder::Ladder;
use rule_majority::Majority;
use rule_read_write::ReadWrite;
use rules::Rule;

// Under every lawful rule the agents that move together on a stand-off are always in the same section.
// It answers `true` and not `()`, so that whoever tests the answer goes on as before; the theorem is the contract.
pub fn same_section<R: Rule>() -> bool
    ensures stands_off { StandsOff (meaning_of R.Rule) }
    ensures same_section { SameSection (meaning_of R.Rule) }
{
    true
}

// Under a rule that excludes two holders, nobody ever holds on a stand-off.
// It answers `true` and not `()`, so that whoever tests the answer goes on as before; the theorem is the contract.
pub fn nobody_holds<R: ExclusiveRule>() -> bool
    ensures nobody_holds { NobodyHolds (meaning_of R.Rule) }
{
    true
}

// The numbers of the three published rules, under each of which nobody ever holds on a stand-off. Not one function with
// `exclusive_rules`: its clauses name another theorem.
pub fn fruitless_rules() -> [u8; 3]
    ensures value { result ≡ read_and_write.number ∷ by_majority.number ∷ by_ladder.number ∷ [] }
    ensures read_write { NobodyHolds read_and_write }
    ensures majority { NobodyHolds by_majority }
    ensures ladder { NobodyHolds by_ladder }
{
    let _ = nobody_holds::<ReadWrite>();
    let _ = nobody_holds::<Majority>();
    let _ = nobody_holds::<Ladder>();
    [ReadWrite::NUMBER, Majority::NUMBER, Ladder::NUMBER]
}
