// The published rules, and the one that a file asks for.
ghost use Rattle.std.specs.Prelude.{◌≡◌, ◌++◌, Some, codes, decimal};
ghost use Rattle.std.specs.Option.{ok_or};
ghost use Rattle.plan.specs.Plans.{rule_asked};
ghost use Rattle.plan.specs.Published.{rule_number, published};

use crate::bytes::byte_at;
use std::error::Error;
use std::fmt;

// The three rules that a plan file can ask for.
#[derive(Clone, Copy, PartialEq, Eq, Debug)]
pub enum PublishedRule {
    ReadWrite,
    Majority,
    Ladder,
}

// The number by which a plan file names the rule.
impl From<PublishedRule> for u8 {
    ghost from_gives = { λ rule n. n ≡ rule_number rule };

    fn from(rule: PublishedRule) -> u8 {
        match rule {
            PublishedRule::ReadWrite => 1,
            PublishedRule::Majority => 2,
            PublishedRule::Ladder => 3,
        }
    }
}

// A number by which no rule goes.
#[derive(Clone, Copy, PartialEq, Eq, Debug)]
pub struct UnknownRule {
    pub number: u8,
}

impl fmt::Display for UnknownRule {
    ghost output = { λ u. Some (codes "no published rule has the number " ++ decimal u.number) };

    fn fmt<W: fmt::Write>(&self, f: &mut fmt::Formatter<W>) -> fmt::Result {
        let number = self.number;
        write!(f, "no published rule has the number {number}")
    }
}

impl Error for UnknownRule {}

impl TryFrom<u8> for PublishedRule {
    type Error = UnknownRule;

    ghost try_from_gives = { λ n r. r ≡ ok_or (published n) (record { number = n }) };

    fn try_from(number: u8) -> Result<PublishedRule, UnknownRule> {
        match number {
            1 => Ok(PublishedRule::ReadWrite),
            2 => Ok(PublishedRule::Majority),
            3 => Ok(PublishedRule::Ladder),
            _ => Err(UnknownRule { number }),
        }
    }
}

// The rule of the file's rule byte; where that names none or is missing, rule 1.
pub fn rule_asked(file: &[u8]) -> PublishedRule
    ensures value { rule_number result ≡ rule_asked file.now }
{
    PublishedRule::try_from(byte_at(file, 1)).unwrap_or(PublishedRule::ReadWrite)
}
