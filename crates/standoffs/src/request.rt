// What a program is asked for.
ghost use Rattle.std.specs.Prelude.{◌≡◌};
ghost use Rattle.standoffs.specs.declared.request.Fault.TheVariants.{NoMemory};

use model::Round;
use numbers::sizes::Sizes;
use plan::PublishedRule;
use std::alloc::AllocError;
use thiserror::Error;

// A stand-off of so many agents over so many empty cells under a rule, and its rounds.
#[derive(Drop)]
pub struct Standoff {
    pub rule: PublishedRule,
    pub sizes: Sizes,
    pub rounds: Vec<Round>,
}

// Why words ask for no stand-off.
#[derive(Clone, Copy, PartialEq, Eq, Debug, Error)]
pub enum Fault {
    #[error("it takes three or four words: RULE N M ROUNDS")]
    WordCount,
    #[error("RULE is 1, 2 or 3")]
    Rule,
    #[error("N is a decimal number below 2^64")]
    Agents,
    #[error("M is a decimal number below 2^64")]
    Cells,
    #[error("ROUNDS is a word of the letters r, s and l")]
    Rounds,
    #[error("out of memory")]
    NoMemory,
}

// By hand, since a derived conversion does not say which fault it gives.
impl From<AllocError> for Fault {
    ghost from_gives = { λ _ fault. fault ≡ NoMemory };

    fn from(_error: AllocError) -> Fault {
        Fault::NoMemory
    }
}
