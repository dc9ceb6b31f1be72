// Rounds read from letters.
ghost use Rattle.std.specs.Prelude.{◌≡◌, Some, codes};
ghost use Rattle.model.specs.Letters.{round_read};

use crate::Round;
use std::error::Error;
use std::fmt;

// A letter that stands for no round.
#[derive(Clone, Copy, PartialEq, Eq, Debug)]
pub struct UnknownLetter;

impl TryFrom<u8> for Round {
    type Error = UnknownLetter;

    ghost try_from_gives = { λ letter answer. answer ≡ round_read letter };

    fn try_from(letter: u8) -> Result<Round, UnknownLetter> {
        match letter {
            b'r' => Ok(Round::Request),
            b's' => Ok(Round::Step),
            b'l' => Ok(Round::Leave),
            _ => Err(UnknownLetter),
        }
    }
}

impl fmt::Display for UnknownLetter {
    ghost output = { λ _. Some (codes "no round has this letter") };

    fn fmt<W: fmt::Write>(&self, f: &mut fmt::Formatter<W>) -> fmt::Result {
        f.write_str("no round has this letter")
    }
}

impl Error for UnknownLetter {}
