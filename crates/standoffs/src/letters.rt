// Rounds as a word has them, a letter for each.
ghost use Rattle.std.specs.Prelude.{◌≡◌, IfOk, vec_items};
ghost use Rattle.std.specs.Option.{option_map};
ghost use Rattle.standoffs.specs.Letters.{rounds_of};

use model::Round;
use std::alloc::{AllocError, Global};

// The rounds of a word; none where one of its letters stands for no round.
pub fn rounds_of(heap: Global, word: &str) -> Result<Option<Vec<Round>>, AllocError>
    ensures value { IfOk result (λ o. option_map vec_items o ≡ rounds_of word.now) }
{
    // A loop: what `collect` into an Option or a Result says of failing is not enough.
    let letters = word.as_bytes();
    let mut rounds = Vec::new(heap);
    for letter in letters {
        let Ok(round) = Round::try_from(*letter) else {
            return Ok(None);
        };
        rounds.push(round)?;
    }
    Ok(Some(rounds))
}
