// A stand-off read from words.
ghost use Rattle.std.specs.Prelude.{◌≡◌, map, string_bytes};
ghost use Rattle.standoffs.specs.Requests.{rule_of, Reads, Asks};

use crate::letters::rounds_of;
use crate::numerals::number_of;
use crate::request::{Fault, Standoff};
use numbers::sizes::Sizes;
use plan::PublishedRule;
use std::alloc::Global;

// The rule whose number a word writes.
pub fn rule_of(word: &str) -> Option<PublishedRule>
    ensures value { result ≡ rule_of word.now }
{
    let number = u8::try_from(number_of(word)?).ok()?;
    PublishedRule::try_from(number).ok()
}

impl Standoff {
    // The stand-off that four words ask for.
    pub fn read(
        heap: Global,
        rule: &str,
        agents: &str,
        cells: &str,
        rounds: &str,
    ) -> Result<Standoff, Fault>
        ensures value { Reads rule.now agents.now cells.now rounds.now result }
    {
        let rule = rule_of(rule).ok_or(Fault::Rule)?;
        let agents = number_of(agents).ok_or(Fault::Agents)?;
        let cells = number_of(cells).ok_or(Fault::Cells)?;
        let rounds = rounds_of(heap, rounds)?.ok_or(Fault::Rounds)?;
        Ok(Standoff {
            rule,
            sizes: Sizes { agents, cells },
            rounds,
        })
    }

    // The stand-off that three or four words ask for; with three of them there are no rounds.
    pub fn read_words(heap: Global, words: &[String]) -> Result<Standoff, Fault>
        ensures value { Asks (map string_bytes words.now) result }
    {
        match words {
            [rule, agents, cells] => Standoff::read(heap, rule, agents, cells, ""),
            [rule, agents, cells, rounds] => Standoff::read(heap, rule, agents, cells, rounds),
            _ => Err(Fault::WordCount),
        }
    }
}
