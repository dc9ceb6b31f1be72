// What the rig means, and what is shown of it before any of its calls runs.

#![tactic(auto)]

ghost use Rattle.std.specs.Prelude.{◌≡◌};
ghost use Rattle.model.specs.Examples.{HoldsAfter, AfterTwoRequests, HalfEach, BothHold, ran, two_requests, stood_off, standoff_over_three, zeros_over_three};
ghost use Rattle.model.specs.Meanings.{read_and_write, by_majority, by_ladder};

use refusal::Refusal;

mod letters;
mod rounds;

pub use letters::UnknownLetter;

// What a round gives to each of the agents that move together.
#[derive(Clone, Copy, PartialEq, Eq, Debug)]
pub enum Round {
    Request,
    Step,
    Leave,
}

// What is counted: of one agent its accepted steps, those of them that ended in holding, and its calls that were refused
// for its section; of the rig the calls heard, and the most agents asking after any one call.
#[derive(Clone, Copy, PartialEq, Eq, Debug)]
pub struct Figures {
    pub steps: u32,
    pub entries: u32,
    pub refused: u32,
    pub heard: u32,
    pub crowd: u8,
}

// The steps after which a lone agent holds, by each rule.
pub struct LoneSteps {
    pub registers: usize,
    pub majority: usize,
    pub ladder: usize,
}

// One of two agents asks over three empty cells and steps alone: it holds after so many steps, and not one earlier.
pub fn lone_steps() -> LoneSteps
    ensures by_registers { HoldsAfter read_and_write result.registers }
    ensures by_majority { HoldsAfter by_majority result.majority }
    ensures by_ladder { HoldsAfter by_ladder result.ladder }
{
    LoneSteps {
        registers: 7,
        majority: 6,
        ladder: 12,
    }
}

// Two agents, 700 and 41, ask together over three empty cells by rule 1: which one comes to hold. The contract tells the
// whole outcome.
pub fn holder_after_two_requests() -> Option<usize>
    ensures outcome { AfterTwoRequests result (ran read_and_write two_requests) }
{
    Some(2)
}

// Two agents stand off over four cells by rule 1: the owners of the cells after a request round and five step rounds.
pub fn owners_on_standoff() -> [u16; 4]
    ensures outcome { HalfEach result stood_off }
{
    [1, 1, 2, 2]
}

// Two agents that hold together by rule 1 where three share two cells: without the check of the number of cells the lock
// is none.
pub fn holders_over_too_few_cells() -> (usize, usize)
    ensures outcome { BothHold result.0 result.1 }
{
    (1, 2)
}

// Two agents do not stand off over three cells: the numbers have no factor in common.
pub fn standoff_of_two_over_three() -> Result<(), Refusal>
    ensures value { result ≡ standoff_over_three 2 3 }
{
    Err(Refusal::NoCommonFactor)
}

// Eleven bytes are no plan.
pub fn load_of_eleven_bytes() -> Result<(), Refusal>
    ensures value { result ≡ zeros_over_three 11 }
{
    Err(Refusal::FileLength)
}
