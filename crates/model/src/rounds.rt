// What a round gives, and how it is refused.
ghost use Rattle.std.specs.Prelude.{◌≡◌};
ghost use Rattle.model.specs.Rounds.{given, refusal_of};

use crate::Round;
use plan::Event;
use refusal::Refusal;

impl Round {
    // The call that the round gives to an agent.
    pub fn event_for(self, agent: usize) -> Event
        ensures value { result ≡ given self agent }
    {
        match self {
            Round::Request => Event::Request(agent),
            Round::Step => Event::Step(agent),
            Round::Leave => Event::Leave(agent),
        }
    }

    // A round that is refused names agent 1.
    pub fn refusal(self) -> Refusal
        ensures value { result ≡ refusal_of self }
    {
        match self {
            Round::Request => Refusal::NotIdle { agent: 1 },
            Round::Step => Refusal::AtRest { agent: 1 },
            Round::Leave => Refusal::NotHolding { agent: 1 },
        }
    }
}
