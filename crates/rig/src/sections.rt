// What a call asks of its agent's section.
ghost use Rattle.std.specs.Prelude.{◌≡◌};
ghost use Rattle.model.specs.Rigs.{agent_of, section_check};

use plan::Event;
use refusal::Refusal;
use rules::Section;

// The agent that a call is for.
pub fn agent_of(event: Event) -> usize
    ensures value { result ≡ agent_of event }
{
    match event {
        Event::Request(agent) | Event::Step(agent) | Event::Leave(agent) => agent,
    }
}

// An idle agent may ask, one that asks or leaves may step, and one that holds may leave.
pub fn check_section(event: Event, section: Section) -> Result<(), Refusal>
    ensures value { result ≡ section_check event section }
{
    match (event, section) {
        (Event::Request(_), Section::Idle)
        | (Event::Step(_), Section::Asking | Section::Leaving)
        | (Event::Leave(_), Section::Holding) => Ok(()),
        (Event::Request(agent), _) => Err(Refusal::NotIdle { agent }),
        (Event::Step(agent), _) => Err(Refusal::AtRest { agent }),
        (Event::Leave(agent), _) => Err(Refusal::NotHolding { agent }),
    }
}
