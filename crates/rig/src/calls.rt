// Calls of one agent.
ghost use Rattle.std.specs.Prelude.{◌≡◌, ◌<◌, OnOk};
ghost use Rattle.plan.specs.declared.event.Event.TheVariants.{Request, Step, Leave};
ghost use Rattle.model.specs.Meanings.{meaning_of};
ghost use Rattle.model.specs.Rigs.{hearing_check, answer, after};
ghost use Rattle.rig.specs.Worlds.{world, rig_of};

use crate::rig::Rig;
use crate::sections::{agent_of, check_section};
use cells::CellStore;
use numbers::names::is_name;
use plan::Event;
use refusal::Refusal;
use rules::Rule;

// All calls that a rig will hear.
pub const MOST_HEARD: u32 = 1_000_000;

impl<S: CellStore, R: Rule> Rig<S, R> {
    // Whether a call of agent k is heard at all.
    fn check_hearing(&self, k: usize) -> Result<(), Refusal>
        ensures value { result ≡ hearing_check (rig_of self.now) k }
        ensures early { OnOk result (self.now.heard < 1000000) }
    {
        if !is_name(k, self.seats.count()) {
            return Err(Refusal::NoSuchAgent { agent: k });
        }
        if self.standoff.is_some() {
            return Err(Refusal::OnStandoff);
        }
        if self.heard >= MOST_HEARD {
            return Err(Refusal::HeardAll);
        }
        Ok(())
    }

    // A request, a step or a leave of one agent. A call that is refused for the agent's section is heard and counted.
    pub fn call(&mut self, event: Event) -> Result<(), Refusal>
        ensures value { result ≡ answer (meaning_of R.Rule) (world S.marks self.old) event }
        ensures after { world S.marks self.new ≡ after (meaning_of R.Rule) (world S.marks self.old) event }
        ensures same { S.lender self.new.store ≡ S.lender self.old.store }
    {
        let agent = agent_of(event);
        self.check_hearing(agent)?;
        let checked = check_section(event, self.section_or_idle(agent));
        self.hear(event, checked)
    }

    // Users ask for each kind of call by a name of its own too.

    // Agent k begins to ask.
    pub fn request(&mut self, k: usize) -> Result<(), Refusal>
        ensures value { result ≡ answer (meaning_of R.Rule) (world S.marks self.old) (Request k) }
        ensures after { world S.marks self.new ≡ after (meaning_of R.Rule) (world S.marks self.old) (Request k) }
        ensures same { S.lender self.new.store ≡ S.lender self.old.store }
    {
        self.call(Event::Request(k))
    }

    // Agent k takes one step.
    pub fn step(&mut self, k: usize) -> Result<(), Refusal>
        ensures value { result ≡ answer (meaning_of R.Rule) (world S.marks self.old) (Step k) }
        ensures after { world S.marks self.new ≡ after (meaning_of R.Rule) (world S.marks self.old) (Step k) }
        ensures same { S.lender self.new.store ≡ S.lender self.old.store }
    {
        self.call(Event::Step(k))
    }

    // Agent k, which holds, begins to leave.
    pub fn leave(&mut self, k: usize) -> Result<(), Refusal>
        ensures value { result ≡ answer (meaning_of R.Rule) (world S.marks self.old) (Leave k) }
        ensures after { world S.marks self.new ≡ after (meaning_of R.Rule) (world S.marks self.old) (Leave k) }
        ensures same { S.lender self.new.store ≡ S.lender self.old.store }
    {
        self.call(Event::Leave(k))
    }
}
