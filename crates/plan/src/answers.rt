// What a plan answers: numbers, names and events.
ghost use Rattle.std.specs.Prelude.{◌≡◌, ◌^◌, ◌<◌, ◌≤◌, cond, Some, None, IsSome, length};
ghost use Rattle.numbers.specs.Names.{named};
ghost use Rattle.numbers.specs.Rows.{within};
ghost use Rattle.plan.specs.Plans.{model, entry_named};

use crate::event::{Event, Kind};
use crate::plan::Plan;
use numbers::names::is_name;

// The number, if it is one of the names 1 to `count`, as a draft takes it.
fn name_up_to(count: u16, number: usize) -> Option<u16>
    ensures value { result ≡ cond (within 1 count number) (Some number) None }
{
    if !is_name(number, usize::from(count)) {
        return None;
    }
    u16::try_from(number).ok()
}

impl Plan<'_> {
    // The number of the locking rule.
    pub fn rule(&self) -> u8
        ensures value { result ≡ (model self.now).rule }
    {
        self.draft.header.rule
    }

    pub fn agents(&self) -> usize
        ensures value { result ≡ (model self.now).agents }
    {
        usize::from(self.draft.header.agents)
    }

    pub fn cells(&self) -> usize
        ensures value { result ≡ (model self.now).cells }
    {
        usize::from(self.draft.header.cells)
    }

    // The identity of an agent; agents count from 1.
    pub fn identity(&self, agent: usize) -> Option<u16>
        ensures value { result ≡ named (model self.now).identities agent }
        ensures found { 1 ≤ agent → agent ≤ (model self.now).agents → IsSome result }
    {
        let agent = name_up_to(u16::from(self.draft.header.agents), agent)?;
        Some(self.draft.identity(agent))
    }

    // The store's name for an agent's local name; both count from 1.
    pub fn table_entry(&self, agent: usize, name: usize) -> Option<u8>
        ensures value { result ≡ entry_named (model self.now) agent name }
        ensures found { 1 ≤ agent → agent ≤ (model self.now).agents → 1 ≤ name → name ≤ (model self.now).cells →
            IsSome result }
    {
        let agent = name_up_to(u16::from(self.draft.header.agents), agent)?;
        let name = name_up_to(u16::from(self.draft.header.cells), name)?;
        Some(self.draft.entry(agent, name))
    }

    pub fn event_count(&self) -> usize
        ensures value { result ≡ length (model self.now).events }
        ensures few { result < 2 ^ 16 }
    {
        usize::from(self.draft.header.count)
    }

    // An event; events count from 1.
    pub fn event(&self, index: usize) -> Option<Event>
        ensures value { result ≡ named (model self.now).events index }
        ensures found { 1 ≤ index → index ≤ length (model self.now).events → IsSome result }
    {
        let index = name_up_to(self.draft.header.count, index)?;
        // As in the definition, a byte that is no kind counts as a leave; no accepted plan has one.
        let kind = Kind::try_from(self.draft.kind(index)).unwrap_or(Kind::Leave);
        Some(Event::new(kind, usize::from(self.draft.agent(index))))
    }
}
