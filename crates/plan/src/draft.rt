// A file with its header, before it is known to be a plan: where everything stands.
ghost use Rattle.std.specs.Prelude.{◌≡◌};
ghost use Rattle.plan.specs.Plans.{identity_at, entry_at, kind_at, agent_at};

use crate::bytes::{byte_at, word_at};
use crate::header::Header;
use numbers::rows::Row;

#[derive(Clone, Copy)]
pub struct Draft<'a> {
    pub header: Header,
    pub file: &'a [u8],
}

impl Draft<'_> {
    // The identity of an agent. Here and below everything counts from 1.
    pub fn identity(&self, agent: u16) -> u16
        ensures value { result ≡ identity_at self.now.header self.now.file.now agent }
    {
        let start = usize::from(self.header.identities);
        word_at(self.file, start + 2 * usize::from(agent.saturating_sub(1)))
    }

    // The store's name for an agent's local name.
    pub fn entry(&self, agent: u16, name: u16) -> u8
        ensures value { result ≡ entry_at self.now.header self.now.file.now agent name }
    {
        let start = usize::from(self.header.tables);
        let cells = usize::from(self.header.cells);
        let row = usize::from(agent.saturating_sub(1));
        let place = usize::from(name.saturating_sub(1));
        byte_at(self.file, start + cells * row + place)
    }

    // The byte that says what an event asks.
    pub fn kind(&self, event: u16) -> u8
        ensures value { result ≡ kind_at self.now.header self.now.file.now event }
    {
        let start = usize::from(self.header.events);
        byte_at(self.file, start + 2 * usize::from(event.saturating_sub(1)))
    }

    // The agent of an event.
    pub fn agent(&self, event: u16) -> u8
        ensures value { result ≡ agent_at self.now.header self.now.file.now event }
    {
        let start = usize::from(self.header.events);
        byte_at(
            self.file,
            start + 2 * usize::from(event.saturating_sub(1)) + 1,
        )
    }
}

// The agents' identities.
#[derive(Clone, Copy)]
pub struct Identities<'a> {
    pub draft: Draft<'a>,
}

impl Row for Identities<'_> {
    ghost numbers = { λ s. identity_at s.draft.header s.draft.file.now };

    fn number_at(&self, place: u16) -> usize {
        usize::from(self.draft.identity(place))
    }
}

// One agent's table: the store's name for each local name.
#[derive(Clone, Copy)]
pub struct Table<'a> {
    pub draft: Draft<'a>,
    pub agent: u8,
}

impl Row for Table<'_> {
    ghost numbers = { λ s. entry_at s.draft.header s.draft.file.now s.agent };

    fn number_at(&self, place: u16) -> usize {
        usize::from(self.draft.entry(u16::from(self.agent), place))
    }
}
