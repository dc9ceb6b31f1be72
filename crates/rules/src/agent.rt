// What is recorded of an agent.
ghost use Rattle.std.specs.Prelude.{◌≡◌, Some};
ghost use Rattle.rules.specs.Sections.{section_word};

use cells::Mark;
use std::fmt;

// Where an agent stands in its use of the profile window.
#[derive(Clone, Copy, PartialEq, Eq, Debug)]
pub enum Section {
    Idle,
    Asking,
    Holding,
    Leaving,
}

impl Section {
    // `idle`, `asking`, `holding` or `leaving`.
    pub fn word(self) -> &'static str
        ensures value { result.now ≡ section_word self }
    {
        match self {
            Section::Idle => "idle",
            Section::Asking => "asking",
            Section::Holding => "holding",
            Section::Leaving => "leaving",
        }
    }
}

impl fmt::Display for Section {
    ghost output = { λ s. Some (section_word s) };

    fn fmt<W: fmt::Write>(&self, f: &mut fmt::Formatter<W>) -> fmt::Result {
        f.write_str(self.word())
    }
}

// An agent's record: its section and identity; its phase, of which each rule has its own; one local name; a rung; the
// marks last seen and the flags, at the local names from 1 on.
// Two arrays of fixed room rather than lists: no rule may want memory, and a record is copied.
#[derive(Clone, Copy)]
pub struct Agent<P> {
    pub section: Section,
    pub identity: u16,
    pub phase: P,
    pub name: usize,
    pub rung: u8,
    pub seen: [Mark; 64],
    pub flags: [bool; 64],
}
