// The twelve bytes that a plan file opens with, and where its parts lie.
ghost use Rattle.std.specs.Prelude.{◌≡◌};
ghost use Rattle.plan.specs.Checks.{header_read, span_of, header_check};

use numbers::factors::smallest_common_factor;
use numbers::sizes::Sizes;
use refusal::{Part, Refusal};

// No plan file is longer, in bytes.
pub const MAX_FILE: usize = 65_535;

// The header's fields. Offsets count from the file's first byte. The rule stays a number here and in `decode`, since any
// lawful rule has a number of its own.
#[derive(Clone, Copy)]
pub struct Header {
    pub version: u8,
    pub rule: u8,
    pub agents: u8,
    pub cells: u8,
    pub identities: u16,
    pub tables: u16,
    pub events: u16,
    pub count: u16,
}

// The bytes from `start` up to `end`, without `end`.
#[derive(Clone, Copy)]
pub struct Span {
    pub start: usize,
    pub end: usize,
}

impl Header {
    pub fn read(file: &[u8]) -> Result<Header, Refusal>
        ensures value { result ≡ header_read file.now }
    {
        let [
            version,
            rule,
            agents,
            cells,
            identities_high,
            identities_low,
            tables_high,
            tables_low,
            events_high,
            events_low,
            count_high,
            count_low,
            rest @ ..,
        ] = file
        else {
            return Err(Refusal::FileLength);
        };
        if rest.len() > MAX_FILE - 12 {
            return Err(Refusal::FileLength);
        }
        Ok(Header {
            version: *version,
            rule: *rule,
            agents: *agents,
            cells: *cells,
            identities: u16::from_be_bytes([*identities_high, *identities_low]),
            tables: u16::from_be_bytes([*tables_high, *tables_low]),
            events: u16::from_be_bytes([*events_high, *events_low]),
            count: u16::from_be_bytes([*count_high, *count_low]),
        })
    }

    // Version, rule, and the numbers of agents and cells.
    pub fn check(&self, rule: u8) -> Result<(), Refusal>
        ensures value { result ≡ header_check rule self.now }
    {
        if self.version != 1 {
            return Err(Refusal::FileVersion);
        }
        if self.rule != rule {
            return Err(Refusal::FileRule);
        }
        if !(2..=16).contains(&self.agents) {
            return Err(Refusal::FileAgents);
        }
        if !(2..=64).contains(&self.cells) {
            return Err(Refusal::FileCells);
        }
        let sizes = Sizes {
            agents: usize::from(self.agents),
            cells: usize::from(self.cells),
        };
        match smallest_common_factor(sizes) {
            Some(factor) => Err(Refusal::CommonFactor { factor }),
            None => Ok(()),
        }
    }

    // Where a part lies, whether or not the file reaches that far.
    pub fn span(&self, part: Part) -> Span
        ensures value { result ≡ span_of self.now part }
    {
        let agents = usize::from(self.agents);
        let (offset, size) = match part {
            Part::Identities => (self.identities, 2 * agents),
            Part::Tables => (self.tables, agents * usize::from(self.cells)),
            Part::Events => (self.events, 2 * usize::from(self.count)),
        };
        let start = usize::from(offset);
        Span {
            start,
            end: start + size,
        }
    }
}
