// The checks of a file whose header could be read, in their order.
ghost use Rattle.std.specs.Prelude.{◌≡◌, length};
ghost use Rattle.refusal.specs.declared.Refusal.TheVariants.{BadEntry};
ghost use Rattle.refusal.specs.Checks.{refuse_at};
ghost use Rattle.plan.specs.Checks.{inside_check, apart_check, parts_check, row_misfit, known, identities_check, tables_check, events_check, all_checks};

use crate::draft::{Draft, Identities, Table};
use crate::event::Kind;
use numbers::names::is_name;
use numbers::rows::first_misfit;
use refusal::{Part, Refusal};

impl Draft<'_> {
    fn check_inside(&self, part: Part) -> Result<(), Refusal>
        ensures value { result ≡ inside_check self.now.header (length self.now.file.now) part }
    {
        let span = self.header.span(part);
        if span.start < 12 || span.end > self.file.len() {
            return Err(Refusal::PartOutside { part });
        }
        Ok(())
    }

    fn check_apart(&self, first: Part, second: Part) -> Result<(), Refusal>
        ensures value { result ≡ apart_check self.now.header first second }
    {
        let one = self.header.span(first);
        let other = self.header.span(second);
        // An empty part ends where it begins, so it has no byte in common with any.
        if one.start.max(other.start) < one.end.min(other.end) {
            return Err(Refusal::PartsOverlap { first, second });
        }
        Ok(())
    }

    // Every part lies behind the header and inside the file, and no two have a byte in common.
    fn check_parts(&self) -> Result<(), Refusal>
        ensures value { result ≡ parts_check self.now.header (length self.now.file.now) }
    {
        self.check_inside(Part::Identities)?;
        self.check_inside(Part::Tables)?;
        self.check_inside(Part::Events)?;
        self.check_apart(Part::Identities, Part::Tables)?;
        self.check_apart(Part::Identities, Part::Events)?;
        self.check_apart(Part::Tables, Part::Events)
    }

    // Every identity is from 1 to 65,535, and no two are equal.
    fn check_identities(&self) -> Result<(), Refusal>
        ensures value { result ≡ identities_check self.now.header self.now.file.now }
    {
        let row = Identities { draft: *self };
        match first_misfit(&row, 65_535, u16::from(self.header.agents)) {
            Some(agent) => Err(Refusal::BadIdentity { agent }),
            None => Ok(()),
        }
    }

    // An agent's table is an arrangement of the numbers from 1 to the number of cells.
    fn check_table(&self, agent: u8) -> Result<(), Refusal>
        ensures value { result ≡ refuse_at (BadEntry agent) (row_misfit self.now.header self.now.file.now agent) }
    {
        let row = Table {
            draft: *self,
            agent,
        };
        let cells = self.header.cells;
        let agent = usize::from(agent);
        match first_misfit(&row, usize::from(cells), u16::from(cells)) {
            Some(name) => Err(Refusal::BadEntry { agent, name }),
            None => Ok(()),
        }
    }

    fn check_tables(&self) -> Result<(), Refusal>
        ensures value { result ≡ tables_check self.now.header self.now.file.now }
    {
        for agent in 1..=self.header.agents {
            self.check_table(agent)?;
        }
        Ok(())
    }

    // Whether an event has a known kind and a known agent.
    fn knows_event(&self, event: u16) -> bool
        ensures value { result ≡ known self.now.header self.now.file.now event }
    {
        let agent = usize::from(self.agent(event));
        Kind::try_from(self.kind(event)).is_ok() && is_name(agent, usize::from(self.header.agents))
    }

    fn check_events(&self) -> Result<(), Refusal>
        ensures value { result ≡ events_check self.now.header self.now.file.now }
    {
        // A loop: of `find` over an inclusive range the compiler makes twice as much work for each event.
        for event in 1..=self.header.count {
            if !self.knows_event(event) {
                return Err(Refusal::BadEvent {
                    event: usize::from(event),
                });
            }
        }
        Ok(())
    }

    pub fn check_all(&self, rule: u8) -> Result<(), Refusal>
        ensures value { result ≡ all_checks rule self.now.header self.now.file.now }
    {
        self.header.check(rule)?;
        self.check_parts()?;
        self.check_identities()?;
        self.check_tables()?;
        self.check_events()
    }
}
