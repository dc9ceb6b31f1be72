// The lines that a person reads of an accepted plan.
ghost use Rattle.std.specs.Prelude.{◌≤◌};
ghost use Rattle.plan.specs.Plans.{model};

use plan::Plan;
use std::fmt;

#[derive(Clone, Copy)]
pub struct Record<'a> {
    pub plan: Plan<'a>,
}

impl fmt::Display for Record<'_> {
    fn fmt<W: fmt::Write>(&self, f: &mut fmt::Formatter<W>) -> fmt::Result {
        let plan = self.plan;
        let agents = plan.agents();
        let cells = plan.cells();
        let rule = plan.rule();
        let events = plan.event_count();
        writeln!(
            f,
            "agents {agents} cells {cells} rule {rule} events {events}"
        )?;
        for agent in 1..=agents {
            write_agent(&plan, agent, f)?;
        }
        write!(
            f,
            "accepted: {cells} has no common factor with any number from 2 to {agents}"
        )
    }
}

// An agent's identity, and its own numbering of the cells.
fn write_agent<W: fmt::Write>(
    plan: &Plan<'_>,
    agent: usize,
    f: &mut fmt::Formatter<W>,
) -> fmt::Result
    requires first { 1 ≤ agent }
    requires last { agent ≤ (model plan.now).agents }
{
    let identity = plan.identity(agent).unwrap();
    write!(f, "agent {agent} identity {identity} table")?;
    for name in 1..=plan.cells() {
        let cell = plan.table_entry(agent, name).unwrap();
        write!(f, " {cell}")?;
    }
    writeln!(f)
}
