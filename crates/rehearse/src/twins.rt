// What a plan's rig and its twin's answer, side by side.
use cells::CellStore;
use rehearsals::{Twins, is_alike};
use rig::Rig;
use rules::Rule;

// The word for whether something agrees: only this program says so.
fn sameness(same: bool) -> &'static str {
    if same { "the same" } else { "another" }
}

// The rig of a plan and the rig of its twin, and the two plans.
#[derive(Drop)]
pub struct TwinRigs<'a, S, T, R: Rule> {
    pub first: &'a Rig<S, R>,
    pub second: &'a Rig<T, R>,
    pub twins: Twins<'a>,
}

impl<S: CellStore, T: CellStore, R: Rule> TwinRigs<'_, S, T, R> {
    // What both rigs tell of agent k.
    fn tell_agent(&self, rt: &impl Print, k: usize) -> anyhow::Result<bool> {
        let (Ok(section), Ok(figures)) = (self.first.section(k), self.first.figures(k)) else {
            return Ok(false);
        };
        let same = is_alike(self.first, self.second, k);
        let steps = figures.steps;
        let entries = figures.entries;
        let refused = figures.refused;
        let heard = figures.heard;
        let sameness = sameness(same);
        println!(rt;
            "agent {k} {section} steps {steps} entries {entries} refused {refused} heard {heard}, twin {sameness}"
        )?;
        Ok(same)
    }

    // What both rigs tell of all agents.
    fn tell_agents(&self, rt: &impl Print) -> anyhow::Result<bool> {
        let mut same = self.first.agents() == self.second.agents();
        // Each line is printed, so no `all`, which stops at the first that is not so.
        for k in 1..=self.first.agents() {
            same &= self.tell_agent(rt, k)?;
        }
        Ok(same)
    }

    // A cell of the first rig, and the one that it became in the second.
    fn tell_cell(&self, rt: &impl Print, name: usize) -> anyhow::Result<bool> {
        let Some(other) = self.twins.name_in_twin(name) else {
            return Ok(false);
        };
        let (Ok(mark), Ok(replaced)) = (self.first.cell(name), self.second.cell(usize::from(other)))
        else {
            return Ok(false);
        };
        let same = self.twins.is_replaced(mark, replaced);
        let sameness = sameness(same);
        println!(rt; "cell {name} {mark}, twin cell {other} {replaced}, {sameness}")?;
        Ok(same)
    }

    // All cells of the first rig, and what they became in the second.
    fn tell_cells(&self, rt: &impl Print) -> anyhow::Result<bool> {
        let mut same = self.first.cells() == self.second.cells();
        // Each line is printed, so no `all`.
        for name in 1..=self.first.cells() {
            same &= self.tell_cell(rt, name)?;
        }
        Ok(same)
    }

    // The most agents that asked together, and who holds.
    fn tell_holder(&self, rt: &impl Print) -> anyhow::Result<bool> {
        let crowd = self.first.crowd();
        let holder = self.first.holder();
        let same = self.second.crowd() == crowd && self.second.holder() == holder;
        // The line says 0 for nobody.
        let holder = holder.unwrap_or(0);
        let sameness = sameness(same);
        println!(rt; "crowd {crowd} holder {holder}, twin {sameness}")?;
        Ok(same)
    }

    // All that both rigs tell, and whether it agrees.
    pub fn tell(&self, rt: &impl Print) -> anyhow::Result<bool> {
        let agents = self.tell_agents(rt)?;
        let cells = self.tell_cells(rt)?;
        let holder = self.tell_holder(rt)?;
        Ok(agents && cells && holder)
    }
}
