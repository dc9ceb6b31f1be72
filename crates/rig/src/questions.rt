// What a rig answers of itself; no question changes anything.
ghost use Rattle.std.specs.Prelude.{◌≡◌};
ghost use Rattle.model.specs.Rigs.{section_at, section_answer, figures_answer, cell_answer, holder, asking_now};
ghost use Rattle.rig.specs.Worlds.{world, rig_of};

use crate::rig::Rig;
use cells::{CellStore, Mark};
use model::Figures;
use refusal::Refusal;
use rules::{Rule, Section};

impl<S: CellStore, R: Rule> Rig<S, R> {
    // The section of agent k.
    pub fn section(&self, k: usize) -> Result<Section, Refusal>
        ensures value { result ≡ section_answer (rig_of self.now) k }
    {
        let seat = self.seats.get(k).ok_or(Refusal::NoSuchAgent { agent: k })?;
        Ok(seat.agent.section)
    }

    // The figures of agent k and of the rig.
    pub fn figures(&self, k: usize) -> Result<Figures, Refusal>
        ensures value { result ≡ figures_answer (rig_of self.now) k }
    {
        let seat = self.seats.get(k).ok_or(Refusal::NoSuchAgent { agent: k })?;
        Ok(Figures {
            steps: seat.steps,
            entries: seat.entries,
            refused: seat.refused,
            heard: self.heard,
            crowd: self.crowd,
        })
    }

    // The section of agent k; as in the model, who is not there is idle.
    pub(crate) fn section_or_idle(&self, k: usize) -> Section
        ensures value { result ≡ section_at (rig_of self.now) k }
    {
        self.seats
            .get(k)
            .map_or(Section::Idle, |seat| seat.agent.section)
    }

    // The lowest-numbered agent that holds.
    pub fn holder(&self) -> Option<usize>
        ensures value { result ≡ holder (rig_of self.now) }
    {
        self.seats.first_holding().map(|before| before + 1)
    }

    // How many agents ask: at most 16, so it fits.
    pub(crate) fn asking(&self) -> u8
        ensures value { result ≡ asking_now (rig_of self.now) }
    {
        self.seats.asking() as u8
    }

    // The mark in a cell of the store.
    pub fn cell(&self, name: usize) -> Result<Mark, Refusal>
        ensures value { result ≡ cell_answer (world S.marks self.now) name }
    {
        self.store.read(name)
    }
}
