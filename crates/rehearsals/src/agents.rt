// What rigs tell of their agents, compared.
ghost use Rattle.std.specs.Prelude.{◌≡◌, ℕ, ◌≤◌, true, ◌&&◌};
ghost use Rattle.model.specs.Rigs.{section_answer, figures_answer};
ghost use Rattle.rig.specs.Worlds.{rig_of};
ghost use Rattle.rehearsals.specs.Answers.{same_section, same_figures, both_tell, together};

use crate::answers::tell_same;
use cells::CellStore;
use rig::Rig;
use rules::Rule;

// Whether two rigs tell the same section and the same figures of agent k.
pub fn is_alike<S: CellStore, T: CellStore, R: Rule>(
    one: &Rig<S, R>,
    other: &Rig<T, R>,
    k: usize,
) -> bool
    ensures value { result ≡ both_tell same_section (section_answer (rig_of one.now) k) (section_answer (rig_of other.now) k) && both_tell same_figures (figures_answer (rig_of one.now) k) (figures_answer (rig_of other.now) k) }
    ensures sections { result ≡ true → section_answer (rig_of one.now) k ≡ section_answer (rig_of other.now) k }
    ensures figures { result ≡ true → figures_answer (rig_of one.now) k ≡ figures_answer (rig_of other.now) k }
{
    tell_same(one.section(k), other.section(k)) && tell_same(one.figures(k), other.figures(k))
}

// Whether agent k is there, and in the section of agent 1.
fn is_with_first<S: CellStore, R: Rule>(rig: &Rig<S, R>, k: usize) -> bool
    ensures value { result ≡ both_tell same_section (section_answer (rig_of rig.now) k) (section_answer (rig_of rig.now) 1) }
{
    tell_same(rig.section(k), rig.section(1))
}

// Whether the first agents, so many, are all there and in the same section.
pub fn are_together<S: CellStore, R: Rule>(rig: &Rig<S, R>, agents: usize) -> bool
    ensures value { result ≡ together (rig_of rig.now) agents }
    ensures sections { result ≡ true → (j k : ℕ) → 1 ≤ j → j ≤ agents → 1 ≤ k → k ≤ agents → section_answer (rig_of rig.now) j ≡ section_answer (rig_of rig.now) k }
{
    (1..=agents).all(|k| is_with_first(rig, k))
}
