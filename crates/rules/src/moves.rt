// Changes of a record that every rule makes.
ghost use Rattle.std.specs.Prelude.{◌≡◌, ◌-◌, ◌==◌, replicate, slice_set};
ghost use Rattle.cells.specs.declared.mark.Mark.TheVariants.{Empty};
ghost use Rattle.tally.specs.Counts.{times};
ghost use Rattle.rules.specs.Records.{own, seen_at, flags_at, going, having_seen, flagged, overlaid};

use crate::agent::{Agent, Section};
use crate::marks::{front, note, note_all};
use cells::Mark;
use tally::count_of;

impl<P: Copy> Agent<P> {
    // The agent's own mark.
    pub fn own(&self) -> Mark
        ensures value { result ≡ own self.now }
    {
        Mark::Owner(self.identity)
    }

    // What was seen at the names 1 to `cells`.
    pub fn seen_at(&self, cells: usize) -> &[Mark]
        ensures value { result.now ≡ seen_at self.now cells }
    {
        front(&self.seen, cells)
    }

    // Whether an empty mark was seen at each of the names 1 to `cells`.
    pub fn saw_all_empty(&self, cells: usize) -> bool
        ensures value { result ≡ (times (seen_at self.now cells) Empty == cells) }
    {
        count_of(self.seen_at(cells), Mark::Empty) == cells
    }

    // The flags at the names 1 to `cells`.
    pub fn flags_at(&self, cells: usize) -> &[bool]
        ensures value { result.now ≡ flags_at self.now cells }
    {
        front(&self.flags, cells)
    }

    // Goes to a section, a phase and a local name.
    pub fn go(&mut self, section: Section, phase: P, name: usize)
        ensures after { self.new ≡ going self.old section phase name }
    {
        self.section = section;
        self.phase = phase;
        self.name = name;
    }

    // Goes to a phase and a local name, in the same section.
    pub fn turn(&mut self, phase: P, name: usize)
        ensures after { self.new ≡ going self.old self.old.section phase name }
    {
        self.go(self.section, phase, name);
    }

    // Notes the mark that was seen at the agent's local name.
    pub fn see(&mut self, mark: Mark)
        ensures after { self.new ≡ having_seen self.old (slice_set self.old.seen (self.old.name - 1) mark) }
    {
        note(&mut self.seen, self.name, mark);
    }

    // Notes the marks that a look showed.
    pub fn see_all(&mut self, marks: &[Mark])
        ensures after { self.new ≡ having_seen self.old (overlaid marks.now self.old.seen) }
    {
        note_all(&mut self.seen, marks);
    }

    // Forgets all marks.
    pub fn forget(&mut self)
        ensures after { self.new ≡ having_seen self.old (replicate 64 Empty) }
    {
        self.seen = [Mark::Empty; 64];
    }

    // Sets or clears the flag at the agent's local name.
    pub fn flag(&mut self, on: bool)
        ensures after { self.new ≡ flagged self.old (slice_set self.old.flags (self.old.name - 1) on) }
    {
        note(&mut self.flags, self.name, on);
    }
}
