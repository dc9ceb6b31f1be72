// Every way in which the rig says no: the number, the layer and the two place numbers of each refusal.

#![tactic(auto)]

ghost use Rattle.std.specs.Prelude.{◌≡◌, Some};
ghost use Rattle.refusal.specs.Refusals.{layer_word, part_number, number_of, layer_of, first_place, second_place, refusal_line};

use std::error::Error;
use std::fmt;

// Where a refusal comes from.
#[derive(Clone, Copy, PartialEq, Eq, Debug)]
pub enum Layer {
    File,
    Plan,
    Store,
    Rig,
    Report,
}

impl fmt::Display for Layer {
    ghost output = { λ l. Some (layer_word l) };

    fn fmt<W: fmt::Write>(&self, f: &mut fmt::Formatter<W>) -> fmt::Result {
        match self {
            Layer::File => f.write_str("file"),
            Layer::Plan => f.write_str("plan"),
            Layer::Store => f.write_str("store"),
            Layer::Rig => f.write_str("rig"),
            Layer::Report => f.write_str("report"),
        }
    }
}

// The three parts of a plan file that follow its header.
#[derive(Clone, Copy, PartialEq, Eq, Debug)]
pub enum Part {
    Identities,
    Tables,
    Events,
}

// The number by which a refusal names the part.
impl From<Part> for usize {
    ghost from_gives = { λ part n. n ≡ part_number part };

    fn from(part: Part) -> usize {
        match part {
            Part::Identities => 1,
            Part::Tables => 2,
            Part::Events => 3,
        }
    }
}

// A case for each refusal, with its places. Two cases share a number where it has two layers or two conditions.
#[derive(Clone, Copy, PartialEq, Eq, Debug)]
pub enum Refusal {
    // The file has fewer than 12 bytes or more than 65,535.
    FileLength,
    // The file's version is not 1.
    FileVersion,
    // The file's rule is not the one that is expected.
    FileRule,
    // The file's number of agents is not from 2 to 16.
    FileAgents,
    // The file's number of cells is not from 2 to 64.
    FileCells,
    // The number of cells has a factor in common with a number from 2 to the number of agents.
    CommonFactor { factor: usize },
    // A part begins before byte 12 or ends after the file.
    PartOutside { part: Part },
    // Two parts have a byte in common.
    PartsOverlap { first: Part, second: Part },
    // An identity is zero or repeats an earlier one.
    BadIdentity { agent: usize },
    // A table entry names no cell or repeats an earlier one of its row.
    BadEntry { agent: usize, name: usize },
    // An event has an unknown kind or agent; events count from 1.
    BadEvent { event: usize },
    // There is no such agent.
    NoSuchAgent { agent: usize },
    // A request of an agent that is not idle.
    NotIdle { agent: usize },
    // A leave of an agent that does not hold.
    NotHolding { agent: usize },
    // A step of an agent that is idle or holds.
    AtRest { agent: usize },
    // The rig has heard all the calls that it will hear.
    HeardAll,
    // The store has no cell of that name.
    NoSuchCell { name: usize },
    // An identity or a rung that makes no mark.
    NoMark,
    // The store has not as many cells as the plan.
    CellCount,
    // The caller's buffer is too short for the report.
    BufferTooShort,
    // A cell is not empty when a plan is loaded.
    CellTaken { name: usize },
    // A load into a rig that is not blank.
    NotBlank,
    // A call for one agent on a stand-off, which hears rounds only.
    OnStandoff,
    // A stand-off load whose number of cells has no such common factor.
    NoCommonFactor,
    // A stand-off load whose number of agents is not from 2 to 16.
    StandoffAgents,
    // A stand-off load whose number of cells is not from 2 to 64.
    StandoffCells,
    // A round on a rig that is no stand-off.
    NoStandoff,
    // A renumbering's row has not as many entries as the store has cells.
    RowLength,
    // An entry of a renumbering's row names no cell or repeats an earlier one.
    BadRenumbering { name: usize },
}

impl Refusal {
    pub fn number(&self) -> u8
        ensures value { result ≡ number_of self.now }
    {
        match self {
            Refusal::FileLength => 1,
            Refusal::FileVersion => 2,
            Refusal::FileRule => 3,
            Refusal::FileAgents | Refusal::StandoffAgents => 4,
            Refusal::FileCells | Refusal::StandoffCells => 5,
            Refusal::CommonFactor { .. } => 6,
            Refusal::PartOutside { .. } => 7,
            Refusal::PartsOverlap { .. } => 8,
            Refusal::BadIdentity { .. } => 9,
            Refusal::BadEntry { .. } | Refusal::BadRenumbering { .. } => 10,
            Refusal::BadEvent { .. } => 11,
            Refusal::NoSuchAgent { .. } => 12,
            Refusal::NotIdle { .. } => 13,
            Refusal::NotHolding { .. } => 14,
            Refusal::AtRest { .. } => 15,
            Refusal::HeardAll => 16,
            Refusal::NoSuchCell { .. } => 17,
            Refusal::NoMark => 18,
            Refusal::CellCount | Refusal::RowLength => 19,
            Refusal::BufferTooShort => 20,
            Refusal::CellTaken { .. } => 21,
            Refusal::NotBlank => 22,
            Refusal::OnStandoff | Refusal::NoStandoff => 23,
            Refusal::NoCommonFactor => 24,
        }
    }

    pub fn layer(&self) -> Layer
        ensures value { result ≡ layer_of self.now }
    {
        match self {
            Refusal::FileLength
            | Refusal::FileVersion
            | Refusal::FileRule
            | Refusal::FileAgents
            | Refusal::FileCells
            | Refusal::CommonFactor { .. } => Layer::File,
            Refusal::PartOutside { .. }
            | Refusal::PartsOverlap { .. }
            | Refusal::BadIdentity { .. }
            | Refusal::BadEntry { .. }
            | Refusal::BadEvent { .. } => Layer::Plan,
            Refusal::NoSuchCell { .. }
            | Refusal::NoMark
            | Refusal::CellCount
            | Refusal::CellTaken { .. }
            | Refusal::RowLength
            | Refusal::BadRenumbering { .. } => Layer::Store,
            Refusal::NoSuchAgent { .. }
            | Refusal::NotIdle { .. }
            | Refusal::NotHolding { .. }
            | Refusal::AtRest { .. }
            | Refusal::HeardAll
            | Refusal::NotBlank
            | Refusal::OnStandoff
            | Refusal::NoCommonFactor
            | Refusal::StandoffAgents
            | Refusal::StandoffCells
            | Refusal::NoStandoff => Layer::Rig,
            Refusal::BufferTooShort => Layer::Report,
        }
    }

    // Both place numbers, zero where none is named.
    pub fn places(&self) -> (usize, usize)
        ensures first { result.0 ≡ first_place self.now }
        ensures second { result.1 ≡ second_place self.now }
    {
        match self {
            Refusal::CommonFactor { factor } => (*factor, 0),
            Refusal::PartOutside { part } => (usize::from(*part), 0),
            Refusal::PartsOverlap { first, second } => (usize::from(*first), usize::from(*second)),
            Refusal::BadIdentity { agent }
            | Refusal::NoSuchAgent { agent }
            | Refusal::NotIdle { agent }
            | Refusal::NotHolding { agent }
            | Refusal::AtRest { agent } => (*agent, 0),
            Refusal::BadEntry { agent, name } => (*agent, *name),
            Refusal::BadEvent { event } => (*event, 0),
            Refusal::NoSuchCell { name } | Refusal::CellTaken { name } => (*name, 0),
            Refusal::BadRenumbering { name } => (0, *name),
            _ => (0, 0),
        }
    }
}

// The line that a program prints: `refused C L place A B`.
impl fmt::Display for Refusal {
    ghost output = { λ e. Some (refusal_line e) };

    fn fmt<W: fmt::Write>(&self, f: &mut fmt::Formatter<W>) -> fmt::Result {
        let number = self.number();
        let layer = self.layer();
        let (first, second) = self.places();
        write!(f, "refused {number} {layer} place {first} {second}")
    }
}

impl Error for Refusal {}
