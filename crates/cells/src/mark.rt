// What stands in a cell.
ghost use Rattle.std.specs.Prelude.{Some};
ghost use Rattle.cells.specs.Marks.{mark_words};

use std::fmt;

// Nothing, an owner's identity, or a rung. Lawful are identities from 1 to 65,535 and rungs from 1 to 16.
#[derive(Clone, Copy, PartialEq, Eq, Debug)]
pub enum Mark {
    Empty,
    Owner(u16),
    Rung(u8),
}

// `empty`, `owner 41` or `rung 2`.
impl fmt::Display for Mark {
    ghost output = { λ k. Some (mark_words k) };

    fn fmt<W: fmt::Write>(&self, f: &mut fmt::Formatter<W>) -> fmt::Result {
        match self {
            Mark::Empty => f.write_str("empty"),
            Mark::Owner(identity) => write!(f, "owner {identity}"),
            Mark::Rung(rung) => write!(f, "rung {rung}"),
        }
    }
}
