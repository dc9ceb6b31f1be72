// A rig with its store and its rule.
ghost use Rattle.std.specs.Prelude.{◌≤◌};
ghost use Rattle.rig.specs.Bounds.{busiest};

use crate::seats::Seats;
use rules::Rule;

// The store and the rule; the number of cells, 0 while the rig is blank; the agents; how many calls were heard, and the
// most agents asking after any one of them; on a stand-off, how many agents move together.
// Whatever changes a rig leaves the store's lender as it was, and says so: the store may work on lent memory.
pub struct Rig<S, R: Rule> {
    pub(crate) store: S,
    pub(crate) rule: R,
    pub(crate) cells: usize,
    pub(crate) seats: Seats<R::Phase>,
    pub(crate) heard: u32,
    pub(crate) crowd: u8,
    pub(crate) standoff: Option<usize>,
    ghost few: { cells ≤ 64 },
    ghost heard_few: { heard ≤ 1000000 },
    ghost counted: { busiest seats.items.items ≤ heard },
}
