// A rig's beginning and end.
ghost use Rattle.std.specs.Prelude.{◌≡◌};
ghost use Rattle.model.specs.Loads.{blank_world};
ghost use Rattle.rig.specs.Worlds.{world};

use crate::rig::Rig;
use crate::seats::Seats;
use cells::CellStore;
use rules::Rule;

impl<S: CellStore, R: Rule> Rig<S, R> {
    // A blank rig, with no agents whatever seats it is given.
    pub fn new(store: S, rule: R, mut seats: Seats<R::Phase>) -> Rig<S, R>
        ensures value { world S.marks result ≡ blank_world R.Phase (S.marks store) }
    {
        seats.clear();
        Rig {
            store,
            rule,
            cells: 0,
            seats,
            heard: 0,
            crowd: 0,
            standoff: None,
        }
    }

    // The store, as it is.
    pub fn into_store(self) -> S
    where
        R: Drop,
        ensures value { result ≡ self.store }
    {
        let Rig {
            store,
            rule: _,
            cells: _,
            seats: _,
            heard: _,
            crowd: _,
            standoff: _,
        } = self;
        store
    }
}
