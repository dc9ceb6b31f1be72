// How large a rig is, and how crowded it was.
ghost use Rattle.std.specs.Prelude.{◌≡◌, ◌≤◌, length};
ghost use Rattle.rig.specs.Worlds.{rig_of};

use crate::rig::Rig;
use cells::CellStore;
use rules::Rule;

impl<S: CellStore, R: Rule> Rig<S, R> {
    // How many agents there are, 0 while the rig is blank.
    pub fn agents(&self) -> usize
        ensures value { result ≡ length (rig_of self.now).seats }
        ensures few { result ≤ 16 }
    {
        self.seats.count()
    }

    // How many cells there are, 0 while the rig is blank.
    pub fn cells(&self) -> usize
        ensures value { result ≡ (rig_of self.now).cells }
        ensures few { result ≤ 64 }
    {
        self.cells
    }

    // The most agents asking after any one call.
    pub fn crowd(&self) -> u8
        ensures value { result ≡ (rig_of self.now).crowd }
    {
        self.crowd
    }
}
