// One agent's seat, lent to be read or changed. Agents count from 1.
ghost use Rattle.std.specs.Prelude.{◌≡◌, ◌-◌, true, is_some, slice_set};
ghost use Rattle.std.specs.Borrow.{sem, follows_so};
ghost use Rattle.std.specs.Option.{option_map, ghost_name_of as name_of};
ghost use Rattle.numbers.specs.Names.{named};
ghost use Rattle.rig.specs.contracts.seats.Seats.{the_row};
ghost use Rattle.rig.specs.contracts.seat.Seat.{the_row as seat-row};
ghost use Rattle.rig.specs.Seating.{seated_in};

use super::Seats;
use crate::seat::Seat;

impl<P: Copy> Seats<P> {
    // The seat of agent k, to be read.
    pub(crate) fn get(&self, k: usize) -> Option<&Seat<P>>
        ensures value { option_map (λ x. x.now) result ≡ named (seated_in self.now) k }
    {
        self.items.get(k.checked_sub(1)?)
    }

    // The seat of agent k, to be changed.
    pub(crate) fn seat(&mut self, k: usize) -> Option<&mut Seat<P>>
        ensures* lent { sem 𝓛 (follows_so (the_row P.row) (seat-row P.row) self.entry.ghost_name (name_of result) (λ w n. is_some result ≡ true → seated_in n ≡ slice_set (seated_in self.old) (k - 1) w) (λ n. seated_in n ≡ seated_in self.old)) }
        ensures found { option_map (λ x. x.now) result ≡ named (seated_in self.old) k }
    {
        self.items.get_mut(k.checked_sub(1)?)
    }
}
