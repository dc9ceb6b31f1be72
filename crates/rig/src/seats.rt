// The agents of a rig, in room that is made once.
ghost use Rattle.std.specs.Prelude.{◌≤◌, vec_len, vec_capacity};

use crate::seat::Seat;

mod lending;
mod making;

// At most 16 agents, with room for all of them.
#[derive(Drop)]
pub struct Seats<P: Copy> {
    items: Vec<Seat<P>>,
    ghost room: { 16 ≤ vec_capacity items },
    ghost few: { vec_len items ≤ 16 },
}
