// Agents as a load seats them.
ghost use Rattle.std.specs.Prelude.{◌≡◌};
ghost use Rattle.rig.specs.Newcomers.{newcomer};

use crate::seat::Seat;
use cells::Mark;
use rules::{Agent, Rule, Section};

// An idle agent at local name 1, with nothing seen and no figures.
pub fn new_seat<R: Rule>(identity: u16, table: [u8; 64]) -> Seat<R::Phase>
    ensures value { result ≡ newcomer R.loaded identity table }
{
    let agent = Agent {
        section: Section::Idle,
        identity,
        phase: R::loaded_phase(),
        name: 1,
        rung: 0,
        seen: [Mark::Empty; 64],
        flags: [false; 64],
    };
    Seat {
        table,
        agent,
        steps: 0,
        entries: 0,
        refused: 0,
    }
}
