// A rig loaded as a stand-off: agents that move together, each beginning as far round the cells from the one before.
ghost use Rattle.std.specs.Prelude.{◌≡◌, ◌≤◌, map, take, if◌then◌else◌, nat_le};
ghost use Rattle.numbers.specs.Names.{listed};
ghost use Rattle.model.specs.Loads.{turned, standoff_seat, standoff_answer, after_standoff};
ghost use Rattle.model.specs.Meanings.{meaning_of};
ghost use Rattle.rig.specs.Bounds.{peak, busiest};
ghost use Rattle.rig.specs.Seating.{seated_in};
ghost use Rattle.rig.specs.Worlds.{seat_over, world};

use crate::emptiness::check_empty;
use crate::newcomers::new_seat;
use crate::rig::Rig;
use crate::seat::Seat;
use crate::seats::Seats;
use cells::CellStore;
use numbers::factors::smallest_common_factor;
use numbers::sizes::Sizes;
use refusal::Refusal;
use rules::Rule;
use std::array;

// So many agents move together over so many cells.
#[derive(Drop)]
struct Turning {
    together: usize,
    cells: usize,
    ghost some: { 1 ≤ together },
    ghost least: { 1 ≤ cells },
    ghost most: { cells ≤ 64 },
}

impl Turning {
    // The cell that an agent calls by a local name: for those that move together, after the last cell comes the first;
    // the others call each cell as the store does. Names are at most 64, so they fit.
    fn entry(&self, agent: usize, name: usize) -> u8
        requires first { 1 ≤ agent }
        requires last { agent ≤ 16 }
        requires named { 1 ≤ name }
        requires known { name ≤ 64 }
        ensures value { result ≡ (if nat_le agent self.now.together then turned self.now.together self.now.cells agent name else name) }
    {
        if agent > self.together {
            return name as u8;
        }
        (1 + (name - 1 + (agent - 1) * self.cells / self.together) % self.cells) as u8
    }

    // An agent's table, at the front of the answer.
    fn table(&self, agent: usize) -> [u8; 64]
        requires first { 1 ≤ agent }
        requires last { agent ≤ 16 }
        ensures value { take self.now.cells result ≡ listed (λ x. (if nat_le agent self.now.together then turned self.now.together self.now.cells agent x else x)) self.now.cells }
    {
        // Behind the cells that are there, the room is filled with 0.
        array::from_fn(|before| {
            if before < self.cells {
                self.entry(agent, before + 1)
            } else {
                0
            }
        })
    }

    // An agent whose identity is its number: at most 16, so it fits.
    fn seat<R: Rule>(&self, agent: usize) -> Seat<R::Phase>
        requires first { 1 ≤ agent }
        requires last { agent ≤ 16 }
        ensures value { seat_over self.now.cells result ≡ standoff_seat (meaning_of R.Rule) self.now.together self.now.cells agent }
        ensures fresh { peak result ≡ 0 }
    {
        new_seat::<R>(agent as u16, self.table(agent))
    }
}

// Seats the agents of a stand-off in place of all others.
fn seat_standoff<R: Rule>(seats: &mut Seats<R::Phase>, turning: &Turning, agents: usize)
    requires room { agents ≤ 16 }
    ensures seats { map (seat_over turning.now.cells) (seated_in seats.new) ≡ listed (standoff_seat (meaning_of R.Rule) turning.now.together turning.now.cells) agents }
    ensures fresh { busiest (seated_in seats.new) ≡ 0 }
{
    seats.fill(agents, |agent| turning.seat::<R>(agent));
}

impl<S: CellStore, R: Rule> Rig<S, R> {
    // Loads a blank rig as a stand-off, over a store whose cells are all empty.
    pub fn load_standoff(&mut self, sizes: Sizes) -> Result<(), Refusal>
        ensures value { result ≡ standoff_answer (meaning_of R.Rule) (world S.marks self.old) sizes.agents sizes.cells }
        ensures after { world S.marks self.new ≡ after_standoff (meaning_of R.Rule) (world S.marks self.old) sizes.agents sizes.cells }
        ensures same { S.lender self.new.store ≡ S.lender self.old.store }
    {
        if !self.is_blank() {
            return Err(Refusal::NotBlank);
        }
        let Sizes { agents, cells } = sizes;
        if !(2..=16).contains(&agents) {
            return Err(Refusal::StandoffAgents);
        }
        if !(2..=64).contains(&cells) {
            return Err(Refusal::StandoffCells);
        }
        let Some(together) = smallest_common_factor(sizes) else {
            return Err(Refusal::NoCommonFactor);
        };
        check_empty(&self.store, cells)?;
        seat_standoff::<R>(&mut self.seats, &Turning { together, cells }, agents);
        self.begin(cells, Some(together));
        Ok(())
    }
}
