// How seats are made and counted.
ghost use Rattle.std.specs.Prelude.{◌≡◌, ℕ, ◌<◌, ◌≤◌, [], ◌∷◌, ◌++◌, length, IfOk, count_by, position};
ghost use Rattle.model.specs.Rigs.{is_asking, is_holding};
ghost use Rattle.rig.specs.Seating.{seated_in, MadeOf};

use super::Seats;
use crate::seat::Seat;
use std::alloc::{AllocError, Global};

impl<P: Copy> Seats<P> {
    // No agents yet, and room for 16: the only call that wants memory.
    pub fn new(heap: Global) -> Result<Seats<P>, AllocError>
        ensures empty { IfOk result (λ s. seated_in s ≡ []) }
    {
        let items = Vec::with_capacity(heap, 16)?;
        Ok(Seats { items })
    }

    // How many agents there are.
    pub(crate) fn count(&self) -> usize
        ensures value { result ≡ length (seated_in self.now) }
        ensures few { result ≤ 16 }
    {
        self.items.len()
    }

    // How many agents ask.
    pub(crate) fn asking(&self) -> usize
        ensures value { result ≡ count_by (λ s. is_asking s.agent.section) (seated_in self.now) }
        ensures few { result ≤ 16 }
    {
        let mut asking = 0;
        // A loop: of `filter` and `count` the compiler makes twice as much work for each agent, and each call counts anew.
        for seat in self.items.as_slice() {
            if seat.asks() {
                asking += 1;
            }
        }
        asking
    }

    // The place of the first agent that holds.
    pub(crate) fn first_holding(&self) -> Option<usize>
        ensures value { result ≡ position (λ s. is_holding s.agent.section) (seated_in self.now) }
    {
        self.items.iter().position(|seat| seat.holds())
    }

    // Lets all agents go.
    pub(crate) fn clear(&mut self)
        ensures after { seated_in self.new ≡ [] }
    {
        self.items.clear();
    }

    // Adds an agent after the others, while there is room.
    fn add(&mut self, seat: Seat<P>)
        requires { length (seated_in self.old) < 16 }
        ensures after { seated_in self.new ≡ seated_in self.old ++ seat ∷ [] }
    {
        self.items.push_reserved(seat);
    }

    // Seats so many agents in place of all others, each as it is made of its number.
    pub(crate) fn fill<F: Fn(usize) -> Seat<P>>(&mut self, agents: usize, made: F)
        requires room { agents ≤ 16 }
        requires callable { (k : ℕ) → 1 ≤ k → k ≤ agents → F.pre made k }
        ensures seats { MadeOf (F.post made) (seated_in self.new) agents }
    {
        self.clear();
        for agent in 1..=agents {
            self.add(made(agent));
        }
    }
}
