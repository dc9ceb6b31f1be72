// A rig loaded from a plan file.
ghost use Rattle.std.specs.Prelude.{◌≡◌, ◌-◌, ◌≤◌, [], map, take, slice_index_or};
ghost use Rattle.numbers.specs.Names.{listed};
ghost use Rattle.plan.specs.Plans.{model};
ghost use Rattle.model.specs.Loads.{seat_of, is_blank, new_world, load_answer, after_load};
ghost use Rattle.model.specs.Meanings.{meaning_of};
ghost use Rattle.rig.specs.Bounds.{peak, busiest};
ghost use Rattle.rig.specs.Seating.{seated_in};
ghost use Rattle.rig.specs.Worlds.{seat_over, rig_of, world};

use crate::emptiness::check_empty;
use crate::newcomers::new_seat;
use crate::rig::Rig;
use crate::seat::Seat;
use crate::seats::Seats;
use cells::CellStore;
use plan::Plan;
use refusal::Refusal;
use rules::Rule;
use std::array;

// An agent's table, at the front of the answer.
fn table_of(plan: &Plan<'_>, agent: usize) -> [u8; 64]
    requires cells { (model plan.now).cells ≤ 64 }
    requires first { 1 ≤ agent }
    requires last { agent ≤ (model plan.now).agents }
    ensures value { take (model plan.now).cells result ≡ slice_index_or (model plan.now).tables (agent - 1) [] }
{
    let cells = plan.cells();
    // Behind the plan's cells, where there is no entry, the room is filled with 0.
    array::from_fn(|before| {
        if before < cells {
            plan.table_entry(agent, before + 1).unwrap_or(0)
        } else {
            0
        }
    })
}

// An agent with its identity and its table.
fn planned_seat<R: Rule>(plan: &Plan<'_>, agent: usize) -> Seat<R::Phase>
    requires cells { (model plan.now).cells ≤ 64 }
    requires first { 1 ≤ agent }
    requires last { agent ≤ (model plan.now).agents }
    ensures value { seat_over (model plan.now).cells result ≡ seat_of (meaning_of R.Rule) (model plan.now) agent }
    ensures fresh { peak result ≡ 0 }
{
    let identity = plan.identity(agent).unwrap();
    new_seat::<R>(identity, table_of(plan, agent))
}

// Seats the agents of a plan in place of all others. What differs for a stand-off is what seats are made of, which `fill`
// takes as a function.
fn seat_planned<R: Rule>(seats: &mut Seats<R::Phase>, plan: &Plan<'_>)
    requires cells { (model plan.now).cells ≤ 64 }
    requires agents { (model plan.now).agents ≤ 16 }
    ensures seats { map (seat_over (model plan.now).cells) (seated_in seats.new) ≡ listed (seat_of (meaning_of R.Rule) (model plan.now)) (model plan.now).agents }
    ensures fresh { busiest (seated_in seats.new) ≡ 0 }
{
    seats.fill(plan.agents(), |agent| planned_seat::<R>(plan, agent));
}

impl<S: CellStore, R: Rule> Rig<S, R> {
    // Begins over `cells` cells with the agents that are seated; on a stand-off, so many of them move together.
    pub(crate) fn begin(&mut self, cells: usize, standoff: Option<usize>)
        requires few { cells ≤ 64 }
        requires fresh { busiest (seated_in self.old.seats) ≡ 0 }
        ensures after { world S.marks self.new ≡ new_world (meaning_of R.Rule) cells (map (seat_over cells) (seated_in self.old.seats)) standoff (S.marks self.old.store) }
        ensures same { S.lender self.new.store ≡ S.lender self.old.store }
    {
        self.cells = cells;
        self.heard = 0;
        self.crowd = 0;
        self.standoff = standoff;
    }

    // Blank is defined as having no cells, and each load gives some; so 0 stands here for no load.
    pub(crate) fn is_blank(&self) -> bool
        ensures value { result ≡ is_blank (rig_of self.now) }
    {
        self.cells == 0
    }

    // Loads a blank rig from a plan file, over a store whose cells are all empty. `load_standoff` has the same steps, but
    // checks other things in between, and makes its seats of sizes alone.
    pub fn load(&mut self, file: &[u8]) -> Result<(), Refusal>
        ensures value { result ≡ load_answer (meaning_of R.Rule) (world S.marks self.old) file.now }
        ensures after { world S.marks self.new ≡ after_load (meaning_of R.Rule) (world S.marks self.old) file.now }
        ensures same { S.lender self.new.store ≡ S.lender self.old.store }
    {
        if !self.is_blank() {
            return Err(Refusal::NotBlank);
        }
        let plan = Plan::decode(file, R::NUMBER)?;
        check_empty(&self.store, plan.cells())?;
        seat_planned::<R>(&mut self.seats, &plan);
        self.begin(plan.cells(), None);
        Ok(())
    }
}
