// What a call does that is heard.
ghost use Rattle.std.specs.Prelude.{◌≡◌, ◌+◌, ◌^◌, ◌<◌, ◌≤◌};
ghost use Rattle.refusal.specs.Checks.{◌then◌};
ghost use Rattle.plan.specs.declared.event.Event.TheVariants.{Step};
ghost use Rattle.model.specs.Meanings.{meaning_of};
ghost use Rattle.model.specs.Rigs.{moved, turned_away, after_check};
ghost use Rattle.rig.specs.Bounds.{peak};
ghost use Rattle.rig.specs.Moves.{away, crowded, granted, one_step_more, needs, seat_after, cells_after};
ghost use Rattle.rig.specs.Worlds.{seat_over, world};

use crate::rig::Rig;
use crate::seat::Seat;
use crate::sections::agent_of;
use crate::service::serve;
use cells::CellStore;
use numbers::sizes::Sizes;
use plan::Event;
use refusal::Refusal;
use rules::Rule;

impl<P: Copy> Seat<P> {
    // Counts a step, and an entry if it ended in holding.
    fn count_step(&mut self)
        requires { peak self.old + 1 < 2 ^ 32 }
        ensures after { self.new ≡ one_step_more self.old }
    {
        self.steps += 1;
        if self.holds() {
            self.entries += 1;
        }
    }
}

// An agent's step: what it wants is served, and it goes on by the answer.
fn take_step<S: CellStore, R: Rule>(
    store: &mut S,
    seat: &mut Seat<R::Phase>,
    sizes: Sizes,
) -> Result<(), Refusal>
    requires cells { sizes.cells ≤ 64 }
    requires counted { peak seat.old + 1 < 2 ^ 32 }
    ensures value { result ≡ needs (meaning_of R.Rule) sizes (S.marks store.old) (Step 0) (seat_over sizes.cells seat.old) }
    ensures seat { seat_over sizes.cells seat.new ≡ after_check result (seat_after (meaning_of R.Rule) sizes (S.marks store.old) (Step 0) (seat_over sizes.cells seat.old)) (seat_over sizes.cells seat.old) }
    ensures store { S.marks store.new ≡ after_check result (cells_after (meaning_of R.Rule) sizes (S.marks store.old) (Step 0) (seat_over sizes.cells seat.old)) (S.marks store.old) }
    ensures same { S.lender store.new ≡ S.lender store.old }
{
    let want = R::want(sizes, &seat.agent);
    let outcome = serve(store, seat, sizes.cells, want)?;
    R::step(sizes, &mut seat.agent, outcome.answer(sizes.cells));
    seat.count_step();
    Ok(())
}

// What an accepted call does with its agent and the store, unless the store refuses what the agent wants.
fn act<S: CellStore, R: Rule>(
    store: &mut S,
    seat: &mut Seat<R::Phase>,
    sizes: Sizes,
    event: Event,
) -> Result<(), Refusal>
    requires cells { sizes.cells ≤ 64 }
    requires counted { peak seat.old + 1 < 2 ^ 32 }
    ensures value { result ≡ needs (meaning_of R.Rule) sizes (S.marks store.old) event (seat_over sizes.cells seat.old) }
    ensures seat { seat_over sizes.cells seat.new ≡ after_check result (seat_after (meaning_of R.Rule) sizes (S.marks store.old) event (seat_over sizes.cells seat.old)) (seat_over sizes.cells seat.old) }
    ensures store { S.marks store.new ≡ after_check result (cells_after (meaning_of R.Rule) sizes (S.marks store.old) event (seat_over sizes.cells seat.old)) (S.marks store.old) }
    ensures same { S.lender store.new ≡ S.lender store.old }
{
    match event {
        Event::Request(_) => R::ask(sizes, &mut seat.agent),
        Event::Step(_) => take_step::<S, R>(store, seat, sizes)?,
        Event::Leave(_) => R::leave(sizes, &mut seat.agent),
    }
    Ok(())
}

impl<S: CellStore, R: Rule> Rig<S, R> {
    // Counts a call that was refused for the section of agent k. Only while a call is left to hear, since figures have no
    // limit of their own.
    fn turn_away(&mut self, k: usize)
        requires { self.old.heard < 1000000 }
        ensures after { world S.marks self.new ≡ away (world S.marks self.old) k }
        ensures same { S.lender self.new.store ≡ S.lender self.old.store }
    {
        if let Some(seat) = self.seats.seat(k) {
            seat.refused += 1;
            self.heard += 1;
        }
    }

    // Notes how many agents ask now, if never so many did.
    fn note_crowd(&mut self)
        ensures after { world S.marks self.new ≡ crowded (world S.marks self.old) }
        ensures same { S.lender self.new.store ≡ S.lender self.old.store }
    {
        self.crowd = self.asking().max(self.crowd);
    }

    // Carries out a call that is heard and that the agent's section allows. Only while a call is left to hear, as
    // `turn_away`.
    fn carry_out(&mut self, event: Event) -> Result<(), Refusal>
        requires { self.old.heard < 1000000 }
        ensures value { result ≡ granted (meaning_of R.Rule) (world S.marks self.old) event }
        ensures after { world S.marks self.new ≡ moved (meaning_of R.Rule) (world S.marks self.old) event }
        ensures same { S.lender self.new.store ≡ S.lender self.old.store }
    {
        let sizes = Sizes {
            agents: self.seats.count(),
            cells: self.cells,
        };
        if let Some(seat) = self.seats.seat(agent_of(event)) {
            act::<S, R>(&mut self.store, seat, sizes, event)?;
            self.heard += 1;
            self.note_crowd();
        }
        Ok(())
    }

    // What comes of a call that is heard: by its check it is carried out, or counted as refused. Only while a call is
    // left to hear, as `turn_away`.
    pub(crate) fn hear(&mut self, event: Event, checked: Result<(), Refusal>) -> Result<(), Refusal>
        requires { self.old.heard < 1000000 }
        ensures value { result ≡ (checked then granted (meaning_of R.Rule) (world S.marks self.old) event) }
        ensures after { world S.marks self.new ≡ after_check checked (moved (meaning_of R.Rule) (world S.marks self.old) event) (turned_away (meaning_of R.Rule) (world S.marks self.old) event) }
        ensures same { S.lender self.new.store ≡ S.lender self.old.store }
    {
        match checked {
            Ok(()) => self.carry_out(event),
            Err(refusal) => {
                self.turn_away(agent_of(event));
                Err(refusal)
            }
        }
    }
}
