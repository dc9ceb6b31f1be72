// What the store does for an agent, through the agent's table.
ghost use Rattle.std.specs.Prelude.{◌≡◌, ℕ, ◌≤◌, take, IfOk};
ghost use Rattle.numbers.specs.Names.{listed};
ghost use Rattle.cells.specs.Marks.{mark_at};
ghost use Rattle.rules.specs.Records.{reply_of};
ghost use Rattle.rules.specs.declared.want.Want.TheVariants.{Look};
ghost use Rattle.model.specs.Rigs.{entry, served, store_after, store_check};
ghost use Rattle.rig.specs.Serving.{checked, reply_by};
ghost use Rattle.rig.specs.Worlds.{seat_over};

use crate::seat::Seat;
use cells::{CellStore, Mark};
use refusal::Refusal;
use rules::{Answer, Want, front};

// What came of a want: the marks of a look, at its front; the mark of a read; that a write is done; whether a swap found
// the old mark.
// Not `rules::Answer`: with no heap, a look's marks lie in an array of whoever serves, and are lent to the rule from there.
#[derive(Clone, Copy)]
pub enum Outcome {
    Seen([Mark; 64]),
    Cell(Mark),
    Done,
    Went(bool),
}

impl Outcome {
    // The answer for the agent, over `cells` cells.
    pub fn answer(&self, cells: usize) -> Answer<'_>
        ensures value { reply_of result ≡ reply_by cells self.now }
    {
        match self {
            Outcome::Seen(marks) => Answer::Marks(front(marks, cells)),
            Outcome::Cell(mark) => Answer::Cell(*mark),
            Outcome::Done => Answer::Done,
            Outcome::Went(found) => Answer::Went(*found),
        }
    }
}

impl<P: Copy> Seat<P> {
    // The store's name for a local name, over `cells` cells; 0 where there is none. A store has no name 0, so it
    // refuses it.
    pub fn entry(&self, name: usize, cells: usize) -> usize
        ensures value { result ≡ entry (seat_over cells self.now) name }
    {
        front(&self.table, cells)
            .get(name.saturating_sub(1))
            .map_or(0, |cell| usize::from(*cell))
    }
}

// The marks at all local names, in their order, at the front of the answer.
fn look<S: CellStore, P: Copy>(
    store: &S,
    seat: &Seat<P>,
    cells: usize,
) -> Result<[Mark; 64], Refusal>
    requires { cells ≤ 64 }
    ensures value { checked result ≡ store_check cells (S.marks store.now) (seat_over cells seat.now) Look }
    ensures seen { IfOk result (λ ms. take cells ms ≡ listed (λ x. mark_at (S.marks store.now) (entry (seat_over cells seat.now) x)) cells) }
{
    let mut seen = [Mark::Empty; 64];
    // By index: of what `iter_mut` beside another iterator writes, a proof knows no element.
    for (before, cell) in front(&seat.table, cells).iter().enumerate() {
        seen[before] = store.read(usize::from(*cell))?;
    }
    Ok(seen)
}

// Carries out what an agent wants.
pub fn serve<S: CellStore, P: Copy>(
    store: &mut S,
    seat: &Seat<P>,
    cells: usize,
    want: Want,
) -> Result<Outcome, Refusal>
    requires { cells ≤ 64 }
    ensures value { checked result ≡ store_check cells (S.marks store.old) (seat_over cells seat.now) want }
    ensures reply { IfOk result (λ o. reply_by cells o ≡ served cells (S.marks store.old) (seat_over cells seat.now) want) }
    ensures after { S.marks store.new ≡ store_after (S.marks store.old) (seat_over cells seat.now) want }
    ensures same { S.lender store.new ≡ S.lender store.old }
{
    match want {
        Want::Look => {
            let seen = look(&*store, seat, cells)?;
            Ok(Outcome::Seen(seen))
        }
        Want::Read(name) => {
            let mark = store.read(seat.entry(name, cells))?;
            Ok(Outcome::Cell(mark))
        }
        Want::Write(name, mark) => {
            store.write(seat.entry(name, cells), mark)?;
            Ok(Outcome::Done)
        }
        Want::Swap(name, old, new) => {
            let found = store.swap(seat.entry(name, cells), old, new)?;
            Ok(Outcome::Went(found))
        }
    }
}
