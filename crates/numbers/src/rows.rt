// Rows of numbers in which none is out of range and none comes twice.
ghost use Rattle.std.specs.Prelude.{◌≡◌, ℕ, false, ◌↔◌, is_some, IfSome};
ghost use Rattle.numbers.specs.Rows.{repeats, first_misfit, Distinct, EveryNumber, FirstMisfit};

use crate::names::is_name;

// Numbers that stand at places from 1 on.
pub trait Row {
    ghost numbers: { Self → ℕ → ℕ };

    fn number_at(&self, place: u16) -> usize
        ensures value { result ≡ numbers self.now place };
}

// Whether the number at `place` stands at an earlier place too.
fn repeated<R: Row>(row: &R, place: u16) -> bool
    ensures value { result ≡ repeats (R.numbers row.now) place }
{
    let number = row.number_at(place);
    (1..place).any(|earlier| row.number_at(earlier) == number)
}

// The first of the places 1 to `count` whose number is not from 1 to `most` or repeats an earlier one.
pub fn first_misfit<R: Row>(row: &R, most: usize, count: u16) -> Option<usize>
    ensures value { result ≡ first_misfit (R.numbers row.now) most count }
    ensures passes { (is_some result ≡ false) ↔ Distinct (R.numbers row.now) most count }
    ensures complete { is_some result ≡ false → most ≡ count → EveryNumber (R.numbers row.now) count }
    ensures first { IfSome result (FirstMisfit (R.numbers row.now) most count) }
{
    (1..=count)
        .find(|place| !is_name(row.number_at(*place), most) || repeated(row, *place))
        .map(usize::from)
}
