// The two things that a store refuses.
ghost use Rattle.std.specs.Prelude.{◌≡◌};
ghost use Rattle.cells.specs.Marks.{mark_check, name_check};

use crate::mark::Mark;
use numbers::names::is_name;
use refusal::Refusal;

// Refuses a name that is not one of the names 1 to `count`.
pub fn check_name(name: usize, count: usize) -> Result<(), Refusal>
    ensures value { result ≡ name_check count name }
{
    if is_name(name, count) {
        Ok(())
    } else {
        Err(Refusal::NoSuchCell { name })
    }
}

// Refuses an identity or a rung that makes no mark.
pub fn check_mark(mark: Mark) -> Result<(), Refusal>
    ensures value { result ≡ mark_check mark }
{
    match mark {
        Mark::Owner(0) | Mark::Rung(0) | Mark::Rung(17..) => Err(Refusal::NoMark),
        _ => Ok(()),
    }
}
