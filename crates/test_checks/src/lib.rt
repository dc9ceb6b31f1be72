// Comparisons for tests, and what they compare of a refusal. They answer a failure: no helper of a test ends the program.

#![tactic(auto)]

ghost use Rattle.std.specs.Prelude.{◌≡◌, is_ok};
ghost use Rattle.std.specs.Result.{result_map_both};
ghost use Rattle.refusal.specs.Refusals.{number_of, first_place, second_place};

use refusal::Refusal;
use std::fmt::Debug;
use std::test::Fail;

// Passes exactly where `holds`.
pub fn check(holds: bool) -> Result<(), Fail>
    ensures passes { is_ok result ≡ holds }
{
    if holds {
        return Ok(());
    }
    Err(Fail::new("a test does not hold"))
}

// Passes exactly where the two are equal.
pub fn check_eq<T: PartialEq + Debug + Drop>(found: T, expected: T) -> Result<(), Fail>
    ensures passes { is_ok result ≡ T.eq found expected }
{
    if found == expected {
        return Ok(());
    }
    Err(Fail::new(format_args!("{found:?} stands where {expected:?} is wanted")))
}

// An answer, with a refusal given by its number and both its places.
pub fn verdict<T: Drop>(answer: Result<T, Refusal>) -> Result<T, (u8, usize, usize)>
    ensures value { result ≡ result_map_both (λ x. x) (λ e. (number_of e, first_place e, second_place e)) answer }
{
    answer.map_err(|refusal| {
        let (first, second) = refusal.places();
        (refusal.number(), first, second)
    })
}
