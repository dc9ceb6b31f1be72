// What is told, compared.
ghost use Rattle.std.specs.Prelude.{◌≡◌};
ghost use Rattle.rehearsals.specs.Answers.{both_tell};

use refusal::Refusal;

// Whether neither answer is a refusal, and both tell the same.
pub fn tell_same<T: PartialEq + Drop>(one: Result<T, Refusal>, other: Result<T, Refusal>) -> bool
    ensures value { result ≡ both_tell T.eq one other }
{
    match (one, other) {
        (Ok(one), Ok(other)) => one == other,
        _ => false,
    }
}
