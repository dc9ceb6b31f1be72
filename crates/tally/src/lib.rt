// Counts over the marks that an agent has seen and the flags that it has set. Names count from 1.

#![tactic(auto)]

ghost use Rattle.std.specs.Prelude.{◌≡◌, ◌&&◌, not, is_some, take, count_by};
ghost use Rattle.tally.specs.Counts.{times, lowest, is_owner, identities, most_of_one, flags_set, lowest_flag};
ghost use Rattle.tally.specs.Names.{lowest_name};

use cells::Mark;

// How often an element stands in a list.
fn count<T: PartialEq + Copy>(list: &[T], element: T) -> usize
    ensures value { result ≡ count_by (λ x. T.eq x element) list.now }
{
    let mut count = 0;
    // A loop over copies: for each element the compiler makes fewer instructions of it than of `filter` and `count`, or of a
    // comparison through a reference.
    for &other in list {
        if other == element {
            count += 1;
        }
    }
    count
}

// The lowest name where an element stands in a list.
fn lowest_name<T: PartialEq + Copy>(list: &[T], element: T) -> Option<usize>
    ensures value { result ≡ lowest_name (λ x. T.eq x element) list.now }
{
    list.iter()
        .position(|other| *other == element)
        .map(|before| before + 1)
}

// How often a mark stands among others.
pub fn count_of(marks: &[Mark], mark: Mark) -> usize
    ensures value { result ≡ times marks.now mark }
{
    count(marks, mark)
}

// The lowest name where a mark stands.
pub fn lowest_name_of(marks: &[Mark], mark: Mark) -> Option<usize>
    ensures value { result ≡ lowest marks.now mark }
{
    lowest_name(marks, mark)
}

// Whether a mark is an owner's.
fn is_owner(mark: Mark) -> bool
    ensures value { result ≡ is_owner mark }
{
    matches!(mark, Mark::Owner(_))
}

// Whether a mark is an owner's that is none of the first `before` marks.
fn is_new_owner(marks: &[Mark], before: usize, mark: Mark) -> bool
    ensures value { result ≡ (is_owner mark && not (is_some (lowest (take before marks.now) mark))) }
{
    // A slice: for each mark the compiler makes fewer instructions of it than of `take`. Where `before` is past the end, it
    // is all marks.
    let earlier = &marks[..before.min(marks.len())];
    is_owner(mark) && !earlier.iter().any(|&other| other == mark)
}

// How many different identities own a mark.
pub fn count_identities(marks: &[Mark]) -> usize
    ensures value { result ≡ identities marks.now }
{
    marks
        .iter()
        .enumerate()
        .filter(|(before, mark)| is_new_owner(marks, *before, **mark))
        .count()
}

// The most marks of one identity, and 0 where no owner's mark stands.
pub fn most_of_one_identity(marks: &[Mark]) -> usize
    ensures value { result ≡ most_of_one marks.now }
{
    let mut most = 0;
    // A loop: within a chain of `filter`, `map` and `max` the compiler makes slower code of each count.
    for &mark in marks {
        if is_owner(mark) {
            most = count_of(marks, mark).max(most);
        }
    }
    most
}

// How many flags are set.
pub fn count_flags(flags: &[bool]) -> usize
    ensures value { result ≡ flags_set flags.now }
{
    count(flags, true)
}

// The lowest name whose flag is set.
pub fn lowest_flag_set(flags: &[bool]) -> Option<usize>
    ensures value { result ≡ lowest_flag flags.now }
{
    lowest_name(flags, true)
}
