// Names that count from 1, and numbers between two ends.
ghost use Rattle.std.specs.Prelude.{◌≡◌};
ghost use Rattle.numbers.specs.Rows.{within};

// Whether `number` is from `low` to `high`, both included.
pub fn is_within(low: usize, high: usize, number: usize) -> bool
    ensures value { result ≡ within low high number }
{
    (low..=high).contains(&number)
}

// Whether `name` is one of the names 1 to `count`.
pub fn is_name(name: usize, count: usize) -> bool
    ensures value { result ≡ within 1 count name }
{
    is_within(1, count, name)
}
