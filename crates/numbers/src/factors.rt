// Common factors: whether a number of cells suits a number of agents.
ghost use Rattle.std.specs.Prelude.{◌≡◌, false, ◌↔◌, is_some, IfSome};
ghost use Rattle.numbers.specs.Factors.{gcd, GreatestCommonDivisor, smallest_common_factor, CoprimeUpTo, SmallestCommonFactor};

use crate::sizes::Sizes;

// Euclid's algorithm.
pub fn greatest_common_divisor(a: usize, b: usize) -> usize
    ensures value { result ≡ gcd a b }
    ensures greatest { GreatestCommonDivisor result a b }
{
    let mut x = a;
    let mut y = b;
    while y != 0 {
        (x, y) = (y, x % y);
    }
    x
}

// The smallest number from 2 to the number of agents that has a common factor with the number of cells.
// Where there is none, the cell count passes.
pub fn smallest_common_factor(sizes: Sizes) -> Option<usize>
    ensures value { result ≡ smallest_common_factor sizes.agents sizes.cells }
    ensures passes { (is_some result ≡ false) ↔ CoprimeUpTo sizes.agents sizes.cells }
    ensures smallest { IfSome result (SmallestCommonFactor sizes.agents sizes.cells) }
{
    (2..=sizes.agents).find(|factor| greatest_common_divisor(*factor, sizes.cells) != 1)
}
