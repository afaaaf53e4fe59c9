//! Divisors of whole numbers.
#![tactic(auto)]

ghost use Rattle.std.specs.Int.{IsGcd};

/// The greatest common divisor, by Euclid's algorithm (Elements VII, 2). That of 0 and a number is the number.
pub fn greatest_common_divisor(a: u128, b: u128) -> u128
    ensures { IsGcd a b result }
{
    let (mut x, mut y) = (a, b);
    while y != 0 {
        (x, y) = (y, x % y);
    }
    x
}
