//! The numerator of a number.
ghost use Rattle.std.specs.Prelude.{◌≡◌, ◌<◌, IfSome};
ghost use Rattle.js_numbers.specs.Decimal.{IsBoundInRange, gcd, short_numerator};

use crate::bound::{Bound, positive};
use crate::decimal::Decimal;
use crate::rounding::{multiplied, power_of_ten};

fn gcd(a: u128, b: u128) -> u128
    requires { 0 < b }
    ensures same { result ≡ gcd a b }
    ensures some { 0 < result }
{
    let mut last = a;
    let mut next = b;
    while next > 0 {
        let rest = last % next;
        last = next;
        next = rest;
    }
    last
}

impl Decimal {
    /// The numerator of the number's size in lowest terms: an integer is a multiple of the number exactly if it is one
    /// of the numerator. None for a number with more than 38 places behind the point.
    pub fn numerator(self) -> Option<Bound>
        ensures same { result ≡ short_numerator self }
        ensures range { IfSome result IsBoundInRange }
    {
        if self.up >= self.down {
            return Some(positive(multiplied(self.digits, self.up - self.down)));
        }
        if self.down - self.up > 38 {
            return None;
        }
        let under = power_of_ten(self.down - self.up);
        Some(positive(self.digits / gcd(self.digits, under)))
    }
}
