//! The integers next to a number.
ghost use Rattle.std.specs.Prelude.{◌≡◌, ◌≤◌, ◌*◌, ◌/◌, ◌%◌, ◌^◌, ◌==◌, min, IfSome};
ghost use Rattle.js_numbers.specs.Decimal.{IsBoundInRange, IsInRange, bound, ceiling, floor, is_whole, size_down};
ghost use Rattle.js_numbers.specs.Decimal.{size_up, integer_value};

use crate::bound::{Bound, negative, positive};
use crate::decimal::Decimal;

pub(crate) fn power_of_ten(tens: u64) -> u128
    requires { tens ≤ 38 }
    ensures { result ≡ 10 ^ tens }
{
    10u128.pow(tens as u32)
}

// The product, or 2^64 where that is less.
pub(crate) fn multiplied(digits: u128, tens: u64) -> u128
    ensures { result ≡ min (digits * 10 ^ tens) (2 ^ 64) }
{
    if digits == 0 {
        return 0;
    }
    if digits >= 1 << 64 || tens > 19 {
        return 1 << 64;
    }
    (digits * power_of_ten(tens)).min(1 << 64)
}

// (A number of 128 bits has at most 39 digits.)
fn divided(digits: u128, tens: u64) -> u128
    ensures { result ≡ digits / 10 ^ tens }
{
    if tens > 38 {
        0
    } else {
        digits / power_of_ten(tens)
    }
}

fn is_divisible(digits: u128, tens: u64) -> bool
    ensures { result ≡ (digits % 10 ^ tens == 0) }
{
    if tens > 38 {
        digits == 0
    } else {
        digits % power_of_ten(tens) == 0
    }
}

impl Decimal {
    pub(crate) fn is_whole(self) -> bool
        ensures { result ≡ is_whole self }
    {
        if self.up < self.down {
            is_divisible(self.digits, self.down - self.up)
        } else {
            true
        }
    }

    // The size without what stands behind the point, or 2^64 where that is less.
    fn size_down(self) -> u128
        ensures { result ≡ min (size_down self) (2 ^ 64) }
    {
        if self.up < self.down {
            divided(self.digits, self.down - self.up).min(1 << 64)
        } else {
            multiplied(self.digits, self.up - self.down)
        }
    }

    fn size_up(self) -> u128
        ensures { min result (2 ^ 64) ≡ min (size_up self) (2 ^ 64) }
    {
        if self.is_whole() {
            self.size_down()
        } else {
            self.size_down() + 1
        }
    }

    /// The greatest integer that isn't above the number.
    pub fn floor(self) -> Bound
        ensures same { result ≡ bound (floor self) }
        ensures range { IsBoundInRange result }
    {
        if self.is_negative {
            negative(self.size_up())
        } else {
            positive(self.size_down())
        }
    }

    /// The least integer that isn't below the number.
    pub fn ceiling(self) -> Bound
        ensures same { result ≡ bound (ceiling self) }
        ensures range { IsBoundInRange result }
    {
        if self.is_negative {
            negative(self.size_down())
        } else {
            positive(self.size_up())
        }
    }

    /// The integer that the number is, or None where it is none in the range.
    pub fn integer_value(self) -> Option<i128>
        ensures same { result ≡ integer_value self }
        ensures range { IfSome result IsInRange }
    {
        if !self.is_whole() {
            return None;
        }
        match self.floor() {
            Bound::Whole(value) => Some(value),
            Bound::Below | Bound::Above => None,
        }
    }
}
