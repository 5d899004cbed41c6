//! The number that a text is: digits and powers of ten.
ghost use Rattle.std.specs.Prelude.{◌≡◌, ◌^◌, ◌++◌, min, if◌then◌else◌, Some, None};
ghost use Rattle.std.specs.Str.Parse.{digits_value, AllDigits};
ghost use Rattle.js_numbers.specs.Decimal.{decimal, is_short};

use core::dec2flt::{byte_at, digit_at};
use fast_float::Numeral;

const DIGITS_LIMIT: u128 = 10_000_000_000_000_000_000_000_000_000_000_000_000;

/// The number `digits * 10^up / 10^down`, or that less than 0.
#[derive(Clone, Copy, Debug)]
pub struct Decimal {
    /// Whether a minus stands before it.
    pub is_negative: bool,
    /// Its digits as one number.
    pub digits: u128,
    /// What it is multiplied by, as a power of ten.
    pub up: u64,
    /// What it is divided by, as a power of ten.
    pub down: u64,
}

// The digits as one number, or 10^37 where that is less.
fn value_of_digits(whole: &[u8], fraction: &[u8]) -> u128
    requires { AllDigits 10 (whole.now ++ fraction.now) }
    ensures { result ≡ min (digits_value 10 (whole.now ++ fraction.now)) (10 ^ 37) }
{
    let mut value = 0u128;
    for at in 0..whole.len() + fraction.len() {
        value = (value * 10 + digit_at(whole, fraction, at) as u128).min(DIGITS_LIMIT);
    }
    value
}

impl Decimal {
    /// The number that a JSON number's text is, or None where it is longer than 37 digits, or has an exponent that is
    /// about as large as 2^64.
    pub fn of_text(text: &str) -> Option<Decimal>
        ensures { result ≡ (if is_short (decimal text.now) then Some (decimal text.now) else None) }
    {
        let bytes = text.as_bytes();
        let is_negative = byte_at(bytes, 0) == b'-';
        let parts = Numeral::scan(if is_negative { &bytes[1..] } else { bytes });
        let digits = value_of_digits(parts.whole(), parts.fraction());
        let exponent = value_of_digits(parts.exponent(), &[]);
        let (up, down) = if parts.is_exponent_negative() {
            (0, exponent)
        } else {
            (exponent, 0)
        };
        let down = parts.fraction().len() as u128 + down;
        if digits < DIGITS_LIMIT && up < 1 << 64 && down < 1 << 64 {
            Some(Decimal {
                is_negative,
                digits,
                up: up as u64,
                down: down as u64,
            })
        } else {
            None
        }
    }
}
