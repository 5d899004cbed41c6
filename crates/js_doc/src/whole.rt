ghost use Rattle.std.specs.Prelude.{◌≡◌, MatchOption, pos};
ghost use Rattle.js_doc.specs.Whole.{IsWhole};

use std::marker::Model;

/// A whole number of this profile: an integer from -2^63 to 2^64 - 1, written in plain digits (`1.0` isn't).
#[derive(Clone, Copy, Debug, Drop)]
pub struct Whole {
    // Of a number below 0, -1 less the number.
    bits: u64,
    is_below: bool,
}

impl Model for Whole {
    ghost use Rattle.std.specs.Prelude.{ℤ};
    ghost use Rattle.js_doc.specs.Whole.{IsWhole, signed, bits_of, sign_of, bits_back, sign_back};

    ghost Value = { ℤ };

    ghost view = { λ w. signed w.is_below w.bits };

    ghost invariant = { λ w. IsWhole (signed w.is_below w.bits) };

    ghost inverse = { λ z. record { bits = bits_of z; is_below = sign_of z } };

    ghost inverse_ok = { λ w h i. record {
      bits = bits_back w.is_below w.bits i;
      is_below = sign_back w.is_below w.bits i;
    } };
}

impl Whole {
    /// The number, or None where it is out of range.
    pub fn new(value: i128) -> Option<Whole>
        ensures { MatchOption result (¬ IsWhole value) (λ w. IsWhole value × (w ≡ value)) }
    {
        if -(1 << 63) <= value && value < 1 << 64 {
            Some(if value < 0 {
                Whole {
                    bits: (-1 - value) as u64,
                    is_below: true,
                }
            } else {
                Whole::from_u64(value as u64)
            })
        } else {
            None
        }
    }

    /// The number of 64 bits without a sign.
    pub fn from_u64(unsigned: u64) -> Whole
        ensures { result ≡ pos unsigned }
    {
        Whole {
            bits: unsigned,
            is_below: false,
        }
    }

    /// The number of 64 bits with a sign.
    pub fn from_i64(signed: i64) -> Whole
        ensures { result ≡ signed }
    {
        if signed < 0 {
            Whole {
                bits: (-1 - signed) as u64,
                is_below: true,
            }
        } else {
            Whole::from_u64(signed as u64)
        }
    }

    /// The number itself.
    pub fn value(self) -> i128
        ensures same { result ≡ self }
        ensures range { IsWhole result }
    {
        if self.is_below {
            -1 - self.bits as i128
        } else {
            self.bits as i128
        }
    }
}
