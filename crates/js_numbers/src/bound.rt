//! Integers, as far as they are in the range.
ghost use Rattle.std.specs.Prelude.{◌≡◌, ℕ, pos, neg_ℤ, ◌^◌, min};
ghost use Rattle.js_numbers.specs.Decimal.{IsBoundInRange, bound};

/// An integer from -2^63 to 2^64 - 1, or on which side of these it is.
#[derive(Clone, Copy, Debug, PartialEq, Eq)]
pub enum Bound {
    /// below -2^63
    Below,
    /// the integer
    Whole(i128),
    /// above 2^64 - 1
    Above,
}

// A size is known up to 2^64.
pub(crate) fn positive(size: u128) -> Bound
    ensures same { (n : ℕ) → min n (2 ^ 64) ≡ min size (2 ^ 64) → result ≡ bound (pos n) }
    ensures range { IsBoundInRange result }
{
    if size < 1 << 64 {
        Bound::Whole(size as i128)
    } else {
        Bound::Above
    }
}

pub(crate) fn negative(size: u128) -> Bound
    ensures same { (n : ℕ) → min n (2 ^ 64) ≡ min size (2 ^ 64) → result ≡ bound (neg_ℤ (pos n)) }
    ensures range { IsBoundInRange result }
{
    if size <= 1 << 63 {
        Bound::Whole(-(size as i128))
    } else {
        Bound::Below
    }
}
