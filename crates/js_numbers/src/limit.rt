//! Bounds by integers that say what one by a number says.
ghost use Rattle.std.specs.Prelude.{◌≡◌};
ghost use Rattle.js_numbers.specs.Decimal.{IsBoundInRange};
ghost use Rattle.js_numbers.specs.Limit.{IsLimitInRange, beyond_above, beyond_below, from_above, from_below};
ghost use Rattle.js_numbers.specs.Limit.{exclusive_maximum_limit, exclusive_minimum_limit, maximum_limit};
ghost use Rattle.js_numbers.specs.Limit.{minimum_limit};

use crate::bound::Bound;
use crate::decimal::Decimal;

const LEAST: i128 = -9_223_372_036_854_775_808;

pub(crate) const GREATEST: i128 = 18_446_744_073_709_551_615;

/// A bound by an integer.
#[derive(Clone, Copy, Debug, PartialEq, Eq)]
pub enum Limit {
    /// It holds of each integer.
    Unlimited,
    /// at least
    Minimum(i128),
    /// at most
    Maximum(i128),
    /// greater than
    ExclusiveMinimum(i128),
    /// less than
    ExclusiveMaximum(i128),
}

fn from_below(bound: Bound) -> Limit
    requires { IsBoundInRange bound }
    ensures same { result ≡ from_below bound }
    ensures range { IsLimitInRange result }
{
    match bound {
        Bound::Below => Limit::Minimum(LEAST),
        Bound::Whole(value) => Limit::Minimum(value),
        Bound::Above => Limit::ExclusiveMinimum(GREATEST),
    }
}

fn from_above(bound: Bound) -> Limit
    requires { IsBoundInRange bound }
    ensures same { result ≡ from_above bound }
    ensures range { IsLimitInRange result }
{
    match bound {
        Bound::Below => Limit::ExclusiveMaximum(LEAST),
        Bound::Whole(value) => Limit::Maximum(value),
        Bound::Above => Limit::Maximum(GREATEST),
    }
}

fn beyond_below(bound: Bound) -> Limit
    requires { IsBoundInRange bound }
    ensures same { result ≡ beyond_below bound }
    ensures range { IsLimitInRange result }
{
    match bound {
        Bound::Below => Limit::Unlimited,
        Bound::Whole(value) => Limit::ExclusiveMinimum(value),
        Bound::Above => Limit::ExclusiveMinimum(GREATEST),
    }
}

fn beyond_above(bound: Bound) -> Limit
    requires { IsBoundInRange bound }
    ensures same { result ≡ beyond_above bound }
    ensures range { IsLimitInRange result }
{
    match bound {
        Bound::Below => Limit::ExclusiveMaximum(LEAST),
        Bound::Whole(value) => Limit::ExclusiveMaximum(value),
        Bound::Above => Limit::Unlimited,
    }
}

impl Decimal {
    /// What a `minimum` of this number says of each integer from -2^63 to 2^64 - 1.
    pub fn minimum_limit(self) -> Limit
        ensures same { result ≡ minimum_limit self }
        ensures range { IsLimitInRange result }
    {
        from_below(self.ceiling())
    }

    /// What a `maximum` of this number says.
    pub fn maximum_limit(self) -> Limit
        ensures same { result ≡ maximum_limit self }
        ensures range { IsLimitInRange result }
    {
        from_above(self.floor())
    }

    /// What an `exclusiveMinimum` of this number says.
    pub fn exclusive_minimum_limit(self) -> Limit
        ensures same { result ≡ exclusive_minimum_limit self }
        ensures range { IsLimitInRange result }
    {
        beyond_below(self.floor())
    }

    /// What an `exclusiveMaximum` of this number says.
    pub fn exclusive_maximum_limit(self) -> Limit
        ensures same { result ≡ exclusive_maximum_limit self }
        ensures range { IsLimitInRange result }
    {
        beyond_above(self.ceiling())
    }
}
