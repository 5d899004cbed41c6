//! How the argument of a keyword holds schemas.
ghost use Rattle.std.specs.Prelude.{◌≡◌};
ghost use Rattle.js_upgrade.specs.Upgrade.{holding_by_change};

use crate::keyword::Change;

/// How the argument of a keyword holds schemas.
#[derive(Clone, Copy, Debug, PartialEq, Eq)]
pub enum SchemaHolding {
    /// It is a schema.
    One,
    /// Its items are schemas.
    Listed,
    /// Its members' values are schemas.
    Named,
    /// It is a schema, or its items are schemas.
    OneOrListed,
    /// It holds none.
    Nothing,
}

// How the argument of a keyword with this change holds schemas.
pub(crate) fn holding_by_change(change: Change) -> SchemaHolding
    ensures { result ≡ holding_by_change change }
{
    match change {
        Change::HoldsOne | Change::AdditionalItems | Change::Contains => SchemaHolding::One,
        Change::HoldsList => SchemaHolding::Listed,
        Change::HoldsNamed | Change::Definitions | Change::Dependencies | Change::Properties =>
            SchemaHolding::Named,
        Change::Items | Change::Types | Change::Disallowed | Change::Extended => {
            SchemaHolding::OneOrListed
        }
        _ => SchemaHolding::Nothing,
    }
}
