//! How members hold schemas.
ghost use Rattle.std.specs.Prelude.{◌≡◌};
ghost use Rattle.js_bundle.specs.Place.{holding};
ghost use Rattle.js_bundle.specs.code.Scan.{holding_as};

use js_keyword::{Holding, Keyword};

/// What the members of an object are.
#[derive(Clone, Copy)]
pub(crate) enum Role {
    /// The keywords of a schema.
    Keywords,
    /// Schemas, under names.
    Schemas,
}

/// How the argument of the keyword with this name holds schemas.
#[tactic(auto, unfolding(crate::specs::Place::holding))]
pub(crate) fn holding_of(name: &str) -> Holding
    ensures { result ≡ holding name.now }
{
    Keyword::subschemas_of(name)
}

/// How a member with this name holds schemas.
pub(crate) fn holding_as(role: Role, name: &str) -> Holding
    ensures { result ≡ holding_as role name.now }
{
    match role {
        Role::Keywords => holding_of(name),
        Role::Schemas => Holding::One,
    }
}
