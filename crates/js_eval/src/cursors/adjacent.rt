//! What `additionalProperties` looks at beside itself (Core, section 10.3.2.3).
ghost use Rattle.std.specs.Prelude.{◌≡◌, true};
ghost use Rattle.js_bundle.specs.Schemas.{is_place};
ghost use Rattle.js_eval.specs.code.Patterns.{ArePatternsAt, named_in};

use js_bundle::{Place, Schemas};
use js_doc::Members;

/// The arguments of the adjacent `properties` and `patternProperties`, if they are objects, and the schema's place.
#[derive(Clone, Copy)]
pub(crate) struct Adjacent<'a> {
    pub schemas: &'a Schemas,
    pub place: Place,
    pub properties: Option<&'a Members>,
    pub patterns: Option<&'a Members>,
    /// Whether it is stored which names the patterns match.
    pub is_kept: bool,
    ghost there: { is_place schemas.now place ≡ true },
    ghost known: { ArePatternsAt schemas.now place (named_in patterns) },
}
