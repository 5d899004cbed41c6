//! What `$ref` and `$dynamicRef` apply (Core, section 8.2.3).
ghost use Rattle.js_eval.specs.code.Asked.{IsAsking, asked};
ghost use Rattle.js_eval.specs.code.Terms.{IsSchemaAt, instance_of, is_place, numbered_site, resource_of, schemas_of};
ghost use Rattle.js_eval.specs.code.Terms.{value_of};
ghost use Rattle.std.specs.List.{dedup, list_all};
ghost use Rattle.std.specs.Prelude.{[], map, nat_eq, true, ◌∷◌, ◌≡◌};
ghost use Rattle.js_eval.specs.SchemaSet as spec;

use crate::cursors::asking::{Asking, alone};
use crate::evaluation::Path;
use crate::instance::Instance;
use crate::schema_lookup::{dynamic_target_at, target_at};
use js_bundle::{Place, Schemas};
use js_doc::Doc;

/// The schema that `$ref` refers to, applied to the value itself.
pub(crate) fn referred<'a>(
    schemas: &'a Schemas,
    place: Place,
    schema: &'a Doc,
    value: Instance<'a>,
) -> Asking<'a>
    requires { IsSchemaAt schemas.now place (value_of schema.now) }
    ensures asked { asked schemas.now result ≡ record {
      place = (schemas_of schemas.now).target (numbered_site schemas.now place);
      step = spec.Alone;
      at = spec.Alone;
      value = instance_of value.entry;
    } ∷ [] }
    ensures is { IsAsking schemas.now result }
{
    let (place, schema) = target_at(schemas, place, schema);
    alone(place, schema, value)
}

/// The schema that `$dynamicRef` refers to, applied to the value itself.
pub(crate) fn referred_dynamically<'a>(
    schemas: &'a Schemas,
    place: Place,
    schema: &'a Doc,
    path: &Path,
    resources: &[usize],
    value: Instance<'a>,
) -> Asking<'a>
    requires schema { IsSchemaAt schemas.now place (value_of schema.now) }
    requires path { list_all (is_place schemas.now) path.now ≡ true }
    requires resources { resources.now ≡ dedup nat_eq (map (resource_of schemas.now) path.now) }
    ensures asked { asked schemas.now result
        ≡ record {
          place = (schemas_of schemas.now).dynamic_target (map (numbered_site schemas.now) path.now)
              (numbered_site schemas.now place);
          step = spec.Alone;
          at = spec.Alone;
          value = instance_of value.entry;
        } ∷ [] }
    ensures is { IsAsking schemas.now result }
{
    let (place, schema) = dynamic_target_at(schemas, place, schema, path, resources);
    alone(place, schema, value)
}
