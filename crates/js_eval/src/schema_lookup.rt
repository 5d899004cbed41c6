//! Look-ups in finished schemas: the subschemas of keywords and the targets of references, with their places. If
//! nothing is found, the place itself is returned, as in the definition. In finished schemas, that doesn't happen for a
//! keyword that asks for applications (`laws::nothing_stands_in`).
ghost use Rattle.std.specs.Prelude.{◌≡◌, codes, map, nat_eq, option_and_then, true};
ghost use Rattle.std.specs.List.{dedup, list_all};
ghost use Rattle.js_bundle.specs.Resource.{sites};
ghost use Rattle.js_bundle.specs.ResourceNumber.{dynamic_ref_target_in};
ghost use Rattle.js_bundle.specs.Schemas.{StandsFor, has_keyword, is_place, path_at, place_at};
ghost use Rattle.js_bundle.specs.Target.{dynamic_ref_target};
ghost use Rattle.js_bundle.specs.Ranked.{HoldsAtRank};
ghost use Rattle.js_eval.specs.code.Standard.{keyword_names_of};
ghost use Rattle.js_eval.specs.code.Starting.{HoldsOne};
ghost use Rattle.js_eval.specs.code.Terms.{IsSchemaAt, entries, numbered_site};
ghost use Rattle.js_eval.specs.code.Terms.{resource_of, schemas_of, step_of, value_of};
ghost use Rattle.js_eval.specs.SchemaSet as spec;

use crate::evaluation::Path;
use crate::order::keyword::{KeywordAt, Member};
use js_bundle::place_laws::{a_number_determines_a_resource, numbers_determine_the_dynamic_scope};
use js_bundle::{Place, Schemas, Step};
use js_doc::Doc;
use js_keyword::Keyword;

/// The schema at a place. The look-up starts at the root of its document.
#[tactic(auto, using(crate::proofs::Paths::schema_is))]
pub(crate) fn schema_at(schemas: &Schemas, place: Place) -> &Doc
    requires { is_place schemas.now place ≡ true }
    ensures { value_of result.now ≡ (numbered_site schemas.now place).schema }
{
    schemas.schema(place)
}

/// Which keyword of the standard each member of the schema at a place is, in order.
#[tactic(auto, using(crate::proofs::Standard::names_are))]
pub(crate) fn names_at(schemas: &Schemas, place: Place) -> &[Keyword]
    requires { is_place schemas.now place ≡ true }
    ensures { result.now ≡ keyword_names_of (entries (numbered_site schemas.now place).schema) }
{
    schemas.keyword_names(place)
}

/// The subschema that a step through a keyword leads to, and its place. `schema`: the schema at `place`, where the
/// look-up starts.
pub(crate) fn subschema_at<'a>(
    schemas: &'a Schemas,
    place: Place,
    schema: &'a Doc,
    keyword: &str,
    step: Step<'_>,
) -> (Place, &'a Doc)
    requires { IsSchemaAt schemas.now place (value_of schema.now) }
    ensures is { IsSchemaAt schemas.now result.0 (value_of result.1.now) }
    ensures site { numbered_site schemas.now result.0
        ≡ (schemas_of schemas.now).below (numbered_site schemas.now place) keyword.now (step_of step.entry) }
{
    match schemas.schema_below(place, schema, keyword, step) {
        Some((below, held)) => (below, held),
        None => (place, schema),
    }
}

/// The same, if the caller already knows the subschema, and its rank among all subschemas of the keyword.
pub(crate) fn below_at_rank<'a>(
    schemas: &Schemas,
    place: Place,
    schema: &'a Doc,
    keyword: Member<'_>,
    step: Step<'_>,
    rank: usize,
    held: &'a Doc,
) -> (Place, &'a Doc)
    requires place { IsSchemaAt schemas.now place (value_of schema.now) }
    requires held { HoldsAtRank (value_of schema.now) keyword.name.now (step_of step) rank (value_of held.now) }
    ensures is { IsSchemaAt schemas.now result.0 (value_of result.1.now) }
    ensures site { numbered_site schemas.now result.0
        ≡ (schemas_of schemas.now).below (numbered_site schemas.now place) keyword.entry.name.now (step_of step.entry) }
{
    match schemas.ranked_below(place, schema, keyword.which, keyword.name, step, rank, held) {
        Some(below) => (below, held),
        None => (place, schema),
    }
}

/// The single subschema of a keyword, and its place.
pub(crate) fn held_below<'a>(schemas: &Schemas, at: &KeywordAt<'a>) -> (Place, &'a Doc)
    requires { HoldsOne schemas.now at.now }
    ensures is { IsSchemaAt schemas.now result.0 (value_of result.1.now) }
    ensures site { numbered_site schemas.now result.0
        ≡ (schemas_of schemas.now).below (numbered_site schemas.now at.now.place) at.now.keyword.name.now spec.Alone }
{
    let schema = at.schema;
    let keyword = at.keyword;
    below_at_rank(
        schemas,
        at.place,
        schema,
        keyword,
        Step::Alone,
        0,
        keyword.argument,
    )
}

/// The schema that `$ref` refers to, and its place (Core, section 8.2.3.1).
pub(crate) fn target_at<'a>(schemas: &'a Schemas, place: Place, schema: &'a Doc) -> (Place, &'a Doc)
    requires { IsSchemaAt schemas.now place (value_of schema.now) }
    ensures is { IsSchemaAt schemas.now result.0 (value_of result.1.now) }
    ensures site { numbered_site schemas.now result.0
        ≡ (schemas_of schemas.now).target (numbered_site schemas.now place) }
{
    if schemas.has_ref(place) {
        let target = schemas.target(place);
        (target, schema_at(schemas, target))
    } else {
        (place, schema)
    }
}

/// The schema that `$dynamicRef` refers to, and its place (Core, section 8.2.3.2). `path`: the places of the schemas
/// being applied, of which the last is `place`; `resources`: the numbers of their schema resources, without consecutive
/// repeats.
#[tactic(auto, using(crate::proofs::Paths::path_is))]
pub(crate) fn dynamic_target_at<'a>(
    schemas: &'a Schemas,
    place: Place,
    schema: &'a Doc,
    path: &Path,
    resources: &[usize],
) -> (Place, &'a Doc)
    requires schema { IsSchemaAt schemas.now place (value_of schema.now) }
    requires path { list_all (is_place schemas.now) path.now ≡ true }
    requires resources { resources.now ≡ dedup nat_eq (map (resource_of schemas.now) path.now) }
    ensures is { IsSchemaAt schemas.now result.0 (value_of result.1.now) }
    ensures site { numbered_site schemas.now result.0
        ≡ (schemas_of schemas.now).dynamic_target (map (numbered_site schemas.now) path.now)
        (numbered_site schemas.now place) }
{
    if schemas.has_dynamic_ref(place) {
        let target = led_by_numbers(schemas, place, path, resources);
        (target, schema_at(schemas, target))
    } else {
        (place, schema)
    }
}

// The target of `$dynamicRef`. The numbers of the resources of a path decide it as the path itself does.
fn led_by_numbers(schemas: &Schemas, place: Place, _path: &Path, resources: &[usize]) -> Place
    requires place { has_keyword (codes "$dynamicRef") schemas.now place ≡ true }
    requires path { list_all (is_place schemas.now) _path.now ≡ true }
    requires resources { resources.now ≡ dedup nat_eq (map (resource_of schemas.now) _path.now) }
    ensures { StandsFor schemas.now result (option_and_then
        (dynamic_ref_target (sites schemas.now) (path_at schemas.now _path.now)) (place_at schemas.now place)) }
{
    a_number_determines_a_resource();
    numbers_determine_the_dynamic_scope();
    led_in(schemas, place, resources)
}

fn led_in(schemas: &Schemas, place: Place, resources: &[usize]) -> Place
    requires { has_keyword (codes "$dynamicRef") schemas.now place ≡ true }
    ensures { StandsFor schemas.now result (option_and_then
        (dynamic_ref_target_in (sites schemas.now) resources.now) (place_at schemas.now place)) }
{
    schemas.dynamic_target_in(place, resources)
}
