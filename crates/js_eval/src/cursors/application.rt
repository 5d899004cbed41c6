//! Applications: which subschema of a keyword is applied to which part of a value.
ghost use Rattle.std.specs.Prelude.{◌≡◌};
ghost use Rattle.js_bundle.specs.Ranked.{HoldsAtRank};
ghost use Rattle.js_eval.specs.code.Applied.{IsHeld, applied, applied_of, at_in, site_in, step_in, applied_value};
ghost use Rattle.js_eval.specs.code.Asked.{IsApplied};
ghost use Rattle.js_eval.specs.code.Starting.{IsAtPlace, by_keyword};
ghost use Rattle.js_eval.specs.code.Terms.{IsSchemaAt, instance_of, numbered_site, step_of, value_of};

use crate::instance::{Applied, Instance};
use crate::order::keyword::KeywordAt;
use crate::schema_lookup::{below_at_rank, subschema_at};
use js_bundle::{Place, Schemas, Step};
use js_doc::Doc;

/// Where to find the subschemas that a keyword applies to the parts of a value.
#[derive(Clone, Copy)]
pub(crate) enum Subschemas<'a> {
    /// A single schema, which is the keyword's argument, and its place.
    One(Place, &'a Doc),
    /// One schema for each part, below the keyword with this name in this schema at this place. The step from the
    /// keyword to the schema is the step to the part.
    Each(Place, &'a Doc, &'a str),
}

/// What a schema is applied to.
#[derive(Clone, Copy)]
pub(crate) enum AppliedTo<'a> {
    /// An item or a member.
    Part,
    /// The name of a member, as a string.
    Name,
    /// This value as a whole.
    Whole(Instance<'a>),
}

impl<'a> Subschemas<'a> {
    // The schema for the part at this step, after its place, and the step from the keyword to it.
    fn schema(&self, schemas: &'a Schemas, step: Step<'a>) -> (Place, &'a Doc, Step<'a>)
        requires { IsHeld schemas.now self.now }
        ensures is { IsSchemaAt schemas.now result.0 (value_of result.1.now) }
        ensures site { numbered_site schemas.now result.0 ≡ site_in schemas.now self.now (step_of step.entry) }
        ensures step { step_of result.2 ≡ step_in self.now (step_of step.entry) }
    {
        match self {
            Subschemas::One(place, schema) => (*place, schema, Step::Alone),
            Subschemas::Each(place, schema, keyword) => {
                let (below, held) = subschema_at(schemas, *place, schema, keyword, step);
                (below, held, step)
            }
        }
    }
}

impl<'a> AppliedTo<'a> {
    // The value, after the step to it.
    fn value(&self, step: Step<'a>, part: &'a Doc) -> (Step<'a>, Instance<'a>)
        ensures step { step_of result.0 ≡ at_in self.now (step_of step.entry) }
        ensures value { instance_of result.1 ≡ applied_value self.now (step_of step.entry) (value_of part.now) }
    {
        match self {
            AppliedTo::Part => (step, Instance::Doc(part)),
            AppliedTo::Name => match step {
                Step::Name(name) => (step, Instance::Name(name)),
                Step::Alone => (step, Instance::Doc(part)),
                Step::Index(_) => (step, Instance::Doc(part)),
            },
            AppliedTo::Whole(value) => (Step::Alone, *value),
        }
    }
}

/// The application of a keyword to one part of a value. `step`: the step from the value to the part.
pub(crate) fn apply_to_part<'a>(
    schemas: &'a Schemas,
    held: &Subschemas<'a>,
    to: &AppliedTo<'a>,
    step: Step<'a>,
    part: &'a Doc,
) -> Applied<'a>
    requires { IsHeld schemas.now held.now }
    ensures applied { applied_of schemas.now result
        ≡ applied schemas.now held.now to.now (step_of step.entry) (value_of part.now) }
    ensures is { IsApplied schemas.now result }
{
    let (place, schema, via) = held.schema(schemas, step);
    let (at, value) = to.value(step, part);
    Applied {
        place,
        schema,
        step: via,
        at,
        value,
    }
}

/// The application of the schema that a keyword holds at this rank, behind `step`. `to`: the step from the keyword's
/// value to this one.
pub(crate) fn apply_at_rank<'a>(
    schemas: &Schemas,
    at: &KeywordAt<'a>,
    step: Step<'a>,
    rank: usize,
    held: &'a Doc,
    to: Step<'a>,
    value: Instance<'a>,
) -> Applied<'a>
    requires place { IsAtPlace schemas.now at.now }
    requires held { HoldsAtRank (value_of at.now.schema.now) at.now.keyword.name.now (step_of step) rank
        (value_of held.now) }
    ensures applied { applied_of schemas.now result
        ≡ by_keyword schemas.now at.now (step_of step.entry) (step_of to.entry) (instance_of value.entry) }
    ensures is { IsApplied schemas.now result }
{
    let keyword = at.keyword;
    let (place, schema) = below_at_rank(schemas, at.place, at.schema, keyword, step, rank, held);
    Applied {
        place,
        schema,
        step,
        at: to,
        value,
    }
}
