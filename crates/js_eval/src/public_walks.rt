//! The public walks: each evaluates a schema of finished schemas on a value, and returns the result as a tree, as
//! rows, in a collector, or as the verdict alone.
ghost use Rattle.std.specs.Prelude.{◌≡◌, Some, true, option_map, IfOk, IfErr, MatchResult};
ghost use Rattle.js_doc.specs.Seen.{value_of};
ghost use Rattle.js_bundle.specs.Location.{location};
ghost use Rattle.js_bundle.specs.Schemas.{is_place, place_at};
ghost use Rattle.js_eval.specs.Bundle.{schemas_of};
ghost use Rattle.js_eval.specs.Result.{standard_limits};
ghost use Rattle.js_eval.specs.Sited.{numbered_site};
ghost use Rattle.js_eval.specs.code.Recorded.{AddsRow};
ghost use Rattle.js_eval.specs.Walk.Reported.{Reported};
ghost use Rattle.js_eval.specs.Walked.{AreNotedRows, AreResultRows, IsResultWithin, IsVerdict, LeadsTo, NoneStands};
ghost use Rattle.js_eval.specs.Walked.{OnTooLarge};

use crate::evaluation::{
    HeldText, Limits, PointerText, Reporter, UnseenText, WalkFault, walk_from,
};
use crate::finished_world::FinishedSchemas;
use crate::instance::Instance;
use crate::reporters::collecting::Collecting;
use crate::reporters::recording::Recording;
use crate::reporters::silent::Silent;
use crate::schema_lookup::schema_at;
use crate::searching::searchers::Searchers;
use bumpalo::Bump;
use js_bundle::{Place, Schemas};
use js_doc::{Doc, Memory};
use js_tree::{Boxed, Collector, RelativeRows, Tree};
use std::alloc::Global;
use std::marker::PhantomData;

/// Evaluates the schema at the place on the value (JSON Schema Core, section 12.4.4), and passes the result to the
/// collector node by node: each node as it opens, and again as it closes, after those below it.
///
/// # Errors
/// `Memory` if an allocation fails. `TooLarge` exactly if the result would have more than 1,000,000 nodes or need more
/// than 512 nested schema applications. The collector is returned with the fault; what it holds then is unspecified.
pub fn walk_into<'a, C: Collector<'a>>(
    alloc: Global,
    schemas: &'a Schemas,
    place: Place,
    value: &'a Doc,
    collector: C,
) -> Result<C, (WalkFault, C)>
    requires { is_place schemas.now place ≡ true }
    ensures ok { IfOk result (λ d. LeadsTo standard_limits schemas.now place (value_of value.now)
        C.takes collector d) }
    ensures too_large { IfErr result (λ e. OnTooLarge (e.0)
        (NoneStands standard_limits schemas.now place (value_of value.now))) }
{
    walk_into_within(alloc, schemas, place, value, Limits::standard(), collector)
}

/// [`walk_into`] with these limits.
///
/// # Errors
/// `Memory` if an allocation fails. `TooLarge` exactly if the result isn't within the limits. The collector is returned
/// with the fault; what it holds then is unspecified.
pub fn walk_into_within<'a, C: Collector<'a>>(
    alloc: Global,
    schemas: &'a Schemas,
    place: Place,
    value: &'a Doc,
    limits: Limits,
    collector: C,
) -> Result<C, (WalkFault, C)>
    requires { is_place schemas.now place ≡ true }
    ensures ok { IfOk result (λ d. LeadsTo limits schemas.now place (value_of value.now) C.takes collector d) }
    ensures too_large { IfErr result (λ e. OnTooLarge (e.0)
        (NoneStands limits schemas.now place (value_of value.now))) }
{
    let here = FinishedSchemas {
        schemas,
        searchers: Searchers::new(alloc),
    };
    let mut collecting = Collecting {
        collector,
        notes: PhantomData,
    };
    let schema = schema_at(schemas, place);
    let value = Instance::Doc(value);
    let done = walk_from::<FinishedSchemas<'a>, HeldText, Collecting<'a, C>>(
        alloc,
        &here,
        &mut collecting,
        place,
        schema,
        value,
        limits,
    );
    let Collecting {
        collector,
        notes: _,
    } = collecting;
    match done {
        Ok(_) => Ok(collector),
        Err(fault) => Err((fault, collector)),
    }
}

/// Evaluates the schema at the place on the value, and returns the result as a tree (JSON Schema Core, section 12.4.4).
///
/// # Errors
/// `Memory` if an allocation fails. `TooLarge` exactly if the result would have more than 1,000,000 nodes or need more
/// than 512 nested schema applications.
pub fn walk<'a>(
    alloc: Global,
    schemas: &'a Schemas,
    place: Place,
    value: &'a Doc,
) -> Result<Tree<'a>, WalkFault>
    requires { is_place schemas.now place ≡ true }
    ensures ok { IfOk result (λ t. IsResultWithin standard_limits schemas.now place (value_of value.now) t) }
    ensures too_large { IfErr result (λ e. OnTooLarge e
        (NoneStands standard_limits schemas.now place (value_of value.now))) }
{
    match walk_into(alloc, schemas, place, value, Boxed::new(alloc)) {
        Ok(boxed) => Ok(boxed.tree().unwrap()),
        Err((fault, _boxed)) => Err(fault),
    }
}

/// Evaluates the schema at the place on the value, and returns the result as rows (JSON Schema Core, section 12.4.4).
/// A row keeps, in the arena, only what its locations add to those of the node above, and borrows the absolute
/// location of its schema, or if that is long, the URI of its resource.
///
/// # Errors
/// Those of [`walk`].
pub fn walk_rows<'a>(
    alloc: Global,
    arena: &'a Bump,
    schemas: &'a Schemas,
    place: Place,
    value: &'a Doc,
) -> Result<RelativeRows<'a>, WalkFault>
    requires { is_place schemas.now place ≡ true }
    ensures ok { IfOk result (AreResultRows standard_limits schemas.now place (value_of value.now)) }
    ensures too_large { IfErr result (λ e. OnTooLarge e
        (NoneStands standard_limits schemas.now place (value_of value.now))) }
{
    walk_rows_within(alloc, arena, schemas, place, value, Limits::standard())
}

/// [`walk_rows`] with these limits.
///
/// # Errors
/// Those of [`walk_into_within`].
pub fn walk_rows_within<'a>(
    alloc: Global,
    arena: &'a Bump,
    schemas: &'a Schemas,
    place: Place,
    value: &'a Doc,
    limits: Limits,
) -> Result<RelativeRows<'a>, WalkFault>
    requires { is_place schemas.now place ≡ true }
    ensures ok { IfOk result (AreResultRows limits schemas.now place (value_of value.now)) }
    ensures too_large { IfErr result (λ e. OnTooLarge e (NoneStands limits schemas.now place (value_of value.now))) }
{
    match recorded(
        alloc,
        schemas,
        place,
        value,
        limits,
        RelativeRows::new(alloc, arena),
    ) {
        Ok((_valid, rows)) => Ok(rows),
        Err(fault) => Err(fault),
    }
}

/// Evaluates the schema at the place on the value, and returns the result as rows, as [`walk_rows`] does, but without
/// nodes that have no note and below which no node is left; the root stays. Only the verbose format shows anything of
/// those (JSON Schema Core, sections 12.4.2 to 12.4.4), and half of a result's nodes are such.
///
/// # Errors
/// Those of [`walk`]: a node without a row counts too.
pub fn walk_noted_rows<'a>(
    alloc: Global,
    arena: &'a Bump,
    schemas: &'a Schemas,
    place: Place,
    value: &'a Doc,
) -> Result<RelativeRows<'a>, WalkFault>
    requires { is_place schemas.now place ≡ true }
    ensures ok { IfOk result (AreNotedRows standard_limits schemas.now place (value_of value.now)) }
    ensures too_large { IfErr result (λ e. OnTooLarge e
        (NoneStands standard_limits schemas.now place (value_of value.now))) }
{
    walk_noted_rows_within(alloc, arena, schemas, place, value, Limits::standard())
}

/// [`walk_noted_rows`] with these limits.
///
/// # Errors
/// Those of [`walk_into_within`].
pub fn walk_noted_rows_within<'a>(
    alloc: Global,
    arena: &'a Bump,
    schemas: &'a Schemas,
    place: Place,
    value: &'a Doc,
    limits: Limits,
) -> Result<RelativeRows<'a>, WalkFault>
    requires { is_place schemas.now place ≡ true }
    ensures ok { IfOk result (AreNotedRows limits schemas.now place (value_of value.now)) }
    ensures too_large { IfErr result (λ e. OnTooLarge e (NoneStands limits schemas.now place (value_of value.now))) }
{
    match recorded(
        alloc,
        schemas,
        place,
        value,
        limits,
        RelativeRows::trimming(alloc, arena),
    ) {
        Ok((valid, mut rows)) => {
            let absolute = location_at(alloc, arena, schemas, place)?;
            rows.put_root_back(absolute, valid)?;
            Ok(rows)
        }
        Err(fault) => Err(fault),
    }
}

// Evaluates the schema at the place on the value, and adds the rows of the result to these. Returns the verdict too.
fn recorded<'a>(
    alloc: Global,
    schemas: &'a Schemas,
    place: Place,
    value: &'a Doc,
    limits: Limits,
    rows: RelativeRows<'a>,
) -> Result<(bool, RelativeRows<'a>), WalkFault>
    requires { is_place schemas.now place ≡ true }
    ensures { MatchResult result
        (λ r. Reported limits (schemas_of schemas.now) (numbered_site schemas.now place) (value_of value.now)
        AddsRow r.0 rows.entry r.1)
        (λ e. OnTooLarge e (NoneStands limits schemas.now place (value_of value.now))) }
{
    let mut recording = Recording {
        rows,
        token: String::new(alloc),
    };
    let done = walk_to::<HeldText, Recording<'a>>(
        alloc,
        schemas,
        place,
        value,
        limits,
        &mut recording,
    );
    let Recording { rows, token: _ } = recording;
    match done {
        Ok(valid) => Ok((valid, rows)),
        Err(fault) => Err(fault),
    }
}

// The absolute location of the place as one text: lent by the schemas, or made in the arena.
fn location_at<'a>(
    alloc: Global,
    arena: &'a Bump,
    schemas: &'a Schemas,
    place: Place,
) -> Result<&'a str, Memory>
    requires { is_place schemas.now place ≡ true }
    ensures { IfOk result (λ t. option_map location (place_at schemas.now place) ≡ Some t.now) }
{
    let (location, rest) = schemas.location_of(place);
    if rest.is_empty() {
        return Ok(location);
    }
    let whole = schemas.absolute(alloc, place, None)?;
    let kept = arena.try_alloc_str(whole.as_str())?;
    Ok(kept)
}

/// Whether the value is valid against the schema at the place (JSON Schema Core, section 12.4.1). This is the verdict
/// of the root of [`walk`]'s result, of which nothing else is kept.
///
/// # Errors
/// Those of [`walk`]: the whole schema is evaluated, so every format fails on the same values.
pub fn verdict<'a>(
    alloc: Global,
    schemas: &'a Schemas,
    place: Place,
    value: &'a Doc,
) -> Result<bool, WalkFault>
    requires { is_place schemas.now place ≡ true }
    ensures ok { IfOk result (λ b. IsVerdict standard_limits schemas.now place (value_of value.now) b) }
    ensures too_large { IfErr result (λ e. OnTooLarge e
        (NoneStands standard_limits schemas.now place (value_of value.now))) }
{
    verdict_within(alloc, schemas, place, value, Limits::standard())
}

/// [`verdict`] with these limits.
///
/// # Errors
/// Those of [`walk_into_within`].
pub fn verdict_within<'a>(
    alloc: Global,
    schemas: &'a Schemas,
    place: Place,
    value: &'a Doc,
    limits: Limits,
) -> Result<bool, WalkFault>
    requires { is_place schemas.now place ≡ true }
    ensures ok { IfOk result (λ b. IsVerdict limits schemas.now place (value_of value.now) b) }
    ensures too_large { IfErr result (λ e. OnTooLarge e (NoneStands limits schemas.now place (value_of value.now))) }
{
    match walk_to::<UnseenText, Silent>(alloc, schemas, place, value, limits, &mut Silent) {
        Ok(valid) => Ok(valid),
        Err(fault) => Err(fault),
    }
}

// Evaluates the schema at the place on the value, and reports the result node by node.
fn walk_to<'a, H: PointerText + Drop, R: Reporter<FinishedSchemas<'a>, H>>(
    alloc: Global,
    schemas: &'a Schemas,
    place: Place,
    value: &'a Doc,
    limits: Limits,
    reporter: &mut R,
) -> Result<bool, WalkFault>
    requires { is_place schemas.now place ≡ true }
    ensures { MatchResult result
        (λ valid. Reported limits (schemas_of schemas.now) (numbered_site schemas.now place) (value_of value.now)
        R.takes valid reporter.old reporter.new)
        (λ e. OnTooLarge e (NoneStands limits schemas.now place (value_of value.now))) }
{
    let here = FinishedSchemas {
        schemas,
        searchers: Searchers::new(alloc),
    };
    let schema = schema_at(schemas, place);
    let value = Instance::Doc(value);
    walk_from::<FinishedSchemas<'a>, H, R>(alloc, &here, reporter, place, schema, value, limits)
}
