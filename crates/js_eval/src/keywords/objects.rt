//! Keywords for objects: what they apply, and their annotations (Core, section 10.3.2). They apply nothing if the
//! value, or an argument that should be an object, isn't one.
ghost use Rattle.js_assert.specs.Pattern.{matches};
ghost use Rattle.js_keyword.specs.declared.argument_form.Holding.TheVariants as held;
ghost use Rattle.js_bundle.specs.Schemas.{fits};
ghost use Rattle.js_doc.specs.Members.{IsAscending};
ghost use Rattle.js_doc.specs.Value.{text};
ghost use Rattle.js_eval.specs.Applications.{among_names, is_property, matches_pattern};
ghost use Rattle.js_eval.specs.code.Applied.{IsHeld, applied_value, at_in};
ghost use Rattle.js_eval.specs.code.Asked.{IsAsking, asked};
ghost use Rattle.js_eval.specs.code.Cursors.{is_chosen, is_among_keys, members_asked};
ghost use Rattle.js_eval.specs.code.Holding.{IsIn};
ghost use Rattle.js_eval.specs.code.NamesLeft.{members_among};
ghost use Rattle.js_eval.specs.code.Patterns.{ArePatternsAt};
ghost use Rattle.js_eval.specs.code.Starting.{HoldsBy, HoldsOne, IsAtPlace, by_keyword, on_members, on_namesakes};
ghost use Rattle.js_eval.specs.code.Terms.{Documents, entries, has, instance_of, keyword_of, texts_of, value_of};
ghost use Rattle.js_keyword.specs.declared.keyword.Keyword.TheVariants.{PatternProperties};
ghost use Rattle.js_tree.specs.Seen.{note_of};
ghost use Rattle.std.specs.List.{flat_map};
ghost use Rattle.std.specs.Prelude.{IfOk, filter, map, not, ◌||◌, ◌≡◌};
ghost use Rattle.js_eval.specs.Note as notes;
ghost use Rattle.js_eval.specs.SchemaSet as spec;

use crate::cursors::adjacent::Adjacent;
use crate::cursors::application::{AppliedTo, Subschemas};
use crate::cursors::asking::{Asking, in_box};
use crate::cursors::member_cursor::{Choice, MemberCursor};
use crate::cursors::name_cursor::{Among, NameCursor};
use crate::cursors::pattern_cursor::PatternCursor;
use crate::cursors::start::CursorStart;
use crate::instance::{Instance, names_ascend};
use crate::keywords::nothing_left::{are_all_named, match_none};
use crate::order::keyword::KeywordAt;
use crate::schema::{patterns_in, properties_in};
use crate::schema_lookup::held_below;
use crate::searching::name_set::{is_in, set_of};
use crate::searching::pattern_answers::are_few;
use crate::searching::searchers::Searchers;
use js_doc::{Doc, Members, Memory};
use js_tree::{Names, Note};
use std::alloc::Global;
use std::collections::BTreeSet;

/// `properties` goes through the members and looks each up among its names, if it has more names than this number times
/// the members.
const MANY_MORE: usize = 32;

/// It goes through its names and looks each up among the members, if it has fewer names than this, or fewer than one
/// for `PER_NAME` members. Otherwise it goes through both side by side.
const FEW: usize = 6;

const PER_NAME: usize = 2;

/// The applications of `properties`.
///
/// # Errors
/// `Memory` if an allocation fails.
pub(crate) fn properties<'a>(start: &CursorStart<'_, 'a>) -> Result<Asking<'a>, Memory>
    requires { HoldsBy (fits held.Named) start.now.at.now }
    ensures asked { IfOk result (λ a. (documents : Documents) → asked documents a
        ≡ on_namesakes documents start.now.at.now
        (filter (λ m. has m.0 (entries (value_of start.now.at.now.keyword.argument.now)))
        (entries (instance_of start.now.value)))) }
    ensures is { IfOk result (λ a. (documents : Documents) → IsAtPlace documents start.now.at.now
        → IsAsking documents a) }
{
    let Some(named) = start.argument_members() else {
        return Ok(Asking::One(None));
    };
    match start.value.object() {
        Some(members) => named_members(start.alloc, start.at, named, members),
        None => Ok(Asking::One(None)),
    }
}

fn named_members<'a>(
    alloc: Global,
    at: &KeywordAt<'a>,
    named: &'a Members,
    members: &'a Members,
) -> Result<Asking<'a>, Memory>
    requires at { HoldsBy (fits held.Named) at.now }
    requires named { named.now ≡ entries (value_of at.now.keyword.argument.now) }
    ensures asked { IfOk result (λ a. (documents : Documents) → asked documents a
        ≡ on_namesakes documents at.now (filter (λ m. has m.0 named.now) members.now)) }
    ensures is { IfOk result (λ a. (documents : Documents) → IsAtPlace documents at.now → IsAsking documents a) }
{
    if named.len() / MANY_MORE > members.len() {
        let keyword = at.keyword;
        let cursor = MemberCursor {
            held: Subschemas::Each(at.place, at.schema, keyword.name),
            to: AppliedTo::Part,
            members: members.pairs(),
            choice: Choice::Named(named),
        };
        return Ok(Asking::Members(in_box(alloc, cursor)?));
    }
    let among = among_members(named, members);
    Ok(Asking::Names(NameCursor::new(at, named, among)))
}

// The members, in the form in which the names are found among them faster.
fn among_members<'a>(named: &'a Members, members: &'a Members) -> Among<'a>
    ensures members { members_among result ≡ members.now }
    ensures ascend { IsAscending (members_among result) }
{
    if named.len() < FEW || members.len() / PER_NAME > named.len() {
        names_ascend(members);
        Among::All(members)
    } else {
        Among::Left(members.pairs())
    }
}

/// The applications of `patternProperties`.
///
/// # Errors
/// `Memory` if an allocation fails.
pub(crate) fn patterns<'a>(
    start: &CursorStart<'_, 'a>,
    searchers: &Searchers<'a>,
) -> Result<Asking<'a>, Memory>
    requires place { IsAtPlace start.now.schemas.now start.now.at.now }
    requires keyword { IsIn (value_of start.now.at.now.schema.now) (keyword_of start.now.at.now.keyword) }
    requires kind { start.now.at.now.keyword.which ≡ PatternProperties }
    ensures asked { IfOk result (λ a. asked start.now.schemas.now a
        ≡ flat_map (λ p. map (λ m. by_keyword start.now.schemas.now start.now.at.now (spec.Name p.0) (spec.Name m.0)
        m.1) (filter (λ m. matches p.0 m.0) (entries (instance_of start.now.value))))
        (entries (value_of start.now.at.now.keyword.argument.now))) }
    ensures is { IfOk result (λ a. IsAsking start.now.schemas.now a) }
{
    let Some(patterns) = start.argument_members() else {
        return Ok(Asking::One(None));
    };
    match start.value.object() {
        Some(members) => {
            names_ascend(patterns);
            on_matching(start, searchers, patterns, members)
        }
        None => Ok(Asking::One(None)),
    }
}

// The schema of each pattern, on each member whose name it matches.
fn on_matching<'a>(
    start: &CursorStart<'_, 'a>,
    searchers: &Searchers<'a>,
    patterns: &'a Members,
    members: &'a Members,
) -> Result<Asking<'a>, Memory>
    requires place { IsAtPlace start.now.schemas.now start.now.at.now }
    requires patterns { ArePatternsAt start.now.schemas.now start.now.at.now.place patterns.now }
    ensures asked { IfOk result (λ a. asked start.now.schemas.now a
        ≡ flat_map (λ p. map (λ m. by_keyword start.now.schemas.now start.now.at.now (spec.Name p.0) (spec.Name m.0)
        m.1) (filter (λ m. matches p.0 m.0) members.now)) patterns.now) }
    ensures is { IfOk result (λ a. IsAsking start.now.schemas.now a) }
{
    let at = start.at;
    if are_few(patterns, members) {
        let none = match_none(
            start.alloc,
            start.schemas,
            searchers,
            at.place,
            patterns,
            members,
        )?;
        if none {
            return Ok(Asking::One(None));
        }
    }
    let cursor = PatternCursor::new(at, patterns, members);
    Ok(Asking::Patterns(in_box(start.alloc, cursor)?))
}

/// The applications of `additionalProperties`.
///
/// # Errors
/// `Memory` if an allocation fails.
pub(crate) fn additional<'a>(start: &CursorStart<'_, 'a>) -> Result<Asking<'a>, Memory>
    requires { HoldsOne start.now.schemas.now start.now.at.now }
    ensures asked { IfOk result (λ a. asked start.now.schemas.now a
        ≡ on_members start.now.schemas.now start.now.at.now
        (filter (λ m. not (is_property (entries (value_of start.now.at.now.schema.now)) m.0
        || matches_pattern (entries (value_of start.now.at.now.schema.now)) m.0))
        (entries (instance_of start.now.value)))) }
    ensures is { IfOk result (λ a. IsAsking start.now.schemas.now a) }
{
    let Some(members) = start.value.object() else {
        return Ok(Asking::One(None));
    };
    let at = start.at;
    let schema = at.schema;
    let properties = properties_in(schema);
    if are_all_named(properties, members) {
        return Ok(Asking::One(None));
    }
    let patterns = patterns_in(schema);
    let choice = Choice::Additional(Adjacent {
        schemas: start.schemas,
        place: at.place,
        properties,
        patterns,
        is_kept: !are_few_in(patterns, members),
    });
    let cursor = on_chosen(start, AppliedTo::Part, members, choice);
    Ok(Asking::Members(in_box(start.alloc, cursor)?))
}

// Whether the answers of the patterns, if there are any, aren't stored.
fn are_few_in(patterns: Option<&Members>, members: &Members) -> bool {
    match patterns {
        Some(patterns) => are_few(patterns, members),
        None => true,
    }
}

/// The applications of `propertyNames`.
///
/// # Errors
/// `Memory` if an allocation fails.
pub(crate) fn property_names<'a>(start: &CursorStart<'_, 'a>) -> Result<Asking<'a>, Memory>
    requires { HoldsOne start.now.schemas.now start.now.at.now }
    ensures asked { IfOk result (λ a. asked start.now.schemas.now a
        ≡ map (λ m. by_keyword start.now.schemas.now start.now.at.now spec.Alone (spec.Name m.0) (text m.0))
        (entries (instance_of start.now.value))) }
    ensures is { IfOk result (λ a. IsAsking start.now.schemas.now a) }
{
    let Some(members) = start.value.object() else {
        return Ok(Asking::One(None));
    };
    let cursor = on_chosen(start, AppliedTo::Name, members, Choice::All);
    Ok(Asking::Members(in_box(start.alloc, cursor)?))
}

/// The keyword's schema, applied to each chosen member, or to its name.
#[inline(always)]
pub(crate) fn on_chosen<'a>(
    start: &CursorStart<'_, 'a>,
    to: AppliedTo<'a>,
    members: &'a Members,
    choice: Choice<'a>,
) -> MemberCursor<'a>
    requires { HoldsOne start.now.schemas.now start.now.at.now }
    ensures asked { members_asked start.now.schemas.now result
        ≡ map (λ m. by_keyword start.now.schemas.now start.now.at.now spec.Alone (at_in to.entry (spec.Name m.0))
        (applied_value to.entry (spec.Name m.0) m.1)) (filter (λ m. is_chosen choice.entry m.0) members.now) }
    ensures held { IsHeld start.now.schemas.now result.held }
{
    let (below, schema) = held_below(start.schemas, start.at);
    MemberCursor {
        held: Subschemas::One(below, schema),
        to,
        members: members.pairs(),
        choice,
    }
}

/// A copy of a list of names.
///
/// # Errors
/// `Memory` if an allocation fails.
pub(crate) fn copies<'a>(alloc: Global, names: &[&'a str]) -> Result<Vec<&'a str>, Memory>
    ensures { IfOk result (λ ns. texts_of ns.items ≡ texts_of names.now) }
{
    let mut all = Vec::new(alloc);
    for name in names {
        all.push(*name)?;
    }
    Ok(all)
}

/// For an object: these names.
pub(crate) fn names_on_object<'a>(value: Instance<'a>, names: Vec<&'a str>) -> Note<'a>
    ensures { note_of result
        ≡ notes.said_of_object (instance_of value.entry) (notes.names (texts_of names.entry.items)) }
{
    match value {
        Instance::Doc(Doc::Members(_)) => Note::Names(Names::new(names)),
        _ => Note::Silent,
    }
}

/// The names of a value's members that are among these, ascending, each once.
pub(crate) fn member_names_among<'a>(
    alloc: Global,
    value: Instance<'a>,
    among: &[&'a str],
) -> Result<Vec<&'a str>, Memory>
    ensures { IfOk result (λ ns. texts_of ns.items
        ≡ notes.member_names_among (instance_of value.entry) (texts_of among.now)) }
{
    match value.object() {
        Some(members) => names_among(alloc, members, among),
        None => Ok(Vec::new(alloc)),
    }
}

#[tactic(auto, using(crate::proofs::MembersLeft::names_by_set))]
fn names_among<'a>(
    alloc: Global,
    members: &'a Members,
    among: &[&'a str],
) -> Result<Vec<&'a str>, Memory>
    ensures { IfOk result (λ ns. texts_of ns.items
        ≡ filter (λ name. among_names name (texts_of among.now)) (map (λ m. m.0) members.now)) }
{
    let set = set_of(alloc, among)?;
    names_in(alloc, members, &set)
}

// The names of the members that are in the set.
fn names_in<'a>(
    alloc: Global,
    members: &'a Members,
    set: &BTreeSet<&'a str>,
) -> Result<Vec<&'a str>, Memory>
    ensures { IfOk result (λ ns. texts_of ns.items
        ≡ filter (λ name. is_among_keys set.now.keys name) (map (λ m. m.0) members.now)) }
{
    let mut names = Vec::new(alloc);
    for (name, _) in members.pairs() {
        let name = name.as_str();
        if is_in(set, name) {
            names.push(name)?;
        }
    }
    Ok(names)
}
