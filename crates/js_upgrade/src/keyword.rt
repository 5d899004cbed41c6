//! What becomes of a keyword in 2020-12.
ghost use Rattle.std.specs.Prelude.{◌≡◌};
ghost use Rattle.js_upgrade.specs.Keyword.{change_in, in_2019, since, before};
ghost use Rattle.js_upgrade.specs.code.Initials.{change_among, initial, is_d, is_dollar, is_early, is_late, is_m, is_p};

use crate::dialect::Dialect;

/// What becomes of a keyword in 2020-12.
#[derive(Clone, Copy, Debug, PartialEq, Eq)]
pub enum Change {
    /// It is an annotation, or no keyword: it stays as it is.
    Stays,
    /// It means the same, and holds no schema.
    Asserts,
    /// It is `$ref`.
    Refers,
    /// It means the same, and its argument is a schema.
    HoldsOne,
    /// It means the same, and its argument is a list of schemas.
    HoldsList,
    /// It means the same, and its argument is an object of schemas.
    HoldsNamed,
    /// It doesn't act: it goes.
    Goes,
    /// `id` or `$id` becomes `$id`, and its fragment `$anchor`.
    Identifier,
    /// `definitions` becomes `$defs`.
    Definitions,
    /// `items` becomes `prefixItems` if it is a list.
    Items,
    /// `additionalItems` becomes `items` beside a list.
    AdditionalItems,
    /// `dependencies` becomes `dependentRequired` and `dependentSchemas`.
    Dependencies,
    /// `minimum` becomes `exclusiveMinimum` if that is true beside it.
    Minimum,
    /// `maximum` becomes `exclusiveMaximum` if that is true beside it.
    Maximum,
    /// `divisibleBy` becomes `multipleOf`.
    Divisor,
    /// `type` of draft-03 may hold schemas: then it becomes `anyOf`.
    Types,
    /// `disallow` becomes `not`.
    Disallowed,
    /// `extends` becomes `allOf`.
    Extended,
    /// `properties` of draft-03 says which members are required.
    Properties,
    /// `contains` of 2019-09 evaluates nothing: it goes behind two `not`s.
    Contains,
    /// `$anchor` of 2019-09 may have a `:`.
    Anchor,
    /// `$recursiveRef` becomes `$dynamicRef`.
    RecursiveReference,
    /// `$recursiveAnchor` becomes `$dynamicAnchor` at the root of a resource.
    RecursiveAnchor,
}

/// What becomes of the keyword with this name in the dialect.
///
/// The names are told apart by their first bytes first: each keyword of each schema is looked up.
pub fn change_in(dialect: Dialect, name: &str) -> Change
    ensures { result ≡ change_in dialect name.now }
{
    let first = initial(name);
    if first == b'$' {
        return with_dollar(dialect, name).unwrap_or(Change::Stays);
    }
    if first == b'd' {
        return with_d(dialect, name).unwrap_or(Change::Stays);
    }
    if first == b'm' {
        return with_m(dialect, name).unwrap_or(Change::Stays);
    }
    if first == b'p' {
        return with_p(dialect, name).unwrap_or(Change::Stays);
    }
    if first < b'i' {
        return with_early(dialect, name).unwrap_or(Change::Stays);
    }
    with_late(dialect, name).unwrap_or(Change::Stays)
}

/// The first byte of a name, or 0.
pub(crate) fn initial(name: &str) -> u8
    ensures { result ≡ initial name.now }
{
    match name.as_bytes().split_first() {
        Some((first, _)) => *first,
        None => 0,
    }
}

#[tactic(auto, unfolding(crate::specs::code::Initials::change_among))]
fn with_dollar(dialect: Dialect, name: &str) -> Option<Change>
    ensures { result ≡ change_among is_dollar dialect name.now }
{
    match name {
        "$ref" => Some(Change::Refers),
        "$id" => Some(before(
            dialect,
            Dialect::Draft06,
            Change::Goes,
            before(
                dialect,
                Dialect::Draft2019,
                Change::Identifier,
                Change::Asserts,
            ),
        )),
        "$defs" => Some(since(dialect, Dialect::Draft2019, Change::HoldsNamed)),
        "$schema" => Some(since(dialect, Dialect::Draft2020, Change::Asserts)),
        "$anchor" => Some(since(
            dialect,
            Dialect::Draft2019,
            before(dialect, Dialect::Draft2020, Change::Anchor, Change::Asserts),
        )),
        "$vocabulary" | "$dynamicRef" | "$dynamicAnchor" => Some(since(
            dialect,
            Dialect::Draft2020,
            Change::Asserts,
        )),
        "$recursiveRef" => Some(in_2019(dialect, Change::Stays, Change::RecursiveReference)),
        "$recursiveAnchor" => Some(in_2019(dialect, Change::Stays, Change::RecursiveAnchor)),
        _ => None,
    }
}

#[tactic(auto, unfolding(crate::specs::code::Initials::change_among))]
fn with_d(dialect: Dialect, name: &str) -> Option<Change>
    ensures { result ≡ change_among is_d dialect name.now }
{
    match name {
        "definitions" => Some(before(
            dialect,
            Dialect::Draft2019,
            Change::Definitions,
            Change::HoldsNamed,
        )),
        "dependencies" => Some(before(
            dialect,
            Dialect::Draft2019,
            Change::Dependencies,
            Change::Stays,
        )),
        "dependentSchemas" => Some(since(dialect, Dialect::Draft2019, Change::HoldsNamed)),
        "dependentRequired" => Some(since(dialect, Dialect::Draft2019, Change::Asserts)),
        "disallow" => Some(before(dialect, Dialect::Draft04, Change::Disallowed, Change::Stays)),
        "divisibleBy" => Some(before(dialect, Dialect::Draft04, Change::Divisor, Change::Stays)),
        _ => None,
    }
}

#[tactic(auto, unfolding(crate::specs::code::Initials::change_among))]
fn with_m(dialect: Dialect, name: &str) -> Option<Change>
    ensures { result ≡ change_among is_m dialect name.now }
{
    match name {
        "minimum" => Some(before(dialect, Dialect::Draft06, Change::Minimum, Change::Asserts)),
        "maximum" => Some(before(dialect, Dialect::Draft06, Change::Maximum, Change::Asserts)),
        "maxLength" | "minLength" | "maxItems" | "minItems" => Some(Change::Asserts),
        "multipleOf" | "maxProperties" | "minProperties" => Some(since(
            dialect,
            Dialect::Draft04,
            Change::Asserts,
        )),
        "maxContains" | "minContains" => {
            Some(since(dialect, Dialect::Draft2020, Change::Asserts))
        }
        _ => None,
    }
}

#[tactic(auto, unfolding(crate::specs::code::Initials::change_among))]
fn with_p(dialect: Dialect, name: &str) -> Option<Change>
    ensures { result ≡ change_among is_p dialect name.now }
{
    match name {
        "properties" => Some(before(
            dialect,
            Dialect::Draft04,
            Change::Properties,
            Change::HoldsNamed,
        )),
        "pattern" => Some(Change::Asserts),
        "patternProperties" => Some(Change::HoldsNamed),
        "prefixItems" => Some(since(dialect, Dialect::Draft2020, Change::HoldsList)),
        "propertyNames" => Some(since(dialect, Dialect::Draft06, Change::HoldsOne)),
        _ => None,
    }
}

// Those that begin with a letter from `a` to `h`.
#[tactic(auto, unfolding(crate::specs::code::Initials::change_among))]
fn with_early(dialect: Dialect, name: &str) -> Option<Change>
    ensures { result ≡ change_among is_early dialect name.now }
{
    match name {
        "enum" => Some(Change::Asserts),
        "const" => Some(since(dialect, Dialect::Draft06, Change::Asserts)),
        "additionalProperties" => Some(Change::HoldsOne),
        "allOf" | "anyOf" => Some(since(dialect, Dialect::Draft04, Change::HoldsList)),
        "else" => Some(since(dialect, Dialect::Draft07, Change::HoldsOne)),
        "extends" => Some(before(dialect, Dialect::Draft04, Change::Extended, Change::Stays)),
        "contains" => Some(since(
            dialect,
            Dialect::Draft06,
            in_2019(dialect, Change::HoldsOne, Change::Contains),
        )),
        "additionalItems" => Some(before(
            dialect,
            Dialect::Draft2020,
            Change::AdditionalItems,
            Change::Stays,
        )),
        "exclusiveMaximum" | "exclusiveMinimum" => Some(since(
            dialect,
            Dialect::Draft06,
            Change::Asserts,
        )),
        _ => None,
    }
}

// Those that begin with a letter from `i` on.
#[tactic(auto, unfolding(crate::specs::code::Initials::change_among))]
fn with_late(dialect: Dialect, name: &str) -> Option<Change>
    ensures { result ≡ change_among is_late dialect name.now }
{
    match name {
        "type" => Some(before(dialect, Dialect::Draft04, Change::Types, Change::Asserts)),
        "items" => Some(before(dialect, Dialect::Draft2020, Change::Items, Change::HoldsOne)),
        "required" => Some(since(dialect, Dialect::Draft04, Change::Asserts)),
        "oneOf" => Some(since(dialect, Dialect::Draft04, Change::HoldsList)),
        "not" => Some(since(dialect, Dialect::Draft04, Change::HoldsOne)),
        "if" | "then" => Some(since(dialect, Dialect::Draft07, Change::HoldsOne)),
        "id" => Some(before(dialect, Dialect::Draft06, Change::Identifier, Change::Stays)),
        "uniqueItems" => Some(Change::Asserts),
        "unevaluatedItems" | "unevaluatedProperties" => Some(since(
            dialect,
            Dialect::Draft2019,
            Change::HoldsOne,
        )),
        _ => None,
    }
}

// One thing before a draft, and another from it on.
fn before(dialect: Dialect, draft: Dialect, old: Change, new: Change) -> Change
    ensures { result ≡ before dialect draft old new }
{
    if dialect.is_before(draft) { old } else { new }
}

// No keyword of the dialect before a draft.
fn since(dialect: Dialect, draft: Dialect, new: Change) -> Change
    ensures { result ≡ since dialect draft new }
{
    before(dialect, draft, Change::Goes, new)
}

// What 2019-09 alone has.
fn in_2019(dialect: Dialect, other: Change, new: Change) -> Change
    ensures { result ≡ in_2019 dialect other new }
{
    before(
        dialect,
        Dialect::Draft2019,
        other,
        before(dialect, Dialect::Draft2020, new, other),
    )
}
