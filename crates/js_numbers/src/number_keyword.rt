//! The keywords whose numbers say something of a value.
ghost use Rattle.std.specs.Prelude.{◌≡◌};
ghost use Rattle.js_numbers.specs.NumberKeyword.{acting_named, acts, bound_named, number_keyword};
ghost use Rattle.js_numbers.specs.NumberKeyword.{other_named};

use js_upgrade::{Change, Dialect, change_in};

/// What a keyword's number says.
#[derive(Clone, Copy)]
pub(crate) enum NumberKeyword {
    Minimum,
    Maximum,
    ExclusiveMinimum,
    ExclusiveMaximum,
    OldMinimum,
    OldMaximum,
    OldExclusiveMinimum,
    OldExclusiveMaximum,
    Count,
    Divisor,
    Enumeration,
    Constant,
    Other,
}

/// What the keyword with this name in the dialect says by its numbers.
pub(crate) fn number_keyword(dialect: Dialect, name: &str) -> NumberKeyword
    ensures { result ≡ number_keyword dialect name.now }
{
    if let Some(keyword) = bound_named(dialect, name) {
        return keyword;
    }
    if let Some(keyword) = acting_named(dialect, name) {
        return keyword;
    }
    NumberKeyword::Other
}

#[tactic(auto, unfolding(crate::specs::NumberKeyword::bound_named))]
fn bound_named(dialect: Dialect, name: &str) -> Option<NumberKeyword>
    ensures { result ≡ bound_named dialect name.now }
{
    if dialect.is_before(Dialect::Draft06) {
        match name {
            "minimum" => Some(NumberKeyword::OldMinimum),
            "maximum" => Some(NumberKeyword::OldMaximum),
            "exclusiveMinimum" => Some(NumberKeyword::OldExclusiveMinimum),
            "exclusiveMaximum" => Some(NumberKeyword::OldExclusiveMaximum),
            _ => None,
        }
    } else {
        match name {
            "minimum" => Some(NumberKeyword::Minimum),
            "maximum" => Some(NumberKeyword::Maximum),
            "exclusiveMinimum" => Some(NumberKeyword::ExclusiveMinimum),
            "exclusiveMaximum" => Some(NumberKeyword::ExclusiveMaximum),
            _ => None,
        }
    }
}

fn acting_named(dialect: Dialect, name: &str) -> Option<NumberKeyword>
    ensures { result ≡ acting_named dialect name.now }
{
    if acts(change_in(dialect, name)) {
        other_named(name)
    } else {
        None
    }
}

fn acts(change: Change) -> bool
    ensures { result ≡ acts change }
{
    matches!(change, Change::Asserts | Change::Divisor)
}

#[tactic(auto, unfolding(crate::specs::NumberKeyword::other_named))]
fn other_named(name: &str) -> Option<NumberKeyword>
    ensures { result ≡ other_named name.now }
{
    match name {
        "multipleOf" | "divisibleBy" => Some(NumberKeyword::Divisor),
        "enum" => Some(NumberKeyword::Enumeration),
        "const" => Some(NumberKeyword::Constant),
        "maxLength" | "minLength" | "maxItems" | "minItems" => Some(NumberKeyword::Count),
        "maxProperties" | "minProperties" | "maxContains" | "minContains" => {
            Some(NumberKeyword::Count)
        }
        _ => None,
    }
}
