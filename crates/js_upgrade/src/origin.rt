//! Which keyword of a schema a keyword of the upgraded schema comes from.
ghost use Rattle.std.specs.Prelude.{◌≡◌, option_map, unwrap_or, if◌then◌else◌};
ghost use Rattle.js_doc.specs.Value.{Text};
ghost use Rattle.js_upgrade.specs.Dialect.{is_before};
ghost use Rattle.js_upgrade.specs.Origin.{moves_contains, origin, origin_by};

use crate::containing::holder;
use crate::dialect::Dialect;
use crate::pieces::has_list;
use js_doc::Members;

/// The name of the keyword that the one with this name comes from; None if it has that name itself.
pub(crate) fn origin(dialect: Dialect, siblings: &Members, name: &str) -> Option<&'static str>
    ensures { unwrap_or (option_map (λ n. n.now) result) name.now ≡ origin dialect siblings.now name.now }
{
    if moves_contains(dialect) && name == holder(siblings) {
        return Some("contains");
    }
    older_name(dialect, has_list(siblings, "items"), name)
}

fn moves_contains(dialect: Dialect) -> bool
    ensures { result ≡ moves_contains dialect }
{
    matches!(dialect, Dialect::Draft2019)
}

fn older_name(dialect: Dialect, listed: bool, name: &str) -> Option<&'static str>
    ensures { unwrap_or (option_map (λ n. n.now) result) name.now ≡ origin_by dialect listed name.now }
{
    match name {
        "$id" => before(dialect, Dialect::Draft06, "id"),
        "$anchor" => {
            if dialect.is_before(Dialect::Draft06) {
                return Some("id");
            }
            before(dialect, Dialect::Draft2019, "$id")
        }
        "$dynamicRef" => before(dialect, Dialect::Draft2020, "$recursiveRef"),
        "$dynamicAnchor" => before(dialect, Dialect::Draft2020, "$recursiveAnchor"),
        "$defs" => before(dialect, Dialect::Draft2019, "definitions"),
        "allOf" => before(dialect, Dialect::Draft04, "extends"),
        "anyOf" => before(dialect, Dialect::Draft04, "type"),
        "not" => before(dialect, Dialect::Draft04, "disallow"),
        "prefixItems" => before(dialect, Dialect::Draft2020, "items"),
        "items" => {
            if !listed {
                return None;
            }
            before(dialect, Dialect::Draft2020, "additionalItems")
        }
        "dependentRequired" => before(dialect, Dialect::Draft2019, "dependencies"),
        "dependentSchemas" => before(dialect, Dialect::Draft2019, "dependencies"),
        "required" => before(dialect, Dialect::Draft04, "properties"),
        "multipleOf" => before(dialect, Dialect::Draft04, "divisibleBy"),
        "exclusiveMaximum" => before(dialect, Dialect::Draft06, "maximum"),
        "exclusiveMinimum" => before(dialect, Dialect::Draft06, "minimum"),
        _ => None,
    }
}

// The name, before a draft.
fn before(dialect: Dialect, draft: Dialect, old: &'static str) -> Option<&'static str>
    ensures { (new : Text) → unwrap_or (option_map (λ n. n.now) result) new
        ≡ (if is_before dialect draft then old.entry.now else new) }
{
    if dialect.is_before(draft) {
        Some(old)
    } else {
        None
    }
}
