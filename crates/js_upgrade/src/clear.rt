//! Values that are clear: no schema in them has an identifier, or a fault, and no reference leads to what is copied. In
//! most documents that is seen without following a reference.
ghost use Rattle.std.specs.Prelude.{◌≡◌, [], None, false, length, nat_lt, option_map, true};
ghost use Rattle.js_doc.specs.Seen.{value_of};
ghost use Rattle.js_doc.specs.Value.{items, members, object};
ghost use Rattle.js_upgrade.specs.Copies.{Copies, copied_for_text};
ghost use Rattle.js_upgrade.specs.Fault.{reference_kind, target_kind};
ghost use Rattle.js_upgrade.specs.Upgrade.{holding_in};
ghost use Rattle.js_upgrade.specs.Url.{uri_joined, uri_limit};
ghost use Rattle.js_upgrade.specs.code.Clear.{AreClearItems, AreClearMembers, CopiesNothing, IsAnonymous, IsBare};
ghost use Rattle.js_upgrade.specs.code.Clear.{IsClearSchema, IsClearValue, IsFaultlessElse, is_some_text};
ghost use Rattle.js_upgrade.specs.code.Table.{all_of};
ghost use Rattle.js_upgrade.specs.declared.holding.SchemaHolding.TheVariants.{Named, One};

use crate::definitions::{is_usual, is_usual_too, leads_to_root, usual_target};
use crate::dialect::Dialect;
use crate::holding::{SchemaHolding, holding_by_change};
use crate::kinds::{anchor_kind, contains_kind, recursive_kind, unevaluated_kind};
use crate::lookup::found;
use crate::reference_free::is_reference_free;
use crate::resource_table::ResourceTable;
use crate::schema::{change_beside, hides, identifier};
use crate::scope::{Scope, Scopes};
use js_doc::{Doc, Items, Members};

/// Whether a value that holds schemas is known to be clear.
#[cycle(clear)]
pub(crate) fn is_clear(
    scopes: &Scopes<'_>,
    holding: SchemaHolding,
    dialect: Dialect,
    value: &Doc,
) -> bool
    ensures { result ≡ true → IsClearValue (all_of scopes.now.roots.resources.now)
        (all_of scopes.now.all.resources.now) holding dialect scopes.now.all.base.now (value_of value.now) }
{
    match value {
        Doc::Members(members) => match holding {
            SchemaHolding::One => is_clear_schema(scopes, dialect, members),
            SchemaHolding::OneOrListed => is_clear_schema(scopes, dialect, members),
            SchemaHolding::Named => is_clear_object(scopes, dialect, members),
            SchemaHolding::Listed => is_reference_free(value),
            SchemaHolding::Nothing => is_reference_free(value),
        },
        Doc::List(items) => match holding {
            SchemaHolding::Listed => are_clear_items(scopes, dialect, items),
            SchemaHolding::OneOrListed => are_clear_items(scopes, dialect, items),
            SchemaHolding::One => is_reference_free(value),
            SchemaHolding::Named => is_reference_free(value),
            SchemaHolding::Nothing => is_reference_free(value),
        },
        _ => true,
    }
}

#[cycle(clear)]
fn is_clear_schema(scopes: &Scopes<'_>, dialect: Dialect, siblings: &Members) -> bool
    ensures { result ≡ true → IsClearValue (all_of scopes.now.roots.resources.now)
        (all_of scopes.now.all.resources.now) One dialect scopes.now.all.base.now (object (members siblings.now)) }
{
    is_clear_alone(scopes, dialect, siblings) && are_clear_keywords(scopes, dialect, siblings)
}

// An object that holds schemas under names.
#[cycle(clear)]
fn is_clear_object(scopes: &Scopes<'_>, dialect: Dialect, schemas: &Members) -> bool
    ensures { result ≡ true → IsClearValue (all_of scopes.now.roots.resources.now)
        (all_of scopes.now.all.resources.now) Named dialect scopes.now.all.base.now (object (members schemas.now)) }
{
    is_bare(&scopes.roots, dialect, schemas) && are_clear_members(scopes, dialect, schemas)
}

// The schema without those that it holds.
fn is_clear_alone(scopes: &Scopes<'_>, dialect: Dialect, siblings: &Members) -> bool
    ensures { result ≡ true → IsClearSchema (all_of scopes.now.roots.resources.now)
        (all_of scopes.now.all.resources.now) dialect scopes.now.all.base.now siblings.now }
{
    is_anonymous(dialect, siblings)
        && (is_faultless_else(scopes.all.resources, dialect, siblings)
            && refers_usually(scopes, found(siblings, "$ref")))
}

// Neither `$schema` nor an identifier.
fn is_anonymous(dialect: Dialect, siblings: &Members) -> bool
    ensures { result ≡ true → IsAnonymous dialect siblings.now }
{
    found(siblings, "$schema").is_none() && found(siblings, identifier(dialect)).is_none()
}

// No fault but at these and at `$ref`.
fn is_faultless_else(resources: &ResourceTable<'_>, dialect: Dialect, siblings: &Members) -> bool
    ensures { result ≡ true → IsFaultlessElse (all_of resources.now) dialect siblings.now }
{
    recursive_kind(dialect, siblings).is_none()
        && (contains_kind(dialect, siblings).is_none()
            && (anchor_kind(resources, dialect, siblings).is_none()
                && unevaluated_kind(dialect, siblings).is_none()))
}

// Whether there is no reference, or a usual one.
fn refers_usually(scopes: &Scopes<'_>, found: Option<&Doc>) -> bool
    ensures leads { result ≡ true → reference_kind (all_of scopes.now.all.resources.now) scopes.now.all.base.now
        (option_map (λ d. value_of d.now) found.entry) ≡ None }
    ensures copies { result ≡ true → CopiesNothing (all_of scopes.now.roots.resources.now) scopes.now.all.base.now
        (option_map (λ d. value_of d.now) found.entry) }
{
    match found {
        None => true,
        Some(Doc::Text(text)) => {
            let reference = text.as_str();
            leads_usually(scopes, reference) || leads_to_root(&scopes.all, reference)
        }
        Some(_) => false,
    }
}

fn leads_usually(scopes: &Scopes<'_>, reference: &str) -> bool
    ensures short { result ≡ true → nat_lt uri_limit (length reference.now) ≡ false }
    ensures leads { result ≡ true → target_kind (all_of scopes.now.all.resources.now)
        (uri_joined scopes.now.all.base.now reference.now) ≡ None }
    ensures copies { result ≡ true → (copies : Copies) → copied_for_text (all_of scopes.now.roots.resources.now)
        scopes.now.all.base.now reference.now copies ≡ copies }
{
    match usual_target(&scopes.all, reference) {
        Some(target) => is_usual_too(&scopes.roots, target),
        None => false,
    }
}

/// Whether a reference, if there is one, is known to lead to nothing that is copied.
pub(crate) fn copies_nothing(roots: &Scope<'_>, found: Option<&Doc>) -> bool
    ensures { result ≡ true → CopiesNothing (all_of roots.now.resources.now) roots.now.base.now
        (option_map (λ d. value_of d.now) found.entry) }
{
    match found {
        None => true,
        Some(Doc::Text(text)) => is_usual(roots, text.as_str()),
        Some(_) => true,
    }
}

// Whether it is taken for no schema with an identifier or a reference: its values aren't texts.
fn is_bare(roots: &Scope<'_>, dialect: Dialect, schemas: &Members) -> bool
    ensures { result ≡ true → IsBare (all_of roots.now.resources.now) dialect roots.now.base.now schemas.now }
{
    !is_text(found(schemas, "$schema"))
        && (!is_text(found(schemas, identifier(dialect))) && !is_text(found(schemas, "$ref")))
}

fn is_text(found: Option<&Doc>) -> bool
    ensures { result ≡ is_some_text (option_map (λ d. value_of d.now) found.entry) }
{
    matches!(found, Some(Doc::Text(_)))
}

/// Whether the schemas in the keywords of one are known to be clear.
#[cycle(clear)]
pub(crate) fn are_clear_keywords(scopes: &Scopes<'_>, dialect: Dialect, siblings: &Members) -> bool
    ensures { result ≡ true → AreClearMembers (all_of scopes.now.roots.resources.now)
        (all_of scopes.now.all.resources.now) (holding_in dialect siblings.now) dialect scopes.now.all.base.now
        (members siblings.now) }
{
    let hidden = hides(dialect, siblings);
    for (name, argument) in siblings.pairs() {
        let holding = holding_by_change(change_beside(hidden, dialect, name.as_str()));
        if !is_clear(scopes, holding, dialect, argument) {
            return false;
        }
    }
    true
}

#[cycle(clear)]
fn are_clear_members(scopes: &Scopes<'_>, dialect: Dialect, schemas: &Members) -> bool
    ensures { result ≡ true → AreClearMembers (all_of scopes.now.roots.resources.now)
        (all_of scopes.now.all.resources.now) (λ name. One) dialect scopes.now.all.base.now (members schemas.now) }
{
    for (_, schema) in schemas.pairs() {
        if !is_clear(scopes, SchemaHolding::One, dialect, schema) {
            return false;
        }
    }
    true
}

#[cycle(clear)]
fn are_clear_items(scopes: &Scopes<'_>, dialect: Dialect, schemas: &Items) -> bool
    ensures { result ≡ true → AreClearItems (all_of scopes.now.roots.resources.now)
        (all_of scopes.now.all.resources.now) dialect scopes.now.all.base.now 0 (items schemas.now) }
{
    let docs = schemas.as_slice();
    for i in 0..docs.len() {
        if !is_clear(scopes, SchemaHolding::One, dialect, &docs[i]) {
            return false;
        }
    }
    true
}
