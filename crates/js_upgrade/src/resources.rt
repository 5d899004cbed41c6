//! The resources of a document: what a URI without a fragment names.
ghost use Rattle.std.specs.Prelude.{◌≡◌, ◌∷◌, [], ◌++◌, IfOk, OnOk, map, option_map};
ghost use Rattle.js_doc.specs.Seen.{value_of};
ghost use Rattle.js_doc.specs.Value.{items, members};
ghost use Rattle.js_doc.specs.Parts.{members_of};
ghost use Rattle.js_upgrade.specs.Copies.{root_base, roots_by};
ghost use Rattle.js_upgrade.specs.Resource.{document_resources, identity, item_resources, joined_text};
ghost use Rattle.js_upgrade.specs.Resource.{member_resources, own_resources, resource_under, resource_with, resources};
ghost use Rattle.js_upgrade.specs.Resource.{root_resources, schema_resources};
ghost use Rattle.js_upgrade.specs.Seen.{copies_seen, resource_seen};
ghost use Rattle.js_upgrade.specs.Upgrade.{holding_in};
ghost use Rattle.js_upgrade.specs.declared.holding.SchemaHolding.TheVariants.{One};

use crate::copying::definitions;
use crate::definitions::is_usual_root;
use crate::dialect::Dialect;
use crate::holding::{SchemaHolding, holding_by_change};
use crate::lookup::found;
use crate::resource::Resource;
use crate::schema::{change_beside, hides, identifier, identifies, own_dialect};
use crate::uri::{uri_joined, uri_printed, uri_without_fragment};
use js_doc::{Doc, Items, Members, Memory};
use std::alloc::Global;
use url::Url;

/// Adds the resources of a document, whose root may have copies among its definitions.
///
/// # Errors
/// `Memory`.
pub(crate) fn push_document_resources<'d>(
    alloc: Global,
    out: &mut Vec<Resource<'d>>,
    copies: Option<&'d Members>,
    dialect: Dialect,
    uri: &Url,
    root: &'d Doc,
) -> Result<(), Memory>
    ensures { OnOk result (map resource_seen out.new.items ≡ map resource_seen out.old.items
        ++ document_resources (copies_seen copies.entry) dialect uri.now (value_of root.now)) }
{
    push_resource_with(alloc, out, copies, dialect, uri, root)?;
    push_root_resources(alloc, out, copies, dialect, uri, root)
}

fn push_root_resources<'d>(
    alloc: Global,
    out: &mut Vec<Resource<'d>>,
    copies: Option<&'d Members>,
    dialect: Dialect,
    base: &Url,
    root: &'d Doc,
) -> Result<(), Memory>
    ensures { OnOk result (map resource_seen out.new.items ≡ map resource_seen out.old.items
        ++ root_resources (copies_seen copies.entry) dialect base.now (value_of root.now)) }
{
    match root {
        Doc::Members(siblings) => {
            push_own_resources(alloc, out, copies, dialect, base, siblings, root)
        }
        _ => Ok(()),
    }
}

fn push_own_resources<'d>(
    alloc: Global,
    out: &mut Vec<Resource<'d>>,
    copies: Option<&'d Members>,
    dialect: Dialect,
    base: &Url,
    siblings: &'d Members,
    root: &'d Doc,
) -> Result<(), Memory>
    ensures { OnOk result (map resource_seen out.new.items ≡ map resource_seen out.old.items
        ++ own_resources (copies_seen copies.entry) dialect base.now siblings.now (value_of root.now)) }
{
    let own = own_dialect(dialect, siblings);
    match identity(own, base, siblings)? {
        Some(below) => {
            push_resource_with(alloc, out, copies, dialect, &below, root)?;
            push_keyword_resources(alloc, out, own, &below, siblings)
        }
        None => push_keyword_resources(alloc, out, own, base, siblings),
    }
}

/// Adds the resources in a value that holds schemas.
///
/// # Errors
/// `Memory`.
#[cycle(resources)]
pub(crate) fn push_resources<'d>(
    alloc: Global,
    out: &mut Vec<Resource<'d>>,
    holding: SchemaHolding,
    dialect: Dialect,
    base: &Url,
    value: &'d Doc,
) -> Result<(), Memory>
    ensures { OnOk result (map resource_seen out.new.items ≡ map resource_seen out.old.items
        ++ resources holding dialect base.now (value_of value.now)) }
{
    match value {
        Doc::Members(members) => match holding {
            SchemaHolding::One => push_schema_resources(alloc, out, dialect, base, members, value),
            SchemaHolding::OneOrListed => {
                push_schema_resources(alloc, out, dialect, base, members, value)
            }
            SchemaHolding::Named => push_member_resources(alloc, out, dialect, base, members),
            SchemaHolding::Listed => Ok(()),
            SchemaHolding::Nothing => Ok(()),
        },
        Doc::List(items) => match holding {
            SchemaHolding::Listed => push_item_resources(alloc, out, dialect, base, items),
            SchemaHolding::OneOrListed => push_item_resources(alloc, out, dialect, base, items),
            SchemaHolding::One => Ok(()),
            SchemaHolding::Named => Ok(()),
            SchemaHolding::Nothing => Ok(()),
        },
        _ => Ok(()),
    }
}

#[cycle(resources)]
fn push_schema_resources<'d>(
    alloc: Global,
    out: &mut Vec<Resource<'d>>,
    dialect: Dialect,
    base: &Url,
    siblings: &'d Members,
    schema: &'d Doc,
) -> Result<(), Memory>
    ensures { OnOk result (map resource_seen out.new.items ≡ map resource_seen out.old.items
        ++ schema_resources dialect base.now siblings.now (value_of schema.now)) }
{
    let own = own_dialect(dialect, siblings);
    match identity(own, base, siblings)? {
        Some(below) => {
            push_resource(alloc, out, dialect, &below, schema)?;
            push_keyword_resources(alloc, out, own, &below, siblings)
        }
        None => push_keyword_resources(alloc, out, own, base, siblings),
    }
}

#[cycle(resources)]
fn push_keyword_resources<'d>(
    alloc: Global,
    out: &mut Vec<Resource<'d>>,
    dialect: Dialect,
    base: &Url,
    siblings: &'d Members,
) -> Result<(), Memory>
    ensures { OnOk result (map resource_seen out.new.items ≡ map resource_seen out.old.items
        ++ member_resources (holding_in dialect siblings.now) dialect base.now (members siblings.now)) }
{
    let hidden = hides(dialect, siblings);
    for (name, argument) in siblings.pairs() {
        let holding = holding_by_change(change_beside(hidden, dialect, name.as_str()));
        push_resources(alloc, out, holding, dialect, base, argument)?;
    }
    Ok(())
}

#[cycle(resources)]
fn push_member_resources<'d>(
    alloc: Global,
    out: &mut Vec<Resource<'d>>,
    dialect: Dialect,
    base: &Url,
    schemas: &'d Members,
) -> Result<(), Memory>
    ensures { OnOk result (map resource_seen out.new.items ≡ map resource_seen out.old.items
        ++ member_resources (λ name. One) dialect base.now (members schemas.now)) }
{
    for (_, schema) in schemas.pairs() {
        push_resources(alloc, out, SchemaHolding::One, dialect, base, schema)?;
    }
    Ok(())
}

#[cycle(resources)]
fn push_item_resources<'d>(
    alloc: Global,
    out: &mut Vec<Resource<'d>>,
    dialect: Dialect,
    base: &Url,
    schemas: &'d Items,
) -> Result<(), Memory>
    ensures { OnOk result (map resource_seen out.new.items ≡ map resource_seen out.old.items
        ++ item_resources dialect base.now (items schemas.now)) }
{
    let docs = schemas.as_slice();
    for i in 0..docs.len() {
        push_resources(alloc, out, SchemaHolding::One, dialect, base, &docs[i])?;
    }
    Ok(())
}

/// Adds the resource with this root under the URI.
///
/// # Errors
/// `Memory`.
pub(crate) fn push_resource<'d>(
    alloc: Global,
    out: &mut Vec<Resource<'d>>,
    dialect: Dialect,
    base: &Url,
    root: &'d Doc,
) -> Result<(), Memory>
    ensures { OnOk result (map resource_seen out.new.items ≡ map resource_seen out.old.items
        ++ resource_under dialect (value_of root.now) base.now ∷ []) }
{
    push_resource_with(alloc, out, None, dialect, base, root)
}

fn push_resource_with<'d>(
    alloc: Global,
    out: &mut Vec<Resource<'d>>,
    copies: Option<&'d Members>,
    dialect: Dialect,
    base: &Url,
    root: &'d Doc,
) -> Result<(), Memory>
    ensures { OnOk result (map resource_seen out.new.items ≡ map resource_seen out.old.items
        ++ resource_with (copies_seen copies.entry) dialect (value_of root.now) base.now ∷ []) }
{
    let uri = String::from_str(alloc, uri_printed(base))?;
    out.push(Resource {
        uri,
        dialect,
        root,
        copies,
        usual: is_usual_root(dialect, root),
        definitions: definitions(dialect, root),
    })?;
    Ok(())
}

/// Adds the root of a document under its URI, and under what its identifier gives.
///
/// # Errors
/// `Memory`.
pub(crate) fn push_roots<'d>(
    alloc: Global,
    out: &mut Vec<Resource<'d>>,
    dialect: Dialect,
    uri: &Url,
    root: &'d Doc,
) -> Result<(), Memory>
    ensures { OnOk result (map resource_seen out.new.items ≡ map resource_seen out.old.items
        ++ roots_by dialect uri.now (value_of root.now)) }
{
    push_resource(alloc, out, dialect, uri, root)?;
    push_own_root(alloc, out, dialect, uri, root)
}

#[tactic(auto, using(crate::proofs::Gathered::gathering_rules))]
fn push_own_root<'d>(
    alloc: Global,
    out: &mut Vec<Resource<'d>>,
    dialect: Dialect,
    uri: &Url,
    root: &'d Doc,
) -> Result<(), Memory>
    ensures { OnOk result (map resource_seen out.new.items ≡ map resource_seen out.old.items
        ++ resource_under dialect (value_of root.now) (root_base dialect uri.now (members_of (value_of root.now)))
        ∷ []) }
{
    match root {
        Doc::Members(siblings) => {
            match identity(own_dialect(dialect, siblings), uri, siblings)? {
                Some(base) => push_resource(alloc, out, dialect, &base, root),
                None => push_resource(alloc, out, dialect, uri, root),
            }
        }
        _ => push_resource(alloc, out, dialect, uri, root),
    }
}

/// What the identifier of a schema gives, if it has one.
///
/// # Errors
/// `Memory`.
pub(crate) fn identity(own: Dialect, base: &Url, siblings: &Members) -> Result<Option<Url>, Memory>
    ensures { IfOk result (λ u. u ≡ identity own base.now siblings.now) }
{
    if identifies(own, siblings) {
        joined_text(base, found(siblings, identifier(own)))
    } else {
        Ok(None)
    }
}

fn joined_text(base: &Url, found: Option<&Doc>) -> Result<Option<Url>, Memory>
    ensures { IfOk result (λ u. u ≡ joined_text base.now (option_map (λ d. value_of d.now) found.entry)) }
{
    match found {
        Some(Doc::Text(text)) => match uri_joined(base, text.as_str())? {
            Some(url) => Ok(Some(uri_without_fragment(url)?)),
            None => Ok(None),
        },
        _ => Ok(None),
    }
}
