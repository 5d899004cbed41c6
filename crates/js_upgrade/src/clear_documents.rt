//! Documents that are clear: their roots alone are resources, and they have no fault and no copies.
ghost use Rattle.std.specs.Prelude.{◌≡◌, ◌++◌, IfOk, None, OnOk, false, map, true};
ghost use Rattle.js_doc.specs.Seen.{value_of};
ghost use Rattle.js_upgrade.specs.Fault.{schema_fault};
ghost use Rattle.js_upgrade.specs.Resource.{own_base};
ghost use Rattle.js_upgrade.specs.Seen.{resource_seen, source_of};
ghost use Rattle.js_upgrade.specs.Upgrade.{own_dialect};
ghost use Rattle.js_upgrade.specs.code.Clear.{AreClear, IsClearBelow, IsClearDocument, IsClearInside, IsClearRoot};
ghost use Rattle.js_upgrade.specs.code.Clear.{all_roots, own_root, source_roots};
ghost use Rattle.js_upgrade.specs.code.Table.{all_of};
ghost use Rattle.js_upgrade.specs.declared.fault.Pass.TheVariants.{AnyOfThese};

use crate::clear::{are_clear_keywords, copies_nothing};
use crate::dialect::Dialect;
use crate::documents::{SourceDocument, source_dialect};
use crate::finding::any_fault;
use crate::lookup::found;
use crate::resource::Resource;
use crate::resource_table::ResourceTable;
use crate::resources::{identity, push_resource};
use crate::schema::own_dialect;
use crate::scope::{Scope, Scopes, number_here};
use js_doc::{Doc, Members, Memory};
use std::alloc::Global;
use url::Url;

/// The resources that the roots of the documents are.
///
/// # Errors
/// `Memory`.
pub(crate) fn all_roots(
    alloc: Global,
    sources: &[SourceDocument],
) -> Result<Vec<Resource<'_>>, Memory>
    ensures { IfOk result (λ v. map resource_seen v.items ≡ all_roots (map source_of sources.now)) }
{
    let mut found = Vec::new(alloc);
    for source in sources {
        push_source_roots(alloc, &mut found, source)?;
    }
    Ok(found)
}

fn push_source_roots<'d>(
    alloc: Global,
    out: &mut Vec<Resource<'d>>,
    source: &'d SourceDocument,
) -> Result<(), Memory>
    ensures { OnOk result (map resource_seen out.new.items ≡ map resource_seen out.old.items
        ++ source_roots (source_of source.now)) }
{
    match source_dialect(source) {
        Some(dialect) => {
            push_resource(alloc, out, dialect, &source.uri, &source.root)?;
            push_own_root(alloc, out, dialect, &source.uri, &source.root)
        }
        None => Ok(()),
    }
}

#[tactic(auto, using(crate::proofs::Gathered::gathering_rules))]
fn push_own_root<'d>(
    alloc: Global,
    out: &mut Vec<Resource<'d>>,
    dialect: Dialect,
    uri: &Url,
    root: &'d Doc,
) -> Result<(), Memory>
    ensures { OnOk result (map resource_seen out.new.items ≡ map resource_seen out.old.items
        ++ own_root dialect uri.now (value_of root.now)) }
{
    match root {
        Doc::Members(siblings) => {
            match identity(own_dialect(dialect, siblings), uri, siblings)? {
                Some(base) => push_resource(alloc, out, dialect, &base, root),
                None => Ok(()),
            }
        }
        _ => Ok(()),
    }
}

/// Whether the documents are known to be clear. `roots` are those that copies are made of.
///
/// # Errors
/// `Memory`.
pub(crate) fn are_clear(
    alloc: Global,
    roots: &ResourceTable<'_>,
    resources: &ResourceTable<'_>,
    sources: &[SourceDocument],
) -> Result<bool, Memory>
    ensures { IfOk result (λ b. b ≡ true
        → AreClear (all_of roots.now) (all_of resources.now) 0 (map source_of sources.now)) }
{
    for i in 0..sources.len() {
        if !is_clear_document(alloc, roots, resources, &sources[i])? {
            return Ok(false);
        }
    }
    Ok(true)
}

fn is_clear_document(
    alloc: Global,
    roots: &ResourceTable<'_>,
    resources: &ResourceTable<'_>,
    source: &SourceDocument,
) -> Result<bool, Memory>
    ensures { IfOk result (λ b. b ≡ true
        → IsClearDocument (all_of roots.now) (all_of resources.now) (source_of source.now)) }
{
    match source_dialect(source) {
        Some(dialect) => match &source.root {
            Doc::Members(siblings) => is_clear_root(
                alloc,
                roots,
                resources,
                dialect,
                &source.uri,
                siblings,
            ),
            _ => Ok(false),
        },
        None => Ok(false),
    }
}

fn is_clear_root(
    alloc: Global,
    roots: &ResourceTable<'_>,
    resources: &ResourceTable<'_>,
    dialect: Dialect,
    uri: &Url,
    siblings: &Members,
) -> Result<bool, Memory>
    ensures { IfOk result (λ b. b ≡ true
        → IsClearRoot (all_of roots.now) (all_of resources.now) dialect uri.now siblings.now) }
{
    if !keeps_dialect(dialect, siblings) {
        return Ok(false);
    }
    match identity(dialect, uri, siblings)? {
        Some(base) => is_clear_below(alloc, roots, resources, dialect, uri, &base, siblings),
        None => is_clear_below(alloc, roots, resources, dialect, uri, uri, siblings),
    }
}

fn keeps_dialect(dialect: Dialect, siblings: &Members) -> bool
    ensures { result ≡ true → own_dialect dialect siblings.now ≡ dialect }
{
    own_dialect(dialect, siblings).is_draft(dialect)
}

// A root whose own base is known.
fn is_clear_below<'r>(
    alloc: Global,
    roots: &'r ResourceTable<'r>,
    resources: &'r ResourceTable<'r>,
    dialect: Dialect,
    uri: &Url,
    base: &'r Url,
    siblings: &Members,
) -> Result<bool, Memory>
    requires { base.now ≡ own_base dialect uri.now siblings.now }
    ensures { IfOk result (λ b. b ≡ true
        → IsClearBelow (all_of roots.now) (all_of resources.now) dialect uri.now base.now siblings.now) }
{
    let scopes = Scopes {
        roots: Scope {
            resources: roots,
            base,
            here: number_here(roots, base)?,
        },
        all: Scope {
            resources,
            base,
            here: number_here(resources, base)?,
        },
    };
    if has_fault(alloc, &scopes.all, dialect, uri, siblings)? {
        return Ok(false);
    }
    Ok(is_clear_inside(&scopes, dialect, siblings))
}

// Whether the root has a fault itself.
fn has_fault(
    alloc: Global,
    scope: &Scope<'_>,
    dialect: Dialect,
    uri: &Url,
    siblings: &Members,
) -> Result<bool, Memory>
    requires { scope.now.base.now ≡ own_base dialect uri.now siblings.now }
    ensures { IfOk result (λ b. b ≡ false → schema_fault AnyOfThese (all_of scope.now.resources.now)
        dialect dialect uri.now scope.now.base.now siblings.now ≡ None) }
{
    Ok(any_fault(alloc, scope, dialect, dialect, uri, siblings)?.is_some())
}

// The root's reference, and the schemas in its keywords.
fn is_clear_inside(scopes: &Scopes<'_>, dialect: Dialect, siblings: &Members) -> bool
    ensures { result ≡ true → IsClearInside (all_of scopes.now.roots.resources.now)
        (all_of scopes.now.all.resources.now) dialect scopes.now.all.base.now siblings.now }
{
    copies_nothing(&scopes.roots, found(siblings, "$ref"))
        && are_clear_keywords(scopes, dialect, siblings)
}
