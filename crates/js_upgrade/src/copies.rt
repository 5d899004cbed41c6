//! Documents with copies of what their references lead to, where that stands apart.
ghost use Rattle.std.specs.Prelude.{◌≡◌, ◌++◌, Some, IfOk, OnOk, codes, map, option_map, slice_get, true};
ghost use Rattle.std.specs.List.{list_any};
ghost use Rattle.js_doc.specs.Members.{get};
ghost use Rattle.js_doc.specs.Seen.{value_of};
ghost use Rattle.js_doc.specs.Value.{items, members, object};
ghost use Rattle.js_upgrade.specs.Apart.{definitions_of};
ghost use Rattle.js_upgrade.specs.Copies.{all_copied, copied_by, copied_for, copies_of, document_roots};
ghost use Rattle.js_upgrade.specs.Copies.{items_copied, members_copied, no_copies, root_with, roots_of, source_with};
ghost use Rattle.js_upgrade.specs.Copies.{sources_copied, sources_with, with_definitions};
ghost use Rattle.js_upgrade.specs.Schema.{members_found, put_all};
ghost use Rattle.js_upgrade.specs.Seen.{copies_seen, resource_seen, source_of};
ghost use Rattle.js_upgrade.specs.Source.{source_dialect};
ghost use Rattle.js_upgrade.specs.code.Clear.{CopyNothing};
ghost use Rattle.js_upgrade.specs.code.Copied.{has_some};
ghost use Rattle.js_upgrade.specs.code.Table.{all_of};

use crate::copy_name::definitions_name;
use crate::copying::copy_for;
use crate::dialect::Dialect;
use crate::documents::{SourceDocument, source_dialect};
use crate::gathering::put_one;
use crate::lookup::found;
use crate::reference_free::is_reference_free;
use crate::resource::Resource;
use crate::resource_table::ResourceTable;
use crate::resources::{identity, push_roots};
use crate::schema::own_dialect;
use crate::scope::{Scope, number_here};
use js_doc::{Doc, Items, Members, Memory};
use std::alloc::Global;

/// The copies of each document, in order. Of documents that are known to be clear nothing is copied.
///
/// # Errors
/// `Memory`.
pub(crate) fn copies_of(
    alloc: Global,
    clear: bool,
    roots: &ResourceTable<'_>,
    sources: &[SourceDocument],
) -> Result<Vec<Members>, Memory>
    requires roots { all_of roots.now ≡ document_roots (map source_of sources.now) }
    requires clear { clear ≡ true → CopyNothing (all_of roots.now) (map source_of sources.now) }
    ensures { IfOk result (λ cs. cs.items ≡ copies_of (map source_of sources.now)) }
{
    let mut copies = none_copied(alloc, sources)?;
    if !clear {
        copy_for_sources(alloc, &mut copies, roots, sources)?;
    }
    Ok(copies)
}

fn none_copied(alloc: Global, sources: &[SourceDocument]) -> Result<Vec<Members>, Memory>
    ensures { IfOk result (λ cs. cs.items ≡ map no_copies (map source_of sources.now)) }
{
    let mut copies = Vec::with_capacity(alloc, sources.len())?;
    for _source in sources {
        copies.push(Members::new(alloc))?;
    }
    Ok(copies)
}

/// The roots that copies are made of.
///
/// # Errors
/// `Memory`.
pub(crate) fn document_roots(
    alloc: Global,
    sources: &[SourceDocument],
) -> Result<Vec<Resource<'_>>, Memory>
    ensures { IfOk result (λ v. map resource_seen v.items ≡ document_roots (map source_of sources.now)) }
{
    let mut found = Vec::new(alloc);
    for source in sources {
        push_source_roots(alloc, &mut found, source)?;
    }
    Ok(found)
}

fn push_source_roots<'d>(
    alloc: Global,
    out: &mut Vec<Resource<'d>>,
    source: &'d SourceDocument,
) -> Result<(), Memory>
    ensures { OnOk result (map resource_seen out.new.items ≡ map resource_seen out.old.items
        ++ roots_of (source_of source.now)) }
{
    let dialect = source_dialect(source).unwrap_or(source.assumed);
    push_roots(alloc, out, dialect, &source.uri, &source.root)
}

fn copy_for_sources(
    alloc: Global,
    copies: &mut Vec<Members>,
    roots: &ResourceTable<'_>,
    sources: &[SourceDocument],
) -> Result<(), Memory>
    ensures { OnOk result (copies.new.items
        ≡ sources_copied (all_of roots.now) (map source_of sources.now) copies.old.items) }
{
    for source in sources {
        copy_for_source(alloc, copies, roots, source)?;
    }
    Ok(())
}

fn copy_for_source(
    alloc: Global,
    copies: &mut Vec<Members>,
    roots: &ResourceTable<'_>,
    source: &SourceDocument,
) -> Result<(), Memory>
    ensures { OnOk result (copies.new.items ≡ copied_by (all_of roots.now) (source_of source.now)
        (source_dialect (source_of source.now)) copies.old.items) }
{
    if is_reference_free(&source.root) {
        return Ok(());
    }
    match source_dialect(source) {
        Some(dialect) => {
            let scope = Scope {
                resources: roots,
                base: &source.uri,
                here: number_here(roots, &source.uri)?,
            };
            copy_all(alloc, copies, &scope, dialect, &source.root)
        }
        None => Ok(()),
    }
}

// For all references in a value.
#[cycle(copies)]
fn copy_all(
    alloc: Global,
    copies: &mut Vec<Members>,
    scope: &Scope<'_>,
    dialect: Dialect,
    value: &Doc,
) -> Result<(), Memory>
    ensures { OnOk result (copies.new.items ≡ all_copied (all_of scope.now.resources.now) dialect
        scope.now.base.now (value_of value.now) copies.old.items) }
{
    match value {
        Doc::Members(members) => copy_in_object(alloc, copies, scope, dialect, members),
        Doc::List(items) => copy_in_items(alloc, copies, scope, dialect, items),
        _ => Ok(()),
    }
}

#[cycle(copies)]
fn copy_in_object(
    alloc: Global,
    copies: &mut Vec<Members>,
    scope: &Scope<'_>,
    dialect: Dialect,
    siblings: &Members,
) -> Result<(), Memory>
    ensures { OnOk result (copies.new.items ≡ all_copied (all_of scope.now.resources.now) dialect
        scope.now.base.now (object (members siblings.now)) copies.old.items) }
{
    let own = own_dialect(dialect, siblings);
    let found = identity(own, scope.base, siblings)?;
    match found {
        Some(below) => {
            let inner = Scope {
                resources: scope.resources,
                base: &below,
                here: number_here(scope.resources, &below)?,
            };
            copy_below(alloc, copies, &inner, own, siblings)
        }
        None => copy_below(alloc, copies, scope, own, siblings),
    }
}

// In an object whose own base is that of the scope.
#[cycle(copies)]
fn copy_below(
    alloc: Global,
    copies: &mut Vec<Members>,
    scope: &Scope<'_>,
    dialect: Dialect,
    siblings: &Members,
) -> Result<(), Memory>
    ensures { OnOk result (copies.new.items ≡ members_copied (all_of scope.now.resources.now) dialect
        scope.now.base.now (members siblings.now) (copied_for (all_of scope.now.resources.now)
        scope.now.base.now (get (codes "$ref") siblings.now) copies.old.items)) }
{
    copy_for(alloc, copies, scope, found(siblings, "$ref"))?;
    copy_in_members(alloc, copies, scope, dialect, siblings)
}

#[cycle(copies)]
fn copy_in_members(
    alloc: Global,
    copies: &mut Vec<Members>,
    scope: &Scope<'_>,
    dialect: Dialect,
    siblings: &Members,
) -> Result<(), Memory>
    ensures { OnOk result (copies.new.items ≡ members_copied (all_of scope.now.resources.now) dialect
        scope.now.base.now (members siblings.now) copies.old.items) }
{
    for (_, value) in siblings.pairs() {
        copy_all(alloc, copies, scope, dialect, value)?;
    }
    Ok(())
}

#[cycle(copies)]
fn copy_in_items(
    alloc: Global,
    copies: &mut Vec<Members>,
    scope: &Scope<'_>,
    dialect: Dialect,
    values: &Items,
) -> Result<(), Memory>
    ensures { OnOk result (copies.new.items ≡ items_copied (all_of scope.now.resources.now) dialect
        scope.now.base.now (items values.now) copies.old.items) }
{
    let docs = values.as_slice();
    for i in 0..docs.len() {
        copy_all(alloc, copies, scope, dialect, &docs[i])?;
    }
    Ok(())
}

/// The copies of the document with this number.
pub(crate) fn copies_at(copies: &[Members], document: usize) -> Option<&Members>
    ensures { option_map (λ ms. ms.now) result ≡ slice_get copies.now document }
{
    match copies.get(document) {
        Some(members) => Some(members),
        None => None,
    }
}

/// Whether a document has copies.
pub(crate) fn has_some(copies: &[Members]) -> bool
    ensures { result ≡ list_any has_some copies.now }
{
    copies.iter().any(|members| has_members(members))
}

fn has_members(members: &Members) -> bool
    ensures { result ≡ has_some members.now }
{
    !members.is_empty()
}

/// The documents with their copies, in order.
///
/// # Errors
/// `Memory`.
pub(crate) fn sources_with(
    alloc: Global,
    copies: &[Members],
    sources: &[SourceDocument],
) -> Result<Vec<SourceDocument>, Memory>
    ensures { IfOk result (λ v. map source_of v.items ≡ sources_with copies.now (map source_of sources.now)) }
{
    let mut out = Vec::with_capacity(alloc, sources.len())?;
    for i in 0..sources.len() {
        out.push(source_with(alloc, copies_at(copies, i), &sources[i])?)?;
    }
    Ok(out)
}

fn source_with(
    alloc: Global,
    copies: Option<&Members>,
    source: &SourceDocument,
) -> Result<SourceDocument, Memory>
    ensures { IfOk result (λ s. source_of s ≡ source_with (copies_seen copies.entry) (source_of source.now)) }
{
    let root = root_with(alloc, source_dialect(source), copies, &source.root)?;
    let uri = source.uri.clone()?;
    Ok(SourceDocument {
        uri,
        assumed: source.assumed,
        root,
    })
}

fn root_with(
    alloc: Global,
    dialect: Option<Dialect>,
    copies: Option<&Members>,
    root: &Doc,
) -> Result<Doc, Memory>
    ensures { IfOk result (λ d. value_of d ≡ root_with dialect (copies_seen copies.entry) (value_of root.now)) }
{
    match dialect {
        Some(dialect) => match copies {
            Some(copies) => root_with_members(alloc, dialect, copies, root),
            None => root.copy(alloc),
        },
        None => root.copy(alloc),
    }
}

fn root_with_members(
    alloc: Global,
    dialect: Dialect,
    copies: &Members,
    root: &Doc,
) -> Result<Doc, Memory>
    ensures { IfOk result (λ d. value_of d ≡ root_with (Some dialect) copies.now (value_of root.now)) }
{
    if copies.is_empty() {
        root.copy(alloc)
    } else {
        with_definitions(alloc, dialect, copies, root)
    }
}

#[tactic(auto, using(crate::proofs::Gathered::gathering_rules))]
fn with_definitions(
    alloc: Global,
    dialect: Dialect,
    copies: &Members,
    root: &Doc,
) -> Result<Doc, Memory>
    ensures { IfOk result (λ d. value_of d ≡ with_definitions dialect copies.now (value_of root.now)) }
{
    let definitions = definitions_with(alloc, dialect, copies, root)?;
    match root.copy(alloc)? {
        Doc::Members(members) => {
            let mut members = members;
            let name = definitions_name(dialect);
            put_one(alloc, &mut members, name, Doc::Members(definitions))?;
            Ok(Doc::Members(members))
        }
        other => Ok(other),
    }
}

fn definitions_with(
    alloc: Global,
    dialect: Dialect,
    copies: &Members,
    root: &Doc,
) -> Result<Members, Memory>
    ensures { IfOk result (λ m. m ≡ put_all copies.now (definitions_of dialect (value_of root.now))) }
{
    let mut definitions = definitions_of(alloc, dialect, root)?;
    put_copies(alloc, &mut definitions, copies)?;
    Ok(definitions)
}

#[tactic(auto, using(crate::proofs::Gathered::gathering_rules))]
fn definitions_of(alloc: Global, dialect: Dialect, root: &Doc) -> Result<Members, Memory>
    ensures { IfOk result (λ m. m ≡ definitions_of dialect (value_of root.now)) }
{
    match root {
        Doc::Members(siblings) => members_found(alloc, siblings.get(definitions_name(dialect))),
        _ => Ok(Members::new(alloc)),
    }
}

#[tactic(auto, using(crate::proofs::Gathered::gathering_rules))]
fn members_found(alloc: Global, found: Option<&Doc>) -> Result<Members, Memory>
    ensures { IfOk result (λ m. m ≡ members_found (option_map (λ d. value_of d.now) found.entry)) }
{
    match found {
        Some(value) => match value.copy(alloc)? {
            Doc::Members(members) => Ok(members),
            _ => Ok(Members::new(alloc)),
        },
        None => Ok(Members::new(alloc)),
    }
}

fn put_copies(alloc: Global, out: &mut Members, copies: &Members) -> Result<(), Memory>
    ensures { OnOk result (out.new ≡ put_all copies.now out.old) }
{
    for (name, value) in copies.pairs() {
        put_one(alloc, out, name.as_str(), value.copy(alloc)?)?;
    }
    Ok(())
}
