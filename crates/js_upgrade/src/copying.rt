//! The copy of what a reference leads to, where that stands apart.
ghost use Rattle.std.specs.Prelude.{◌≡◌, ◌/◌, Some, IfOk, OnOk, option_and_then, option_map, slice_get, string_bytes};
ghost use Rattle.js_doc.specs.Seen.{value_of};
ghost use Rattle.js_upgrade.specs.Apart.{copy_of, definitions_of, if_schema, is_open, under_name, takes_copies};
ghost use Rattle.js_upgrade.specs.Copies.{copied_at, copied_for, copied_for_text, copied_for_uri, copied_in};
ghost use Rattle.js_upgrade.specs.Copies.{is_copied, with_copy};
ghost use Rattle.js_upgrade.specs.CopyName.{free_name};
ghost use Rattle.js_upgrade.specs.Schema.{members_found};
ghost use Rattle.js_upgrade.specs.Seen.{copies_seen, resource_seen};
ghost use Rattle.js_upgrade.specs.Url.{uri_joined};
ghost use Rattle.js_upgrade.specs.code.Table.{all_of};

use crate::apart::{apart, may_be_schema};
use crate::copy_name::{definitions_name, free_name, is_rooted};
use crate::definitions::is_usual;
use crate::dialect::Dialect;
use crate::identifier::after_mark;
use crate::resource::Resource;
use crate::resource_table::{ResourceTable, number_by_uri, resource_numbered};
use crate::scope::Scope;
use crate::uri::{
    fragment_pointer, local_fragment, pointer_in, uri_joined, uri_printed, uri_without_fragment,
};
use js_doc::{Doc, Members, Memory, Pointer, Text};
use std::alloc::Global;
use url::Url;

/// Adds the copy for the argument of a reference.
///
/// # Errors
/// `Memory`.
pub(crate) fn copy_for(
    alloc: Global,
    copies: &mut Vec<Members>,
    scope: &Scope<'_>,
    found: Option<&Doc>,
) -> Result<(), Memory>
    ensures { OnOk result (copies.new.items ≡ copied_for (all_of scope.now.resources.now) scope.now.base.now
        (option_map (λ d. value_of d.now) found.entry) copies.old.items) }
{
    match found {
        Some(Doc::Text(text)) => copy_for_text(alloc, copies, scope, text.as_str()),
        _ => Ok(()),
    }
}

fn copy_for_text(
    alloc: Global,
    copies: &mut Vec<Members>,
    scope: &Scope<'_>,
    reference: &str,
) -> Result<(), Memory>
    ensures { OnOk result (copies.new.items ≡ copied_for_text (all_of scope.now.resources.now)
        scope.now.base.now reference.now copies.old.items) }
{
    if is_usual(scope, reference) {
        return Ok(());
    }
    if is_rooted(after_mark(reference)) {
        copy_for_part(alloc, copies, scope, reference)
    } else {
        Ok(())
    }
}

fn copy_for_part(
    alloc: Global,
    copies: &mut Vec<Members>,
    scope: &Scope<'_>,
    reference: &str,
) -> Result<(), Memory>
    ensures { OnOk result (copies.new.items ≡ copied_for_uri (all_of scope.now.resources.now)
        (uri_joined scope.now.base.now reference.now) copies.old.items) }
{
    match local_fragment(reference) {
        Some(fragment) => {
            let pointer = pointer_in(alloc, fragment)?;
            copy_at(alloc, copies, scope.resources, &pointer, scope.here)
        }
        None => copy_for_uri(
            alloc,
            copies,
            scope.resources,
            uri_joined(scope.base, reference)?,
        ),
    }
}

fn copy_for_uri(
    alloc: Global,
    copies: &mut Vec<Members>,
    roots: &ResourceTable<'_>,
    uri: Option<Url>,
) -> Result<(), Memory>
    ensures { OnOk result (copies.new.items ≡ copied_for_uri (all_of roots.now) uri copies.old.items) }
{
    match uri {
        Some(uri) => {
            let pointer = fragment_pointer(alloc, &uri)?;
            let bare = uri_without_fragment(uri)?;
            copy_at(
                alloc,
                copies,
                roots,
                &pointer,
                number_by_uri(roots, uri_printed(&bare)),
            )
        }
        None => Ok(()),
    }
}

fn copy_at(
    alloc: Global,
    copies: &mut Vec<Members>,
    roots: &ResourceTable<'_>,
    pointer: &Option<Pointer>,
    number: Option<usize>,
) -> Result<(), Memory>
    ensures { OnOk result (copies.new.items ≡ copied_at (all_of roots.now) pointer.now number copies.old.items) }
{
    match pointer {
        Some(pointer) => match number {
            Some(number) => copy_numbered(alloc, copies, roots, pointer, number),
            None => Ok(()),
        },
        None => Ok(()),
    }
}

fn copy_numbered(
    alloc: Global,
    copies: &mut Vec<Members>,
    roots: &ResourceTable<'_>,
    pointer: &Pointer,
    number: usize,
) -> Result<(), Memory>
    ensures { OnOk result (copies.new.items ≡ copied_in number pointer.now copies.old.items
        (slice_get (all_of roots.now) number)) }
{
    copy_in(
        alloc,
        copies,
        pointer,
        number,
        resource_numbered(roots, Some(number)),
    )
}

// Each document has two roots.
fn copy_in(
    alloc: Global,
    copies: &mut Vec<Members>,
    pointer: &Pointer,
    number: usize,
    root: Option<&Resource<'_>>,
) -> Result<(), Memory>
    ensures { OnOk result (copies.new.items ≡ copied_in number pointer.now copies.old.items
        (option_map (λ r. resource_seen r.now) root.entry)) }
{
    match root {
        Some(root) => copy_part(alloc, copies, number / 2, root.dialect, root.root, pointer),
        None => Ok(()),
    }
}

// Of a document's root.
fn copy_part(
    alloc: Global,
    copies: &mut Vec<Members>,
    document: usize,
    dialect: Dialect,
    root: &Doc,
    pointer: &Pointer,
) -> Result<(), Memory>
    ensures { OnOk result (copies.new.items
        ≡ with_copy document (copy_of dialect (value_of root.now) pointer.now) copies.old.items) }
{
    if !takes_copies(dialect, root) {
        return Ok(());
    }
    match apart(alloc, dialect, root, pointer.tokens())? {
        Some(value) => {
            copy_value(
                alloc,
                copies,
                document,
                definitions(dialect, root),
                value,
                pointer,
            )
        }
        None => Ok(()),
    }
}

fn copy_value(
    alloc: Global,
    copies: &mut Vec<Members>,
    document: usize,
    definitions: Option<&Members>,
    value: &Doc,
    pointer: &Pointer,
) -> Result<(), Memory>
    ensures { OnOk result (copies.new.items ≡ with_copy document
        (option_and_then (λ v. option_map (under_name v) (free_name (copies_seen definitions.entry) pointer.now))
        (if_schema (value_of value.now))) copies.old.items) }
{
    if may_be_schema(value) {
        let name = free_name(alloc, definitions, pointer)?;
        copy_named(alloc, copies, document, name, value)
    } else {
        Ok(())
    }
}

fn copy_named(
    alloc: Global,
    copies: &mut Vec<Members>,
    document: usize,
    name: Option<String>,
    value: &Doc,
) -> Result<(), Memory>
    ensures { OnOk result (copies.new.items ≡ with_copy document
        (option_map (under_name (value_of value.now)) (option_map string_bytes name)) copies.old.items) }
{
    match name {
        Some(name) => put_copy(alloc, copies, document, name, value),
        None => Ok(()),
    }
}

fn put_copy(
    alloc: Global,
    copies: &mut Vec<Members>,
    document: usize,
    name: String,
    value: &Doc,
) -> Result<(), Memory>
    ensures { OnOk result (copies.new.items
        ≡ with_copy document (Some (under_name (value_of value.now) (string_bytes name))) copies.old.items) }
{
    if is_copied(copies.as_slice(), document, name.as_str()) {
        return Ok(());
    }
    let copy = value.copy(alloc)?;
    if let Some(members) = copies.get_mut(document) {
        members.put(Text::new(name), copy)?;
    }
    Ok(())
}

// Whether the document has a copy with this name.
fn is_copied(copies: &[Members], document: usize, name: &str) -> bool
    ensures { result ≡ is_copied name.now (slice_get copies.now document) }
{
    match copies.get(document) {
        Some(members) => members.get(name).is_some(),
        None => false,
    }
}

/// The definitions of a document, if it has some.
#[tactic(auto, using(crate::proofs::Gathered::gathering_rules))]
pub(crate) fn definitions(dialect: Dialect, root: &Doc) -> Option<&Members>
    ensures { copies_seen result ≡ definitions_of dialect (value_of root.now) }
{
    match root {
        Doc::Members(siblings) => members_in(siblings.get(definitions_name(dialect))),
        _ => None,
    }
}

#[tactic(auto, using(crate::proofs::Gathered::gathering_rules))]
fn members_in(found: Option<&Doc>) -> Option<&Members>
    ensures { copies_seen result ≡ members_found (option_map (λ d. value_of d.now) found.entry) }
{
    match found {
        Some(Doc::Members(members)) => Some(members),
        _ => None,
    }
}

/// Whether definitions can be added to the document.
#[tactic(auto, using(crate::proofs::Gathered::gathering_rules))]
pub(crate) fn takes_copies(dialect: Dialect, root: &Doc) -> bool
    ensures { result ≡ takes_copies dialect (value_of root.now) }
{
    match root {
        Doc::Members(siblings) => {
            dialect.is_before(Dialect::Draft2020)
                && is_open(siblings.get(definitions_name(dialect)))
        }
        _ => false,
    }
}

fn is_open(found: Option<&Doc>) -> bool
    ensures { result ≡ is_open (option_map (λ d. value_of d.now) found.entry) }
{
    match found {
        None | Some(Doc::Members(_)) => true,
        Some(_) => false,
    }
}
