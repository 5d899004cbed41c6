//! The scan: all places of the documents, in order.
ghost use Rattle.std.specs.Prelude.{◌≡◌, [], ◌∷◌, ◌++◌, OnOk, IfOk, map};
ghost use Rattle.js_doc.specs.Seen.{value_of};
ghost use Rattle.js_doc.specs.Value as spec;
ghost use Rattle.js_bundle.specs.code.Scan.{SameFront, site_of, site_scanned, passed_down, sites_at, sites_of_items};
ghost use Rattle.js_bundle.specs.code.Scan.{sites_of_member, sites_of_members, scanned};
ghost use Rattle.js_bundle.specs.Resource.{root_scope};
ghost use Rattle.js_bundle.specs.Seen.{document_of};

pub(crate) mod base_scope;
pub(crate) mod holding;
pub(crate) mod pointers;
pub(crate) mod site;

use crate::document::Document;
use crate::scan::base_scope::{BaseScope, BaseScopes, base_scopes_at};
use crate::scan::holding::{Role, holding_as};
use crate::scan::pointers::shared_further;
use crate::scan::site::Site;
use js_doc::{Doc, Members, Memory, Pointer};
use js_keyword::Holding;
use std::alloc::Global;
use std::sync::Arc;

/// The scan lists no more places: one more than a bundle may have.
const MOST_SITES: usize = 100_001;

/// Where a schema stands.
#[derive(Clone, Copy)]
struct SchemaPosition<'p> {
    document: usize,
    /// The base scope that it is in.
    above: &'p Arc<BaseScope>,
    pointer: &'p Arc<Pointer>,
    /// How many members stand before it in its object. In a list it is 0.
    rank: u32,
}

// Lists one place, and answers the base scope of what stands below it.
fn add_site<'a>(
    out: &mut Vec<Site<'a>>,
    at: SchemaPosition<'_>,
    schema: &'a Doc,
) -> Result<Arc<BaseScope>, Memory>
    ensures added { OnOk result (map site_of out.new.items ≡ map site_of out.old.items
        ++ site_scanned at.entry.document at.entry.above.now.value at.entry.pointer.now.value
        (value_of schema.now) ∷ []) }
    ensures below { IfOk result (λ s. s.value
        ≡ passed_down at.entry.above.now.value at.entry.pointer.now.value (value_of schema.now)) }
{
    let pointer = at.pointer.clone()?;
    let above = at.above.clone()?;
    let BaseScopes {
        own,
        below,
        identifies,
        bare,
    } = base_scopes_at(*out.allocator(), at.above, at.pointer, schema)?;
    out.push(Site {
        document: at.document,
        pointer,
        above,
        own,
        identifies,
        bare,
        rank: at.rank,
        schema,
    })?;
    Ok(below)
}

#[cycle(scan)]
fn scan_schema<'a>(
    out: &mut Vec<Site<'a>>,
    at: SchemaPosition<'_>,
    schema: &'a Doc,
) -> Result<(), Memory>
    ensures { OnOk result (SameFront (map site_of out.new.items) (map site_of out.old.items
        ++ sites_at at.entry.document at.entry.above.now.value at.entry.pointer.now.value (value_of schema.now))) }
{
    if MOST_SITES <= out.len() {
        return Ok(());
    }
    let below = add_site(out, at, schema)?;
    match schema {
        Doc::Members(members) => {
            let inside = SchemaPosition {
                above: &below,
                ..at
            };
            scan_members(out, inside, Role::Keywords, members)
        }
        _ => Ok(()),
    }
}

#[cycle(scan)]
fn scan_members<'a>(
    out: &mut Vec<Site<'a>>,
    at: SchemaPosition<'_>,
    role: Role,
    members: &'a Members,
) -> Result<(), Memory>
    ensures { OnOk result (SameFront (map site_of out.new.items) (map site_of out.old.items
        ++ sites_of_members role at.entry.document at.entry.above.now.value at.entry.pointer.now.value
        (spec.members members.now))) }
{
    let mut rank = 0_u32;
    for (name, value) in members.pairs() {
        scan_member(
            out,
            SchemaPosition { rank, ..at },
            role,
            name.as_str(),
            value,
        )?;
        rank = rank.saturating_add(1);
    }
    Ok(())
}

// `at` has the pointer of the object, and the rank of the member.
#[cycle(scan)]
fn scan_member<'a>(
    out: &mut Vec<Site<'a>>,
    at: SchemaPosition<'_>,
    role: Role,
    name: &str,
    value: &'a Doc,
) -> Result<(), Memory>
    ensures { OnOk result (SameFront (map site_of out.new.items) (map site_of out.old.items
        ++ sites_of_member role at.entry.document at.entry.above.now.value at.entry.pointer.now.value
        name.now (value_of value.now))) }
{
    // Most keywords hold no schema: then no pointer is made.
    let held = holding_as(role, name);
    if matches!(held, Holding::Nothing) {
        return Ok(());
    }
    let pointer = shared_further(*out.allocator(), at.pointer, name)?;
    let below = SchemaPosition {
        pointer: &pointer,
        ..at
    };
    match (held, value) {
        (Holding::One, schema) => scan_schema(out, below, schema),
        (Holding::Listed, Doc::List(items)) => scan_items(out, below, items.as_slice()),
        (Holding::Named, Doc::Members(members)) => scan_members(out, below, Role::Schemas, members),
        _ => Ok(()),
    }
}

#[cycle(scan)]
fn scan_items<'a>(
    out: &mut Vec<Site<'a>>,
    at: SchemaPosition<'_>,
    schemas: &'a [Doc],
) -> Result<(), Memory>
    ensures { OnOk result (SameFront (map site_of out.new.items) (map site_of out.old.items
        ++ sites_of_items at.entry.document at.entry.above.now.value at.entry.pointer.now.value 0
        (spec.items (map value_of schemas.now)))) }
{
    let mut digits = itoa::Buffer::new();
    for i in 0..schemas.len() {
        let pointer = shared_further(*out.allocator(), at.pointer, digits.format(i))?;
        let item = SchemaPosition {
            pointer: &pointer,
            rank: 0,
            ..at
        };
        scan_schema(out, item, &schemas[i])?;
    }
    Ok(())
}

fn scan_document<'a>(
    alloc: Global,
    out: &mut Vec<Site<'a>>,
    number: usize,
    document: &'a Document,
) -> Result<(), Memory>
    ensures { OnOk result (SameFront (map site_of out.new.items) (map site_of out.old.items
        ++ sites_at number (root_scope document.now.uri) [] (value_of document.now.root))) }
{
    let above = BaseScope::new(Pointer::new(alloc), document.uri.clone()?, alloc)?;
    let pointer = Arc::new(alloc, Pointer::new(alloc))?;
    let root = SchemaPosition {
        document: number,
        above: &above,
        pointer: &pointer,
        rank: 0,
    };
    scan_schema(out, root, &document.root)
}

/// The places of the documents, in order: as many as a bundle may have, and one more.
///
/// # Errors
/// `Memory`.
pub(crate) fn scan_all(alloc: Global, documents: &[Document]) -> Result<Vec<Site<'_>>, Memory>
    ensures { IfOk result (λ v. map site_of v.items ≡ scanned (map document_of documents.now)) }
{
    let mut sites = Vec::new(alloc);
    for number in 0..documents.len() {
        scan_document(alloc, &mut sites, number, &documents[number])?;
    }
    sites.truncate(MOST_SITES);
    Ok(sites)
}
