//! Documents that are upgraded together: a reference of one may lead into another.
ghost use Rattle.std.specs.Prelude.{◌≡◌, IfErr, IfOk, OnOk, None, Some, ◌++◌, false, map, true};
ghost use Rattle.std.specs.List.{list_any};
ghost use Rattle.js_doc.specs.Seen.{value_of};
ghost use Rattle.js_upgrade.specs.Copies.{sources_with};
ghost use Rattle.js_upgrade.specs.Documents.{all_resources, all_upgraded, source_dialect};
ghost use Rattle.js_upgrade.specs.Documents.{source_resources, upgraded_among, upgraded_with};
ghost use Rattle.js_upgrade.specs.Fault.{fault_with, first_fault, IsUpgradeFault, IsStoppedBy};
ghost use Rattle.js_upgrade.specs.Seen.{copies_seen, resource_seen, source_of};
ghost use Rattle.js_upgrade.specs.code.Clear.{AreFaultless, all_roots};
ghost use Rattle.js_upgrade.specs.code.Copied.{has_some};
ghost use Rattle.js_upgrade.specs.code.Table.{all_of};

use crate::checking::{clear_fault, fault_among};
use crate::clear_documents::{all_roots, are_clear};
use crate::copies::{copies_at, copies_of, document_roots, has_some, sources_with};
use crate::dialect::Dialect;
use crate::document::{declaring, document_dialect};
use crate::fault::{Stop, UpgradeFault, fault_of};
use crate::recursion::{anchored, has_recursion};
use crate::resource::Resource;
use crate::resource_table::{ResourceTable, table_of};
use crate::resources::push_document_resources;
use crate::scope::{Scope, number_here};
use crate::uncopied::in_original;
use crate::walking::upgraded_in;
use js_doc::{Doc, Members, Memory};
use std::alloc::Global;
use url::Url;

/// A document, its URI without a fragment, and the dialect that is assumed where it names none.
#[derive(Drop)]
pub struct SourceDocument {
    pub uri: Url,
    pub assumed: Dialect,
    pub root: Doc,
}

/// The documents as ones of 2020-12, in order, with their references rewritten to where their targets stand.
///
/// # Errors
/// The first fault: `TooManyDocuments`, of the document 1,000; of each document `UnknownDialect` and `BadKeyword`
/// (`$schema`), `BadKeyword`, `UriTooLong` and `BadId` (identifiers); `DuplicateUri` of a document; of each document
/// `BadKeyword`, `UriTooLong`, `BadReference` and `Unresolved` (`$ref`), `BadKeyword` and `BadReference`
/// (`$recursiveRef`), and `BadKeyword` (`contains`, `$dynamicAnchor`). A schema comes before those that it holds, and
/// those by name or index ascending. `Memory` may come at any point; its document is 0, and its place the empty
/// pointer.
pub fn upgrade_all(alloc: Global, sources: &[SourceDocument]) -> Result<Vec<Doc>, UpgradeFault>
    ensures ok { IfOk result (λ v. all_upgraded (map source_of sources.now) ≡ Some (map value_of v.items)) }
    ensures clear { OnOk result (first_fault (map source_of sources.now) ≡ None) }
    ensures err { IfErr result (IsUpgradeFault (first_fault (map source_of sources.now))) }
{
    match all_upgraded(alloc, sources) {
        Ok(documents) => Ok(documents),
        Err(stop) => Err(fault_of(alloc, stop)),
    }
}

fn all_upgraded(alloc: Global, sources: &[SourceDocument]) -> Result<Vec<Doc>, Stop>
    ensures ok { IfOk result (λ v. all_upgraded (map source_of sources.now) ≡ Some (map value_of v.items)) }
    ensures clear { OnOk result (first_fault (map source_of sources.now) ≡ None) }
    ensures err { IfErr result (IsStoppedBy (first_fault (map source_of sources.now))) }
{
    let roots = table_of(alloc, document_roots(alloc, sources)?)?;
    let own_roots = table_of(alloc, all_roots(alloc, sources)?)?;
    let clear = are_clear(alloc, &roots, &own_roots, sources)?;
    let found = copies_of(alloc, clear, &roots, sources)?;
    let copies = found.as_slice();
    match upgraded_copied(alloc, clear, copies, &own_roots, sources) {
        Ok(documents) => Ok(documents),
        Err(Stop::Fault(fault)) => Err(Stop::Fault(in_original(alloc, copies, sources, fault)?)),
        Err(Stop::Memory) => Err(Stop::Memory),
    }
}

// With their copies.
fn upgraded_copied(
    alloc: Global,
    clear: bool,
    copies: &[Members],
    own_roots: &ResourceTable<'_>,
    sources: &[SourceDocument],
) -> Result<Vec<Doc>, Stop>
    requires roots { all_of own_roots.now ≡ all_roots (map source_of sources.now) }
    requires clear { clear ≡ true → AreFaultless (all_of own_roots.now) 0 (map source_of sources.now) }
    ensures ok { IfOk result (λ v. upgraded_with copies.now (sources_with copies.now (map source_of sources.now))
        ≡ Some (map value_of v.items)) }
    ensures clear { OnOk result
        (fault_with copies.now (sources_with copies.now (map source_of sources.now)) ≡ None) }
    ensures err { IfErr result
        (IsStoppedBy (fault_with copies.now (sources_with copies.now (map source_of sources.now)))) }
{
    if has_some(copies) {
        let copied = sources_with(alloc, copies, sources)?;
        upgraded_among_all(alloc, copies, copied.as_slice())
    } else {
        upgraded_uncopied(alloc, clear, copies, own_roots, sources)
    }
}

// Without copies.
fn upgraded_uncopied(
    alloc: Global,
    clear: bool,
    copies: &[Members],
    own_roots: &ResourceTable<'_>,
    sources: &[SourceDocument],
) -> Result<Vec<Doc>, Stop>
    requires roots { all_of own_roots.now ≡ all_roots (map source_of sources.now) }
    requires clear { clear ≡ true → AreFaultless (all_of own_roots.now) 0 (map source_of sources.now) }
    requires uncopied { list_any has_some copies.now ≡ false }
    ensures ok { IfOk result (λ v. upgraded_with copies.now (map source_of sources.now)
        ≡ Some (map value_of v.items)) }
    ensures clear { OnOk result (fault_with copies.now (map source_of sources.now) ≡ None) }
    ensures err { IfErr result (IsStoppedBy (fault_with copies.now (map source_of sources.now))) }
{
    if clear {
        clear_upgraded(alloc, copies, own_roots, sources)
    } else {
        upgraded_among_all(alloc, copies, sources)
    }
}

// Where they are clear, and have no copies.
fn clear_upgraded(
    alloc: Global,
    copies: &[Members],
    roots: &ResourceTable<'_>,
    sources: &[SourceDocument],
) -> Result<Vec<Doc>, Stop>
    requires roots { all_of roots.now ≡ all_roots (map source_of sources.now) }
    requires clear { AreFaultless (all_of roots.now) 0 (map source_of sources.now) }
    requires uncopied { list_any has_some copies.now ≡ false }
    ensures ok { IfOk result (λ v. upgraded_with copies.now (map source_of sources.now)
        ≡ Some (map value_of v.items)) }
    ensures clear { OnOk result (fault_with copies.now (map source_of sources.now) ≡ None) }
    ensures err { IfErr result (IsStoppedBy (fault_with copies.now (map source_of sources.now))) }
{
    match clear_fault(alloc, roots, sources)? {
        Some(fault) => Err(Stop::Fault(fault)),
        None => Ok(upgraded_clear(alloc, copies, roots, sources)?),
    }
}

// Among all their resources.
fn upgraded_among_all(
    alloc: Global,
    copies: &[Members],
    sources: &[SourceDocument],
) -> Result<Vec<Doc>, Stop>
    ensures ok { IfOk result (λ v. upgraded_with copies.now (map source_of sources.now)
        ≡ Some (map value_of v.items)) }
    ensures clear { OnOk result (fault_with copies.now (map source_of sources.now) ≡ None) }
    ensures err { IfErr result (IsStoppedBy (fault_with copies.now (map source_of sources.now))) }
{
    let resources = all_resources(alloc, copies, sources)?;
    let table = table_of(alloc, resources)?;
    match fault_among(alloc, &table, sources)? {
        Some(fault) => Err(Stop::Fault(fault)),
        None => Ok(upgraded_clear(alloc, copies, &table, sources)?),
    }
}

// Where they have no fault.
fn upgraded_clear(
    alloc: Global,
    copies: &[Members],
    resources: &ResourceTable<'_>,
    sources: &[SourceDocument],
) -> Result<Vec<Doc>, Memory>
    requires resources { all_of resources.now ≡ all_resources copies.now (map source_of sources.now) }
    requires clear { fault_with copies.now (map source_of sources.now) ≡ None }
    ensures { IfOk result (λ v. upgraded_with copies.now (map source_of sources.now)
        ≡ Some (map value_of v.items)) }
{
    each_upgraded(alloc, resources, sources)
}

pub(crate) fn source_dialect(source: &SourceDocument) -> Option<Dialect>
    ensures { result ≡ source_dialect (source_of source.now) }
{
    document_dialect(source.assumed, &source.root)
}

fn each_upgraded(
    alloc: Global,
    resources: &ResourceTable<'_>,
    sources: &[SourceDocument],
) -> Result<Vec<Doc>, Memory>
    ensures { IfOk result (λ v. map value_of v.items
        ≡ map (upgraded_among (all_of resources.now)) (map source_of sources.now)) }
{
    let mut upgraded = Vec::with_capacity(alloc, sources.len())?;
    for source in sources {
        upgraded.push(upgraded_among(alloc, resources, source)?)?;
    }
    Ok(upgraded)
}

fn upgraded_among(
    alloc: Global,
    resources: &ResourceTable<'_>,
    source: &SourceDocument,
) -> Result<Doc, Memory>
    ensures { IfOk result (λ d. value_of d ≡ upgraded_among (all_of resources.now) (source_of source.now)) }
{
    match source_dialect(source) {
        Some(dialect) => {
            let scope = Scope {
                resources,
                base: &source.uri,
                here: number_here(resources, &source.uri)?,
            };
            let root = upgraded_in(alloc, &scope, dialect, &source.root)?;
            let upgraded = declaring(alloc, dialect, root)?;
            anchored(alloc, has_recursion(dialect, &source.root), upgraded)
        }
        None => source.root.copy(alloc),
    }
}

fn all_resources<'d>(
    alloc: Global,
    copies: &'d [Members],
    sources: &'d [SourceDocument],
) -> Result<Vec<Resource<'d>>, Memory>
    ensures { IfOk result (λ v. map resource_seen v.items ≡ all_resources copies.now (map source_of sources.now)) }
{
    let mut found = Vec::new(alloc);
    for i in 0..sources.len() {
        push_source_resources(alloc, &mut found, copies_at(copies, i), &sources[i])?;
    }
    Ok(found)
}

fn push_source_resources<'d>(
    alloc: Global,
    out: &mut Vec<Resource<'d>>,
    copies: Option<&'d Members>,
    source: &'d SourceDocument,
) -> Result<(), Memory>
    ensures { OnOk result (map resource_seen out.new.items ≡ map resource_seen out.old.items
        ++ source_resources (copies_seen copies.entry) (source_of source.now)) }
{
    match source_dialect(source) {
        Some(dialect) => {
            push_document_resources(alloc, out, copies, dialect, &source.uri, &source.root)
        }
        None => Ok(()),
    }
}
