//! `$recursiveRef` and `$recursiveAnchor` of 2019-09 (Core, 8.2.4.2).
ghost use Rattle.std.specs.Prelude.{◌≡◌, OnOk, IfOk, map, option_map};
ghost use Rattle.js_doc.specs.Parts.{members_of};
ghost use Rattle.js_doc.specs.Seen.{value_of};
ghost use Rattle.js_upgrade.specs.Documents.{anchored, with_anchor};
ghost use Rattle.js_upgrade.specs.Reference.{recursion_rewritten, recurses_at};
ghost use Rattle.js_upgrade.specs.Resource.{has_recursion, is_recursive, recurses};
ghost use Rattle.js_upgrade.specs.Schema.{put_all, recursive_anchor, recursive_name};
ghost use Rattle.js_upgrade.specs.Seen.{resource_seen};
ghost use Rattle.js_upgrade.specs.code.Table.{all_of};

use crate::dialect::Dialect;
use crate::gathering::put_one;
use crate::pieces::{has_true, is_truth};
use crate::resource::Resource;
use crate::resource_table::{ResourceTable, resource_named};
use crate::schema::{is_identifier, own_dialect};
use crate::uri::uri_printed;
use js_doc::{Doc, Members, Memory, Text};
use std::alloc::Global;
use url::Url;

/// `$recursiveAnchor` of a schema with an identifier.
///
/// # Errors
/// `Memory`.
pub(crate) fn put_recursive_anchor(
    alloc: Global,
    among: &mut Members,
    siblings: &Members,
    value: &Doc,
) -> Result<(), Memory>
    ensures { OnOk result (among.new ≡ put_all (recursive_anchor siblings.now (value_of value.now)) among.old) }
{
    if is_truth(value) && is_identifier(siblings.get("$id")) {
        put_one(alloc, among, "$dynamicAnchor", recursive_name(alloc)?)
    } else {
        Ok(())
    }
}

fn recursive_name(alloc: Global) -> Result<Doc, Memory>
    ensures { IfOk result (λ d. value_of d ≡ recursive_name) }
{
    let name = Text::from_str(alloc, "recursiveAnchor")?;
    Ok(Doc::Text(name))
}

/// The root of a document, with a dynamic anchor if it is recursive.
///
/// # Errors
/// `Memory`.
pub(crate) fn anchored(alloc: Global, recursive: bool, root: Doc) -> Result<Doc, Memory>
    ensures { IfOk result (λ d. value_of d ≡ anchored recursive (value_of root)) }
{
    if recursive {
        with_anchor(alloc, root)
    } else {
        Ok(root)
    }
}

#[tactic(auto, using(crate::proofs::Gathered::gathering_rules))]
fn with_anchor(alloc: Global, value: Doc) -> Result<Doc, Memory>
    ensures { IfOk result (λ d. value_of d ≡ with_anchor (value_of value)) }
{
    match value {
        Doc::Members(members) => {
            let mut members = members;
            put_one(
                alloc,
                &mut members,
                "$dynamicAnchor",
                recursive_name(alloc)?,
            )?;
            Ok(Doc::Members(members))
        }
        other => Ok(other),
    }
}

/// The argument of `$recursiveRef`.
///
/// # Errors
/// `Memory`.
pub(crate) fn recursion_rewritten(
    alloc: Global,
    resources: &ResourceTable<'_>,
    base: &Url,
    value: &Doc,
) -> Result<Doc, Memory>
    ensures { IfOk result (λ d. value_of d
        ≡ recursion_rewritten (all_of resources.now) base.now (value_of value.now)) }
{
    if recurses_at(resource_named(resources, uri_printed(base))) {
        let reference = Text::from_str(alloc, "#recursiveAnchor")?;
        Ok(Doc::Text(reference))
    } else {
        value.copy(alloc)
    }
}

fn recurses_at(found: Option<&Resource<'_>>) -> bool
    ensures { result ≡ recurses_at (option_map (λ r. resource_seen r.now) found.entry) }
{
    match found {
        Some(resource) => recurses(resource),
        None => false,
    }
}

/// Whether the root of the resource has `$recursiveAnchor`.
pub(crate) fn recurses(resource: &Resource<'_>) -> bool
    ensures { result ≡ recurses (resource_seen resource.now) }
{
    has_recursion(resource.dialect, resource.root)
}

/// The same of a root, by the dialect around it.
#[tactic(auto, using(crate::proofs::Gathered::gathering_rules))]
pub(crate) fn has_recursion(dialect: Dialect, root: &Doc) -> bool
    ensures { result ≡ has_recursion dialect (value_of root.now) }
{
    match root {
        Doc::Members(members) => is_recursive(own_dialect(dialect, members), members),
        _ => false,
    }
}

fn is_recursive(own: Dialect, siblings: &Members) -> bool
    ensures { result ≡ is_recursive own siblings.now }
{
    match own {
        Dialect::Draft2019 => has_true(siblings, "$recursiveAnchor"),
        _ => false,
    }
}
