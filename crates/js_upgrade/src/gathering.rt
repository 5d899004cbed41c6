//! Members that are gathered one after the other.
ghost use Rattle.std.specs.Prelude.{◌≡◌, OnOk, map};
ghost use Rattle.js_doc.specs.Seen.{value_of};
ghost use Rattle.js_upgrade.specs.Schema.{one, put_all, some_items, some_members};

use js_doc::{Doc, Items, Members, Memory, Text};
use std::alloc::Global;

/// Puts a value under a name.
///
/// # Errors
/// `Memory`.
pub(crate) fn put_one(
    alloc: Global,
    among: &mut Members,
    name: &str,
    value: Doc,
) -> Result<(), Memory>
    ensures { OnOk result (among.new ≡ put_all (one name.now (value_of value)) among.old) }
{
    let name = Text::from_str(alloc, name)?;
    among.put(name, value)
}

/// Puts the items under a name, if there are some.
///
/// # Errors
/// `Memory`.
#[tactic(auto, using(crate::proofs::Gathered::some_items_of))]
pub(crate) fn put_some_items(
    alloc: Global,
    among: &mut Members,
    name: &str,
    docs: Vec<Doc>,
) -> Result<(), Memory>
    ensures { OnOk result (among.new ≡ put_all (some_items name.now (map value_of docs.items)) among.old) }
{
    if docs.is_empty() {
        return Ok(());
    }
    put_one(alloc, among, name, Doc::List(Items::new(docs)))
}

/// Puts the members under a name, if there are some.
///
/// # Errors
/// `Memory`.
#[tactic(auto, using(crate::proofs::Gathered::some_members_of))]
pub(crate) fn put_some_members(
    alloc: Global,
    among: &mut Members,
    name: &str,
    members: Members,
) -> Result<(), Memory>
    ensures { OnOk result (among.new ≡ put_all (some_members name.now members) among.old) }
{
    if members.is_empty() {
        return Ok(());
    }
    put_one(alloc, among, name, Doc::Members(members))
}
