//! `properties` of draft-03, whose members say which of them are required (sections 5.2 and 5.7).
ghost use Rattle.std.specs.Prelude.{◌≡◌, [], ◌∷◌, ◌++◌, OnOk, IfOk, codes, map};
ghost use Rattle.js_doc.specs.Members.{get};
ghost use Rattle.js_doc.specs.Parts.{members_of};
ghost use Rattle.js_doc.specs.Seen.{value_of};
ghost use Rattle.js_upgrade.specs.Schema.{is_true, members_found, one, put_all, required_names, some_items};

use crate::gathering::{put_one, put_some_items};
use crate::pieces::has_true;
use js_doc::{Doc, Members, Memory, Text};
use std::alloc::Global;

/// `properties`, and `required` if some are.
///
/// # Errors
/// `Memory`.
#[tactic(auto, using(crate::proofs::Gathered::gathering_rules))]
pub(crate) fn put_properties(
    alloc: Global,
    among: &mut Members,
    siblings: &Members,
    value: Doc,
) -> Result<(), Memory>
    ensures { OnOk result (among.new ≡ put_all (one (codes "properties") (value_of value)
        ++ some_items (codes "required") (required_names (members_found (get (codes "properties") siblings.now))))
        among.old) }
{
    let names = names_beside(alloc, siblings)?;
    put_one(alloc, among, "properties", value)?;
    put_some_items(alloc, among, "required", names)
}

#[tactic(auto, using(crate::proofs::Gathered::gathering_rules))]
fn names_beside(alloc: Global, siblings: &Members) -> Result<Vec<Doc>, Memory>
    ensures { IfOk result (λ v. map value_of v.items
        ≡ required_names (members_found (get (codes "properties") siblings.now))) }
{
    match siblings.get("properties") {
        Some(Doc::Members(members)) => names_of(alloc, members),
        _ => Ok(Vec::new(alloc)),
    }
}

fn names_of(alloc: Global, members: &Members) -> Result<Vec<Doc>, Memory>
    ensures { IfOk result (λ v. map value_of v.items ≡ required_names members.now) }
{
    let mut names = Vec::new(alloc);
    for (name, value) in members.pairs() {
        push_required(alloc, &mut names, name.as_str(), value)?;
    }
    Ok(names)
}

fn push_required(alloc: Global, names: &mut Vec<Doc>, name: &str, value: &Doc) -> Result<(), Memory>
    ensures { OnOk result (map value_of names.new.items
        ≡ map value_of names.old.items ++ required_names ((name.now, value_of value.now) ∷ [])) }
{
    if is_required(value) {
        names.push(Doc::Text(Text::from_str(alloc, name)?))?;
    }
    Ok(())
}

#[tactic(auto, using(crate::proofs::Gathered::gathering_rules))]
fn is_required(value: &Doc) -> bool
    ensures { result ≡ is_true (get (codes "required") (members_of (value_of value.now))) }
{
    match value {
        Doc::Members(members) => has_true(members, "required"),
        _ => false,
    }
}
