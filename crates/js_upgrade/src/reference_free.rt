//! Values whose references lead to nothing that is copied, wherever they stand: no object in them has a `$ref` whose
//! fragment is a pointer below a root.
ghost use Rattle.std.specs.Prelude.{◌≡◌, option_map, true};
ghost use Rattle.js_doc.specs.Seen.{value_of};
ghost use Rattle.js_doc.specs.Value.{items, list, members, object};
ghost use Rattle.js_upgrade.specs.code.ReferenceFree.{AreFreeItems, AreFreeMembers, IsFree, LeadsToNoPart};

use crate::copy_name::is_rooted;
use crate::identifier::after_mark;
use crate::lookup::found;
use js_doc::{Doc, Items, Members};

/// Whether no object in the value has a `$ref` whose fragment is a pointer below a root.
#[cycle(free)]
pub(crate) fn is_reference_free(value: &Doc) -> bool
    ensures { result ≡ true → IsFree (value_of value.now) }
{
    match value {
        Doc::Members(members) => is_free_object(members),
        Doc::List(items) => are_free_items(items),
        _ => true,
    }
}

#[cycle(free)]
fn is_free_object(siblings: &Members) -> bool
    ensures { result ≡ true → IsFree (object (members siblings.now)) }
{
    leads_to_no_part(found(siblings, "$ref")) && are_free_members(siblings)
}

fn leads_to_no_part(found: Option<&Doc>) -> bool
    ensures { result ≡ true → LeadsToNoPart (option_map (λ d. value_of d.now) found.entry) }
{
    match found {
        Some(Doc::Text(reference)) => !is_rooted(after_mark(reference.as_str())),
        _ => true,
    }
}

#[cycle(free)]
fn are_free_members(siblings: &Members) -> bool
    ensures { result ≡ true → AreFreeMembers (members siblings.now) }
{
    for (_, value) in siblings.pairs() {
        if !is_reference_free(value) {
            return false;
        }
    }
    true
}

#[cycle(free)]
fn are_free_items(values: &Items) -> bool
    ensures { result ≡ true → IsFree (list (items values.now)) }
{
    let docs = values.as_slice();
    for i in 0..docs.len() {
        if !is_reference_free(&docs[i]) {
            return false;
        }
    }
    true
}
