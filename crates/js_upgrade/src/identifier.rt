//! Identifiers of the drafts before 2019-09: a URI, and as its fragment a name for the schema.
ghost use Rattle.std.specs.Prelude.{◌≡◌, ◌++◌, IfOk, OnOk};
ghost use Rattle.std.specs.List.{after_first, before_first};
ghost use Rattle.percent_encoding.specs.Percent.{percent_decode};
ghost use Rattle.js_doc.specs.Seen.{value_of};
ghost use Rattle.js_upgrade.specs.AnchorName.{anchor_name};
ghost use Rattle.js_upgrade.specs.Schema.{identifier_upgraded, is_mark, put_all, some_name, some_uri};

use crate::anchor_name::anchor_name;
use crate::copy_name::is_rooted;
use crate::gathering::put_one;
use js_doc::{Doc, Members, Memory, Text};
use percent_encoding::percent_decode;
use std::alloc::Global;

/// `$id` and `$anchor`, as far as the identifier has them.
///
/// # Errors
/// `Memory`.
#[tactic(auto, using(crate::proofs::Gathered::gathering_rules))]
pub(crate) fn put_identifier(alloc: Global, among: &mut Members, value: Doc) -> Result<(), Memory>
    ensures { OnOk result (among.new ≡ put_all (identifier_upgraded (value_of value)) among.old) }
{
    match value {
        Doc::Text(text) => put_parts(alloc, among, text.as_str()),
        other => put_one(alloc, among, "$id", other),
    }
}

#[tactic(auto, using(crate::proofs::Gathered::gathering_rules))]
fn put_parts(alloc: Global, among: &mut Members, identifier: &str) -> Result<(), Memory>
    ensures { OnOk result (among.new ≡ put_all (some_uri (before_first is_mark identifier.now)
        ++ some_name (after_first is_mark identifier.now)) among.old) }
{
    put_uri(alloc, among, before_mark(identifier))?;
    put_name(alloc, among, after_mark(identifier))
}

/// What stands before the first `#`, or all.
pub(crate) fn before_mark(text: &str) -> &str
    ensures { result.now ≡ before_first is_mark text.now }
{
    match text.split_once('#') {
        Some((before, _)) => before,
        None => text,
    }
}

/// What stands behind the first `#`, or nothing.
pub(crate) fn after_mark(text: &str) -> &str
    ensures { result.now ≡ after_first is_mark text.now }
{
    match text.split_once('#') {
        Some((_, after)) => after,
        None => "",
    }
}

fn put_uri(alloc: Global, among: &mut Members, uri: &str) -> Result<(), Memory>
    ensures { OnOk result (among.new ≡ put_all (some_uri uri.now) among.old) }
{
    if uri.is_empty() {
        return Ok(());
    }
    let uri = Text::from_str(alloc, uri)?;
    put_one(alloc, among, "$id", Doc::Text(uri))
}

fn put_name(alloc: Global, among: &mut Members, fragment: &str) -> Result<(), Memory>
    ensures { OnOk result (among.new ≡ put_all (some_name fragment.now) among.old) }
{
    if fragment.is_empty() || is_rooted(fragment) {
        return Ok(());
    }
    let name = name_in(alloc, fragment)?;
    put_one(alloc, among, "$anchor", Doc::Text(name))
}

// The name that a fragment is, in 2020-12.
fn name_in(alloc: Global, fragment: &str) -> Result<Text, Memory>
    ensures { IfOk result (λ t. t ≡ anchor_name (percent_decode fragment.now)) }
{
    let name = percent_decode(fragment.as_bytes()).into_cow(alloc)?;
    anchor_name(alloc, name.as_slice())
}
