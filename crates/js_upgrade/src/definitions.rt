//! References to definitions of their own resource, as most are written: `#/definitions/` or `#/$defs/`, and a name.
ghost use Rattle.std.specs.Prelude.{◌≡◌, ◌++◌, [], IfOk, IfSome, None, Some, codes, false, length, nat_lt, option_map};
ghost use Rattle.std.specs.Prelude.{true};
ghost use Rattle.std.specs.List.{list_all};
ghost use Rattle.js_doc.specs.Members.{get};
ghost use Rattle.js_doc.specs.Seen.{value_of};
ghost use Rattle.js_doc.specs.Value.{Text as Bytes};
ghost use Rattle.js_upgrade.specs.Copies.{Copies, copied_for_text};
ghost use Rattle.js_upgrade.specs.Fault.{target_kind};
ghost use Rattle.js_upgrade.specs.Reference.{followed};
ghost use Rattle.js_upgrade.specs.Seen.{copies_seen, resource_seen};
ghost use Rattle.js_upgrade.specs.Url.{uri_joined, uri_limit};
ghost use Rattle.js_upgrade.specs.code.Table.{all_of};
ghost use Rattle.js_upgrade.specs.code.Usual.{IsUncopied, IsUsualTarget, is_usual_byte, plain_name, usual_name};
ghost use Rattle.js_upgrade.specs.code.Usual.{usual_prefix, usual_text};
ghost use Rattle.js_upgrade.specs.code.UsualRoot.{has_in, holds_members, is_usual_root};

use crate::copy_name::definitions_name;
use crate::dialect::{Dialect, after_prefix};
use crate::resource::Resource;
use crate::resource_table::resource_numbered;
use crate::schema::own_dialect;
use crate::scope::Scope;
use arrayvec::ArrayString;
use js_doc::{Doc, Members, Memory, Text};
use std::alloc::Global;

/// A longer name isn't looked at here.
const NAME_LIMIT: usize = 60_000;

/// Whether references to the definitions of a root are usual: it is of the dialect around it, and has some.
#[tactic(auto, using(crate::proofs::Gathered::gathering_rules))]
pub(crate) fn is_usual_root(dialect: Dialect, root: &Doc) -> bool
    ensures { result ≡ is_usual_root dialect (value_of root.now) }
{
    match root {
        Doc::Members(siblings) => {
            own_dialect(dialect, siblings).is_draft(dialect)
                && holds_members(siblings.get(definitions_name(dialect)))
        }
        _ => false,
    }
}

fn holds_members(found: Option<&Doc>) -> bool
    ensures { result ≡ holds_members (option_map (λ d. value_of d.now) found.entry) }
{
    matches!(found, Some(Doc::Members(_)))
}

fn has_copies(copies: Option<&Members>) -> bool
    ensures { result ≡ false → copies_seen copies.entry ≡ [] }
{
    match copies {
        Some(copies) => !copies.is_empty(),
        None => false,
    }
}

/// The name of a definition, in a reference as most are written.
fn usual_name(dialect: Dialect, reference: &str) -> Option<&str>
    ensures { option_map (λ n. n.now) result ≡ usual_name dialect reference.now }
{
    match after_prefix(usual_prefix(dialect), reference) {
        Some(name) => plain_name(name),
        None => None,
    }
}

fn usual_prefix(dialect: Dialect) -> &'static str
    ensures { result.now ≡ usual_prefix dialect }
{
    if dialect.is_before(Dialect::Draft2019) {
        "#/definitions/"
    } else {
        "#/$defs/"
    }
}

// A name that is written as it is in a fragment.
fn plain_name(name: &str) -> Option<&str>
    ensures { option_map (λ n. n.now) result ≡ plain_name name.now }
{
    if name.len() <= NAME_LIMIT && are_usual_bytes(name.as_bytes()) {
        Some(name)
    } else {
        None
    }
}

fn are_usual_bytes(bytes: &[u8]) -> bool
    ensures { result ≡ list_all is_usual_byte bytes.now }
{
    bytes.iter().all(|byte| is_usual_byte(*byte))
}

// Letters, digits, `$`, `-`, `.`, `_` and `:`.
fn is_usual_byte(byte: u8) -> bool
    ensures { result ≡ is_usual_byte byte }
{
    (byte.is_ascii_alphanumeric()
        || (byte == b'$' || (byte == b'-' || (byte == b'.' || byte == b'_'))))
        || byte == b':'
}

/// Whether the reference is a usual one: then it leads to nothing that is copied.
pub(crate) fn is_usual(scope: &Scope<'_>, reference: &str) -> bool
    ensures { result ≡ true → (copies : Copies) → copied_for_text (all_of scope.now.resources.now)
        scope.now.base.now reference.now copies ≡ copies }
{
    match resource_numbered(scope.resources, scope.here) {
        Some(root) => root.usual && usual_name(root.dialect, reference).is_some(),
        None => false,
    }
}

/// Whether a reference with this target is a usual one here too: then it leads to nothing that is copied.
pub(crate) fn is_usual_too(scope: &Scope<'_>, target: UsualTarget<'_>) -> bool
    ensures { (t : Bytes) → usual_name target.entry.dialect t ≡ Some target.entry.name.now → result ≡ true
        → (copies : Copies) → copied_for_text (all_of scope.now.resources.now) scope.now.base.now t copies
        ≡ copies }
{
    match resource_numbered(scope.resources, scope.here) {
        Some(root) => root.usual && root.dialect.is_draft(target.dialect),
        None => false,
    }
}

/// Whether the reference is `#`, and leads to the root of its resource.
pub(crate) fn leads_to_root(scope: &Scope<'_>, reference: &str) -> bool
    ensures leads { result ≡ true → target_kind (all_of scope.now.resources.now)
        (uri_joined scope.now.base.now reference.now) ≡ None }
    ensures copies { result ≡ true → IsUncopied reference.now }
{
    match resource_numbered(scope.resources, scope.here) {
        Some(resource) => reference == "#" && !has_copies(resource.copies),
        None => false,
    }
}

/// The target of a usual reference: a definition that is there.
#[derive(Clone, Copy)]
pub(crate) struct UsualTarget<'t> {
    /// That of the resource: before 2019-09 it moves to `$defs`.
    pub dialect: Dialect,
    pub name: &'t str,
}

/// Where the reference leads, if it is a usual one. None where its target has to be looked for.
pub(crate) fn usual_target<'t>(scope: &Scope<'_>, reference: &'t str) -> Option<UsualTarget<'t>>
    ensures short { IfSome result (λ t. nat_lt uri_limit (length reference.now) ≡ false) }
    ensures follows { IfSome result (λ t. followed (all_of scope.now.resources.now) reference.now
        (uri_joined scope.now.base.now reference.now) ≡ usual_text t.dialect reference.now t.name.now) }
    ensures leads { IfSome result (λ t. target_kind (all_of scope.now.resources.now)
        (uri_joined scope.now.base.now reference.now) ≡ None) }
    ensures named { IfSome result (λ t. usual_name t.dialect reference.now ≡ Some t.name.now) }
{
    match resource_numbered(scope.resources, scope.here) {
        Some(resource) => target_in(resource, reference),
        None => None,
    }
}

fn target_in<'t>(resource: &Resource<'_>, reference: &'t str) -> Option<UsualTarget<'t>>
    ensures { IfSome result (IsUsualTarget (resource_seen resource.now) reference.now) }
{
    if !resource.usual || has_copies(resource.copies) {
        return None;
    }
    let name = usual_name(resource.dialect, reference)?;
    if !has_in(resource.definitions, name) {
        return None;
    }
    Some(UsualTarget {
        dialect: resource.dialect,
        name,
    })
}

/// Whether the definitions have the name.
pub(crate) fn has_in(definitions: Option<&Members>, name: &str) -> bool
    ensures { result ≡ has_in definitions.entry name.now }
{
    match definitions {
        Some(members) => members.get(name).is_some(),
        None => false,
    }
}

/// The text of a usual reference in 2020-12.
///
/// # Errors
/// `Memory`.
pub(crate) fn usual_text(
    alloc: Global,
    target: UsualTarget<'_>,
    reference: &str,
) -> Result<Text, Memory>
    ensures { IfOk result (λ t. t ≡ usual_text target.entry.dialect reference.now target.entry.name.now) }
{
    if target.dialect.is_before(Dialect::Draft2019) {
        moved_text(alloc, target.name)
    } else {
        Text::from_str(alloc, reference)
    }
}

// Most names are short: then no memory is allocated for what is put together.
fn moved_text(alloc: Global, name: &str) -> Result<Text, Memory>
    ensures { IfOk result (λ t. t ≡ codes "#/$defs/" ++ name.now) }
{
    if name.len() <= 56 {
        let mut short: ArrayString<64> = ArrayString::new();
        short.push_str("#/$defs/");
        short.push_str(name);
        return Text::from_str(alloc, short.as_str());
    }
    let mut text = String::with_capacity(alloc, name.len().saturating_add(8))?;
    text.push_str("#/$defs/")?;
    text.push_str(name)?;
    Ok(Text::new(text))
}
