//! The text of a reference, with the place to which its target has gone.
ghost use Rattle.std.specs.Prelude.{◌≡◌, ◌∷◌, ◌++◌, IfOk, None, map, option_map, string_bytes, if◌then◌else◌};
ghost use Rattle.std.specs.List.{before_first};
ghost use Rattle.std.specs.Str.{is_utf8};
ghost use Rattle.percent_encoding.specs.Percent.{percent_decode};
ghost use Rattle.js_doc.specs.PointerReading.{pointer_of};
ghost use Rattle.js_doc.specs.Seen.{value_of};
ghost use Rattle.js_upgrade.specs.Moved.{moved_tokens};
ghost use Rattle.js_upgrade.specs.AnchorName.{spelled};
ghost use Rattle.js_upgrade.specs.Reference.{at_pointer, followed, in_resource, is_older, moved_in};
ghost use Rattle.js_upgrade.specs.Reference.{respelled, respelled_in, rewritten, with_pointer, with_target};
ghost use Rattle.js_upgrade.specs.Schema.{is_mark};
ghost use Rattle.js_upgrade.specs.Seen.{resource_seen};
ghost use Rattle.js_upgrade.specs.Url.{uri_joined};
ghost use Rattle.js_upgrade.specs.code.Table.{all_of};
ghost use Rattle.js_upgrade.specs.declared.holding.SchemaHolding.TheVariants.{One};

use crate::anchor_name::{is_settled, spelled_text};
use crate::copied_target::{copied_target, copied_text};
use crate::copy_name::redirected;
use crate::definitions::{usual_target, usual_text};
use crate::dialect::Dialect;
use crate::holding::SchemaHolding;
use crate::identifier::before_mark;
use crate::moving::moved_tokens;
use crate::resource::Resource;
use crate::resource_table::{ResourceTable, resource_numbered, resource_of};
use crate::schema::own_dialect;
use crate::scope::Scope;
use crate::uri::{local_fragment, pointer_in, uri_joined};
use js_doc::{Doc, Memory, Pointer, Text};
use percent_encoding::percent_decode;
use std::alloc::Global;
use url::Url;

/// The argument of a reference.
///
/// # Errors
/// `Memory`.
pub(crate) fn rewritten(alloc: Global, scope: &Scope<'_>, value: &Doc) -> Result<Doc, Memory>
    ensures { IfOk result (λ d. value_of d
        ≡ rewritten (all_of scope.now.resources.now) scope.now.base.now (value_of value.now)) }
{
    match value {
        Doc::Text(text) => Ok(Doc::Text(text_rewritten(alloc, scope, text.as_str())?)),
        _ => value.copy(alloc),
    }
}

fn text_rewritten(alloc: Global, scope: &Scope<'_>, reference: &str) -> Result<Text, Memory>
    ensures { IfOk result (λ t. t
        ≡ followed (all_of scope.now.resources.now) reference.now (uri_joined scope.now.base.now reference.now)) }
{
    match usual_target(scope, reference) {
        Some(target) => usual_text(alloc, target, reference),
        None => text_unusual(alloc, scope, reference),
    }
}

// Of a reference that isn't usual.
fn text_unusual(alloc: Global, scope: &Scope<'_>, reference: &str) -> Result<Text, Memory>
    ensures { IfOk result (λ t. t
        ≡ followed (all_of scope.now.resources.now) reference.now (uri_joined scope.now.base.now reference.now)) }
{
    match copied_target(scope, reference) {
        Some(name) => copied_text(alloc, name),
        None => Ok(Text::new(unusual_rewritten(alloc, scope, reference)?)),
    }
}

fn unusual_rewritten(alloc: Global, scope: &Scope<'_>, reference: &str) -> Result<String, Memory>
    ensures { IfOk result (λ s. string_bytes s
        ≡ followed (all_of scope.now.resources.now) reference.now (uri_joined scope.now.base.now reference.now)) }
{
    match local_fragment(reference) {
        Some(fragment) => {
            let here = resource_numbered(scope.resources, scope.here);
            in_resource(alloc, reference, fragment, here)
        }
        None => followed(
            alloc,
            scope.resources,
            reference,
            uri_joined(scope.base, reference)?,
        ),
    }
}

// A reference that is this URI when it is joined with its base.
fn followed(
    alloc: Global,
    resources: &ResourceTable<'_>,
    reference: &str,
    uri: Option<Url>,
) -> Result<String, Memory>
    ensures { IfOk result (λ s. string_bytes s ≡ followed (all_of resources.now) reference.now uri) }
{
    match uri {
        Some(uri) => {
            let resource = resource_of(resources, &uri)?;
            in_resource(alloc, reference, uri.fragment().unwrap_or(""), resource)
        }
        None => copied(alloc, reference),
    }
}

fn copied(alloc: Global, reference: &str) -> Result<String, Memory>
    ensures { IfOk result (λ s. string_bytes s ≡ reference.now) }
{
    Ok(String::from_str(alloc, reference)?)
}

fn in_resource(
    alloc: Global,
    reference: &str,
    fragment: &str,
    resource: Option<&Resource<'_>>,
) -> Result<String, Memory>
    ensures { IfOk result (λ s. string_bytes s ≡ in_resource reference.now fragment.now
        (if is_utf8 (percent_decode fragment.now) then pointer_of (percent_decode fragment.now) else None)
        (option_map (λ r. resource_seen r.now) resource.entry)) }
{
    match pointer_in(alloc, fragment)? {
        Some(pointer) => at_pointer(alloc, reference, &pointer, resource),
        None => {
            let named = respelled(alloc, reference, fragment)?;
            respelled_in(alloc, reference, named, resource)
        }
    }
}

fn at_pointer(
    alloc: Global,
    reference: &str,
    old: &Pointer,
    resource: Option<&Resource<'_>>,
) -> Result<String, Memory>
    ensures { IfOk result (λ s. string_bytes s ≡ at_pointer reference.now old.now
        (option_map (λ r. resource_seen r.now) resource.entry)) }
{
    match resource {
        Some(resource) => {
            let new = moved_in(alloc, resource, old)?;
            with_target(alloc, reference, old, new)
        }
        None => copied(alloc, reference),
    }
}

// The name that the fragment is, as it is spelled in 2020-12.
fn respelled(alloc: Global, reference: &str, fragment: &str) -> Result<String, Memory>
    ensures { IfOk result (λ s. string_bytes s ≡ respelled reference.now (percent_decode fragment.now)) }
{
    let name = percent_decode(fragment.as_bytes()).into_cow(alloc)?;
    if is_settled(name.as_slice()) {
        copied(alloc, reference)
    } else {
        with_spelled(alloc, reference, name.as_slice())
    }
}

fn with_spelled(alloc: Global, reference: &str, name: &[u8]) -> Result<String, Memory>
    ensures { IfOk result (λ s. string_bytes s ≡ before_first is_mark reference.now ++ (35 ∷ spelled name.now)) }
{
    let name = spelled_text(alloc, name)?;
    with_fragment(alloc, reference, name.as_str())
}

fn with_fragment(alloc: Global, reference: &str, fragment: &str) -> Result<String, Memory>
    ensures { IfOk result (λ s. string_bytes s ≡ before_first is_mark reference.now ++ (35 ∷ fragment.now)) }
{
    let mut out = String::from_str(alloc, before_mark(reference))?;
    out.push_str("#")?;
    out.push_str(fragment)?;
    Ok(out)
}

fn respelled_in(
    alloc: Global,
    reference: &str,
    named: String,
    resource: Option<&Resource<'_>>,
) -> Result<String, Memory>
    ensures { IfOk result (λ s. string_bytes s ≡ respelled_in reference.now (string_bytes named)
        (option_map (λ r. resource_seen r.now) resource.entry)) }
{
    match resource {
        Some(resource) => {
            if is_older(resource.dialect, resource.root) {
                Ok(named)
            } else {
                copied(alloc, reference)
            }
        }
        None => copied(alloc, reference),
    }
}

#[tactic(auto, using(crate::proofs::Gathered::gathering_rules))]
fn is_older(dialect: Dialect, root: &Doc) -> bool
    ensures { result ≡ is_older dialect (value_of root.now) }
{
    match root {
        Doc::Members(siblings) => own_dialect(dialect, siblings).is_before(Dialect::Draft2020),
        _ => false,
    }
}

/// Where the target of a pointer in a resource goes.
///
/// # Errors
/// `Memory`.
pub(crate) fn moved_in(
    alloc: Global,
    resource: &Resource<'_>,
    pointer: &Pointer,
) -> Result<Option<Pointer>, Memory>
    ensures { IfOk result (λ p. p ≡ moved_in (resource_seen resource.now) pointer.now) }
{
    if let Some(place) = redirected(alloc, resource.dialect, resource.copies, pointer)? {
        moved_root(alloc, resource, &place)
    } else {
        moved_root(alloc, resource, pointer)
    }
}

fn moved_root(
    alloc: Global,
    resource: &Resource<'_>,
    pointer: &Pointer,
) -> Result<Option<Pointer>, Memory>
    ensures { IfOk result (λ p. p
        ≡ moved_tokens One (resource_seen resource.now).dialect (resource_seen resource.now).root pointer.now) }
{
    moved_tokens(
        alloc,
        SchemaHolding::One,
        resource.dialect,
        resource.root,
        pointer.tokens(),
    )
}

fn with_target(
    alloc: Global,
    reference: &str,
    old: &Pointer,
    new: Option<Pointer>,
) -> Result<String, Memory>
    ensures { IfOk result (λ s. string_bytes s ≡ with_target reference.now old.now new) }
{
    match new {
        Some(new) => {
            if *old == new {
                copied(alloc, reference)
            } else {
                with_pointer(alloc, reference, &new)
            }
        }
        None => copied(alloc, reference),
    }
}

fn with_pointer(alloc: Global, reference: &str, pointer: &Pointer) -> Result<String, Memory>
    ensures { IfOk result (λ s. string_bytes s ≡ with_pointer reference.now pointer.now) }
{
    let fragment = pointer.fragment(alloc)?;
    with_fragment(alloc, reference, fragment.as_str())
}
