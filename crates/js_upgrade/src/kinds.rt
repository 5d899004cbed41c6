//! What is wrong with a keyword of a schema.
ghost use Rattle.std.specs.Prelude.{◌≡◌, IfOk, None, Some, is_none, option_map, option_and_then, if◌then◌else◌};
ghost use Rattle.js_doc.specs.Seen.{value_of};
ghost use Rattle.js_upgrade.specs.Fault.{anchor_kind, contained_kind, contains_kind, contains_only, declared_kind};
ghost use Rattle.js_upgrade.specs.Fault.{dialect_kind, has_recursive_name, unevaluated_kind};
ghost use Rattle.js_upgrade.specs.Fault.{identifier_kind, joined_kind, no_dialect, own_kind, part_at, recursion_kind};
ghost use Rattle.js_upgrade.specs.Fault.{recursive_kind, reference_kind, target_tokens, target_kind, unnamed};
ghost use Rattle.js_upgrade.specs.Resource.{own_base};
ghost use Rattle.js_upgrade.specs.Seen.{resource_seen};
ghost use Rattle.js_upgrade.specs.Url.{uri_joined};
ghost use Rattle.js_upgrade.specs.code.Table.{all_of};
ghost use Rattle.js_upgrade.specs.declared.fault.UpgradeFaultKind.TheVariants.{Unresolved};

use crate::containing::holder;
use crate::copied_target::copied_target;
use crate::definitions::usual_target;
use crate::dialect::Dialect;
use crate::fault::UpgradeFaultKind;
use crate::lookup::found;
use crate::resource::Resource;
use crate::resource_table::{ResourceTable, resource_numbered, resource_of};
use crate::schema::{dialect_in, hides, identifier, identifies, is_uri};
use crate::scope::Scope;
use crate::target::moved_in;
use crate::uri::{
    URI_LIMIT, fragment_pointer, local_fragment, pointer_in, uri_joined, uri_printed,
};
use js_doc::{Doc, Members, Memory, Pointer};
use std::alloc::Global;
use url::Url;

/// Of the schema's `$schema`, which counts beside an identifier.
pub(crate) fn declared_kind(dialect: Dialect, siblings: &Members) -> Option<UpgradeFaultKind>
    ensures { result ≡ declared_kind dialect siblings.now }
{
    if identifies(dialect, siblings) {
        dialect_kind(found(siblings, "$schema"))
    } else {
        None
    }
}

/// Of a `$schema`, if there is one.
pub(crate) fn dialect_kind(found: Option<&Doc>) -> Option<UpgradeFaultKind>
    ensures { result ≡ dialect_kind (option_map (λ d. value_of d.now) found.entry) }
{
    match found {
        Some(uri) => match dialect_in(uri) {
            Some(_) => None,
            None => Some(no_dialect(uri)),
        },
        None => None,
    }
}

pub(crate) fn no_dialect(uri: &Doc) -> UpgradeFaultKind
    ensures { result ≡ no_dialect (value_of uri.now) }
{
    match uri {
        Doc::Text(_) => UpgradeFaultKind::UnknownDialect,
        _ => UpgradeFaultKind::BadKeyword,
    }
}

/// Of the schema's `$recursiveRef`, which is `#`.
pub(crate) fn recursive_kind(own: Dialect, siblings: &Members) -> Option<UpgradeFaultKind>
    ensures { result ≡ recursive_kind own siblings.now }
{
    match own {
        Dialect::Draft2019 => recursion_kind(found(siblings, "$recursiveRef")),
        _ => None,
    }
}

fn recursion_kind(found: Option<&Doc>) -> Option<UpgradeFaultKind>
    ensures { result ≡ recursion_kind (option_map (λ d. value_of d.now) found.entry) }
{
    match found {
        None => None,
        Some(Doc::Text(text)) => {
            if text.as_str() == "#" {
                None
            } else {
                Some(UpgradeFaultKind::BadReference)
            }
        }
        Some(_) => Some(UpgradeFaultKind::BadKeyword),
    }
}

/// Of the schema's `contains` in 2019-09, which has to stand in a list of schemas that isn't there yet.
pub(crate) fn contains_kind(own: Dialect, siblings: &Members) -> Option<UpgradeFaultKind>
    ensures { result ≡ contains_kind own siblings.now }
{
    match own {
        Dialect::Draft2019 => {
            if siblings.get("contains").is_some() && holder(siblings) == "contains" {
                Some(UpgradeFaultKind::BadKeyword)
            } else {
                None
            }
        }
        _ => None,
    }
}

/// Of the schema's `unevaluatedItems`, where it is a keyword.
pub(crate) fn unevaluated_kind(own: Dialect, siblings: &Members) -> Option<UpgradeFaultKind>
    ensures { result ≡ unevaluated_kind own siblings.now }
{
    if own.is_before(Dialect::Draft2019) {
        return None;
    }
    if siblings.get("unevaluatedItems").is_some() {
        Some(UpgradeFaultKind::BadKeyword)
    } else {
        None
    }
}

/// Of the schema's `contains` in draft-06 and draft-07, which evaluates no items there.
pub(crate) fn contained_kind(own: Dialect, siblings: &Members) -> Option<UpgradeFaultKind>
    ensures { result ≡ contained_kind own siblings.now }
{
    if siblings.get("contains").is_some() && (contains_only(own) && !hides(own, siblings)) {
        Some(UpgradeFaultKind::BadKeyword)
    } else {
        None
    }
}

fn contains_only(own: Dialect) -> bool
    ensures { result ≡ contains_only own }
{
    matches!(own, Dialect::Draft06 | Dialect::Draft07)
}

/// Of the schema's `$dynamicAnchor`, which may not have the name that `$recursiveAnchor` gets.
pub(crate) fn anchor_kind(
    resources: &ResourceTable<'_>,
    own: Dialect,
    siblings: &Members,
) -> Option<UpgradeFaultKind>
    ensures { result ≡ anchor_kind (all_of resources.now) own siblings.now }
{
    match own {
        Dialect::Draft2020 => {
            if has_recursive_name(found(siblings, "$dynamicAnchor")) && resources.recursive {
                Some(UpgradeFaultKind::BadKeyword)
            } else {
                None
            }
        }
        _ => None,
    }
}

fn has_recursive_name(found: Option<&Doc>) -> bool
    ensures { result ≡ has_recursive_name (option_map (λ d. value_of d.now) found.entry) }
{
    match found {
        Some(Doc::Text(text)) => text.as_str() == "recursiveAnchor",
        _ => false,
    }
}

/// Of the schema's identifier, unless a reference hides it. `below` is the schema's own base: where it isn't the one
/// around the schema, the identifier could be joined.
///
/// # Errors
/// `Memory`.
pub(crate) fn own_kind(
    own: Dialect,
    base: &Url,
    below: &Url,
    siblings: &Members,
) -> Result<Option<UpgradeFaultKind>, Memory>
    requires { below.now ≡ own_base own base.now siblings.now }
    ensures { IfOk result (λ k. k ≡ own_kind own base.now siblings.now) }
{
    let uri = found(siblings, identifier(own));
    if uri.is_none() {
        return Ok(None);
    }
    if hides(own, siblings) || uri_printed(below) != uri_printed(base) {
        Ok(None)
    } else {
        identifier_kind(base, uri)
    }
}

fn identifier_kind(base: &Url, found: Option<&Doc>) -> Result<Option<UpgradeFaultKind>, Memory>
    ensures { IfOk result
        (λ k. k ≡ identifier_kind base.now (option_map (λ d. value_of d.now) found.entry)) }
{
    match found {
        None => Ok(None),
        Some(Doc::Text(text)) => {
            let identifier = text.as_str();
            if is_uri(identifier) {
                joined_kind(base, identifier)
            } else {
                Ok(None)
            }
        }
        Some(_) => Ok(Some(UpgradeFaultKind::BadKeyword)),
    }
}

fn joined_kind(base: &Url, text: &str) -> Result<Option<UpgradeFaultKind>, Memory>
    ensures { IfOk result (λ k. k ≡ joined_kind base.now text.now) }
{
    if URI_LIMIT < text.len() {
        return Ok(Some(UpgradeFaultKind::UriTooLong));
    }
    match uri_joined(base, text)? {
        Some(_) => Ok(None),
        None => Ok(Some(UpgradeFaultKind::BadId)),
    }
}

/// Of a reference, if there is one.
///
/// # Errors
/// `Memory`.
pub(crate) fn reference_kind(
    alloc: Global,
    scope: &Scope<'_>,
    found: Option<&Doc>,
) -> Result<Option<UpgradeFaultKind>, Memory>
    ensures { IfOk result (λ k. k ≡ reference_kind (all_of scope.now.resources.now) scope.now.base.now
        (option_map (λ d. value_of d.now) found.entry)) }
{
    match found {
        None => Ok(None),
        Some(Doc::Text(text)) => {
            let reference = text.as_str();
            if URI_LIMIT < reference.len() {
                return Ok(Some(UpgradeFaultKind::UriTooLong));
            }
            text_kind(alloc, scope, reference)
        }
        Some(_) => Ok(Some(UpgradeFaultKind::BadKeyword)),
    }
}

fn text_kind(
    alloc: Global,
    scope: &Scope<'_>,
    reference: &str,
) -> Result<Option<UpgradeFaultKind>, Memory>
    ensures { IfOk result (λ k. k
        ≡ target_kind (all_of scope.now.resources.now) (uri_joined scope.now.base.now reference.now)) }
{
    if usual_target(scope, reference).is_some() || copied_target(scope, reference).is_some() {
        return Ok(None);
    }
    unusual_kind(alloc, scope, reference)
}

fn unusual_kind(
    alloc: Global,
    scope: &Scope<'_>,
    reference: &str,
) -> Result<Option<UpgradeFaultKind>, Memory>
    ensures { IfOk result (λ k. k
        ≡ target_kind (all_of scope.now.resources.now) (uri_joined scope.now.base.now reference.now)) }
{
    match local_fragment(reference) {
        Some(fragment) => {
            let pointer = pointer_in(alloc, fragment)?;
            let here = resource_numbered(scope.resources, scope.here);
            Ok(unresolved(has_no_part(alloc, &pointer, here)?))
        }
        None => target_kind(alloc, scope.resources, uri_joined(scope.base, reference)?),
    }
}

fn unresolved(nowhere: bool) -> Option<UpgradeFaultKind>
    ensures { result ≡ (if nowhere then Some Unresolved else None) }
{
    if nowhere {
        Some(UpgradeFaultKind::Unresolved)
    } else {
        None
    }
}

fn target_kind(
    alloc: Global,
    resources: &ResourceTable<'_>,
    uri: Option<Url>,
) -> Result<Option<UpgradeFaultKind>, Memory>
    ensures { IfOk result (λ k. k ≡ target_kind (all_of resources.now) uri) }
{
    match uri {
        None => Ok(Some(UpgradeFaultKind::BadReference)),
        Some(uri) => Ok(unresolved(leads_nowhere(alloc, resources, uri)?)),
    }
}

fn leads_nowhere(alloc: Global, resources: &ResourceTable<'_>, uri: Url) -> Result<bool, Memory>
    ensures { IfOk result (λ b. b ≡ is_none (target_tokens (all_of resources.now) uri)) }
{
    let pointer = fragment_pointer(alloc, &uri)?;
    has_no_part(alloc, &pointer, resource_of(resources, &uri)?)
}

fn has_no_part(
    alloc: Global,
    pointer: &Option<Pointer>,
    resource: Option<&Resource<'_>>,
) -> Result<bool, Memory>
    ensures { IfOk result (λ b. b ≡ is_none (option_and_then (part_at pointer.now)
        (option_map (λ r. resource_seen r.now) resource.entry))) }
{
    match resource {
        Some(resource) => match pointer {
            Some(pointer) => Ok(moved_in(alloc, resource, pointer)?.is_none()),
            None => Ok(false),
        },
        None => Ok(true),
    }
}
