//! BaseScopes: the resource that a schema stands in, and its base.
ghost use Rattle.std.specs.Prelude.{◌≡◌, IfOk, unwrap_or, is_some, option_copied, option_and_then};
ghost use Rattle.js_doc.specs.Seen.{value_of};
ghost use Rattle.js_bundle.specs.Resource.{joined, identified, identified_by, scope_or};
ghost use Rattle.js_bundle.specs.code.Scan.{passed_down, own_scope};
ghost use Rattle.js_bundle.specs.code.Identity.{is_bare, is_bare_by};

use crate::keyword::{argument, as_text};
use crate::uri::{LONGEST, has_no_fragment, without_fragment};
use js_doc::{Doc, Memory, Pointer};
use js_keyword::OtherKeyword;
use std::alloc::Global;
use std::sync::Arc;
use url::{ParseError, Url};

/// The resource that a schema stands in: the pointer of its root, and its base (JSON Schema Core, section 8.2.1).
pub(crate) struct BaseScope {
    pub(crate) resource: Pointer,
    pub(crate) base: Url,
}

// By hand, so that it is proved here alone, and crates that own base scopes call it.
impl Drop for BaseScope {
    fn drop(self) {
        let BaseScope { resource, base } = self;
    }
}

/// The base scope of a place itself, and of what stands below it.
#[derive(Drop)]
pub(crate) struct BaseScopes {
    pub(crate) own: Arc<BaseScope>,
    pub(crate) below: Arc<BaseScope>,
    /// Whether the `$id` makes a base.
    pub(crate) identifies: bool,
    /// Whether the `$id` gives a URI without a fragment, or with an empty one.
    pub(crate) bare: bool,
}

/// What an `$id` gives.
struct Identity {
    base: Option<Url>,
    bare: bool,
}

impl BaseScope {
    pub(crate) fn new(resource: Pointer, base: Url, alloc: Global) -> Result<Arc<BaseScope>, Memory>
        ensures { IfOk result (λ s. s.value ≡ record { resource = resource; base = base }) }
    {
        Ok(Arc::new(alloc, BaseScope { resource, base })?)
    }
}

// A text joined with a base. None if it is too long, or can't be joined.
fn joined(base: &Url, text: &str) -> Result<Option<Url>, Memory>
    ensures { IfOk result (λ u. u ≡ joined base.now text.now) }
{
    if LONGEST < text.len() {
        return Ok(None);
    }
    match base.join(text) {
        Ok(url) => Ok(Some(url)),
        Err(ParseError::OutOfMemory) => Err(Memory),
        Err(ParseError::Overflow) => Err(Memory),
        Err(_) => Ok(None),
    }
}

fn joined_text(base: &Url, text: Option<&str>) -> Result<Option<Url>, Memory>
    ensures { IfOk result (λ u. u ≡ option_and_then (joined base.now) (option_copied text.entry)) }
{
    match text {
        Some(text) => joined(base, text),
        None => Ok(None),
    }
}

// What an `$id` gives under a base.
fn identity_by(base: &Url, id: &Doc) -> Result<Identity, Memory>
    ensures base { IfOk result (λ i. i.base ≡ identified_by base.now (value_of id.now)) }
    ensures bare { IfOk result (λ i. i.bare ≡ is_bare_by base.now (value_of id.now)) }
{
    match joined_text(base, as_text(id))? {
        Some(url) => {
            let bare = has_no_fragment(&url);
            Ok(Identity {
                base: Some(without_fragment(url)?),
                bare,
            })
        }
        None => Ok(Identity {
            base: None,
            bare: false,
        }),
    }
}

// The base scopes at a place whose `$id` gives this.
fn scopes_by(
    alloc: Global,
    above: &Arc<BaseScope>,
    pointer: &Pointer,
    identity: Identity,
) -> Result<BaseScopes, Memory>
    ensures own { IfOk result (λ s. s.own.value
        ≡ record { resource = pointer.now; base = unwrap_or identity.base above.now.value.base }) }
    ensures below { IfOk result (λ s. s.below.value ≡ scope_or identity.base pointer.now above.now.value) }
    ensures identifies { IfOk result (λ s. s.identifies ≡ is_some identity.base) }
    ensures bare { IfOk result (λ s. s.bare ≡ identity.bare) }
{
    let Identity { base, bare } = identity;
    let resource = pointer.copy(alloc)?;
    match base {
        Some(base) => {
            let scope = BaseScope::new(resource, base, alloc)?;
            Ok(BaseScopes {
                own: scope.clone()?,
                below: scope,
                identifies: true,
                bare,
            })
        }
        None => {
            let own = BaseScope::new(resource, above.base.clone()?, alloc)?;
            Ok(BaseScopes {
                own,
                below: above.clone()?,
                identifies: false,
                bare,
            })
        }
    }
}

/// The base scopes at a schema that stands in the base scope `above`.
pub(crate) fn base_scopes_at(
    alloc: Global,
    above: &Arc<BaseScope>,
    pointer: &Pointer,
    schema: &Doc,
) -> Result<BaseScopes, Memory>
    ensures own { IfOk result
        (λ s. s.own.value ≡ own_scope above.now.value pointer.now (value_of schema.now)) }
    ensures below { IfOk result
        (λ s. s.below.value ≡ passed_down above.now.value pointer.now (value_of schema.now)) }
    ensures identifies { IfOk result
        (λ s. s.identifies ≡ is_some (identified above.now.value.base (value_of schema.now))) }
    ensures bare { IfOk result (λ s. s.bare ≡ is_bare above.now.value.base (value_of schema.now)) }
{
    match argument(schema, OtherKeyword::Id.name()) {
        Some(id) => {
            let identity = identity_by(&above.base, id)?;
            scopes_by(alloc, above, pointer, identity)
        }
        None => Ok(BaseScopes {
            own: above.clone()?,
            below: above.clone()?,
            identifies: false,
            bare: false,
        }),
    }
}
