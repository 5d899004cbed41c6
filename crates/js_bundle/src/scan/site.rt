//! A place, as the scan finds it.
ghost use Rattle.std.specs.Prelude.{◌≡◌};
ghost use Rattle.js_doc.specs.Seen.{value_of};
ghost use Rattle.js_bundle.specs.Resource.{identified, scope_or};
ghost use Rattle.js_bundle.specs.code.Identity.{is_bare};

use crate::scan::base_scope::BaseScope;
use js_doc::{Doc, Pointer};
use std::sync::Arc;

/// A place, as the scan finds it.
#[derive(Drop)]
pub(crate) struct Site<'a> {
    pub(crate) document: usize,
    pub(crate) pointer: Arc<Pointer>,
    /// The base scope that the place is in.
    pub(crate) above: Arc<BaseScope>,
    /// The base scope of the schemas in it: of its own `$id`, if that makes a base, else `above`.
    pub(crate) own: Arc<BaseScope>,
    /// Whether its `$id` makes a base.
    pub(crate) identifies: bool,
    /// Whether its `$id` gives a URI without a fragment, or with an empty one.
    pub(crate) bare: bool,
    /// How many members stand before it in its object: a hint for finding it again. In a list it is 0.
    pub(crate) rank: u32,
    pub(crate) schema: &'a Doc,
    pub ghost based: { own.value.base
        ≡ (scope_or (identified above.value.base (value_of schema.now)) pointer.value above.value).base },
    pub ghost recorded: { bare ≡ is_bare above.value.base (value_of schema.now) },
}
