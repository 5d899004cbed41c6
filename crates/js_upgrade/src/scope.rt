//! Where a schema stands: among which resources, and below which base.
ghost use Rattle.std.specs.Prelude.{◌≡◌, IfOk};
ghost use Rattle.std.specs.List.{position_from};
ghost use Rattle.js_upgrade.specs.code.First.{has_uri};
ghost use Rattle.js_upgrade.specs.code.Local.{local_uri};
ghost use Rattle.js_upgrade.specs.code.Table.{all_of};

use crate::resource_table::{ResourceTable, number_by_uri};
use crate::uri::{is_bare, uri_joined, uri_printed, uri_without_fragment};
use js_doc::Memory;
use url::Url;

/// Where a schema stands: among which resources, and below which base.
#[derive(Clone, Copy)]
pub(crate) struct Scope<'r> {
    pub resources: &'r ResourceTable<'r>,
    pub base: &'r Url,
    /// The number of the resource that a reference leads to which is a fragment alone.
    pub here: Option<usize>,
    ghost local: { here ≡ position_from (has_uri (local_uri base.now)) 0 (all_of resources.now) },
}

/// Where a schema stands among the roots that copies are made of, and among all resources.
#[derive(Clone, Copy)]
pub(crate) struct Scopes<'r> {
    pub roots: Scope<'r>,
    pub all: Scope<'r>,
    ghost based: { roots.base.now ≡ all.base.now },
}

/// The number of the resource that a reference leads to which is a fragment alone.
///
/// # Errors
/// `Memory`.
pub(crate) fn number_here(
    resources: &ResourceTable<'_>,
    base: &Url,
) -> Result<Option<usize>, Memory>
    ensures { IfOk result (λ n. n ≡ position_from (has_uri (local_uri base.now)) 0 (all_of resources.now)) }
{
    if is_bare(base) {
        return Ok(number_by_uri(resources, uri_printed(base)));
    }
    match uri_joined(base, "#")? {
        Some(url) => {
            let bare = uri_without_fragment(url)?;
            Ok(number_by_uri(resources, uri_printed(&bare)))
        }
        None => Ok(None), // never: each base takes a fragment
    }
}
