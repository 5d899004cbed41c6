//! What is kept of a place once its document is checked.
ghost use Rattle.std.specs.Prelude.{◌≡◌, map, IfOk};
ghost use Rattle.js_bundle.specs.code.CheckedSite.{checked_site, checked_site_of};
ghost use Rattle.js_bundle.specs.code.Scan.{site_of};

use crate::scan::base_scope::BaseScope;
use crate::scan::site::Site;
use js_doc::{Memory, Pointer};
use std::alloc::Global;
use std::sync::Arc;

/// Where a place stands. Its schema is in its document.
#[derive(Drop)]
pub(crate) struct CheckedSite {
    pub(crate) document: usize,
    pub(crate) pointer: Arc<Pointer>,
    /// The base scope that the place is in.
    pub(crate) above: Arc<BaseScope>,
    /// The base scope of the schemas in it: of its own `$id`, if that makes a base, else `above`.
    pub(crate) own: Arc<BaseScope>,
    /// Whether its `$id` makes a base.
    pub(crate) identifies: bool,
    /// How many members stand before it in its object: a hint for finding it again. In a list it is 0.
    pub(crate) rank: u32,
}

/// What is kept of each.
pub(crate) fn checked_sites_of(
    alloc: Global,
    sites: Vec<Site<'_>>,
) -> Result<Vec<CheckedSite>, Memory>
    ensures { IfOk result (λ v. map checked_site_of v.items ≡ map checked_site (map site_of sites.entry.items)) }
{
    let mut checked = Vec::with_capacity(alloc, sites.len())?;
    for site in sites {
        let Site {
            document,
            pointer,
            above,
            own,
            identifies,
            bare: _,
            rank,
            schema: _,
        } = site;
        checked.push_reserved(CheckedSite {
            document,
            pointer,
            above,
            own,
            identifies,
            rank,
        });
    }
    Ok(checked)
}
