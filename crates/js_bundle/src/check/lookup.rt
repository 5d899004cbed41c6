//! What the rules of a place are asked with.

use crate::index::Index;
use crate::scan::site::Site;
use std::alloc::Global;

/// The places that are known so far, with the index that finds them. Memory comes from `alloc`.
#[derive(Clone, Copy)]
pub(crate) struct Lookup<'s> {
    pub(crate) alloc: Global,
    pub(crate) index: &'s Index,
    pub(crate) sites: &'s [Site<'s>],
}

/// A keyword of a place.
#[derive(Clone, Copy)]
pub(crate) struct SiteKeyword<'s> {
    pub(crate) site: &'s Site<'s>,
    pub(crate) keyword: &'s str,
}
