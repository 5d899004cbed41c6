//! Why a check stops.
ghost use Rattle.std.specs.Prelude.{◌≡◌, [], ◌∷◌, ◌++◌, IfOk};
ghost use Rattle.js_bundle.specs.Finding.{IsRefusalOrMemory};
ghost use Rattle.js_bundle.specs.code.PlaceNumbers.{tokens_of};
ghost use Rattle.js_bundle.specs.Refusals.{refusal_at};
ghost use Rattle.js_bundle.specs.code.Scan.{site_of};

use crate::check::lookup::SiteKeyword;
use crate::refusal::{Refusal, RefusalKind};
use crate::scan::site::Site;
use js_doc::{Memory as NoMemory, Pointer};
use std::alloc::{AllocError, AllocFailed, Global};

/// Why a check stops.
#[derive(Drop)]
pub(crate) enum CheckFault {
    Memory,
    Refused(Refusal),
}

impl From<AllocError> for CheckFault {
    ghost use Rattle.js_bundle.specs.declared.check.fault.CheckFault.TheVariants.{Memory};

    ghost from_gives = { λ _ e. e ≡ Memory };

    fn from(_refused: AllocError) -> CheckFault {
        CheckFault::Memory
    }
}

impl<T: Drop> From<AllocFailed<T>> for CheckFault {
    ghost use Rattle.js_bundle.specs.declared.check.fault.CheckFault.TheVariants.{Memory};

    ghost from_gives = { λ _ e. e ≡ Memory };

    fn from(_refused: AllocFailed<T>) -> CheckFault {
        CheckFault::Memory
    }
}

impl From<NoMemory> for CheckFault {
    ghost use Rattle.js_bundle.specs.declared.check.fault.CheckFault.TheVariants.{Memory};

    ghost from_gives = { λ _ e. e ≡ Memory };

    fn from(_refused: NoMemory) -> CheckFault {
        CheckFault::Memory
    }
}

/// The refusal at a place, or at a keyword of it.
pub(crate) fn refuse(
    alloc: Global,
    site: &Site<'_>,
    keyword: Option<&str>,
    kind: RefusalKind,
) -> CheckFault
    ensures { IsRefusalOrMemory (refusal_at (site_of site.now) (tokens_of keyword.entry) kind) result }
{
    match pointer_at(alloc, &site.pointer, keyword) {
        Ok(place) => CheckFault::Refused(Refusal {
            document: site.document,
            place,
            kind,
        }),
        Err(_) => CheckFault::Memory,
    }
}

/// The refusal at a keyword of a place.
pub(crate) fn refuse_keyword(alloc: Global, at: SiteKeyword<'_>, kind: RefusalKind) -> CheckFault
    ensures { IsRefusalOrMemory
        (refusal_at (site_of at.entry.site.now) (at.entry.keyword.now ∷ []) kind) result }
{
    refuse(alloc, at.site, Some(at.keyword), kind)
}

fn pointer_at(alloc: Global, place: &Pointer, keyword: Option<&str>) -> Result<Pointer, NoMemory>
    ensures { IfOk result (λ p. p ≡ place.now ++ tokens_of keyword.entry) }
{
    match keyword {
        Some(name) => place.further(alloc, name),
        None => place.copy(alloc),
    }
}

/// The refusal at a member of a keyword's argument.
pub(crate) fn refuse_member(
    alloc: Global,
    site: &Site<'_>,
    keyword: &str,
    name: &str,
    kind: RefusalKind,
) -> CheckFault
    ensures { IsRefusalOrMemory (refusal_at (site_of site.now) (keyword.now ∷ name.now ∷ []) kind) result }
{
    match pointer_to_member(alloc, &site.pointer, keyword, name) {
        Ok(place) => CheckFault::Refused(Refusal {
            document: site.document,
            place,
            kind,
        }),
        Err(_) => CheckFault::Memory,
    }
}

fn pointer_to_member(
    alloc: Global,
    place: &Pointer,
    keyword: &str,
    name: &str,
) -> Result<Pointer, NoMemory>
    ensures { IfOk result (λ p. p ≡ place.now ++ keyword.now ∷ name.now ∷ []) }
{
    let mut pointer = place.further(alloc, keyword)?;
    pointer.push(name)?;
    Ok(pointer)
}
