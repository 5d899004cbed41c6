//! Why documents aren't upgraded.
ghost use Rattle.std.specs.Prelude.{◌≡◌};
ghost use Rattle.js_upgrade.specs.Fault.{fault_by_stop, of_document};

use js_doc::{Memory, Pointer};
use std::alloc::Global;

/// Which document isn't upgraded, where in it, and why.
#[derive(Debug, Drop, PartialEq, Eq)]
pub struct UpgradeFault {
    /// The document's number, the first one's 0.
    pub document: usize,
    /// Where in the document.
    pub place: Pointer,
    pub kind: UpgradeFaultKind,
}

/// Why a document isn't upgraded. The kinds are numbered in this order, from 1.
#[derive(Clone, Copy, Debug, Drop, PartialEq, Eq)]
pub enum UpgradeFaultKind {
    /// An allocation was refused.
    Memory,
    /// There are more than 1,000 documents.
    TooManyDocuments,
    /// A `$schema` names none of the dialects.
    UnknownDialect,
    /// A `$schema`, an identifier or a reference isn't a text. Or `contains` of 2019-09 has no place, one of an older
    /// draft would evaluate items, or a `$dynamicAnchor` has the name that `$recursiveAnchor` gets.
    BadKeyword,
    /// An identifier or a reference has more than 65,536 bytes.
    UriTooLong,
    /// An identifier can't be joined with its base.
    BadId,
    /// Two documents have one URI.
    DuplicateUri,
    /// A reference can't be joined with its base, or a `$recursiveRef` isn't `#`.
    BadReference,
    /// A reference leads nowhere, or to what goes.
    Unresolved,
}

/// What is looked for in all documents, before the next.
#[derive(Clone, Copy)]
pub(crate) enum Pass {
    /// The dialects and the identifiers.
    Names,
    /// The references.
    References,
    /// The schemas that have `unevaluatedItems`.
    Unevaluated,
    /// `contains` of draft-06 and draft-07.
    Contained,
    /// What the first three look for, in one go: mostly there is none.
    AnyOfThese,
}

/// Why an upgrade stops.
#[derive(Drop)]
pub(crate) enum Stop {
    Memory,
    Fault(UpgradeFault),
}

impl From<Memory> for Stop {
    ghost use Rattle.js_upgrade.specs.declared.fault.Stop.TheVariants as stop;

    ghost from_gives = { λ _ e. e ≡ stop.Memory };

    fn from(_refused: Memory) -> Stop {
        Stop::Memory
    }
}

/// The fault of a stop. Out of memory has no place.
pub(crate) fn fault_of(alloc: Global, stop: Stop) -> UpgradeFault
    ensures { result ≡ fault_by_stop stop }
{
    match stop {
        Stop::Memory => of_document(alloc, 0, UpgradeFaultKind::Memory),
        Stop::Fault(fault) => fault,
    }
}

/// A fault of a whole document.
pub(crate) fn of_document(alloc: Global, document: usize, kind: UpgradeFaultKind) -> UpgradeFault
    ensures { result ≡ of_document document kind }
{
    UpgradeFault {
        document,
        place: Pointer::new(alloc),
        kind,
    }
}
