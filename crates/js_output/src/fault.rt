//! Why a run gives no verdict.
ghost use Rattle.std.specs.Prelude.{◌≡◌};

use js_bundle::{EntryFault, Refusal, RefusalKind};
use js_doc::{Memory, Pointer, ReadFault, Stopped};
use js_eval::WalkFault;
use std::alloc::{AllocError, AllocFailed};
use thiserror::Error;

/// Why a run gives no verdict. The faults are numbered in this order, from 1.
///
/// What `Display` writes names no place: [`crate::refusal_line`] does.
#[derive(Debug, Drop, PartialEq, Eq, Error)]
pub enum Fault {
    /// Out of memory: an allocation was refused.
    #[error("failed: Memory")]
    Memory,
    /// The source of the input has failed.
    #[error("failed: Read")]
    Read,
    /// The input has more than 16,777,216 bytes.
    #[error("refused: input: InputTooLarge")]
    InputTooLarge,
    /// A schema document is refused.
    #[error("refused: document {}", .0.document)]
    Refused(Refusal),
    /// The instance's text is refused.
    #[error("refused: instance")]
    Instance(ReadFault),
    /// The entry is refused.
    #[error("refused: entry")]
    Entry(EntryFault),
    /// The result is nested too deep or has too many nodes.
    #[error("refused: walk: TooLarge")]
    TooLarge,
    /// The suite's text is refused.
    #[error("refused: suite")]
    Suite(SuiteFault),
    /// The sink has failed.
    #[error("failed: Write")]
    Write,
}

/// Why a suite's text is refused.
#[derive(Debug, Drop, PartialEq, Eq)]
pub enum SuiteFault {
    /// `serde_json` can't read it.
    NotJson,
    /// The first value that is missing or of the wrong kind.
    BadSuite(Pointer),
}

impl From<AllocError> for Fault {
    ghost use Rattle.js_output.specs.declared.fault.Fault.TheVariants.{Memory};

    ghost from_gives = { λ _ e. e ≡ Memory };

    fn from(_refused: AllocError) -> Fault {
        Fault::Memory
    }
}

impl<T: Drop> From<AllocFailed<T>> for Fault {
    ghost use Rattle.js_output.specs.declared.fault.Fault.TheVariants.{Memory};

    ghost from_gives = { λ _ e. e ≡ Memory };

    fn from(_refused: AllocFailed<T>) -> Fault {
        Fault::Memory
    }
}

impl From<Memory> for Fault {
    ghost use Rattle.js_output.specs.declared.fault.Fault.TheVariants.{Memory};

    ghost from_gives = { λ _ e. e ≡ Memory };

    fn from(_refused: Memory) -> Fault {
        Fault::Memory
    }
}

impl From<Refusal> for Fault {
    ghost use Rattle.js_output.specs.Documents.{fault_by};

    ghost from_gives = { λ r e. e ≡ fault_by r.kind r };

    fn from(refusal: Refusal) -> Fault {
        match refusal.kind {
            RefusalKind::Memory => Fault::Memory,
            _ => Fault::Refused(refusal),
        }
    }
}

impl From<EntryFault> for Fault {
    ghost use Rattle.js_output.specs.Entry.{entry_fault_of};

    ghost from_gives = { λ f e. e ≡ entry_fault_of f };

    fn from(fault: EntryFault) -> Fault {
        match fault {
            EntryFault::Memory => Fault::Memory,
            _ => Fault::Entry(fault),
        }
    }
}

impl From<WalkFault> for Fault {
    ghost use Rattle.js_output.specs.Outcome.{walk_fault_of};

    ghost from_gives = { λ f e. e ≡ walk_fault_of f };

    fn from(fault: WalkFault) -> Fault {
        match fault {
            WalkFault::Memory => Fault::Memory,
            WalkFault::TooLarge => Fault::TooLarge,
        }
    }
}

/// A sink stops only if it has failed.
impl From<Stopped> for Fault {
    ghost use Rattle.js_output.specs.declared.fault.Fault.TheVariants.{Write};

    ghost from_gives = { λ _ e. e ≡ Write };

    fn from(_stopped: Stopped) -> Fault {
        Fault::Write
    }
}
