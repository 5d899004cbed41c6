//! Why a walk fails.
use js_doc::Memory;

/// Why a walk fails.
#[derive(Clone, Copy, Debug, PartialEq, Eq)]
pub enum WalkFault {
    /// An allocation failed.
    Memory,
    /// No result is within the limits of the walk ([`crate::Limits`]). Infinite recursion ends so too (Core,
    /// section 9.4.1).
    TooLarge,
}

impl From<Memory> for WalkFault {
    ghost use Rattle.std.specs.Prelude.{◌≡◌};
    ghost use Rattle.js_eval.specs.declared.evaluation.fault.WalkFault.TheVariants as fault;

    ghost from_gives = { λ _ e. e ≡ fault.Memory };

    fn from(_refused: Memory) -> WalkFault {
        WalkFault::Memory
    }
}
