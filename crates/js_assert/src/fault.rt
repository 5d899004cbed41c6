ghost use Rattle.std.specs.Prelude.{◌≡◌};
ghost use Rattle.js_assert.specs.declared.fault.KeywordFault.TheVariants.{Memory};

use js_doc::Memory;
use std::alloc::{AllocError, AllocFailed};

/// Why a keyword's argument isn't accepted (JSON Schema Validation, section 6).
#[derive(Clone, Copy, Debug, PartialEq, Eq)]
pub enum KeywordFault {
    /// 1: there was no memory.
    Memory,
    /// 2: the argument doesn't have the shape that the keyword asks for.
    BadKeyword,
    /// 3: the argument of `pattern` is a string that `regex` reads no pattern in, or one that nests too deep.
    NotAPattern,
    /// 4: `regex` refuses the pattern for a reason other than syntax and memory.
    PatternTooLarge,
}

impl From<AllocError> for KeywordFault {
    ghost from_gives = { λ _ e. e ≡ Memory };

    fn from(_refused: AllocError) -> KeywordFault {
        KeywordFault::Memory
    }
}

impl<T: Drop> From<AllocFailed<T>> for KeywordFault {
    ghost from_gives = { λ _ e. e ≡ Memory };

    fn from(_refused: AllocFailed<T>) -> KeywordFault {
        KeywordFault::Memory
    }
}

impl From<Memory> for KeywordFault {
    ghost from_gives = { λ _ e. e ≡ Memory };

    fn from(_refused: Memory) -> KeywordFault {
        KeywordFault::Memory
    }
}
