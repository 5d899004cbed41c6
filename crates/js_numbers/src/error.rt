//! Why a text isn't rewritten.
ghost use Rattle.std.specs.Prelude.{◌≡◌};

use std::alloc::AllocError;

/// Why a text isn't rewritten.
#[derive(Clone, Copy, Debug, PartialEq, Eq)]
pub enum TextError {
    /// An allocation was refused.
    Memory,
    /// It isn't JSON.
    NotJson,
    /// An object in it has a name twice.
    RepeatedName,
}

impl From<AllocError> for TextError {
    ghost use Rattle.js_numbers.specs.declared.error.TextError.TheVariants.{Memory};

    ghost from_gives = { λ _ e. e ≡ Memory };

    fn from(_refused: AllocError) -> TextError {
        TextError::Memory
    }
}

impl From<json::Error> for TextError {
    ghost use Rattle.js_numbers.specs.code.Reading.{text_error};

    ghost from_gives = { λ error e. e ≡ text_error error };

    fn from(error: json::Error) -> TextError {
        match error {
            json::Error::Invalid => TextError::NotJson,
            json::Error::DuplicateKey => TextError::RepeatedName,
            json::Error::OutOfMemory | json::Error::TooLong => TextError::Memory,
        }
    }
}
