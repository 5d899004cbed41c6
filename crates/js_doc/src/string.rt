ghost use Rattle.std.specs.Prelude.{◌≡◌, IfOk, chars, length, nat_eq, string_bytes};
ghost use Rattle.std.specs.Cmp.{partial_equiv_from_equiv};
ghost use Rattle.std.specs.Cmp.Lexicographic.{pointwise, nat_list_eq_equiv};

use crate::memory::Memory;
use arrayvec::ArrayString;
use std::alloc::Global;
use std::marker::Model;

/// A text. Contracts see it as the bytes of its UTF-8, which determine its code points.
#[derive(Debug)]
pub struct Text {
    kept: Kept,
}

/// Where a text's bytes are: in place where they are few.
#[derive(Debug, Drop)]
enum Kept {
    Short(ArrayString<16>),
    Long(String),
}

// By hand, so that it is proved here alone, and crates that own texts call it.
impl Drop for Text {
    fn drop(self) {
        let Text { kept: _ } = self;
    }
}

impl Model for Text {
    ghost use Rattle.std.specs.Prelude.{ℕ, List};
    ghost use Rattle.js_doc.specs.code.Kept.{kept_bytes};

    ghost Value = { List ℕ };

    ghost view = { λ t. kept_bytes t.kept };
}

impl Text {
    /// The text of a string.
    pub fn new(text: String) -> Text
        ensures { result ≡ string_bytes text }
    {
        Text {
            kept: Kept::Long(text),
        }
    }

    /// A copy of the text, in place where it is short.
    ///
    /// # Errors
    /// `Memory`.
    pub fn from_str(alloc: Global, text: &str) -> Result<Text, Memory>
        ensures { IfOk result (λ t. t ≡ text.now) }
    {
        if text.len() <= 16 {
            let mut short = ArrayString::new();
            short.push_str(text);
            return Ok(Text {
                kept: Kept::Short(short),
            });
        }
        Ok(Text::new(String::from_str(alloc, text)?))
    }

    /// The text, lent.
    pub fn as_str(&self) -> &str
        ensures { result.now ≡ self.now }
    {
        match &self.kept {
            Kept::Short(short) => short.as_str(),
            Kept::Long(string) => string.as_str(),
        }
    }

    /// A copy that shares no memory with the text.
    ///
    /// # Errors
    /// `Memory`.
    pub fn copy(&self) -> Result<Text, Memory>
        ensures { IfOk result (λ t. t ≡ self.now) }
    {
        match &self.kept {
            Kept::Short(short) => Ok(Text {
                kept: Kept::Short(*short),
            }),
            Kept::Long(string) => {
                let string = string.clone()?;
                Ok(Text::new(string))
            }
        }
    }
}

impl PartialEq for Text {
    ghost eq = { pointwise nat_eq };

    ghost laws = { partial_equiv_from_equiv nat_list_eq_equiv };

    fn eq(&self, other: &Text) -> bool {
        self.as_str() == other.as_str()
    }
}

impl Eq for Text {
    ghost laws = { nat_list_eq_equiv };
}

/// The number of characters of a string: its code points (RFC 8259, section 7; JSON Schema Validation, section 6.3.1).
pub fn character_count(string: &str) -> u64
    ensures { result ≡ length (chars string.now) }
{
    string.chars().count() as u64
}
