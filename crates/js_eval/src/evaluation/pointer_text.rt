//! The text of a trail, stored or not.
ghost use Rattle.std.specs.Prelude.{◌≡◌, ◌++◌, ◌∷◌, [], List, OnOk, decimal, length, string_bytes, take, ℕ};
ghost use Rattle.std.specs.String.Boundary.{IsSplitPoint};
ghost use Rattle.js_doc.specs.Pointer.{escape};

use crate::evaluation::unseen::Unseen;
use js_doc::{Memory, push_token};
use std::alloc::Global;
use std::snapshot::Snapshot;

/// The text of a JSON Pointer (RFC 6901), which grows and shrinks at its end.
pub(crate) trait PointerText {
    /// A length that the text had.
    type Mark: Drop;

    ghost text: { Self → List ℕ };

    ghost length_at: { Self.Mark → ℕ };

    /// The pointer to the root.
    fn root(alloc: Global) -> Self
        ensures { text result ≡ [] };

    /// Appends a token.
    ///
    /// # Errors
    /// `Memory` if an allocation fails.
    fn push_name(&mut self, token: &str) -> Result<(), Memory>
        ensures { OnOk result (text self.new ≡ text self.old ++ 47 ∷ escape token.now) };

    /// Appends a token that is written as it is.
    ///
    /// # Errors
    /// `Memory` if an allocation fails.
    fn push_kept(&mut self, token: &str) -> Result<(), Memory>
        requires { escape token.now ≡ token.now }
        ensures { OnOk result (text self.new ≡ text self.old ++ 47 ∷ escape token.now) };

    /// Appends an item's index as a token.
    ///
    /// # Errors
    /// `Memory` if an allocation fails.
    fn push_index(&mut self, index: usize) -> Result<(), Memory>
        ensures { OnOk result (text self.new ≡ text self.old ++ 47 ∷ escape (decimal index)) };

    /// The present length.
    fn mark(&self) -> Self::Mark
        ensures { length_at result ≡ length (text self.now) };

    /// Cuts the text back to a length that it had.
    fn cut(&mut self, mark: Self::Mark)
        requires { IsSplitPoint (text self.old) (length_at mark) }
        ensures { text self.new ≡ take (length_at mark) (text self.old) };
}

/// A stored text.
#[derive(Drop)]
pub(crate) struct HeldText {
    pub(crate) text: String,
}

impl PointerText for HeldText {
    type Mark = usize;

    ghost text = { λ t. string_bytes t.text };

    ghost length_at = { λ n. n };

    fn root(alloc: Global) -> HeldText {
        HeldText {
            text: String::new(alloc),
        }
    }

    #[inline(never)]
    fn push_name(&mut self, token: &str) -> Result<(), Memory> {
        push_token(&mut self.text, token)
    }

    #[inline(never)]
    fn push_kept(&mut self, token: &str) -> Result<(), Memory> {
        push_kept(&mut self.text, token)
    }

    #[inline(never)]
    fn push_index(&mut self, index: usize) -> Result<(), Memory> {
        let mut buffer = itoa::Buffer::new();
        push_kept(&mut self.text, buffer.format(index))
    }

    fn mark(&self) -> usize {
        self.text.len()
    }

    fn cut(&mut self, mark: usize) {
        self.text.truncate(mark);
    }
}

/// Appends `/` and a token that is written as it is.
///
/// # Errors
/// `Memory` if an allocation fails.
fn push_kept(out: &mut String, token: &str) -> Result<(), Memory>
    ensures { OnOk result (string_bytes out.new ≡ string_bytes out.old ++ 47 ∷ token.now) }
{
    out.push('/')?;
    out.push_str(token)?;
    Ok(())
}

/// A text that only contracts see, for a walk that needs no locations.
#[derive(Drop)]
pub(crate) struct UnseenText {
    text: Unseen,
}

impl PointerText for UnseenText {
    type Mark = Snapshot<Unseen>;

    ghost text = { λ t. t.text.items };

    ghost length_at = { λ m. length m.value.items };

    fn root(_alloc: Global) -> UnseenText {
        UnseenText {
            text: Unseen::new(),
        }
    }

    #[inline(always)]
    fn push_name(&mut self, token: &str) -> Result<(), Memory> {
        self.text = self.text.with_name(token);
        Ok(())
    }

    #[inline(always)]
    fn push_kept(&mut self, token: &str) -> Result<(), Memory> {
        self.push_name(token)
    }

    #[inline(always)]
    fn push_index(&mut self, index: usize) -> Result<(), Memory> {
        self.text = self.text.with_index(index);
        Ok(())
    }

    #[inline(always)]
    fn mark(&self) -> Snapshot<Unseen> {
        Snapshot::of(&self.text)
    }

    #[inline(always)]
    fn cut(&mut self, mark: Snapshot<Unseen>) {
        self.text = self.text.until(&mark);
    }
}
