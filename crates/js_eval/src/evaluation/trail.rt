//! The position of a walk in the schemas, or in the instance.
ghost use Rattle.std.specs.Prelude.{◌≡◌, ◌++◌, ◌∷◌, [], IfOk, OnOk, decimal, length, take};
ghost use Rattle.std.specs.String.Boundary.{IsSplitPoint};
ghost use Rattle.js_doc.specs.Pointer.{escape};

use crate::evaluation::pointer_text::{HeldText, PointerText};
use js_doc::{Memory, Text};
use std::alloc::Global;
use std::marker::Model;

/// The position of a walk, as the text of a JSON Pointer (RFC 6901): its keyword location or its instance location.
/// Contracts see the bytes of the text, whether it is stored or not.
#[derive(Drop)]
pub(crate) struct Trail<H: PointerText + Drop> {
    held: H,
}

impl<H: PointerText + Drop> Model for Trail<H> {
    ghost use Rattle.std.specs.Prelude.{List, ℕ};

    ghost Value = { List ℕ };

    ghost view = { λ t. H.text t.held };
}

impl<H: PointerText + Drop> Trail<H> {
    /// The trail at the root.
    pub(crate) fn new(alloc: Global) -> Trail<H>
        ensures { result ≡ [] }
    {
        Trail {
            held: H::root(alloc),
        }
    }

    /// Appends a token.
    ///
    /// # Errors
    /// `Memory` if an allocation fails.
    #[inline(always)]
    pub(crate) fn push_name(&mut self, token: &str) -> Result<(), Memory>
        ensures { OnOk result (self.new ≡ self.old ++ 47 ∷ escape token.now) }
    {
        self.held.push_name(token)
    }

    /// Appends a token that is written as it is.
    ///
    /// # Errors
    /// `Memory` if an allocation fails.
    #[inline(always)]
    pub(crate) fn push_kept(&mut self, token: &str) -> Result<(), Memory>
        requires { escape token.now ≡ token.now }
        ensures { OnOk result (self.new ≡ self.old ++ 47 ∷ escape token.now) }
    {
        self.held.push_kept(token)
    }

    /// Appends an item's index as a token.
    ///
    /// # Errors
    /// `Memory` if an allocation fails.
    #[inline(always)]
    pub(crate) fn push_index(&mut self, index: usize) -> Result<(), Memory>
        ensures { OnOk result (self.new ≡ self.old ++ 47 ∷ escape (decimal index)) }
    {
        self.held.push_index(index)
    }

    /// A mark of the present position.
    #[inline(always)]
    pub(crate) fn mark(&self) -> H::Mark
        ensures { H.length_at result ≡ length self.now }
    {
        self.held.mark()
    }

    /// Goes back to a marked position.
    #[inline(always)]
    pub(crate) fn cut(&mut self, mark: H::Mark)
        requires { IsSplitPoint self.old (H.length_at mark) }
        ensures { self.new ≡ take (H.length_at mark) self.old }
    {
        self.held.cut(mark);
    }
}

impl Trail<HeldText> {
    /// The text.
    pub(crate) fn as_str(&self) -> &str
        ensures { result.now ≡ self.now }
    {
        self.held.text.as_str()
    }

    /// A copy of the text.
    ///
    /// # Errors
    /// `Memory` if an allocation fails.
    pub(crate) fn copy_text(&self) -> Result<Text, Memory>
        ensures { IfOk result (λ t. t ≡ self.now) }
    {
        let text = self.held.text.clone()?;
        Ok(Text::new(text))
    }
}
