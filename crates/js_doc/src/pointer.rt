//! JSON Pointers (RFC 6901).
ghost use Rattle.std.specs.Prelude.{◌≡◌, [], ◌∷◌, ◌++◌, OnOk, OnErr, IfOk, string_bytes};
ghost use Rattle.js_doc.specs.Pointer.{pointer_text};

use crate::memory::Memory;
use crate::string::Text;
use crate::token::{Token, push_token};
use std::alloc::Global;
use std::marker::Model;

/// A place in a value: the tokens on the way to it, from the root on. A token is a member's name, or an
/// item's index in plain decimals. Contracts see it as the list of its tokens.
#[derive(Debug)]
pub struct Pointer {
    tokens: Vec<Token>,
}

// By hand, so that it is proved here alone, and crates that own pointers call it.
impl Drop for Pointer {
    fn drop(self) {
        let Pointer { tokens: _ } = self;
    }
}

impl Model for Pointer {
    ghost use Rattle.js_doc.specs.Pointer.{Tokens};

    ghost Value = { Tokens };

    ghost view = { λ p. p.tokens.items };
}

impl Pointer {
    /// The pointer to the root. `push` takes its memory from `alloc`.
    pub fn new(alloc: Global) -> Pointer
        ensures { result ≡ [] }
    {
        let tokens = Vec::new(alloc);
        Pointer { tokens }
    }

    /// Adds a token at the end.
    ///
    /// # Errors
    /// `Memory`; then the pointer is as it was.
    pub fn push(&mut self, token: &str) -> Result<(), Memory>
        ensures ok { OnOk result (self.new ≡ self.old ++ token.now ∷ []) }
        ensures err { OnErr result (self.new ≡ self.old) }
    {
        let token = Token::new(*self.tokens.allocator(), token)?;
        self.push_made(token)
    }

    pub(crate) fn push_text(&mut self, token: Text) -> Result<(), Memory>
        ensures ok { OnOk result (self.new ≡ self.old ++ token ∷ []) }
        ensures err { OnErr result (self.new ≡ self.old) }
    {
        self.push(token.as_str())
    }

    fn push_made(&mut self, token: Token) -> Result<(), Memory>
        ensures ok { OnOk result (self.new ≡ self.old ++ token ∷ []) }
        ensures err { OnErr result (self.new ≡ self.old) }
    {
        self.tokens.push(token)?;
        Ok(())
    }

    // Puts a token before the others.
    pub(crate) fn prepend(&mut self, token: Text) -> Result<(), Memory>
        ensures ok { OnOk result (self.new ≡ token ∷ self.old) }
        ensures err { OnErr result (self.new ≡ self.old) }
    {
        let token = Token::new(*self.tokens.allocator(), token.as_str())?;
        self.tokens.insert(0, token)?;
        Ok(())
    }

    /// The tokens, in order from the root on.
    pub fn tokens(&self) -> &[Token]
        ensures { result.now ≡ self.now }
    {
        self.tokens.as_slice()
    }

    /// A copy. The tokens are shared.
    ///
    /// # Errors
    /// `Memory`.
    pub fn copy(&self, alloc: Global) -> Result<Pointer, Memory>
        ensures { IfOk result (λ p. p ≡ self.now) }
    {
        self.with_room(alloc, 0)
    }

    /// The pointer with one more token at its end. The other tokens are shared.
    ///
    /// # Errors
    /// `Memory`.
    pub fn further(&self, alloc: Global, token: &str) -> Result<Pointer, Memory>
        ensures { IfOk result (λ p. p ≡ self.now ++ token.now ∷ []) }
    {
        let mut further = self.with_room(alloc, 1)?;
        further.push(token)?;
        Ok(further)
    }

    // A copy with room for more tokens.
    fn with_room(&self, alloc: Global, more: usize) -> Result<Pointer, Memory>
        ensures { IfOk result (λ p. p ≡ self.now) }
    {
        let mut tokens = Vec::with_capacity(alloc, self.tokens.len().saturating_add(more))?;
        for token in self.tokens() {
            tokens.push(token.shared()?)?;
        }
        Ok(Pointer { tokens })
    }

    /// The pointer's text: each token after a `/`, with `~` written `~0` and `/` written `~1`
    /// (RFC 6901, section 3).
    ///
    /// # Errors
    /// `Memory`.
    pub fn text(&self, alloc: Global) -> Result<String, Memory>
        ensures { IfOk result (λ s. string_bytes s ≡ pointer_text self.now) }
    {
        let mut text = String::new(alloc);
        for token in self.tokens() {
            push_token(&mut text, token.as_str())?;
        }
        Ok(text)
    }
}

impl PartialEq for Pointer {
    ghost use Rattle.std.specs.Prelude.{nat_eq};
    ghost use Rattle.std.specs.Cmp.{partial_equiv_from_equiv};
    ghost use Rattle.std.specs.Cmp.Lexicographic.{pointwise, lists_equiv, nat_list_eq_equiv};

    ghost eq = { pointwise (pointwise nat_eq) };

    ghost laws = { partial_equiv_from_equiv (lists_equiv nat_list_eq_equiv) };

    fn eq(&self, other: &Pointer) -> bool {
        self.tokens == other.tokens
    }
}

impl Eq for Pointer {
    ghost use Rattle.std.specs.Cmp.Lexicographic.{lists_equiv, nat_list_eq_equiv};

    ghost laws = { lists_equiv nat_list_eq_equiv };
}
