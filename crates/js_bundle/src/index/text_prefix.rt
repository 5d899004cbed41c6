//! How the texts of a place's position begin: those of the next place continue from there.
ghost use Rattle.std.specs.Prelude.{◌≡◌, ◌≤◌, ◌++◌, drop, take, length, option_map, string_bytes, IfOk, OnOk};
ghost use Rattle.js_bundle.specs.code.TextPrefix as spec;
ghost use Rattle.js_bundle.specs.code.Scan.{site_of};

use crate::scan::site::Site;
use js_doc::{Memory, Notation, Token, push_token_in};
use std::alloc::Global;

/// The prefix of such a text: all of it but the last token, which is all that places side by side differ in.
#[derive(Drop)]
pub(crate) struct TextPrefix {
    pub(crate) text: String,
    /// How many tokens it contains.
    pub(crate) tokens: usize,
}

/// A place, and the one before it. Memory comes from `alloc`.
#[derive(Clone, Copy)]
pub(crate) struct Neighbours<'s> {
    pub(crate) alloc: Global,
    pub(crate) before: Option<&'s Site<'s>>,
    pub(crate) site: &'s Site<'s>,
    /// With how many tokens alike their pointers begin.
    pub(crate) shared: usize,
}

impl TextPrefix {
    pub(crate) fn new(alloc: Global) -> TextPrefix {
        TextPrefix {
            text: String::new(alloc),
            tokens: 0,
        }
    }

    /// Continues it to the first `count` tokens, and returns the text with all of them.
    pub(crate) fn extend(
        &mut self,
        alloc: Global,
        notation: Notation,
        tokens: &[Token],
        count: usize,
    ) -> Result<String, Memory>
        requires { count ≤ length tokens.now }
        ensures { IfOk result (λ t. spec.IsExtended notation tokens.now count self.old self.new (string_bytes t)) }
    {
        self.continue_to(notation, tokens, count)?;
        let mut text = self.text_with_room(alloc, tokens)?;
        push_tokens(&mut text, notation, tokens, count)?;
        Ok(text)
    }

    // Adds the first tokens to it.
    fn continue_to(
        &mut self,
        notation: Notation,
        tokens: &[Token],
        count: usize,
    ) -> Result<(), Memory>
        requires { count ≤ length tokens.now }
        ensures text { OnOk result (string_bytes self.new.text ≡ string_bytes self.old.text
            ++ spec.text_of_tokens notation (drop self.old.tokens (take count tokens.now))) }
        ensures tokens { OnOk result (self.new.tokens ≡ count) }
    {
        push_tokens(&mut self.text, notation, &tokens[..count], self.tokens)?;
        self.tokens = count;
        Ok(())
    }

    // Its text, with room for the tokens after it.
    fn text_with_room(&self, alloc: Global, tokens: &[Token]) -> Result<String, Memory>
        ensures { IfOk result (λ t. string_bytes t ≡ string_bytes self.now.text) }
    {
        let room = self
            .text
            .len()
            .saturating_add(room_for(tokens, self.tokens));
        let mut text = String::with_capacity(alloc, room)?;
        text.push_str(self.text.as_str())?;
        Ok(text)
    }
}

/// Writes the tokens after the first ones.
pub(crate) fn push_tokens(
    text: &mut String,
    notation: Notation,
    tokens: &[Token],
    from: usize,
) -> Result<(), Memory>
    ensures { OnOk result (string_bytes text.new
        ≡ string_bytes text.old ++ spec.text_of_tokens notation (drop from tokens.now)) }
{
    for i in from..tokens.len() {
        push_token_in(text, notation, tokens[i].as_str())?;
    }
    Ok(())
}

/// How many bytes the tokens after the first ones take, at least.
pub(crate) fn room_for(tokens: &[Token], from: usize) -> usize {
    let mut room = 0usize;
    for i in from..tokens.len() {
        room = room
            .saturating_add(tokens[i].as_str().len())
            .saturating_add(1);
    }
    room
}

/// How many tokens the pointers of the place and of the one before it have in common at their start.
pub(crate) fn shared_with(before: Option<&Site<'_>>, site: &Site<'_>) -> usize
    ensures { result ≡ spec.shared_with (option_map (λ b. site_of b.now) before.entry) (site_of site.now) }
{
    match before {
        Some(before) => tokens_alike(site.pointer.tokens(), before.pointer.tokens()),
        None => 0,
    }
}

fn tokens_alike(tokens: &[Token], others: &[Token]) -> usize
    ensures { result ≡ spec.tokens_alike tokens.now others.now }
{
    let most = tokens.len().min(others.len());
    for i in 0..most {
        if tokens[i].as_str() != others[i].as_str() {
            return i;
        }
    }
    most
}
