//! What stands at a pointer in a value (RFC 6901, section 4).
ghost use Rattle.std.specs.Prelude.{◌≡◌, ℕ, ◌<◌, ◌^◌, None, IfSome, option_map, decimal};
ghost use Rattle.js_doc.specs.Seen.{value_of, items_seen};
ghost use Rattle.js_doc.specs.Lookup.{at, item_named, part_named};

use crate::doc::Doc;
use crate::pointer::Pointer;
use crate::token::Token;

impl Doc {
    /// The value that stands at the pointer, or None where none does. A token names an item by its index in
    /// plain decimals, without a leading zero; `-` names none. It takes no memory.
    pub fn at(&self, pointer: &Pointer) -> Option<&Doc>
        ensures { option_map (λ d. value_of d.now) result ≡ at pointer.now (value_of self.now) }
    {
        at_tokens(self, pointer.tokens())
    }

    /// What `at` answers. If the last token is the name that stands at the rank `hint` in its object, counted from 0 in
    /// the order of the names, it is found there without a search. The rank is a guess: it changes how long this takes,
    /// and never the answer.
    pub fn at_with_hint(&self, pointer: &Pointer, hint: usize) -> Option<&Doc>
        ensures { option_map (λ d. value_of d.now) result ≡ at pointer.now (value_of self.now) }
    {
        match pointer.tokens().split_last() {
            Some((last, above)) => match at_tokens(self, above) {
                Some(doc) => part_named_with_hint(doc, last.as_str(), hint),
                None => None,
            },
            None => Some(self),
        }
    }
}

fn at_tokens<'a>(root: &'a Doc, tokens: &[Token]) -> Option<&'a Doc>
    ensures { option_map (λ d. value_of d.now) result ≡ at tokens.now (value_of root.now) }
{
    let mut here = root;
    for token in tokens {
        match part_named(here, token.as_str()) {
            Some(doc) => here = doc,
            None => return None,
        }
    }
    Some(here)
}

fn part_named_with_hint<'a>(doc: &'a Doc, token: &str, hint: usize) -> Option<&'a Doc>
    ensures { option_map (λ d. value_of d.now) result ≡ part_named token.now (value_of doc.now) }
{
    match doc {
        Doc::Members(members) => members.get_with_hint(token, hint),
        _ => part_named(doc, token),
    }
}

// The item or member that the token names.
fn part_named<'a>(doc: &'a Doc, token: &str) -> Option<&'a Doc>
    ensures { option_map (λ d. value_of d.now) result ≡ part_named token.now (value_of doc.now) }
{
    match doc {
        Doc::List(items) => item(items.items.as_slice(), token),
        Doc::Members(members) => members.get(token),
        _ => None,
    }
}

fn item<'a>(docs: &'a [Doc], token: &str) -> Option<&'a Doc>
    ensures { option_map (λ d. value_of d.now) result ≡ item_named token.now 0 (items_seen docs.now) }
{
    let Some(n) = index(token) else {
        return None;
    };
    if n < docs.len() { Some(&docs[n]) } else { None }
}

// The index that the token is in plain decimals.
pub(crate) fn index(token: &str) -> Option<usize>
    ensures some { IfSome result (λ n. token.now ≡ decimal n) }
    ensures none { result ≡ None → (n : ℕ) → n < 2 ^ 64 → ¬ (token.now ≡ decimal n) }
{
    let n: usize = match token.parse() {
        Ok(n) => n,
        Err(_) => return None,
    };
    let mut buffer = itoa::Buffer::new();
    if buffer.format(n) == token {
        Some(n)
    } else {
        None
    }
}
