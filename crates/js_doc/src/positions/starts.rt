//! Where the tokens of a text begin. That the text is JSON isn't asked here.
ghost use Rattle.std.specs.Prelude.{◌≡◌, ◌||◌};
ghost use Rattle.json.specs.Lex.{between};
ghost use Rattle.json.specs.Word.{is_operator, is_space as is_blank};
ghost use Rattle.js_doc.specs.Positions.{begins, bytes_before, mode_past, token_start};
ghost use Rattle.js_doc.specs.code.Modes.{mode_of};

/// What the bytes passed have led into.
#[derive(Clone, Copy, Drop)]
pub(crate) enum Within {
    Nothing,
    Word,
    Quotes,
    Escape,
}

/// The offset of the token that has `before` tokens before it, or the length if there is no such token.
pub(crate) fn token_start(text: &[u8], before: usize) -> usize
    ensures { result ≡ token_start before text.now }
{
    let mut within = Within::Nothing;
    let mut left = before;
    let mut at = 0;
    for &byte in text {
        if begins(within, byte) {
            if left == 0 {
                return at;
            }
            left -= 1;
        }
        within = past(within, byte);
        at += 1;
    }
    at
}

/// Whether the byte begins a token.
pub(crate) fn begins(within: Within, byte: u8) -> bool
    ensures { result ≡ begins (mode_of within) byte }
{
    match within {
        Within::Nothing => !is_space(byte) && byte != b',' && byte != b':',
        Within::Word => is_mark(byte) && byte != b',' && byte != b':',
        Within::Quotes | Within::Escape => false,
    }
}

/// What the byte leads into.
pub(crate) fn past(within: Within, byte: u8) -> Within
    ensures { mode_of result ≡ mode_past (mode_of within) byte }
{
    match within {
        Within::Nothing => if byte == b'"' {
            Within::Quotes
        } else if is_mark(byte) || is_space(byte) {
            Within::Nothing
        } else {
            Within::Word
        },
        Within::Word => if is_mark(byte) || is_space(byte) {
            Within::Nothing
        } else {
            Within::Word
        },
        Within::Quotes => if byte == b'"' {
            Within::Nothing
        } else if byte == b'\\' {
            Within::Escape
        } else {
            Within::Quotes
        },
        Within::Escape => Within::Quotes,
    }
}

fn is_mark(byte: u8) -> bool
    ensures { result ≡ is_operator byte }
{
    (byte == b'{')
        | (byte == b'}')
        | (byte == b'[')
        | (byte == b']')
        | (byte == b':')
        | (byte == b',')
}

pub(crate) fn is_space(byte: u8) -> bool
    ensures { result ≡ is_blank byte }
{
    (byte == b' ') | (byte == b'\t') | (byte == b'\n') | (byte == b'\r')
}
