//! Lines and columns.
ghost use Rattle.std.specs.Prelude.{◌≡◌, ◌+◌, ◌<◌, ◌≤◌, ◌^◌, ◌∷◌, []};
ghost use Rattle.js_doc.specs.Positions.{goes_on, line_and_column_at, line_and_column_past};

/// The line and the column at the offset, both from 1. A line ends with a line feed, and a column counts characters.
/// From the text's length on, those of its end.
pub fn line_and_column(text: &[u8], offset: usize) -> (usize, usize)
    ensures { result ≡ line_and_column_at offset text.now }
{
    let before = if offset < text.len() {
        &text[..offset]
    } else {
        text
    };
    let mut line = 1;
    let mut column = 1;
    for &byte in before {
        let behind = line_and_column_past(line, column, byte);
        line = behind.0;
        column = behind.1;
    }
    (line, column)
}

/// The line and the column behind the byte.
pub(crate) fn line_and_column_past(line: usize, column: usize, byte: u8) -> (usize, usize)
    requires { (line < 2 ^ 63 + 1) × (column < 2 ^ 63 + 1) }
    ensures is { result ≡ line_and_column_past line column (byte ∷ []) }
    ensures small { (result.0 ≤ line + 1) × (result.1 ≤ column + 1) }
{
    if byte == b'\n' {
        (line + 1, 1)
    } else if goes_on(byte) {
        (line, column)
    } else {
        (line, column + 1)
    }
}

// Whether the byte goes on with a character that began before it.
fn goes_on(byte: u8) -> bool
    ensures { result ≡ goes_on byte }
{
    byte >= 128 && byte < 192
}
