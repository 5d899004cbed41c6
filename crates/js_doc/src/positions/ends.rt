//! Where values end.
ghost use Rattle.std.specs.Prelude.{◌≡◌, ◌≤◌, length, take};
ghost use Rattle.js_doc.specs.Positions.{is_separator, trimmed_length};

use super::starts::is_space;

/// The length of the first `count` bytes without the separators at their end.
pub(crate) fn trimmed_length(text: &[u8], count: usize) -> usize
    requires { count ≤ length text.now }
    ensures { result ≡ trimmed_length (take count text.now) }
{
    let mut end = count;
    while end > 0 && is_separator(text[end - 1]) {
        end -= 1;
    }
    end
}

// Whether the byte may stand between a value and the token behind it.
fn is_separator(byte: u8) -> bool
    ensures { result ≡ is_separator byte }
{
    is_space(byte) || byte == b','
}
