//! The order of names.
ghost use Rattle.std.specs.Prelude.{◌≡◌};
ghost use Rattle.js_doc.specs.Members.{name_cmp};

use std::cmp::Ordering;

/// How two names stand to each other, byte by byte, as members stand in an object. The first bytes are compared here,
/// since most names that differ do so there.
#[inline(always)]
pub fn name_order(name: &str, other: &str) -> Ordering
    ensures { result ≡ name_cmp name.now other.now }
{
    let bytes = name.as_bytes();
    let others = other.as_bytes();
    if bytes.is_empty() || others.is_empty() {
        return name.cmp(other);
    }
    if bytes[0] < others[0] {
        return Ordering::Less;
    }
    if bytes[0] > others[0] {
        return Ordering::Greater;
    }
    name.cmp(other)
}
