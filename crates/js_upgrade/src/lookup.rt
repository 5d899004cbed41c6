//! Members of a schema, found by their names.
ghost use Rattle.std.specs.Prelude.{◌≡◌, option_map};
ghost use Rattle.js_doc.specs.Members.{get};
ghost use Rattle.js_doc.specs.Seen.{value_of};

use crate::keyword::initial;
use js_doc::{Doc, Members};

/// The value under the name. Names that begin with `$` are among the first, and most schemas have none or one.
pub(crate) fn found<'d>(siblings: &'d Members, name: &str) -> Option<&'d Doc>
    ensures { option_map (λ d. value_of d.now) result ≡ get name.now siblings.now }
{
    if initial(name) == b'$' {
        found_early(siblings, name)
    } else {
        siblings.get(name)
    }
}

// One after the other, until a name begins with a greater byte.
fn found_early<'d>(siblings: &'d Members, name: &str) -> Option<&'d Doc>
    ensures { option_map (λ d. value_of d.now) result ≡ get name.now siblings.now }
{
    for (key, value) in siblings.pairs() {
        let key = key.as_str();
        if initial(name) < initial(key) {
            return None;
        }
        if key == name {
            return Some(value);
        }
    }
    None
}
