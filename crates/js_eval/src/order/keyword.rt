//! A keyword of a schema.
ghost use Rattle.std.specs.Prelude.{◌≡◌, IsTrue};
ghost use Rattle.js_keyword.specs.Keyword.{which_keyword};
ghost use Rattle.js_eval.specs.code.Standard.{IsWrittenAsItIs};

use js_bundle::Place;
use js_doc::{Doc, is_plain_token};
use js_keyword::Keyword;

/// A keyword's name, which keyword of the standard it is, and its argument.
#[derive(Clone, Copy)]
pub(crate) struct Member<'a> {
    pub(crate) name: &'a str,
    pub(crate) which: Keyword,
    pub(crate) argument: &'a Doc,
    ghost known: { which ≡ which_keyword name.now },
}

/// A keyword, the schema that has it, and the place of that schema.
#[derive(Clone, Copy)]
pub(crate) struct KeywordAt<'a> {
    pub(crate) place: Place,
    pub(crate) schema: &'a Doc,
    pub(crate) keyword: Member<'a>,
}

/// Whether a keyword's name is known to need no escapes in a pointer, in a fragment or in a JSON string. Those of the
/// standard's applicators and assertions need none, so only the others are looked at.
pub(crate) fn is_written_as_it_is(which: Keyword, name: &str) -> bool
    requires { which ≡ which_keyword name.now }
    ensures { IsTrue result → IsWrittenAsItIs name.now }
{
    if matches!(which, Keyword::Other(_)) {
        return is_plain_token(name);
    }
    true
}
