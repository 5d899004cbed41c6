//! A schema's keywords and their arguments.
ghost use Rattle.std.specs.Prelude.{◌≡◌, option_map, option_copied};
ghost use Rattle.js_doc.specs.Seen.{value_of};
ghost use Rattle.js_bundle.specs.Keyword.{argument, as_text, text_argument};

use js_doc::Doc;

/// The argument of a keyword, where the schema has it.
pub(crate) fn argument<'a>(schema: &'a Doc, keyword: &str) -> Option<&'a Doc>
    ensures { option_map (λ d. value_of d.now) result ≡ argument keyword.now (value_of schema.now) }
{
    match schema {
        Doc::Members(members) => members.get(keyword),
        _ => None,
    }
}

/// The text, if the value is one.
pub(crate) fn as_text(value: &Doc) -> Option<&str>
    ensures { option_copied result ≡ as_text (value_of value.now) }
{
    match value {
        Doc::Text(text) => Some(text.as_str()),
        _ => None,
    }
}

/// The argument of a keyword, where the schema has it and it is a text.
pub(crate) fn text_argument<'a>(schema: &'a Doc, keyword: &str) -> Option<&'a str>
    ensures { option_copied result ≡ text_argument keyword.now (value_of schema.now) }
{
    match argument(schema, keyword) {
        Some(value) => as_text(value),
        None => None,
    }
}
