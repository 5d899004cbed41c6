//! Questions about a schema as a whole.
ghost use Rattle.std.specs.Prelude.{◌≡◌, [], codes, option_map};
ghost use Rattle.std.specs.Option.{option_map_or};
ghost use Rattle.js_assert.specs.Argument.{entries};
ghost use Rattle.js_doc.specs.Members.{IsAscending, get};
ghost use Rattle.js_doc.specs.Seen.{value_of};
ghost use Rattle.js_eval.specs.code.Patterns.{named_in};
ghost use Rattle.js_eval.specs.Verdict.{accepts};

use crate::instance::{names_ascend, object_in};
use js_doc::{Doc, Members};
use js_keyword::Keyword;

/// The argument of the keyword with this name, if the schema has it.
pub(crate) fn argument_in<'a>(schema: &'a Doc, name: &str) -> Option<&'a Doc>
    ensures { option_map (λ d. value_of d.now) result ≡ get name.now (entries (value_of schema.now)) }
{
    match object_in(schema) {
        Some(members) => members.get(name),
        None => None,
    }
}

/// The argument of the keyword with this name, if it is an object.
fn object_at<'a>(schema: &'a Doc, keyword: &str) -> Option<&'a Members>
    ensures { named_in result ≡ option_map_or entries (get keyword.now (entries (value_of schema.now))) [] }
{
    match argument_in(schema, keyword) {
        Some(argument) => object_in(argument),
        None => None,
    }
}

/// The argument of the schema's `properties`, if that is an object.
pub(crate) fn properties_in<'a>(schema: &'a Doc) -> Option<&'a Members>
    ensures { named_in result ≡ option_map_or entries (get (codes "properties") (entries (value_of schema.now))) [] }
{
    object_at(schema, Keyword::Properties.name())
}

/// The patterns of the schema's `patternProperties`, if that is an object.
pub(crate) fn patterns_in<'a>(schema: &'a Doc) -> Option<&'a Members>
    ensures is { named_in result
        ≡ option_map_or entries (get (codes "patternProperties") (entries (value_of schema.now))) [] }
    ensures ascend { IsAscending (named_in result) }
{
    match object_at(schema, Keyword::PatternProperties.name()) {
        Some(patterns) => {
            names_ascend(patterns);
            Some(patterns)
        }
        None => None,
    }
}

/// Whether the schema isn't `false`.
pub(crate) fn is_accepting(schema: &Doc) -> bool
    ensures { result ≡ accepts (value_of schema.now) }
{
    match schema {
        Doc::Truth(accepts) => *accepts,
        _ => true,
    }
}
