//! The keywords of a schema that apply no schemas, judged together.
ghost use Rattle.std.specs.Prelude.{◌≡◌, IfOk, filter, length, true};
ghost use Rattle.std.specs.List.{list_all};
ghost use Rattle.js_assert.specs.Assertion as spec;
ghost use Rattle.js_eval.specs.Walk.Visited.{AreJudged};
ghost use Rattle.js_eval.specs.code.Leaves.{has_leaf};
ghost use Rattle.js_eval.specs.code.Terms.{instance_of, is_place, numbered_site, schemas_of};

use crate::evaluation::Others;
use crate::instance::Instance;
use crate::keywords::assertions::satisfies;
use crate::schema_lookup::names_at;
use crate::searching::searchers::Searchers;
use js_assert::Assertion;
use js_bundle::{Place, Schemas};
use js_doc::Memory;
use js_keyword::{Keyword, OtherKeyword};
use std::alloc::Global;

/// Whether a value passes the keywords at a place that apply no schemas, and how many of them have a node. `matching`:
/// the number of items that match the adjacent `contains`.
///
/// # Errors
/// `Memory` if an allocation fails.
#[inline(never)]
pub(crate) fn judge_others<'a>(
    alloc: Global,
    schemas: &'a Schemas,
    searchers: &Searchers<'a>,
    place: Place,
    value: Instance<'a>,
    matching: u64,
) -> Result<Others, Memory>
    requires { is_place schemas.now place ≡ true }
    ensures { IfOk result (λ o. AreJudged (schemas_of schemas.now) (numbered_site schemas.now place)
        (instance_of value.entry) matching o.pass o.count) }
{
    let pass = holds_each(alloc, searchers, schemas.assertions(place), value, matching)?;
    let count = count_of(names_at(schemas, place));
    Ok(Others { pass, count })
}

fn holds_each<'a>(
    alloc: Global,
    searchers: &Searchers<'a>,
    assertions: &'a [Assertion],
    value: Instance<'a>,
    matching: u64,
) -> Result<bool, Memory>
    ensures { IfOk result (λ b. b ≡ list_all (λ a. spec.says a (instance_of value.entry) matching) assertions.now) }
{
    for assertion in assertions {
        if !satisfies(alloc, searchers, assertion, value, matching)? {
            return Ok(false);
        }
    }
    Ok(true)
}

fn count_of(names: &[Keyword]) -> usize
    ensures { result ≡ length (filter has_leaf names.now) }
{
    names.iter().filter(|name| has_leaf(**name)).count()
}

// Whether a keyword has a node, and applies no schemas: its node is a leaf of the result.
fn has_leaf(name: Keyword) -> bool
    ensures { result ≡ has_leaf name }
{
    matches!(
        name,
        Keyword::Assertion(_) | Keyword::Other(OtherKeyword::Unknown)
    )
}
