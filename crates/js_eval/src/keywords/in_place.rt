//! Keywords that apply schemas to the value itself: `allOf`, `anyOf`, `oneOf` and `not` (Core, section 10.2.1). What
//! they apply, when they pass, and their errors.
ghost use Rattle.js_keyword.specs.declared.argument_form.Holding.TheVariants as held;
ghost use Rattle.js_bundle.specs.Schemas.{fits};
ghost use Rattle.js_eval.specs.Applications.{indexed};
ghost use Rattle.js_eval.specs.Passes.{all, any, how_many};
ghost use Rattle.js_eval.specs.code.Asked.{IsAsking, asked};
ghost use Rattle.js_eval.specs.code.Starting.{HoldsBy, HoldsOne, IsAtPlace, by_keyword};
ghost use Rattle.js_eval.specs.code.Terms.{Documents, instance_of, value_of};
ghost use Rattle.js_tree.specs.Seen.{note_of};
ghost use Rattle.std.specs.Prelude.{Bool, IfOk, List, [], codes, decimal, length, map, ◌++◌, ◌∷◌, ◌≡◌};
ghost use Rattle.js_eval.specs.Note as notes;
ghost use Rattle.js_eval.specs.SchemaSet as spec;

use crate::cursors::asking::{Asking, alone};
use crate::cursors::list_cursor::ListCursor;
use crate::cursors::start::CursorStart;
use crate::evaluation::Tally;
use crate::instance::array_in;
use crate::order::keyword::KeywordAt;
use crate::schema_lookup::held_below;
use itoa::Buffer;
use js_doc::{Memory, Text};
use js_tree::Note;
use std::alloc::Global;

/// Each schema of a keyword's list, applied to the value itself.
pub(crate) fn each_in_list<'a>(start: &CursorStart<'_, 'a>) -> Asking<'a>
    requires { HoldsBy (fits held.Listed) start.now.at.now }
    ensures asked { (documents : Documents) → asked documents result
        ≡ map (λ e. by_keyword documents start.now.at.now (spec.Index e.0) spec.Alone (instance_of start.now.value))
        (indexed (value_of start.now.at.now.keyword.argument.now)) }
    ensures is { (documents : Documents) → IsAtPlace documents start.now.at.now → IsAsking documents result }
{
    let at = start.at;
    let keyword = at.keyword;
    Asking::List(ListCursor {
        at: KeywordAt {
            place: at.place,
            schema: at.schema,
            keyword,
        },
        list: array_in(keyword.argument),
        next: 0,
        value: start.value,
    })
}

/// The keyword's schema, applied to the value itself.
pub(crate) fn held<'a>(start: &CursorStart<'_, 'a>) -> Asking<'a>
    requires { HoldsOne start.now.schemas.now start.now.at.now }
    ensures asked { asked start.now.schemas.now result ≡ by_keyword start.now.schemas.now start.now.at.now
        spec.Alone spec.Alone (instance_of start.now.value) ∷ [] }
    ensures is { IsAsking start.now.schemas.now result }
{
    let (place, schema) = held_below(start.schemas, start.at);
    alone(place, schema, start.value)
}

/// Whether all applications succeed.
#[tactic(auto, using(crate::proofs::Counts::all_by_count))]
pub(crate) fn holds_all(tally: Tally) -> bool
    ensures { (verdicts : List Bool) → length verdicts ≡ tally.asked → how_many verdicts ≡ tally.succeeded
        → result ≡ all verdicts }
{
    tally.succeeded == tally.asked
}

/// Whether any application succeeds.
#[tactic(auto, using(crate::proofs::Counts::any_by_count))]
pub(crate) fn holds_any(tally: Tally) -> bool
    ensures { (verdicts : List Bool) → how_many verdicts ≡ tally.succeeded → result ≡ any verdicts }
{
    tally.succeeded != 0
}

/// The error of `oneOf`: how many of its schemas the value is valid against.
///
/// # Errors
/// `Memory` if an allocation fails.
pub(crate) fn branches_hold<'a>(alloc: Global, count: usize) -> Result<Note<'a>, Memory>
    ensures { IfOk result (λ n. note_of n ≡ notes.error (decimal count ++ codes " branches hold")) }
{
    let mut text = String::new(alloc);
    let mut buffer = Buffer::new();
    text.push_str(buffer.format(count))?;
    text.push_str(" branches hold")?;
    Ok(Note::Error(Text::new(text)))
}
