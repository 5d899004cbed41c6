//! Laws of the definitions. Each is stated as the contract of a function that does nothing.
ghost use Rattle.std.specs.Prelude.{ℕ, Bool, List, Option};
ghost use Rattle.js_doc.specs.Value.{Named, Value as JsonValue};
ghost use Rattle.js_bundle.specs.Document.{Documents};
ghost use Rattle.js_eval.specs.Collected.{RowsAreCollected, TreeIsCollected, VerdictIsCollected};
ghost use Rattle.js_eval.specs.Examples.{Shown};
ghost use Rattle.js_eval.specs.Laws.{AtMostOneResult, DepthIsLeast, LimitsAreExact, LocationsGoOn, NoCircle};
ghost use Rattle.js_eval.specs.Laws.{NothingStandsIn, ResultExactlyIfSettled, SizeIsTotal, StaysSettled};
ghost use Rattle.js_eval.specs.Laws.{StandsForEveryItem};
ghost use Rattle.js_eval.specs.Keywords.{Member};
ghost use Rattle.js_eval.specs.ResultExamples.{GiveTheseResults};
ghost use Rattle.js_eval.specs.declared.evaluation.limits.Limits.{Limits};
ghost use Rattle.js_eval.specs.SchemaSet.{SchemaSet, Text};

use js_bundle::laws::what_is_held_and_named_is_found;

/// What is known within a number of nested schema applications stays the same within every greater number.
pub fn settled_stays<Place>()
    ensures { (S : SchemaSet Place) (above : List Place) (place : Place) (v : JsonValue)
        → StaysSettled S above place v }
{}

/// There is at most one result. There is one exactly if evaluation ends, within some number of nested applications.
pub fn one_result<Place>()
    ensures most { (S : SchemaSet Place) (above : List Place) (place : Place) (v : JsonValue)
        → AtMostOneResult S above place v }
    ensures exactly { (S : SchemaSet Place) (above : List Place) (place : Place) (v : JsonValue)
        → ResultExactlyIfSettled S above place v }
{}

/// The depth of the result is the least number of nested applications within which evaluation ends. Its size can be
/// computed without building it, so whether the limits are met doesn't depend on how the result is built.
pub fn limits<Place>()
    ensures depth { (S : SchemaSet Place) (above : List Place) (place : Place) (v : JsonValue)
        → DepthIsLeast S above place v }
    ensures size { (S : SchemaSet Place) (above : List Place) (place : Place) (v : JsonValue)
        → SizeIsTotal S above place v }
    ensures exact { (S : SchemaSet Place) (above : List Place) (place : Place) (v : JsonValue)
        → LimitsAreExact S above place v }
{}

/// The keyword location and the instance location of each node of the result begin with those of the node above.
pub fn locations_go_on_from_above<Place>()
    ensures { (S : SchemaSet Place) (above : List Place) (place : Place) (v : JsonValue)
        → LocationsGoOn S above place v }
{}

/// Neither of the two unevaluated keywords depends on what the other evaluates (JSON Schema Core, section 11).
pub fn no_circle<Place>()
    ensures { (S : SchemaSet Place) (above : List Place) (place : Place) (v : JsonValue) → NoCircle S above place v }
{}

/// Comparing numbers of items is enough to know that `prefixItems` was applied to every item of a nonempty array, or
/// that every item matches `contains`.
pub fn every_item<Place>()
    ensures { (S : SchemaSet Place) (path : List Place) (place : Place) (v : JsonValue) (siblings : Named)
        (condition : Option Bool) (names : List Text) (indexes : List ℕ) (k : Member)
        → StandsForEveryItem S path place v siblings condition names indexes k }
{}

/// In accepted documents no look-up of a schema fails: each application that a keyword asks for is of a schema that
/// is found (JSON Schema Core, sections 8.2.3, 10 and 11). So the definitions never fall back to the place itself.
pub fn nothing_stands_in()
    ensures { NothingStandsIn }
{
    what_is_held_and_named_is_found()
}

/// After a walk that succeeds, a collector of js_tree that was new holds the result: `Verdict` its verdict (with limits
/// that are no greater than the standard ones), `Boxed` the tree, `Flat` its rows.
pub fn walks_are_collected()
    ensures verdict { (limits : Limits) (documents : Documents) (place : ℕ) (v : JsonValue)
        → VerdictIsCollected limits documents place v }
    ensures tree { (limits : Limits) (documents : Documents) (place : ℕ) (v : JsonValue)
        → TreeIsCollected limits documents place v }
    ensures rows { (limits : Limits) (documents : Documents) (place : ℕ) (v : JsonValue)
        → RowsAreCollected limits documents place v }
{}

/// For some schemas and instances, the definitions give the verdicts that the standard gives.
pub fn examples()
    ensures { Shown }
{}

/// For some documents and instances, the definitions give these results, node by node. 512 nested applications are
/// within the standard limit, and a chain of that many needs all of them.
pub fn results()
    ensures { GiveTheseResults }
{}
