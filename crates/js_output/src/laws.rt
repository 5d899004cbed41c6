//! Laws of the definitions that this crate's contracts speak of. Calling one does nothing.
ghost use Rattle.std.specs.Prelude.{◌≡◌, List, ℕ, Option, Result, ◌↔◌, ◌⊎◌};
ghost use Rattle.js_bundle.specs.Document.{Documents};
ghost use Rattle.js_eval.specs.declared.evaluation.limits.Limits.{Limits};
ghost use Rattle.js_tree.specs.declared.formats.Format.{Format};
ghost use Rattle.js_output.specs.Cause.{MayGoOn};
ghost use Rattle.js_output.specs.Device.{Tracked};
ghost use Rattle.js_output.specs.Documents.{DocumentTexts, bundle_of, documents_causes};
ghost use Rattle.js_output.specs.Finished.{AreFinished};
ghost use Rattle.js_output.specs.Headline.{FinishedHeadline, Headline};
ghost use Rattle.js_output.specs.Outcome.{FinishedOutcomeWithin, OutcomeWithin, Output};
ghost use Rattle.js_output.specs.Report.{After, StopsBy};
ghost use Rattle.js_output.specs.declared.fault.Fault.{Fault};

/// What the clause `answer` of [`crate::run`] says, in the standard's terms (JSON Schema Core,
/// sections 12.3 and 12.4).
///
/// For every accepted bundle and entry, and each instance text that is read and isn't too large,
/// the bytes written are the requested form of the standard's result, and the verdict is returned:
/// flag shows the verdict, verbose the whole tree, basic the units with a note of the pruned tree,
/// detailed the one tree in which every run of the two condensing rules from the pruned tree ends,
/// merged the one in which every run of these and of the rule that merges alike siblings ends.
/// A run leads to that tree, each that can't be continued ends in it, and each can be continued to it.
/// Or `TooLarge` is returned, if and only if no result is within the limits. Of `run` these are the
/// standard limits.
pub fn headline<Device>()
    ensures { (limits : Limits) (taken : Device → Option (List ℕ)) (old new : Tracked Device)
        → Headline limits taken old new }
{}

/// Adding documents to a bundle, finishing it, and then [`crate::run_finished`] is [`crate::run`],
/// for the same entry, format and instance: what comes over the schemas is an outcome of the run
/// over these documents, and an outcome of the run comes over the schemas, or is a refusal of a
/// pattern that may also be passed over, as it was in finishing. With other limits it is the same.
pub fn finished_outcome()
    ensures schemas { (documents : DocumentTexts) (schemas : Documents)
        → AreFinished documents schemas
        → (schemas ≡ bundle_of documents) × MayGoOn (documents_causes documents) }
    ensures over { (documents : DocumentTexts) (schemas : Documents)
        → AreFinished documents schemas
        → (limits : Limits) (entry : List ℕ) (format : Format) (instance : List ℕ)
        (outcome : Result Output Fault)
        → FinishedOutcomeWithin limits schemas entry format instance outcome
        → OutcomeWithin limits documents entry format instance outcome }
    ensures under { (documents : DocumentTexts) (schemas : Documents)
        → AreFinished documents schemas
        → (limits : Limits) (entry : List ℕ) (format : Format) (instance : List ℕ)
        (outcome : Result Output Fault)
        → OutcomeWithin limits documents entry format instance outcome
        → StopsBy (documents_causes documents) outcome
        ⊎ FinishedOutcomeWithin limits schemas entry format instance outcome }
{}

/// The outcome of a run is the first refusal of its documents, or what comes over their schemas. So
/// [`crate::run_finished`] says no less than [`crate::run`].
pub fn outcome_in_parts()
    ensures { (limits : Limits) (documents : DocumentTexts) (entry : List ℕ) (format : Format)
        (instance : List ℕ) (outcome : Result Output Fault)
        → OutcomeWithin limits documents entry format instance outcome
        ↔ After (documents_causes documents)
        (FinishedOutcomeWithin limits (bundle_of documents) entry format instance) outcome }
{}

/// [`headline`] of schemas that are kept: it follows from the clause `answer` of
/// [`crate::run_finished`], for each entry and instance that they are asked.
pub fn finished_headline<Device>()
    ensures { (limits : Limits) (taken : Device → Option (List ℕ)) (old new : Tracked Device)
        → FinishedHeadline limits taken old new }
{}
