//! Laws of the definitions that the clauses of the exports speak of. Calling one does nothing.
ghost use Rattle.std.specs.Prelude.{◌≡◌, List, Some, slice_get, ℕ};
ghost use Rattle.js_output.specs.Documents.{DocumentTexts};
ghost use Rattle.js_output.specs.Outcome.{Outcome, OutcomeWithin};
ghost use Rattle.js_tree.specs.Form.{formats};
ghost use Rattle.js_tree.specs.declared.formats.Format.{Format};
ghost use Rattle.jschema_c.specs.declared.session.Session.{Session};
ghost use Rattle.jschema_c.specs.declared.status.Status.{Status};
ghost use Rattle.jschema_c.specs.Exports.{IsSharedBy, SessionChecks, SessionEnters, SessionLimits, SessionLists};
ghost use Rattle.js_eval.specs.Result.{standard_limits};
ghost use Rattle.jschema_c.specs.Run.{IsOpenedSession, IsReady, TellsOutcome};

/// A check is a run: after `jschema_new`, `jschema_add` for each document, `jschema_finish` and `jschema_entry`, what
/// `jschema_check` answers and leaves is the outcome that `js_output::run` has with the same documents, entry, format
/// and instance.
pub fn check_is_run()
    ensures { (documents : DocumentTexts) (uri : List ℕ) (number : ℕ) (s after : Session)
        (instance : List ℕ) (format : Format) (format_number : ℕ) (answered : Status)
        → IsOpenedSession documents uri number s
        → slice_get formats format_number ≡ Some format
        → SessionChecks number instance format_number s after answered
        → TellsOutcome (Outcome documents uri format instance) answered after.said }
{
    opened_is_ready();
    ready_check_is_run();
}

/// These calls make a handle ready, with the standard limits.
pub fn opened_is_ready()
    ensures ready { (documents : DocumentTexts) (uri : List ℕ) (number : ℕ) (s : Session)
        → IsOpenedSession documents uri number s → IsReady documents uri number s }
    ensures limits { (documents : DocumentTexts) (uri : List ℕ) (number : ℕ) (s : Session)
        → IsOpenedSession documents uri number s → s.limits ≡ standard_limits }
{}

/// A check of a ready handle is a run within its limits.
pub fn ready_check_is_run()
    ensures { (documents : DocumentTexts) (uri : List ℕ) (number : ℕ) (s after : Session)
        (instance : List ℕ) (format : Format) (format_number : ℕ) (answered : Status)
        → IsReady documents uri number s
        → slice_get formats format_number ≡ Some format
        → SessionChecks number instance format_number s after answered
        → TellsOutcome (OutcomeWithin s.limits documents uri format instance) answered after.said }
{}

/// A ready handle stays so, whatever is checked, listed or looked up by it, and whatever its limits become; and a
/// handle that shares its schemas is ready too.
pub fn ready_stays()
    ensures checks { (documents : DocumentTexts) (uri : List ℕ) (number : ℕ) (s after : Session)
        (entry : ℕ) (instance : List ℕ) (format : ℕ) (answered : Status)
        → IsReady documents uri number s
        → SessionChecks entry instance format s after answered
        → IsReady documents uri number after }
    ensures lists { (documents : DocumentTexts) (uri : List ℕ) (number : ℕ) (s after : Session)
        (answered : Status)
        → IsReady documents uri number s → SessionLists s after answered
        → IsReady documents uri number after }
    ensures enters { (documents : DocumentTexts) (uri : List ℕ) (number : ℕ) (s after : Session)
        (other : List ℕ) (old new : ℕ) (answered : Status)
        → IsReady documents uri number s → SessionEnters other old new s after answered
        → IsReady documents uri number after }
    ensures limits { (documents : DocumentTexts) (uri : List ℕ) (number : ℕ) (s after : Session)
        (applications nodes : ℕ) (answered : Status)
        → IsReady documents uri number s → SessionLimits applications nodes s after answered
        → IsReady documents uri number after }
    ensures shares { (documents : DocumentTexts) (uri : List ℕ) (number : ℕ) (s shared : Session)
        → IsReady documents uri number s → IsSharedBy s shared
        → IsReady documents uri number shared }
{}
