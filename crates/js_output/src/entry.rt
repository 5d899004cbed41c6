//! The schema that an instance is judged by.
ghost use Rattle.std.specs.Prelude.{◌≡◌, true, OnOk, IfOk, IfErr};
ghost use Rattle.js_bundle.specs.Schemas.{is_place, place_at};
ghost use Rattle.js_output.specs.Cause.{MayGoOn, FailsBy};
ghost use Rattle.js_output.specs.Entry.{entry_causes, entry_place};
ghost use Rattle.js_output.specs.Outcome.{IsEarlyOrMemory, IsEntryOrMemory};

use crate::fault::Fault;
use js_bundle::{Place, Schemas};
use std::alloc::Global;

/// Finished schemas, and the place of the one that instances are judged by.
#[derive(Drop)]
pub(crate) struct Entry {
    pub(crate) schemas: Schemas,
    pub(crate) place: Place,
}

/// The place that the URI names.
pub(crate) fn entry_place(alloc: Global, schemas: &Schemas, uri: &str) -> Result<Place, Fault>
    ensures there { IfOk result (λ p. is_place schemas.now p ≡ true) }
    ensures named { IfOk result (λ p. place_at schemas.now p ≡ entry_place schemas.now uri.now) }
    ensures clear { OnOk result (MayGoOn (entry_causes schemas.now uri.now)) }
    ensures err { IfErr result (FailsBy (entry_causes schemas.now uri.now)) }
    ensures early { IfErr result IsEarlyOrMemory }
    ensures entry { IfErr result IsEntryOrMemory }
{
    Ok(schemas.entry(alloc, uri)?)
}
