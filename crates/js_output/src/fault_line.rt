//! The line that reports a fault.
ghost use Rattle.std.specs.Prelude.{◌≡◌, IfOk, string_bytes};
ghost use Rattle.js_output.specs.Line.{fault_line, kind_name, refused_line, refused_at_line, instance_line, entry_line};
ghost use Rattle.js_output.specs.Line.{suite_line, place_text};

use crate::fault::{Fault, SuiteFault};
use js_bundle::{EntryFault, Refusal, RefusalKind};
use js_doc::{Doc, Memory, Pointer, ReadFault, Text, text};
use std::alloc::Global;

/// The line that reports a fault, without a line feed: what was refused or failed, the place as a
/// JSON string if there is one, and the fault's name. Lack of memory is always `failed: Memory`.
///
/// # Errors
/// `Memory`.
pub fn refusal_line(alloc: Global, fault: &Fault) -> Result<String, Memory>
    ensures { IfOk result (λ line. string_bytes line ≡ fault_line fault.now) }
{
    let line = match fault {
        Fault::Memory => "failed: Memory",
        Fault::Read => "failed: Read",
        Fault::InputTooLarge => "refused: input: InputTooLarge",
        Fault::Refused(refusal) => return refused(alloc, refusal),
        Fault::Instance(fault) => return instance(alloc, fault),
        Fault::Entry(fault) => return entry(alloc, *fault),
        Fault::TooLarge => "refused: walk: TooLarge",
        Fault::Suite(fault) => return suite(alloc, fault),
        Fault::Write => "failed: Write",
    };
    Ok(String::from_str(alloc, line)?)
}

fn refused(alloc: Global, refusal: &Refusal) -> Result<String, Memory>
    ensures { IfOk result (λ line. string_bytes line
        ≡ refused_line refusal.now.document refusal.now.place refusal.now.kind) }
{
    if let RefusalKind::Memory = refusal.kind {
        return Ok(String::from_str(alloc, "failed: Memory")?);
    }
    refused_at(alloc, refusal)
}

fn refused_at(alloc: Global, refusal: &Refusal) -> Result<String, Memory>
    ensures { IfOk result (λ line. string_bytes line
        ≡ refused_at_line refusal.now.document refusal.now.place refusal.now.kind) }
{
    let Refusal {
        document,
        place,
        kind,
    } = refusal;
    let place = quoted_place(alloc, place)?;
    let kind = kind_name(*kind);
    Ok(format!(in alloc; "refused: document {document} at {place}: {kind}")?)
}

fn kind_name(kind: RefusalKind) -> &'static str
    ensures { result.now ≡ kind_name kind }
{
    match kind {
        RefusalKind::Memory => "Memory",
        RefusalKind::NotJson => "NotJson",
        RefusalKind::NotWhole => "NotWhole",
        RefusalKind::BadUri => "BadUri",
        RefusalKind::TooManyDocuments => "TooManyDocuments",
        RefusalKind::UriTooLong => "UriTooLong",
        RefusalKind::NotASchema => "NotASchema",
        RefusalKind::BadKeyword => "BadKeyword",
        RefusalKind::BadPattern => "BadPattern",
        RefusalKind::PatternTooLarge => "PatternTooLarge",
        RefusalKind::BadId => "BadId",
        RefusalKind::BadAnchor => "BadAnchor",
        RefusalKind::UnknownDialect => "UnknownDialect",
        RefusalKind::DuplicateUri => "DuplicateUri",
        RefusalKind::DuplicateAnchor => "DuplicateAnchor",
        RefusalKind::TooManyPlaces => "TooManyPlaces",
        RefusalKind::BadReference => "BadReference",
        RefusalKind::Unresolved => "Unresolved",
    }
}

fn instance(alloc: Global, fault: &ReadFault) -> Result<String, Memory>
    ensures { IfOk result (λ line. string_bytes line ≡ instance_line fault.now) }
{
    match fault {
        ReadFault::Memory => Ok(String::from_str(alloc, "failed: Memory")?),
        ReadFault::NotJson => Ok(String::from_str(alloc, "refused: instance at \"\": NotJson")?),
        ReadFault::NotWhole(place) => {
            let place = quoted_place(alloc, place)?;
            Ok(format!(in alloc; "refused: instance at {place}: NotWhole")?)
        }
    }
}

fn entry(alloc: Global, fault: EntryFault) -> Result<String, Memory>
    ensures { IfOk result (λ line. string_bytes line ≡ entry_line fault) }
{
    let line = match fault {
        EntryFault::Memory => "failed: Memory",
        EntryFault::BadUri => "refused: entry: BadUri",
        EntryFault::UriTooLong => "refused: entry: UriTooLong",
        EntryFault::Unresolved => "refused: entry: Unresolved",
    };
    Ok(String::from_str(alloc, line)?)
}

fn suite(alloc: Global, fault: &SuiteFault) -> Result<String, Memory>
    ensures { IfOk result (λ line. string_bytes line ≡ suite_line fault.now) }
{
    match fault {
        SuiteFault::NotJson => Ok(String::from_str(alloc, "refused: suite at \"\": NotJson")?),
        SuiteFault::BadSuite(place) => {
            let place = quoted_place(alloc, place)?;
            Ok(format!(in alloc; "refused: suite at {place}: BadSuite")?)
        }
    }
}

// The pointer as a JSON string.
fn quoted_place(alloc: Global, place: &Pointer) -> Result<String, Memory>
    ensures { IfOk result (λ quoted. string_bytes quoted ≡ place_text place.now) }
{
    let place = place.text(alloc)?;
    text(alloc, &Doc::Text(Text::new(place)))
}
