//! A refusal as C sees it: numbers, and the place as text.
ghost use Rattle.std.specs.Prelude.{◌≡◌, [], IfSome};
ghost use Rattle.js_output.specs.declared.fault.Fault.TheVariants as faults;
ghost use Rattle.jschema_c.specs.Refusal.{AreParts, HasParts, IsRefusal, entry_number, kind_number, no_document};

use js_bundle::{EntryFault, Refusal, RefusalKind};
use js_doc::{Pointer, ReadFault};
use js_output::{Fault, SuiteFault};
use std::alloc::Global;

/// The parts of a refusal.
#[derive(Drop)]
pub struct RefusalParts {
    /// The number of why it is refused.
    pub kind: u32,
    /// The number of what is refused.
    pub subject: u32,
    /// The document's number in the order of adding; the greatest number if another input is refused.
    pub document: usize,
    /// The place in the document or in the instance: the text of a JSON Pointer.
    pub place: Vec<u8, Global>,
}

const NO_DOCUMENT: usize = usize::MAX;

// The numbers of what is refused.
const INPUT: u32 = 1;

const DOCUMENT: u32 = 2;

const ENTRY: u32 = 3;

const INSTANCE: u32 = 4;

const WALK: u32 = 5;

const SUITE: u32 = 6;

// The numbers of some reasons.
const NOT_JSON: u32 = 1;

const NOT_WHOLE: u32 = 2;

const INPUT_TOO_LARGE: u32 = 18;

const TOO_LARGE: u32 = 19;

const BAD_SUITE: u32 = 20;

/// The parts of a fault that is a refusal. `None` for others, and if memory runs out.
pub(crate) fn parts_of(alloc: Global, fault: &Fault) -> Option<RefusalParts>
    ensures refusal { IfSome result (λ _. IsRefusal fault.now) }
    ensures parts { IfSome result (AreParts fault.now) }
{
    match fault {
        Fault::Memory | Fault::Read | Fault::Write => None,
        Fault::InputTooLarge => Some(placeless(alloc, INPUT_TOO_LARGE, INPUT)),
        Fault::Refused(refusal) => document_parts(alloc, refusal),
        Fault::Instance(fault) => instance_parts(alloc, fault),
        Fault::Entry(fault) => Some(placeless(alloc, entry_number(*fault), ENTRY)),
        Fault::TooLarge => Some(placeless(alloc, TOO_LARGE, WALK)),
        Fault::Suite(fault) => suite_parts(alloc, fault),
    }
}

fn document_parts(alloc: Global, refusal: &Refusal) -> Option<RefusalParts>
    ensures { IfSome result (AreParts (faults.Refused refusal.now)) }
{
    let Refusal {
        document,
        place,
        kind,
    } = refusal;
    refusal_at(alloc, kind_number(*kind), DOCUMENT, *document, place)
}

fn instance_parts(alloc: Global, fault: &ReadFault) -> Option<RefusalParts>
    ensures { IfSome result (AreParts (faults.Instance fault.now)) }
{
    match fault {
        ReadFault::Memory => Some(placeless(alloc, 0, INSTANCE)),
        ReadFault::NotJson => Some(placeless(alloc, NOT_JSON, INSTANCE)),
        ReadFault::NotWhole(place) => refusal_at(alloc, NOT_WHOLE, INSTANCE, NO_DOCUMENT, place),
    }
}

fn suite_parts(alloc: Global, fault: &SuiteFault) -> Option<RefusalParts>
    ensures { IfSome result (AreParts (faults.Suite fault.now)) }
{
    match fault {
        SuiteFault::NotJson => Some(placeless(alloc, NOT_JSON, SUITE)),
        SuiteFault::BadSuite(place) => refusal_at(alloc, BAD_SUITE, SUITE, NO_DOCUMENT, place),
    }
}

fn refusal_at(
    alloc: Global,
    kind: u32,
    subject: u32,
    document: usize,
    place: &Pointer,
) -> Option<RefusalParts>
    ensures { IfSome result (HasParts kind subject document place.now) }
{
    let place = place.text(alloc).ok()?.into_bytes();
    Some(RefusalParts {
        kind,
        subject,
        document,
        place,
    })
}

// Of no document, and at no place.
fn placeless(alloc: Global, kind: u32, subject: u32) -> RefusalParts
    ensures { HasParts kind subject no_document [] result }
{
    RefusalParts {
        kind,
        subject,
        document: NO_DOCUMENT,
        place: Vec::new(alloc),
    }
}

fn entry_number(fault: EntryFault) -> u32
    ensures { result ≡ entry_number fault }
{
    match fault {
        EntryFault::Memory => 0,
        EntryFault::BadUri => 3,
        EntryFault::UriTooLong => 5,
        EntryFault::Unresolved => 17,
    }
}

fn kind_number(kind: RefusalKind) -> u32
    ensures { result ≡ kind_number kind }
{
    match kind {
        RefusalKind::Memory => 0,
        RefusalKind::NotJson => 1,
        RefusalKind::NotWhole => 2,
        RefusalKind::BadUri => 3,
        RefusalKind::TooManyDocuments => 4,
        RefusalKind::UriTooLong => 5,
        RefusalKind::NotASchema => 6,
        RefusalKind::BadKeyword => 7,
        RefusalKind::BadPattern => 8,
        RefusalKind::PatternTooLarge => 9,
        RefusalKind::BadId => 10,
        RefusalKind::BadAnchor => 11,
        RefusalKind::UnknownDialect => 12,
        RefusalKind::DuplicateUri => 13,
        RefusalKind::DuplicateAnchor => 14,
        RefusalKind::TooManyPlaces => 15,
        RefusalKind::BadReference => 16,
        RefusalKind::Unresolved => 17,
    }
}
