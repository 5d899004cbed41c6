//! Why documents and entries are refused.
use js_doc::{Memory, Pointer};

/// Which document is refused, where in it, and why.
#[derive(Debug, Drop, PartialEq, Eq)]
pub struct Refusal {
    /// The document's number, the first one's 0. For a document that isn't added, the number that it would have had.
    pub document: usize,
    /// Where in the document.
    pub place: Pointer,
    pub kind: RefusalKind,
}

/// Why a schema document is refused. The kinds are numbered in this order, from 1.
#[derive(Clone, Copy, Debug, Drop, PartialEq, Eq)]
pub enum RefusalKind {
    /// An allocation was refused.
    Memory,
    /// `serde_json` reads no value.
    NotJson,
    /// A number isn't an integer in plain digits (`0.5`, `1.0`, `1e2` and `-0` aren't) from -2^63 to 2^64 - 1.
    NotWhole,
    /// The document's URI is no absolute URL, or has a fragment that isn't empty.
    BadUri,
    /// There are 1,000 documents already.
    TooManyDocuments,
    /// A URI, an `$id` or a reference has more than 65,536 bytes.
    UriTooLong,
    /// A schema is neither an object nor a boolean (Core, section 4.3).
    NotASchema,
    /// A keyword doesn't take its argument.
    BadKeyword,
    /// A text is no pattern.
    BadPattern,
    /// A pattern is too large.
    PatternTooLarge,
    /// An `$id` can't be joined, or has a fragment that isn't empty (Core, section 8.2.1).
    BadId,
    /// The name of an `$anchor` or a `$dynamicAnchor` isn't well formed (Core, section 8.2.2).
    BadAnchor,
    /// The `$schema` is of another dialect (Core, section 8.1.1).
    UnknownDialect,
    /// Two resources have one URI.
    DuplicateUri,
    /// Two places of a resource have one name.
    DuplicateAnchor,
    /// There are more than 100,000 places.
    TooManyPlaces,
    /// A reference can't be joined, or its fragment isn't read (Core, section 8.2.3).
    BadReference,
    /// A reference names no place.
    Unresolved,
}

/// Why an entry is refused. The faults are numbered in this order, from 1.
#[derive(Clone, Copy, Debug, Drop, PartialEq, Eq)]
pub enum EntryFault {
    /// An allocation was refused.
    Memory,
    /// It is no absolute URL, or its fragment isn't read.
    BadUri,
    /// It has more than 65,536 bytes.
    UriTooLong,
    /// It names no place.
    Unresolved,
}

impl From<Memory> for EntryFault {
    ghost use Rattle.std.specs.Prelude.{◌≡◌};
    ghost use Rattle.js_bundle.specs.declared.refusal.EntryFault.TheVariants as fault;

    ghost from_gives = { λ _ e. e ≡ fault.Memory };

    fn from(_refused: Memory) -> EntryFault {
        EntryFault::Memory
    }
}
