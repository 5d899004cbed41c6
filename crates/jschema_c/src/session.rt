//! What a handle holds: documents or schemas, the entries that were looked up, and what the last call left.
ghost use Rattle.std.specs.Prelude.{◌≡◌, [], None, true, false, IfOk, IfSome, IfNone, OnErr, MatchOption};
ghost use Rattle.std.specs.Str.{IsUtf8};
ghost use Rattle.jschema_c.specs.Exports.{IsNew, SessionAdds, SessionFinishes, SessionLists, SessionEnters};
ghost use Rattle.jschema_c.specs.Exports.{IsSharedBy, SessionChecks, SessionLimits, SessionTraces};
ghost use Rattle.jschema_c.specs.Exports.{SessionShows, SessionUpgrades, TellsRefusal, refusal_room};
ghost use Rattle.jschema_c.specs.LastCall.{text_in};
ghost use Rattle.jschema_c.specs.Session.{finished_in, IsFinished};
ghost use Rattle.jschema_c.specs.Session.{Adds, Finishes, IsUriText, has_zero, Lists, Enters, Checks, Judges};
ghost use Rattle.js_bundle.specs.Schemas.{is_place, place_at};
ghost use Rattle.js_output.specs.Outcome.{InstanceOutcomeWithin};
ghost use Rattle.js_tree.specs.declared.formats.Format.TheVariants.{Flag};

use crate::last_call::{LastCall, copy_fitting};
use crate::showing::show_text;
use crate::status::Status;
use crate::tracing::traced;
use crate::upgrading::upgrade_phase;
use js_bundle::{Bundle, Place, Schemas};
use js_output::{Fault, Limits, Sink, judge_within, list_places};
use js_tree::Format;
use std::alloc::{AllocError, Global};
use std::io;
use std::mem::replace;
use std::sync::Arc;

/// A document has at most so many bytes, as every input of the program.
pub(crate) const LONGEST_DOCUMENT: usize = 16_777_216;

/// Documents, or the schemas of finished ones.
#[derive(Drop)]
pub enum Phase {
    /// Documents can be added.
    Adding(Bundle),
    /// Instances can be checked. Other sessions, in other threads too, may own the schemas as well.
    Finished(Arc<Schemas>),
}

/// A phase, the limits on results, the entries that were looked up, and what the last call left.
#[derive(Drop)]
pub struct Session {
    pub phase: Phase,
    pub limits: Limits,
    pub entries: Vec<Place, Global>,
    pub said: LastCall,
}

impl Session {
    /// No document yet.
    pub(crate) fn new(alloc: Global) -> Session
        ensures { IsNew result }
    {
        Session {
            phase: Phase::Adding(Bundle::new(alloc)),
            limits: Limits::standard(),
            entries: Vec::new(alloc),
            said: LastCall::new(alloc),
        }
    }

    /// Sets the limits on results.
    pub(crate) fn set_limits(&mut self, applications: usize, nodes: usize) -> Status
        ensures { SessionLimits applications nodes self.old self.new result }
    {
        self.said.reset();
        match Limits::at_most(applications, nodes) {
            Some(limits) => {
                self.limits = limits;
                Status::Done
            }
            None => Status::Misused,
        }
    }

    /// Adds a document.
    pub(crate) fn append_document(&mut self, alloc: Global, uri: &[u8], document: &[u8]) -> Status
        ensures { SessionAdds uri.now document.now self.old self.new result }
    {
        let came = added(&mut self.phase, uri, document);
        self.said.answer(alloc, came)
    }

    /// Upgrades the documents from older drafts.
    pub(crate) fn upgrade_documents(&mut self, alloc: Global, dialect: &[u8]) -> Status
        ensures { SessionUpgrades dialect.now self.old self.new result }
    {
        let came = upgrade_phase(alloc, &mut self.phase, dialect);
        self.said.answer(alloc, came)
    }

    /// Shows the document with this number as the text.
    pub(crate) fn show_document(&mut self, alloc: Global, number: usize) -> Status
        ensures { SessionShows number self.old self.new result }
    {
        let came = show_text(alloc, &self.phase, number, &mut self.said);
        self.said.conclude(alloc, came)
    }

    /// Lists where parts of an upgraded document come from as the text.
    pub(crate) fn trace(
        &mut self,
        alloc: Global,
        dialect: &[u8],
        document: &[u8],
        pointers: &[u8],
        ends: &[usize],
    ) -> Status
        ensures { SessionTraces dialect.now document.now pointers.now ends.now self.old self.new result }
    {
        let came = traced(alloc, dialect, document, pointers, ends, &mut self.said);
        self.said.conclude(alloc, came)
    }

    /// Finishes the documents.
    pub(crate) fn finish_documents(&mut self, alloc: Global) -> Status
        ensures { SessionFinishes self.old self.new result }
    {
        let came = finished(alloc, &mut self.phase);
        self.said.answer(alloc, came)
    }

    /// Lists the locations of all schemas as the text.
    pub(crate) fn list(&mut self, alloc: Global) -> Status
        ensures { SessionLists self.old self.new result }
    {
        let came = listed(alloc, &self.phase, &mut self.said);
        self.said.conclude(alloc, came)
    }

    /// Looks an entry up, and numbers it.
    pub(crate) fn number_entry(&mut self, alloc: Global, uri: &[u8], number: &mut usize) -> Status
        ensures { SessionEnters uri.now number.old number.new self.old self.new result }
    {
        let came = entered(alloc, &self.phase, uri, &mut self.entries, number);
        self.said.answer(alloc, came)
    }

    /// Another session over the same finished schemas, with the same numbered entries. `None` if the documents aren't
    /// finished.
    ///
    /// # Errors
    /// `AllocError` if an allocation fails.
    pub(crate) fn share_schemas(&self, alloc: Global) -> Result<Option<Session>, AllocError>
        ensures shared { IfOk result (λ o. MatchOption o (finished_in self.now.phase ≡ None) (IsSharedBy self.now)) }
        ensures finished { OnErr result (IsFinished self.now.phase) }
    {
        let Phase::Finished(schemas) = &self.phase else {
            return Ok(None);
        };
        let mut entries = Vec::with_capacity(alloc, self.entries.len())?;
        entries.extend_from_slice(self.entries.as_slice())?;
        Ok(Some(Session {
            phase: Phase::Finished(schemas.clone()?),
            limits: self.limits,
            entries,
            said: LastCall::new(alloc),
        }))
    }

    /// Checks an instance.
    pub(crate) fn check_instance(
        &mut self,
        alloc: Global,
        entry: usize,
        instance: &[u8],
        format: u32,
    ) -> Status
        ensures { SessionChecks entry instance.now format self.old self.new result }
    {
        let mut said = replace(&mut self.said, LastCall::new(alloc));
        let came = self.checked(alloc, entry, instance, format, &mut said);
        self.said = said;
        self.said.conclude(alloc, came)
    }

    /// Copies the parts of what the last call refused.
    pub(crate) fn tell_refusal(
        &self,
        kind: &mut u32,
        subject: &mut u32,
        document: &mut usize,
        place: &mut [u8],
        place_length: &mut usize,
    ) -> Status
        ensures { TellsRefusal self.now.said.refusal
            (refusal_room kind.old subject.old document.old place.old place_length.old)
            (refusal_room kind.new subject.new document.new place.new place_length.new) result }
    {
        let Some(parts) = &self.said.refusal else {
            return Status::Misused;
        };
        *kind = parts.kind;
        *subject = parts.subject;
        *document = parts.document;
        *place_length = copy_fitting(parts.place.as_slice(), place);
        Status::Done
    }

    // The result of a check. Its output becomes the text.
    fn checked(
        &self,
        alloc: Global,
        entry: usize,
        instance: &[u8],
        format: u32,
        said: &mut LastCall,
    ) -> Result<Status, Fault>
        ensures checks { Checks self.now.phase self.now.limits self.now.entries.items entry instance.now format
            (text_in said.new) result }
        ensures none { said.new.refusal ≡ None }
    {
        said.reset();
        let Phase::Finished(schemas) = &self.phase else {
            return Ok(Status::Misused);
        };
        let Some(place) = self.entries.as_slice().get(entry) else {
            return Ok(Status::Misused);
        };
        let Some(format) = Format::numbered(format) else {
            return Ok(Status::Misused);
        };
        if !schemas.has(*place) {
            return Ok(Status::Misused);
        }
        match format {
            Format::Flag => found(alloc, schemas, *place, instance, self.limits, said),
            _ => judged(alloc, schemas, *place, instance, format, self.limits, said),
        }
    }
}

// A URI as a text. `None` if it isn't UTF-8, or has a zero byte.
fn uri_text(bytes: &[u8]) -> Option<&str>
    ensures text { IfSome result (λ text. text.now ≡ bytes.now) }
    ensures utf8 { IfSome result (λ _. IsUtf8 bytes.now) }
    ensures nonzero { IfSome result (λ _. has_zero bytes.now ≡ false) }
    ensures none { IfNone result (IsUriText bytes.now → ⊥) }
{
    let Ok(text) = str::from_utf8(bytes) else {
        return None;
    };
    if has_zero(bytes) {
        return None;
    }
    Some(text)
}

fn has_zero(bytes: &[u8]) -> bool
    ensures { result ≡ has_zero bytes.now }
{
    bytes.iter().any(|byte| *byte == 0)
}

fn added(phase: &mut Phase, uri: &[u8], document: &[u8]) -> Result<Status, Fault>
    ensures { Adds uri.now document.now phase.old phase.new result }
{
    let Phase::Adding(bundle) = phase else {
        return Ok(Status::Misused);
    };
    let Some(uri) = uri_text(uri) else {
        return Ok(Status::Misused);
    };
    if LONGEST_DOCUMENT < document.len() {
        return Err(Fault::InputTooLarge);
    }
    match bundle.add(uri, document) {
        Ok(()) => Ok(Status::Done),
        Err(refusal) => Err(Fault::from(refusal)),
    }
}

fn finished(alloc: Global, phase: &mut Phase) -> Result<Status, Fault>
    ensures { Finishes phase.old phase.new result }
{
    let Phase::Adding(bundle) = phase else {
        return Ok(Status::Misused);
    };
    match replace(bundle, Bundle::new(alloc)).finish_shared(alloc) {
        Ok(schemas) => {
            *phase = Phase::Finished(schemas);
            Ok(Status::Done)
        }
        Err((refusal, same)) => {
            *bundle = same;
            Err(Fault::from(refusal))
        }
    }
}

fn listed(alloc: Global, phase: &Phase, said: &mut LastCall) -> Result<Status, Fault>
    ensures lists { Lists phase.now (text_in said.new) result }
    ensures none { said.new.refusal ≡ None }
{
    said.reset();
    let Phase::Finished(schemas) = phase else {
        return Ok(Status::Misused);
    };
    match list_places(alloc, schemas) {
        Ok(list) => {
            said.text = list.into_bytes();
            Ok(Status::Done)
        }
        Err(fault) => Err(fault),
    }
}

fn entered(
    alloc: Global,
    phase: &Phase,
    uri: &[u8],
    entries: &mut Vec<Place, Global>,
    number: &mut usize,
) -> Result<Status, Fault>
    ensures { Enters phase.now uri.now (entries.old.items, number.old)
        (entries.new.items, number.new) result }
{
    let Phase::Finished(schemas) = phase else {
        return Ok(Status::Misused);
    };
    let Some(uri) = uri_text(uri) else {
        return Ok(Status::Misused);
    };
    let place = match schemas.entry(alloc, uri) {
        Ok(place) => place,
        Err(fault) => return Err(Fault::from(fault)),
    };
    let next = entries.len();
    match entries.push(place) {
        Ok(()) => {
            *number = next;
            Ok(Status::Done)
        }
        Err(_) => Err(Fault::Memory),
    }
}

fn judged(
    alloc: Global,
    schemas: &Schemas,
    place: Place,
    instance: &[u8],
    format: Format,
    limits: Limits,
    said: &mut LastCall,
) -> Result<Status, Fault>
    requires place { is_place schemas.now place ≡ true }
    requires verdict { said.old.verdict ≡ None }
    requires empty { said.old.text.items ≡ [] }
    requires none { said.old.refusal ≡ None }
    ensures judges { Judges (InstanceOutcomeWithin limits schemas.now (place_at schemas.now place) format instance.now)
        (text_in said.new) result }
    ensures none { said.new.refusal ≡ None }
{
    let mut out = Sink::new(replace(&mut said.text, Vec::new(alloc)));
    let answer = judge_within(alloc, schemas, place, instance, format, limits, &mut out);
    said.text = out.into_device();
    match answer {
        Ok(true) => Ok(Status::Done),
        Ok(false) => Ok(Status::Invalid),
        Err(fault) => Err(fault),
    }
}

// The same in the format flag, whose output isn't kept.
fn found(
    alloc: Global,
    schemas: &Schemas,
    place: Place,
    instance: &[u8],
    limits: Limits,
    said: &mut LastCall,
) -> Result<Status, Fault>
    requires place { is_place schemas.now place ≡ true }
    requires none { said.old.refusal ≡ None }
    ensures judges { Judges (InstanceOutcomeWithin limits schemas.now (place_at schemas.now place) Flag instance.now)
        (text_in said.new) result }
    ensures none { said.new.refusal ≡ None }
{
    let mut out = Sink::new(io::sink());
    match judge_within(
        alloc,
        schemas,
        place,
        instance,
        Format::Flag,
        limits,
        &mut out,
    ) {
        Ok(true) => {
            said.verdict = Some(true);
            Ok(Status::Done)
        }
        Ok(false) => {
            said.verdict = Some(false);
            Ok(Status::Invalid)
        }
        Err(fault) => Err(fault),
    }
}
