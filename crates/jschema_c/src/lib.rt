//! jschema for C: schema documents are added and finished once, then instances are checked. The header is
//! `c/jschema.h`.
#![tactic(auto)]

ghost use Rattle.std.specs.Prelude.{◌≡◌, ◌≢◌, None, IfSome, IsSomeAnd, length};
ghost use Rattle.jschema_c.specs.Exports.{IsNew, OnHandle, SessionAdds, SessionFinishes, SessionLists, SessionEnters};
ghost use Rattle.jschema_c.specs.Exports.{AnswersNumber, IsPut, SessionChecks, SessionLimits, SessionTraces};
ghost use Rattle.jschema_c.specs.Exports.{SessionShows, SessionUpgrades, Shares, TellsRefusal};
ghost use Rattle.jschema_c.specs.Exports.{refusal_in, refusal_room};
ghost use Rattle.jschema_c.specs.Locating.{Locates};
ghost use Rattle.jschema_c.specs.LastCall.{copied, text_in};
ghost use Rattle.jschema_c.specs.Status.{code};
ghost use Rattle.jschema_c.specs.declared.status.Status.TheVariants as Status;

mod handle;
mod last_call;
pub mod laws;
mod loose;
mod position;
mod refusal;
mod session;
pub mod sharing_laws;
mod showing;
mod status;
mod tracing;
mod upgrading;

use handle::Handle;
use last_call::copy_fitting;
use position::{ValuePosition, locate};
use session::Session;
use status::Status;
use std::alloc::Global;

/// Begins anew, without documents. What the handle held is dropped.
#[unsafe(no_mangle)]
pub extern "C" fn jschema_new(alloc: Global, handle: &mut Handle) -> u32
    ensures made { result ≡ code Status.Done → IsSomeAnd handle.new.value IsNew }
    ensures refused { result ≢ code Status.Done
        → (result ≡ code Status.Failed) × (handle.new.value ≡ None) }
{
    jschema_free(alloc, handle);
    match Box::new(alloc, Session::new(alloc)) {
        Ok(made) => {
            handle.put_session(alloc, made);
            Status::Done.code()
        }
        Err(_) => Status::Failed.code(),
    }
}

/// Sets the limits on results: how many nested schema applications one may need, and how many nodes it may have.
#[unsafe(no_mangle)]
pub extern "C" fn jschema_limit(
    alloc: Global,
    handle: &mut Handle,
    applications: usize,
    nodes: usize,
) -> u32
    ensures { OnHandle (SessionLimits applications nodes) handle.old.value handle.new.value result }
{
    let Some(mut taken) = handle.take_session(alloc) else {
        return Status::Misused.code();
    };
    let status = taken.session.set_limits(applications, nodes);
    handle.put_taken(alloc, taken);
    status.code()
}

/// Adds a document under a URI.
#[unsafe(no_mangle)]
pub extern "C" fn jschema_add(
    alloc: Global,
    handle: &mut Handle,
    uri: &[u8],
    document: &[u8],
) -> u32
    ensures { OnHandle (SessionAdds uri.now document.now) handle.old.value handle.new.value result }
{
    let Some(mut taken) = handle.take_session(alloc) else {
        return Status::Misused.code();
    };
    let status = taken.session.append_document(alloc, uri, document);
    handle.put_taken(alloc, taken);
    status.code()
}

/// Upgrades the documents from older drafts to 2020-12, together: a reference of one may lead into another. A document
/// that names no dialect is of the one whose URI this is; of 2020-12 if it is empty. If one is refused, all stay as
/// they were.
#[unsafe(no_mangle)]
pub extern "C" fn jschema_upgrade(alloc: Global, handle: &mut Handle, dialect: &[u8]) -> u32
    ensures { OnHandle (SessionUpgrades dialect.now) handle.old.value handle.new.value result }
{
    let Some(mut taken) = handle.take_session(alloc) else {
        return Status::Misused.code();
    };
    let status = taken.session.upgrade_documents(alloc, dialect);
    handle.put_taken(alloc, taken);
    status.code()
}

/// Shows the document with this number, 0 for the first that was added, as it is now: its compact text and a line feed
/// are the text. There is none once the documents are finished.
#[unsafe(no_mangle)]
pub extern "C" fn jschema_document(alloc: Global, handle: &mut Handle, number: usize) -> u32
    ensures { OnHandle (SessionShows number) handle.old.value handle.new.value result }
{
    let Some(mut taken) = handle.take_session(alloc) else {
        return Status::Misused.code();
    };
    let status = taken.session.show_document(alloc, number);
    handle.put_taken(alloc, taken);
    status.code()
}

/// Lists where parts of an upgraded document come from in the document as it was, which has this text: as the text, a
/// JSON array with a JSON Pointer for each that is given, or null where nothing stands there. The pointers' texts stand
/// one after another, each up to its end. A document that names no dialect is of the one whose URI this is; of 2020-12
/// if it is empty.
#[unsafe(no_mangle)]
pub extern "C" fn jschema_origins(
    alloc: Global,
    handle: &mut Handle,
    dialect: &[u8],
    document: &[u8],
    pointers: &[u8],
    ends: &[usize],
) -> u32
    ensures { OnHandle (SessionTraces dialect.now document.now pointers.now ends.now) handle.old.value
        handle.new.value result }
{
    let Some(mut taken) = handle.take_session(alloc) else {
        return Status::Misused.code();
    };
    let status = taken
        .session
        .trace(alloc, dialect, document, pointers, ends);
    handle.put_taken(alloc, taken);
    status.code()
}

/// Finishes the documents. If one is refused, all stay as they were.
#[unsafe(no_mangle)]
pub extern "C" fn jschema_finish(alloc: Global, handle: &mut Handle) -> u32
    ensures { OnHandle SessionFinishes handle.old.value handle.new.value result }
{
    let Some(mut taken) = handle.take_session(alloc) else {
        return Status::Misused.code();
    };
    let status = taken.session.finish_documents(alloc);
    handle.put_taken(alloc, taken);
    status.code()
}

/// Lists the absolute locations of all schemas: a line each, as the text.
#[unsafe(no_mangle)]
pub extern "C" fn jschema_places(alloc: Global, handle: &mut Handle) -> u32
    ensures { OnHandle SessionLists handle.old.value handle.new.value result }
{
    let Some(mut taken) = handle.take_session(alloc) else {
        return Status::Misused.code();
    };
    let status = taken.session.list(alloc);
    handle.put_taken(alloc, taken);
    status.code()
}

/// Looks up the schema that a URI names, and gives it a number. On an empty handle the caller's number stays.
#[unsafe(no_mangle)]
pub extern "C" fn jschema_entry(
    alloc: Global,
    handle: &mut Handle,
    uri: &[u8],
    number: &mut usize,
) -> u32
    ensures enters { OnHandle (SessionEnters uri.now number.old number.new) handle.old.value
        handle.new.value result }
    ensures stays { handle.old.value ≡ None → number.new ≡ number.old }
{
    let Some(mut taken) = handle.take_session(alloc) else {
        return Status::Misused.code();
    };
    let status = taken.session.number_entry(alloc, uri, number);
    handle.put_taken(alloc, taken);
    status.code()
}

/// Makes another handle on the same finished schemas, with the same limits and numbers of entries: for another
/// thread. What it held is dropped.
#[unsafe(no_mangle)]
pub extern "C" fn jschema_share(alloc: Global, handle: &mut Handle, other: &mut Handle) -> u32
    ensures shares { AnswersNumber result (Shares handle.old.value other.old.value other.new.value) }
    ensures stays { handle.new.value ≡ handle.old.value }
{
    let Some(taken) = handle.take_session(alloc) else {
        return Status::Misused.code();
    };
    let made = taken.session.share_schemas(alloc);
    handle.put_taken(alloc, taken);
    let status = match made {
        Ok(Some(shared)) => put_shared(alloc, shared, other),
        Ok(None) => Status::Misused,
        Err(_) => Status::Failed,
    };
    status.code()
}

/// Checks an instance against the schema that an entry's number names.
#[unsafe(no_mangle)]
pub extern "C" fn jschema_check(
    alloc: Global,
    handle: &mut Handle,
    entry: usize,
    instance: &[u8],
    format: u32,
) -> u32
    ensures { OnHandle (SessionChecks entry instance.now format) handle.old.value
        handle.new.value result }
{
    let Some(mut taken) = handle.take_session(alloc) else {
        return Status::Misused.code();
    };
    let status = taken.session.check_instance(alloc, entry, instance, format);
    handle.put_taken(alloc, taken);
    status.code()
}

/// The length of the text that the last call left. As many of its bytes as fit are copied.
#[unsafe(no_mangle)]
pub extern "C" fn jschema_text(alloc: Global, handle: &mut Handle, out: &mut [u8]) -> usize
    ensures none { handle.old.value ≡ None → (result ≡ 0) × (out.new ≡ out.old) }
    ensures text { IfSome handle.old.value (λ s. (result ≡ length (text_in s.said))
        × (out.new ≡ copied (text_in s.said) out.old)) }
    ensures stays { handle.new.value ≡ handle.old.value }
{
    let Some(taken) = handle.take_session(alloc) else {
        return 0;
    };
    let whole = copy_fitting(taken.session.said.text(), out);
    handle.put_taken(alloc, taken);
    whole
}

/// What the last call refused: why, what, of which document, and where. As many bytes of the place as fit are copied.
/// If nothing was refused, the caller's memory stays.
#[unsafe(no_mangle)]
pub extern "C" fn jschema_refusal(
    alloc: Global,
    handle: &mut Handle,
    kind: &mut u32,
    subject: &mut u32,
    document: &mut usize,
    place: &mut [u8],
    place_length: &mut usize,
) -> u32
    ensures tells { AnswersNumber result (TellsRefusal (refusal_in handle.old.value)
        (refusal_room kind.old subject.old document.old place.old place_length.old)
        (refusal_room kind.new subject.new document.new place.new place_length.new)) }
    ensures stays { handle.new.value ≡ handle.old.value }
{
    let Some(taken) = handle.take_session(alloc) else {
        return Status::Misused.code();
    };
    let status = taken
        .session
        .tell_refusal(kind, subject, document, place, place_length);
    handle.put_taken(alloc, taken);
    status.code()
}

/// Where the values at JSON Pointers stand in a JSON text. The pointers' texts stand one after another, each up to its
/// end.
#[unsafe(no_mangle)]
pub extern "C" fn jschema_positions(
    alloc: Global,
    text: &[u8],
    pointers: &[u8],
    ends: &[usize],
    positions: &mut [ValuePosition],
) -> u32
    ensures { AnswersNumber result (Locates text.now pointers.now ends.now positions.old positions.new) }
{
    locate(alloc, text, pointers, ends, positions).code()
}

/// Frees what the handle holds.
#[unsafe(no_mangle)]
pub extern "C" fn jschema_free(alloc: Global, handle: &mut Handle)
    ensures { handle.new.value ≡ None }
{
    if let Some(taken) = handle.take_session(alloc) {
        taken.free();
    }
}

/// The library's version: 10,000 for each major one, 100 for each minor one, and the patch.
#[unsafe(no_mangle)]
pub extern "C" fn jschema_version() -> u32
    ensures { result ≡ 200 }
{
    200
}

// Puts a session into a handle, in place of what that held.
fn put_shared(alloc: Global, shared: Session, other: &mut Handle) -> Status
    ensures { IsPut shared other.old.value other.new.value result }
{
    match Box::new(alloc, shared) {
        Ok(made) => {
            jschema_free(alloc, other);
            other.put_session(alloc, made);
            Status::Done
        }
        Err(_) => Status::Failed,
    }
}
