//! Why documents aren't upgraded, and the line that says so.
ghost use Rattle.std.specs.Prelude.{◌≡◌, IfOk, None, string_bytes};
ghost use Rattle.js_command.specs.Status.{fault_status};
ghost use Rattle.js_output.specs.declared.fault.Fault.TheVariants as fault;
ghost use Rattle.js_upgrade_cli.specs.Stop.{file_at, named_line, stop_line, subject_of, stopped_by};
ghost use Rattle.js_upgrade_cli.specs.code.Seen.{upgrade_request_seen};
ghost use Rattle.js_command.specs.Words.{pairs_seen};

use crate::names::path_in;
use crate::request::UpgradeRequest;
use js_command::{DocumentFile, FAILED, REFUSED};
use js_doc::{Memory, push_string};
use js_output::{Fault, refusal_line};
use std::alloc::{AllocFailed, Global};

/// Why documents aren't upgraded, and the number of the document that it is about, if it is about one.
#[derive(Drop)]
pub(crate) struct RequestStop {
    pub(crate) document: Option<usize>,
    pub(crate) fault: Fault,
}

impl From<Memory> for RequestStop {
    ghost from_gives = { λ _ e. e ≡ record { document = None; fault = fault.Memory } };

    fn from(_refused: Memory) -> RequestStop {
        RequestStop {
            document: None,
            fault: Fault::Memory,
        }
    }
}

impl<T: Drop> From<AllocFailed<T>> for RequestStop {
    ghost from_gives = { λ _ e. e ≡ record { document = None; fault = fault.Memory } };

    fn from(_refused: AllocFailed<T>) -> RequestStop {
        RequestStop {
            document: None,
            fault: Fault::Memory,
        }
    }
}

impl From<Fault> for RequestStop {
    ghost from_gives = { λ f e. e ≡ stopped_by f };

    fn from(fault: Fault) -> RequestStop {
        let document = match &fault {
            Fault::Refused(refusal) => Some(refusal.document),
            _ => None,
        };
        RequestStop { document, fault }
    }
}

impl RequestStop {
    /// The program's exit status.
    pub(crate) fn status(&self) -> u8
        ensures { result ≡ fault_status self.now.fault }
    {
        match &self.fault {
            Fault::Memory | Fault::Read | Fault::Write => FAILED,
            _ => REFUSED,
        }
    }
}

/// The line that says why, without a line feed: the file, if it is about one, and the fault.
///
/// # Errors
/// `Memory`.
pub(crate) fn stop_line(
    alloc: Global,
    request: &UpgradeRequest,
    stop: &RequestStop,
) -> Result<String, Memory>
    ensures { IfOk result (λ line. string_bytes line ≡ stop_line (upgrade_request_seen request.now) stop.now) }
{
    let mut line = String::new(alloc);
    if let Some(document) = stop.document {
        push_string(
            &mut line,
            subject_of(alloc, request, document, &stop.fault)?.as_str(),
        )?;
        line.push_str(": ")?;
    }
    line.push_str(refusal_line(alloc, &stop.fault)?.as_str())?;
    Ok(line)
}

// The file that it is about: one that can't be written has another folder.
fn subject_of(
    alloc: Global,
    request: &UpgradeRequest,
    document: usize,
    fault: &Fault,
) -> Result<String, Memory>
    ensures { IfOk result (λ path.
        string_bytes path ≡ subject_of (upgrade_request_seen request.now) document fault.now) }
{
    let file = file_at(request.documents.as_slice(), document);
    match (fault, request.into) {
        (Fault::Write, Some(folder)) => path_in(alloc, folder, file),
        _ => Ok(String::from_str(alloc, file)?),
    }
}

fn file_at<'a>(documents: &[DocumentFile<'a>], number: usize) -> &'a str
    ensures { result.now ≡ file_at (pairs_seen documents.now) number }
{
    match documents.get(number) {
        Some(document) => document.file,
        None => "",
    }
}
