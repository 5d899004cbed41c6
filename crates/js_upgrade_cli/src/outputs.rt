//! Upgraded documents, written.
ghost use Rattle.std.specs.Prelude.{◌≡◌, ◌≢◌, ◌++◌, ◌∷◌, [], IfOk, IfErr, OnOk, OnErr, None, true, false, map};
ghost use Rattle.std.specs.Io.KnownBytes.{Appends};
ghost use Rattle.js_doc.specs.Seen.{value_of};
ghost use Rattle.js_upgrade_cli.specs.Names.{path_in};
ghost use Rattle.js_output.specs.Device.{AppendsBeginning, FlushedOnce};
ghost use Rattle.js_output.specs.declared.fault.Fault.TheVariants as fault;
ghost use Rattle.js_upgrade_cli.specs.Outputs.{Flushes, HasPut, IsPartlyWritten, IsPartlyPut, IsWritten};
ghost use Rattle.js_upgrade_cli.specs.Outputs.{files_in, value_lines};
ghost use Rattle.js_output.specs.Values.{value_line};
ghost use Rattle.js_upgrade_cli.specs.code.Seen.{upgrade_request_seen};
ghost use Rattle.js_command.specs.Words.{pairs_seen};

use crate::folder::Folder;
use crate::names::path_in;
use crate::request::UpgradeRequest;
use crate::stop::RequestStop;
use js_command::DocumentFile;
use js_doc::{Doc, Memory};
use js_output::{Fault, Sink, push_value_line, value_line};
use std::alloc::Global;
use std::io::Write;

/// Writes the documents where the request wants them.
///
/// # Errors
/// `Write`, after a prefix; `Memory` at any point.
pub(crate) fn write_documents<P: Folder, W: Write>(
    alloc: Global,
    request: &UpgradeRequest,
    documents: &[Doc],
    folder: &mut P,
    out: &mut Sink<W>,
) -> Result<(), RequestStop>
    ensures ok { OnOk result (IsWritten (upgrade_request_seen request.now).into
        (upgrade_request_seen request.now).documents (map value_of documents.now) (W.contents out.old.device)
        (W.contents out.new.device) (P.written folder.old) (P.written folder.new)) }
    ensures flushed { OnOk result (Flushes (upgrade_request_seen request.now).into out.old out.new) }
    ensures stop { IfErr result (λ s. s.fault ≢ fault.Memory → (s.fault ≡ fault.Write)
        × IsPartlyWritten (upgrade_request_seen request.now).into (upgrade_request_seen request.now).documents
        (map value_of documents.now) (W.contents out.old.device) (W.contents out.new.device) out.new.failed
        (P.written folder.old) (P.written folder.new) s.document) }
{
    match request.into {
        None => write_out(alloc, documents, out),
        Some(path) => write_into(alloc, path, request.documents.as_slice(), documents, folder),
    }
}

// Writes them to the output, one after another, and flushes it.
fn write_out<W: Write>(
    alloc: Global,
    documents: &[Doc],
    out: &mut Sink<W>,
) -> Result<(), RequestStop>
    ensures ok { OnOk result (Appends (W.contents out.old.device) (W.contents out.new.device)
        (value_lines (map value_of documents.now))) }
    ensures flushed { OnOk result (FlushedOnce out.old out.new × (out.new.failed ≡ false)) }
    ensures stop { IfErr result (λ s. s.fault ≢ fault.Memory → (s.fault ≡ fault.Write) × (s.document ≡ None)
        × AppendsBeginning (W.contents out.old.device) (W.contents out.new.device)
        (value_lines (map value_of documents.now)) × (out.new.failed ≡ true)) }
{
    let lines = value_lines(alloc, documents)?;
    write_text(lines.as_slice(), out)?;
    Ok(())
}

fn write_text<W: Write>(text: &[u8], out: &mut Sink<W>) -> Result<(), Fault>
    ensures ok { OnOk result (Appends (W.contents out.old.device) (W.contents out.new.device) text.now) }
    ensures flushed { OnOk result (FlushedOnce out.old out.new × (out.new.failed ≡ false)) }
    ensures begins { AppendsBeginning (W.contents out.old.device) (W.contents out.new.device) text.now }
    ensures fault { IfErr result (λ e. e ≡ fault.Write) }
    ensures failed { IfErr result (λ e. out.new.failed ≡ true) }
{
    out.write_all(text)?;
    out.flush()
}

fn value_lines(alloc: Global, documents: &[Doc]) -> Result<Vec<u8>, Memory>
    ensures { IfOk result (λ text. text.items ≡ value_lines (map value_of documents.now)) }
{
    let mut lines = Vec::new(alloc);
    for document in documents {
        push_value_line(&mut lines, document)?;
    }
    Ok(lines)
}

// Writes each into the folder, under its file's name.
fn write_into<P: Folder>(
    alloc: Global,
    path: &str,
    files: &[DocumentFile],
    documents: &[Doc],
    folder: &mut P,
) -> Result<(), RequestStop>
    ensures ok { OnOk result (HasPut (P.written folder.old) (P.written folder.new)
        (files_in path.now (pairs_seen files.now) (map value_of documents.now))) }
    ensures stop { IfErr result (λ s. s.fault ≢ fault.Memory → (s.fault ≡ fault.Write)
        × IsPartlyPut (P.written folder.old) (P.written folder.new)
        (files_in path.now (pairs_seen files.now) (map value_of documents.now)) s.document) }
{
    let mut number = 0;
    while number < files.len() {
        if documents.len() <= number {
            return Ok(());
        }
        let file = &files[number];
        let document = &documents[number];
        match put_one(alloc, path, file.file, document, folder) {
            Ok(()) => number += 1,
            Err(fault) => return Err(RequestStop {
                document: Some(number),
                fault,
            }),
        }
    }
    Ok(())
}

fn put_one<P: Folder>(
    alloc: Global,
    path: &str,
    file: &str,
    document: &Doc,
    folder: &mut P,
) -> Result<(), Fault>
    ensures ok { OnOk result (HasPut (P.written folder.old) (P.written folder.new)
        ((path_in path.now file.now, value_line (value_of document.now)) ∷ [])) }
    ensures stays { OnErr result (P.written folder.new ≡ P.written folder.old) }
    ensures fault { IfErr result (λ e. e ≢ fault.Memory → e ≡ fault.Write) }
{
    let to = path_in(alloc, path, file)?;
    let line = value_line(alloc, document)?;
    folder.put(to.as_str(), line.as_slice())
}
