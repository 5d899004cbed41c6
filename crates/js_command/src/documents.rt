//! The schema documents that the words name, as their files hold them.
ghost use Rattle.std.specs.Prelude.{◌≡◌, ◌≢◌, ◌≤◌, ◌∷◌, ◌++◌, [], None, IfOk, IfErr, length};
ghost use Rattle.js_output.specs.Device.{IsLeft, input_limit};
ghost use Rattle.js_output.specs.Documents.{DocumentTexts};
ghost use Rattle.js_command.specs.Files.{IsFirstFileFault};
ghost use Rattle.js_command.specs.Words.{files_of, pairs_seen};
ghost use Rattle.js_command.specs.code.Taken.{AreFinishedAs, AreKept, AreTaken};

use crate::files::Files;
use crate::words::DocumentFile;
use js_output::{Bundle, Fault, Schemas, add_document_text, finish_bundle};
use std::alloc::Global;

/// Schema documents whose files were read. A refusal of one waits until all files were read.
#[derive(Drop)]
pub(crate) struct Taken {
    pub(crate) bundle: Bundle,
    pub(crate) refused: Option<Fault>,
}

impl Taken {
    fn new(alloc: Global) -> Taken
        ensures { AreKept [] result.bundle result.refused }
    {
        Taken {
            bundle: Bundle::new(alloc),
            refused: None,
        }
    }

    // Adds a document with this text, unless one before it is refused.
    fn add(&mut self, uri: &str, text: &[u8])
        ensures { (texts : DocumentTexts) → AreKept texts self.old.bundle self.old.refused
            → AreKept (texts ++ (uri.now, text.now) ∷ []) self.new.bundle self.new.refused }
    {
        match &self.refused {
            Some(_) => {}
            None => self.add_next(uri, text),
        }
    }

    // None is refused so far.
    fn add_next(&mut self, uri: &str, text: &[u8])
        requires { self.old.refused ≡ None }
        ensures { (texts : DocumentTexts) → AreKept texts self.old.bundle self.old.refused
            → AreKept (texts ++ (uri.now, text.now) ∷ []) self.new.bundle self.new.refused }
    {
        match add_document_text(&mut self.bundle, uri, text) {
            Ok(()) => {}
            Err(fault) => self.refused = Some(fault),
        }
    }

    /// The documents' schemas; or the first refusal of a document, and then of all.
    pub(crate) fn into_schemas(self, alloc: Global) -> Result<Schemas, Fault>
        ensures { (texts : DocumentTexts) → AreKept texts self.bundle self.refused
            → AreFinishedAs texts result }
    {
        let Taken { bundle, refused } = self;
        match refused {
            Some(fault) => Err(fault),
            None => finish_bundle(alloc, bundle),
        }
    }
}

/// Reads the files of the documents, one after another. Returns the fault of the first that can't be
/// read.
pub(crate) fn take_documents<F: Files>(
    alloc: Global,
    documents: &[DocumentFile],
    files: &mut F,
) -> Result<Taken, Fault>
    ensures taken { IfOk result (AreTaken (F.contents files.old) (pairs_seen documents.now)) }
    ensures fault { IfErr result (λ e. e ≢ Fault.Memory → IsFirstFileFault (F.contents files.old)
        (files_of (pairs_seen documents.now)) e) }
    ensures stays { F.contents files.new ≡ F.contents files.old }
{
    let mut taken = Taken::new(alloc);
    for document in documents {
        let text = files.take(alloc, document.file)?;
        taken.add(document.uri, text.as_slice());
    }
    Ok(taken)
}

/// Schema documents, and what the file that is judged by them holds.
#[derive(Drop)]
pub(crate) struct Texts {
    pub(crate) documents: Taken,
    pub(crate) judged: Vec<u8>,
}

/// Reads the files of the documents, and then the one that is judged. Returns the fault of the first
/// that can't be read.
pub(crate) fn take_texts<F: Files>(
    alloc: Global,
    documents: &[DocumentFile],
    file: &str,
    files: &mut F,
) -> Result<Texts, Fault>
    ensures taken { IfOk result (λ t.
        AreTaken (F.contents files.old) (pairs_seen documents.now) t.documents) }
    ensures judged { IfOk result (λ t. IsLeft (F.contents files.old file.now) t.judged.items) }
    ensures fits { IfOk result (λ t. length t.judged.items ≤ input_limit) }
    ensures fault { IfErr result (λ e. e ≢ Fault.Memory → IsFirstFileFault (F.contents files.old)
        (files_of (pairs_seen documents.now) ++ file.now ∷ []) e) }
{
    let documents = take_documents(alloc, documents, files)?;
    let judged = files.take(alloc, file)?;
    Ok(Texts { documents, judged })
}
