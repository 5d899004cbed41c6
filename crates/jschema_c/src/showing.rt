//! The text of a document that a session holds.
ghost use Rattle.std.specs.Prelude.{◌≡◌, None};
ghost use Rattle.jschema_c.specs.LastCall.{text_in};
ghost use Rattle.jschema_c.specs.Showing.{ShowsDocument};

use crate::last_call::LastCall;
use crate::session::Phase;
use crate::status::Status;
use js_output::{Fault, value_line};
use std::alloc::Global;

/// Shows the document with this number as the text.
pub(crate) fn show_text(
    alloc: Global,
    phase: &Phase,
    number: usize,
    said: &mut LastCall,
) -> Result<Status, Fault>
    ensures shows { ShowsDocument phase.now number (text_in said.new) result }
    ensures none { said.new.refusal ≡ None }
{
    said.reset();
    let Phase::Adding(bundle) = phase else {
        return Ok(Status::Misused);
    };
    let Some(document) = bundle.documents().get(number) else {
        return Ok(Status::Misused);
    };
    said.text = value_line(alloc, &document.root)?;
    Ok(Status::Done)
}
