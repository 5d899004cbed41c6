//! What a call leaves in its handle: a text, and the parts of what it refused.
ghost use Rattle.std.specs.Prelude.{◌≡◌, [], None, IfSome, length};
ghost use Rattle.jschema_c.specs.LastCall.{IsSilent, Says, SaysFault, copied, text_in};
ghost use Rattle.jschema_c.specs.declared.status.Status.TheVariants as status;

use crate::refusal::{RefusalParts, parts_of};
use crate::status::Status;
use js_output::{Fault, refusal_line};
use std::alloc::Global;

/// What the last call left.
#[derive(Drop)]
pub struct LastCall {
    /// The verdict of a check in the format flag. Its output is the text, which is written only when it is asked for.
    pub verdict: Option<bool>,
    /// The output of another check, the list of places, the line of a refusal, or nothing.
    pub text: Vec<u8, Global>,
    /// What was refused.
    pub refusal: Option<RefusalParts>,
}

impl LastCall {
    /// No text, and no refusal.
    pub(crate) fn new(alloc: Global) -> LastCall
        ensures { IsSilent result }
    {
        LastCall {
            verdict: None,
            text: Vec::new(alloc),
            refusal: None,
        }
    }

    /// Forgets the last call.
    pub(crate) fn reset(&mut self)
        ensures silent { IsSilent self.new }
        ensures verdict { self.new.verdict ≡ None }
        ensures empty { self.new.text.items ≡ [] }
    {
        self.verdict = None;
        self.text.clear();
        self.refusal = None;
    }

    /// The text.
    pub(crate) fn text(&self) -> &[u8]
        ensures { result.now ≡ text_in self.now }
    {
        match self.verdict {
            Some(true) => b"{\"valid\":true}\n",
            Some(false) => b"{\"valid\":false}\n",
            None => self.text.as_slice(),
        }
    }

    /// Says what a call without a text of its own came to, and returns its status.
    pub(crate) fn answer(&mut self, alloc: Global, came: Result<Status, Fault>) -> Status
        ensures { Says [] came result self.new }
    {
        self.reset();
        self.conclude(alloc, came)
    }

    /// Says what a call came to that has given its text and refused nothing, and returns its status.
    pub(crate) fn conclude(&mut self, alloc: Global, came: Result<Status, Fault>) -> Status
        requires { self.old.refusal ≡ None }
        ensures { Says (text_in self.old) came result self.new }
    {
        match came {
            Ok(status) => status,
            Err(fault) => self.say(alloc, &fault),
        }
    }

    // Says a fault, and returns its status.
    fn say(&mut self, alloc: Global, fault: &Fault) -> Status
        ensures { SaysFault fault.now result self.new }
    {
        match refused(alloc, fault) {
            Some(said) => {
                *self = said;
                Status::Refused
            }
            None => {
                self.reset();
                Status::Failed
            }
        }
    }
}

// What is said of a refusal. `None` for another fault, and if memory runs out.
fn refused(alloc: Global, fault: &Fault) -> Option<LastCall>
    ensures { IfSome result (SaysFault fault.now status.Refused) }
{
    let refusal = parts_of(alloc, fault)?;
    let text = refusal_line(alloc, fault).ok()?.into_bytes();
    Some(LastCall {
        verdict: None,
        text,
        refusal: Some(refusal),
    })
}

/// Copies as many bytes of a text as fit, and returns its whole length.
pub(crate) fn copy_fitting(text: &[u8], out: &mut [u8]) -> usize
    ensures whole { result ≡ length text.now }
    ensures copied { out.new ≡ copied text.now out.old }
{
    let whole = text.len();
    let fits = whole.min(out.len());
    out[..fits].copy_from_slice(&text[..fits]);
    whole
}
