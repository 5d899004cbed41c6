//! Text that is put together in memory before it goes out.
ghost use Rattle.std.specs.Prelude.{◌≡◌, ◌+◌, ◌≤◌, [], IfOk, OnOk, length, take, vec_capacity};
ghost use Rattle.js_doc.specs.BytesOut.{Puts};

use js_doc::{Memory, Out, Stopped};
use std::alloc::Global;

/// Text in memory that the pieces of nodes are put into. They go out together, since each call of another output costs
/// as much as some hundred bytes. Its memory is its limit, so nothing is allocated while it is used.
#[derive(Drop)]
pub(crate) struct Gathered {
    pub(crate) text: Vec<u8>,
}

// How much memory it has. Longer text doesn't fit.
const CAPACITY: usize = 8192;

impl Gathered {
    /// No text, with all the memory that is ever needed.
    ///
    /// # Errors
    /// `Memory` if an allocation fails.
    pub fn new(alloc: Global) -> Result<Gathered, Memory> {
        let text = Vec::with_capacity(alloc, CAPACITY)?;
        Ok(Gathered { text })
    }

    /// No text, and no memory for any. It allocates nothing.
    pub fn without_memory(alloc: Global) -> Gathered {
        Gathered {
            text: Vec::new(alloc),
        }
    }

    /// Forgets the text.
    pub fn clear(&mut self)
        ensures { self.new.text.items ≡ [] }
    {
        self.text.clear();
    }

    /// What was put into it.
    pub fn as_slice(&self) -> &[u8]
        ensures { result.now ≡ self.now.text.items }
    {
        self.text.as_slice()
    }

    /// How many bytes that is.
    pub fn len(&self) -> usize
        ensures { result ≡ length self.now.text.items }
    {
        self.text.len()
    }

    /// Puts the first bytes out, and forgets the others.
    ///
    /// # Errors
    /// `Stopped` if the output stops; then a prefix of them was written.
    pub fn put_out<O: Out>(&mut self, count: usize, out: &mut O) -> Result<(), Stopped>
        ensures text { Puts (O.progress out.old) (O.progress out.new) (take count self.old.text.items) result }
        ensures empty { OnOk result (self.new.text.items ≡ []) }
    {
        self.text.truncate(count);
        out.put(self.text.as_slice())?;
        self.text.clear();
        Ok(())
    }
}

/// The text, with memory for `more` bytes behind it.
pub(crate) fn with_room(alloc: Global, text: &[u8], more: usize) -> Result<Vec<u8>, Memory>
    ensures items { IfOk result (λ v. v.items ≡ text.now) }
    ensures room { IfOk result (λ v. length text.now + more ≤ vec_capacity v) }
{
    let room = more.checked_add(text.len()).ok_or(Memory)?;
    let mut with_room = Vec::with_capacity(alloc, room)?;
    with_room.extend_from_slice(text)?;
    Ok(with_room)
}

/// It stops where the text would be too long; then it is as it was.
impl Out for Gathered {
    ghost use Rattle.std.specs.Prelude.{Some, true};

    ghost progress = { λ g. record { gone = Some g.text.items; calls = 0; stopped = true } };

    #[inline(always)]
    fn put(&mut self, bytes: &[u8]) -> Result<(), Stopped> {
        let room = self.text.capacity() - self.text.len();
        if room < bytes.len() {
            return Err(Stopped);
        }
        self.text.extend_from_slice(bytes)?;
        Ok(())
    }
}
