//! Bytes that go out piece by piece, until no more are taken.
ghost use Rattle.js_doc.specs.BytesOut.{Progress, Puts};

use std::alloc::AllocError;
use std::str::Utf8Error;

/// No more bytes are taken.
#[derive(Clone, Copy, Debug, PartialEq, Eq, Drop)]
pub struct Stopped;

impl From<AllocError> for Stopped {
    fn from(_refused: AllocError) -> Stopped {
        Stopped
    }
}

impl From<Utf8Error> for Stopped {
    fn from(_error: Utf8Error) -> Stopped {
        Stopped
    }
}

/// An output, which takes bytes piece by piece until it stops.
pub trait Out {
    // How far the bytes have come. A type that doesn't know whether it has stopped always says that it has.
    ghost progress: { Self → Progress };

    /// Puts the bytes out, all of them, with at most one call of a device for each.
    ///
    /// # Errors
    /// `Stopped`; then a prefix of the bytes has gone out.
    fn put(&mut self, bytes: &[u8]) -> Result<(), Stopped>
        ensures { Puts (progress self.old) (progress self.new) bytes.now result };
}

/// Bytes in memory. It stops where a growth is refused; then it is as it was.
impl Out for Vec<u8> {
    ghost use Rattle.std.specs.Prelude.{Some, true};

    ghost progress = { λ v. record { gone = Some v.items; calls = 0; stopped = true } };

    #[inline(always)]
    fn put(&mut self, bytes: &[u8]) -> Result<(), Stopped> {
        self.extend_from_slice(bytes)?;
        Ok(())
    }
}

/// A text in memory. It stops where a growth is refused, or where the bytes aren't UTF-8; then it is as it was.
impl Out for String {
    ghost use Rattle.std.specs.Prelude.{Some, true, string_bytes};

    ghost progress = { λ s. record { gone = Some (string_bytes s); calls = 0; stopped = true } };

    fn put(&mut self, bytes: &[u8]) -> Result<(), Stopped> {
        self.push_str(str::from_utf8(bytes)?)?;
        Ok(())
    }
}
