// Writers that aren't called again once they have failed.
ghost use Rattle.std.specs.Prelude.{◌≡◌, ◌≤◌, ◌<◌, ◌+◌, true, false, min, ◌^◌, ◌-◌, take, length, is_err, OnOk, OnErr};
ghost use Rattle.std.specs.Prelude.{IfOk, IfErr};
ghost use Rattle.std.specs.Io.KnownBytes.{Appends, Keeps};
ghost use Rattle.js_output.specs.Device.{AppendsBeginning, Unflushed};

use crate::Fault;
use js_doc::{Out, Stopped};
use std::io::Write;
use std::marker::Model;

/// A writer that counts its calls. It has failed once a write returns an error or takes none of its
/// bytes, or a flush returns an error, and isn't called any more.
#[derive(Drop)]
pub struct Sink<W: Write> {
    pub(crate) writing: Writing<W>,
    flushes: u64,
    // The number of the call that was the last flush, counted from 1; 0 before the first.
    last_flush: u64,
}

/// The part of a sink that bytes are written to. Whoever borrows it can't flush.
#[derive(Drop)]
pub(crate) struct Writing<W: Write> {
    device: W,
    failed: bool,
    calls: u64,
}

impl<W: Write> Model for Sink<W> {
    ghost use Rattle.js_output.specs.Device.{Tracked, tracked_code};

    ghost Value = { Tracked W };

    ghost coded = { tracked_code W.code };

    ghost view = { λ s. record {
      device = s.writing.device;
      failed = s.writing.failed;
      calls = s.writing.calls;
      flushes = s.flushes;
      last_flush = s.last_flush;
    } };
}

impl<W: Write> Sink<W> {
    /// A sink that hasn't been called yet.
    pub fn new(device: W) -> Sink<W>
        ensures device { result.device ≡ device }
        ensures failed { result.failed ≡ false }
        ensures calls { result.calls ≡ 0 }
        ensures flushes { result.flushes ≡ 0 }
        ensures last_flush { result.last_flush ≡ 0 }
    {
        Sink {
            writing: Writing {
                device,
                failed: false,
                calls: 0,
            },
            flushes: 0,
            last_flush: 0,
        }
    }

    /// The device, with what has been written to it.
    pub fn into_device(self) -> W
        ensures { result ≡ self.device }
    {
        let Sink { writing, .. } = self;
        writing.device
    }

    /// Whether a call has failed.
    pub fn failed(&self) -> bool
        ensures { result ≡ self.now.failed }
    {
        self.writing.failed
    }

    /// How often the device was called, or the greatest `u64` if that is less.
    pub fn calls(&self) -> u64
        ensures { result ≡ self.now.calls }
    {
        self.writing.calls
    }

    /// How many of the calls were flushes, or the greatest `u64` if that is less.
    pub fn flushes(&self) -> u64
        ensures { result ≡ self.now.flushes }
    {
        self.flushes
    }

    /// Writes all of the bytes, one write after another, and stops at the first that fails.
    ///
    /// # Errors
    /// `Fault::Write`, after a prefix of them. A sink that has failed returns it at once.
    pub fn write_all(&mut self, bytes: &[u8]) -> Result<(), Fault>
        ensures ok { OnOk result
            (Appends (W.contents self.old.device) (W.contents self.new.device) bytes.now) }
        ensures begins { AppendsBeginning (W.contents self.old.device)
            (W.contents self.new.device) bytes.now }
        ensures fault { IfErr result (λ e. e ≡ Fault.Write) }
        ensures failed { self.new.failed ≡ is_err result }
        ensures calls { self.new.calls ≤ self.old.calls + length bytes.now }
        ensures called { self.old.failed ≡ false → 0 < length bytes.now
            → min (self.old.calls + 1) (2 ^ 64 - 1) ≤ self.new.calls }
        ensures unflushed { Unflushed self.old self.new }
        ensures stays { self.old.failed ≡ true → self.new ≡ self.old }
    {
        self.writing.write_all(bytes)?;
        Ok(())
    }

    /// Flushes the device: one call of it, unless the sink has failed before.
    ///
    /// # Errors
    /// `Fault::Write`, if and only if the sink has failed by then.
    pub fn flush(&mut self) -> Result<(), Fault>
        ensures bytes { Keeps (W.contents self.old.device) (W.contents self.new.device) }
        ensures fault { IfErr result (λ e. e ≡ Fault.Write) }
        ensures failed { self.new.failed ≡ is_err result }
        ensures called { self.old.failed ≡ false
            → self.new.calls ≡ min (self.old.calls + 1) (2 ^ 64 - 1) }
        ensures flushes { self.old.failed ≡ false
            → self.new.flushes ≡ min (self.old.flushes + 1) (2 ^ 64 - 1) }
        ensures last { self.old.failed ≡ false → self.new.last_flush ≡ self.new.calls }
        ensures stays { self.old.failed ≡ true → self.new ≡ self.old }
    {
        if !self.writing.failed {
            self.writing.calls = self.writing.calls.saturating_add(1);
            self.flushes = self.flushes.saturating_add(1);
            self.last_flush = self.writing.calls;
            self.writing.failed = self.writing.device.flush().is_err();
        }
        if self.failed() {
            Err(Fault::Write)
        } else {
            Ok(())
        }
    }
}

impl<W: Write> Writing<W> {
    fn write_all(&mut self, bytes: &[u8]) -> Result<(), Stopped>
        ensures ok { OnOk result
            (Appends (W.contents self.old.device) (W.contents self.new.device) bytes.now) }
        ensures begins { AppendsBeginning (W.contents self.old.device)
            (W.contents self.new.device) bytes.now }
        ensures failed { self.new.failed ≡ is_err result }
        ensures calls { self.new.calls ≤ self.old.calls + length bytes.now }
        ensures grows { self.old.calls ≤ self.new.calls }
        ensures called { self.old.failed ≡ false → 0 < length bytes.now
            → min (self.old.calls + 1) (2 ^ 64 - 1) ≤ self.new.calls }
        ensures stays { self.old.failed ≡ true → self.new ≡ self.old }
    {
        if self.failed {
            return Err(Stopped);
        }
        let mut rest = bytes;
        while !rest.is_empty() {
            let count = self.write(rest)?;
            rest = &rest[count..];
        }
        Ok(())
    }

    // Calls the device once with some bytes; it fails unless it takes at least one.
    fn write(&mut self, bytes: &[u8]) -> Result<usize, Stopped>
        requires some { 0 < length bytes.now }
        requires stands { self.old.failed ≡ false }
        ensures some { IfOk result (λ count. 0 < count) }
        ensures within { IfOk result (λ count. count ≤ length bytes.now) }
        ensures bytes { IfOk result (λ count. Appends (W.contents self.old.device)
            (W.contents self.new.device) (take count bytes.now)) }
        ensures kept { OnErr result
            (Keeps (W.contents self.old.device) (W.contents self.new.device)) }
        ensures failed { self.new.failed ≡ is_err result }
        ensures called { self.new.calls ≡ min (self.old.calls + 1) (2 ^ 64 - 1) }
        ensures calls { self.new.calls ≤ self.old.calls + 1 }
        ensures grows { self.old.calls ≤ self.new.calls }
    {
        self.calls = self.calls.saturating_add(1);
        match self.device.write(bytes) {
            Ok(0) | Err(_) => {
                self.failed = true;
                Err(Stopped)
            }
            Ok(count) => Ok(count),
        }
    }
}

/// It stops once it has failed.
impl<W: Write> Out for Writing<W> {
    ghost progress = { λ w. record {
      gone = W.contents w.device;
      calls = w.calls;
      stopped = w.failed;
    } };

    fn put(&mut self, bytes: &[u8]) -> Result<(), Stopped> {
        self.write_all(bytes)
    }
}

/// It stops once it has failed.
impl<W: Write> Out for Sink<W> {
    ghost use Rattle.js_output.specs.Device.{progress_of};

    ghost progress = { λ s. progress_of W.contents s };

    fn put(&mut self, bytes: &[u8]) -> Result<(), Stopped> {
        self.writing.put(bytes)
    }
}
