// Readers that aren't called again once they have failed.
ghost use Rattle.std.specs.Prelude.{◌≡◌, ◌≤◌, ◌<◌, ◌+◌, ◌-◌, ◌^◌, min, true, false, is_err, IfErr};
ghost use Rattle.std.specs.Io.{ReadsAtMost};
ghost use Rattle.std.specs.Io.KnownBytes.{ReadConsumes};

use crate::Fault;
use std::io::Read;
use std::marker::Model;

/// A reader that counts its calls. It has failed once a call returns an error (`Interrupted` is one
/// too: nothing is tried again), and isn't called any more.
#[derive(Drop)]
pub struct Source<R: Read> {
    device: R,
    failed: bool,
    calls: u64,
}

impl<R: Read> Model for Source<R> {
    ghost use Rattle.js_output.specs.Device.{Tracked, tracked_code};

    ghost Value = { Tracked R };

    ghost coded = { tracked_code R.code };

    ghost view = { λ s. record {
      device = s.device;
      failed = s.failed;
      calls = s.calls;
      flushes = 0;
      last_flush = 0;
    } };
}

impl<R: Read> Source<R> {
    /// A source that hasn't been called yet.
    pub fn new(device: R) -> Source<R>
        ensures device { result.device ≡ device }
        ensures failed { result.failed ≡ false }
        ensures calls { result.calls ≡ 0 }
    {
        Source {
            device,
            failed: false,
            calls: 0,
        }
    }

    /// Whether a call has failed.
    pub fn failed(&self) -> bool
        ensures { result ≡ self.now.failed }
    {
        self.failed
    }

    /// How often the device was called, or the greatest `u64` if that is less.
    pub fn calls(&self) -> u64
        ensures { result ≡ self.now.calls }
    {
        self.calls
    }

    /// Calls the device once, unless the source has failed.
    pub(crate) fn read(&mut self, buffer: &mut [u8]) -> Result<usize, Fault>
        ensures bound { ReadsAtMost result buffer.new }
        ensures bytes { ReadConsumes (R.remaining self.old.device) (R.remaining self.new.device)
            result buffer.new }
        ensures fault { IfErr result (λ e. e ≡ Fault.Read) }
        ensures failed { self.new.failed ≡ is_err result }
        ensures called { self.old.failed ≡ false
            → self.new.calls ≡ min (self.old.calls + 1) (2 ^ 64 - 1) }
        ensures calls { self.new.calls ≤ self.old.calls + 1 }
        ensures grows { self.old.calls ≤ self.new.calls }
        ensures stays { self.old.failed ≡ true → self.new ≡ self.old }
    {
        if self.failed {
            return Err(Fault::Read);
        }
        self.calls = self.calls.saturating_add(1);
        match self.device.read(buffer) {
            Ok(count) => Ok(count),
            Err(_) => {
                self.failed = true;
                Err(Fault::Read)
            }
        }
    }
}
