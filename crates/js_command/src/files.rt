//! Files, as the program reaches them.
ghost use Rattle.std.specs.Prelude.{◌≡◌, ◌≤◌, ℕ, List, Option, None, IfOk, IfErr, length};
ghost use Rattle.js_output.specs.Device.{IsLeft, input_limit};
ghost use Rattle.js_command.specs.Files.{IsFileFault};

use js_output::Fault;
use std::alloc::Global;

/// The files that a command may read, by their paths.
pub trait Files {
    // What a file holds, by its path, if that is known. Such a file can be read. Of a disk nothing
    // is known.
    ghost contents: { Self → List ℕ → Option (List ℕ) } = { λ _ _. None };

    /// All bytes of a file.
    ///
    /// # Errors
    /// `Memory`; `Read` if the file can't be opened or read; `InputTooLarge` if it has more than
    /// 16,777,216 bytes. After an error the files are as they were.
    fn take(&mut self, alloc: Global, path: &str) -> Result<Vec<u8>, Fault>
        ensures bytes { IfOk result (λ bytes. IsLeft (contents self.old path.now) bytes.items) }
        ensures fits { IfOk result (λ bytes. length bytes.items ≤ input_limit) }
        ensures fault { IfErr result (IsFileFault (contents self.old path.now)) }
        ensures stays { contents self.new ≡ contents self.old };
}
