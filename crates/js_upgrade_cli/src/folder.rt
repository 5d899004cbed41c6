//! Files that are written.
ghost use Rattle.std.specs.Prelude.{◌≡◌, ℕ, List, [], ◌∷◌, Option, None, OnOk, OnErr, IfErr};
ghost use Rattle.js_upgrade_cli.specs.Outputs.{HasPut};

use js_output::Fault;

/// Files that are written by their paths.
pub trait Folder {
    // What was written, by its paths, one file after another, if that is known. Of a disk nothing is known.
    ghost written: { Self → Option (List (List ℕ × List ℕ)) } = { λ _. None };

    /// Writes a file, in the place of one that there is.
    ///
    /// # Errors
    /// `Write`. The file may hold a prefix of the bytes.
    fn put(&mut self, path: &str, bytes: &[u8]) -> Result<(), Fault>
        ensures ok { OnOk result (HasPut (written self.old) (written self.new) ((path.now, bytes.now) ∷ [])) }
        ensures stays { OnErr result (written self.new ≡ written self.old) }
        ensures fault { IfErr result (λ e. e ≡ Fault.Write) };
}
