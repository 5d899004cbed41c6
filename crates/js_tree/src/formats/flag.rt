//! The text of the flag format.
ghost use Rattle.js_doc.specs.BytesOut.{Puts};
ghost use Rattle.js_doc.specs.Compact.{compact};
ghost use Rattle.js_tree.specs.Form.{flag};

use js_doc::{Out, Stopped};

/// Writes the compact JSON text of the flag format (Core, section 12.4.1). Allocates nothing.
///
/// # Errors
/// `Stopped` if the output takes no more; then a prefix of the text has been written.
pub fn put_flag<O: Out>(valid: bool, out: &mut O) -> Result<(), Stopped>
    ensures { Puts (O.progress out.old) (O.progress out.new) (compact (flag valid)) result }
{
    if valid {
        out.put(b"{\"valid\":true}")
    } else {
        out.put(b"{\"valid\":false}")
    }
}
