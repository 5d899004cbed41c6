//! What is ready to be written, put into an output as one line.
ghost use Rattle.std.specs.Prelude.{◌∷◌, ◌++◌, [], Bool};
ghost use Rattle.js_doc.specs.BytesOut.{Puts};
ghost use Rattle.js_doc.specs.Compact.{compact};
ghost use Rattle.js_doc.specs.Value.{Value};
ghost use Rattle.js_output.specs.code.Prepared.{ArePrepared, IsPrepared};

use crate::prepared::Prepared;
use js_doc::{Out, Stopped};
use js_tree::{Format, put_basic, put_flag, put_tree, put_verbose};

/// Writes the compact text, and a line feed. It allocates nothing.
pub(crate) fn put_line<O: Out>(prepared: Prepared, out: &mut O) -> Result<(), Stopped>
    requires { ArePrepared prepared }
    ensures { (valid : Bool) (value : Value) → IsPrepared prepared.entry valid value
        → Puts (O.progress out.old) (O.progress out.new) (compact value ++ 10 ∷ []) result }
{
    put_prepared(prepared, out)?;
    out.put(b"\n")
}

// For basic the units with a note, for other formats the root node.
fn put_prepared<O: Out>(prepared: Prepared, out: &mut O) -> Result<(), Stopped>
    requires { ArePrepared prepared }
    ensures { (valid : Bool) (value : Value) → IsPrepared prepared.entry valid value
        → Puts (O.progress out.old) (O.progress out.new) (compact value) result }
{
    match prepared {
        Prepared::Verdict(valid) => put_flag(valid, out),
        Prepared::Rows(Format::Basic, rows, locations) => put_basic(&rows, locations, out),
        Prepared::Rows(_, rows, locations) => put_verbose(&rows, locations, out),
        Prepared::Tree(tree) => put_tree(&tree, out),
    }
}
