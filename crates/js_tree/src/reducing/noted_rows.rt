//! The noted units of a flat form.
ghost use Rattle.std.specs.Prelude.{◌≡◌, IfOk, map};
ghost use Rattle.js_tree.specs.FlatState.{IsWholeTree, noted_of, row_of, flat_state, whole_tree};
ghost use Rattle.js_tree.specs.Result.{ResultTree, units};

use crate::collecting::flat::{Flat, Row};
use crate::unit::Unit;
use js_doc::Memory;
use std::alloc::Global;

/// The units that have a note, in preorder: see `units`. The rows must be those of a whole tree.
///
/// # Errors
/// `Memory` if an allocation fails.
pub fn flat_units<'t, 'a>(alloc: Global, flat: &'t Flat<'a>) -> Result<Vec<&'t Unit<'a>>, Memory>
    requires { IsWholeTree (flat_state flat.now) }
    ensures { IfOk result (λ found. (t : ResultTree) → flat_state flat.now ≡ whole_tree t
        → map (λ unit. unit.now) found.items ≡ units t) }
{
    noted_units(alloc, flat.rows())
}

/// The same of the rows.
pub(crate) fn noted_units<'t, 'a>(
    alloc: Global,
    rows: &'t [Row<'a>],
) -> Result<Vec<&'t Unit<'a>>, Memory>
    ensures { IfOk result (λ found. map (λ unit. unit.now) found.items ≡ noted_of (map row_of rows.now)) }
{
    let mut found = Vec::new(alloc);
    for row in rows {
        if row.unit.is_noted() {
            found.push(&row.unit)?;
        }
    }
    Ok(found)
}
