//! Lists that grow.
ghost use Rattle.std.specs.Prelude.{◌≡◌, ◌∷◌, ◌++◌, [], OnOk};

use std::alloc::AllocFailed;

/// Adds an item at the end.
///
/// # Errors
/// `AllocFailed`, with the item, if an allocation fails. The list is as it was.
pub fn append<T: Drop>(list: &mut Vec<T>, item: T) -> Result<(), AllocFailed<T>>
    ensures { OnOk result (list.new.items ≡ list.old.items ++ item ∷ []) }
{
    list.push(item)
}
