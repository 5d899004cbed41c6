//! The noted units of a tree.
ghost use Rattle.std.specs.Prelude.{◌≡◌, ◌++◌, IfOk, map};
ghost use Rattle.js_tree.specs.Forest.{forest_of};
ghost use Rattle.js_tree.specs.OutputUnit.{noted};
ghost use Rattle.js_tree.specs.Result.{units};
ghost use Rattle.js_tree.specs.Units.{units_below};

use crate::tree::Tree;
use crate::unit::Unit;
use js_doc::Memory;
use std::alloc::Global;
use std::slice::from_ref;

/// The units that have a note, in preorder and including the root's: what the basic format lists (Core, section
/// 12.4.2).
///
/// # Errors
/// `Memory` if an allocation fails.
pub fn units<'t, 'a>(alloc: Global, tree: &'t Tree<'a>) -> Result<Vec<&'t Unit<'a>>, Memory>
    ensures { IfOk result (λ found. map (λ unit. unit.now) found.items ≡ units tree.now) }
{
    let mut found = Vec::new(alloc);
    add_units(from_ref(tree), &mut found)?;
    Ok(found)
}

fn add_units<'t, 'a>(trees: &'t [Tree<'a>], found: &mut Vec<&'t Unit<'a>>) -> Result<(), Memory>
    ensures { IfOk result (λ _. map (λ unit. unit.now) found.new.items
        ≡ map (λ unit. unit.now) found.old.items ++ units_below noted (forest_of trees.now)) }
{
    for tree in trees {
        if tree.unit.is_noted() {
            found.push(&tree.unit)?;
        }
        add_units(tree.children.as_slice(), found)?;
    }
    Ok(())
}
