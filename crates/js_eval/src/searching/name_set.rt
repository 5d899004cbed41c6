//! A set of names, for fast look-ups.
ghost use Rattle.std.specs.Prelude.{◌≡◌, ◌++◌, ◌∷◌, [], IfOk, List, OnOk};
ghost use Rattle.js_eval.specs.code.Cursors.{HasNames, is_among_keys};
ghost use Rattle.js_eval.specs.SchemaSet.{Text};
ghost use Rattle.js_eval.specs.Seen.{texts_of};

use js_doc::Memory;
use std::alloc::Global;
use std::collections::BTreeSet;

/// The set of these names.
///
/// # Errors
/// `Memory` if an allocation fails.
pub(crate) fn set_of<'a>(alloc: Global, names: &[&'a str]) -> Result<BTreeSet<&'a str>, Memory>
    ensures { IfOk result (λ s. HasNames s.keys (texts_of names.now)) }
{
    let mut set = BTreeSet::new(alloc);
    for name in names {
        insert(&mut set, *name)?;
    }
    Ok(set)
}

fn insert<'a>(set: &mut BTreeSet<&'a str>, name: &'a str) -> Result<(), Memory>
    ensures { OnOk result ((names : List Text) → HasNames set.old.keys names
        → HasNames set.new.keys (names ++ name.now ∷ [])) }
{
    set.insert(name)?;
    Ok(())
}

/// Whether the name is in the set.
#[tactic(auto, unfolding(crate::specs::code::Cursors::is_among_keys))]
pub(crate) fn is_in(names: &BTreeSet<&str>, name: &str) -> bool
    ensures { result ≡ is_among_keys names.now.keys name.now }
{
    names.contains(name)
}
