//! Laws of relative rows. Each is the contract of a function that does nothing.
ghost use Rattle.std.specs.Prelude.{◌≡◌, [], Bool, List, true, ℕ};
ghost use Rattle.js_tree.specs.Events.{closing, opening};
ghost use Rattle.js_tree.specs.Note.{silent};
ghost use Rattle.js_tree.specs.Result.{ResultTree};
ghost use Rattle.js_tree.specs.Trimmed.{trimmed_tree};
ghost use Rattle.js_tree.specs.Rows.Holding.{RelativeHolds, TrimmingHolds};
ghost use Rattle.js_tree.specs.Rows.Relative.{IsLocated, placed_tree, relative_tree};
ghost use Rattle.js_tree.specs.Rows.RelativeState.{RelativeState, relative_after};

/// After the events of a tree whose locations go on from those above, the rows of `RelativeRows` are the tree's.
pub fn relative_rows_are_those_of_the_tree()
    ensures { RelativeHolds }
{}

/// After the events of such a tree, a `RelativeRows` that trims has its trimmed tree's rows, but none if only the root
/// is left and has no note.
pub fn trimming_rows_are_those_of_the_trimmed_tree()
    ensures { TrimmingHolds }
{}

/// Where a `RelativeRows` trims, a node that opens and closes at once, without a note, leaves its state as it was.
pub fn a_silent_leaf_leaves_nothing()
    ensures { (s : RelativeState) (keyword absolute instance : List ℕ) (valid : Bool) → s.trims ≡ true
        → relative_after (relative_after s (opening keyword absolute instance)) (closing valid silent) ≡ s }
{}

/// The locations of a trimmed tree go on from those above too.
pub fn a_trimmed_tree_is_located()
    ensures { (t : ResultTree) → IsLocated t → IsLocated (trimmed_tree t) }
{}

/// Nothing is lost: what the locations add, put behind those above, makes the tree again.
pub fn a_located_tree_is_placed_again()
    ensures { (t : ResultTree) → IsLocated t → placed_tree [] [] (relative_tree t) ≡ t }
{}
