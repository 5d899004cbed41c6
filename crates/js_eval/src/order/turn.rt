//! When a keyword has its turn among the nodes of its schema. They ascend by name, except that `else` comes right after
//! `if`.
ghost use Rattle.std.specs.Prelude.{◌≡◌};
ghost use Rattle.js_eval.specs.code.Turns.{is_ever};

/// When a keyword has its turn among the nodes of its schema. They ascend by name, except that `else` comes right after
/// `if`.
#[derive(Clone, Copy)]
pub(crate) enum Turn {
    /// It has no node.
    Never,
    /// Before `else`: its name is `if` or before it, and isn't `else`.
    First,
    /// It is `else`.
    Second,
    /// After `else`: its name comes after `if`.
    Last,
}

/// Whether a keyword with this turn has a node.
pub(crate) fn is_ever(turn: Turn) -> bool
    ensures { result ≡ is_ever turn }
{
    match turn {
        Turn::Never => false,
        Turn::First => true,
        Turn::Second => true,
        Turn::Last => true,
    }
}
