//! Marks on the items of a list.
ghost use Rattle.std.specs.Prelude.{◌≡◌};
ghost use Rattle.js_eval.specs.code.Cursors.{is_marked};

/// Whether there is a mark at the index, and it is set.
pub(crate) fn is_marked(marks: &[bool], index: usize) -> bool
    ensures { result ≡ is_marked marks.now index }
{
    match marks.get(index) {
        Some(mark) => *mark,
        None => false,
    }
}
