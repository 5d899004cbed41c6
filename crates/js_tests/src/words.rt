//! The words of a question.
ghost use Rattle.std.specs.Prelude.{◌≡◌, ◌≤◌, ◌<◌, [], Some, length, slice_get};

/// The word with this number, counted from 0; an empty one where there are no more words.
pub fn word_at<'q>(words: &[&'q str], number: usize) -> &'q str
    ensures held { number < length words.now → slice_get words.now number ≡ Some result }
    ensures none { length words.now ≤ number → result.now ≡ [] }
{
    match words.get(number) {
        Some(word) => *word,
        None => "",
    }
}
