//! Laws of numbers. Calling one does nothing.
ghost use Rattle.js_numbers.specs.Laws.{ExclusiveMaximumSaysTheSame, ExclusiveMinimumSaysTheSame};
ghost use Rattle.js_numbers.specs.Laws.{MaximumSaysTheSame, MinimumSaysTheSame, MultiplesAreOfNumerator};
ghost use Rattle.js_numbers.specs.Laws.{DigitsAreTheInteger, OutsideIsNoInteger, WholeIsEqual};

/// Each integer in the range is at least the number exactly if it meets the limit that `minimum_limit` returns.
pub fn a_minimum_says_the_same()
    ensures { MinimumSaysTheSame }
{}

/// Each integer in the range is at most the number exactly if it meets the limit that `maximum_limit` returns.
pub fn a_maximum_says_the_same()
    ensures { MaximumSaysTheSame }
{}

/// Each integer in the range is above the number exactly if it meets the limit that `exclusive_minimum_limit` returns.
pub fn an_exclusive_minimum_says_the_same()
    ensures { ExclusiveMinimumSaysTheSame }
{}

/// Each integer in the range is below the number exactly if it meets the limit that `exclusive_maximum_limit` returns.
pub fn an_exclusive_maximum_says_the_same()
    ensures { ExclusiveMaximumSaysTheSame }
{}

/// The number is the integer that `integer_value` returns, if it is one in the range.
pub fn whole_is_equal()
    ensures { WholeIsEqual }
{}

/// A number that makes an item of an `enum` or a `const` impossible is no integer in the range.
pub fn a_number_outside_is_no_integer()
    ensures { OutsideIsNoInteger }
{}

/// An integer in the range that is written in digits alone is read as that integer.
pub fn digits_are_the_integer()
    ensures { DigitsAreTheInteger }
{}

/// An integer in the range is a multiple of the number exactly if it is one of its numerator.
pub fn multiples_are_those_of_the_numerator()
    ensures { MultiplesAreOfNumerator }
{}
