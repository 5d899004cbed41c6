//! Laws of the definitions. Each is the contract of a function that does nothing.
ghost use Rattle.js_assert.specs.Laws.{OnlyCountingAsks};

/// Of the keywords that judge a value by themselves, only `maxContains` and `minContains` ask how many items match the
/// adjacent `contains` (JSON Schema Validation, sections 6.4.4 and 6.4.5).
pub fn only_counting_asks()
    ensures { OnlyCountingAsks }
{}
