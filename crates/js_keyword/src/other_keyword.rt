//! The keywords that neither apply schemas nor judge a value.
ghost use Rattle.std.specs.Prelude.{◌≡◌};
ghost use Rattle.js_keyword.specs.Keyword.{row_of};
ghost use Rattle.js_keyword.specs.declared.keyword.Keyword.TheVariants.{Other};

/// A name that is neither an applicator's nor an assertion's: it identifies schemas, holds them for reference, comments
/// or annotates (JSON Schema Core, section 8).
#[derive(Clone, Copy, Debug, Drop, PartialEq, Eq)]
pub enum OtherKeyword {
    /// `$schema`
    Schema,
    /// `$id`
    Id,
    /// `$anchor`
    Anchor,
    /// `$dynamicAnchor`
    DynamicAnchor,
    /// `$vocabulary`
    Vocabulary,
    /// `$comment`
    Comment,
    /// `$defs`
    Defs,
    /// `definitions`, which is taken as `$defs`
    Definitions,
    /// Each other name, known or not: its argument is an annotation
    Unknown,
}

impl OtherKeyword {
    /// Its name; the empty text, which is no keyword's name, for `Unknown`.
    pub fn name(self) -> &'static str
        ensures { result.now ≡ (row_of (Other self)).name }
    {
        match self {
            OtherKeyword::Schema => "$schema",
            OtherKeyword::Id => "$id",
            OtherKeyword::Anchor => "$anchor",
            OtherKeyword::DynamicAnchor => "$dynamicAnchor",
            OtherKeyword::Vocabulary => "$vocabulary",
            OtherKeyword::Comment => "$comment",
            OtherKeyword::Defs => "$defs",
            OtherKeyword::Definitions => "definitions",
            OtherKeyword::Unknown => "",
        }
    }
}
