//! Laws of the definitions that this crate's contracts speak of. Calling one does nothing.
ghost use Rattle.js_upgrade.specs.Laws.{AllCurrentStay, CurrentStays, KeywordsHaveOrigins, StandsWhereMoved};
ghost use Rattle.js_upgrade.specs.Laws.{AllTwiceIsOnce, NamesArePlain, NamesStayApart, TwiceIsOnce};

/// A document of 2020-12 in which no schema declares an older draft stays as it is.
pub fn a_document_of_2020_12_stays()
    ensures { CurrentStays }
{}

/// A document that was upgraded stays as it is, where the same dialect is assumed.
pub fn upgraded_twice_is_upgraded_once()
    ensures { TwiceIsOnce }
{}

/// What stands at a pointer in a value stands, upgraded, where `moved` says.
pub fn what_is_moved_stands_there()
    ensures { StandsWhereMoved }
{}

/// A keyword of an upgraded schema is of what the keyword that it comes from becomes.
pub fn keywords_have_origins()
    ensures { KeywordsHaveOrigins }
{}

/// Documents of 2020-12 that are upgraded together stay as they are, where no schema in one declares an older draft.
pub fn documents_of_2020_12_stay()
    ensures { AllCurrentStay }
{}

/// Documents that were upgraded together stay as they are, where the same dialects are assumed.
pub fn upgraded_together_twice_is_once()
    ensures { AllTwiceIsOnce }
{}

/// What the name of a schema becomes is one that `$anchor` may be in 2020-12.
pub fn names_are_plain()
    ensures { NamesArePlain }
{}

/// Two names of schemas become two.
pub fn names_stay_apart()
    ensures { NamesStayApart }
{}
