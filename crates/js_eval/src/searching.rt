//! Searches during a walk: with patterns, whose answers are kept, and for names in a set.

pub(crate) mod name_set;
pub(crate) mod pattern_answers;
pub(crate) mod recent_answers;
pub(crate) mod searchers;
