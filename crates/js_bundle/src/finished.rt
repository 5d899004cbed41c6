//! What finished schemas answer: the schemas that the keywords of a place hold, what they assert, where references
//! lead, and which place a URI names.

pub(crate) mod dynamic_target;
pub(crate) mod entry;
pub(crate) mod place_below;
pub(crate) mod place_by_rank;
pub(crate) mod place_keywords;
pub(crate) mod resources;
pub(crate) mod target;
