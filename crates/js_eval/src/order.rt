//! The keywords of a schema, and the order in which a walk visits them.

pub(crate) mod applying;
pub(crate) mod in_turn;
pub(crate) mod keyword;
pub(crate) mod keyword_cursor;
pub(crate) mod keyword_in_turn;
pub(crate) mod turn;
