//! What a keyword asks for, one application after another: where a cursor over it starts, and how it goes on.

pub(crate) mod adjacent;
pub(crate) mod application;
pub(crate) mod asking;
pub(crate) mod item_cursor;
pub(crate) mod list_cursor;
pub(crate) mod member_cursor;
pub(crate) mod name_cursor;
pub(crate) mod pattern_cursor;
pub(crate) mod start;
