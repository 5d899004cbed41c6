//! Keywords, a file for each family: what they apply, when they pass, and their annotations and errors.

pub(crate) mod applications;
pub(crate) mod arrays;
pub(crate) mod assertions;
pub(crate) mod conditional;
pub(crate) mod contains;
pub(crate) mod in_place;
pub(crate) mod notes;
pub(crate) mod nothing_left;
pub(crate) mod objects;
pub(crate) mod others;
pub(crate) mod passing;
pub(crate) mod references;
pub(crate) mod unevaluated;
