//! A result as relative rows, which is what the program has of it: of each location a row keeps only what it adds to
//! that of the node above.
//!
//! `relative_rows` and `leaf` collect them. `keeping` makes the rows of the tree that pruning and condensing leave, and
//! `merging` the merged tree. `locations` puts whole locations together again.

pub(crate) mod apart;
pub(crate) mod differing;
pub(crate) mod gathered;
pub(crate) mod keeping;
pub(crate) mod leaf;
pub(crate) mod locations;
pub(crate) mod marks;
pub(crate) mod merging;
pub(crate) mod opening;
pub(crate) mod relative_rows;
pub(crate) mod trees;
pub(crate) mod unescaping;
pub(crate) mod whole_tree;
