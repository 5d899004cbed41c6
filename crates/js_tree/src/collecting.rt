//! Collectors: what receives a result node by node, and what each then holds of it. They are for users of whole trees;
//! the program collects `rows`.

pub(crate) mod boxed;
pub(crate) mod collector;
pub(crate) mod flat;
pub(crate) mod nesting;
pub(crate) mod verdict;
