//! What is left of a tree or of the rows of a flat form: pruning, condensing by two rules, merging with a third, the
//! single steps of these rules, and the noted units. The program calls `merging` alone: it prunes and condenses `rows`.

pub(crate) mod compacting;
pub(crate) mod condensing;
pub(crate) mod likeness;
pub(crate) mod merging;
pub(crate) mod moves;
pub(crate) mod noted_rows;
pub(crate) mod noted_units;
pub(crate) mod order;
pub(crate) mod pruning;
pub(crate) mod reduction;
pub(crate) mod sorting;
