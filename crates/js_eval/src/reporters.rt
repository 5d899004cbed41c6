//! The reporters of the public walks: one passes the result to a collector, one keeps it as rows, one ignores it.

pub(crate) mod absolute;
pub(crate) mod collecting;
pub(crate) mod recording;
pub(crate) mod silent;
