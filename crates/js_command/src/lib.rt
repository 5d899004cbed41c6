//! The work of the program `jschema`, over files and devices of any kind.
#![tactic(auto)]

mod arguments;
mod disk;
mod documents;
mod files;
mod grammar;
mod lists;
mod messages;
mod program;
mod status;
mod tasks;
mod words;

pub use arguments::{NoArguments, program_arguments};
pub use disk::Disk;
pub use files::Files;
pub use lists::append;
pub use program::command;
pub use status::{FAILED, INVALID, MISUSED, REFUSED, VALID};
pub use words::{DocumentFile, Misuse, PAIRS_USAGE, USAGE};
