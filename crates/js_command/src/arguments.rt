//! A program's arguments, as the machine gives them.
use crate::status::{FAILED, MISUSED};
use js_output::Sink;
use std::env;
use std::io::{ErrorKind, Write};

/// Why a program has no arguments.
#[derive(Clone, Copy, Debug, Drop, PartialEq, Eq)]
pub enum NoArguments {
    /// Memory ran out.
    Memory,
    /// One isn't UTF-8.
    NotUtf8,
}

impl NoArguments {
    /// Writes the usage text if an argument isn't UTF-8, and nothing if memory ran out. Returns the exit status:
    /// [`MISUSED`] or [`FAILED`].
    pub fn report_usage<V: Write>(self, usage: &[u8], faults: &mut Sink<V>) -> u8 {
        match self {
            NoArguments::Memory => FAILED,
            NoArguments::NotUtf8 => {
                let _ = faults.write_all(usage);
                MISUSED
            }
        }
    }
}

/// The arguments after the program's name.
///
/// # Errors
/// See [`NoArguments`].
pub fn program_arguments(rt: &HostRuntime) -> Result<Vec<String>, NoArguments> {
    let all = match env::args(rt) {
        Ok(all) => all,
        Err(error) if error.kind() == ErrorKind::OutOfMemory => return Err(NoArguments::Memory),
        Err(_) => return Err(NoArguments::NotUtf8),
    };
    let mut words = Vec::new(rt.alloc());
    for word in all.skip(1) {
        if words.push(word).is_err() {
            return Err(NoArguments::Memory);
        }
    }
    Ok(words)
}
