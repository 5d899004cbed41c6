use crate::bytes_out::Stopped;
use std::alloc::{AllocError, AllocFailed};

/// Memory was needed and there was none: an allocation was refused.
#[derive(Clone, Copy, Debug, PartialEq, Eq)]
pub struct Memory;

impl From<AllocError> for Memory {
    fn from(_refused: AllocError) -> Memory {
        Memory
    }
}

impl<T: Drop> From<AllocFailed<T>> for Memory {
    fn from(_refused: AllocFailed<T>) -> Memory {
        Memory
    }
}

impl From<Stopped> for Memory {
    fn from(_stopped: Stopped) -> Memory {
        Memory
    }
}
