//! The machine's files.
use crate::files::Files;
use js_output::{Fault, Source, read_all};
use std::alloc::Global;
use std::fs;

/// Files on the disk, reached through the runtime.
pub struct Disk<'a, R: std::rt::Files> {
    rt: &'a R,
}

impl<'a, R: std::rt::Files> Disk<'a, R> {
    /// The files that this runtime reaches.
    pub fn new(rt: &'a R) -> Disk<'a, R> {
        Disk { rt }
    }
}

impl<R: std::rt::Files> Drop for Disk<'_, R> {
    fn drop(self) {
        let Disk { rt: _ } = self;
    }
}

impl<R: std::rt::Files> Files for Disk<'_, R> {
    fn take(&mut self, alloc: Global, path: &str) -> Result<Vec<u8>, Fault> {
        match fs::open(self.rt, path) {
            Ok(file) => read_all(alloc, &mut Source::new(file)),
            Err(_) => Err(Fault::Read),
        }
    }
}
