//! The folders of the machine.
use crate::folder::Folder;
use js_output::Fault;
use std::fs;

/// Folders on the disk, reached through the runtime.
pub struct DiskFolder<'a, R: std::rt::Files> {
    rt: &'a R,
}

impl<'a, R: std::rt::Files> DiskFolder<'a, R> {
    pub fn new(rt: &'a R) -> DiskFolder<'a, R> {
        DiskFolder { rt }
    }
}

impl<R: std::rt::Files> Drop for DiskFolder<'_, R> {
    fn drop(self) {
        let DiskFolder { rt: _ } = self;
    }
}

impl<R: std::rt::Files> Folder for DiskFolder<'_, R> {
    fn put(&mut self, path: &str, bytes: &[u8]) -> Result<(), Fault> {
        match fs::write(self.rt, path, bytes) {
            Ok(()) => Ok(()),
            Err(_) => Err(Fault::Write),
        }
    }
}
