//! The program `jschema-upgrade`: schema documents of older drafts in, documents of 2020-12 out.
#![tactic(auto)]

mod disk_folder;
mod documents;
mod folder;
mod names;
mod numbers;
mod outputs;
mod program;
mod request;
mod sources;
mod stop;
mod upgraded;
mod words;

use disk_folder::DiskFolder;
use js_command::{Disk, FAILED, program_arguments};
use js_output::Sink;
use program::upgrade_command;
use std::io::BufWriter;
use std::process::ExitCode;
use words::UPGRADE_USAGE;

fn main(rt: HostRuntime) -> ExitCode {
    ExitCode::from(status(&rt))
}

fn status(rt: &HostRuntime) -> u8 {
    let mut faults = Sink::new(rt.stderr());
    let words = match program_arguments(rt) {
        Ok(words) => words,
        Err(reason) => return reason.report_usage(UPGRADE_USAGE, &mut faults),
    };
    let mut lent = Vec::new(rt.alloc());
    for word in &words {
        if lent.push(word.as_str()).is_err() {
            return FAILED;
        }
    }
    let mut files = Disk::new(rt);
    let mut folder = DiskFolder::new(rt);
    let Ok(mut buffered) = BufWriter::new(rt.alloc(), rt.stdout()) else {
        return FAILED;
    };
    let mut out = Sink::new(&mut buffered);
    let status = upgrade_command(
        rt.alloc(),
        lent.as_slice(),
        &mut files,
        &mut folder,
        &mut out,
        &mut faults,
    );
    drop(out);
    // Dropping the buffer would write again what a failed write left in it.
    drop(buffered.into_parts());
    status
}
