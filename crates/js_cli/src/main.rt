//! The program `jschema`: a schema and an instance in, the verdict out.
#![tactic(auto)]

use js_command::{Disk, FAILED, USAGE, command, program_arguments};
use js_output::{Sink, Source};
use std::io::BufWriter;
use std::process::ExitCode;

fn main(rt: HostRuntime) -> ExitCode {
    ExitCode::from(status(&rt))
}

fn status(rt: &HostRuntime) -> u8 {
    let mut faults = Sink::new(rt.stderr());
    let words = match program_arguments(rt) {
        Ok(words) => words,
        Err(reason) => return reason.report_usage(USAGE, &mut faults),
    };
    let mut lent = Vec::new(rt.alloc());
    for word in &words {
        if lent.push(word.as_str()).is_err() {
            return FAILED;
        }
    }
    let mut files = Disk::new(rt);
    let mut input = Source::new(rt.stdin());
    let Ok(mut buffered) = BufWriter::new(rt.alloc(), rt.stdout()) else {
        return FAILED;
    };
    let mut out = Sink::new(&mut buffered);
    let status = command(
        rt.alloc(),
        lent.as_slice(),
        &mut files,
        &mut input,
        &mut out,
        &mut faults,
    );
    drop(out);
    // Dropping the buffer would write again what a failed write left in it.
    drop(buffered.into_parts());
    status
}
