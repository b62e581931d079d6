//! `ra2_text`: allocates registers to a function given as a text or as JSON, and explains to a user
//! what is rejected.
//!
//! `ra2_text --help` names the subcommands. The status is 0; or 1 if the function is rejected or
//! something is found; or 2 if the arguments or the input are invalid or the output can't be
//! written.
#![tactic(auto)]

use regalloc2_tool::ra2_text::{Task, UNUSABLE, perform_task, words, write_result};
use std::fs::File;
use std::io::{self, Read, Write};
use std::process::ExitCode;

/// Returns the bytes of the file with the path `path`; `-` is standard input.
fn bytes_of(rt: &HostRuntime, path: &str) -> io::Result<Vec<u8>> {
    let mut bytes = Vec::new(rt.alloc());
    if path == "-" {
        rt.stdin().read_to_end(&mut bytes)?;
    } else {
        File::open(rt, path)?.read_to_end(&mut bytes)?;
    }
    Ok(bytes)
}

/// Performs `task` with its input, and returns the status. A line of `err` reports a file that can't be read.
fn perform(rt: &HostRuntime, task: Task<'_>, out: &mut Vec<u8>, err: &mut Vec<u8>) -> u8 {
    let alloc = rt.alloc();
    let bytes = match bytes_of(rt, task.path) {
        Ok(bytes) => bytes,
        Err(error) => return refuse_file(err, task.path, error),
    };
    let Some(path) = task.other else {
        return perform_task(alloc, task, bytes.as_slice(), None, out, err);
    };
    match bytes_of(rt, path) {
        Ok(other) => {
            let other = Some((path, other.as_slice()));
            perform_task(alloc, task, bytes.as_slice(), other, out, err)
        }
        Err(error) => refuse_file(err, path, error),
    }
}

/// Reports `error`: the file with the path `path` can't be read or written. Returns the status.
fn refuse_file<W: Write>(err: &mut W, path: &str, error: io::Error) -> u8 {
    let _ = writeln!(err, "ra2_text: {path}: {error}");
    UNUSABLE
}

/// Performs `task`, writes its errors and its result, and returns the status.
///
/// The result is written when all of it is made, so a file that is read may be the one that is written.
fn perform_all(rt: &HostRuntime, task: Task<'_>) -> u8 {
    let (mut out, mut err) = (Vec::new(rt.alloc()), Vec::new(rt.alloc()));
    let status = perform(rt, task, &mut out, &mut err);
    let _ = rt.stderr().write_all(err.as_slice());
    match write_result(rt, task.output, out.as_slice(), &mut rt.stdout()) {
        Ok(()) => status,
        Err(error) => {
            let path = task.output.unwrap_or("standard output");
            refuse_file(&mut rt.stderr(), path, error)
        }
    }
}

fn main(rt: HostRuntime) -> ExitCode {
    let words = match words(&rt) {
        Ok(words) => words,
        Err(error) => {
            let _ = eprintln!(rt; "ra2_text: the arguments can't be read: {error}");
            return ExitCode::from(UNUSABLE);
        }
    };
    match Task::of(rt.alloc(), words.as_slice()) {
        Ok(task) => ExitCode::from(perform_all(&rt, task)),
        Err(error) => {
            let is_shown = error.print(&rt).is_ok();
            let is_asked_for = is_shown && !error.use_stderr();
            ExitCode::from(if is_asked_for { 0 } else { UNUSABLE })
        }
    }
}
