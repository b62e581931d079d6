//! `compile`: writes a function or several, given as a text, as x86-64 assembly, or runs them and
//! their code.
//!
//! The arguments are `FILE`, `--header FILE`, `run FILE NUMBER..` or `random SEED`, where FILE may
//! be `-` for standard input; `--help` lists them too. The exit status is 0; or 1 if the function is rejected,
//! or the outcomes of the function and of its code differ; or 2 if the arguments or the text are
//! invalid, the file can't be read or the output can't be written.
#![tactic(auto)]

mod command;

use clap::Error;
use codegen::program::{Task, UNUSABLE, run_task};
use command::Request;
use std::env::{self, Env};
use std::fs::File;
use std::io::{self, Read, Write};
use std::process::ExitCode;

/// The program's arguments, its name first.
fn words(rt: &(impl Env + AllocGlobal)) -> io::Result<Vec<String>> {
    Ok(env::args(rt)?.collect(rt.alloc())?)
}

/// Reads the bytes of a task's file; `-` is standard input. None of `random`.
fn read_bytes(rt: &HostRuntime, task: &Task<'_>, bytes: &mut Vec<u8>) -> io::Result<usize> {
    match task {
        Task::Random(_) => Ok(0),
        Task::Read("-", _) => rt.stdin().read_to_end(bytes),
        Task::Read(path, _) => File::open(rt, *path)?.read_to_end(bytes),
    }
}

/// Writes a result to a file, or else to standard output.
fn write_result(rt: &HostRuntime, output: Option<&str>, bytes: &[u8]) -> io::Result<()> {
    match output {
        Some(path) => File::create(rt, path)?.write_all(bytes),
        None => rt.stdout().write_all(bytes),
    }
}

/// Writes the errors and the result of a task, and returns the exit status.
fn write_answer(rt: &HostRuntime, request: &Request<'_>, status: u8, out: &[u8], err: &[u8]) -> u8 {
    if request.is_quiet {
        return status;
    }
    let _ = rt.stderr().write_all(err);
    match write_result(rt, request.output, out) {
        Ok(()) => status,
        Err(error) => {
            let path = request.output.unwrap_or("standard output");
            let _ = eprintln!(rt; "compile: {path}: {error}");
            UNUSABLE
        }
    }
}

/// Does a task with the bytes of its file, writes its errors and its result, and returns the exit status.
///
/// The result is written when all of it is made, so the file that is read may be the one that is written.
fn write_done(rt: &HostRuntime, request: &Request<'_>, bytes: &[u8]) -> u8 {
    let (mut out, mut err) = (Vec::new(rt.alloc()), Vec::new(rt.alloc()));
    let status = run_task(rt.alloc(), &request.task, bytes, &mut out, &mut err);
    write_answer(rt, request, status, out.as_slice(), err.as_slice())
}

/// Writes why a task's file can't be read.
fn write_unread(rt: &HostRuntime, task: &Task<'_>, error: &io::Error) -> u8 {
    let _ = match task {
        Task::Read(path, _) => eprintln!(rt; "compile: {path}: {error}"),
        Task::Random(_) => eprintln!(rt; "compile: {error}"),
    };
    UNUSABLE
}

/// Runs the requested task, and returns the exit status.
fn perform(rt: &HostRuntime, request: &Request<'_>) -> u8 {
    let mut bytes = Vec::new(rt.alloc());
    match read_bytes(rt, &request.task, &mut bytes) {
        Ok(_) => write_done(rt, request, bytes.as_slice()),
        Err(error) => write_unread(rt, &request.task, &error),
    }
}

/// Writes an error in the arguments, or the help or the version if requested, and returns the exit status.
fn write_unasked(rt: &HostRuntime, error: &Error) -> u8 {
    if error.print(rt).is_ok() && !error.use_stderr() {
        0
    } else {
        UNUSABLE
    }
}

/// Runs what the arguments ask for, and returns the exit status.
fn run(rt: &HostRuntime, words: &[String]) -> u8 {
    match Request::of(rt.alloc(), words) {
        Ok(request) => perform(rt, &request),
        Err(error) => write_unasked(rt, &error),
    }
}

fn main(rt: HostRuntime) -> ExitCode {
    ExitCode::from(match words(&rt) {
        Ok(words) => run(&rt, words.as_slice()),
        Err(error) => {
            let _ = eprintln!(rt; "compile: the arguments can't be read: {error}");
            UNUSABLE
        }
    })
}
