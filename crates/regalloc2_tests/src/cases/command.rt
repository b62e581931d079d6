//! The programs `ra2_text` and `compile`, called with a case's text in place of a file.

use crate::words_of;
use codegen::program::{self as compiler, Action, ROOM, RunOptions};
use regalloc2_tool::calls::call::CallError;
use regalloc2_tool::ra2_text::{Task, perform_task};
use std::alloc::{AllocError, Global};
use std::fmt::Display;
use std::io::Write;

/// Returns the bytes of `text`, in which `%` stands for a byte that is part of no character.
fn bytes_of(alloc: Global, text: &str) -> Result<Vec<u8>, AllocError> {
    let mut bytes = Vec::new(alloc);
    for byte in text.bytes() {
        bytes.push(if byte == b'%' { 255 } else { byte })?;
    }
    Ok(bytes)
}

/// Writes the first line of the text of `error`.
fn write_first_line<E: Display>(
    alloc: Global,
    error: &E,
    to: &mut Vec<u8>,
) -> Result<(), CallError> {
    let shown = format!(in alloc; "{error}")?;
    let first = shown.as_str().lines().next().unwrap_or("");
    writeln!(to, "{first}")?;
    Ok(())
}

/// Writes `err`, what a program wrote to standard error, and `status`.
fn write_end(err: &[u8], status: u8, to: &mut Vec<u8>) -> Result<(), CallError> {
    to.extend_from_slice(err)?;
    writeln!(to, "status {status}")?;
    Ok(())
}

/// Writes what `ra2_text` writes for a task, and its status.
fn write_done(
    alloc: Global,
    task: Task<'_>,
    text: &str,
    before: &str,
    to: &mut Vec<u8>,
) -> Result<(), CallError> {
    let bytes = bytes_of(alloc, text)?;
    let mut err = Vec::new(alloc);
    let other = task.other.map(|name| (name, before.as_bytes()));
    let status = perform_task(alloc, task, bytes.as_slice(), other, to, &mut err);
    write_end(err.as_slice(), status, to)
}

/// Writes what the program writes for the command line `line`, in which the first file is `text` and the second file
/// of `diff` is `before`: its standard output, then its standard error, and its status. If the words name no task, it
/// writes the error's first line alone.
pub fn write_program(
    alloc: Global,
    line: &str,
    text: &str,
    before: &str,
    to: &mut Vec<u8>,
) -> Result<(), CallError> {
    let words = words_of(alloc, line)?;
    match Task::of(alloc, words.as_slice()) {
        Ok(task) => write_done(alloc, task, text, before, to),
        Err(error) => write_first_line(alloc, &error, to),
    }
}

/// Reads `word`, a word of `compile run`, into `options`. Returns whether it is right.
fn take(options: &mut RunOptions, word: &str) -> Result<bool, AllocError> {
    if word == "--memory" {
        options.shows_memory = true;
        return Ok(true);
    }
    let given = word.strip_prefix("--room=");
    let Ok(number) = given.unwrap_or(word).parse::<u64>() else {
        return Ok(false);
    };
    if given.is_some() {
        options.room = number;
    } else {
        options.arguments.push(number)?;
    }
    Ok(true)
}

/// Returns the options of `compile run` in `words`, in which the file is left out, or `None` if a word is wrong.
fn options_of(alloc: Global, words: &str) -> Result<Option<RunOptions>, AllocError> {
    let mut options = RunOptions {
        arguments: Vec::new(alloc),
        room: ROOM,
        shows_memory: false,
    };
    for word in words.split_whitespace() {
        if !take(&mut options, word)? {
            return Ok(None);
        }
    }
    Ok(Some(options))
}

/// Returns the action that `words`, the words of `compile` without the file, name, or `None` if a word is wrong.
fn action_of(alloc: Global, words: &str) -> Result<Option<Action>, AllocError> {
    match words {
        "" => return Ok(Some(Action::Write)),
        "--header" => return Ok(Some(Action::Header)),
        _ => {}
    }
    let Some(rest) = words.strip_prefix("run ") else {
        return Ok(None);
    };
    match options_of(alloc, rest)? {
        Some(options) => Ok(Some(Action::Run(options))),
        None => Ok(None),
    }
}

/// Writes what `compile` writes for `words`, in which the file is left out, and `text`: standard output, then
/// standard error, and the status.
pub fn write_compiler(
    alloc: Global,
    words: &str,
    text: &str,
    to: &mut Vec<u8>,
) -> Result<(), CallError> {
    let bytes = bytes_of(alloc, text)?;
    let Some(action) = action_of(alloc, words)? else {
        return Ok(to.extend_from_slice(b"no such words\n")?);
    };
    let mut err = Vec::new(alloc);
    let task = compiler::Task::Read("text", action);
    let status = compiler::run_task(alloc, &task, bytes.as_slice(), to, &mut err);
    write_end(err.as_slice(), status, to)
}
