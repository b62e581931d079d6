//! What the program does with a text.

ghost use Rattle.std.specs.Prelude.{◌≤◌};

use super::input::{Input, text_of};
use super::task::{Action, Task};
use crate::calls::call::{Call, CallError, Given, Verdict, perform_call, perform_diff};
use regalloc2_serialize::StoredFunction;
use regalloc2_text::explain::Source;
use regalloc2_text::{write, write_json};
use std::alloc::Global;
use std::io::{self, Write};

/// The status of wrong arguments or input, and of output that can't be written.
pub const UNUSABLE: u8 = 2;

/// The status of a rejected function, and of an output with errors.
const REJECTED: u8 = 1;

/// How many virtual registers (vregs) a function may name without a warning, whatever it defines.
const USUAL_VREGS: u64 = 1 << 20;

/// How many vreg numbers a function may use for each vreg that it names, without a warning.
const USUAL_NUMBERS: u64 = 16;

/// How many bytes the tables of the allocator and the checker take for a vreg number, about.
const BYTES_FOR_VREG: u64 = 20;

/// The bytes of a megabyte.
const MEGABYTE: u64 = 1_000_000;

/// Returns the status for `verdict`.
fn status_of(verdict: Verdict) -> u8
    ensures { result ≤ 2 }
{
    match verdict {
        Verdict::Accepted => 0,
        Verdict::Rejected => REJECTED,
        Verdict::Unusable => UNUSABLE,
    }
}

/// Writes `function` as JSON on one line.
fn write_function(
    alloc: Global,
    function: &StoredFunction,
    out: &mut Vec<u8>,
) -> Result<(), CallError> {
    let mut json = String::new(alloc);
    if write_json(function, None, &mut json).is_err() {
        return Err(CallError::Memory);
    }
    writeln!(out, "{json}")?;
    Ok(())
}

/// Returns the number of operands and parameters of `function`. Each of them names at most one vreg.
fn count_names(function: &StoredFunction) -> u64 {
    let mut count = 0u64;
    for inst in &function.insts {
        count = count.saturating_add(inst.operands.len() as u64);
    }
    for params in &function.block_params_in {
        count = count.saturating_add(params.len() as u64);
    }
    count
}

/// Warns if the vreg numbers of `function` are far above the number of vregs that it names, with the memory that
/// tables by number take.
fn warn(path: &str, function: &StoredFunction, err: &mut Vec<u8>) -> io::Result<()> {
    let vregs = function.num_vregs;
    let names = count_names(function);
    if vregs <= USUAL_VREGS || vregs / USUAL_NUMBERS <= names {
        return Ok(());
    }
    let megabytes = vregs.saturating_mul(BYTES_FOR_VREG) / MEGABYTE;
    writeln!(
        err,
        "{path}: warning: numbers of virtual registers are below {vregs}, and at most {names} are named: tables by number take about {megabytes} MB"
    )
}

/// Returns the first line of `one` that differs from its line in `other`, and that line, without blanks at both ends;
/// empty after the end of a text.
fn first_difference<'a>(one: &'a str, other: &'a str) -> (&'a str, &'a str) {
    let mut lines = other.lines();
    for line in one.lines() {
        let there = lines.next().unwrap_or("");
        if line != there {
            return (line.trim(), there.trim());
        }
    }
    ("", lines.next().unwrap_or("").trim())
}

/// Returns the text in which the parts of an input are shown: `shown` for JSON, else `text`, with `name` before line
/// numbers.
fn source_of<'s>(text: &'s str, shown: Option<&'s String>, name: &'s str) -> Source<'s> {
    match shown {
        Some(shown) => Source {
            name: None,
            text: shown.as_str(),
            first_line: 1,
        },
        None => Source {
            name: Some(name),
            text,
            first_line: 1,
        },
    }
}

/// The other input of `diff`, with its path and the text that it was read from.
#[derive(Clone, Copy)]
struct Other<'p, 't, 'i> {
    path: &'p str,
    text: &'t str,
    input: &'i Input,
}

/// Returns what a call is given of `input`, which was read from `text`; lines are shown with `name` before their
/// numbers.
fn given_of<'a>(input: &'a Input, text: &'a str, name: &'a str) -> Given<'a, 'a, 'a> {
    Given {
        function: &input.text.function,
        output: input.text.output.as_ref(),
        source: Some(source_of(text, input.shown.as_ref(), name)),
    }
}

/// Returns whether the texts `one` and `other` are equal; if not, writes the lines in which they differ to `err`.
fn are_same(one: &str, other: &str, err: &mut Vec<u8>) -> Result<bool, CallError> {
    if one == other {
        return Ok(true);
    }
    let (here, there) = first_difference(one, other);
    writeln!(
        err,
        "the files give different functions: `{here}` and `{there}`"
    )?;
    Ok(false)
}

/// Returns whether the functions `one` and `other` are equal; if not, writes the lines in which their texts differ to
/// `err`.
fn are_same_functions(
    alloc: Global,
    one: &StoredFunction,
    other: &StoredFunction,
    err: &mut Vec<u8>,
) -> Result<bool, CallError> {
    let one = write(alloc, one, None)?;
    let other = write(alloc, other, None)?;
    are_same(one.as_str(), other.as_str(), err)
}

/// Writes how the outputs of `given` and `other` differ.
fn act_diff(
    alloc: Global,
    given: &Given<'_, '_, '_>,
    other: Other<'_, '_, '_>,
    out: &mut Vec<u8>,
    err: &mut Vec<u8>,
) -> Result<Verdict, CallError> {
    let Other { path, text, input } = other;
    if !are_same_functions(alloc, given.function, &input.text.function, err)? {
        return Ok(Verdict::Unusable);
    }
    let Ok(name) = format!(in alloc; "{path}:") else {
        return Err(CallError::Memory);
    };
    let second = given_of(input, text, name.as_str());
    perform_diff(alloc, given, &second, out, err)
}

/// An input with the text that it was read from, and the other input of `diff`.
#[derive(Clone, Copy)]
struct Inputs<'t, 'i, 'p, 'u, 'o> {
    text: &'t str,
    input: &'i Input,
    other: Option<Other<'p, 'u, 'o>>,
}

/// Performs the action of `task` with `given`.
fn act_on(
    alloc: Global,
    task: Task<'_>,
    given: &Given<'_, '_, '_>,
    other: Option<Other<'_, '_, '_>>,
    out: &mut Vec<u8>,
    err: &mut Vec<u8>,
) -> Result<Verdict, CallError> {
    match (task.action, other) {
        (Action::Json, _) => {
            write_function(alloc, given.function, out)?;
            Ok(Verdict::Accepted)
        }
        (Action::Call(Call::Diff), Some(other)) => act_diff(alloc, given, other, out, err),
        (Action::Call(call), _) => {
            if !matches!(call, Call::Text) {
                warn(task.path, given.function, err)?;
            }
            perform_call(alloc, call, given, out, err)
        }
    }
}

/// Performs the action of `task` with `inputs`.
fn act(
    alloc: Global,
    task: Task<'_>,
    inputs: Inputs<'_, '_, '_, '_, '_>,
    out: &mut Vec<u8>,
    err: &mut Vec<u8>,
) -> Result<Verdict, CallError> {
    let path = task.path;
    let Ok(name) = format!(in alloc; "{path}:") else {
        return Err(CallError::Memory);
    };
    let given = given_of(inputs.input, inputs.text, name.as_str());
    act_on(alloc, task, &given, inputs.other, out, err)
}

/// Performs the action of `task` with `inputs`, and writes nothing if the task is quiet.
fn act_as_asked(
    alloc: Global,
    task: Task<'_>,
    inputs: Inputs<'_, '_, '_, '_, '_>,
    out: &mut Vec<u8>,
    err: &mut Vec<u8>,
) -> Result<Verdict, CallError> {
    if task.is_quiet {
        act(
            alloc,
            task,
            inputs,
            &mut Vec::new(alloc),
            &mut Vec::new(alloc),
        )
    } else {
        act(alloc, task, inputs, out, err)
    }
}

/// Reads the input `bytes`; `None` if it can't be read, which a line on `err` reports with `path`.
fn read_input(alloc: Global, path: &str, bytes: &[u8], err: &mut Vec<u8>) -> Option<Input> {
    match text_of(bytes).and_then(|text| Input::read(alloc, text)) {
        Ok(input) => Some(input),
        Err(error) => {
            // The text of an error with a place begins with the line and the column.
            let blank = if error.has_place() { "" } else { " " };
            let _ = writeln!(err, "{path}:{blank}{error}");
            None
        }
    }
}

/// Performs `task` with `inputs`, and returns the status.
fn finish(
    alloc: Global,
    task: Task<'_>,
    inputs: Inputs<'_, '_, '_, '_, '_>,
    out: &mut Vec<u8>,
    err: &mut Vec<u8>,
) -> u8
    ensures { result ≤ 2 }
{
    let path = task.path;
    match act_as_asked(alloc, task, inputs, out, err) {
        Ok(verdict) => status_of(verdict),
        Err(error) => {
            let _ = writeln!(err, "ra2_text: {path}: {error}");
            UNUSABLE
        }
    }
}

/// Reads `other`, the task's other file, if there is one, and performs `task`.
fn perform_with_other(
    alloc: Global,
    task: Task<'_>,
    text: &str,
    input: &Input,
    other: Option<(&str, &[u8])>,
    out: &mut Vec<u8>,
    err: &mut Vec<u8>,
) -> u8
    ensures { result ≤ 2 }
{
    let Some((path, bytes)) = other else {
        let inputs = Inputs {
            text,
            input,
            other: None,
        };
        return finish(alloc, task, inputs, out, err);
    };
    let Some(second) = read_input(alloc, path, bytes, err) else {
        return UNUSABLE;
    };
    let other = Other {
        path,
        text: text_of(bytes).unwrap_or(""),
        input: &second,
    };
    let inputs = Inputs {
        text,
        input,
        other: Some(other),
    };
    finish(alloc, task, inputs, out, err)
}

/// Performs `task` with `bytes`, the content of its file, and `other`, the path and the content of its other file,
/// and returns the status.
///
/// The status is 2, with one line on `err`, if an input can't be read or there is no whole result; or 2 if the
/// numbers name no function. It is 1 if the function is rejected, which `err` explains, or something is found. Else
/// it is 0, and the result is on `out`.
pub fn perform_task(
    alloc: Global,
    task: Task<'_>,
    bytes: &[u8],
    other: Option<(&str, &[u8])>,
    out: &mut Vec<u8>,
    err: &mut Vec<u8>,
) -> u8
    ensures { result ≤ 2 }
{
    let Some(input) = read_input(alloc, task.path, bytes, err) else {
        return UNUSABLE;
    };
    let text = text_of(bytes).unwrap_or("");
    perform_with_other(alloc, task, text, &input, other, out, err)
}
