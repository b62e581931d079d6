//! Runs the program with its arguments.

ghost use Rattle.std.specs.Prelude.{◌≡◌, ◌≤◌, None, Some, IfSome, true, false};
ghost use Rattle.std.specs.Io.Buffered.{writer_inner, writer_contents};
ghost use Rattle.std.specs.Io.KnownBytes.{Appends};
ghost use Rattle.regalloc2_tool.specs.Ra2.Words.{command_of};
ghost use Rattle.regalloc2_tool.specs.Ra2.Outcome.{HasOutcome};

use super::judging::{judge, show};
use super::reading::{function_from, replay_from};
use super::task::{Command, Task};
use std::alloc::{Allocator, Global};
use std::io::{BufWriter, Read, Write};

/// Status of invalid arguments, of invalid input, and of output that can't be written.
pub const UNUSABLE: u8 = 2;

/// Status of a rejected function, and of an output with errors.
const REFUSED: u8 = 1;

/// Reports invalid arguments, and returns the status.
pub fn refuse_words<E: Write>(err: &mut E) -> u8
    ensures { result ≡ 2 }
{
    let _ = writeln!(err, "ra2: bad words");
    UNUSABLE
}

/// Performs `task` with the function that `input` gives. Returns whether it succeeded.
///
/// Returns `None` after a failed write, or if there is no function, which a line on `err` then reports.
fn allocate<A: Allocator + Copy, R: Read + Drop, O: Write, E: Write>(
    global: Global,
    alloc: A,
    task: Task,
    input: R,
    out: &mut O,
    err: &mut E,
) -> Option<bool>
    ensures { IfSome result (HasOutcome A (R.remaining input) (Command.Allocate task) (Appends (O.contents out.old) (O.contents out.new))) }
{
    let f = match function_from(global, alloc, input) {
        Ok(f) => f,
        Err(error) => {
            let _ = writeln!(err, "ra2: {error}");
            return None;
        }
    };
    show(alloc, task, &f, f.machine_env(), out).ok()
}

/// Checks the output that `input` gives with its function. Returns whether it is accepted.
///
/// Returns `None` after a failed write, or if there is no output, which a line on `err` then reports.
fn replay<A: Allocator + Copy, R: Read + Drop, O: Write, E: Write>(
    global: Global,
    alloc: A,
    input: R,
    out: &mut O,
    err: &mut E,
) -> Option<bool>
    ensures { IfSome result (HasOutcome A (R.remaining input) Command.Replay (Appends (O.contents out.old) (O.contents out.new))) }
{
    let (f, output) = match replay_from(global, alloc, input) {
        Ok(given) => given,
        Err(error) => {
            let _ = writeln!(err, "ra2: {error}");
            return None;
        }
    };
    judge(alloc, &f, f.machine_env(), &output, out).ok()
}

/// Performs `command` with `input`, as [`allocate`] and [`replay`] do.
fn obey<A: Allocator + Copy, R: Read + Drop, O: Write, E: Write>(
    global: Global,
    alloc: A,
    command: Command,
    input: R,
    out: &mut O,
    err: &mut E,
) -> Option<bool>
    ensures { IfSome result (HasOutcome A (R.remaining input) command (Appends (O.contents out.old) (O.contents out.new))) }
{
    match command {
        Command::Allocate(task) => allocate(global, alloc, task, input, out, err),
        Command::Replay => replay(global, alloc, input, out, err),
    }
}

/// Performs `command` with `input`, and returns the status. If the status is 0 or 1, the buffer has been flushed.
fn perform<A: Allocator + Copy, R: Read + Drop, O: Write + Drop, E: Write>(
    global: Global,
    alloc: A,
    command: Command,
    input: R,
    out: &mut BufWriter<O>,
    err: &mut E,
) -> u8
    ensures status { result ≤ 2 }
    ensures done { result ≡ 0 → HasOutcome A (R.remaining input) command (Appends (writer_contents O.contents out.old)
        (O.contents (writer_inner out.new))) true }
    ensures turned_down { result ≡ 1 → HasOutcome A (R.remaining input) command (Appends (writer_contents O.contents out.old)
        (O.contents (writer_inner out.new))) false }
{
    let Some(accepted) = obey(global, alloc, command, input, out, err) else {
        return UNUSABLE;
    };
    let Ok(()) = out.flush() else {
        return UNUSABLE;
    };
    if accepted { 0 } else { REFUSED }
}

/// Runs the program with its arguments: reads `input`, writes to `out` and `err`, and returns the
/// status, and the writer behind `out`.
///
/// The input is the JSON text of a stored function. `run` tests the function, allocates registers
/// to it, and writes its listing, or `refused` and the error's number; `check` also checks the
/// output, and then writes `checked` or the errors in it. For `replay` the input is an array of
/// exactly a stored function and a stored output; it writes `checked` or the errors in that output.
///
/// The status is 0 on success; 1 if the function is rejected or an error is found; or 2, with one
/// line on `err`, if the arguments, the input, the stored numbers or the machine are invalid,
/// tested in this order. `replay` tests the arguments, the input, the function's numbers, the
/// output's numbers, and whether the function is structurally valid (`IsFramed`). A failed write to
/// `out` ends the program with 2 and no further text.
///
/// `serde_json` allocates from `global`, since it supports no other allocator; all else allocates
/// from `alloc`.
pub fn run_program<A: Allocator + Copy, R: Read + Drop, O: Write + Drop, E: Write>(
    global: Global,
    alloc: A,
    words: &[String],
    input: R,
    mut out: BufWriter<O>,
    err: &mut E,
) -> (u8, O)
    ensures status { result.0 ≤ 2 }
    ensures bad_words { command_of words.now ≡ None → result.0 ≡ 2 }
    ensures done { result.0 ≡ 0 → (c : Command) × (command_of words.now ≡ Some c)
        × HasOutcome A (R.remaining input) c (Appends (writer_contents O.contents out) (O.contents result.1)) true }
    ensures turned_down { result.0 ≡ 1 → (c : Command) × (command_of words.now ≡ Some c)
        × HasOutcome A (R.remaining input) c (Appends (writer_contents O.contents out) (O.contents result.1)) false }
{
    let Some(command) = Command::of(words) else {
        let (untouched, _) = out.into_parts();
        return (refuse_words(err), untouched);
    };
    let status = perform(global, alloc, command, input, &mut out, err);
    // a dropped buffer would write again what a failed write left in it
    let (written, _) = out.into_parts();
    (status, written)
}
