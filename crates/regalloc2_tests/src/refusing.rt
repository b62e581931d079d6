//! Each call that allocates memory, with each of its allocations made to fail in turn.
//!
//! Each call of the table is made with each function and an allocator that fails its first request,
//! then its second and so on, until no allocation of a call fails. A call with a failed allocation
//! has to report that memory ran out, to leave what it says it leaves, and to return the usual
//! result if it is made again; the last call, without a failed allocation, has to be done.

mod calls;

use crate::test_alloc::{Refusing, is_each_told};
use crate::units::parts::refused::function_of_text;
use calls::{Given, NAMES, Name};
use regalloc2::{Function, MachineEnv, Output, allocate_without_checker};
use std::alloc::Global;
use std::io::{self, Write};

/// Returns what is allocated to `f`, or an empty output.
fn output_of<F: Function>(alloc: Global, f: &F, env: &MachineEnv) -> Output {
    allocate_without_checker(alloc, f, env).unwrap_or(Output::new(alloc))
}

/// Returns whether the call `given` allocates memory, and reports each failed allocation. The call's expected result
/// is the one that it returns with ample memory.
fn is_told<F: Function>(global: Global, given: &mut Given<'_, F>) -> Option<bool> {
    given.wanted = given.outcome(&Refusing::counting(global)).ok()?;
    Some(is_each_told(global, given))
}

/// Returns the result of the call `name`.
fn answer_of<F: Function>(
    global: Global,
    name: Name,
    (f, env): (&F, &MachineEnv),
    out: &Output,
    without_moves: &Output,
) -> &'static str {
    let mut given = Given {
        global,
        name,
        f,
        env,
        out,
        without_moves,
        wanted: String::new(global),
    };
    match is_told(global, &mut given) {
        Some(true) => "told",
        Some(false) => "NOT TOLD",
        None => "no memory",
    }
}

/// Writes which calls with the function and machine `given` report each failed allocation, and which don't.
fn show_answers<F: Function, W: Write>(
    global: Global,
    given: (&F, &MachineEnv),
    out: &Output,
    without_moves: &Output,
    to: &mut W,
) -> io::Result<()> {
    for name in &NAMES {
        let answer = answer_of(global, *name, given, out, without_moves);
        writeln!(to, "  {name:?}: {answer}")?;
    }
    Ok(())
}

/// Writes which calls with `f` report each failed allocation, and which don't.
fn show_of<F: Function, W: Write>(
    global: Global,
    f: &F,
    env: &MachineEnv,
    to: &mut W,
) -> io::Result<()> {
    let out = output_of(global, f, env);
    let mut without_moves = output_of(global, f, env);
    without_moves.edits.clear();
    show_answers(global, (f, env), &out, &without_moves, to)
}

/// Writes which calls with the function of the JSON text `text` report each failed allocation, and which don't.
fn show<W: Write>(global: Global, text: &str, to: &mut W) -> io::Result<()> {
    match function_of_text(global, global, text) {
        Ok(f) => show_of(global, &f, f.machine_env(), to),
        Err(_) => writeln!(to, " no function"),
    }
}

/// Writes the titles among `lines`, which begin with `#`, and after each function, a JSON text, which calls report
/// each failed allocation.
pub fn show_all<W: Write>(global: Global, lines: &str, to: &mut W) -> io::Result<()> {
    for line in lines.lines() {
        if line.starts_with('#') {
            writeln!(to, "{line}")?;
        } else {
            show(global, line, to)?;
        }
    }
    Ok(())
}
