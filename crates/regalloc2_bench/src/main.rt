//! `regalloc2_bench`: reads a stored function, allocates it, and then does a task with it several times, to count what
//! one time costs.
//!
//! Arguments: the task, and how many times. `allocate` allocates without testing that the function
//! is well-formed, `test` with the tests, `check` checks the output, `reads` tests whether reads
//! come after writes, `tree` tests the same by the dominator tree and one search alone, which fails
//! where they leave it open, and `tested` is `run_tested`. The function is read from the standard
//! input. Or `callmoves-cycle` or `callmoves-swaps`, how many times, and of how many moves: a call's
//! moves are scheduled, in one cycle or in swaps. `docs/BENCH.md` says how to measure.
#![tactic(auto)]

mod calls;
mod input;
mod task;

use calls::{Shape, is_scheduled};
use input::read_function;
use std::alloc::Global;
use std::env::{self, Env};
use std::io::Read;
use std::process::ExitCode;
use task::{Task, is_performed};

/// The arguments after the program's name.
fn words(rt: &(impl Env + AllocGlobal)) -> std::io::Result<Vec<String>> {
    Ok(env::args(rt)?.skip(1).collect(rt.alloc())?)
}

/// What the arguments request, and how many times.
#[derive(Clone, Copy)]
enum Measure {
    /// A task with the function that is read.
    Function(Task, usize),
    /// To schedule a call's moves: their shape, how many times, and how many moves.
    Call(Shape, usize, usize),
}

/// Returns what `words` request.
fn measure_of(words: &[String]) -> Option<Measure> {
    let word = words.get(0)?.as_str();
    let times = words.get(1)?.parse().ok()?;
    if let Some(shape) = Shape::of(word) {
        return Some(Measure::Call(shape, times, words.get(2)?.parse().ok()?));
    }
    Some(Measure::Function(Task::of(word)?, times))
}

/// Returns whether a function was read from `input`, and `task` done with it `times` times.
fn is_measured<R: Read + Drop>(alloc: Global, input: R, task: Task, times: usize) -> bool {
    match read_function(alloc, input) {
        Some(f) => is_performed(alloc, task, times, &f, f.machine_env()),
        None => false,
    }
}

fn main(rt: HostRuntime) -> ExitCode {
    let Ok(words) = words(&rt) else {
        return ExitCode::from(2);
    };
    let Some(measure) = measure_of(&words) else {
        return ExitCode::from(2);
    };
    let is_done = match measure {
        Measure::Function(task, times) => is_measured(rt.alloc(), rt.stdin(), task, times),
        Measure::Call(shape, times, many) => is_scheduled(rt.alloc(), shape, many, times),
    };
    ExitCode::from(if is_done { 0 } else { 1 })
}
