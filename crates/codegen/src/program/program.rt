//! Runs the program's tasks.

ghost use Rattle.std.specs.Prelude.{◌≤◌, IfOk};

use super::agree::{agree, run_both};
use super::random::random_program;
use super::task::{Action, RunOptions, Task};
use crate::run::{Run, Standing};
use crate::text::{AssemblyText, HeaderText, TextError, read_module};
use crate::{CompileError, compile, target};
use codegen_machine::{Module, ModuleCode};
use regalloc2::{RegAllocError, TestedRunError, run_tested};
use regalloc2_text::refusal::RefusalText;
use std::alloc::{AllocError, Global};
use std::error::Error;
use std::fmt;
use std::io::{self, Read, Write};

/// The exit status for invalid arguments, an invalid text, or output that can't be written.
pub const UNUSABLE: u8 = 2;

/// The exit status for a rejected function, and for runs whose outcomes differ within their steps.
const REFUSED: u8 = 1;

/// Why a task fails.
#[derive(Debug, Drop)]
enum TaskError {
    /// An allocation failed.
    Memory,
    /// The output can't be written.
    Write(io::Error),
}

impl fmt::Display for TaskError {
    fn fmt<W: fmt::Write>(&self, f: &mut fmt::Formatter<W>) -> fmt::Result {
        match self {
            TaskError::Memory => f.write_str("out of memory"),
            TaskError::Write(error) => write!(f, "the answer can't be written: {error}"),
        }
    }
}

impl Error for TaskError {}

impl From<AllocError> for TaskError {
    fn from(_refused: AllocError) -> TaskError {
        TaskError::Memory
    }
}

impl From<io::Error> for TaskError {
    fn from(error: io::Error) -> TaskError {
        TaskError::Write(error)
    }
}

/// The name of the first function that the allocator rejects; empty if there is none.
fn rejected_name(alloc: Global, module: &Module) -> &str {
    let env = target(alloc);
    for function in module.procedures.as_slice() {
        if run_tested(alloc, &function.procedure, &env).is_err() {
            return function.name.as_str();
        }
    }
    ""
}

/// Writes the name of the function that the allocator rejects, and why.
fn refuse<E: Write>(
    alloc: Global,
    module: &Module,
    error: TestedRunError,
    err: &mut E,
) -> io::Result<()> {
    let name = rejected_name(alloc, module);
    let mark = if name.is_empty() { "" } else { ": " };
    match error {
        TestedRunError::Refused(error) => {
            let refusal = RefusalText(error);
            writeln!(err, "{name}{mark}{refusal}")
        }
        error => writeln!(err, "{name}{mark}{error}"),
    }
}

/// The code of a module; if a function is rejected, nothing, and a line on `err`.
fn code_of<E: Write>(
    alloc: Global,
    module: &Module,
    err: &mut E,
) -> Result<Option<ModuleCode>, TaskError> {
    match compile(alloc, module) {
        Ok(code) => Ok(Some(code)),
        Err(CompileError::Memory)
        | Err(CompileError::Refused(TestedRunError::Refused(RegAllocError::Memory))) => {
            Err(TaskError::Memory)
        }
        Err(CompileError::Refused(error)) => {
            refuse(alloc, module, error, err)?;
            Ok(None)
        }
    }
}

/// The 64-bit FNV-1a hash of bytes.
fn hash_of(bytes: &[u8]) -> u64 {
    bytes
        .iter()
        .fold(14_695_981_039_346_656_037u64, |hash, byte| {
            (hash ^ u64::from(*byte)).wrapping_mul(1_099_511_628_211)
        })
}

/// Writes the outcomes of the runs of a module and of its code, and returns the exit status.
fn write_outcomes<O: Write>(
    source: &Run,
    target: &Run,
    shows_memory: bool,
    out: &mut O,
) -> Result<u8, TaskError>
    ensures { IfOk result (λ status. status ≤ 2) }
{
    let (first, second) = (source.standing, target.standing);
    writeln!(out, "the function: {first}\nits code: {second}")?;
    if shows_memory && second != Standing::Overflowed {
        let hash = hash_of(target.memory.as_slice());
        writeln!(out, "memory: {hash}")?;
    }
    Ok(if agree(source, target) { 0 } else { REFUSED })
}

/// Runs a module and its code, writes their outcomes, and returns the exit status.
fn run<O: Write>(
    alloc: Global,
    options: &RunOptions,
    module: &Module,
    code: &ModuleCode,
    out: &mut O,
) -> Result<u8, TaskError>
    ensures { IfOk result (λ status. status ≤ 2) }
{
    let (arguments, room) = (options.arguments.as_slice(), options.room);
    let (source, target) = run_both(alloc, module, code, arguments, room)?;
    write_outcomes(&source, &target, options.shows_memory, out)
}

/// Applies an action to a module, and returns the exit status.
fn act<O: Write, E: Write>(
    alloc: Global,
    action: &Action,
    module: &Module,
    out: &mut O,
    err: &mut E,
) -> Result<u8, TaskError>
    ensures { IfOk result (λ status. status ≤ 2) }
{
    let Some(code) = code_of(alloc, module, err)? else {
        return Ok(REFUSED);
    };
    match action {
        Action::Write => {
            let assembly = AssemblyText(&code);
            write!(out, "{assembly}")?;
            Ok(0)
        }
        Action::Header => {
            let memory_size = module.memory_size;
            let header = HeaderText {
                code: &code,
                memory_size,
            };
            write!(out, "{header}")?;
            Ok(0)
        }
        Action::Run(options) => run(alloc, options, module, &code, out),
    }
}

/// Applies an action to the module in a text, and returns the exit status.
fn perform<O: Write, E: Write>(
    alloc: Global,
    path: &str,
    action: &Action,
    text: &str,
    out: &mut O,
    err: &mut E,
) -> Result<u8, TaskError>
    ensures { IfOk result (λ status. status ≤ 2) }
{
    match read_module(alloc, text, 1) {
        Ok(module) => act(alloc, action, &module, out, err),
        Err(TextError::Fault(fault)) => {
            writeln!(err, "{path}:{fault}")?;
            Ok(UNUSABLE)
        }
        Err(TextError::Memory) => Err(TaskError::Memory),
    }
}

/// Writes the module generated from a seed.
fn write_random<O: Write>(alloc: Global, seed: u64, out: &mut O) -> Result<(), TaskError> {
    let text = random_program(alloc, seed)?;
    Ok(out.write_all(text.as_bytes())?)
}

/// Runs a task, and returns the exit status.
fn fulfil<R: Read + Drop, O: Write, E: Write>(
    alloc: Global,
    task: &Task<'_>,
    input: R,
    out: &mut O,
    err: &mut E,
) -> Result<u8, TaskError>
    ensures { IfOk result (λ status. status ≤ 2) }
{
    let status = match task {
        Task::Random(seed) => {
            write_random(alloc, *seed, out)?;
            0
        }
        Task::Read(path, action) => {
            let Ok(text) = io::read_to_string(alloc, input) else {
                writeln!(err, "compile: {path}: no text can be read")?;
                return Ok(UNUSABLE);
            };
            perform(alloc, path, action, text.as_str(), out, err)?
        }
    };
    out.flush()?;
    Ok(status)
}

/// Runs a task, whose text, if it needs any, is read from a reader; returns the exit status.
///
/// An error in the text, or the reason why the output is incomplete, is a line on `err`, and the
/// status is 2. A rejected function is a line there too, and the status is 1; it is also 1 if the
/// runs of a module and of its code have different outcomes. Otherwise the output is on `out`,
/// flushed, and the status is 0.
pub fn run_task<R: Read + Drop, O: Write, E: Write>(
    alloc: Global,
    task: &Task<'_>,
    input: R,
    out: &mut O,
    err: &mut E,
) -> u8
    ensures { result ≤ 2 }
{
    match fulfil(alloc, task, input, out, err) {
        Ok(status) => status,
        Err(error) => {
            let _ = writeln!(err, "compile: {error}");
            UNUSABLE
        }
    }
}
