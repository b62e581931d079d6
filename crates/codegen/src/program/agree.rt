//! Runs a module and its code side by side.

use super::random::random_program;
use crate::compile;
use crate::run::{Run, Standing, run_module, run_module_code};
use crate::text::read_module;
use codegen_machine::{Module, ModuleCode};
use std::alloc::{AllocError, Global};

/// The step limit of a module's run.
const STEPS: u64 = 1_000_000;

/// The step limit of the code's run, which makes several steps for each of the module's.
const CODE_STEPS: u64 = 100_000_000;

/// How many words the activations of a run may take on the stack, unless it is said: 1 MiB.
pub const ROOM: u64 = 1 << 17;

/// The runs of a module and of its code to the step limits, the latter on a stack of `room` words.
/// Each begins with zeros in memory.
pub fn run_both(
    alloc: Global,
    module: &Module,
    code: &ModuleCode,
    arguments: &[u64],
    room: u64,
) -> Result<(Run, Run), AllocError> {
    let zeros = vec![in alloc; 0u8; module.memory_size]?;
    let source = run_module(alloc, module, arguments, zeros.clone()?, STEPS)?;
    let steps = if source.standing == Standing::Running {
        STEPS
    } else {
        CODE_STEPS
    };
    let target = run_module_code(alloc, code, arguments, zeros, room, steps)?;
    Ok((source, target))
}

/// Whether two runs have the same outcome, and leave the same memory if they have ended.
///
/// Code that still runs after some number of steps may have come further than its module.
pub fn agree(source: &Run, target: &Run) -> bool {
    let is_over = source.standing != Standing::Running;
    source.standing == target.standing && (!is_over || source.memory == target.memory)
}

/// Returns whether the module generated from a seed and its code return the same number or both
/// trap, and leave the same memory.
///
/// `None` if generating, reading, compiling or running fails.
pub fn agrees_at_random(alloc: Global, seed: u64) -> Option<bool> {
    let text = random_program(alloc, seed).ok()?;
    let module = read_module(alloc, text.as_str(), 1).ok()?;
    let code = compile(alloc, &module).ok()?;
    let arguments = [seed, u64::MAX - seed, 1];
    let (source, target) = run_both(alloc, &module, &code, &arguments, ROOM).ok()?;
    let has_ended = matches!(source.standing, Standing::Returned(_) | Standing::Trapped);
    Some(agree(&source, &target) && has_ended)
}
