//! What is measured.

ghost use Rattle.regalloc2_function.specs.Fitting.{MachineFits};
ghost use Rattle.regalloc2_function.specs.Views.{machine_of};
ghost use Rattle.regalloc2_function.specs.WellFormed.{IsWellFormed};

use regalloc2::checker::Checker;
use regalloc2::ssa::reads_written;
use regalloc2::{
    Algorithm, Function, MachineEnv, Output, RegallocOptions, is_framed, machine_fits, run,
    run_tested,
};
use regalloc2_analysis::liveness::decided_by_tree;
use std::alloc::Global;

/// What is done with a function that was allocated once.
#[derive(Clone, Copy, PartialEq, Eq)]
pub enum Task {
    /// To allocate it again, as one that is well-formed.
    Allocate,
    /// To test that it is well-formed, and to allocate it again.
    Test,
    /// To check the output.
    Check,
    /// To test whether reads come after writes.
    Reads,
    /// To test the same by the dominator tree and one search alone.
    Tree,
    /// To make all tests, allocate it again, and test whether reads come after writes.
    Tested,
}

impl Task {
    /// Returns the task that `word` names.
    pub fn of(word: &str) -> Option<Task> {
        match word {
            "allocate" => Some(Task::Allocate),
            "test" => Some(Task::Test),
            "check" => Some(Task::Check),
            "reads" => Some(Task::Reads),
            "tree" => Some(Task::Tree),
            "tested" => Some(Task::Tested),
            _ => None,
        }
    }
}

/// To allocate with the tests of a well-formed function.
const TESTED: RegallocOptions = RegallocOptions {
    validate_ssa: true,
    algorithm: Algorithm::Fastalloc,
};

/// To allocate without the tests of a well-formed function.
const UNTESTED: RegallocOptions = RegallocOptions {
    validate_ssa: false,
    algorithm: Algorithm::Fastalloc,
};

/// Returns whether the checker accepts `output`.
fn is_accepted<F: Function>(alloc: Global, f: &F, env: &MachineEnv, output: &Output) -> bool
    requires { IsWellFormed (machine_of env.now) (F.function f.now) }
{
    let Ok(mut checker) = Checker::new(alloc, f, env) else {
        return false;
    };
    checker.prepare(output).is_ok() && checker.run().is_ok()
}

/// Returns whether it was found out whether the reads of `f` come after writes.
fn is_asked<F: Function>(alloc: Global, f: &F) -> bool {
    is_framed(f) && reads_written(alloc, f).is_ok()
}

/// Returns whether the dominator tree and one search decide whether the reads of `f` come after writes.
fn is_decided<F: Function>(alloc: Global, f: &F) -> bool {
    is_framed(f) && matches!(decided_by_tree(alloc, f), Ok(Some(_)))
}

/// Returns whether `task` was done with `f`, of which `output` is an allocation.
fn is_done<F: Function>(alloc: Global, task: Task, f: &F, env: &MachineEnv, output: &Output) -> bool
    requires machine { MachineFits (F.function f.now) (machine_of env.now) }
    requires well_formed { IsWellFormed (machine_of env.now) (F.function f.now) }
{
    match task {
        Task::Allocate => run(alloc, f, env, &UNTESTED).is_ok(),
        Task::Test => run(alloc, f, env, &TESTED).is_ok(),
        Task::Check => is_accepted(alloc, f, env, output),
        Task::Reads => is_asked(alloc, f),
        Task::Tree => is_decided(alloc, f),
        Task::Tested => run_tested(alloc, f, env).is_ok(),
    }
}

/// Returns whether `task` was done `times` times with `f`, of which `output` is an allocation.
fn is_repeated<F: Function>(
    alloc: Global,
    task: Task,
    times: usize,
    f: &F,
    env: &MachineEnv,
    output: &Output,
) -> bool
    requires machine { MachineFits (F.function f.now) (machine_of env.now) }
    requires well_formed { IsWellFormed (machine_of env.now) (F.function f.now) }
{
    for _ in 0..times {
        if !is_done(alloc, task, f, env, output) {
            return false;
        }
    }
    true
}

/// Returns whether `f` was allocated, and then `task` done with it `times` times.
pub fn is_performed<F: Function>(
    alloc: Global,
    task: Task,
    times: usize,
    f: &F,
    env: &MachineEnv,
) -> bool {
    if !machine_fits(f, env) {
        return false;
    }
    match run(alloc, f, env, &TESTED) {
        Ok(output) => is_repeated(alloc, task, times, f, env, &output),
        Err(_) => false,
    }
}
