//! What the calls that allocate do.

ghost use Rattle.std.specs.Prelude.{◌+◌, length, IfOk, IfErr};
ghost use Rattle.regalloc2.specs.Views.{machine_of};
ghost use Rattle.regalloc2_c.specs.Outcome.{AreWordsOf, AreUnreadWords, IsJsonOf, IsTextInput, NumbersName, NumbersNameNone};
ghost use Rattle.regalloc2_c.specs.Outcome.{IsAllocatedOutput, IsAllocateFailure, IsTestedOutput, IsRunFailure, IsAllocationFound, IsRunFound};

use super::failure::{Failure, failure_of, failure_of_run, failure_to_write};
use super::judging::checked;
use super::reading::{function_from_json, function_from_text, function_from_words};
use regalloc2::{Function, MachineEnv, allocate_without_checker, run_tested};
use regalloc2_serialize::flat::words_of;
use std::alloc::Global;

/// Returns the words of the output that is allocated to `f`.
fn allocated<F: Function>(alloc: Global, f: &F, env: &MachineEnv) -> Result<Vec<u32>, Failure>
    ensures ok { IfOk result (λ v. IsAllocatedOutput (F.function f.now) (machine_of env.now) v.items) }
    ensures err { IfErr result (IsAllocateFailure (F.function f.now) (machine_of env.now)) }
{
    let output = match allocate_without_checker(alloc, f, env) {
        Ok(output) => output,
        Err(error) => return Err(failure_of(&error)),
    };
    match checked(alloc, f, env, &output) {
        Ok(()) => {}
        Err(failure) => return Err(failure),
    }
    let Ok(numbers) = output.stored() else {
        return Err(Failure::NoMemory);
    };
    match words_of(alloc, &numbers) {
        Ok(words) => Ok(words),
        Err(fault) => Err(failure_to_write(fault)),
    }
}

/// Returns the words of the output that a tested run gives for `f`.
fn tested<F: Function>(alloc: Global, f: &F, env: &MachineEnv) -> Result<Vec<u32>, Failure>
    ensures ok { IfOk result (λ v. IsTestedOutput (F.function f.now) (machine_of env.now) v.items) }
    ensures err { IfErr result (IsRunFailure (F.function f.now) (machine_of env.now)) }
{
    let output = match run_tested(alloc, f, env) {
        Ok(output) => output,
        Err(error) => return Err(failure_of_run(&error)),
    };
    let Ok(numbers) = output.stored() else {
        return Err(Failure::NoMemory);
    };
    match words_of(alloc, &numbers) {
        Ok(words) => Ok(words),
        Err(fault) => Err(failure_to_write(fault)),
    }
}

/// Returns the words of the output that is allocated to the function that `words` lay out.
pub fn allocated_of_words(alloc: Global, words: &[u32]) -> Result<Vec<u32>, Failure>
    ensures { IsAllocationFound (AreWordsOf words.now) (AreUnreadWords words.now) result }
{
    match function_from_words(alloc, words) {
        Ok(f) => allocated(alloc, &f, f.machine_env()),
        Err(failure) => Err(failure),
    }
}

/// Returns the words of the output that is allocated to the function with the JSON text `bytes`.
pub fn allocated_of_json(alloc: Global, bytes: &[u8]) -> Result<Vec<u32>, Failure>
    ensures { IsAllocationFound (NumbersName (IsJsonOf bytes.now)) (NumbersNameNone (IsJsonOf bytes.now) 0) result }
{
    match function_from_json(alloc, bytes) {
        Ok(f) => allocated(alloc, &f, f.machine_env()),
        Err(failure) => Err(failure),
    }
}

/// Returns the words of the output that is allocated to the function in the text `bytes`.
pub fn allocated_of_text(alloc: Global, bytes: &[u8]) -> Result<Vec<u32>, Failure>
    ensures { IsAllocationFound (NumbersName (IsTextInput bytes.now)) (NumbersNameNone (IsTextInput bytes.now) (1 + length bytes.now)) result }
{
    match function_from_text(alloc, bytes) {
        Ok(f) => allocated(alloc, &f, f.machine_env()),
        Err(failure) => Err(failure),
    }
}

/// Returns the words of the output that a tested run gives for the function that `words` lay out.
pub fn tested_of_words(alloc: Global, words: &[u32]) -> Result<Vec<u32>, Failure>
    ensures { IsRunFound words.now result }
{
    match function_from_words(alloc, words) {
        Ok(f) => tested(alloc, &f, f.machine_env()),
        Err(failure) => Err(failure),
    }
}
