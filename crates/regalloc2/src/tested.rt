//! Allocating whatever the function and the machine are: both are tested first.

ghost use Rattle.std.specs.Prelude.{◌≡◌, ◌≤◌, ◌^◌, ◌↔◌, true, IfErr, IfOk, OnOk};
ghost use Rattle.regalloc2_function.specs.FunctionValue.{operand_count};
ghost use Rattle.regalloc2_function.specs.Views.{machine_of, output_of};
ghost use Rattle.regalloc2_semantics.specs.Runs.{IsDefinitelyAssigned};
ghost use Rattle.regalloc2_semantics.specs.Faithful.{IsFaithful};
ghost use Rattle.regalloc2_function.specs.Fitting.{MachineFits};
ghost use Rattle.regalloc2_function.specs.WellFormed.{IsWellFormed};
ghost use Rattle.regalloc2_fastalloc.specs.Guarantee.{IsAllocation, LiveInSlots, RunsAsTheFunction};
ghost use Rattle.regalloc2_fastalloc.specs.ErrorReason.{PassesAllChecks};
ghost use Rattle.regalloc2.specs.Allocated.{allocate_error, IsAllocateFault, IsAllocateReason, IsTestedReason, IsTestedRunReason};

use super::checked::{CheckedRunError, run_checked};
use regalloc2_analysis::liveness::reads_written;
use regalloc2_checker::CheckerErrors;
use regalloc2_fastalloc::{Algorithm, RegallocOptions, run};
use regalloc2_function::{Function, MachineEnv, MachineMisfit, Output, test_machine};
use regalloc2_names::RegAllocError;
use std::alloc::{Allocator, Global};
use std::error::Error;
use std::fmt;

/// Why no registers were allocated.
#[derive(Debug, Drop)]
pub enum AllocateError<A: Allocator = Global> {
    /// The machine doesn't fit the function.
    Misfit(MachineMisfit),
    /// A test of the function failed, or registers, slots or memory ran out.
    Refused(RegAllocError),
    /// The checker found these errors in what was allocated.
    Faults(CheckerErrors<A>),
    /// The checker ran out of memory.
    Unjudged,
}

/// As `the machine doesn't fit the function: p3f is listed for the class Int, and is of another class`.
impl<A: Allocator> fmt::Display for AllocateError<A> {
    ghost use Rattle.std.specs.Prelude.{Some};
    ghost use Rattle.regalloc2.specs.ErrorTexts.{allocate_text};

    ghost output = { λ e. Some (allocate_text e) };

    fn fmt<W: fmt::Write>(&self, f: &mut fmt::Formatter<W>) -> fmt::Result {
        match self {
            AllocateError::Misfit(misfit) => {
                write!(f, "the machine doesn't fit the function: {misfit}")
            }
            AllocateError::Refused(error) => write!(f, "no registers were allocated: {error}"),
            AllocateError::Faults(errors) => {
                write!(f, "the checker found errors in the output: {errors}")
            }
            AllocateError::Unjudged => write!(f, "the checker ran out of memory"),
        }
    }
}

impl<A: Allocator + fmt::Debug> Error for AllocateError<A> {}

/// Why a run that tests everything returns no output.
#[derive(Debug, Drop)]
pub enum TestedRunError {
    /// The machine doesn't fit the function.
    Misfit(MachineMisfit),
    /// A test of the function failed, or registers, slots or memory ran out.
    Refused(RegAllocError),
    /// Some path from the entry reads or passes a vreg before writing it.
    ReadBeforeWritten,
}

/// As `a virtual register is read or passed before it is written`.
impl fmt::Display for TestedRunError {
    ghost use Rattle.std.specs.Prelude.{Some};
    ghost use Rattle.regalloc2.specs.ErrorTexts.{tested_run_text};

    ghost output = { λ e. Some (tested_run_text e) };

    fn fmt<W: fmt::Write>(&self, f: &mut fmt::Formatter<W>) -> fmt::Result {
        match self {
            TestedRunError::Misfit(misfit) => {
                write!(f, "the machine doesn't fit the function: {misfit}")
            }
            TestedRunError::Refused(error) => write!(f, "no registers were allocated: {error}"),
            TestedRunError::ReadBeforeWritten => {
                write!(
                    f,
                    "a virtual register is read or passed before it is written"
                )
            }
        }
    }
}

impl Error for TestedRunError {}

/// With all tests of the function.
const TESTED: RegallocOptions = RegallocOptions {
    validate_ssa: true,
    algorithm: Algorithm::Fastalloc,
};

/// Returns the error of `allocate` for `error`, of a checked run.
fn error_from<A: Allocator>(error: CheckedRunError<A>) -> AllocateError<A>
    ensures { result ≡ allocate_error error }
{
    match error {
        CheckedRunError::Refused(error) => AllocateError::Refused(error),
        CheckedRunError::Faults(errors) => AllocateError::Faults(errors),
        CheckedRunError::Unjudged => AllocateError::Unjudged,
    }
}

/// Allocates registers to `f` for the machine `env`, and returns an output that the checker accepts.
///
/// Has no preconditions: it tests that the machine fits the function, as [`test_machine`] does, and then makes a
/// [`run_checked`] with all tests of the function. [`run_tested`] needs no checker, and rejects a function that may
/// read before it writes. The output is faithful: along every path each use reads the function's own value, every
/// constraint is met, and no move goes from a stack place to another. In addition, it has all that [`run`]
/// guarantees.
///
/// An error is the first condition of a fitting machine that fails, the first test of the function that fails, or
/// says that registers, slots or memory ran out. If no path from the entry reads or passes a vreg before writing it,
/// the error is never `Faults`.
///
/// The checker takes several times as long as the allocation. [`allocate_without_checker`] does without it.
pub fn allocate<A: Allocator + Copy, F: Function, B: Allocator>(
    alloc: A,
    f: &F,
    env: &MachineEnv<B>,
) -> Result<Output<A>, AllocateError<A>>
    ensures allocation { IfOk result (λ out. IsAllocation (F.function f.now) (machine_of env.now) (output_of out)) }
    ensures faithful { IfOk result (λ out. IsFaithful (F.function f.now) (machine_of env.now) (output_of out)) }
    ensures fitting { OnOk result (MachineFits (F.function f.now) (machine_of env.now)) }
    ensures tested { OnOk result (IsWellFormed (machine_of env.now) (F.function f.now)) }
    ensures passes_checks { OnOk result (PassesAllChecks (F.function f.now) (machine_of env.now) true) }
    ensures accepted { IsDefinitelyAssigned (F.function f.now) → IfErr result (λ e. IsAllocateFault e → ⊥) }
    ensures refused { IfErr result (IsAllocateReason (F.function f.now) (machine_of env.now)) }
    ensures many_operands { MachineFits (F.function f.now) (machine_of env.now) →
        ((result ≡ Err (AllocateError.Refused RegAllocError.TooManyOperands)) ↔ (2 ^ 32 ≤ operand_count (F.function f.now))) }
{
    if let Err(misfit) = test_machine(f, env) {
        return Err(AllocateError::Misfit(misfit));
    }
    match run_checked(alloc, f, env, &TESTED) {
        Ok(out) => Ok(out),
        Err(error) => Err(error_from(error)),
    }
}

/// Allocates registers to `f` for the machine `env`, as [`allocate`] does, and skips the checker.
///
/// Tests and errors are as in [`allocate`], but never `Faults` or `Unjudged`. The output has all that [`run`]
/// guarantees: it is faithful if no path from the entry reads or passes a vreg before writing it.
pub fn allocate_without_checker<A: Allocator + Copy, F: Function, B: Allocator>(
    alloc: A,
    f: &F,
    env: &MachineEnv<B>,
) -> Result<Output<A>, AllocateError<A>>
    ensures allocation { IfOk result (λ out. IsAllocation (F.function f.now) (machine_of env.now) (output_of out)) }
    ensures fitting { OnOk result (MachineFits (F.function f.now) (machine_of env.now)) }
    ensures tested { OnOk result (IsWellFormed (machine_of env.now) (F.function f.now)) }
    ensures passes_checks { OnOk result (PassesAllChecks (F.function f.now) (machine_of env.now) true) }
    ensures refused { IfErr result (IsTestedReason (F.function f.now) (machine_of env.now)) }
    ensures many_operands { MachineFits (F.function f.now) (machine_of env.now) →
        ((result ≡ Err (AllocateError.Refused RegAllocError.TooManyOperands)) ↔ (2 ^ 32 ≤ operand_count (F.function f.now))) }
{
    if let Err(misfit) = test_machine(f, env) {
        return Err(AllocateError::Misfit(misfit));
    }
    match run(alloc, f, env, &TESTED) {
        Ok(out) => Ok(out),
        Err(error) => Err(AllocateError::Refused(error)),
    }
}

/// Allocates registers to `f` for the machine `env`, and tests all that the guarantees of [`run`] rest on.
///
/// Tests that the machine fits the function, as [`test_machine`] does, makes a `run` with all tests of the function,
/// and tests by [`reads_written`] whether some path from the entry reads or passes a vreg before writing it. Nothing
/// is left to assume: the output runs as the function does, along every path and whatever the instructions compute.
/// Where a path enters a block, the value of each vreg that is live there is in the vreg's slot, or in the place
/// where the branch into the block left it.
///
/// An error is the first condition of a fitting machine that fails, else what `run` says of the function, else
/// `ReadBeforeWritten`. The checker isn't run: [`allocate`] runs it, and accepts functions that read or pass before
/// writing if the checker accepts the output.
///
/// Not guaranteed: that `Memory` is returned only if memory ran out.
pub fn run_tested<A: Allocator + Copy, F: Function, B: Allocator>(
    alloc: A,
    f: &F,
    env: &MachineEnv<B>,
) -> Result<Output<A>, TestedRunError>
    ensures allocation { IfOk result (λ out. IsAllocation (F.function f.now) (machine_of env.now) (output_of out)) }
    ensures runs { IfOk result (λ out. RunsAsTheFunction (F.function f.now) (machine_of env.now) (output_of out)) }
    ensures live { IfOk result (λ out. (a : IsAllocation (F.function f.now) (machine_of env.now) (output_of out))
        × LiveInSlots (F.function f.now) (output_of out) a.owners.owner) }
    ensures fitting { OnOk result (MachineFits (F.function f.now) (machine_of env.now)) }
    ensures tested { OnOk result (IsWellFormed (machine_of env.now) (F.function f.now)) }
    ensures passes_checks { OnOk result (PassesAllChecks (F.function f.now) (machine_of env.now) true) }
    ensures written { OnOk result (IsDefinitelyAssigned (F.function f.now)) }
    ensures refused { IfErr result (IsTestedRunReason (F.function f.now) (machine_of env.now)) }
    ensures many_operands { MachineFits (F.function f.now) (machine_of env.now) →
        ((result ≡ Err (TestedRunError.Refused RegAllocError.TooManyOperands)) ↔ (2 ^ 32 ≤ operand_count (F.function f.now))) }
{
    if let Err(misfit) = test_machine(f, env) {
        return Err(TestedRunError::Misfit(misfit));
    }
    let out = match run(alloc, f, env, &TESTED) {
        Ok(out) => out,
        Err(error) => return Err(TestedRunError::Refused(error)),
    };
    let written = match reads_written(alloc, f) {
        Ok(written) => written,
        Err(error) => return Err(TestedRunError::Refused(error)),
    };
    if !written {
        return Err(TestedRunError::ReadBeforeWritten);
    }
    Ok(out)
}
