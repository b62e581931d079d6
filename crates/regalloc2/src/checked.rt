//! Allocating, with the checker run on the output.

ghost use Rattle.std.specs.Prelude.{◌≡◌, ◌≤◌, ◌^◌, ◌↔◌, ◌⊎◌, ◌∷◌, [], false, IfErr, IfOk, OnOk};
ghost use Rattle.regalloc2_function.specs.FunctionValue.{operand_count};
ghost use Rattle.regalloc2_function.specs.Views.{machine_of, output_of};
ghost use Rattle.regalloc2_function.specs.OutputValue.{IsInOrder};
ghost use Rattle.regalloc2_semantics.specs.Runs.{IsDefinitelyAssigned};
ghost use Rattle.regalloc2_semantics.specs.Faithful.{IsFaithful};
ghost use Rattle.regalloc2_function.specs.Fitting.{MachineFits};
ghost use Rattle.regalloc2_function.specs.WellFormed.{IsFramed, IsWellFormed};
ghost use Rattle.regalloc2_fastalloc.specs.Guarantee.{IsAllocation};
ghost use Rattle.regalloc2_fastalloc.specs.ErrorReason.{PassesAllChecks};
ghost use Rattle.regalloc2_checker.specs.ErrorsFound.{errors_of};
ghost use Rattle.regalloc2_checker.specs.Report.{IsReport};
ghost use Rattle.regalloc2.specs.Judged.{IsCheckedReason, IsFault};

use regalloc2_checker::{Checker, CheckerError, CheckerErrors};
use regalloc2_fastalloc::{RegallocOptions, run};
use regalloc2_function::{Function, MachineEnv, Output};
use regalloc2_names::RegAllocError;
use std::alloc::{Allocator, Global};
use std::error::Error;
use std::fmt;

/// Why a checked run returns no output.
#[derive(Debug, Drop)]
pub enum CheckedRunError<A: Allocator = Global> {
    /// Why nothing was allocated: what `run` says of the function.
    Refused(RegAllocError),
    /// The checker found these errors in what was allocated.
    Faults(CheckerErrors<A>),
    /// The checker ran out of memory.
    Unjudged,
}

/// As `no registers were allocated: out of memory`.
impl<A: Allocator> fmt::Display for CheckedRunError<A> {
    ghost use Rattle.std.specs.Prelude.{Some};
    ghost use Rattle.regalloc2.specs.ErrorTexts.{checked_run_text};

    ghost output = { λ e. Some (checked_run_text e) };

    fn fmt<W: fmt::Write>(&self, f: &mut fmt::Formatter<W>) -> fmt::Result {
        match self {
            CheckedRunError::Refused(error) => write!(f, "no registers were allocated: {error}"),
            CheckedRunError::Faults(errors) => {
                write!(f, "the checker found errors in the output: {errors}")
            }
            CheckedRunError::Unjudged => write!(f, "the checker ran out of memory"),
        }
    }
}

impl<A: Allocator + fmt::Debug> Error for CheckedRunError<A> {}

/// Returns the error for the checker's `errors`: `Unjudged` exactly if they are `Memory` alone.
fn error_of<A: Allocator>(errors: CheckerErrors<A>) -> CheckedRunError<A>
    ensures { ((errors_of errors ≡ CheckerError.Memory ∷ []) × (result ≡ CheckedRunError.Unjudged))
        ⊎ ((errors_of errors ≡ CheckerError.Memory ∷ [] → ⊥) × (result ≡ CheckedRunError.Faults errors)) }
{
    match errors.errors() {
        [CheckerError::Memory] => CheckedRunError::Unjudged,
        _ => CheckedRunError::Faults(errors),
    }
}

/// Runs the checker on `out`, a well-ordered output of `f`.
fn judge<A: Allocator + Copy, F: Function, B: Allocator>(
    alloc: A,
    f: &F,
    env: &MachineEnv<B>,
    out: &Output<A>,
) -> Result<(), CheckedRunError<A>>
    requires framed { IsFramed (F.function f.now) }
    requires in_order { IsInOrder (F.function f.now) (output_of out.now) }
    ensures ok { OnOk result (IsFaithful (F.function f.now) (machine_of env.now) (output_of out.now)) }
    ensures err { IfErr result (λ e. (e ≡ CheckedRunError.Unjudged) ⊎ ((es : CheckerErrors A) × (e ≡ CheckedRunError.Faults es)
        × (IsFaithful (F.function f.now) (machine_of env.now) (output_of out.now) → ⊥)
        × IsReport (F.function f.now) (machine_of env.now) (output_of out.now) (errors_of es))) }
{
    let Ok(mut checker) = Checker::new(alloc, f, env) else {
        return Err(CheckedRunError::Unjudged);
    };
    let Ok(()) = checker.prepare(out) else {
        return Err(CheckedRunError::Unjudged);
    };
    match checker.run() {
        Ok(()) => Ok(()),
        Err(errors) => Err(error_of(errors)),
    }
}

/// Allocates registers to `f` as [`run`] does, and returns the output only if the checker accepts it.
///
/// Preconditions and guarantees on the output are as in `run`. In addition, the output is faithful, whether or not a
/// path reads or passes a vreg before writing it. If none does, the checker finds no error, and the only error that
/// this call adds is `Unjudged`. `Faults` holds the errors of an output with all that `run` guarantees of its
/// outputs.
pub fn run_checked<A: Allocator + Copy, F: Function, B: Allocator>(
    alloc: A,
    f: &F,
    env: &MachineEnv<B>,
    options: &RegallocOptions,
) -> Result<Output<A>, CheckedRunError<A>>
    requires machine { MachineFits (F.function f.now) (machine_of env.now) }
    requires well_formed { options.now.validate_ssa ≡ false → IsWellFormed (machine_of env.now) (F.function f.now) }
    ensures allocation { IfOk result (λ out. IsAllocation (F.function f.now) (machine_of env.now) (output_of out)) }
    ensures faithful { IfOk result (λ out. IsFaithful (F.function f.now) (machine_of env.now) (output_of out)) }
    ensures tested { OnOk result (IsWellFormed (machine_of env.now) (F.function f.now)) }
    ensures passes_checks { OnOk result (PassesAllChecks (F.function f.now) (machine_of env.now) options.now.validate_ssa) }
    ensures accepted { IsDefinitelyAssigned (F.function f.now) → IfErr result (λ e. IsFault e → ⊥) }
    ensures refused { IfErr result (IsCheckedReason (F.function f.now) (machine_of env.now) options.now.validate_ssa) }
    ensures many_operands { (result ≡ Err (CheckedRunError.Refused RegAllocError.TooManyOperands)) ↔ (2 ^ 32 ≤ operand_count (F.function f.now)) }
{
    let out = match run(alloc, f, env, options) {
        Ok(out) => out,
        Err(error) => return Err(CheckedRunError::Refused(error)),
    };
    judge(alloc, f, env, &out)?;
    Ok(out)
}
