//! An allocation and the checker's findings, as text.

ghost use Rattle.std.specs.Prelude.{◌≡◌, true, false, [], ◌∷◌, IfOk};
ghost use Rattle.std.specs.Io.KnownBytes.{Appends};
ghost use Rattle.regalloc2_function.specs.Views.{machine_of, output_of};
ghost use Rattle.regalloc2_function.specs.WellFormed.{IsFramed};
ghost use Rattle.regalloc2_function.specs.Fitting.{MachineFits};
ghost use Rattle.regalloc2_tool.specs.Ra2.Findings.{IsOutputJudged, findings_text};
ghost use Rattle.regalloc2_tool.specs.Ra2.Outcome.{IsOutcome};
ghost use Rattle.regalloc2_tool.specs.Ra2.Text.{checked_line};

use super::task::Task;
use crate::listing::write_listing;
use regalloc2::checker::{Checker, CheckerError};
use regalloc2::{Algorithm, Function, MachineEnv, Output, RegallocOptions, run};
use regalloc2_checker::FaultLine;
use std::alloc::Allocator;
use std::io::{self, Write};

/// No proof says that the input function is well-formed, so it is tested.
const OPTIONS: RegallocOptions = RegallocOptions {
    validate_ssa: true,
    algorithm: Algorithm::Fastalloc,
};

/// Writes the line of `error`. Returns `false`: the output isn't accepted.
fn write_finding<A: Allocator, O: Write>(error: &CheckerError<A>, out: &mut O) -> io::Result<bool>
    ensures { IfOk result (λ b. (b ≡ false) × Appends (O.contents out.old) (O.contents out.new) (findings_text (error.now ∷ []))) }
{
    let line = FaultLine(error);
    writeln!(out, "{line}")?;
    Ok(false)
}

/// Writes a line for each of `errors`. Returns `false`: the output isn't accepted.
fn write_findings<A: Allocator, O: Write>(
    errors: &[CheckerError<A>],
    out: &mut O,
) -> io::Result<bool>
    ensures { IfOk result (λ b. (b ≡ false) × Appends (O.contents out.old) (O.contents out.new) (findings_text errors.now)) }
{
    for error in errors {
        write_finding(error, out)?;
    }
    Ok(false)
}

/// Writes that the output is accepted. Returns `true`.
fn write_checked<O: Write>(out: &mut O) -> io::Result<bool>
    ensures { IfOk result (λ b. (b ≡ true) × Appends (O.contents out.old) (O.contents out.new) checked_line) }
{
    writeln!(out, "checked")?;
    Ok(true)
}

/// Writes `checked`, or the errors that the checker finds in `output`. Returns whether there are none.
pub fn judge<A: Allocator + Copy, F: Function, O: Write>(
    alloc: A,
    f: &F,
    env: &MachineEnv<A>,
    output: &Output<A>,
    out: &mut O,
) -> io::Result<bool>
    requires framed { IsFramed (F.function f.now) }
    ensures { IfOk result (IsOutputJudged A (F.function f.now) (machine_of env.now) (output_of output.now) (Appends (O.contents out.old) (O.contents out.new))) }
{
    let mut checker = match Checker::new(alloc, f, env) {
        Ok(checker) => checker,
        Err(error) => return write_finding(&error, out),
    };
    if let Err(error) = checker.prepare(output) {
        return write_finding(&error, out);
    }
    match checker.run() {
        Ok(()) => write_checked(out),
        Err(errors) => write_findings(errors.errors(), out),
    }
}

/// Allocates registers to `f`, writes its listing or the number of the error, and checks the output if `task`
/// requires it.
///
/// Returns whether the function was accepted and no error was found.
pub fn show<A: Allocator + Copy, F: Function, O: Write>(
    alloc: A,
    task: Task,
    f: &F,
    env: &MachineEnv<A>,
    out: &mut O,
) -> io::Result<bool>
    requires machine { MachineFits (F.function f.now) (machine_of env.now) }
    ensures { IfOk result (IsOutcome A task (F.function f.now) (machine_of env.now) (Appends (O.contents out.old) (O.contents out.new))) }
{
    match run(alloc, f, env, &OPTIONS) {
        Ok(output) => {
            write_listing(f, &output, out)?;
            match task {
                Task::Run => Ok(true),
                Task::Check => judge(alloc, f, env, &output, out),
            }
        }
        Err(error) => {
            let number = error.kind().number();
            writeln!(out, "refused {number}")?;
            Ok(false)
        }
    }
}
