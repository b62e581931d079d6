//! The calls about a stored function, and their results as text.

ghost use Rattle.std.specs.Prelude.{◌≡◌, true, false, IfOk, IfSome};
ghost use Rattle.regalloc2_checker.specs.Cells.{AreCells};
ghost use Rattle.regalloc2_semantics.specs.Faithful.{IsFaithful};
ghost use Rattle.regalloc2_function.specs.OutputValue.{IsInOrder};
ghost use Rattle.regalloc2_semantics.specs.Runs.{IsDefinitelyAssigned};
ghost use Rattle.regalloc2_function.specs.Stored.{NamesValues, output_of_stored};
ghost use Rattle.regalloc2_function.specs.Views.{machine_of, output_of};
ghost use Rattle.regalloc2_function.specs.WellFormed.{IsFramed};
ghost use Rattle.regalloc2_tool.specs.Calls.{AreAcceptedBoth, HasShown, IsAccepted, IsAcceptedCall, IsChecked, IsGivenChecked, IsShown, NamesBoth, output_given};
ghost use Rattle.regalloc2_tool.specs.Framed.{BlocksAreWithin};
ghost use Rattle.regalloc2_tool.specs.Text.{call_error_text};
ghost use Rattle.regalloc2_serialize.specs.Tables.{function_of_serializable};

use crate::listing::write_listing;
use crate::svg::Picture;
use regalloc2_analysis::liveness::reads_written;
use regalloc2_checker::{CellFault, CheckerError, check_output, test_cells};
use regalloc2_fastalloc::{Algorithm, RegallocOptions, run};
use regalloc2_function::{
    Function, MachineEnv, Output, StoredFault, StoredOutput, is_framed, machine_fits, test_machine,
};
use regalloc2_index::Inst;
use regalloc2_names::{Allocation, Operand, RegAllocError};
use regalloc2_serialize::{SerializableFunction, StoredFunction};
use regalloc2_text::explain::report::{Stats, StatsJson, write_diff, write_dump};
use regalloc2_text::explain::{
    Site, Source, explain, explain_function, explain_output, find_unwritten_read, last_writes,
    misfit_at,
};
use regalloc2_text::refusal::RefusalText;
use regalloc2_text::stored_fault::FaultText;
use regalloc2_text::{WriteError, write};
use std::alloc::{AllocError, AllocFailed, Global};
use std::error::Error;
use std::fmt;
use std::io::{self, Write};

/// No proof says that a stored function is well-formed, so it is tested.
const OPTIONS: RegallocOptions = RegallocOptions {
    validate_ssa: true,
    algorithm: Algorithm::Fastalloc,
};

/// A call about a stored function.
#[derive(Clone, Copy, Debug, PartialEq, Eq)]
pub enum Call {
    /// To allocate registers; the result is the listing.
    Run,
    /// To check the output that is given with the function or, if none is, the allocator's.
    Check,
    /// To check the output that is given with the function.
    Replay,
    /// To allocate registers; the result is the text of the function with its output.
    Allocated,
    /// To allocate nothing; the result is the canonical text of the function and of the output that
    /// is given with it.
    Text,
    /// To allocate registers; the result is an SVG picture of each vreg's current location.
    Svg,
    /// To report whether a write precedes each read and each argument, on every path.
    Reads,
    /// To report counts of the given output or, if there is none, of the allocator's; the result is
    /// a table.
    Stats,
    /// To report the counts of `Stats`, as JSON.
    StatsJson,
    /// To write the given output or, if there is none, the allocator's, as upstream does.
    Dump,
    /// To compare the given output with the allocator's.
    Diff,
}

impl Call {
    /// Returns the call that `word` names: `run`, `check`, `replay`, `allocated`, `text`, `svg`, `reads`, `stats`,
    /// `stats_json`, `dump` or `diff`.
    pub fn named(word: &str) -> Option<Call> {
        match word {
            "run" => Some(Call::Run),
            "check" => Some(Call::Check),
            "replay" => Some(Call::Replay),
            "allocated" => Some(Call::Allocated),
            "text" => Some(Call::Text),
            "svg" => Some(Call::Svg),
            "reads" => Some(Call::Reads),
            "stats" => Some(Call::Stats),
            "stats_json" => Some(Call::StatsJson),
            "dump" => Some(Call::Dump),
            "diff" => Some(Call::Diff),
            _ => None,
        }
    }
}

/// Why a call has no complete result.
#[derive(Debug, Drop)]
pub enum CallError {
    /// An allocation failed.
    Memory,
    /// The text of the result would read back as another function or output.
    Differs,
    /// The result can't be written.
    Write(io::Error),
}

impl fmt::Display for CallError {
    ghost output = { call_error_text };

    fn fmt<W: fmt::Write>(&self, f: &mut fmt::Formatter<W>) -> fmt::Result {
        match self {
            CallError::Memory => write!(f, "out of memory"),
            CallError::Differs => { write!(f, "the text reads back as another function or output") }
            CallError::Write(error) => write!(f, "the answer can't be written: {error}"),
        }
    }
}

impl Error for CallError {}

impl From<AllocError> for CallError {
    fn from(_refused: AllocError) -> CallError {
        CallError::Memory
    }
}

impl<T: Drop> From<AllocFailed<T>> for CallError {
    fn from(_refused: AllocFailed<T>) -> CallError {
        CallError::Memory
    }
}

impl From<WriteError> for CallError {
    fn from(error: WriteError) -> CallError {
        match error {
            WriteError::Memory => CallError::Memory,
            WriteError::Differs => CallError::Differs,
        }
    }
}

impl From<io::Error> for CallError {
    fn from(error: io::Error) -> CallError {
        CallError::Write(error)
    }
}

/// The input of a call.
#[derive(Clone, Copy)]
pub struct Given<'g, 'o, 's> {
    /// The function and its machine.
    pub function: &'g StoredFunction,
    /// The output that is given with the function.
    pub output: Option<&'o StoredOutput>,
    /// The text in which errors and findings are shown. Without a text, each error and each finding
    /// is one line.
    pub source: Option<Source<'s>>,
}

/// How a call ends, if it has a result.
#[derive(Clone, Copy, Debug, PartialEq, Eq)]
pub enum Verdict {
    /// Nothing is rejected or found.
    Accepted,
    /// The allocator rejects the function, or something is found.
    Rejected,
    /// The numbers name no function or no output, the machine doesn't fit the function, or the
    /// function isn't structurally valid (`IsFramed`).
    Unusable,
}

impl Verdict {
    /// Returns the verdict that nothing is found if `is_accepted`, else that something is.
    fn of(is_accepted: bool) -> Verdict
        ensures { result ≡ Verdict.Accepted → is_accepted ≡ true }
    {
        if is_accepted {
            Verdict::Accepted
        } else {
            Verdict::Rejected
        }
    }
}

/// How many findings are explained. Each further finding is one line: many findings take no more
/// time than the text.
const EXPLAINED: usize = 10;

/// The text before an error's cause.
#[derive(Clone, Copy)]
struct RefusalHead(RegAllocError);

impl fmt::Display for RefusalHead {
    fn fmt<W: fmt::Write>(&self, f: &mut fmt::Formatter<W>) -> fmt::Result {
        let number = self.0.kind().number();
        write!(f, "refused {number}: ")
    }
}

/// Writes why the allocator rejects the function of `given` with `error`.
fn write_refusal<E: Write>(
    error: RegAllocError,
    given: &Given<'_, '_, '_>,
    err: &mut E,
) -> Result<(), CallError> {
    match &given.source {
        Some(source) => {
            let explanation = explain(given.function, &error);
            explanation.write(&RefusalHead(error), given.function, source, err)?;
        }
        None => {
            let refusal = RefusalText(error);
            writeln!(err, "{refusal}")?;
        }
    }
    Ok(())
}

/// Writes the line of the text `source` that contains the part of the function at `site`, if there is one.
fn write_site<W: Write>(site: Site, source: &Source<'_>, to: &mut W) -> Result<(), CallError> {
    if let Some(line) = source.find(site) {
        writeln!(to, "  {line}")?;
    }
    Ok(())
}

/// Writes the line of the text whose numbers, at `site`, name nothing, if there are a text and a line.
fn write_fault_site<W: Write>(
    site: Site,
    given: &Given<'_, '_, '_>,
    to: &mut W,
) -> Result<(), CallError> {
    match &given.source {
        Some(source) => write_site(site, source, to),
        None => Ok(()),
    }
}

/// Returns the instruction, operand and place that the finding `error` names, if it names an operand.
fn place_found(error: &CheckerError) -> Option<(Inst, Operand, Option<Allocation>)> {
    match error {
        CheckerError::MissingAllocation { inst, op } => Some((*inst, *op, None)),
        CheckerError::UnknownValueInAllocation { inst, op, alloc }
        | CheckerError::ConflictedValueInAllocation { inst, op, alloc }
        | CheckerError::IncorrectValuesInAllocation {
            inst,
            op,
            alloc,
            ..
        } => Some((*inst, *op, Some(*alloc))),
        CheckerError::ConstraintViolated { inst, op, .. }
        | CheckerError::AllocationIsNotReg { inst, op, .. }
        | CheckerError::AllocationIsNotFixedReg { inst, op, .. }
        | CheckerError::AllocationIsNotReuse { inst, op, .. }
        | CheckerError::AllocationIsNotStack { inst, op, .. }
        | CheckerError::AllocationOutsideLimit { inst, op, .. } => Some((*inst, *op, None)),
        _ => None,
    }
}

/// Returns the index of the first operand of `inst` that equals `operand`.
fn operand_index(function: &StoredFunction, inst: Inst, operand: Operand) -> Option<usize> {
    let data = function.insts.get(inst.index())?;
    let bits = operand.bits();
    data.operands.iter().position(|other| *other == bits)
}

/// Writes the line of the operand that the finding `error` names and, if the operand reads another value, what wrote
/// its place last.
fn explain_finding<W: Write>(
    alloc: Global,
    error: &CheckerError,
    given: &Given<'_, '_, '_>,
    source: &Source<'_>,
    to: &mut W,
) -> Result<(), CallError> {
    let Some((inst, operand, place)) = place_found(error) else {
        return Ok(());
    };
    let number = inst.index();
    let site = match operand_index(given.function, inst, operand) {
        Some(index) => Site::Operand(number, index),
        None => Site::Inst(number),
    };
    write_site(site, source, to)?;
    let (Some(place), Some(output)) = (place, given.output) else {
        return Ok(());
    };
    let pos = operand.pos();
    if let Some(writes) = last_writes(alloc, given.function, output, number, pos, place)? {
        writes.write(to)?;
    }
    Ok(())
}

/// Writes a path of `function` on which a vreg is read or passed before it is written.
fn write_path<W: Write>(
    alloc: Global,
    function: &StoredFunction,
    source: &Source<'_>,
    to: &mut W,
) -> Result<(), CallError> {
    let Some(read) = find_unwritten_read(alloc, function)? else {
        return Ok(());
    };
    writeln!(to, "  {read}")?;
    write_site(read.site, source, to)
}

/// Writes a line for each of `errors`, unless it is a failed memory allocation, and explains the first ones if there
/// is a text.
///
/// If the output is the allocator's own, a path follows on which a vreg is read or passed before it is written.
/// Returns `false`: the output isn't accepted.
fn write_findings<W: Write>(
    alloc: Global,
    errors: &[CheckerError],
    given: &Given<'_, '_, '_>,
    to: &mut W,
) -> Result<bool, CallError>
    ensures { IfOk result (λ b. b ≡ false) }
{
    for (k, error) in errors.iter().enumerate() {
        if let CheckerError::Memory = error {
            return Err(CallError::Memory);
        }
        writeln!(to, "{error}")?;
        if let (Some(source), true) = (&given.source, k < EXPLAINED) {
            explain_finding(alloc, error, given, source, to)?;
        }
    }
    if let (Some(source), None) = (&given.source, given.output) {
        write_path(alloc, given.function, source, to)?;
    }
    Ok(false)
}

/// Writes `checked`, or the first error in the places of `output` as cells. Returns whether there is none.
fn judge_cells<F: Function, W: Write>(
    alloc: Global,
    f: &F,
    env: &MachineEnv,
    output: &Output,
    to: &mut W,
) -> Result<bool, CallError>
    requires order { IsInOrder (F.function f.now) (output_of output.now) }
    ensures cells { IfOk result (λ b. b ≡ true → AreCells (F.function f.now) (machine_of env.now) (output_of output.now)) }
{
    match test_cells(alloc, f, env, output) {
        Ok(()) => {
            to.write_all(b"checked\n")?;
            Ok(true)
        }
        Err(CellFault::Memory) => Err(CallError::Memory),
        Err(fault) => {
            writeln!(to, "{fault}")?;
            Ok(false)
        }
    }
}

/// Writes `checked`, or the errors that the checker finds in `output`, or else the first error in its places as
/// cells. Returns whether there are none.
fn judge<F: Function, W: Write>(
    alloc: Global,
    f: &F,
    env: &MachineEnv,
    output: &Output,
    given: &Given<'_, '_, '_>,
    to: &mut W,
) -> Result<bool, CallError>
    requires framed { IsFramed (F.function f.now) }
    ensures accepted { IfOk result (λ b. b ≡ true → IsInOrder (F.function f.now) (output_of output.now)
        × IsFaithful (F.function f.now) (machine_of env.now) (output_of output.now)
        × AreCells (F.function f.now) (machine_of env.now) (output_of output.now)) }
{
    match check_output(alloc, f, env, output) {
        Ok(errors) => {
            if errors.is_empty() {
                return judge_cells(alloc, f, env, output, to);
            }
            write_findings(alloc, &errors, given, to)
        }
        Err(error) => write_findings(alloc, &[error], given, to),
    }
}

/// Checks `output`, if `f` is structurally valid.
fn judge_framed<F: Function, W: Write, E: Write>(
    alloc: Global,
    f: &F,
    env: &MachineEnv,
    output: &Output,
    given: &Given<'_, '_, '_>,
    to: &mut W,
    err: &mut E,
) -> Result<Verdict, CallError>
    ensures { IfOk result (λ v. v ≡ Verdict.Accepted → IsChecked (F.function f.now) (machine_of env.now) (output_of output.now)) }
{
    if !is_framed(f) {
        err.write_all(b"not framed\n")?;
        return Ok(Verdict::Unusable);
    }
    let is_accepted = judge(alloc, f, env, output, given, to)?;
    Ok(Verdict::of(is_accepted))
}

/// Returns the output that the numbers of `stored` name, or `None` if they name none, which a line on `err` reports.
fn output_given<E: Write>(
    alloc: Global,
    stored: &StoredOutput,
    given: &Given<'_, '_, '_>,
    err: &mut E,
) -> Result<Option<Output>, CallError>
    ensures { IfOk result (λ o. IfSome o (λ out. NamesValues stored.now × (output_of out ≡ output_of_stored stored.now))) }
{
    match Output::from_stored(alloc, stored) {
        Ok(output) => Ok(Some(output)),
        Err(StoredFault::Memory) => Err(CallError::Memory),
        Err(fault) => {
            let cause = explain_output(stored, fault);
            let fault = FaultText(fault, cause);
            writeln!(err, "bad output {fault}")?;
            write_fault_site(cause.output_site(stored), given, err)?;
            Ok(None)
        }
    }
}

/// Checks the output of `given`.
fn replay<F: Function, W: Write, E: Write>(
    alloc: Global,
    f: &F,
    env: &MachineEnv,
    given: &Given<'_, '_, '_>,
    to: &mut W,
    err: &mut E,
) -> Result<Verdict, CallError>
    ensures { IfOk result (λ v. v ≡ Verdict.Accepted → IsGivenChecked (F.function f.now) (machine_of env.now) (output_given given.now)) }
{
    let Some(stored) = given.output else {
        err.write_all(b"bad input: no output\n")?;
        return Ok(Verdict::Unusable);
    };
    match output_given(alloc, stored, given, err)? {
        Some(output) => judge_framed(alloc, f, env, &output, given, to, err),
        None => Ok(Verdict::Unusable),
    }
}

/// Writes whether a write precedes each read and each argument of `f`, on every path, and if not, a path on which
/// none does. Returns whether a write precedes each.
fn judge_reads<F: Function, W: Write>(
    alloc: Global,
    f: &F,
    given: &Given<'_, '_, '_>,
    to: &mut W,
) -> Result<bool, CallError>
    requires framed { IsFramed (F.function f.now) }
    ensures written { IfOk result (λ b. b ≡ true → IsDefinitelyAssigned (F.function f.now)) }
{
    let Ok(are_written) = reads_written(alloc, f) else {
        return Err(CallError::Memory);
    };
    if !are_written {
        to.write_all(b"read before written\n")?;
        if let Some(source) = &given.source {
            write_path(alloc, given.function, source, to)?;
        }
        return Ok(false);
    }
    to.write_all(b"written first\n")?;
    Ok(true)
}

/// Returns the verdict of [`judge_reads`] on `f`, or that it isn't structurally valid.
fn test_reads<F: Function, W: Write, E: Write>(
    alloc: Global,
    f: &F,
    given: &Given<'_, '_, '_>,
    to: &mut W,
    err: &mut E,
) -> Result<Verdict, CallError>
    ensures { IfOk result (λ v. v ≡ Verdict.Accepted → IsFramed (F.function f.now) × IsDefinitelyAssigned (F.function f.now)) }
{
    if !is_framed(f) {
        err.write_all(b"not framed\n")?;
        return Ok(Verdict::Unusable);
    }
    let is_accepted = judge_reads(alloc, f, given, to)?;
    Ok(Verdict::of(is_accepted))
}

/// Writes the text of `function`, and of `output` if there is one.
fn write_text<W: Write>(
    alloc: Global,
    function: &StoredFunction,
    output: Option<&StoredOutput>,
    to: &mut W,
) -> Result<(), CallError> {
    let text = write(alloc, function, output)?;
    write!(to, "{text}")?;
    Ok(())
}

/// Writes what `call` reports of `output`.
fn report<W: Write>(
    call: Call,
    function: &StoredFunction,
    output: &StoredOutput,
    to: &mut W,
) -> Result<(), CallError> {
    let stats = Stats::of(function, output);
    match call {
        Call::Dump => write_dump(function, output, to)?,
        Call::StatsJson => {
            let json = StatsJson(stats);
            write!(to, "{json}")?;
        }
        _ => write!(to, "{stats}")?,
    }
    Ok(())
}

/// Writes the differences between the outputs of `given` and `other`, of the same function, and the checker's
/// findings in each. Accepts them if the outputs agree and nothing is found.
fn compare<F: Function, W: Write, E: Write>(
    alloc: Global,
    f: &F,
    env: &MachineEnv,
    given: &Given<'_, '_, '_>,
    other: &Given<'_, '_, '_>,
    to: &mut W,
    err: &mut E,
) -> Result<Verdict, CallError>
    ensures { IfOk result (λ v. v ≡ Verdict.Accepted → IsGivenChecked (F.function f.now) (machine_of env.now) (output_given given.now)
        × IsGivenChecked (F.function f.now) (machine_of env.now) (output_given other.now)) }
{
    let (Some(output), Some(another)) = (given.output, other.output) else {
        err.write_all(b"bad input: no output\n")?;
        return Ok(Verdict::Unusable);
    };
    let differs = write_diff(given.function, output, another, to)?;
    to.write_all(b"first: ")?;
    let first = replay(alloc, f, env, given, to, err)?;
    to.write_all(b"second: ")?;
    let last = replay(alloc, f, env, other, to, err)?;
    if first == Verdict::Unusable || last == Verdict::Unusable {
        return Ok(Verdict::Unusable);
    }
    let is_accepted = first == Verdict::Accepted && last == Verdict::Accepted;
    Ok(Verdict::of(is_accepted && !differs))
}

/// Performs `call`, which is about the stored form of the allocator's `output`.
fn show_stored<F: Function, W: Write, E: Write>(
    alloc: Global,
    call: Call,
    f: &F,
    env: &MachineEnv,
    output: &Output,
    given: &Given<'_, '_, '_>,
    to: &mut W,
    err: &mut E,
) -> Result<Verdict, CallError>
    ensures { call ≡ Call.Diff → IfOk result (λ v. v ≡ Verdict.Accepted → IsShown Call.Diff (output_given given.now) (F.function f.now) (machine_of env.now) (output_of output.now)) }
{
    let Ok(stored) = output.stored() else {
        return Err(CallError::Memory);
    };
    match call {
        Call::Diff => {
            let other = Given {
                function: given.function,
                output: Some(&stored),
                source: None,
            };
            return compare(alloc, f, env, given, &other, to, err);
        }
        Call::Allocated | Call::Text => write_text(alloc, given.function, Some(&stored), to)?,
        _ => report(call, given.function, &stored, to)?,
    }
    Ok(Verdict::Accepted)
}

/// Writes why the machine `env` doesn't fit `f`.
fn write_misfit<F: Function, E: Write>(
    f: &F,
    env: &MachineEnv,
    given: &Given<'_, '_, '_>,
    err: &mut E,
) -> Result<(), CallError> {
    let Some(source) = &given.source else {
        err.write_all(b"bad machine\n")?;
        return Ok(());
    };
    let Err(misfit) = test_machine(f, env) else {
        return Ok(());
    };
    writeln!(err, "bad machine: {misfit}")?;
    match misfit_at(given.function, misfit) {
        Some(site) => write_site(site, source, err),
        None => Ok(()),
    }
}

/// Performs `call`, which is about the allocator's `output`; `Replay` and `Reads` are performed as a `Check`.
fn show<F: Function, W: Write, E: Write>(
    alloc: Global,
    call: Call,
    f: &F,
    env: &MachineEnv,
    output: &Output,
    given: &Given<'_, '_, '_>,
    to: &mut W,
    err: &mut E,
) -> Result<Verdict, CallError>
    requires framed { IsFramed (F.function f.now) }
    requires order { IsInOrder (F.function f.now) (output_of output.now) }
    requires blocks { BlocksAreWithin (F.function f.now) }
    ensures { IfOk result (λ v. v ≡ Verdict.Accepted → IsShown call (output_given given.now) (F.function f.now) (machine_of env.now) (output_of output.now)) }
{
    match call {
        Call::Run => write_listing(f, output, to)?,
        Call::Svg => Picture::new(alloc).draw(f, output, to)?,
        Call::Check | Call::Replay | Call::Reads => {
            let is_accepted = judge(alloc, f, env, output, given, to)?;
            return Ok(Verdict::of(is_accepted));
        }
        _ => return show_stored(alloc, call, f, env, output, given, to, err),
    }
    Ok(Verdict::Accepted)
}

/// Allocates registers to `f`, and performs `call` about the output.
fn allocate<F: Function, W: Write, E: Write>(
    alloc: Global,
    call: Call,
    f: &F,
    env: &MachineEnv,
    given: &Given<'_, '_, '_>,
    to: &mut W,
    err: &mut E,
) -> Result<Verdict, CallError>
    ensures { IfOk result (λ v. v ≡ Verdict.Accepted → HasShown call (output_given given.now) (F.function f.now) (machine_of env.now)) }
{
    if !machine_fits(f, env) {
        write_misfit(f, env, given, err)?;
        return Ok(Verdict::Unusable);
    }
    match run(alloc, f, env, &OPTIONS) {
        Ok(output) => show(alloc, call, f, env, &output, given, to, err),
        Err(RegAllocError::Memory) => Err(CallError::Memory),
        Err(error) => {
            write_refusal(error, given, err)?;
            Ok(Verdict::Rejected)
        }
    }
}

/// Returns the function that the numbers of `given` name, or `None` if they name none, which a line on `err` reports.
fn function_of<E: Write>(
    alloc: Global,
    given: &Given<'_, '_, '_>,
    err: &mut E,
) -> Result<Option<SerializableFunction>, CallError>
    ensures { IfOk result (λ o. IfSome o (λ f. NamesBoth given.now.function.now (function_of_serializable f) (machine_of f.machine))) }
{
    match SerializableFunction::from_stored(alloc, given.function) {
        Ok(f) => Ok(Some(f)),
        Err(StoredFault::Memory) => Err(CallError::Memory),
        Err(fault) => {
            let cause = explain_function(given.function, fault);
            let fault = FaultText(fault, cause);
            writeln!(err, "bad function {fault}")?;
            write_fault_site(cause.site(given.function), given, err)?;
            Ok(None)
        }
    }
}

/// Performs [`Call::Diff`] with the output of `other`, of the same function, in place of the allocator's.
///
/// `Accepted` says that both outputs are well-ordered, faithful and in cells of their own. Spec:
/// `AreAcceptedBoth` in `specs/Calls.antt`.
pub fn perform_diff<W: Write, E: Write>(
    alloc: Global,
    given: &Given<'_, '_, '_>,
    other: &Given<'_, '_, '_>,
    to: &mut W,
    err: &mut E,
) -> Result<Verdict, CallError>
    ensures { IfOk result (λ v. v ≡ Verdict.Accepted → AreAcceptedBoth given.now other.now) }
{
    match function_of(alloc, given, err)? {
        Some(f) => compare(alloc, &f, f.machine_env(), given, other, to, err),
        None => Ok(Verdict::Unusable),
    }
}

/// Performs `call`, which isn't `Text`, about `f`, the function that the numbers of `given` name.
fn perform<F: Function, W: Write, E: Write>(
    alloc: Global,
    call: Call,
    f: &F,
    env: &MachineEnv,
    given: &Given<'_, '_, '_>,
    to: &mut W,
    err: &mut E,
) -> Result<Verdict, CallError>
    ensures { IfOk result (λ v. v ≡ Verdict.Accepted → IsAccepted call (output_given given.now) (F.function f.now) (machine_of env.now)) }
{
    match (call, given.output) {
        (Call::Replay, _) | (Call::Check, Some(_)) => replay(alloc, f, env, given, to, err),
        (Call::Reads, _) => test_reads(alloc, f, given, to, err),
        (Call::Stats | Call::StatsJson | Call::Dump, Some(output)) => {
            report(call, given.function, output, to)?;
            Ok(Verdict::Accepted)
        }
        _ => allocate(alloc, call, f, env, given, to, err),
    }
}

/// Performs a call, and writes the result.
///
/// The result is the listing, the text, the picture, counts, upstream's form, the differences
/// between two outputs, `checked`, a line for each error that the checker finds, `written first`,
/// or `read before written`, which counts as an error; with a text, the lines after an error show
/// where it is and what causes it. If the function or the output is rejected, `err` gets `bad
/// function 2: ..`, `bad machine`, `bad output 3: ..`, `not framed` or `refused 5: ..`, and with a
/// text the cause and the lines that contain it. The numbers are as in [`regalloc2_names::RegAllocErrorKind`]
/// and in `number_of` of [`regalloc2_text::stored_fault`]; a finding has its own. [`Call::Text`] tests
/// nothing.
///
/// `Accepted` says that the numbers of `given` name a function and a machine for which what the
/// call tests holds, and that an allocated output has all that `run` guarantees. The contract
/// doesn't say what is written; tests check it. Spec: `IsAcceptedCall` in `specs/Calls.antt`.
pub fn perform_call<W: Write, E: Write>(
    alloc: Global,
    call: Call,
    given: &Given<'_, '_, '_>,
    to: &mut W,
    err: &mut E,
) -> Result<Verdict, CallError>
    ensures { (call ≡ Call.Text → ⊥) → IfOk result (λ v. v ≡ Verdict.Accepted → IsAcceptedCall call given.now) }
{
    if call == Call::Text {
        write_text(alloc, given.function, given.output, to)?;
        return Ok(Verdict::Accepted);
    }
    match function_of(alloc, given, err)? {
        Some(f) => perform(alloc, call, &f, f.machine_env(), given, to, err),
        None => Ok(Verdict::Unusable),
    }
}
