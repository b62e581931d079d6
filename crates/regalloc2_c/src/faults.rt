//! The words of the faults of an output.

ghost use Rattle.std.specs.Prelude.{◌≡◌, ◌<◌, ◌∷◌, ◌++◌, [], map, length, OnOk};
ghost use Rattle.regalloc2_names.specs.RegisterBits.{bits_of_vreg};
ghost use Rattle.regalloc2.specs.Views.{output_of};
ghost use Rattle.regalloc2_function.specs.OutputValue.{IsInOrder};
ghost use Rattle.regalloc2_c.specs.Faults.{first_index, is_placed, operand_index, operand_head, fault_head, fault_words, faults_words, cell_fault_words};
ghost use Rattle.regalloc2_c.specs.Faults.{IsFaultsTold, IsPrepareFailure, IsErrorsFailure, IsCellsTold, fault_vregs};

use super::failure::Failure;
use super::words::{NONE, word_of};
use regalloc2::checker::CheckerError;
use regalloc2::{Allocation, Function, Inst, Operand, Output, VReg};
use regalloc2_checker::CellFault;
use regalloc2_checker::lookup::place_at;
use regalloc2_serialize::flat::halves;
use std::alloc::{AllocError, Global};

/// A function and an output of it.
#[derive(Drop)]
pub struct Judged<'a, F: Function> {
    /// The function.
    pub f: &'a F,
    /// The output.
    pub output: &'a Output,
}

/// Returns whether operand `k` has the encoding of `op` and is in `place`.
fn is_placed(
    operands: &[Operand],
    places: &[Allocation],
    op: Operand,
    place: Allocation,
    k: usize,
) -> bool
    requires { k < length operands.now }
    ensures { result ≡ is_placed operands.now places.now op place k }
{
    operands[k].bits() == op.bits() && place_at(places, k).bits() == place.bits()
}

/// Returns the index of the first operand with the encoding of `op` that is in `place`, as a word.
fn index_of(operands: &[Operand], places: &[Allocation], op: Operand, place: Allocation) -> u32
    ensures { result ≡ first_index (is_placed operands.now places.now op place) 0 (length operands.now) }
{
    for k in 0..operands.len() {
        if is_placed(operands, places, op, place, k) {
            return word_of(k);
        }
    }
    NONE
}

/// Returns the index of the first operand of `inst` with the encoding of `op` that is in `place`, as a word.
fn index_in<F: Function>(f: &F, output: &Output, inst: Inst, op: Operand, place: Allocation) -> u32
    requires { IsInOrder (F.function f.now) (output_of output.now) }
    ensures { result ≡ operand_index (F.function f.now) (output_of output.now) inst op place }
{
    if inst.index() < f.num_insts() {
        index_of(f.inst_operands(inst), output.inst_allocs(inst), op, place)
    } else {
        NONE
    }
}

/// Returns the words of a fault of an operand: `number`, `inst`, the index of `op`, its encoding, `place`, `other` and
/// `bound`.
fn operand_head<F: Function>(
    judged: &Judged<'_, F>,
    number: u32,
    inst: Inst,
    op: Operand,
    place: Allocation,
    other: Allocation,
    bound: u32,
) -> [u32; 8]
    requires { IsInOrder (F.function judged.now.f.now) (output_of judged.now.output.now) }
    ensures { result ≡ operand_head (F.function judged.now.f.now) (output_of judged.now.output.now) number inst op place other bound }
{
    let index = index_in(judged.f, judged.output, inst, op, place);
    let [lower, upper] = halves(op.bits());
    [
        number,
        inst.0,
        index,
        lower,
        upper,
        place.bits(),
        other.bits(),
        bound,
    ]
}

/// The words of a fault up to the list of vregs.
fn head_of<F: Function>(judged: &Judged<'_, F>, error: &CheckerError) -> [u32; 8]
    requires { IsInOrder (F.function judged.now.f.now) (output_of judged.now.output.now) }
    ensures { result ≡ fault_head (F.function judged.now.f.now) (output_of judged.now.output.now) error.now }
{
    let none = Allocation::none();
    match error {
        CheckerError::MissingAllocation { inst, op } => operand_head(
            judged, 1, *inst, *op, none, none, 0,
        ),
        CheckerError::UnknownValueInAllocation { inst, op, alloc } => {
            operand_head(judged, 2, *inst, *op, *alloc, none, 0)
        }
        CheckerError::ConflictedValueInAllocation { inst, op, alloc } => {
            operand_head(judged, 3, *inst, *op, *alloc, none, 0)
        }
        CheckerError::IncorrectValuesInAllocation {
            inst,
            op,
            alloc,
            ..
        } => { operand_head(judged, 4, *inst, *op, *alloc, none, 0) }
        CheckerError::ConstraintViolated { inst, op, alloc } => {
            operand_head(judged, 5, *inst, *op, *alloc, none, 0)
        }
        CheckerError::AllocationIsNotReg { inst, op, alloc } => {
            operand_head(judged, 6, *inst, *op, *alloc, none, 0)
        }
        CheckerError::AllocationIsNotFixedReg { inst, op, alloc } => {
            operand_head(judged, 7, *inst, *op, *alloc, none, 0)
        }
        CheckerError::AllocationIsNotReuse {
            inst,
            op,
            alloc,
            expected_alloc,
        } => { operand_head(judged, 8, *inst, *op, *alloc, *expected_alloc, 0) }
        CheckerError::AllocationIsNotStack { inst, op, alloc } => {
            operand_head(judged, 9, *inst, *op, *alloc, none, 0)
        }
        CheckerError::StackToStackMove { into, from } => {
            [10, NONE, NONE, 0, 0, into.bits(), from.bits(), 0]
        }
        CheckerError::AllocationOutsideLimit {
            inst,
            op,
            alloc,
            range,
        } => { operand_head(judged, 11, *inst, *op, *alloc, none, word_of(range.end)) }
        CheckerError::MalformedOutput => [12, NONE, NONE, 0, 0, 0, 0, 0],
        CheckerError::Memory => [13, NONE, NONE, 0, 0, 0, 0, 0],
    }
}

/// Adds `words` to `to`.
fn push_words(to: &mut Vec<u32>, words: &[u32]) -> Result<(), AllocError>
    ensures { OnOk result (to.new.items ≡ to.old.items ++ words.now) }
{
    for k in 0..words.len() {
        to.push(words[k])?;
    }
    Ok(())
}

/// Adds the encodings of `vregs` to `to`.
fn push_vregs(to: &mut Vec<u32>, vregs: &[VReg]) -> Result<(), AllocError>
    ensures { OnOk result (to.new.items ≡ to.old.items ++ map bits_of_vreg vregs.now) }
{
    for k in 0..vregs.len() {
        to.push(vregs[k].bits() as u32)?;
    }
    Ok(())
}

/// Adds `length` to `to`. An error if it is no word.
fn push_length(to: &mut Vec<u32>, length: usize) -> Result<(), AllocError>
    ensures { OnOk result (to.new.items ≡ to.old.items ++ length ∷ []) }
{
    let Ok(word) = u32::try_from(length) else {
        return Err(AllocError);
    };
    to.push(word)?;
    Ok(())
}

/// Returns the vregs that the fault `error` names.
fn vregs_of(error: &CheckerError) -> &[VReg]
    ensures { result.now ≡ fault_vregs error.now }
{
    match error {
        CheckerError::IncorrectValuesInAllocation { actual, .. } => actual.as_slice(),
        _ => &[],
    }
}

/// Adds the words of the fault `error` to `to`.
fn push_fault<F: Function>(
    to: &mut Vec<u32>,
    judged: &Judged<'_, F>,
    error: &CheckerError,
) -> Result<(), AllocError>
    requires { IsInOrder (F.function judged.now.f.now) (output_of judged.now.output.now) }
    ensures { OnOk result (to.new.items ≡ to.old.items ++ fault_words (F.function judged.now.f.now) (output_of judged.now.output.now) error.now) }
{
    let head = head_of(judged, error);
    let vregs = vregs_of(error);
    push_words(to, &head)?;
    push_length(to, vregs.len())?;
    push_vregs(to, vregs)
}

/// Adds the words of the faults `errors` to `to`.
fn push_faults<F: Function>(
    to: &mut Vec<u32>,
    judged: &Judged<'_, F>,
    errors: &[CheckerError],
) -> Result<(), AllocError>
    requires { IsInOrder (F.function judged.now.f.now) (output_of judged.now.output.now) }
    ensures { OnOk result (to.new.items ≡ to.old.items ++ faults_words (F.function judged.now.f.now) (output_of judged.now.output.now) errors.now) }
{
    push_length(to, errors.len())?;
    for k in 0..errors.len() {
        push_fault(to, judged, &errors[k])?;
    }
    Ok(())
}

/// Returns the failure with the words of the faults `errors`.
fn faults_failure<F: Function>(
    alloc: Global,
    judged: &Judged<'_, F>,
    errors: &[CheckerError],
) -> Failure
    requires { IsInOrder (F.function judged.now.f.now) (output_of judged.now.output.now) }
    ensures { IsFaultsTold (faults_words (F.function judged.now.f.now) (output_of judged.now.output.now) errors.now) result }
{
    let mut words = Vec::new(alloc);
    match push_faults(&mut words, judged, errors) {
        Ok(()) => Failure::Faults(words),
        Err(_) => Failure::NoMemory,
    }
}

/// Returns the failure for the checker's `errors`: out of memory if they are `Memory` alone, else the list of them.
pub fn failure_of_errors<F: Function>(
    alloc: Global,
    judged: &Judged<'_, F>,
    errors: &[CheckerError],
) -> Failure
    requires { IsInOrder (F.function judged.now.f.now) (output_of judged.now.output.now) }
    ensures { IsErrorsFailure (F.function judged.now.f.now) (output_of judged.now.output.now) errors.now result }
{
    match errors {
        [CheckerError::Memory] => Failure::NoMemory,
        _ => faults_failure(alloc, judged, errors),
    }
}

/// Returns the failure for `error`, with which the checker rejected an output: out of memory, or the output isn't in
/// order.
pub fn failure_to_prepare(alloc: Global, error: &CheckerError) -> Failure
    ensures { IsPrepareFailure error.now result }
{
    if let CheckerError::Memory = error {
        return Failure::NoMemory;
    }
    let mut words = Vec::new(alloc);
    match push_words(&mut words, &[1, 12, NONE, NONE, 0, 0, 0, 0, 0, 0]) {
        Ok(()) => Failure::Faults(words),
        Err(_) => Failure::NoMemory,
    }
}

/// Returns the list of the one fault `fault` of places.
fn words_of_cells(fault: CellFault) -> [u32; 10]
    ensures { result ≡ cell_fault_words fault }
{
    match fault {
        CellFault::Operand(inst, k) => [1, 14, inst.0, word_of(k), 0, 0, 0, 0, 0, 0],
        CellFault::MoveEnd(k) => [1, 14, NONE, word_of(k), 0, 0, 0, 0, 0, 0],
        CellFault::Location(k) => [1, 14, NONE, NONE, 0, 0, 0, 0, word_of(k), 0],
        CellFault::OtherClass(k) => [1, 15, NONE, word_of(k), 0, 0, 0, 0, 0, 0],
        CellFault::Slot(n) => [1, 16, NONE, word_of(n), 0, 0, 0, 0, 0, 0],
        CellFault::Shared(m, n) => [1, 17, NONE, word_of(m), 0, 0, 0, 0, word_of(n), 0],
        CellFault::Memory => [1, 13, NONE, NONE, 0, 0, 0, 0, 0, 0],
    }
}

/// Returns the failure for `fault`, a fault of places.
pub fn failure_of_cells(alloc: Global, fault: CellFault) -> Failure
    ensures { IsCellsTold fault result }
{
    if let CellFault::Memory = fault {
        return Failure::NoMemory;
    }
    let mut words = Vec::new(alloc);
    match push_words(&mut words, &words_of_cells(fault)) {
        Ok(()) => Failure::Faults(words),
        Err(_) => Failure::NoMemory,
    }
}
