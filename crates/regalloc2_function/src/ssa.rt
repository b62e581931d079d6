//! The tests on definitions and uses.

ghost use Rattle.std.specs.Prelude.{◌≡◌, ◌≢◌, ◌+◌, ◌<◌, ◌≤◌, ◌↔◌, ◌⊎◌, ℕ, [], All, filter_map, flat_map, map, length, replicate, slice_set, IfErr, IsTrue};
ghost use Rattle.std.specs.Prelude.{None, OnOk, Some};
ghost use Rattle.std.specs.Bool.{OnFalse, OnTrue};
ghost use Rattle.regalloc2_index.specs.Range.{numbers_from, numbers_of};
ghost use Rattle.regalloc2_names.specs.Place.{inst_limit};
ghost use Rattle.regalloc2_function.specs.FunctionValue.{block_at, last_of, EachBlock};
ghost use Rattle.regalloc2_function.specs.Reasons.{definitions_in, uses_in, HasShape, HasSoundness, IsDefinitionFault, IsFirst, IsSoundnessFault};
ghost use Rattle.regalloc2_function.specs.WellFormed.{ArgumentsFitAt, BlocksFollow, DefinedOnce, EntryIsFirst, SuccessorsAreBlocks};
ghost use Rattle.regalloc2_function.specs.WellFormed.{UsesAreDefined};
ghost use Rattle.regalloc2_function.specs.Inside.Definitions.{entry_of, IsDefinedInTable, IsNumberTaken, IsUsable, NamesTaken, NamesUnusable};
ghost use Rattle.regalloc2_function.specs.Inside.Definitions.{NotesDefinitions, block_definitions, inst_definitions, operand_definition, param_definition};
ghost use Rattle.regalloc2_function.specs.Inside.Definitions.{argument_use, block_uses, inst_reads, operand_read, passed_at};
ghost use Rattle.regalloc2_function.specs.Inside.TableLength.{CoversDefinitions};
ghost use Rattle.regalloc2_function.specs.Tables.{IsInfoOf};

use super::cfg::CFGInfo;
use super::table_length::table_length;
use crate::{Function, test_ends};
use regalloc2_index::{Block, Inst, InstRange};
use regalloc2_names::{Operand, ProgPoint, RegAllocError, RegClass, VReg};
use std::alloc::Allocator;

/// Where a vreg is defined.
#[derive(Clone, Copy)]
struct Definition {
    class: RegClass,
    /// The point from which on it may be used: after the instruction that defines it, or before its
    /// block for a parameter.
    usable: ProgPoint,
}

/// Notes that `vreg` is defined and may be used from `usable` on. Returns `false`, and notes nothing,
/// if its number is past the table's end or is defined already.
fn note(defined: &mut [Option<Definition>], vreg: VReg, usable: ProgPoint) -> bool
    ensures room { OnTrue result (vreg.number < length defined.old) }
    ensures free { OnTrue result (entry_of defined.old vreg.number ≡ None) }
    ensures noted { OnTrue result (defined.new ≡ slice_set defined.old vreg.number (Some (record { class = vreg.class; usable = usable }))) }
    ensures taken { OnFalse result (IsNumberTaken defined.old vreg) }
{
    let number = vreg.vreg();
    if number >= defined.len() {
        return false;
    }
    if defined[number].is_some() {
        return false;
    }
    defined[number] = Some(Definition {
        class: vreg.class(),
        usable,
    });
    true
}

/// Notes `params`, the parameters of a block that begins at `first`.
fn note_params(
    defined: &mut [Option<Definition>],
    params: &[VReg],
    first: Inst,
) -> Result<(), RegAllocError>
    requires { first < inst_limit }
    ensures ok { OnOk result (NotesDefinitions defined.old (map (param_definition first) params.now) defined.new) }
    ensures err { IfErr result (NamesTaken defined.old (map (param_definition first) params.now)) }
{
    let usable = ProgPoint::before(first);
    for param in params {
        if !note(defined, *param, usable) {
            return Err(RegAllocError::SSA(*param, Inst::invalid()));
        }
    }
    Ok(())
}

/// Notes what `operands` of `inst` define.
fn note_operands(
    defined: &mut [Option<Definition>],
    operands: &[Operand],
    inst: Inst,
) -> Result<(), RegAllocError>
    requires { inst < inst_limit }
    ensures ok { OnOk result (NotesDefinitions defined.old (filter_map (operand_definition inst) operands.now) defined.new) }
    ensures err { IfErr result (NamesTaken defined.old (filter_map (operand_definition inst) operands.now)) }
{
    let usable = ProgPoint::after(inst);
    for operand in operands {
        if operand.is_def() && !note(defined, operand.vreg(), usable) {
            return Err(RegAllocError::SSA(operand.vreg(), inst));
        }
    }
    Ok(())
}

/// Notes what the instructions of `range` define.
fn note_insts<F: Function>(
    defined: &mut [Option<Definition>],
    f: &F,
    range: InstRange,
) -> Result<(), RegAllocError>
    requires { range.end ≤ length (F.function f.now).insts }
    ensures ok { OnOk result (NotesDefinitions defined.old (flat_map (inst_definitions (F.function f.now)) (numbers_of range)) defined.new) }
    ensures err { IfErr result (NamesTaken defined.old (flat_map (inst_definitions (F.function f.now)) (numbers_of range))) }
{
    for inst in range.iter() {
        note_operands(defined, f.inst_operands(inst), inst)?;
    }
    Ok(())
}

/// Notes what `block` defines.
fn note_block<F: Function>(
    defined: &mut [Option<Definition>],
    f: &F,
    block: Block,
) -> Result<(), RegAllocError>
    requires block { block < length (F.function f.now).blocks }
    requires nonempty { (block_at (F.function f.now) block).range.first < (block_at (F.function f.now) block).range.end }
    requires within { (block_at (F.function f.now) block).range.end ≤ length (F.function f.now).insts }
    ensures ok { OnOk result (NotesDefinitions defined.old (block_definitions (F.function f.now) (block_at (F.function f.now) block)) defined.new) }
    ensures err { IfErr result (NamesTaken defined.old (block_definitions (F.function f.now) (block_at (F.function f.now) block))) }
{
    let range = f.block_insns(block);
    note_params(defined, f.block_params(block), range.first())?;
    note_insts(defined, f, range)
}

/// Notes what all blocks define.
fn note_blocks<F: Function>(defined: &mut [Option<Definition>], f: &F) -> Result<(), RegAllocError>
    requires { BlocksFollow (F.function f.now) }
    ensures ok { OnOk result (NotesDefinitions defined.old (definitions_in (F.function f.now)) defined.new) }
    ensures err { IfErr result (NamesTaken defined.old (definitions_in (F.function f.now))) }
{
    for b in 0..f.num_blocks() {
        note_block(defined, f, Block::new(b))?;
    }
    Ok(())
}

/// Returns `true` if `vreg` is defined, in number and class, and may be used at `point`.
fn is_usable(defined: &[Option<Definition>], vreg: VReg, point: ProgPoint) -> bool
    ensures { IsTrue result ↔ IsDefinedInTable defined.now vreg point }
{
    let number = vreg.vreg();
    if number >= defined.len() {
        return false;
    }
    match defined[number] {
        Some(definition) => { definition.class == vreg.class() && definition.usable <= point }
        None => false,
    }
}

/// Tests what `operands` of `inst` read.
fn test_operands(
    defined: &[Option<Definition>],
    operands: &[Operand],
    inst: Inst,
) -> Result<(), RegAllocError>
    requires { inst < inst_limit }
    ensures ok { OnOk result (All (IsUsable defined.now) (filter_map (operand_read inst) operands.now)) }
    ensures err { IfErr result (NamesUnusable defined.now (filter_map (operand_read inst) operands.now)) }
{
    let point = ProgPoint::before(inst);
    for operand in operands {
        if operand.is_reading() && !is_usable(defined, operand.vreg(), point) {
            return Err(RegAllocError::SSA(operand.vreg(), inst));
        }
    }
    Ok(())
}

/// Tests `arguments`, which `inst` passes to one successor.
fn test_arguments(
    defined: &[Option<Definition>],
    arguments: &[VReg],
    inst: Inst,
) -> Result<(), RegAllocError>
    requires { inst < inst_limit }
    ensures ok { OnOk result (All (IsUsable defined.now) (map (argument_use inst) arguments.now)) }
    ensures err { IfErr result (NamesUnusable defined.now (map (argument_use inst) arguments.now)) }
{
    let point = ProgPoint::after(inst);
    for argument in arguments {
        if !is_usable(defined, *argument, point) {
            return Err(RegAllocError::SSA(*argument, inst));
        }
    }
    Ok(())
}

/// Tests what the instructions of `range` read.
fn test_reads<F: Function>(
    defined: &[Option<Definition>],
    f: &F,
    range: InstRange,
) -> Result<(), RegAllocError>
    requires { range.end ≤ length (F.function f.now).insts }
    ensures ok { OnOk result (All (IsUsable defined.now) (flat_map (inst_reads (F.function f.now)) (numbers_of range))) }
    ensures err { IfErr result (NamesUnusable defined.now (flat_map (inst_reads (F.function f.now)) (numbers_of range))) }
{
    for inst in range.iter() {
        test_operands(defined, f.inst_operands(inst), inst)?;
    }
    Ok(())
}

/// Tests what `block` passes to its successors.
fn test_passed<F: Function>(
    defined: &[Option<Definition>],
    f: &F,
    block: Block,
) -> Result<(), RegAllocError>
    requires block { block < length (F.function f.now).blocks }
    requires nonempty { (block_at (F.function f.now) block).range.first < (block_at (F.function f.now) block).range.end }
    requires within { (block_at (F.function f.now) block).range.end ≤ length (F.function f.now).insts }
    ensures ok { OnOk result (All (IsUsable defined.now) (flat_map (passed_at (block_at (F.function f.now) block))
        (numbers_from 0 (length (block_at (F.function f.now) block).succs)))) }
    ensures err { IfErr result (NamesUnusable defined.now (flat_map (passed_at (block_at (F.function f.now) block))
        (numbers_from 0 (length (block_at (F.function f.now) block).succs)))) }
{
    let last = f.block_insns(block).last();
    for k in 0..f.block_succs(block).len() {
        test_arguments(defined, f.branch_blockparams(block, last, k), last)?;
    }
    Ok(())
}

/// Tests what `block` reads and passes.
fn test_block<F: Function>(
    defined: &[Option<Definition>],
    f: &F,
    block: Block,
) -> Result<(), RegAllocError>
    requires block { block < length (F.function f.now).blocks }
    requires nonempty { (block_at (F.function f.now) block).range.first < (block_at (F.function f.now) block).range.end }
    requires within { (block_at (F.function f.now) block).range.end ≤ length (F.function f.now).insts }
    ensures ok { OnOk result (All (IsUsable defined.now) (block_uses (F.function f.now) (block_at (F.function f.now) block))) }
    ensures err { IfErr result (NamesUnusable defined.now (block_uses (F.function f.now) (block_at (F.function f.now) block))) }
{
    test_reads(defined, f, f.block_insns(block))?;
    test_passed(defined, f, block)
}

/// Tests what all blocks read and pass.
fn test_uses<F: Function>(defined: &[Option<Definition>], f: &F) -> Result<(), RegAllocError>
    requires { BlocksFollow (F.function f.now) }
    ensures ok { OnOk result (All (IsUsable defined.now) (uses_in (F.function f.now))) }
    ensures err { IfErr result (NamesUnusable defined.now (uses_in (F.function f.now))) }
{
    for b in 0..f.num_blocks() {
        test_block(defined, f, Block::new(b))?;
    }
    Ok(())
}

/// Tests definitions and then uses, over `defined`, which is blank and has room for each vreg that `f`
/// defines.
fn test_over<F: Function>(defined: &mut [Option<Definition>], f: &F) -> Result<(), RegAllocError>
    requires some { 0 < length (F.function f.now).blocks }
    requires follow { BlocksFollow (F.function f.now) }
    requires blank { defined.old ≡ replicate (length defined.old) None }
    requires room { CoversDefinitions (F.function f.now) (length defined.old) }
    requires few { length defined.old ≤ (F.function f.now).num_vregs }
    ensures once { OnOk result (DefinedOnce (F.function f.now)) }
    ensures uses { OnOk result (UsesAreDefined (F.function f.now)) }
    ensures refused { IfErr result (IsDefinitionFault (F.function f.now)) }
{
    note_blocks(defined, f)?;
    test_uses(defined, f)
}

/// Tests the definitions of a function whose blocks follow one another, and then its uses.
///
/// Each vreg number has at most one definition, whatever the class, and each defined number is
/// below `num_vregs`. Each use that reads a vreg, and each argument of a branch, names in number
/// and class a vreg that is defined at a smaller instruction number; a parameter counts as defined
/// before its block. An argument may also name what its own branch defines.
///
/// The error is `SSA` with the first vreg that fails the first of the two tests that fails, and the
/// instruction where it does: block by block, in each first its parameters, which are named with
/// `Inst::invalid()`, then its instructions with their operands in order, and after the operands of
/// the last the arguments by successor. It is `Memory` if the table of definitions, as long as
/// `table_length` says, could not be allocated.
pub fn test_definitions<A: Allocator + Copy, F: Function>(
    alloc: A,
    f: &F,
) -> Result<(), RegAllocError>
    requires some { 0 < length (F.function f.now).blocks }
    requires follow { BlocksFollow (F.function f.now) }
    ensures once { OnOk result (DefinedOnce (F.function f.now)) }
    ensures uses { OnOk result (UsesAreDefined (F.function f.now)) }
    ensures refused { IfErr result (IsDefinitionFault (F.function f.now)) }
    ensures accepted { DefinedOnce (F.function f.now) → UsesAreDefined (F.function f.now) → IfErr result (λ e. e ≡ RegAllocError.Memory) }
{
    let mut defined = Vec::from_elem(alloc, None, table_length(f))?;
    test_over(defined.as_mut_slice(), f)
}

/// Tests that the entry is block 0 and has no parameters.
fn test_entry<F: Function>(f: &F) -> Result<(), RegAllocError>
    requires { 0 < length (F.function f.now).blocks }
    ensures ok { OnOk result (EntryIsFirst (F.function f.now)) }
    ensures err { IfErr result (λ e. (((F.function f.now).entry ≢ 0) × (e ≡ RegAllocError.BB (F.function f.now).entry))
        ⊎ (((F.function f.now).entry ≡ 0) × ((block_at (F.function f.now) 0).params ≢ []) × (e ≡ RegAllocError.EntryLivein))) }
{
    let entry = f.entry_block();
    if entry.index() != 0 {
        return Err(RegAllocError::BB(entry));
    }
    if !f.block_params(entry).is_empty() {
        return Err(RegAllocError::EntryLivein);
    }
    Ok(())
}

/// Returns `true` if `arguments` has one argument for each of `params`, of the parameter's class.
fn same_classes(arguments: &[VReg], params: &[VReg]) -> bool
    ensures { IsTrue result ↔ (map (λ v. v.class) arguments.now ≡ map (λ v. v.class) params.now) }
{
    if arguments.len() != params.len() {
        return false;
    }
    for k in 0..params.len() {
        if arguments[k].class() != params[k].class() {
            return false;
        }
    }
    true
}

/// Returns `true` if `last`, the last instruction of `block`, passes each successor arguments that fit
/// the successor's parameters.
fn arguments_fit<F: Function>(f: &F, block: Block, last: Inst) -> bool
    requires block { block < length (F.function f.now).blocks }
    requires last { last + 1 ≡ (block_at (F.function f.now) block).range.end }
    requires nonempty { (block_at (F.function f.now) block).range.first ≤ last }
    requires blocks { SuccessorsAreBlocks (F.function f.now) }
    ensures { IsTrue result ↔ ArgumentsFitAt (F.function f.now) block (block_at (F.function f.now) block) }
{
    let succs = f.block_succs(block);
    for k in 0..succs.len() {
        let arguments = f.branch_blockparams(block, last, k);
        if !same_classes(arguments, f.block_params(succs[k])) {
            return false;
        }
    }
    true
}

/// Tests that each successor is passed arguments that fit its parameters.
fn test_fit<F: Function>(f: &F) -> Result<(), RegAllocError>
    requires blocks { SuccessorsAreBlocks (F.function f.now) }
    requires follow { BlocksFollow (F.function f.now) }
    ensures ok { OnOk result (EachBlock (F.function f.now) (ArgumentsFitAt (F.function f.now))) }
    ensures err { IfErr result (λ e. (b : ℕ) × (e ≡ RegAllocError.Branch (last_of (block_at (F.function f.now) b)))
        × IsFirst (length (F.function f.now).blocks) (λ n. ArgumentsFitAt (F.function f.now) n (block_at (F.function f.now) n)) b) }
{
    for b in 0..f.num_blocks() {
        let block = Block::new(b);
        let last = f.block_insns(block).last();
        if !arguments_fit(f, block, last) {
            return Err(RegAllocError::Branch(last));
        }
    }
    Ok(())
}

/// Tests a function's entry, terminators, arguments, definitions and uses. Its blocks and edges are
/// sound: [`test_shape`](crate::test_shape) tests that.
///
/// The tests, in turn: the entry is block 0 and has no parameters; each block ends, and only ends,
/// in a branch or in a return without successors, and no instruction is both; each successor is
/// passed as many arguments as it has parameters, of the same classes; definitions and then uses
/// are as [`test_definitions`] says.
///
/// The first test that fails decides, and the error names where it fails first: `BB` with the
/// entry, or with the block that doesn't end so; `EntryLivein`; `Branch` with the last instruction
/// of the block that passes the arguments; `SSA` as [`test_definitions`] says. It is `Memory` if
/// memory ran out.
///
/// Linear in the function's instructions, operands and arguments. Upstream tests uses by dominance
/// where this tests the order of instruction numbers, counts arguments without looking at their
/// classes, and checks the entry's parameters last.
pub fn test_soundness<A: Allocator + Copy, F: Function>(
    alloc: A,
    f: &F,
) -> Result<(), RegAllocError>
    requires { HasShape (F.function f.now) }
    ensures sound { OnOk result (HasSoundness (F.function f.now)) }
    ensures refused { IfErr result (λ e. (e ≡ RegAllocError.Memory) ⊎ IsSoundnessFault (F.function f.now) e) }
    ensures accepted { HasSoundness (F.function f.now) → IfErr result (λ e. e ≡ RegAllocError.Memory) }
{
    test_entry(f)?;
    test_ends(f)?;
    test_fit(f)?;
    test_definitions(alloc, f)
}

/// Makes the tests of [`test_soundness`]. `cfginfo` is what [`CFGInfo::new`] or [`CFGInfo::init`]
/// made of the same function, so blocks and edges are sound; the tests don't read it.
pub fn validate_ssa<A: Allocator + Copy, F: Function, B: Allocator>(
    alloc: A,
    f: &F,
    _cfginfo: &CFGInfo<B>,
) -> Result<(), RegAllocError>
    requires { IsInfoOf (F.function f.now) _cfginfo.now }
    ensures sound { OnOk result (HasSoundness (F.function f.now)) }
    ensures refused { IfErr result (λ e. (e ≡ RegAllocError.Memory) ⊎ IsSoundnessFault (F.function f.now) e) }
    ensures accepted { HasSoundness (F.function f.now) → IfErr result (λ e. e ≡ RegAllocError.Memory) }
{
    test_soundness(alloc, f)
}
