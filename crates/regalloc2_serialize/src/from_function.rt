//! Copies the parts of a function, or all of it to be stored.

ghost use Rattle.std.specs.Prelude.{◌≡◌, ◌&&◌, not, ◌+◌, ◌<◌, IfOk, IfErr, length, map};
ghost use Rattle.regalloc2_function.specs.FunctionValue.{block_at, inst_at, slot_size};
ghost use Rattle.regalloc2_function.specs.Views.{machine_of};
ghost use Rattle.regalloc2_serialize.specs.CopyOfFunction.{shown_block, shown_inst, shown_function, HasNonemptyBlocks, IsKeptWhole};
ghost use Rattle.regalloc2_serialize.specs.Opcode.{is_branch, is_ret};
ghost use Rattle.regalloc2_serialize.specs.TableFunction.Table.{inst_of_table, block_of_table};
ghost use Rattle.regalloc2_serialize.specs.Tables.{function_of_serializable};

use super::data::InstOpcode;
use super::table_function::{SlotUnits, TableBlock, TableFunction, TableInst};
use super::tables::SerializableFunction;
use regalloc2_function::{Function, MachineEnv};
use regalloc2_index::{Block, Inst};
use regalloc2_names::{RegAllocError, RegClass, VReg};
use std::alloc::{AllocError, Allocator};

/// Returns the arguments that `block` passes to each of its successors.
pub fn copied_arguments<F: Function, A: Allocator + Copy>(
    alloc: A,
    f: &F,
    block: Block,
) -> Result<Vec<Vec<VReg, A>, A>, AllocError>
    requires block { block < length (F.function f.now).blocks }
    requires nonempty { (block_at (F.function f.now) block).range.first < (block_at (F.function f.now) block).range.end }
    ensures { IfOk result (λ arguments. map (λ v. v.items) arguments.items ≡ (shown_block (block_at (F.function f.now) block)).arguments) }
{
    let last = f.block_insns(block).last();
    let count = f.block_succs(block).len();
    let mut arguments = Vec::with_capacity(alloc, count)?;
    for k in 0..count {
        let passed = f.branch_blockparams(block, last, k).to_vec(alloc)?;
        arguments.push(passed)?;
    }
    Ok(arguments)
}

/// Returns a copy of `block`.
fn copied_block<F: Function, A: Allocator + Copy>(
    alloc: A,
    f: &F,
    block: Block,
) -> Result<TableBlock<A>, AllocError>
    requires block { block < length (F.function f.now).blocks }
    requires nonempty { (block_at (F.function f.now) block).range.first < (block_at (F.function f.now) block).range.end }
    ensures { IfOk result (λ table. block_of_table table ≡ shown_block (block_at (F.function f.now) block)) }
{
    Ok(TableBlock {
        range: f.block_insns(block),
        succs: f.block_succs(block).to_vec(alloc)?,
        preds: f.block_preds(block).to_vec(alloc)?,
        params: f.block_params(block).to_vec(alloc)?,
        arguments: copied_arguments(alloc, f, block)?,
    })
}

/// Returns copies of all blocks.
fn copied_blocks<F: Function, A: Allocator + Copy>(
    alloc: A,
    f: &F,
) -> Result<Vec<TableBlock<A>, A>, AllocError>
    requires { HasNonemptyBlocks (F.function f.now) }
    ensures blocks { IfOk result (λ tables. map block_of_table tables.items ≡ map shown_block (F.function f.now).blocks) }
    ensures count { IfOk result (λ tables. length tables.items ≡ length (F.function f.now).blocks) }
{
    let mut tables = Vec::with_capacity(alloc, f.num_blocks())?;
    for block in 0..f.num_blocks() {
        let copy = copied_block(alloc, f, Block::new(block))?;
        tables.push(copy)?;
    }
    Ok(tables)
}

/// Returns what an instruction does to the control flow: `returns`, or else `branches`.
fn opcode_of(branches: bool, returns: bool) -> InstOpcode
    ensures branch { is_branch result ≡ (not returns && branches) }
    ensures ret { is_ret result ≡ returns }
{
    if returns {
        InstOpcode::Ret
    } else if branches {
        InstOpcode::Branch
    } else {
        InstOpcode::Op
    }
}

/// Returns a copy of `inst`. An instruction that is both a branch and a return becomes a return.
pub fn copied_inst<F: Function, A: Allocator + Copy>(
    alloc: A,
    f: &F,
    inst: Inst,
) -> Result<TableInst<A>, AllocError>
    requires { inst < length (F.function f.now).insts }
    ensures { IfOk result (λ table. inst_of_table table ≡ shown_inst (inst_at (F.function f.now) inst)) }
{
    Ok(TableInst {
        operands: f.inst_operands(inst).to_vec(alloc)?,
        clobbers: f.inst_clobbers(inst),
        op: opcode_of(f.is_branch(inst), f.is_ret(inst)),
    })
}

/// Returns copies of all instructions.
fn copied_insts<F: Function, A: Allocator + Copy>(
    alloc: A,
    f: &F,
) -> Result<Vec<TableInst<A>, A>, AllocError>
    ensures insts { IfOk result (λ tables. map inst_of_table tables.items ≡ map shown_inst (F.function f.now).insts) }
    ensures count { IfOk result (λ tables. length tables.items ≡ length (F.function f.now).insts) }
{
    let mut tables = Vec::with_capacity(alloc, f.num_insts())?;
    for inst in 0..f.num_insts() {
        let copy = copied_inst(alloc, f, Inst::new(inst))?;
        tables.push(copy)?;
    }
    Ok(tables)
}

/// Returns the size of a slot for `class`.
pub fn copied_units<F: Function>(f: &F, class: RegClass) -> SlotUnits
    ensures { result.units ≡ slot_size (F.function f.now).slot_sizes class }
{
    SlotUnits {
        units: f.spillslot_size(class),
    }
}

impl<A: Allocator + Copy> SerializableFunction<A> {
    /// Copies `f`, to be stored with its machine, `env`.
    ///
    /// Each block of `f` has instructions, and they are among the function's. Stored data have no instruction that is
    /// both a branch and a return: the copy has a return there, as upstream's has. Everything else is kept: if no
    /// instruction is both, and each block has a list of arguments for each successor, the copy's value is the value
    /// of `f`.
    ///
    /// # Errors
    ///
    /// `Memory` if memory runs out, and nothing else.
    pub fn new<F: Function>(
        alloc: A,
        f: &F,
        env: MachineEnv<A>,
    ) -> Result<SerializableFunction<A>, RegAllocError>
        requires { HasNonemptyBlocks (F.function f.now) }
        ensures function { IfOk result (λ s. function_of_serializable s ≡ shown_function (F.function f.now)) }
        ensures whole { IsKeptWhole (F.function f.now) → IfOk result (λ s. function_of_serializable s ≡ F.function f.now) }
        ensures machine { IfOk result (λ s. machine_of s.machine ≡ machine_of env) }
        ensures memory { IfErr result (λ e. e ≡ RegAllocError.Memory) }
    {
        let blocks = copied_blocks(alloc, f)?;
        let insts = copied_insts(alloc, f)?;
        let labels = f.debug_value_labels().to_vec(alloc)?;
        let function = TableFunction {
            blocks,
            insts,
            entry: f.entry_block(),
            num_vregs: f.num_vregs(),
            int_slot: copied_units(f, RegClass::Int),
            float_slot: copied_units(f, RegClass::Float),
            vector_slot: copied_units(f, RegClass::Vector),
            named_by_last_slot: f.multi_spillslot_named_by_last_slot(),
            labels,
            allows_multiple_defs: f.allow_multiple_vreg_defs(),
        };
        Ok(SerializableFunction {
            machine: env,
            function,
        })
    }
}
