//! What each block writes, and its upward-exposed uses: what it reads or passes without writing it
//! before.

ghost use Rattle.std.specs.Prelude.{◌≡◌, ◌<◌, ◌&&◌, false, [], not, length, IfOk, OnOk};
ghost use Rattle.regalloc2_names.specs.Register.{VirtualRegister};
ghost use Rattle.regalloc2_function.specs.FunctionValue.{block_at};
ghost use Rattle.regalloc2_function.specs.WellFormed.{IsFramed};
ghost use Rattle.regalloc2_semantics.specs.Sound.{names};
ghost use Rattle.regalloc2_carry.specs.Listing.{defines};
ghost use Rattle.regalloc2_analysis.specs.Liveness.BlockVRegPairs.{Gains, Grows, holds};
ghost use Rattle.regalloc2_analysis.specs.Liveness.BlockWalk.{reads, asks_for_vreg, IsBlockWalkedTo, IsBlockWalked, AreWrites, AreAsked, PassesNeeds, AreParameters};

use super::needs::Needs;
use super::sets::BlockVRegs;
use regalloc2_function::Function;
use regalloc2_index::Block;
use regalloc2_names::{Operand, OperandPos, VReg};
use std::alloc::{AllocError, Allocator};

/// Adds to `needs` each vreg that `operands` read at `pos` and `block` hasn't written before.
fn ask_reads<A: Allocator + Copy>(
    operands: &[Operand],
    pos: OperandPos,
    block: Block,
    written: &BlockVRegs<A>,
    needs: &mut Needs<A>,
) -> Result<(), AllocError>
    ensures { OnOk result (Grows block (λ v. reads pos v operands.now && not (holds written.now (block, v))) needs.old needs.new) }
{
    for operand in operands {
        if operand.reads_at(pos) {
            needs.ask(written, block, operand.vreg())?;
        }
    }
    Ok(())
}

/// Notes the vregs that `operands` define as written by `block`.
fn write_definitions<A: Allocator + Copy>(
    operands: &[Operand],
    block: Block,
    written: &mut BlockVRegs<A>,
) -> Result<(), AllocError>
    ensures { OnOk result (Gains block (λ v. defines v operands.now) (holds written.old) (holds written.new)) }
{
    for operand in operands {
        if operand.is_def() {
            written.add(block, operand.vreg())?;
        }
    }
    Ok(())
}

/// Adds to `needs` the upward-exposed uses of the instruction of `operands`, and notes what it writes:
/// late reads find what it defines.
fn walk_inst<A: Allocator + Copy>(
    operands: &[Operand],
    block: Block,
    written: &mut BlockVRegs<A>,
    needs: &mut Needs<A>,
) -> Result<(), AllocError>
    ensures written { OnOk result (Gains block (λ v. defines v operands.now) (holds written.old) (holds written.new)) }
    ensures needs { OnOk result (Grows block (asks_for_vreg operands.now written.old block) needs.old needs.new) }
{
    ask_reads(operands, OperandPos::Early, block, written, needs)?;
    write_definitions(operands, block, written)?;
    ask_reads(operands, OperandPos::Late, block, written, needs)
}

/// Walks over the instructions of `block`.
fn walk_insts<A: Allocator + Copy, F: Function>(
    f: &F,
    block: Block,
    written: &mut BlockVRegs<A>,
    needs: &mut Needs<A>,
) -> Result<(), AllocError>
    requires framed { IsFramed (F.function f.now) }
    requires block { block < length (F.function f.now).blocks }
    requires fresh { (v : VirtualRegister) → holds written.old (block, v) ≡ false }
    ensures { OnOk result (IsBlockWalkedTo (F.function f.now) block (block_at (F.function f.now) block).range.end written.old needs.old written.new needs.new) }
{
    for inst in f.block_insns(block).iter() {
        walk_inst(f.inst_operands(inst), block, written, needs)?;
    }
    Ok(())
}

/// Adds to `needs` each of `arguments`, which `block` passes, that the block hasn't written.
fn ask_arguments<A: Allocator + Copy>(
    arguments: &[VReg],
    block: Block,
    written: &BlockVRegs<A>,
    needs: &mut Needs<A>,
) -> Result<(), AllocError>
    ensures { OnOk result (Grows block (λ v. names v arguments.now && not (holds written.now (block, v))) needs.old needs.new) }
{
    for argument in arguments {
        needs.ask(written, block, *argument)?;
    }
    Ok(())
}

/// Adds to `needs` each vreg that `block` passes to a successor and hasn't written.
fn ask_passed<A: Allocator + Copy, F: Function>(
    f: &F,
    block: Block,
    written: &BlockVRegs<A>,
    needs: &mut Needs<A>,
) -> Result<(), AllocError>
    requires framed { IsFramed (F.function f.now) }
    requires block { block < length (F.function f.now).blocks }
    ensures { OnOk result (PassesNeeds (F.function f.now) block (length (block_at (F.function f.now) block).succs) written.now needs.old needs.new) }
{
    let last = f.block_insns(block).last();
    for k in 0..f.block_succs(block).len() {
        ask_arguments(f.branch_blockparams(block, last, k), block, written, needs)?;
    }
    Ok(())
}

/// Walks over the instructions of `block`, and then over what it passes.
fn walk_block<A: Allocator + Copy, F: Function>(
    f: &F,
    block: Block,
    written: &mut BlockVRegs<A>,
    needs: &mut Needs<A>,
) -> Result<(), AllocError>
    requires framed { IsFramed (F.function f.now) }
    requires block { block < length (F.function f.now).blocks }
    requires fresh { (v : VirtualRegister) → holds written.old (block, v) ≡ false }
    ensures { OnOk result (IsBlockWalked (F.function f.now) block written.old needs.old written.new needs.new) }
{
    walk_insts(f, block, written, needs)?;
    ask_passed(f, block, written, needs)
}

/// Walks over all blocks. Linear in operands and arguments.
pub fn walk_blocks<A: Allocator + Copy, F: Function>(
    f: &F,
    written: &mut BlockVRegs<A>,
    needs: &mut Needs<A>,
) -> Result<(), AllocError>
    requires framed { IsFramed (F.function f.now) }
    requires unwritten { written.old ≡ [] }
    requires none { needs.old ≡ [] }
    ensures written { OnOk result (AreWrites (F.function f.now) (length (F.function f.now).blocks) written.new) }
    ensures needs { OnOk result (AreAsked (F.function f.now) (length (F.function f.now).blocks) needs.new) }
{
    for b in 0..f.num_blocks() {
        walk_block(f, Block::new(b), written, needs)?;
    }
    Ok(())
}

/// Notes `params`, the parameters of `block`.
fn note_params<A: Allocator + Copy>(
    params: &[VReg],
    block: Block,
    noted: &mut BlockVRegs<A>,
) -> Result<(), AllocError>
    ensures { OnOk result (Gains block (λ v. names v params.now) (holds noted.old) (holds noted.new)) }
{
    for param in params {
        noted.add(block, *param)?;
    }
    Ok(())
}

/// Returns the parameters of all blocks.
pub fn all_params<A: Allocator + Copy, F: Function>(
    alloc: A,
    f: &F,
) -> Result<BlockVRegs<A>, AllocError>
    ensures { IfOk result (AreParameters (F.function f.now) (length (F.function f.now).blocks)) }
{
    let mut params = BlockVRegs::new(alloc);
    for b in 0..f.num_blocks() {
        let block = Block::new(b);
        note_params(f.block_params(block), block, &mut params)?;
    }
    Ok(params)
}
