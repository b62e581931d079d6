//! The search for a path from the entry to a block that reads or passes a vreg, without a write of the
//! vreg before.

ghost use Rattle.std.specs.Prelude.{◌≡◌, ◌<◌, ◌↔◌, ℕ, All, Any, length, true, Contains, IfOk, IfSome, IsTrue, OnOk};
ghost use Rattle.regalloc2_function.specs.FunctionValue.{FunctionValue, block_at};
ghost use Rattle.regalloc2_semantics.specs.Runs.{first_of, arguments_at};
ghost use Rattle.regalloc2_function.specs.WellFormed.{IsFramed};
ghost use Rattle.regalloc2_names.specs.Operand.{is_def, reads_at};
ghost use Rattle.regalloc2_names.specs.Register.{VirtualRegister};
ghost use Rattle.regalloc2_carry.specs.Blocks.{IsUnwritten};
ghost use Rattle.regalloc2_analysis.specs.Liveness.LiveIn.{IsNeeded};
ghost use Rattle.regalloc2_analysis.specs.Liveness.Search.{LeadsBack};

use crate::marks::{is_marked, mark};
use regalloc2_function::Function;
use regalloc2_index::Block;
use regalloc2_names::{Operand, OperandPos, VReg};
use std::alloc::{AllocError, Allocator};

/// Returns `true` if `operand` reads `vreg` at `pos`.
fn reads(operand: Operand, pos: OperandPos, vreg: VReg) -> bool
    ensures { IsTrue result ↔ ((reads_at pos operand ≡ true) × (operand.vreg ≡ vreg)) }
{
    operand.reads_at(pos) && operand.vreg() == vreg
}

/// Returns `true` if one of `operands` reads `vreg` at `pos`.
fn is_read(operands: &[Operand], pos: OperandPos, vreg: VReg) -> bool
    ensures { result ≡ true → Any (λ o. (reads_at pos o ≡ true) × (o.vreg ≡ vreg)) operands.now }
{
    for operand in operands {
        if reads(*operand, pos, vreg) {
            return true;
        }
    }
    false
}

/// Returns `true` if one of `operands` defines `vreg`.
#[inline]
fn is_defined(operands: &[Operand], vreg: VReg) -> bool
    ensures { IsTrue result ↔ Any (λ o. (is_def o.kind ≡ true) × (o.vreg ≡ vreg)) operands.now }
{
    operands
        .iter()
        .any(|operand| operand.is_def() && operand.vreg() == vreg)
}

/// Returns `true` if `vreg` is one of `vregs`.
fn is_named(vregs: &[VReg], vreg: VReg) -> bool
    ensures { IsTrue result ↔ Contains vregs.now vreg }
{
    vregs.contains(&vreg)
}

/// Returns `true` if no instruction of `block` defines `vreg`.
fn is_unwritten<F: Function>(f: &F, block: Block, vreg: VReg) -> bool
    requires framed { IsFramed (F.function f.now) }
    requires block { block < length (F.function f.now).blocks }
    ensures { result ≡ true → IsUnwritten (F.function f.now) block vreg }
{
    for inst in f.block_insns(block).iter() {
        if is_defined(f.inst_operands(inst), vreg) {
            return false;
        }
    }
    true
}

/// Returns `true` if `block` passes `vreg` on an edge.
fn is_passed<F: Function>(f: &F, block: Block, vreg: VReg) -> bool
    requires framed { IsFramed (F.function f.now) }
    requires block { block < length (F.function f.now).blocks }
    ensures { result ≡ true → (k : ℕ) × (k < length (block_at (F.function f.now) block).succs) × Contains (arguments_at (F.function f.now) block k) vreg }
{
    let last = f.block_insns(block).last();
    for k in 0..f.block_succs(block).len() {
        if is_named(f.branch_blockparams(block, last, k), vreg) {
            return true;
        }
    }
    false
}

/// Returns `true` if `block` reads or passes `vreg` without a definition before.
fn is_asked<F: Function>(f: &F, block: Block, vreg: VReg) -> bool
    requires framed { IsFramed (F.function f.now) }
    requires block { block < length (F.function f.now).blocks }
    ensures { result ≡ true → IsNeeded (F.function f.now) vreg (first_of (F.function f.now) block) }
{
    for inst in f.block_insns(block).iter() {
        let operands = f.inst_operands(inst);
        if is_read(operands, OperandPos::Early, vreg) {
            return true;
        }
        if is_defined(operands, vreg) {
            return false;
        }
        if is_read(operands, OperandPos::Late, vreg) {
            return true;
        }
    }
    is_passed(f, block, vreg)
}

/// Marks the unmarked successors of `block` that don't have `vreg` as a parameter, and adds them to the
/// work: to `near` if their numbers are below the number of `sought`, else to `far`. Returns `true` as
/// soon as one of them is `sought`.
fn add_succs<A: Allocator, F: Function>(
    f: &F,
    block: Block,
    vreg: VReg,
    sought: Block,
    marked: &mut [bool],
    near: &mut Vec<Block, A>,
    far: &mut Vec<Block, A>,
) -> Result<bool, AllocError>
    requires framed { IsFramed (F.function f.now) }
    requires block { block < length (F.function f.now).blocks }
    requires unwritten { IsUnwritten (F.function f.now) block vreg }
    requires here { LeadsBack (F.function f.now) vreg block }
    requires near { All (LeadsBack (F.function f.now) vreg) near.old.items }
    requires far { All (LeadsBack (F.function f.now) vreg) far.old.items }
    ensures near { OnOk result (All (LeadsBack (F.function f.now) vreg) near.new.items) }
    ensures far { OnOk result (All (LeadsBack (F.function f.now) vreg) far.new.items) }
    ensures found { IfOk result (λ b. b ≡ true → LeadsBack (F.function f.now) vreg sought) }
{
    for succ in f.block_succs(block) {
        if is_marked(marked, succ.index()) || is_named(f.block_params(*succ), vreg) {
            continue;
        }
        if *succ == sought {
            return Ok(true);
        }
        mark(marked, succ.index());
        if succ.index() < sought.index() {
            near.push(*succ)?;
        } else {
            far.push(*succ)?;
        }
    }
    Ok(false)
}

/// Takes a block from `near`, or from `far` if `near` is empty.
fn take<A: Allocator>(near: &mut Vec<Block, A>, far: &mut Vec<Block, A>) -> Option<Block>
    ensures { (f : FunctionValue) (v : VirtualRegister) → All (LeadsBack f v) near.old.items → All (LeadsBack f v) far.old.items →
        All (LeadsBack f v) near.new.items × All (LeadsBack f v) far.new.items × IfSome result (LeadsBack f v) }
{
    match near.pop() {
        Some(block) => Some(block),
        None => far.pop(),
    }
}

/// Returns `true` if a path over blocks that don't define `vreg` comes from a block of `near` or `far` to
/// `sought`. Each block is marked once, so there are at most as many turns as blocks.
fn leads_on<A: Allocator, F: Function>(
    f: &F,
    vreg: VReg,
    sought: Block,
    marked: &mut [bool],
    near: &mut Vec<Block, A>,
    far: &mut Vec<Block, A>,
) -> Result<bool, AllocError>
    requires framed { IsFramed (F.function f.now) }
    requires near { All (LeadsBack (F.function f.now) vreg) near.old.items }
    requires far { All (LeadsBack (F.function f.now) vreg) far.old.items }
    ensures { IfOk result (λ b. b ≡ true → LeadsBack (F.function f.now) vreg sought) }
{
    for _ in 0..f.num_blocks() {
        let Some(at) = take(near, far) else {
            return Ok(false);
        };
        if !is_unwritten(f, at, vreg) {
            continue;
        }
        if add_succs(f, at, vreg, sought, marked, near, far)? {
            return Ok(true);
        }
    }
    Ok(false)
}

/// Returns `true` if `block` reads or passes `vreg` without a definition before, and a path from the
/// entry comes to `block` over blocks that don't define the vreg and edges that don't give it a value.
///
/// The search visits a block numbered above `block` only if no other block waits: in the usual order of
/// blocks, a path to `block` passes lower numbers alone.
///
/// Linear in the blocks, instructions, operands, parameters, arguments and edges. Takes a byte for each
/// block, and a word for each block that waits for its turn.
pub fn reads_early<A: Allocator + Copy, F: Function>(
    alloc: A,
    f: &F,
    block: Block,
    vreg: VReg,
) -> Result<bool, AllocError>
    requires { IsFramed (F.function f.now) }
    ensures { IfOk result (λ b. b ≡ true → IsNeeded (F.function f.now) vreg (first_of (F.function f.now) (F.function f.now).entry)) }
{
    if block.index() >= f.num_blocks() || !is_asked(f, block, vreg) {
        return Ok(false);
    }
    let entry = f.entry_block();
    if block == entry {
        return Ok(true);
    }
    let mut marked = Vec::from_elem(alloc, false, f.num_blocks())?;
    mark(marked.as_mut_slice(), entry.index());
    let mut near: Vec<Block, A> = Vec::new(alloc);
    near.push(entry)?;
    let mut far: Vec<Block, A> = Vec::new(alloc);
    leads_on(f, vreg, block, marked.as_mut_slice(), &mut near, &mut far)
}
