//! Small functions by hand.

ghost use Rattle.std.specs.Prelude.{◌≡◌, ◌<◌, ◌≤◌, ◌^◌, ◌-◌, [], false, IfOk, IsTrue, map, vec_len};
ghost use Rattle.std.specs.Int.{is_power_of_two};
ghost use Rattle.regalloc2_names.specs.Register.{Register, has_register};
ghost use Rattle.regalloc2_serialize.specs.TableFunction.Table.{function_of_table, inst_of_table, block_of_table, sizes_of_table};

use super::super::data::InstOpcode;
use super::table::{SlotUnits, TableBlock, TableFunction, TableInst};
use regalloc2_index::{Block, InstRange};
use regalloc2_names::{Operand, PRegSet};
use std::alloc::{AllocError, Allocator};

/// Returns an instruction with the operands `operands` and no clobbers.
fn inst<A: Allocator + Copy>(
    alloc: A,
    operands: &[Operand],
    op: InstOpcode,
) -> Result<TableInst<A>, AllocError>
    ensures operands { IfOk result (λ i. i.operands.items ≡ operands.now) }
    ensures clobbers { IfOk result (λ i. (r : Register) → has_register i.clobbers r ≡ false) }
    ensures op { IfOk result (λ i. i.op ≡ op) }
{
    Ok(TableInst {
        operands: operands.to_vec(alloc)?,
        clobbers: PRegSet::empty(),
        op,
    })
}

/// Returns an instruction with the operands `operands` that goes on to the next one.
pub fn op<A: Allocator + Copy>(alloc: A, operands: &[Operand]) -> Result<TableInst<A>, AllocError>
    ensures operands { IfOk result (λ i. i.operands.items ≡ operands.now) }
    ensures clobbers { IfOk result (λ i. (r : Register) → has_register i.clobbers r ≡ false) }
    ensures op { IfOk result (λ i. i.op ≡ InstOpcode.Op) }
{
    inst(alloc, operands, InstOpcode::Op)
}

/// Returns a branch with the operands `operands`: an instruction that goes on to a successor of its block.
pub fn branch<A: Allocator + Copy>(
    alloc: A,
    operands: &[Operand],
) -> Result<TableInst<A>, AllocError>
    ensures operands { IfOk result (λ i. i.operands.items ≡ operands.now) }
    ensures clobbers { IfOk result (λ i. (r : Register) → has_register i.clobbers r ≡ false) }
    ensures op { IfOk result (λ i. i.op ≡ InstOpcode.Branch) }
{
    inst(alloc, operands, InstOpcode::Branch)
}

/// Returns a return with the operands `operands`.
pub fn ret<A: Allocator + Copy>(alloc: A, operands: &[Operand]) -> Result<TableInst<A>, AllocError>
    ensures operands { IfOk result (λ i. i.operands.items ≡ operands.now) }
    ensures clobbers { IfOk result (λ i. (r : Register) → has_register i.clobbers r ≡ false) }
    ensures op { IfOk result (λ i. i.op ≡ InstOpcode.Ret) }
{
    inst(alloc, operands, InstOpcode::Ret)
}

impl<A: Allocator + Copy> TableBlock<A> {
    /// Returns a block of the instructions of `range` that no block follows or precedes, without parameters.
    pub fn alone(alloc: A, range: InstRange) -> TableBlock<A>
        ensures { block_of_table result ≡ record { range = range; succs = []; preds = []; params = []; arguments = [] } }
    {
        TableBlock {
            range,
            succs: Vec::new(alloc),
            preds: Vec::new(alloc),
            params: Vec::new(alloc),
            arguments: Vec::new(alloc),
        }
    }
}

impl SlotUnits {
    /// Returns the size of `units` units, a power of two from 1 to 2^24.
    pub fn new(units: usize) -> SlotUnits
        requires positive { 1 ≤ units }
        requires at_most { units ≤ 2 ^ 24 }
        requires power_of_two { IsTrue (is_power_of_two units) }
        ensures { result.units ≡ units }
    {
        SlotUnits { units }
    }

    /// Returns the size of one unit.
    pub fn one() -> SlotUnits
        ensures { result.units ≡ 1 }
    {
        SlotUnits::new(1)
    }

    /// Returns the size of two units.
    pub fn two() -> SlotUnits
        ensures { result.units ≡ 2 }
    {
        SlotUnits::new(2)
    }
}

impl<A: Allocator> TableFunction<A> {
    /// Returns the function of `blocks` and `insts` that starts at block 0. `slots` has the sizes of slots for
    /// integers, floating-point numbers and vectors, which are named by their first units. Vregs are below `num_vregs`
    /// and have one definition, and there are no labels.
    pub fn of_blocks(
        alloc: A,
        num_vregs: usize,
        slots: (SlotUnits, SlotUnits, SlotUnits),
        blocks: Vec<TableBlock<A>, A>,
        insts: Vec<TableInst<A>, A>,
    ) -> TableFunction<A>
        requires blocks { vec_len blocks < 2 ^ 32 - 1 }
        requires insts { vec_len insts < 2 ^ 30 }
        requires vregs { num_vregs < 2 ^ 30 }
        ensures blocks { (function_of_table result).blocks ≡ map block_of_table blocks.items }
        ensures insts { (function_of_table result).insts ≡ map inst_of_table insts.items }
        ensures entry { (function_of_table result).entry ≡ 0 }
        ensures vregs { (function_of_table result).num_vregs ≡ num_vregs }
        ensures slots { (function_of_table result).slot_sizes ≡ sizes_of_table slots.0 slots.1 slots.2 }
        ensures named { (function_of_table result).named_by_last_slot ≡ false }
        ensures labels { (function_of_table result).labels ≡ [] }
        ensures multiple { (function_of_table result).allows_multiple_defs ≡ false }
    {
        let (int_slot, float_slot, vector_slot) = slots;
        TableFunction {
            blocks,
            insts,
            entry: Block::new(0),
            num_vregs,
            int_slot,
            float_slot,
            vector_slot,
            named_by_last_slot: false,
            labels: Vec::new(alloc),
            allows_multiple_defs: false,
        }
    }
}
