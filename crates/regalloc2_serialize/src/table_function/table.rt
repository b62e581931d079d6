//! A function that is kept in tables.

ghost use Rattle.std.specs.Prelude.{◌<◌, ◌≤◌, ◌^◌, ◌-◌, IsTrue, All, vec_len};
ghost use Rattle.std.specs.Int.{is_power_of_two};

use super::super::data::InstOpcode;
use regalloc2_function::Function;
use regalloc2_index::{Block, Inst, InstRange};
use regalloc2_names::{Operand, PRegSet, RegClass, VReg};
use std::alloc::{Allocator, Global};

/// An instruction.
#[derive(Debug, Drop)]
pub struct TableInst<A: Allocator = Global> {
    /// The operands.
    pub operands: Vec<Operand, A>,
    /// The registers that the instruction overwrites besides its operands.
    pub clobbers: PRegSet,
    /// What the instruction does to the control flow.
    pub op: InstOpcode,
}

/// A block.
#[derive(Debug, Drop)]
pub struct TableBlock<A: Allocator = Global> {
    /// The range of the block's instructions.
    pub range: InstRange,
    /// The successors.
    pub succs: Vec<Block, A>,
    /// The predecessors.
    pub preds: Vec<Block, A>,
    /// The parameters.
    pub params: Vec<VReg, A>,
    /// The arguments for each successor.
    pub arguments: Vec<Vec<VReg, A>, A>,
}

/// How many units a spill slot takes: a power of two from 1 to 2^24.
#[derive(Debug, Drop)]
pub struct SlotUnits {
    /// The number of units.
    pub units: usize,
    pub ghost positive: { 1 ≤ units },
    pub ghost at_most: { units ≤ 2 ^ 24 },
    pub ghost power_of_two: { IsTrue (is_power_of_two units) },
}

/// A function: its blocks and instructions by number.
#[derive(Debug, Drop)]
pub struct TableFunction<A: Allocator = Global> {
    /// The blocks.
    pub blocks: Vec<TableBlock<A>, A>,
    /// The instructions.
    pub insts: Vec<TableInst<A>, A>,
    /// The block at which the function starts.
    pub entry: Block,
    /// A number above that of each vreg that is defined.
    pub num_vregs: usize,
    /// The size of a slot for an integer.
    pub int_slot: SlotUnits,
    /// The size of a slot for a floating-point number.
    pub float_slot: SlotUnits,
    /// The size of a slot for a vector.
    pub vector_slot: SlotUnits,
    /// Whether a slot is named by its last unit.
    pub named_by_last_slot: bool,
    /// The labels of vregs, each from an instruction up to another.
    pub labels: Vec<(VReg, Inst, Inst, u32), A>,
    /// Whether a vreg may have several definitions.
    pub allows_multiple_defs: bool,
    pub ghost few_insts: { vec_len insts < 2 ^ 30 },
    pub ghost few_blocks: { vec_len blocks < 2 ^ 32 - 1 },
    pub ghost few_vregs: { num_vregs < 2 ^ 30 },
    pub ghost labels_below: { All (λ l. l.0.number < num_vregs) labels.items },
}

impl<A: Allocator> Function for TableFunction<A> {
    ghost use Rattle.regalloc2_serialize.specs.TableFunction.Table.{function_of_table};
    ghost use Rattle.regalloc2_serialize.specs.TableFunction.TableLimits.{limited_table};

    ghost function = { function_of_table };

    fn num_insts(&self) -> usize {
        self.insts.len()
    }

    fn num_blocks(&self) -> usize {
        self.blocks.len()
    }

    fn num_vregs(&self) -> usize {
        self.num_vregs
    }

    fn entry_block(&self) -> Block {
        self.entry
    }

    fn block_insns(&self, block: Block) -> InstRange {
        self.blocks[block.index()].range
    }

    fn block_succs(&self, block: Block) -> &[Block] {
        &self.blocks[block.index()].succs
    }

    fn block_preds(&self, block: Block) -> &[Block] {
        &self.blocks[block.index()].preds
    }

    fn block_params(&self, block: Block) -> &[VReg] {
        &self.blocks[block.index()].params
    }

    fn is_ret(&self, inst: Inst) -> bool {
        self.insts[inst.index()].op.is_ret()
    }

    fn is_branch(&self, inst: Inst) -> bool {
        self.insts[inst.index()].op.is_branch()
    }

    fn branch_blockparams(&self, block: Block, _inst: Inst, succ_idx: usize) -> &[VReg] {
        let arguments = self.blocks[block.index()].arguments.as_slice();
        if succ_idx < arguments.len() {
            &arguments[succ_idx]
        } else {
            &[]
        }
    }

    fn inst_operands(&self, inst: Inst) -> &[Operand] {
        &self.insts[inst.index()].operands
    }

    fn inst_clobbers(&self, inst: Inst) -> PRegSet {
        self.insts[inst.index()].clobbers
    }

    fn debug_value_labels(&self) -> &[(VReg, Inst, Inst, u32)] {
        &self.labels
    }

    fn spillslot_size(&self, regclass: RegClass) -> usize {
        match regclass {
            RegClass::Int => self.int_slot.units,
            RegClass::Float => self.float_slot.units,
            RegClass::Vector => self.vector_slot.units,
        }
    }

    fn multi_spillslot_named_by_last_slot(&self) -> bool {
        self.named_by_last_slot
    }

    fn allow_multiple_vreg_defs(&self) -> bool {
        self.allows_multiple_defs
    }

    ghost limited = { λ f. limited_table f };
}
