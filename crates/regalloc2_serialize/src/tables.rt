//! A function with the machine that it is for, as they are stored.

ghost use Rattle.std.specs.Prelude.{◌≡◌, ◌≤◌, ◌<◌, ◌-◌, All, length, vec_len};

use super::table_function::TableFunction;
use regalloc2_function::{Function, MachineEnv};
use regalloc2_index::{Block, Inst, InstRange};
use regalloc2_names::{Operand, PRegSet, RegClass, VReg};
use std::alloc::{Allocator, Global};

/// A function that was stored, or is to be stored, with the machine that it is for.
///
/// Upstream's type of this name, without its traits of `serde`.
#[derive(Debug, Drop)]
pub struct SerializableFunction<A: Allocator = Global> {
    pub(crate) machine: MachineEnv<A>,
    pub(crate) function: TableFunction<A>,
    pub ghost rises: { All (λ b. b.range.first ≤ b.range.end) function.blocks.items },
    pub ghost ends_within: { All (λ b. b.range.end ≤ vec_len function.insts) function.blocks.items },
    pub ghost arguments_counted: { All (λ b. length b.arguments.items ≡ length b.succs.items) function.blocks.items },
}

impl<A: Allocator> Function for SerializableFunction<A> {
    ghost use Rattle.regalloc2_serialize.specs.Tables.{function_of_serializable};
    ghost use Rattle.regalloc2_serialize.specs.TableFunction.TableLimits.{limited_table};

    ghost function = { function_of_serializable };

    fn num_insts(&self) -> usize {
        self.function.num_insts()
    }

    fn num_blocks(&self) -> usize {
        self.function.num_blocks()
    }

    fn num_vregs(&self) -> usize {
        self.function.num_vregs()
    }

    fn entry_block(&self) -> Block {
        self.function.entry_block()
    }

    fn block_insns(&self, block: Block) -> InstRange {
        self.function.block_insns(block)
    }

    fn block_succs(&self, block: Block) -> &[Block] {
        self.function.block_succs(block)
    }

    fn block_preds(&self, block: Block) -> &[Block] {
        self.function.block_preds(block)
    }

    fn block_params(&self, block: Block) -> &[VReg] {
        self.function.block_params(block)
    }

    fn is_ret(&self, inst: Inst) -> bool {
        self.function.is_ret(inst)
    }

    fn is_branch(&self, inst: Inst) -> bool {
        self.function.is_branch(inst)
    }

    fn branch_blockparams(&self, block: Block, inst: Inst, succ_idx: usize) -> &[VReg] {
        self.function.branch_blockparams(block, inst, succ_idx)
    }

    fn inst_operands(&self, inst: Inst) -> &[Operand] {
        self.function.inst_operands(inst)
    }

    fn inst_clobbers(&self, inst: Inst) -> PRegSet {
        self.function.inst_clobbers(inst)
    }

    fn debug_value_labels(&self) -> &[(VReg, Inst, Inst, u32)] {
        self.function.debug_value_labels()
    }

    fn spillslot_size(&self, regclass: RegClass) -> usize {
        self.function.spillslot_size(regclass)
    }

    fn multi_spillslot_named_by_last_slot(&self) -> bool {
        self.function.multi_spillslot_named_by_last_slot()
    }

    fn allow_multiple_vreg_defs(&self) -> bool {
        self.function.allow_multiple_vreg_defs()
    }

    ghost limited = { λ f. limited_table f.function };
}
