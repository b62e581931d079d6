//! Functions laid out in columns: a header says how long each is, so that they are read into one list each.
//!
//! `specs/Flat/Columns.antt` has the layout and the function that words lay out.

mod cut;
mod kinds;
mod pieces;
mod read;
mod sound;
mod typed;

ghost use Rattle.std.specs.Prelude.{◌≡◌, ℕ, ◌+◌, ◌/◌, ◌<◌, ◌≤◌, ◌^◌, All, slice_index, vec_len};

use crate::table_function::SlotUnits;
use kinds::{BRANCH, RET, SET_STEP};
use pieces::Pieces;
use regalloc2_function::{Function, MachineEnv};
use regalloc2_index::{Block, Inst, InstRange};
use regalloc2_names::{Operand, PRegSet, RegClass, VReg};
use std::alloc::{Allocator, Global};

/// A function that was laid out in columns, with the machine that it is for. Each list is one of its parts.
#[derive(Drop)]
pub struct FlatFunction<A: Allocator = Global> {
    pub(crate) machine: MachineEnv<A>,
    pub(crate) kinds: Vec<u32, A>,
    pub(crate) sets: Vec<PRegSet, A>,
    pub(crate) operands: Pieces<Operand, A>,
    pub(crate) inst_bounds: Vec<u32, A>,
    pub(crate) preds: Pieces<Block, A>,
    pub(crate) succs: Pieces<Block, A>,
    pub(crate) params: Pieces<VReg, A>,
    pub(crate) arguments: Pieces<VReg, A>,
    pub(crate) entry: Block,
    pub(crate) num_vregs: usize,
    pub(crate) int_slot: SlotUnits,
    pub(crate) float_slot: SlotUnits,
    pub(crate) vector_slot: SlotUnits,
    pub(crate) labels: Vec<(VReg, Inst, Inst, u32), A>,
    pub(crate) named_by_last_slot: bool,
    pub(crate) allows_multiple_defs: bool,
    pub ghost few_insts: { vec_len kinds < 2 ^ 30 },
    pub ghost few_blocks: { vec_len inst_bounds < 2 ^ 32 },
    pub ghost few_vregs: { num_vregs < 2 ^ 30 },
    pub ghost labels_below: { All (λ l. l.0.number < num_vregs) labels.items },
    pub ghost set_of_each: { All (λ k. k / 4 < vec_len sets) kinds.items },
    pub ghost operands_of_each: { vec_len operands.bounds ≡ vec_len kinds + 1 },
    pub ghost insts_rise: { (k : ℕ) → k + 1 < vec_len inst_bounds → slice_index inst_bounds.items k ≤ slice_index inst_bounds.items (k + 1) },
    pub ghost bounded: { 1 ≤ vec_len inst_bounds },
    pub ghost preds_of_each: { vec_len preds.bounds ≡ vec_len inst_bounds },
    pub ghost succs_of_each: { vec_len succs.bounds ≡ vec_len inst_bounds },
    pub ghost params_of_each: { vec_len params.bounds ≡ vec_len inst_bounds },
    pub ghost arguments_of_each: { vec_len arguments.bounds ≡ vec_len succs.items + 1 },
}

impl<A: Allocator> Function for FlatFunction<A> {
    ghost use Rattle.regalloc2_serialize.specs.Flat.Columns.Kept.{function_of_flat};
    ghost use Rattle.regalloc2_serialize.specs.Flat.Columns.Limits.{limited_flat};

    ghost function = { function_of_flat };

    fn num_insts(&self) -> usize {
        self.kinds.len()
    }

    fn num_blocks(&self) -> usize {
        self.inst_bounds.len() - 1
    }

    fn num_vregs(&self) -> usize {
        self.num_vregs
    }

    fn entry_block(&self) -> Block {
        self.entry
    }

    fn block_insns(&self, block: Block) -> InstRange {
        let first = self.inst_bounds[block.index()];
        let end = self.inst_bounds[block.index() + 1];
        InstRange::new(Inst::new(first as usize), Inst::new(end as usize))
    }

    fn block_succs(&self, block: Block) -> &[Block] {
        self.succs.part(block.index())
    }

    fn block_preds(&self, block: Block) -> &[Block] {
        self.preds.part(block.index())
    }

    fn block_params(&self, block: Block) -> &[VReg] {
        self.params.part(block.index())
    }

    fn is_ret(&self, inst: Inst) -> bool {
        self.kinds[inst.index()] % SET_STEP == RET
    }

    fn is_branch(&self, inst: Inst) -> bool {
        self.kinds[inst.index()] % SET_STEP == BRANCH
    }

    fn branch_blockparams(&self, block: Block, _inst: Inst, succ_idx: usize) -> &[VReg] {
        let first = self.succs.bounds[block.index()] as usize;
        self.arguments.part(first + succ_idx)
    }

    fn inst_operands(&self, inst: Inst) -> &[Operand] {
        self.operands.part(inst.index())
    }

    fn inst_clobbers(&self, inst: Inst) -> PRegSet {
        self.sets[(self.kinds[inst.index()] / SET_STEP) as usize]
    }

    fn debug_value_labels(&self) -> &[(VReg, Inst, Inst, u32)] {
        &self.labels
    }

    fn spillslot_size(&self, regclass: RegClass) -> usize {
        match regclass {
            RegClass::Int => self.int_slot.units,
            RegClass::Float => self.float_slot.units,
            RegClass::Vector => self.vector_slot.units,
        }
    }

    fn multi_spillslot_named_by_last_slot(&self) -> bool {
        self.named_by_last_slot
    }

    fn allow_multiple_vreg_defs(&self) -> bool {
        self.allows_multiple_defs
    }

    ghost limited = { λ f. limited_flat f };
}
