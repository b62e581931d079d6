//! A function that lends the same long list of operands for each of very many instructions.

ghost use Rattle.std.specs.Prelude.{◌<◌, ◌^◌};

use super::calls::run_fitting;
use super::random::{Random, any_machine};
use regalloc2::count_operands;
use regalloc2_function::Function;
use regalloc2_index::{Block, Inst, InstRange};
use regalloc2_names::{Operand, PRegSet, RegAllocError, RegClass, VReg};
use std::alloc::Global;

/// A function of `insts` instructions with the same operands, in one block, which isn't the entry.
#[derive(Drop)]
pub struct Same<'a> {
    /// What each instruction does.
    pub operands: &'a [Operand],
    /// What each instruction overwrites.
    pub clobbers: PRegSet,
    /// How many instructions there are.
    pub insts: usize,
    /// Where each block goes: nowhere, where `lend` makes it.
    pub succs: &'a [Block],
    pub ghost few: { insts < 2 ^ 30 },
}

impl Function for Same<'_> {
    ghost use Rattle.regalloc2_tests.specs.Same.{same_function, limited_same};

    ghost function = { same_function };

    fn num_insts(&self) -> usize {
        self.insts
    }

    fn num_blocks(&self) -> usize {
        1
    }

    fn num_vregs(&self) -> usize {
        1
    }

    fn entry_block(&self) -> Block {
        Block::new(1)
    }

    fn block_insns(&self, _block: Block) -> InstRange {
        InstRange::new(Inst::new(0), Inst::new(self.insts))
    }

    fn block_succs(&self, _block: Block) -> &[Block] {
        self.succs
    }

    fn block_preds(&self, _block: Block) -> &[Block] {
        &[]
    }

    fn block_params(&self, _block: Block) -> &[VReg] {
        &[]
    }

    fn is_ret(&self, _inst: Inst) -> bool {
        false
    }

    fn is_branch(&self, _inst: Inst) -> bool {
        false
    }

    fn branch_blockparams(&self, _block: Block, _inst: Inst, _succ_idx: usize) -> &[VReg] {
        &[]
    }

    fn inst_operands(&self, _inst: Inst) -> &[Operand] {
        self.operands
    }

    fn inst_clobbers(&self, _inst: Inst) -> PRegSet {
        self.clobbers
    }

    fn debug_value_labels(&self) -> &[(VReg, Inst, Inst, u32)] {
        &[]
    }

    fn spillslot_size(&self, _regclass: RegClass) -> usize {
        1
    }

    fn multi_spillslot_named_by_last_slot(&self) -> bool {
        false
    }

    fn allow_multiple_vreg_defs(&self) -> bool {
        false
    }

    ghost limited = { limited_same };
}

/// How many operands a function of `insts` instructions has that all lend one list of 2^15 operands, and
/// how a run rejects it. 2^32 operands, which no list holds, are rejected before anything is allocated, and
/// without a look at each operand. The machine has registers of each class, since a machine without is
/// tested against each operand.
pub fn lend(alloc: Global, insts: usize) -> Option<(Option<u32>, Option<RegAllocError>)>
    requires { insts < 2 ^ 30 }
{
    let operands = vec![in alloc; Operand::reg_use(VReg::new(0, RegClass::Int)); 32768].ok()?;
    let f = Same {
        operands: operands.as_slice(),
        clobbers: PRegSet::empty(),
        insts,
        succs: &[],
    };
    let (env, _) = any_machine(alloc, &mut Random::new(0))?;
    let refused = run_fitting(alloc, &f, &env)?.err();
    Some((count_operands(&f), refused))
}
