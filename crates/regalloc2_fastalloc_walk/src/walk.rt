//! The walk over all blocks, from the last to the first, and over the instructions of each.
//!
//! The walk goes backward: when it reaches an instruction, all later uses of each vreg are known, and
//! one place for each vreg is all that it has to remember. The first use that the walk meets
//! gives the vreg its location; a move from there fills the place of each other use, before its
//! instruction; and the definition, which the walk meets last, brings the value there. Therefore
//! liveness needs no analysis of its own, and no instruction is visited twice.

ghost use Rattle.std.specs.Prelude.{◌≡◌, ◌<◌, ◌+◌, ◌*◌, ◌↔◌, ◌&&◌, ◌++◌, ◌∷◌, [], if◌then◌else◌, length, slice_index_or, ℕ, IsTrue, OnOk, IfOk, IfErr};
ghost use Rattle.regalloc2_names.specs.Place.{before, inst_limit, NoPlace};
ghost use Rattle.regalloc2_function.specs.FunctionValue.{block_at, inst_at};
ghost use Rattle.regalloc2_fastalloc_proofs.specs.InstSteps.{ends_block};
ghost use Rattle.regalloc2_fastalloc_proofs.specs.BranchSteps.{AddsTempSlotsAtMost};
ghost use Rattle.regalloc2_fastalloc_state.specs.OutOfResources.{SlotsExhaustedWith, IsResourceError};
ghost use Rattle.regalloc2_analysis.specs.LiveRanges.LiveRanges.{IsWanted};
ghost use Rattle.regalloc2_fastalloc_walk.specs.Findings.{IsFound, PassesTests};
ghost use Rattle.regalloc2_fastalloc_walk.specs.BeforeSteps.{IsBeforeInst, IsBeforeNoting, IsBeforeBlock, IsBeforeBeginning, IsBeforeWalk};
ghost use Rattle.regalloc2_fastalloc_walk.specs.StateView.{Between, IsBranchStepAt, IsStepAt, ComesTo};
ghost use Rattle.regalloc2_fastalloc_proofs.specs.BlockSteps.{temp_slots_at, AllocInstInBlock, AllocBlock, BeginBlock, AllocBlocks, offset_of};

use super::inst::InstCx;
use super::state::State;
use regalloc2_analysis::branch_defs::BranchDefs;
use regalloc2_fastalloc_state::inst_regs::InstRegs;
use regalloc2_fastalloc_state::validate::constraints::is_sound_branch;
use regalloc2_function::Function;
use regalloc2_index::{Block, Inst};
use regalloc2_names::{Allocation, RegAllocError};
use std::alloc::Allocator;

/// The function that is walked, and what its branches define.
#[derive(Clone, Copy)]
pub struct FunctionCx<'f, F: Function, A: Allocator> {
    pub f: &'f F,
    pub defs: &'f BranchDefs<A>,
}

/// What the walk finds out of a function, beside the places of its operands.
#[derive(Drop)]
pub struct Found<A: Allocator> {
    /// Whether all operands pass their tests: none has `Limit`, and a branch defines only in
    /// registers that it names and in stack places.
    pub passes: bool,
    /// The instructions at which a watched vreg got its location or was left without one, the last
    /// instruction first. All other instructions define no watched vreg, and none is the last use
    /// of a watched vreg.
    pub changed: Vec<u32, A>,
}

impl<A: Allocator> Found<A> {
    /// Notes what was found at `inst`: whether its operands pass their tests, and whether a watched
    /// vreg's location changed there.
    #[inline(always)]
    fn note(&mut self, inst: Inst, passes: bool, is_changed: bool) -> Result<(), RegAllocError>
        requires { inst < inst_limit }
        ensures passes { OnOk result (self.new.passes ≡ (self.old.passes && passes)) }
        ensures changed { OnOk result (self.new.changed.items ≡ (if is_changed then self.old.changed.items ++ inst ∷ [] else self.old.changed.items)) }
        ensures err { IfErr result (λ e. e ≡ RegAllocError.Memory) }
    {
        self.passes &= passes;
        if is_changed {
            self.changed.push(inst.index() as u32)?;
        }
        Ok(())
    }
}

/// An instruction, and the index at which the places of its operands begin in the list of all operands' places.
#[derive(Clone, Copy)]
struct InstAt {
    inst: Inst,
    start: usize,
}

/// Whether `inst` is its block's last instruction. No move may follow it.
fn ends_block<F: Function>(f: &F, inst: Inst) -> bool
    requires { inst < length (F.function f.now).insts }
    ensures { result ≡ ends_block (inst_at (F.function f.now) inst) }
{
    f.is_branch(inst) || f.is_ret(inst)
}

impl<'a, A: Allocator> State<'a, A> {
    /// Allocates the instruction `at` of `block`. A branch passes its arguments.
    ///
    /// Returns whether its operands pass their tests. An operand under `Limit` requires any
    /// register, as under `Reg`.
    fn alloc_inst_in_block<F: Function, B: Allocator, C: Allocator>(
        &mut self,
        alloc: &B,
        cx: &FunctionCx<'_, F, C>,
        block: Block,
        at: InstAt,
        allocs: &mut [Allocation],
    ) -> Result<bool, RegAllocError>
        requires { IsBeforeInst (F.function cx.now.f.now) cx.now.defs.now block at.inst at.start allocs.old self.old }
        ensures outcome { ComesTo (AllocInstInBlock (F.function cx.now.f.now) block at.inst allocs.old) allocs.new result self.old self.new }
        ensures step { IsBranchStepAt (before at.inst) (temp_slots_at (F.function cx.now.f.now) at.inst) result self.old self.new }
        ensures passes { IfOk result (λ b. IsTrue b ↔ PassesTests (inst_at (F.function cx.now.f.now) at.inst)) }
    {
        let f = cx.f;
        let mut inst_regs = InstRegs::new(self.registers.available_regs());
        let operands = f.inst_operands(at.inst);
        let clobbers = f.inst_clobbers(at.inst);
        let ends_block = ends_block(f, at.inst);
        let inst_cx = InstCx {
            inst: at.inst,
            ends_block,
            operands,
            clobbers,
        };
        let unlimited = self.alloc_inst_at(&mut inst_regs, &inst_cx, at.start, allocs)?;
        if !f.is_branch(at.inst) {
            return Ok(unlimited);
        }
        self.process_branch(&mut inst_regs, alloc, cx, block, at.inst)?;
        let is_sound = is_sound_branch(f, at.inst);
        Ok(unlimited & is_sound)
    }

    /// Allocates the instruction `at` of `block`, and notes in `found` what is found at it.
    fn alloc_and_note<F: Function, B: Allocator, C: Allocator>(
        &mut self,
        alloc: &B,
        cx: &FunctionCx<'_, F, C>,
        block: Block,
        at: InstAt,
        allocs: &mut [Allocation],
        found: &mut Found<B>,
    ) -> Result<(), RegAllocError>
        requires { IsBeforeNoting (F.function cx.now.f.now) cx.now.defs.now block at.inst at.start allocs.old self.old found.old }
        ensures outcome { ComesTo (AllocInstInBlock (F.function cx.now.f.now) block at.inst allocs.old) allocs.new result self.old self.new }
        ensures step { IsBranchStepAt (before at.inst) (temp_slots_at (F.function cx.now.f.now) at.inst) result self.old self.new }
        ensures found { OnOk result (IsFound (F.function cx.now.f.now) (IsWanted self.old.places.watched) at.inst found.new) }
    {
        let inst = at.inst;
        let changes = self.places.changes();
        let passes = self.alloc_inst_in_block(alloc, cx, block, at, allocs)?;
        let is_changed = !self.places.is_unchanged(changes);
        found.note(inst, passes, is_changed)
    }

    /// Allocates the instructions of `block`, from the last to the first, and notes in `found` what
    /// is found.
    fn alloc_block<F: Function, B: Allocator, C: Allocator>(
        &mut self,
        alloc: &B,
        cx: &FunctionCx<'_, F, C>,
        block: Block,
        offsets: &[u32],
        allocs: &mut [Allocation],
        found: &mut Found<B>,
    ) -> Result<(), RegAllocError>
        requires { IsBeforeBlock (F.function cx.now.f.now) cx.now.defs.now block offsets.now allocs.old self.old found.old }
        ensures outcome { ComesTo (AllocBlock (F.function cx.now.f.now) block allocs.old) allocs.new result self.old self.new }
        ensures no_places { OnOk result ((k : ℕ) → k < offset_of (F.function cx.now.f.now) (block_at (F.function cx.now.f.now) block).range.first →
            slice_index_or allocs.new k NoPlace ≡ NoPlace) }
        ensures step { IsBranchStepAt (before (block_at (F.function cx.now.f.now) block).range.first) 6 result self.old self.new }
        ensures found { OnOk result (IsFound (F.function cx.now.f.now) (IsWanted self.old.places.watched)
            (block_at (F.function cx.now.f.now) block).range.first found.new) }
    {
        let range = cx.f.block_insns(block);
        let first = range.first().index();
        let mut i = range.end().index();
        while i > first {
            i -= 1;
            let at = InstAt {
                inst: Inst::new(i),
                start: offsets[i] as usize,
            };
            self.alloc_and_note(alloc, cx, block, at, allocs, found)?;
        }
        Ok(())
    }

    /// Adds the reloads at the beginning of `block`, and before them in the listing the stores of the
    /// definitions of the branch into it.
    fn begin_block<F: Function, B: Allocator, C: Allocator>(
        &mut self,
        alloc: &B,
        cx: &FunctionCx<'_, F, C>,
        block: Block,
    ) -> Result<(), RegAllocError>
        requires { IsBeforeBeginning (F.function cx.now.f.now) cx.now.defs.now block self.old }
        ensures outcome { ComesTo (BeginBlock (F.function cx.now.f.now) block) tt result self.old self.new }
        ensures step { IsStepAt (before (block_at (F.function cx.now.f.now) block).range.first) result self.old self.new }
    {
        let f = cx.f;
        let first = f.block_insns(block).first();
        self.reload_at_begin(first, f.block_params(block))?;
        self.store_branch_defs(alloc, f, cx.defs, block)
    }

    /// Allocates all instructions of `f`, from the last block to the first. The places of an
    /// instruction's operands begin in `allocs` at its offset in `offsets`. Returns what the walk
    /// finds out of the function.
    pub fn alloc_blocks<F: Function, B: Allocator + Copy>(
        &mut self,
        alloc: B,
        f: &F,
        offsets: &[u32],
        allocs: &mut [Allocation],
    ) -> Result<Found<B>, RegAllocError>
        requires { IsBeforeWalk (F.function f.now) offsets.now allocs.old self.old }
        ensures outcome { ComesTo (AllocBlocks (F.function f.now) allocs.old) allocs.new result self.old self.new }
        ensures machine { Between (AddsTempSlotsAtMost (6 * length (F.function f.now).blocks)) self.old self.new }
        ensures err { IfErr result (IsResourceError
            (SlotsExhaustedWith self.old.slots (self.old.slots.num_temp_slots + 6 * length (F.function f.now).blocks))) }
        ensures found { IfOk result (IsFound (F.function f.now) (IsWanted self.old.places.watched) 0) }
    {
        let defs = BranchDefs::of(alloc, f)?;
        let mut found = Found {
            passes: true,
            changed: Vec::new(alloc),
        };
        let cx = FunctionCx { f, defs: &defs };
        let mut b = f.num_blocks();
        while b > 0 {
            b -= 1;
            let block = Block::new(b);
            self.alloc_block(&alloc, &cx, block, offsets, allocs, &mut found)?;
            self.begin_block(&alloc, &cx, block)?;
        }
        Ok(found)
    }
}
