//! The moves of a branch: each argument goes to the slots of the parameters that it is passed to.

ghost use Rattle.regalloc2_semantics.specs.Sound.{HasEdge, target_at};
ghost use Rattle.std.specs.Prelude.{ℕ, List, ◌≡◌, ◌↔◌, ◌≢◌, ◌<◌, ◌+◌, ◌++◌, ◌∷◌, ◌⊎◌, [], None, Some, length, IsTrue, IfSome, IfErr, OnOk, OnErr, IfNone};
ghost use Rattle.std.specs.Prelude.{slice_index_or, true, MatchResult};
ghost use Rattle.regalloc2_names.specs.Place.{Place, NoPlace, InRegister, before};
ghost use Rattle.regalloc2_names.specs.Register.{Register, class_code, has_register};
ghost use Rattle.regalloc2_function.specs.FunctionValue.{block_at};
ghost use Rattle.regalloc2_parts.specs.AtOnce.{ends_of, HasOneSourceEach};
ghost use Rattle.regalloc2_parts.specs.Resolved.{moves_listed, with_place};
ghost use Rattle.regalloc2_fastalloc_proofs.specs.BranchSteps.{RegsAvoidStack, AreBetweenSlots, AreNextTempSlots, AreOf, ClassMove, OrderMoves};
ghost use Rattle.regalloc2_fastalloc_proofs.specs.BranchSteps.{IsScratchRegFor, AddsTempSlotsAtMost, PushMoves, SpillArgument, GatherEdge, GatherMoves};
ghost use Rattle.regalloc2_fastalloc_proofs.specs.BranchSteps.{PushAllClasses, ProcessBranch};
ghost use Rattle.regalloc2_fastalloc_state.specs.OutOfResources.{SlotsExhaustedWith, IsResourceError};
ghost use Rattle.regalloc2_parts.specs.ScratchPool.{DoDiffer, IsOfScratchPair};
ghost use Rattle.regalloc2_fastalloc_proofs.specs.InstSteps.{a_move, next, no_register};
ghost use Rattle.regalloc2_fastalloc_walk.specs.BeforeSteps.{IsBeforeAllMoves, IsBeforeEdge, IsBeforeGathering, IsBeforeMoves, IsBeforePassing};
ghost use Rattle.regalloc2_fastalloc_walk.specs.OwnDefs.{IsOwnBy, GatherArgument};
ghost use Rattle.regalloc2_fastalloc_walk.specs.StateView.{Between, IsBranchStepAt, IsStepAt, SameTables, tables_of, ComesTo, ComesToOne};
ghost use Rattle.regalloc2_fastalloc_state.specs.InstRegs.{is_free_throughout};
ghost use Rattle.regalloc2_fastalloc_state.specs.Choice.{chosen};
ghost use Rattle.regalloc2_fastalloc_state.specs.StateParts.{IsLeastRecentIn, NoneIsIn, AllAtOrAfter, lru_of};

use super::state::State;
use super::walk::FunctionCx;
use regalloc2_analysis::branch_defs::BranchDefs;
use regalloc2_fastalloc_state::inst_regs::InstRegs;
use regalloc2_fastalloc_state::positions::Positions;
use regalloc2_function::Function;
use regalloc2_index::{Block, Inst};
use regalloc2_names::{Allocation, PReg, PRegSet, ProgPoint, RegAllocError, RegClass, VReg};
use regalloc2_parts::moves::{MoveVec, MoveVecWithScratch, ParallelMoves};
use regalloc2_parts::scratch_pool::{ScratchPair, ScratchPool};
use std::alloc::Allocator;

/// The definitions of one branch.
#[derive(Clone, Copy)]
struct OwnDefs<'f, A: Allocator> {
    defs: &'f BranchDefs<A>,
    branch: Inst,
}

impl<A: Allocator> OwnDefs<'_, A> {
    /// Whether the branch defines `vreg`.
    fn has(&self, vreg: VReg) -> bool
        ensures { IsTrue result ↔ IsOwnBy self.now.defs.now self.now.branch vreg }
    {
        self.defs.is_defined_by(vreg, self.branch)
    }
}

/// Whether no edge out of `block` leads to a block with parameters.
fn passes_nothing<F: Function>(f: &F, block: Block) -> bool
    requires block { block < length (F.function f.now).blocks }
    requires targets { (k : ℕ) → HasEdge (F.function f.now) block k → target_at (F.function f.now) block k < length (F.function f.now).blocks }
    ensures { IsTrue result ↔ ((k : ℕ) → HasEdge (F.function f.now) block k →
        (block_at (F.function f.now) (target_at (F.function f.now) block k)).params ≡ []) }
{
    let succs = f.block_succs(block);
    for k in 0..succs.len() {
        if !f.block_params(succs[k]).is_empty() {
            return false;
        }
    }
    true
}

/// Whether there are no `moves`.
fn are_none<A: Allocator + Copy>(moves: &MoveVecWithScratch<(), A>) -> bool
    ensures same { IsTrue result → with_place NoPlace moves.now ≡ moves_listed moves.now }
    ensures none { IsTrue result ↔ (moves_listed moves.now ≡ []) }
{
    match moves {
        MoveVecWithScratch::NoScratch(list) => list.is_empty(),
        MoveVecWithScratch::Scratch(list) => list.is_empty(),
    }
}

/// The parallel moves of each class.
#[derive(Drop)]
struct MovesByClass<'b, B: Allocator> {
    int: ParallelMoves<(), &'b B>,
    float: ParallelMoves<(), &'b B>,
    vector: ParallelMoves<(), &'b B>,
}

/// Adds a move from `from` to `to`.
fn add_to<A: Allocator + Copy>(
    moves: &mut ParallelMoves<(), A>,
    from: Allocation,
    to: Allocation,
) -> Result<(), RegAllocError>
    requires from { from ≢ NoPlace }
    requires to { to ≢ NoPlace }
    ensures ok { OnOk result (moves.new ≡ moves.old ++ (from, to, tt) ∷ []) }
    ensures err { IfErr result (λ e. e ≡ RegAllocError.Memory) }
{
    match moves.add(from, to, ()) {
        Ok(()) => Ok(()),
        Err(_) => Err(RegAllocError::Memory),
    }
}

impl<'b, B: Allocator> MovesByClass<'b, B> {
    /// Makes the lists, without moves.
    fn none(alloc: &'b B) -> Self
        ensures { AreOf result.int result.float result.vector [] }
    {
        MovesByClass {
            int: ParallelMoves::new(alloc),
            float: ParallelMoves::new(alloc),
            vector: ParallelMoves::new(alloc),
        }
    }

    /// Adds a move of `class`.
    fn add(
        &mut self,
        class: RegClass,
        from: Allocation,
        to: Allocation,
    ) -> Result<(), RegAllocError>
        requires from { from ≢ NoPlace }
        requires to { to ≢ NoPlace }
        ensures ok { OnOk result ((given : List ClassMove) → AreOf self.old.int self.old.float self.old.vector given →
            AreOf self.new.int self.new.float self.new.vector (given ++ record { class = class; from = from; to = to } ∷ [])) }
        ensures err { IfErr result (λ e. e ≡ RegAllocError.Memory) }
    {
        match class {
            RegClass::Int => add_to(&mut self.int, from, to),
            RegClass::Float => add_to(&mut self.float, from, to),
            RegClass::Vector => add_to(&mut self.vector, from, to),
        }
    }
}

impl<'a, A: Allocator> State<'a, A> {
    /// The first scratch register for moves of `class`: the machine's dedicated one, else the
    /// register chosen from `free`.
    fn first_scratch(&self, class: RegClass, free: PRegSet) -> Option<PReg>
        ensures found { IfSome result (λ r. (slice_index_or self.now.registers.dedicated_scratch (class_code class) None ≡ Some r)
            ⊎ IsLeastRecentIn self.now.registers class free r) }
        ensures own { (r : Register) → slice_index_or self.now.registers.dedicated_scratch (class_code class) None ≡ Some r → result ≡ Some r }
        ensures chosen { slice_index_or self.now.registers.dedicated_scratch (class_code class) None ≡ None →
            result ≡ chosen (has_register free) (lru_of self.now.registers class) }
        ensures none { IfNone result (NoneIsIn self.now.registers class free) }
    {
        match self.registers.dedicated_scratch(class) {
            Some(preg) => Some(preg),
            None => self.registers.choose_register(class, free),
        }
    }

    /// The scratch registers for moves of `class`: registers that are free at both positions in
    /// `inst_regs`.
    fn scratch_regs(&self, inst_regs: &InstRegs, class: RegClass) -> ScratchPair
        ensures scratch_reserve { (p : Place) → IsOfScratchPair result p → IsScratchRegFor inst_regs.now (tables_of self.now) class p }
        ensures differ { DoDiffer result }
        ensures own { (r : Register) → slice_index_or self.now.registers.dedicated_scratch (class_code class) None ≡ Some r →
            result.first ≡ Some (InRegister r) }
        ensures all { (r : Register) → r.number < 64 → r.class ≡ class → has_register self.now.registers.allocatable r ≡ true →
            is_free_throughout inst_regs.now r ≡ true → (result.first ≢ None) × (result.second ≡ None → result.first ≡ Some (InRegister r)) }
    {
        let free = inst_regs.available_pregs(Positions::both());
        let Some(first) = self.first_scratch(class, free) else {
            return ScratchPair {
                first: None,
                second: None,
            };
        };
        let mut rest = free;
        rest.remove(first);
        ScratchPair {
            first: Some(Allocation::reg(first)),
            second: self
                .registers
                .choose_register(class, rest)
                .map(Allocation::reg),
        }
    }

    /// The temporary slots for moves of `class`.
    fn temp_slots(&self, class: RegClass) -> ScratchPair
        ensures { AreNextTempSlots self.now.slots class result }
    {
        ScratchPair {
            first: self.slots.next_temp_slot(class, 0),
            second: self.slots.next_temp_slot(class, 1),
        }
    }

    /// Orders `moves`, the parallel moves of `class`, so that they can be made one after another.
    fn order<'b, B: Allocator>(
        &mut self,
        inst_regs: &InstRegs,
        class: RegClass,
        moves: ParallelMoves<(), &'b B>,
    ) -> Result<MoveVec<(), &'b B>, RegAllocError>
        requires ends { AreBetweenSlots self.old.slots.count moves }
        requires one_source { HasOneSourceEach (ends_of moves) }
        requires apart { RegsAvoidStack (tables_of self.old) }
        ensures outcome { ComesToOne (OrderMoves inst_regs.now class moves.entry) (λ made. made.items) result self.old self.new }
        ensures unchanged { OnErr result (SameTables self.old self.new) }
        ensures err { IfErr result (IsResourceError (SlotsExhaustedWith self.old.slots (self.old.slots.num_temp_slots + 2))) }
    {
        let resolved = moves.resolve()?;
        if are_none(&resolved) {
            return Ok(resolved.with_scratch(Allocation::none()));
        }
        let Some(borrowed) = self.registers.preferred_victim(class) else {
            return Err(RegAllocError::TooManyLiveRegs);
        };
        let pool = ScratchPool {
            registers: self.scratch_regs(inst_regs, class),
            slots: self.temp_slots(class),
            fixed_stack: self.registers.fixed_stack(),
            borrowed,
        };
        let made = pool.compute(resolved)?;
        self.slots.add_temp_slots(class, made.slots);
        Ok(made.moves)
    }

    /// Orders `moves`, the parallel moves of `class`, and pushes them at `point`.
    #[inline(never)]
    fn push_some<'b, B: Allocator>(
        &mut self,
        inst_regs: &InstRegs,
        point: ProgPoint,
        class: RegClass,
        moves: ParallelMoves<(), &'b B>,
    ) -> Result<(), RegAllocError>
        requires { IsBeforeMoves point moves self.old }
        ensures outcome { ComesTo (PushMoves point inst_regs.now class moves.entry) tt result self.old self.new }
        ensures later { OnOk result (AllAtOrAfter point self.new.edits) }
        ensures machine { Between (AddsTempSlotsAtMost 2) self.old self.new }
        ensures err { IfErr result (IsResourceError (SlotsExhaustedWith self.old.slots (self.old.slots.num_temp_slots + 2))) }
    {
        let made = self.order(inst_regs, class, moves)?;
        self.edits.push_all(point, made.as_slice())
    }

    /// Pushes the slot-to-slot move from `from` to `to` by way of `by`, as two moves: the move
    /// pushed last is listed first. `push_some` would push the same moves, since both ends are on
    /// the stack and `by` is the first register that it would choose. Skipped is what only several
    /// moves need: ordering, a second register and temporary slots.
    #[inline(never)]
    fn push_one(
        &mut self,
        point: ProgPoint,
        from: Allocation,
        to: Allocation,
        by: PReg,
    ) -> Result<(), RegAllocError>
        requires { AllAtOrAfter point self.old.edits }
        ensures ok { OnOk result (self.new.edits ≡ self.old.edits ++ a_move point (InRegister by) to ∷ a_move point from (InRegister by) ∷ []) }
        ensures later { AllAtOrAfter point self.new.edits }
        ensures rest { tables_of self.new ≡ record (tables_of self.old) { edits = self.new.edits } }
        ensures err { IfErr result (λ e. e ≡ RegAllocError.Memory) }
    {
        let by = Allocation::reg(by);
        self.edits.push(point, by, to)?;
        self.edits.push(point, from, by)
    }

    /// Pushes `moves`, the parallel moves of `class`, at `point`.
    #[inline(always)]
    fn push_moves<'b, B: Allocator>(
        &mut self,
        inst_regs: &InstRegs,
        point: ProgPoint,
        class: RegClass,
        moves: ParallelMoves<(), &'b B>,
    ) -> Result<(), RegAllocError>
        requires { IsBeforeMoves point moves self.old }
        ensures outcome { ComesTo (PushMoves point inst_regs.now class moves.entry) tt result self.old self.new }
        ensures later { OnOk result (AllAtOrAfter point self.new.edits) }
        ensures machine { Between (AddsTempSlotsAtMost 2) self.old self.new }
        ensures err { IfErr result (IsResourceError (SlotsExhaustedWith self.old.slots (self.old.slots.num_temp_slots + 2))) }
    {
        if moves.is_empty() {
            // most branches have moves of one class, and an empty list isn't passed on to be
            // ordered
            return Ok(());
        }
        if let Some((from, to)) = moves.only() {
            if let Some(by) = self.first_scratch(
                class,
                inst_regs.available_pregs(Positions::both()),
            ) {
                return self.push_one(point, from, to, by);
            }
        }
        self.push_some(inst_regs, point, class, moves)
    }
}

impl<'a, A: Allocator> State<'a, A> {
    /// Makes the slot of `argument` its location; `argument` is reloaded from there to its expected
    /// place at `point`.
    fn spill_argument(
        &mut self,
        inst_regs: &mut InstRegs,
        point: ProgPoint,
        argument: VReg,
    ) -> Result<Allocation, RegAllocError>
        requires later { AllAtOrAfter point self.old.edits }
        requires known { argument.number < length self.old.places.vreg_allocs }
        ensures outcome { ComesToOne (SpillArgument point argument inst_regs.old) (λ s. (s, inst_regs.new)) result self.old self.new }
        ensures step { IsStepAt point result self.old self.new }
    {
        let slot = self.slots.get_spillslot(argument)?;
        if let Some(preg) = self.places.current_alloc(argument).as_reg() {
            self.evict_preg(inst_regs, point, preg)?;
            return Ok(slot);
        }
        self.places.set_alloc(argument, slot);
        Ok(slot)
    }

    /// Adds a move of an edge to `moves`: `argument` is spilled, and goes to the slot of `param`.
    fn gather_argument<'b, B: Allocator>(
        &mut self,
        inst_regs: &mut InstRegs,
        point: ProgPoint,
        param: VReg,
        argument: VReg,
        moves: &mut MovesByClass<'b, B>,
    ) -> Result<(), RegAllocError>
        requires later { AllAtOrAfter point self.old.edits }
        requires param { param.number < length self.old.places.vreg_allocs }
        requires argument { argument.number < length self.old.places.vreg_allocs }
        ensures outcome { MatchResult result (λ x. (to from : Place)
            × GatherArgument point param argument inst_regs.old (tables_of self.old) (next (to, from, inst_regs.new) (tables_of self.new))
            × ((given : List ClassMove) → AreOf moves.old.int moves.old.float moves.old.vector given →
            AreOf moves.new.int moves.new.float moves.new.vector (given ++ record { class = argument.class; from = from; to = to } ∷ [])))
            (λ e. e ≡ RegAllocError.TooManyLiveRegs → GatherArgument point param argument inst_regs.old (tables_of self.old) no_register) }
        ensures step { IsStepAt point result self.old self.new }
    {
        let to = self.slots.get_spillslot(param)?;
        let from = self.spill_argument(inst_regs, point, argument)?;
        moves.add(argument.class(), from, to)
    }

    /// Adds the parallel moves of one edge to `moves`: each of `arguments` that the branch doesn't
    /// define goes to the slot of its parameter in `params`.
    fn gather_edge<'b, B: Allocator, C: Allocator>(
        &mut self,
        inst_regs: &mut InstRegs,
        own: &OwnDefs<'_, C>,
        params: &[VReg],
        arguments: &[VReg],
        moves: &mut MovesByClass<'b, B>,
    ) -> Result<(), RegAllocError>
        requires { IsBeforeEdge own.now.branch params.now arguments.now self.old }
        ensures outcome { (given : List ClassMove) → AreOf moves.old.int moves.old.float moves.old.vector given → MatchResult result
            (λ x. (more : List ClassMove) × AreOf moves.new.int moves.new.float moves.new.vector more
            × GatherEdge (IsOwnBy own.now.defs.now own.now.branch) (before own.now.branch) params.now arguments.now inst_regs.old (tables_of self.old)
            given (next (inst_regs.new, more) (tables_of self.new)))
            (λ e. e ≡ RegAllocError.TooManyLiveRegs → GatherEdge (IsOwnBy own.now.defs.now own.now.branch) (before own.now.branch) params.now
            arguments.now inst_regs.old (tables_of self.old) given no_register) }
        ensures step { IsStepAt (before own.now.branch) result self.old self.new }
    {
        let point = ProgPoint::before(own.branch);
        for j in 0..params.len() {
            let argument = arguments[j];
            if !own.has(argument) {
                self.gather_argument(inst_regs, point, params[j], argument, moves)?;
            }
        }
        Ok(())
    }

    /// The parallel moves of all edges out of `block`, whose branch is `inst`.
    fn gather<'b, F: Function, B: Allocator, C: Allocator>(
        &mut self,
        inst_regs: &mut InstRegs,
        alloc: &'b B,
        cx: &FunctionCx<'_, F, C>,
        block: Block,
        inst: Inst,
    ) -> Result<MovesByClass<'b, B>, RegAllocError>
        requires { IsBeforeGathering (F.function cx.now.f.now) cx.now.defs.now block inst self.old }
        ensures outcome { MatchResult result (λ m. (given : List ClassMove) × AreOf m.int m.float m.vector given
            × GatherMoves (F.function cx.now.f.now) block (before inst) inst_regs.old (tables_of self.old) (next (inst_regs.new, given) (tables_of self.new)))
            (λ e. e ≡ RegAllocError.TooManyLiveRegs → GatherMoves (F.function cx.now.f.now) block (before inst) inst_regs.old (tables_of self.old)
            no_register) }
        ensures step { IsStepAt (before inst) result self.old self.new }
    {
        let own = OwnDefs {
            defs: cx.defs,
            branch: inst,
        };
        let succs = cx.f.block_succs(block);
        let mut moves = MovesByClass::none(alloc);
        for k in 0..succs.len() {
            let params = cx.f.block_params(succs[k]);
            let arguments = cx.f.branch_blockparams(block, inst, k);
            self.gather_edge(inst_regs, &own, params, arguments, &mut moves)?;
        }
        Ok(moves)
    }

    /// Pushes `moves` at `point`, one class after another.
    fn push_gathered<'b, B: Allocator>(
        &mut self,
        inst_regs: &InstRegs,
        point: ProgPoint,
        moves: MovesByClass<'b, B>,
    ) -> Result<(), RegAllocError>
        requires { IsBeforeAllMoves point moves.int moves.float moves.vector self.old }
        ensures outcome { ComesTo (PushAllClasses point inst_regs.now moves.entry.int moves.entry.float moves.entry.vector) tt result self.old self.new }
        ensures later { OnOk result (AllAtOrAfter point self.new.edits) }
        ensures machine { Between (AddsTempSlotsAtMost 6) self.old self.new }
        ensures err { IfErr result (IsResourceError (SlotsExhaustedWith self.old.slots (self.old.slots.num_temp_slots + 6))) }
    {
        let MovesByClass { int, float, vector } = moves;
        self.push_moves(inst_regs, point, RegClass::Int, int)?;
        self.push_moves(inst_regs, point, RegClass::Float, float)?;
        self.push_moves(inst_regs, point, RegClass::Vector, vector)
    }

    /// Passes the arguments of the branch `inst` of `block`: all are spilled to their slots, and
    /// then moved to the slots of the parameters. A branch that passes nothing returns at once,
    /// because lists for its moves would cost more than all else.
    pub fn process_branch<F: Function, B: Allocator, C: Allocator>(
        &mut self,
        inst_regs: &mut InstRegs,
        alloc: &B,
        cx: &FunctionCx<'_, F, C>,
        block: Block,
        inst: Inst,
    ) -> Result<(), RegAllocError>
        requires { IsBeforePassing (F.function cx.now.f.now) cx.now.defs.now block inst self.old }
        ensures outcome { ComesTo (ProcessBranch (F.function cx.now.f.now) block inst inst_regs.old) inst_regs.new result self.old self.new }
        ensures step { IsBranchStepAt (before inst) 6 result self.old self.new }
    {
        if passes_nothing(cx.f, block) {
            return Ok(());
        }
        let moves = self.gather(inst_regs, alloc, cx, block, inst)?;
        let point = ProgPoint::before(inst);
        self.push_gathered(inst_regs, point, moves)
    }
}
