//! The operands of one instruction. An operand under `Limit` requires any register, as under `Reg`.

ghost use Rattle.regalloc2_names.specs.Register.{Register};
ghost use Rattle.std.specs.Prelude.{◌≡◌, ◌<◌, ◌≤◌, ◌+◌, ◌↔◌, length, not, false, true, slice_set, slice_index_or, ℕ, IfSome, IfNone, IfOk, IsNone, IsTrue};
ghost use Rattle.std.specs.Prelude.{All};
ghost use Rattle.regalloc2_names.specs.Place.{after, before, inst_limit, NoPlace, is_place, is_in_slot};
ghost use Rattle.regalloc2_names.specs.Operand.{is_def, is_late, is_reading};
ghost use Rattle.regalloc2_parts.specs.Picked.{picked};
ghost use Rattle.regalloc2_fastalloc_walk.specs.OperandsAt.{is_at};
ghost use Rattle.regalloc2_fastalloc_state.specs.Masks.{AreMasks};
ghost use Rattle.regalloc2_fastalloc_state.specs.Validate.NoLimits.{IsTakenOperand};
ghost use Rattle.regalloc2_fastalloc_state.specs.StateParts.{AllAtOrAfter, alloc_of};
ghost use Rattle.regalloc2_function.specs.FunctionValue.{op_at};
ghost use Rattle.regalloc2_fastalloc_proofs.specs.InstSteps.{IsFresh, reuse_requirement_of, requirement_of, def_request, reuse_request, ProcessOperand};
ghost use Rattle.regalloc2_fastalloc_proofs.specs.InstSteps.{use_request, InTables, ProcessOperandsAt, MoveUse, MoveUses, PrepareRegs, AllocInst};
ghost use Rattle.regalloc2_fastalloc_walk.specs.ReserveSteps.{AreSorted};
ghost use Rattle.regalloc2_fastalloc_walk.specs.PlaceSteps.{PlaceOperands};
ghost use Rattle.regalloc2_fastalloc_walk.specs.BeforeSteps.{IsBeforeOperands};
ghost use Rattle.regalloc2_fastalloc_walk.specs.StateView.{IsStepAt, tables_of, ComesTo};
ghost use Rattle.regalloc2_fastalloc_proofs.specs.BlockSteps.{AllocInstAt};

use super::reserve_regs::Sorted;
use super::state::State;
use regalloc2_fastalloc_state::inst_regs::InstRegs;
use regalloc2_fastalloc_state::masks::{Masks, Selected};
use regalloc2_fastalloc_state::positions::Positions;
use regalloc2_fastalloc_state::request::{OperandRequest, Requirement};
use regalloc2_index::Inst;
use regalloc2_names::{
    Allocation, Operand, OperandConstraint, OperandPos, PReg, PRegSet, ProgPoint, RegAllocError,
};
use regalloc2_parts::iter::{Operands, PickedOperands};
use std::alloc::Allocator;

/// The operands at the position `pos`, with their indexes.
fn operands_at<'o>(operands: &'o [Operand], pos: OperandPos) -> PickedOperands<'o>
    ensures { result ≡ picked (is_at pos) operands.now }
{
    let operands = Operands::new(operands);
    match pos {
        OperandPos::Early => operands.early(),
        OperandPos::Late => operands.late(),
    }
}

/// The operands at the position `pos`, with their indexes, found by `masks`.
#[inline(always)]
fn masked_at<'o>(masks: &Masks, operands: &'o [Operand], pos: OperandPos) -> Selected<'o>
    requires masks { AreMasks operands.now masks.now }
    requires few { length operands.now ≤ Masks.MAX_OPERANDS }
    ensures { result ≡ picked (is_at pos) operands.now }
{
    match pos {
        OperandPos::Early => masks.early(operands),
        OperandPos::Late => masks.late(operands),
    }
}

/// What `constraint`, the constraint of an operand that isn't a reuse, requires.
fn requirement_of(constraint: OperandConstraint) -> Requirement
    ensures { result ≡ requirement_of constraint }
{
    match constraint {
        OperandConstraint::Any => Requirement::AnyPlace,
        OperandConstraint::Stack => Requirement::OnStack,
        OperandConstraint::FixedReg(preg) => Requirement::InPReg(preg),
        _ => Requirement::AnyReg,
    }
}

/// What a reuse requires, by `constraint`, the constraint of the operand that it names: its
/// register if it is fixed, else any register.
fn reuse_requirement_of(constraint: OperandConstraint) -> Requirement
    ensures { result ≡ reuse_requirement_of constraint }
{
    match constraint {
        OperandConstraint::FixedReg(preg) => Requirement::InPReg(preg),
        _ => Requirement::AnyReg,
    }
}

/// The request of the use `operand`: if a reuse that names it has chosen `place` for it, it
/// requires that register.
fn use_request(operand: Operand, place: Allocation) -> OperandRequest
    ensures { result ≡ use_request operand place }
{
    let requirement = match place.as_reg() {
        Some(preg) => Requirement::InPReg(preg),
        None => requirement_of(operand.constraint()),
    };
    let positions = Positions::of(operand);
    OperandRequest {
        vreg: operand.vreg(),
        requirement,
        positions,
        is_def: false,
    }
}

/// The request of the definition `operand`.
fn def_request(operand: Operand) -> OperandRequest
    ensures { result ≡ def_request operand }
{
    OperandRequest {
        vreg: operand.vreg(),
        requirement: requirement_of(operand.constraint()),
        positions: Positions::of(operand),
        is_def: true,
    }
}

/// Whether `operand` requires any register, and no reuse has chosen `place` for it.
fn needs_any_reg(operand: Operand, place: Allocation) -> bool
    ensures { IsTrue result ↔ (operand.constraint ≡ OperandConstraint.Reg) × (place ≡ NoPlace) }
{
    operand.is_any_reg() && place.is_none()
}

/// The register of the use `operand`, if it is determined before the use is placed: the register
/// that a reuse has chosen for it, `place`, else the register that it is fixed to. `None` for a
/// definition, and for a use that reads nothing: neither is placed as a use.
fn known_register(operand: Operand, place: Allocation) -> Option<PReg>
    ensures some { IfSome result (λ r. (is_reading operand ≡ true) × ((use_request operand place).requirement ≡ Requirement.InPReg r)) }
    ensures none { IfNone result (is_reading operand ≡ true → (r : Register) → (use_request operand place).requirement ≡ Requirement.InPReg r → ⊥) }
{
    if operand.is_def() {
        return None;
    }
    let known = match (place.as_reg(), operand.constraint()) {
        (Some(preg), _) => preg,
        (None, OperandConstraint::FixedReg(preg)) => preg,
        _ => return None,
    };
    // tested last: most uses under `Any` have returned by then
    if operand.is_reading() {
        Some(known)
    } else {
        None
    }
}

/// Whether `operand` is a use under `Any`.
fn is_any_use(operand: Operand) -> bool
    ensures { IsTrue result ↔ (is_def operand.kind ≡ false) × (operand.constraint ≡ OperandConstraint.Any) }
{
    !operand.is_def() && matches!(operand.constraint(), OperandConstraint::Any)
}

/// The request of `operand`, which requires any register and for which no reuse has chosen one.
fn reg_request(operand: Operand) -> OperandRequest
    requires { operand.constraint ≡ OperandConstraint.Reg }
    ensures used { is_def operand.kind ≡ false → result ≡ use_request operand NoPlace }
    ensures defined { is_def operand.kind ≡ true → result ≡ def_request operand }
{
    OperandRequest {
        vreg: operand.vreg(),
        requirement: Requirement::AnyReg,
        positions: Positions::of(operand),
        is_def: operand.is_def(),
    }
}

/// The request of the reuse `operand`, which holds its register throughout, for the operand at
/// `index` too, which it names.
fn reuse_request(operand: Operand, operands: &[Operand], index: usize) -> OperandRequest
    ensures { result ≡ reuse_request operand (op_at operands.now index) }
{
    let requirement = if index < operands.len() {
        reuse_requirement_of(operands[index].constraint())
    } else {
        Requirement::AnyReg
    };
    OperandRequest {
        vreg: operand.vreg(),
        requirement,
        positions: Positions::both(),
        is_def: true,
    }
}

/// Sets the place at `index` of `places` to `place`, if `index` is in the list.
fn set_place(places: &mut [Allocation], index: usize, place: Allocation)
    ensures { places.new ≡ slice_set places.old index place }
{
    if index < places.len() {
        places[index] = place;
    }
}

/// An instruction, as the walk meets it.
#[derive(Clone, Copy)]
pub struct InstCx<'a> {
    pub inst: Inst,
    /// Whether the instruction is its block's last. No move may follow it.
    pub ends_block: bool,
    pub operands: &'a [Operand],
    /// The registers that the instruction overwrites.
    pub clobbers: PRegSet,
}

impl<'a, A: Allocator> State<'a, A> {
    /// Allocates the operand `k`, whatever it requires. The place of a reuse is that of the operand
    /// that it names too.
    #[inline(never)]
    fn process_operand(
        &mut self,
        inst_regs: &mut InstRegs,
        cx: &InstCx<'_>,
        allocs: &mut [Allocation],
        k: usize,
    ) -> Result<(), RegAllocError>
        requires inside { k < length cx.now.operands.now }
        requires inst { cx.now.inst < inst_limit }
        requires later { AllAtOrAfter (after cx.now.inst) self.old.edits }
        requires in_tables { InTables cx.now.operands.now (tables_of self.old) }
        requires allocs_long { length allocs.old ≡ length cx.now.operands.now }
        ensures outcome { ComesTo (ProcessOperand cx.now.inst cx.now.ends_block cx.now.operands.now k allocs.old inst_regs.old) (allocs.new, inst_regs.new)
            result self.old self.new }
        ensures step { IsStepAt (after cx.now.inst) result self.old self.new }
    {
        let operands = cx.operands;
        let operand = operands[k];
        let point = ProgPoint::after(cx.inst);
        if let Some(preg) = operand.as_fixed_nonallocatable() {
            allocs[k] = Allocation::reg(preg);
            return Ok(());
        }
        if !operand.is_def() {
            let request = use_request(operand, allocs[k]);
            allocs[k] = self.alloc_use(inst_regs, point, &request)?;
            return Ok(());
        }
        if let Some(index) = operand.reused_index() {
            let request = reuse_request(operand, operands, index);
            let place = self.alloc_def_op(inst_regs, point, &request, cx.ends_block)?;
            allocs[k] = place;
            set_place(allocs, index, place);
            return Ok(());
        }
        allocs[k] = self.alloc_def_op(inst_regs, point, &def_request(operand), cx.ends_block)?;
        Ok(())
    }

    /// Allocates the operand `k`, which requires any register, as most do. Does what
    /// [`Self::process_operand`] does, without all that other operands need.
    #[inline(never)]
    fn process_reg_operand(
        &mut self,
        inst_regs: &mut InstRegs,
        cx: &InstCx<'_>,
        allocs: &mut [Allocation],
        k: usize,
    ) -> Result<(), RegAllocError>
        requires inside { k < length cx.now.operands.now }
        requires inst { cx.now.inst < inst_limit }
        requires later { AllAtOrAfter (after cx.now.inst) self.old.edits }
        requires in_tables { InTables cx.now.operands.now (tables_of self.old) }
        requires allocs_long { length allocs.old ≡ length cx.now.operands.now }
        requires reg { (op_at cx.now.operands.now k).constraint ≡ OperandConstraint.Reg }
        requires unplaced { slice_index_or allocs.old k NoPlace ≡ NoPlace }
        ensures outcome { ComesTo (ProcessOperand cx.now.inst cx.now.ends_block cx.now.operands.now k allocs.old inst_regs.old) (allocs.new, inst_regs.new)
            result self.old self.new }
        ensures step { IsStepAt (after cx.now.inst) result self.old self.new }
    {
        let operands = cx.operands;
        let operand = operands[k];
        let point = ProgPoint::after(cx.inst);
        let request = reg_request(operand);
        if !operand.is_def() {
            allocs[k] = self.alloc_use(inst_regs, point, &request)?;
            return Ok(());
        }
        allocs[k] = self.alloc_def_op(inst_regs, point, &request, cx.ends_block)?;
        Ok(())
    }

    /// Allocates the operand `k`, a use for which `preg` is determined before it is placed. Does
    /// what [`Self::process_operand`] does, without its first tests: an operand that reads is the
    /// use of a vreg, and this use requires `preg`.
    #[inline(never)]
    fn process_placed_use(
        &mut self,
        inst_regs: &mut InstRegs,
        cx: &InstCx<'_>,
        allocs: &mut [Allocation],
        k: usize,
        preg: PReg,
    ) -> Result<(), RegAllocError>
        requires inside { k < length cx.now.operands.now }
        requires inst { cx.now.inst < inst_limit }
        requires later { AllAtOrAfter (after cx.now.inst) self.old.edits }
        requires in_tables { InTables cx.now.operands.now (tables_of self.old) }
        requires allocs_long { length allocs.old ≡ length cx.now.operands.now }
        requires reading { is_reading (op_at cx.now.operands.now k) ≡ true }
        requires known { (use_request (op_at cx.now.operands.now k) (slice_index_or allocs.old k NoPlace)).requirement ≡ Requirement.InPReg preg }
        ensures outcome { ComesTo (ProcessOperand cx.now.inst cx.now.ends_block cx.now.operands.now k allocs.old inst_regs.old) (allocs.new, inst_regs.new)
            result self.old self.new }
        ensures step { IsStepAt (after cx.now.inst) result self.old self.new }
    {
        let operands = cx.operands;
        let operand = operands[k];
        let point = ProgPoint::after(cx.inst);
        let request = OperandRequest {
            vreg: operand.vreg(),
            requirement: Requirement::InPReg(preg),
            positions: Positions::of(operand),
            is_def: false,
        };
        allocs[k] = self.alloc_use(inst_regs, point, &request)?;
        Ok(())
    }

    /// The slot that `operand` is read from, if it is a use under `Any` and its vreg is in a slot.
    /// [`Self::process_operand`] would choose the slot too, and do nothing else: no register is
    /// claimed, no move is added, and the vreg keeps its location. `None` if the vreg is in a
    /// register or has no location yet.
    fn slot_of_any_use(&self, operand: Operand) -> Option<Allocation>
        requires { operand.constraint ≡ OperandConstraint.Any → operand.vreg.number < length self.now.places.vreg_allocs }
        ensures some { IfSome result (λ p. (is_def operand.kind ≡ false) × (operand.constraint ≡ OperandConstraint.Any) × (is_in_slot p ≡ true)
            × (alloc_of self.now.places operand.vreg.number ≡ p)) }
        ensures none { IfNone result (is_def operand.kind ≡ false → operand.constraint ≡ OperandConstraint.Any →
            is_in_slot (alloc_of self.now.places operand.vreg.number) ≡ false) }
    {
        if !is_any_use(operand) {
            return None;
        }
        let current = self.places.current_alloc(operand.vreg());
        if current.is_stack() {
            Some(current)
        } else {
            None
        }
    }

    /// Allocates the operand `k`. The most common kinds have fast paths, which do what
    /// [`Self::process_operand`] does.
    #[inline(always)]
    fn process_operand_allocation(
        &mut self,
        inst_regs: &mut InstRegs,
        cx: &InstCx<'_>,
        allocs: &mut [Allocation],
        k: usize,
    ) -> Result<(), RegAllocError>
        requires inside { k < length cx.now.operands.now }
        requires inst { cx.now.inst < inst_limit }
        requires later { AllAtOrAfter (after cx.now.inst) self.old.edits }
        requires in_tables { InTables cx.now.operands.now (tables_of self.old) }
        requires allocs_long { length allocs.old ≡ length cx.now.operands.now }
        ensures outcome { ComesTo (ProcessOperand cx.now.inst cx.now.ends_block cx.now.operands.now k allocs.old inst_regs.old) (allocs.new, inst_regs.new)
            result self.old self.new }
        ensures step { IsStepAt (after cx.now.inst) result self.old self.new }
    {
        let operands = cx.operands;
        let operand = operands[k];
        let place = allocs[k];
        if needs_any_reg(operand, place) {
            return self.process_reg_operand(inst_regs, cx, allocs, k);
        }
        if let Some(preg) = known_register(operand, place) {
            return self.process_placed_use(inst_regs, cx, allocs, k, preg);
        }
        if let Some(slot) = self.slot_of_any_use(operand) {
            allocs[k] = slot;
            return Ok(());
        }
        self.process_operand(inst_regs, cx, allocs, k)
    }

    /// Allocates the operands at the position `pos`, in operand order: `process_masked_at` without
    /// masks, for instructions with more operands than masks have bits.
    #[inline(never)]
    fn process_many_at(
        &mut self,
        inst_regs: &mut InstRegs,
        pos: OperandPos,
        cx: &InstCx<'_>,
        allocs: &mut [Allocation],
    ) -> Result<(), RegAllocError>
        requires inst { cx.now.inst < inst_limit }
        requires later { AllAtOrAfter (after cx.now.inst) self.old.edits }
        requires in_tables { InTables cx.now.operands.now (tables_of self.old) }
        requires allocs_long { length allocs.old ≡ length cx.now.operands.now }
        ensures outcome { ComesTo (ProcessOperandsAt cx.now.inst cx.now.ends_block (is_late pos) cx.now.operands.now allocs.old inst_regs.old)
            (allocs.new, inst_regs.new) result self.old self.new }
        ensures step { IsStepAt (after cx.now.inst) result self.old self.new }
    {
        for (k, _operand) in operands_at(cx.operands, pos) {
            self.process_operand_allocation(inst_regs, cx, allocs, k)?;
        }
        Ok(())
    }

    /// Allocates the operands at the position `pos`, in operand order. There are at most
    /// `Masks::MAX_OPERANDS` operands, whose `masks` are given.
    #[inline(always)]
    fn process_masked_at(
        &mut self,
        inst_regs: &mut InstRegs,
        pos: OperandPos,
        cx: &InstCx<'_>,
        masks: &Masks,
        allocs: &mut [Allocation],
    ) -> Result<(), RegAllocError>
        requires masks { AreMasks cx.now.operands.now masks.now }
        requires few { length cx.now.operands.now ≤ Masks.MAX_OPERANDS }
        requires inst { cx.now.inst < inst_limit }
        requires later { AllAtOrAfter (after cx.now.inst) self.old.edits }
        requires in_tables { InTables cx.now.operands.now (tables_of self.old) }
        requires allocs_long { length allocs.old ≡ length cx.now.operands.now }
        ensures outcome { ComesTo (ProcessOperandsAt cx.now.inst cx.now.ends_block (is_late pos) cx.now.operands.now allocs.old inst_regs.old)
            (allocs.new, inst_regs.new) result self.old self.new }
        ensures step { IsStepAt (after cx.now.inst) result self.old self.new }
    {
        for (k, _operand) in masked_at(masks, cx.operands, pos) {
            self.process_operand_allocation(inst_regs, cx, allocs, k)?;
        }
        Ok(())
    }

    /// Moves the use `operand` from its vreg's current location to `place`.
    #[inline(always)]
    fn move_use(
        &mut self,
        inst_regs: &mut InstRegs,
        point: ProgPoint,
        operand: Operand,
        place: Allocation,
    ) -> Result<(), RegAllocError>
        requires later { AllAtOrAfter point self.old.edits }
        requires vreg { operand.vreg.number < length self.old.places.vreg_allocs }
        ensures outcome { ComesTo (MoveUse point operand place inst_regs.old) inst_regs.new result self.old self.new }
        ensures step { IsStepAt point result self.old self.new }
    {
        let current = self.places.current_alloc(operand.vreg());
        let is_moved = current != place;
        self.add_move_if(inst_regs, point, is_moved, operand.class(), current, place)
    }

    /// Moves the uses among `operands` from their vregs' current locations to their places in
    /// `allocs`, in operand order: `move_masked_uses` without masks, for instructions with more
    /// operands than masks have bits.
    #[inline(never)]
    fn move_many_uses(
        &mut self,
        inst_regs: &mut InstRegs,
        point: ProgPoint,
        operands: &[Operand],
        allocs: &[Allocation],
    ) -> Result<(), RegAllocError>
        requires later { AllAtOrAfter point self.old.edits }
        requires in_tables { InTables operands.now (tables_of self.old) }
        requires allocs_long { length allocs.now ≡ length operands.now }
        ensures outcome { ComesTo (MoveUses point operands.now allocs.now inst_regs.old) inst_regs.new result self.old self.new }
        ensures step { IsStepAt point result self.old self.new }
    {
        for (k, operand) in Operands::new(operands).use_ops() {
            if operand.is_reading() {
                self.move_use(inst_regs, point, operand, allocs[k])?;
            }
        }
        Ok(())
    }

    /// Moves the uses among `operands` from their vregs' current locations to their places in
    /// `allocs`, in operand order. There are at most `Masks::MAX_OPERANDS` operands, whose `masks`
    /// are given.
    fn move_masked_uses(
        &mut self,
        inst_regs: &mut InstRegs,
        point: ProgPoint,
        operands: &[Operand],
        masks: &Masks,
        allocs: &[Allocation],
    ) -> Result<(), RegAllocError>
        requires masks { AreMasks operands.now masks.now }
        requires few { length operands.now ≤ Masks.MAX_OPERANDS }
        requires later { AllAtOrAfter point self.old.edits }
        requires in_tables { InTables operands.now (tables_of self.old) }
        requires allocs_long { length allocs.now ≡ length operands.now }
        ensures outcome { ComesTo (MoveUses point operands.now allocs.now inst_regs.old) inst_regs.new result self.old self.new }
        ensures step { IsStepAt point result self.old self.new }
    {
        for (k, operand) in masks.uses(operands) {
            if operand.is_reading() {
                self.move_use(inst_regs, point, operand, allocs[k])?;
            }
        }
        Ok(())
    }
}

impl<'a, A: Allocator> State<'a, A> {
    /// Sorts the operands of the instruction `cx`, claims its fixed registers and its clobbers, and
    /// empties them.
    #[inline(always)]
    fn prepare_regs(
        &mut self,
        inst_regs: &mut InstRegs,
        cx: &InstCx<'_>,
    ) -> Result<Sorted, RegAllocError>
        requires inst { cx.now.inst < inst_limit }
        requires later { AllAtOrAfter (after cx.now.inst) self.old.edits }
        requires fresh { IsFresh inst_regs.old (tables_of self.old) }
        ensures sorted { IfOk result (AreSorted cx.now.operands.now) }
        ensures outcome { ComesTo (PrepareRegs cx.now.inst cx.now.operands.now cx.now.clobbers inst_regs.old) inst_regs.new result self.old self.new }
        ensures step { IsStepAt (after cx.now.inst) result self.old self.new }
    {
        let point = ProgPoint::after(cx.inst);
        let sorted = self.reserve(inst_regs, cx.operands)?;
        inst_regs.remove_late(cx.clobbers);
        self.evict_fixed(inst_regs, point, cx.operands, sorted.any_fixed)?;
        self.evict_clobbers(inst_regs, point, cx.clobbers)?;
        Ok(sorted)
    }

    /// Allocates the operands of the instruction `cx`, whose registers are prepared, and moves its
    /// uses. The instruction has more operands than masks have bits.
    #[inline(never)]
    fn place_many(
        &mut self,
        inst_regs: &mut InstRegs,
        cx: &InstCx<'_>,
        allocs: &mut [Allocation],
    ) -> Result<(), RegAllocError>
        requires inst { cx.now.inst < inst_limit }
        requires later { AllAtOrAfter (after cx.now.inst) self.old.edits }
        requires in_tables { InTables cx.now.operands.now (tables_of self.old) }
        requires allocs_long { length allocs.old ≡ length cx.now.operands.now }
        ensures outcome { ComesTo (PlaceOperands cx.now.inst cx.now.operands.now cx.now.ends_block allocs.old inst_regs.old)
            (allocs.new, inst_regs.new) result self.old self.new }
        ensures step { IsStepAt (before cx.now.inst) result self.old self.new }
    {
        self.process_many_at(inst_regs, OperandPos::Late, cx, allocs)?;
        self.process_many_at(inst_regs, OperandPos::Early, cx, allocs)?;
        self.move_many_uses(inst_regs, ProgPoint::before(cx.inst), cx.operands, allocs)
    }

    /// Allocates the instruction `cx`: `allocs`, which has no place yet, gets the places of its
    /// operands.
    ///
    /// Returns whether no operand has `Limit`. An operand under `Limit` requires any register, as
    /// under `Reg`.
    fn alloc_inst(
        &mut self,
        inst_regs: &mut InstRegs,
        cx: &InstCx<'_>,
        allocs: &mut [Allocation],
    ) -> Result<bool, RegAllocError>
        requires inst { cx.now.inst < inst_limit }
        requires later { AllAtOrAfter (after cx.now.inst) self.old.edits }
        requires in_tables { InTables cx.now.operands.now (tables_of self.old) }
        requires allocs_long { length allocs.old ≡ length cx.now.operands.now }
        requires no_places { (k : ℕ) → slice_index_or allocs.old k NoPlace ≡ NoPlace }
        requires fresh { IsFresh inst_regs.old (tables_of self.old) }
        ensures outcome { ComesTo (AllocInst cx.now.inst cx.now.operands.now cx.now.clobbers cx.now.ends_block allocs.old inst_regs.old)
            (allocs.new, inst_regs.new) result self.old self.new }
        ensures step { IsStepAt (before cx.now.inst) result self.old self.new }
        ensures unlimited { IfOk result (λ b. IsTrue b ↔ All IsTakenOperand cx.now.operands.now) }
    {
        let sorted = self.prepare_regs(inst_regs, cx)?;
        let masks = &sorted.masks;
        if cx.operands.len() > Masks::MAX_OPERANDS {
            self.place_many(inst_regs, cx, allocs)?;
            return Ok(sorted.unlimited);
        }
        self.process_masked_at(inst_regs, OperandPos::Late, cx, masks, allocs)?;
        self.process_masked_at(inst_regs, OperandPos::Early, cx, masks, allocs)?;
        self.move_masked_uses(
            inst_regs,
            ProgPoint::before(cx.inst),
            cx.operands,
            masks,
            allocs,
        )?;
        Ok(sorted.unlimited)
    }

    /// Allocates the instruction `cx`, whose operands' places begin at `start` in `allocs`. Returns
    /// whether no operand has `Limit`.
    pub fn alloc_inst_at(
        &mut self,
        inst_regs: &mut InstRegs,
        cx: &InstCx<'_>,
        start: usize,
        allocs: &mut [Allocation],
    ) -> Result<bool, RegAllocError>
        requires { IsBeforeOperands cx.now.inst cx.now.operands.now start inst_regs.old allocs.old self.old }
        ensures outcome { ComesTo (AllocInstAt cx.now.inst cx.now.operands.now cx.now.clobbers cx.now.ends_block start allocs.old inst_regs.old)
            (allocs.new, inst_regs.new) result self.old self.new }
        ensures step { IsStepAt (before cx.now.inst) result self.old self.new }
        ensures unlimited { IfOk result (λ b. IsTrue b ↔ All IsTakenOperand cx.now.operands.now) }
    {
        let end = start + cx.operands.len();
        self.alloc_inst(inst_regs, cx, &mut allocs[start..end])
    }
}
