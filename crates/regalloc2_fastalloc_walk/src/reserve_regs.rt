//! What an instruction claims before its operands are allocated: fixed registers and clobbers.

ghost use Rattle.std.specs.Prelude.{All, ℕ, ◌≡◌, ◌<◌, ◌⊎◌, ◌||◌, ◌↔◌, ◌∷◌, [], length, true, false, IsTrue, OnOk, IfOk, IfSome, IfNone, IfErr, Some, MatchResult};
ghost use Rattle.regalloc2_names.specs.Register.{Register, has_register, registers_of};
ghost use Rattle.regalloc2_fastalloc_state.specs.Positions.{positions_of};
ghost use Rattle.regalloc2_fastalloc_state.specs.InstRegs.{SameAvailable, RemovesAvailable, is_free_throughout};
ghost use Rattle.regalloc2_fastalloc_state.specs.StateParts.{AllAtOrAfter};
ghost use Rattle.regalloc2_fastalloc_state.specs.OutOfResources.{IsResourceErrorIn};
ghost use Rattle.regalloc2_fastalloc_state.specs.Validate.NoLimits.{IsTakenOperand};
ghost use Rattle.regalloc2_function.specs.FunctionValue.{op_at};
ghost use Rattle.regalloc2_fastalloc_proofs.specs.InstSteps.{NeedsFixedReg, NoneUsed, RegsAreNotReserved, ReserveRegs, EvictFixed};
ghost use Rattle.regalloc2_fastalloc_proofs.specs.InstSteps.{EvictEach, SameButOrder};
ghost use Rattle.regalloc2_fastalloc_walk.specs.StateView.{Between, IsStepAt, tables_of, ComesTo};
ghost use Rattle.regalloc2_fastalloc_walk.specs.ReserveSteps.{AreSorted, AwaitsAll, ReservesClaims, ReservesOnly, IsNewlyReserved, IsReservedAt, IsReserved};
ghost use Rattle.regalloc2_fastalloc_walk.specs.ReserveSteps.{KeepsReserved, Shrinks, ReservesRegForOperand, TakesOnly, RegIsNotReserved};

use super::state::State;
use regalloc2_fastalloc_state::inst_regs::InstRegs;
use regalloc2_fastalloc_state::masks::Masks;
use regalloc2_fastalloc_state::positions::Positions;
use regalloc2_fastalloc_state::validate::constraints::all_unlimited;
use regalloc2_names::{
    Operand, OperandConstraint, OperandUnion, PReg, PRegSet, ProgPoint, RegAllocError,
};
use std::alloc::Allocator;

/// The registers that an instruction's operands so far are fixed to, by position, and the registers that were poked.
#[derive(Clone, Copy)]
struct ReservedRegs {
    early: PRegSet,
    late: PRegSet,
    poked: PRegSet,
}

impl ReservedRegs {
    /// No reserved and no poked register.
    fn none() -> ReservedRegs
        ensures early { (r : Register) → has_register result.early r ≡ false }
        ensures late { (r : Register) → has_register result.late r ≡ false }
    {
        ReservedRegs {
            early: PRegSet::empty(),
            late: PRegSet::empty(),
            poked: PRegSet::empty(),
        }
    }

    /// Reserves `preg` at `positions`, unless an earlier operand reserved it at one of these positions.
    fn reserve(&mut self, preg: PReg, positions: Positions) -> Result<(), RegAllocError>
        ensures ok { OnOk result (IsNewlyReserved self.old self.new preg positions) }
        ensures grows { KeepsReserved self.old self.new }
        ensures only { ReservesOnly self.old self.new preg positions }
        ensures err { IfErr result (λ e. e ≡ RegAllocError.TooManyLiveRegs) }
        ensures claimed { IfErr result (λ e. IsReservedAt self.old preg positions) }
        ensures unchanged { IfErr result (λ e. self.new ≡ self.old) }
    {
        let is_early = positions.early && self.early.contains(preg);
        let is_late = positions.late && self.late.contains(preg);
        if is_early || is_late {
            return Err(RegAllocError::TooManyLiveRegs);
        }
        if positions.early {
            self.early.add(preg);
        }
        if positions.late {
            self.late.add(preg);
        }
        Ok(())
    }
}

/// What one pass over an instruction's operands finds.
#[derive(Clone, Copy)]
pub struct Sorted {
    /// Which operands are late, and which are uses, if there are at most `Masks::MAX_OPERANDS` operands.
    pub masks: Masks,
    /// Whether any operand is fixed to a register.
    pub any_fixed: bool,
    /// Whether no operand has `Limit`.
    pub unlimited: bool,
}

/// Sorts `operands` in one pass without a branch for each operand, and counts the operands under `Reg`.
#[inline(always)]
fn sort(inst_regs: &mut InstRegs, operands: &[Operand]) -> Sorted
    requires { inst_regs.old.awaited ≡ 0 ∷ 0 ∷ 0 ∷ [] }
    ensures sorted { AreSorted operands.now result }
    ensures available { SameAvailable inst_regs.old inst_regs.new }
    ensures awaited { AwaitsAll operands.now inst_regs.old inst_regs.new }
{
    let mut masks = Masks::none();
    let mut union = OperandUnion::empty();
    let mut k = operands.len();
    while k > 0 {
        k -= 1;
        let operand = operands[k];
        inst_regs.count_operand(operand);
        masks = masks.before(operand);
        union = union.with(operand);
    }
    let any_fixed = union.any_fixed();
    let unlimited = !union.may_have_limit() || all_unlimited(operands);
    Sorted {
        masks,
        any_fixed,
        unlimited,
    }
}

/// The register that `operand` is fixed to.
fn fixed_register(operand: Operand) -> Option<PReg>
    ensures some { IfSome result (λ r. operand.constraint ≡ OperandConstraint.FixedReg r) }
    ensures none { IfNone result ((r : Register) → operand.constraint ≡ OperandConstraint.FixedReg r → ⊥) }
{
    match operand.constraint() {
        OperandConstraint::FixedReg(preg) => Some(preg),
        _ => None,
    }
}

/// The register that an operand is fixed to, if the reuse `operand` names it.
fn reused_register(operand: Operand, operands: &[Operand]) -> Option<PReg>
    ensures some { IfSome result (λ r. (n : ℕ) × (operand.constraint ≡ OperandConstraint.Reuse n) × (n < length operands.now)
        × ((op_at operands.now n).constraint ≡ OperandConstraint.FixedReg r)) }
    ensures none { IfNone result ((n : ℕ) (r : Register) → operand.constraint ≡ OperandConstraint.Reuse n → n < length operands.now →
        (op_at operands.now n).constraint ≡ OperandConstraint.FixedReg r → ⊥) }
{
    match operand.constraint() {
        OperandConstraint::Reuse(index) if index < operands.len() => {
            fixed_register(operands[index])
        }
        _ => None,
    }
}

/// What the operand `k` claims before operands are allocated: its fixed register, unless it reads
/// and defines nothing; or for a reuse the fixed register of the operand that it names, while late
/// operands are there.
fn reserved_by(operands: &[Operand], k: usize) -> Option<(PReg, Positions)>
    requires { k < length operands.now }
    ensures some { IfSome result (λ c. NeedsFixedReg operands.now k c.0 c.1) }
    ensures all { (r : Register) (p : Positions) → NeedsFixedReg operands.now k r p → result ≡ Some (r, p) }
{
    let operand = operands[k];
    match operand.constraint() {
        OperandConstraint::FixedReg(preg) => {
            if operand.as_fixed_nonallocatable().is_some() {
                return None;
            }
            Some((preg, Positions::of(operand)))
        }
        OperandConstraint::Reuse(_) => {
            let preg = reused_register(operand, operands)?;
            let positions = Positions {
                early: false,
                late: true,
            };
            Some((preg, positions))
        }
        _ => None,
    }
}

/// Makes the register that `operand` is fixed to unavailable. The operand claims nothing, since it
/// reads and defines nothing, but its register is named.
fn remove_unclaimed(inst_regs: &mut InstRegs, operand: Operand)
    ensures shrinks { Shrinks inst_regs.old inst_regs.new }
    ensures takes { (r : Register) → is_free_throughout inst_regs.old r ≡ true → is_free_throughout inst_regs.new r ≡ false →
        operand.constraint ≡ OperandConstraint.FixedReg r }
    ensures removed { (r : Register) → operand.constraint ≡ OperandConstraint.FixedReg r →
        RemovesAvailable inst_regs.old inst_regs.new r (positions_of operand) }
    ensures awaited { inst_regs.new.awaited ≡ inst_regs.old.awaited }
{
    if let Some(preg) = fixed_register(operand) {
        inst_regs.remove_available(preg, Positions::of(operand));
    }
}

impl<'a, A: Allocator> State<'a, A> {
    /// Whether `preg` is allocatable, or a fixed stack slot.
    fn is_of_machine(&self, preg: PReg) -> bool
        ensures { result ≡ has_register self.now.registers.allocatable preg || has_register self.now.registers.fixed_stack preg }
    {
        self.registers.is_allocatable(preg) || self.registers.fixed_stack().contains(preg)
    }

    /// Reserves `preg` at `positions`. Returns an error if `preg` is neither allocatable nor a
    /// fixed stack slot, or if an earlier operand claimed it at one of these positions.
    fn reserve_preg(
        &self,
        inst_regs: &mut InstRegs,
        claims: &mut ReservedRegs,
        preg: PReg,
        positions: Positions,
    ) -> Result<(), RegAllocError>
        ensures ok { OnOk result (IsReserved (tables_of self.now) preg positions inst_regs.new claims.old claims.new) }
        ensures shrinks { Shrinks inst_regs.old inst_regs.new }
        ensures takes { TakesOnly preg inst_regs.old inst_regs.new }
        ensures awaited { inst_regs.new.awaited ≡ inst_regs.old.awaited }
        ensures grows { KeepsReserved claims.old claims.new }
        ensures only { ReservesOnly claims.old claims.new preg positions }
        ensures err { IfErr result (IsResourceErrorIn self.now.slots) }
        ensures stops { IfErr result (λ e. e ≡ RegAllocError.TooManyLiveRegs →
            ((has_register self.now.registers.allocatable preg || has_register self.now.registers.fixed_stack preg) ≡ false)
            ⊎ IsReservedAt claims.old preg positions) }
    {
        if !self.is_of_machine(preg) {
            return Err(RegAllocError::TooManyLiveRegs);
        }
        claims.reserve(preg, positions)?;
        inst_regs.remove_available(preg, positions);
        Ok(())
    }

    /// Makes the register of the operand `k` unavailable, and reserves it if the operand claims it.
    fn claim(
        &self,
        inst_regs: &mut InstRegs,
        claims: &mut ReservedRegs,
        operands: &[Operand],
        k: usize,
    ) -> Result<(), RegAllocError>
        requires { k < length operands.now }
        ensures outcome { MatchResult result
            (λ x. ReservesRegForOperand operands.now k inst_regs.old inst_regs.new claims.old claims.new (tables_of self.now))
            (λ e. e ≡ RegAllocError.TooManyLiveRegs → RegIsNotReserved operands.now k claims.old (tables_of self.now)) }
        ensures awaited { inst_regs.new.awaited ≡ inst_regs.old.awaited }
        ensures err { IfErr result (IsResourceErrorIn self.now.slots) }
    {
        if let Some(claim) = reserved_by(operands, k) {
            let (preg, positions) = claim;
            return self.reserve_preg(inst_regs, claims, preg, positions);
        }
        remove_unclaimed(inst_regs, operands[k]);
        Ok(())
    }

    /// Pokes the register that `operand` is fixed to, if it may be allocated and wasn't poked yet.
    fn poke_fixed(&mut self, claims: &mut ReservedRegs, operand: Operand)
        ensures same { Between SameButOrder self.old self.new }
        ensures early { claims.new.early ≡ claims.old.early }
        ensures late { claims.new.late ≡ claims.old.late }
        ensures unused { ((r : Register) → operand.constraint ≡ OperandConstraint.FixedReg r → ⊥) →
            self.new.registers.lrus ≡ self.old.registers.lrus }
    {
        if let Some(preg) = fixed_register(operand) {
            if self.registers.is_allocatable(preg) && !claims.poked.contains(preg) {
                claims.poked.add(preg);
                self.registers.poke(preg);
            }
        }
    }

    /// Reserves what the operand `k` claims before operands are allocated.
    fn reserve_reg_for_operand(
        &mut self,
        inst_regs: &mut InstRegs,
        claims: &mut ReservedRegs,
        operands: &[Operand],
        k: usize,
    ) -> Result<(), RegAllocError>
        requires { k < length operands.now }
        ensures outcome { MatchResult result
            (λ x. ReservesRegForOperand operands.now k inst_regs.old inst_regs.new claims.old claims.new (tables_of self.old))
            (λ e. e ≡ RegAllocError.TooManyLiveRegs → RegIsNotReserved operands.now k claims.old (tables_of self.old)) }
        ensures awaited { inst_regs.new.awaited ≡ inst_regs.old.awaited }
        ensures same { Between SameButOrder self.old self.new }
        ensures err { IfErr result (IsResourceErrorIn self.new.slots) }
        ensures unused { OnOk result (((r : Register) → (op_at operands.now k).constraint ≡ OperandConstraint.FixedReg r → ⊥) →
            self.new.registers.lrus ≡ self.old.registers.lrus) }
    {
        self.claim(inst_regs, claims, operands, k)?;
        self.poke_fixed(claims, operands[k]);
        Ok(())
    }

    /// Reserves what `operands` claim before they are placed, in operand order.
    fn reserve_each(
        &mut self,
        inst_regs: &mut InstRegs,
        operands: &[Operand],
    ) -> Result<(), RegAllocError>
        ensures outcome { MatchResult result (λ x. ReservesClaims operands.now inst_regs.old inst_regs.new (tables_of self.old))
            (λ e. e ≡ RegAllocError.TooManyLiveRegs → RegsAreNotReserved operands.now (tables_of self.old)) }
        ensures awaited { inst_regs.new.awaited ≡ inst_regs.old.awaited }
        ensures same { Between SameButOrder self.old self.new }
        ensures err { IfErr result (IsResourceErrorIn self.new.slots) }
        ensures unused { OnOk result (NoneUsed operands.now self.old.registers.lrus self.new.registers.lrus) }
    {
        let mut claims = ReservedRegs::none();
        for k in 0..operands.len() {
            self.reserve_reg_for_operand(inst_regs, &mut claims, operands, k)?;
        }
        Ok(())
    }

    /// Sorts `operands`, counts those that require any register, and reserves what operands claim
    /// before they are placed.
    #[inline(always)]
    pub fn reserve(
        &mut self,
        inst_regs: &mut InstRegs,
        operands: &[Operand],
    ) -> Result<Sorted, RegAllocError>
        requires { inst_regs.old.awaited ≡ 0 ∷ 0 ∷ 0 ∷ [] }
        ensures outcome { ComesTo (ReserveRegs operands.now inst_regs.old) inst_regs.new result self.old self.new }
        ensures same { Between SameButOrder self.old self.new }
        ensures err { IfErr result (IsResourceErrorIn self.new.slots) }
        ensures unused { OnOk result (NoneUsed operands.now self.old.registers.lrus self.new.registers.lrus) }
        ensures sorted { IfOk result (AreSorted operands.now) }
    {
        let sorted = sort(inst_regs, operands);
        if sorted.any_fixed {
            self.reserve_each(inst_regs, operands)?;
        }
        Ok(sorted)
    }

    /// Empties the fixed registers of `operands`, in operand order, of all vregs but each operand's
    /// own. Most instructions have no fixed operand: then `any_fixed` is false.
    pub fn evict_fixed(
        &mut self,
        inst_regs: &mut InstRegs,
        point: ProgPoint,
        operands: &[Operand],
        any_fixed: bool,
    ) -> Result<(), RegAllocError>
        requires later { AllAtOrAfter point self.old.edits }
        requires unfixed { any_fixed ≡ false → (k : ℕ) → k < length operands.now → (r : Register) →
            (op_at operands.now k).constraint ≡ OperandConstraint.FixedReg r → ⊥ }
        ensures outcome { ComesTo (EvictFixed point operands.now inst_regs.old) inst_regs.new result self.old self.new }
        ensures awaited { inst_regs.new.awaited ≡ inst_regs.old.awaited }
        ensures step { IsStepAt point result self.old self.new }
    {
        if !any_fixed {
            return Ok(());
        }
        for k in 0..operands.len() {
            let operand = operands[k];
            match operand.constraint() {
                OperandConstraint::FixedReg(preg) => {
                    self.evict_other_vregs(inst_regs, point, preg, operand.vreg())?;
                }
                OperandConstraint::Reuse(_) => {
                    if let Some(preg) = reused_register(operand, operands) {
                        self.evict_preg(inst_regs, point, preg)?;
                    }
                }
                _ => {}
            }
        }
        Ok(())
    }

    /// Empties the registers of `clobbers` that hold vregs, by rising index; all others are empty
    /// already. Most instructions clobber nothing.
    pub fn evict_clobbers(
        &mut self,
        inst_regs: &mut InstRegs,
        point: ProgPoint,
        clobbers: PRegSet,
    ) -> Result<(), RegAllocError>
        requires { AllAtOrAfter point self.old.edits }
        ensures outcome { ComesTo (EvictEach point (registers_of clobbers) inst_regs.old) inst_regs.new result self.old self.new }
        ensures awaited { inst_regs.new.awaited ≡ inst_regs.old.awaited }
        ensures step { IsStepAt point result self.old self.new }
    {
        if clobbers == PRegSet::empty() {
            return Ok(());
        }
        let held = clobbers & self.places.filled();
        for preg in held {
            self.evict_preg(inst_regs, point, preg)?;
        }
        Ok(())
    }
}
