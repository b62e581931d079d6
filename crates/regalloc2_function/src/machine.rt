//! The registers of a machine.

ghost use Rattle.std.specs.Prelude.{◌≡◌, ◌≢◌, ℕ, ◌<◌, ◌&&◌, ◌↔◌, IsTrue, IfErr, OnErr, OnOk, MatchOption, ◌⊎◌, All, Any, Contains, Some, true, false, length};
ghost use Rattle.std.specs.Bool.{OnTrue, OnFalse};
ghost use Rattle.regalloc2_names.specs.Register.{Register, invalid_register, has_register};
ghost use Rattle.regalloc2_names.specs.declared.RegClass.{RegClass};
ghost use Rattle.regalloc2_function.specs.FunctionValue.{FunctionValue, block_at, inst_at};
ghost use Rattle.regalloc2_function.specs.Machine.{is_allocatable, set_of, scratch_of};
ghost use Rattle.regalloc2_names.specs.Operand.{is_fixed_nonallocatable};
ghost use Rattle.regalloc2_function.specs.Fitting.{MachineFits, ClassFits, NamesClass, IsScratchSound};
ghost use Rattle.regalloc2_function.specs.Misfit.{AreSlotsValid, FitsBefore, AreRegistersSound, IsSlotApart, PassesRegisters, PassesScratch};
ghost use Rattle.regalloc2_function.specs.Misfit.{IsMisfit};
ghost use Rattle.regalloc2_function.specs.Views.{machine_of};
ghost use Rattle.regalloc2_function.specs.Inside.NamedClasses.{NamesByArgument};

use super::Function;
use super::misfit::MachineMisfit;
use regalloc2_index::{Block, Inst};
use regalloc2_names::{Operand, PReg, PRegSet, RegClass, VReg};
use std::alloc::{Allocator, Global};

/// The registers of a machine, by class: integer, float and vector registers in this order.
///
/// Fields and names are as in upstream's `MachineEnv`.
#[derive(Debug, Drop)]
pub struct MachineEnv<A: Allocator = Global> {
    /// The registers of each class that are allocated first.
    pub preferred_regs_by_class: [PRegSet; 3],
    /// The registers of each class that are allocated if no preferred one is left.
    pub non_preferred_regs_by_class: [PRegSet; 3],
    /// The dedicated scratch register of each class, if there is one. Moves may go through it.
    pub scratch_by_class: [Option<PReg>; 3],
    /// Registers that name fixed stack slots, such as arguments on the stack.
    pub fixed_stack_slots: Vec<PReg, A>,
}

/// Returns a register of `set`, if it has one.
fn register_in(set: PRegSet) -> Option<PReg>
    ensures { MatchOption result ((r : Register) → has_register set r ≡ false) (λ reg. has_register set reg ≡ true) }
{
    set.into_iter().next()
}

/// Returns a register of `set` that isn't of `class`, if there is one.
fn of_other_class(set: PRegSet, class: RegClass) -> Option<PReg>
    ensures { MatchOption result ((r : Register) → has_register set r ≡ true → r.class ≡ class)
        (λ reg. (has_register set reg ≡ true) × (reg.class ≢ class)) }
{
    for reg in set {
        if reg.class() != class {
            return Some(reg);
        }
    }
    None
}

impl<A: Allocator> MachineEnv<A> {
    /// Returns the registers that may be allocated to vregs of `class`: its preferred and its
    /// non-preferred registers.
    ///
    /// Upstream: none.
    pub fn allocatable(&self, class: RegClass) -> PRegSet
        ensures { (r : Register) → has_register result r ≡ is_allocatable (machine_of self.now) class r }
    {
        let index = class.code();
        self.preferred_regs_by_class[index] | self.non_preferred_regs_by_class[index]
    }

    /// Returns the registers that are listed for `class` as preferred and as non-preferred.
    fn listed_twice(&self, class: RegClass) -> PRegSet
        ensures { (r : Register) → has_register result r ≡ has_register (set_of (machine_of self.now).preferred class) r
            && has_register (set_of (machine_of self.now).non_preferred class) r }
    {
        let index = class.code();
        self.preferred_regs_by_class[index] & self.non_preferred_regs_by_class[index]
    }

    /// Tests the registers that are listed for `class`.
    fn test_registers(&self, class: RegClass) -> Result<(), MachineMisfit>
        ensures ok { OnOk result (AreRegistersSound (machine_of self.now) class) }
        ensures misfit { IfErr result (λ m. (f : FunctionValue) → FitsBefore f (machine_of self.now) class → IsMisfit f (machine_of self.now) m) }
    {
        let allocatable = self.allocatable(class);
        if let Some(reg) = of_other_class(allocatable, class) {
            return Err(MachineMisfit::OtherClass(class, reg));
        }
        if let Some(reg) = register_in(self.listed_twice(class)) {
            return Err(MachineMisfit::ListedTwice(class, reg));
        }
        if allocatable.contains(PReg::invalid()) {
            return Err(MachineMisfit::InvalidRegister(class));
        }
        Ok(())
    }

    /// Returns the dedicated scratch register of `class`, if there is one.
    fn scratch(&self, class: RegClass) -> Option<PReg>
        ensures { result ≡ scratch_of (machine_of self.now) class }
    {
        self.scratch_by_class[class.code()]
    }

    /// Tests the dedicated scratch register of `class`, if there is one.
    fn test_scratch(&self, class: RegClass) -> Result<(), MachineMisfit>
        ensures ok { OnOk result (IsScratchSound (machine_of self.now) class) }
        ensures misfit { IfErr result (λ m. (f : FunctionValue) → PassesRegisters f (machine_of self.now) class → IsMisfit f (machine_of self.now) m) }
    {
        let Some(scratch) = self.scratch(class) else {
            return Ok(());
        };
        if scratch.class() != class {
            return Err(MachineMisfit::ScratchOfOtherClass(class, scratch));
        }
        if self.allocatable(class).contains(scratch) {
            return Err(MachineMisfit::ScratchAllocatable(class, scratch));
        }
        match scratch.as_valid() {
            Some(_) => Ok(()),
            None => Err(MachineMisfit::InvalidScratch(class)),
        }
    }

    /// Returns `true` if a fixed stack slot is the invalid register.
    fn has_invalid_slot(&self) -> bool
        ensures some { OnTrue result (Contains (machine_of self.now).fixed_stack_slots invalid_register) }
        ensures none { OnFalse result (AreSlotsValid (machine_of self.now)) }
    {
        self.fixed_stack_slots.contains(&PReg::invalid())
    }

    /// Returns `true` if `reg` is the dedicated scratch register of `class`.
    fn is_scratch(&self, class: RegClass, reg: PReg) -> bool
        ensures { IsTrue result ↔ (scratch_of (machine_of self.now) class ≡ Some reg) }
    {
        match self.scratch(class) {
            Some(scratch) => scratch == reg,
            None => false,
        }
    }

    /// Tests that no fixed stack slot is an allocatable register or the scratch register of `class`.
    fn test_slots(&self, class: RegClass) -> Result<(), MachineMisfit>
        ensures ok { OnOk result (All (IsSlotApart (machine_of self.now) class) (machine_of self.now).fixed_stack_slots) }
        ensures misfit { IfErr result (λ m. (f : FunctionValue) → PassesScratch f (machine_of self.now) class → IsMisfit f (machine_of self.now) m) }
    {
        for slot in self.fixed_stack_slots.as_slice() {
            if self.allocatable(class).contains(*slot) {
                return Err(MachineMisfit::SlotAllocatable(class, *slot));
            }
            if self.is_scratch(class, *slot) {
                return Err(MachineMisfit::SlotIsScratch(class, *slot));
            }
        }
        Ok(())
    }
}

/// Collects the registers that may be allocated, of all classes.
impl<A: Allocator> From<&MachineEnv<A>> for PRegSet {
    ghost use Rattle.std.specs.Prelude.{◌≡◌, ◌||◌};
    ghost use Rattle.regalloc2_names.specs.Register.{Register, has_register};
    ghost use Rattle.regalloc2_names.specs.declared.RegClass.{RegClass};
    ghost use Rattle.regalloc2_function.specs.Machine.{is_allocatable};
    ghost use Rattle.regalloc2_function.specs.Views.{machine_of};

    ghost from_gives = { λ env set. (r : Register) → has_register set r ≡
        is_allocatable (machine_of env.now) RegClass.Int r || is_allocatable (machine_of env.now) RegClass.Float r
        || is_allocatable (machine_of env.now) RegClass.Vector r };

    fn from(env: &MachineEnv<A>) -> PRegSet {
        let scalar = env.allocatable(RegClass::Int) | env.allocatable(RegClass::Float);
        scalar | env.allocatable(RegClass::Vector)
    }
}

/// Returns `true` if `operand` names a vreg of `class`.
fn operand_names(operand: Operand, class: RegClass) -> bool
    ensures { IsTrue result ↔ ((is_fixed_nonallocatable operand ≡ false) × (operand.vreg.class ≡ class)) }
{
    operand.as_fixed_nonallocatable().is_none() && operand.class() == class
}

/// Returns `true` if an operand of `inst` names a vreg of `class`.
fn inst_names<F: Function>(f: &F, inst: Inst, class: RegClass) -> bool
    requires { inst < length (F.function f.now).insts }
    ensures { IsTrue result ↔ Any (λ o. (is_fixed_nonallocatable o ≡ false) × (o.vreg.class ≡ class)) (inst_at (F.function f.now) inst).operands }
{
    f.inst_operands(inst)
        .iter()
        .any(|operand| operand_names(*operand, class))
}

/// Returns `true` if an operand of some instruction names a vreg of `class`.
fn insts_name<F: Function>(f: &F, class: RegClass) -> bool
    ensures { IsTrue result ↔ ((i : ℕ) × (i < length (F.function f.now).insts)
        × Any (λ o. (is_fixed_nonallocatable o ≡ false) × (o.vreg.class ≡ class)) (inst_at (F.function f.now) i).operands) }
{
    for i in 0..f.num_insts() {
        if inst_names(f, Inst::new(i), class) {
            return true;
        }
    }
    false
}

/// Returns `true` if one of `vregs` is of `class`.
fn vregs_name(vregs: &[VReg], class: RegClass) -> bool
    ensures { IsTrue result ↔ Any (λ v. v.class ≡ class) vregs.now }
{
    vregs.iter().any(|vreg| vreg.class() == class)
}

/// Returns `true` if an argument that `block` passes is of `class`. The arguments of a block that is empty
/// or not within the instructions don't count, because nothing determines them.
fn arguments_name<F: Function>(f: &F, block: Block, class: RegClass) -> bool
    requires { block < length (F.function f.now).blocks }
    ensures { IsTrue result ↔ NamesByArgument (F.function f.now) block class }
{
    let range = f.block_insns(block);
    if range.len() == 0 || range.last().index() >= f.num_insts() {
        return false;
    }
    for k in 0..f.block_succs(block).len() {
        if vregs_name(f.branch_blockparams(block, range.last(), k), class) {
            return true;
        }
    }
    false
}

/// Returns `true` if a parameter or an argument of some block is of `class`.
fn blocks_name<F: Function>(f: &F, class: RegClass) -> bool
    ensures { IsTrue result ↔ ((b : ℕ) × (b < length (F.function f.now).blocks)
        × (Any (λ v. v.class ≡ class) (block_at (F.function f.now) b).params ⊎ NamesByArgument (F.function f.now) b class)) }
{
    for b in 0..f.num_blocks() {
        let block = Block::new(b);
        if vregs_name(f.block_params(block), class) || arguments_name(f, block, class) {
            return true;
        }
    }
    false
}

/// Returns `true` if the function names a vreg of `class`.
fn names_class<F: Function>(f: &F, class: RegClass) -> bool
    ensures { IsTrue result ↔ NamesClass (F.function f.now) class }
{
    insts_name(f, class) || blocks_name(f, class)
}

/// Tests that `env` fits `f` as far as `class` is concerned.
fn test_class<F: Function, A: Allocator>(
    f: &F,
    env: &MachineEnv<A>,
    class: RegClass,
) -> Result<(), MachineMisfit>
    requires valid { AreSlotsValid (machine_of env.now) }
    requires before { FitsBefore (F.function f.now) (machine_of env.now) class }
    ensures ok { OnOk result (ClassFits (F.function f.now) (machine_of env.now) class) }
    ensures misfit { IfErr result (IsMisfit (F.function f.now) (machine_of env.now)) }
{
    env.test_registers(class)?;
    env.test_scratch(class)?;
    env.test_slots(class)?;
    if register_in(env.allocatable(class)).is_none() && names_class(f, class) {
        return Err(MachineMisfit::NoRegister(class));
    }
    Ok(())
}

/// Tests that `env` fits `f`, as an allocation requires, and returns the first condition that fails.
///
/// Each class's registers, its scratch register too, are of the class; preferred, non-preferred and
/// scratch registers and fixed stack slots are apart, and none is `PReg::invalid()`; and each
/// class of which an operand, a parameter or an argument names a vreg has a register to allocate.
/// The same slot may be listed twice among the fixed stack slots. Arguments of a block that is
/// empty or not within the instructions don't count, nor do operands that name a register which is
/// not allocated.
///
/// The first test is whether a slot is invalid. Each class follows in turn: `Int`, `Float`,
/// `Vector`. The conditions of a class are tested in the order of the variants of
/// [`MachineMisfit`].
///
/// Upstream takes this for granted.
pub fn test_machine<F: Function, A: Allocator>(
    f: &F,
    env: &MachineEnv<A>,
) -> Result<(), MachineMisfit>
    ensures ok { OnOk result (MachineFits (F.function f.now) (machine_of env.now)) }
    ensures err { OnErr result (MachineFits (F.function f.now) (machine_of env.now) → ⊥) }
    ensures misfit { IfErr result (IsMisfit (F.function f.now) (machine_of env.now)) }
{
    if env.has_invalid_slot() {
        return Err(MachineMisfit::InvalidSlot);
    }
    test_class(f, env, RegClass::Int)?;
    test_class(f, env, RegClass::Float)?;
    test_class(f, env, RegClass::Vector)
}

/// Returns `true` if `env` fits `f`, as [`test_machine`] tests it.
pub fn machine_fits<F: Function, A: Allocator>(f: &F, env: &MachineEnv<A>) -> bool
    ensures { IsTrue result ↔ MachineFits (F.function f.now) (machine_of env.now) }
{
    test_machine(f, env).is_ok()
}
