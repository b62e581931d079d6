//! The tests of operands' constraints: reuses, fixed registers beside clobbers, limits, and definitions on branches.

ghost use Rattle.std.specs.Prelude.{ℕ, ◌≡◌, ◌<◌, ◌↔◌, All, length, true, false, IsTrue, IsFalse, IsOk, OnOk, IfSome, IfNone, IfErr, slice_index_or};
ghost use Rattle.regalloc2_function.specs.FunctionValue.{inst_at, op_at};
ghost use Rattle.regalloc2_function.specs.Views.{machine_of};
ghost use Rattle.regalloc2_function.specs.WellFormed.{AreReusesApart, AreUnlimited, AvoidsClobbers, BranchDefinesInPlace, FixedAvoidClobbers};
ghost use Rattle.regalloc2_function.specs.WellFormed.{IsReuseTarget, IsReused, IsSoundReuse, MayBeReused, ReusesAreSound};
ghost use Rattle.regalloc2_names.specs.Packing.{IsConstraintOf};
ghost use Rattle.regalloc2_names.specs.Register.{Register, has_register};
ghost use Rattle.regalloc2_fastalloc_state.specs.Validate.NoLimits.{IsTakenOperand, AreTaken};
ghost use Rattle.regalloc2_fastalloc_state.specs.Validate.Constraints.{DefinesInPlace, IsFixedFault, IsNoReuse, IsUnlimited, IsUnsupported};
ghost use Rattle.regalloc2_function.specs.Reasons.{IsFirst};

use regalloc2_function::{Function, MachineEnv};
use regalloc2_index::Inst;
use regalloc2_names::{
    Operand, OperandConstraint, OperandKind, OperandPos, PRegSet, RegAllocError, RegClass,
};
use std::alloc::Allocator;

/// Whether a definition of `class` may reuse an operand under `constraint`: `Reg`, or a fixed
/// register that is allocatable on the machine `env`.
fn may_be_reused<B: Allocator>(
    env: &MachineEnv<B>,
    class: RegClass,
    constraint: OperandConstraint,
) -> bool
    ensures { IsTrue result ↔ MayBeReused (machine_of env.now) class constraint }
{
    match constraint {
        OperandConstraint::Reg => true,
        OperandConstraint::FixedReg(preg) => env.allocatable(class).contains(preg),
        _ => false,
    }
}

/// Whether a definition of `class` may reuse `operand`: an early use that reads a vreg of the
/// class, under a constraint that `may_be_reused` allows.
fn is_target<B: Allocator>(env: &MachineEnv<B>, class: RegClass, operand: Operand) -> bool
    ensures { IsTrue result ↔ IsReuseTarget (machine_of env.now) class operand }
{
    if operand.kind() != OperandKind::Use || operand.pos() != OperandPos::Early {
        return false;
    }
    if operand.as_fixed_nonallocatable().is_some() || operand.class() != class {
        return false;
    }
    may_be_reused(env, class, operand.constraint())
}

/// Whether `operand` is a late definition that may reuse the operand at `index`.
fn names_target<B: Allocator>(
    env: &MachineEnv<B>,
    operands: &[Operand],
    operand: Operand,
    index: usize,
) -> bool
    ensures { IsTrue result ↔ ((operand.kind ≡ OperandKind.Def) × (operand.position ≡ OperandPos.Late) × (index < length operands.now)
        × IsReuseTarget (machine_of env.now) operand.vreg.class (op_at operands.now index)) }
{
    let is_late_def = operand.kind() == OperandKind::Def && operand.pos() == OperandPos::Late;
    is_late_def && index < operands.len() && is_target(env, operand.class(), operands[index])
}

/// Whether `operand` is no reuse, or a late definition that may reuse the operand that it names.
fn is_valid_reuse<B: Allocator>(env: &MachineEnv<B>, operands: &[Operand], operand: Operand) -> bool
    ensures { IsTrue result ↔ IsSoundReuse (machine_of env.now) operands.now operand }
{
    match operand.reused_index() {
        Some(index) => names_target(env, operands, operand, index),
        None => true,
    }
}

/// Whether all reuses among `operands` are valid.
fn all_reuses_valid<B: Allocator>(env: &MachineEnv<B>, operands: &[Operand]) -> bool
    ensures { IsTrue result ↔ ((k : ℕ) → k < length operands.now → IsSoundReuse (machine_of env.now) operands.now (op_at operands.now k)) }
{
    for k in 0..operands.len() {
        if !is_valid_reuse(env, operands, operands[k]) {
            return false;
        }
    }
    true
}

/// Whether `operand` is no reuse.
fn is_no_reuse(operand: Operand) -> bool
    ensures { IsTrue result ↔ IsNoReuse operand }
{
    !matches!(operand.constraint(), OperandConstraint::Reuse(_))
}

/// Whether none of `operands` is a reuse.
fn has_no_reuse(operands: &[Operand]) -> bool
    ensures { IsTrue result ↔ ((k : ℕ) → k < length operands.now → IsNoReuse (op_at operands.now k)) }
{
    for k in 0..operands.len() {
        if !is_no_reuse(operands[k]) {
            return false;
        }
    }
    true
}

/// For each of `operands`, by index, whether a reuse names it.
fn named_by_reuses(operands: &[Operand]) -> [bool; Operand::REUSE_LIMIT]
    ensures { (k : ℕ) → IsTrue (slice_index_or result k false) ↔ IsReused operands.now k }
{
    let mut named = [false; Operand::REUSE_LIMIT];
    for k in 0..operands.len() {
        if let Some(index) = operands[k].reused_index() {
            named[index] = true;
        }
    }
    named
}

/// Whether `named` is true at `k`. Past its end it is false.
fn is_named(named: &[bool], k: usize) -> bool
    ensures { result ≡ slice_index_or named.now k false }
{
    if k < named.len() { named[k] } else { false }
}

/// Whether no two reuses among `operands` name one operand.
fn are_apart(operands: &[Operand]) -> bool
    ensures { IsTrue result ↔ AreReusesApart operands.now (length operands.now) }
{
    let mut named = [false; Operand::REUSE_LIMIT];
    for k in 0..operands.len() {
        if let Some(index) = operands[k].reused_index() {
            if named[index] {
                return false;
            }
            named[index] = true;
        }
    }
    true
}

/// Whether the reuses of `inst` are late definitions of early uses, and no two name one operand.
fn has_valid_reuses<F: Function, B: Allocator>(f: &F, env: &MachineEnv<B>, inst: Inst) -> bool
    requires { inst < length (F.function f.now).insts }
    ensures { IsTrue result ↔ ReusesAreSound (machine_of env.now) (inst_at (F.function f.now) inst) }
{
    let operands = f.inst_operands(inst);
    all_reuses_valid(env, operands) && are_apart(operands)
}

/// Whether `inst` has no reuses, or valid ones.
fn passes_reuse_test<F: Function, B: Allocator>(f: &F, env: &MachineEnv<B>, inst: Inst) -> bool
    requires { inst < length (F.function f.now).insts }
    ensures { IsTrue result ↔ ReusesAreSound (machine_of env.now) (inst_at (F.function f.now) inst) }
{
    has_no_reuse(f.inst_operands(inst)) || has_valid_reuses(f, env, inst)
}

/// Whether `operand` is fixed to none of `clobbers`, if it is a definition, a late use, or reused:
/// `is_reused` is true.
fn avoids_clobbers(clobbers: PRegSet, operand: Operand, is_reused: bool) -> bool
    ensures { IsTrue result ↔ AvoidsClobbers clobbers operand (IsTrue is_reused) }
{
    let OperandConstraint::FixedReg(preg) = operand.constraint() else {
        return true;
    };
    let is_early_use = operand.kind() == OperandKind::Use && operand.pos() == OperandPos::Early;
    if is_early_use && !is_reused {
        return true;
    }
    !clobbers.contains(preg)
}

/// Whether no definition, late use or reused operand of `operands` is fixed to one of `clobbers`.
fn all_avoid_clobbers(operands: &[Operand], clobbers: PRegSet) -> bool
    ensures { IsTrue result ↔ ((k : ℕ) → k < length operands.now → AvoidsClobbers clobbers (op_at operands.now k) (IsReused operands.now k)) }
{
    let named = named_by_reuses(operands);
    for k in 0..operands.len() {
        let is_reused = is_named(&named, k);
        if !avoids_clobbers(clobbers, operands[k], is_reused) {
            return false;
        }
    }
    true
}

/// Whether no definition, late use or reused operand of `inst` is fixed to one of its clobbers.
fn has_no_clash<F: Function>(f: &F, inst: Inst) -> bool
    requires { inst < length (F.function f.now).insts }
    ensures { IsTrue result ↔ FixedAvoidClobbers (inst_at (F.function f.now) inst) }
{
    all_avoid_clobbers(f.inst_operands(inst), f.inst_clobbers(inst))
}

/// Whether `inst` has no clobbers, or its operands pass `all_avoid_clobbers`.
fn passes_clobber_test<F: Function>(f: &F, inst: Inst) -> bool
    requires { inst < length (F.function f.now).insts }
    ensures { IsTrue result ↔ FixedAvoidClobbers (inst_at (F.function f.now) inst) }
{
    f.inst_clobbers(inst) == PRegSet::empty() || has_no_clash(f, inst)
}

/// Whether `operand` has no `Limit`.
pub fn is_unlimited(operand: Operand) -> bool
    ensures unlimited { IsTrue result ↔ IsUnlimited operand }
    ensures of_class { IsConstraintOf operand.vreg.class operand.constraint }
{
    !matches!(operand.constraint(), OperandConstraint::Limit(_))
}

/// Whether none of `operands` has `Limit`. Not inlined: the walk calls it only where an operand may
/// have one.
#[inline(never)]
pub fn all_unlimited(operands: &[Operand]) -> bool
    ensures unlimited { IsTrue result ↔ ((k : ℕ) → k < length operands.now → IsUnlimited (op_at operands.now k)) }
    ensures taken { IsTrue result ↔ All IsTakenOperand operands.now }
{
    for k in 0..operands.len() {
        if !is_unlimited(operands[k]) {
            return false;
        }
    }
    true
}

/// Whether no operand of `inst` has `Limit`.
fn has_no_limit<F: Function>(f: &F, inst: Inst) -> bool
    requires { inst < length (F.function f.now).insts }
    ensures unlimited { IsTrue result ↔ AreUnlimited (inst_at (F.function f.now) inst) }
    ensures taken { IsTrue result → All IsTakenOperand (inst_at (F.function f.now) inst).operands }
{
    all_unlimited(f.inst_operands(inst))
}

/// Tests the reuses of `f` on the machine `env`. The error is `Unsupported` with the first
/// instruction that fails.
fn validate_reuses<F: Function, B: Allocator>(
    f: &F,
    env: &MachineEnv<B>,
) -> Result<(), RegAllocError>
    ensures ok { IsOk result ↔ ((i : ℕ) → i < length (F.function f.now).insts → ReusesAreSound (machine_of env.now) (inst_at (F.function f.now) i)) }
    ensures first { IfErr result (λ e. (i : ℕ) × (e ≡ RegAllocError.Unsupported i)
        × IsFirst (length (F.function f.now).insts) (λ j. ReusesAreSound (machine_of env.now) (inst_at (F.function f.now) j)) i) }
{
    for i in 0..f.num_insts() {
        let inst = Inst::new(i);
        if !passes_reuse_test(f, env, inst) {
            return Err(RegAllocError::Unsupported(inst));
        }
    }
    Ok(())
}

/// Tests the fixed registers of `f` beside clobbers. The error is `Unsupported` with the first
/// instruction that fails.
fn validate_clobbers<F: Function>(f: &F) -> Result<(), RegAllocError>
    ensures ok { IsOk result ↔ ((i : ℕ) → i < length (F.function f.now).insts → FixedAvoidClobbers (inst_at (F.function f.now) i)) }
    ensures first { IfErr result (λ e. (i : ℕ) × (e ≡ RegAllocError.Unsupported i)
        × IsFirst (length (F.function f.now).insts) (λ j. FixedAvoidClobbers (inst_at (F.function f.now) j)) i) }
{
    for i in 0..f.num_insts() {
        let inst = Inst::new(i);
        if !passes_clobber_test(f, inst) {
            return Err(RegAllocError::Unsupported(inst));
        }
    }
    Ok(())
}

/// Tests the reuses of `f` on the machine `env`, and then its fixed registers beside clobbers.
///
/// A reuse is a late definition; it names an early use that reads a vreg of its class, in any
/// register or fixed to an allocatable register; and no two reuses name one operand. No definition,
/// late use or reused operand is fixed to a clobber of its instruction. The error is `Unsupported`
/// with the first instruction that breaks the first rule, or if there is none, the second. Upstream
/// takes both for granted.
pub fn validate_fixed<F: Function, B: Allocator>(
    f: &F,
    env: &MachineEnv<B>,
) -> Result<(), RegAllocError>
    ensures reuses { OnOk result ((i : ℕ) → i < length (F.function f.now).insts → ReusesAreSound (machine_of env.now) (inst_at (F.function f.now) i)) }
    ensures fixed { OnOk result ((i : ℕ) → i < length (F.function f.now).insts → FixedAvoidClobbers (inst_at (F.function f.now) i)) }
    ensures refused { IfErr result (IsFixedFault (F.function f.now) (machine_of env.now)) }
{
    validate_reuses(f, env)?;
    validate_clobbers(f)
}

/// Tests that no operand of `f` has `Limit`. The error is `Unsupported` with the first instruction
/// that has one.
///
/// Upstream's fast allocator stops the program there.
pub fn validate_limits<F: Function>(f: &F) -> Result<(), RegAllocError>
    ensures ok { IsOk result ↔ ((i : ℕ) → i < length (F.function f.now).insts → AreUnlimited (inst_at (F.function f.now) i)) }
    ensures taken { OnOk result (AreTaken (F.function f.now)) }
    ensures first { IfErr result (λ e. (i : ℕ) × (e ≡ RegAllocError.Unsupported i)
        × IsFirst (length (F.function f.now).insts) (λ j. AreUnlimited (inst_at (F.function f.now) j)) i) }
{
    for i in 0..f.num_insts() {
        let inst = Inst::new(i);
        if !has_no_limit(f, inst) {
            return Err(RegAllocError::Unsupported(inst));
        }
    }
    Ok(())
}

/// Whether `operand` defines nothing, or defines in a register that it names or in a stack place if
/// need be.
fn defines_in_place(operand: Operand) -> bool
    ensures { IsTrue result ↔ DefinesInPlace operand }
{
    if !operand.is_def() {
        return true;
    }
    match operand.constraint() {
        OperandConstraint::Reg | OperandConstraint::Reuse(_) => false,
        _ => true,
    }
}

/// Whether all `operands` pass `defines_in_place`.
fn all_define_in_place(operands: &[Operand]) -> bool
    ensures { IsTrue result ↔ ((k : ℕ) → k < length operands.now → DefinesInPlace (op_at operands.now k)) }
{
    for k in 0..operands.len() {
        if !defines_in_place(operands[k]) {
            return false;
        }
    }
    true
}

/// Whether `inst` is no branch, or defines only in registers that it names and in stack places.
pub fn is_sound_branch<F: Function>(f: &F, inst: Inst) -> bool
    requires { inst < length (F.function f.now).insts }
    ensures { IsTrue result ↔ BranchDefinesInPlace (inst_at (F.function f.now) inst) }
{
    !f.is_branch(inst) || all_define_in_place(f.inst_operands(inst))
}

/// Tests that no branch of `f` has a definition in any register or in the place of another operand.
/// The error is `Unsupported` with the first branch that has one.
///
/// Successors store a branch's definitions at their beginning, and the walk visits a block before
/// the blocks that lead to it. Therefore the place must be known before the branch is allocated.
/// Upstream's fast allocator stops the program there.
pub fn validate_branches<F: Function>(f: &F) -> Result<(), RegAllocError>
    ensures ok { IsOk result ↔ ((i : ℕ) → i < length (F.function f.now).insts → BranchDefinesInPlace (inst_at (F.function f.now) i)) }
    ensures first { IfErr result (λ e. (i : ℕ) × (e ≡ RegAllocError.Unsupported i)
        × IsFirst (length (F.function f.now).insts) (λ j. BranchDefinesInPlace (inst_at (F.function f.now) j)) i) }
{
    for i in 0..f.num_insts() {
        let inst = Inst::new(i);
        if !is_sound_branch(f, inst) {
            return Err(RegAllocError::Unsupported(inst));
        }
    }
    Ok(())
}

/// Whether `inst` has no operand under `Limit`, and is no branch with a definition in any register
/// or by a reuse.
fn passes_operand_tests<F: Function>(f: &F, inst: Inst) -> bool
    requires { inst < length (F.function f.now).insts }
    ensures passed { IsTrue result → AreUnlimited (inst_at (F.function f.now) inst) × BranchDefinesInPlace (inst_at (F.function f.now) inst) }
    ensures failed { IsFalse result → AreUnlimited (inst_at (F.function f.now) inst) → BranchDefinesInPlace (inst_at (F.function f.now) inst) → ⊥ }
    ensures taken { IsTrue result → All IsTakenOperand (inst_at (F.function f.now) inst).operands }
{
    has_no_limit(f, inst) && is_sound_branch(f, inst)
}

/// Whether all instructions of `f` pass both tests.
fn all_pass_operand_tests<F: Function>(f: &F) -> bool
    ensures unlimited { IsTrue result → (i : ℕ) → i < length (F.function f.now).insts → AreUnlimited (inst_at (F.function f.now) i) }
    ensures branches { IsTrue result → (i : ℕ) → i < length (F.function f.now).insts → BranchDefinesInPlace (inst_at (F.function f.now) i) }
    ensures failed { IsFalse result → (i : ℕ) × (i < length (F.function f.now).insts)
        × (AreUnlimited (inst_at (F.function f.now) i) → BranchDefinesInPlace (inst_at (F.function f.now) i) → ⊥) }
    ensures taken { IsTrue result → AreTaken (F.function f.now) }
{
    for i in 0..f.num_insts() {
        if !passes_operand_tests(f, Inst::new(i)) {
            return false;
        }
    }
    true
}

/// Tests that no operand of `f` has `Limit`, and then that no branch has a definition in any
/// register or in the place of another operand, as [`validate_limits`] and [`validate_branches`]
/// do.
///
/// One pass makes both tests, and nearly every function passes it. Only where an instruction fails
/// one are they made one after the other, for the error that comes first.
pub fn validate_operands<F: Function>(f: &F) -> Result<(), RegAllocError>
    ensures unlimited { OnOk result ((i : ℕ) → i < length (F.function f.now).insts → AreUnlimited (inst_at (F.function f.now) i)) }
    ensures taken { OnOk result (AreTaken (F.function f.now)) }
    ensures branches { OnOk result ((i : ℕ) → i < length (F.function f.now).insts → BranchDefinesInPlace (inst_at (F.function f.now) i)) }
    ensures refused { IfErr result (λ e. (i : ℕ) × (e ≡ RegAllocError.Unsupported i) × IsUnsupported (F.function f.now) i) }
{
    if all_pass_operand_tests(f) {
        return Ok(());
    }
    validate_limits(f)?;
    validate_branches(f)
}
