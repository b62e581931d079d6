//! Instructions that require more registers than the machine has.
//!
//! An instruction fits as `Fits` says, in `specs/Fits.antt` of `regalloc2_semantics`.

use crate::explain::cause::{Cause, ConstraintCause, CountCause, Site};
use crate::explain::operands::is_reused;
use crate::explain::stored::{is_allocatable, operands_at};
use crate::named::{has_register, is_register_of, operand_of, vreg_of};
use regalloc2_names::{Operand, OperandConstraint, OperandPos, PReg, PRegSet, RegClass};
use regalloc2_serialize::{StoredFunction, StoredInst};

/// Returns the register that `operand` is fixed to, unless its register isn't allocated.
fn fixed_register(operand: Operand) -> Option<PReg> {
    if operand.as_fixed_nonallocatable().is_some() {
        return None;
    }
    match operand.constraint() {
        OperandConstraint::FixedReg(register) => Some(register),
        _ => None,
    }
}

/// Returns whether `bits` encode an operand that may be in any register of `class`.
pub(crate) fn is_in_any(bits: u64, class: RegClass) -> bool {
    let Some(operand) = operand_of(bits) else {
        return false;
    };
    operand.is_any_reg() && operand.class() == class
}

/// Returns how many of `operands` may be in any register of `class`.
pub(crate) fn count_in_any(operands: &[u64], class: RegClass) -> usize {
    operands
        .iter()
        .filter(|bits| is_in_any(**bits, class))
        .count()
}

/// Returns whether `bits` encode an operand that is fixed to `register`.
fn is_fixed_to(bits: u64, register: PReg) -> bool {
    match operand_of(bits) {
        Some(operand) => operand.constraint() == OperandConstraint::FixedReg(register),
        None => false,
    }
}

/// Returns whether one of `operands` is fixed to `register`.
fn has_fixed_to(operands: &[u64], register: PReg) -> bool {
    operands.iter().any(|bits| is_fixed_to(*bits, register))
}

/// Returns whether `inst` names `register`, by a fixed operand or a clobber.
fn names_register(function: &StoredFunction, inst: usize, register: PReg) -> bool {
    match function.insts.get(inst) {
        Some(data) => {
            has_register(data.clobbers.as_slice(), register)
                || has_fixed_to(data.operands.as_slice(), register)
        }
        None => false,
    }
}

/// Returns how many registers of `class` are allocated.
fn available(function: &StoredFunction, class: RegClass) -> usize {
    let mut count = 0usize;
    for number in 0..=PReg::MAX {
        if is_allocatable(&function.machine_env, PReg::new(number, class)) {
            count = count.saturating_add(1);
        }
    }
    count
}

/// Returns whether `inst` names `register`, and the register is allocated.
pub(crate) fn names_allocated(function: &StoredFunction, inst: usize, register: PReg) -> bool {
    is_allocatable(&function.machine_env, register) && names_register(function, inst, register)
}

/// Returns how many allocated registers of `class` the instruction `inst` names.
pub(crate) fn count_named(function: &StoredFunction, inst: usize, class: RegClass) -> usize {
    let mut count = 0usize;
    for number in 0..=PReg::MAX {
        if names_allocated(function, inst, PReg::new(number, class)) {
            count = count.saturating_add(1);
        }
    }
    count
}

/// Returns whether one of the fixed stack slots `slots` is of `class`.
fn has_slots(slots: &[u8], class: RegClass) -> bool {
    slots.iter().any(|slot| is_register_of(*slot, class))
}

/// Returns how many registers of `class` are reserved for moves between stack places: one, if the class has fixed
/// stack slots and no scratch register.
pub(crate) fn spare(function: &StoredFunction, class: RegClass) -> usize {
    let machine = &function.machine_env;
    let has_scratch = match machine.scratch_by_class.get(class.code()) {
        Some(scratch) => scratch.is_some(),
        None => false,
    };
    usize::from(has_slots(machine.fixed_stack_slots.as_slice(), class) && !has_scratch)
}

/// Returns whether `bits` encode an operand of `class` whose register, if it is fixed, is allocated.
fn is_allocated_in(bits: u64, class: RegClass) -> bool {
    let Some(operand) = operand_of(bits) else {
        return false;
    };
    operand.as_fixed_nonallocatable().is_none() && operand.class() == class
}

/// Returns the index of the first of `operands` that is of `class` and whose register, if it is fixed, is allocated.
pub(crate) fn first_allocated_in(operands: &[u64], class: RegClass) -> Option<usize> {
    operands
        .iter()
        .position(|bits| is_allocated_in(*bits, class))
}

/// Returns whether `bits` encode a vreg of `class`.
fn is_vreg_of(bits: u32, class: RegClass) -> bool {
    match vreg_of(bits) {
        Some(vreg) => vreg.class() == class,
        None => false,
    }
}

/// Returns whether one of `words` encodes a vreg of `class`.
fn has_vreg_of(words: &[u32], class: RegClass) -> bool {
    words.iter().any(|bits| is_vreg_of(*bits, class))
}

/// Returns whether an operand of `insts` is of `class`.
fn operands_name(insts: &[StoredInst], class: RegClass) -> bool {
    for inst in insts {
        if first_allocated_in(inst.operands.as_slice(), class).is_some() {
            return true;
        }
    }
    false
}

/// Returns whether a parameter among `lists` is of `class`.
fn params_name(lists: &[Vec<u32>], class: RegClass) -> bool {
    for params in lists {
        if has_vreg_of(params.as_slice(), class) {
            return true;
        }
    }
    false
}

/// Returns whether an operand or a parameter of `function` is of `class`.
fn names_class(function: &StoredFunction, class: RegClass) -> bool {
    operands_name(function.insts.as_slice(), class)
        || params_name(function.block_params_in.as_slice(), class)
}

/// The registers of a class, counted once for all instructions.
#[derive(Clone, Copy)]
struct Supply {
    class: RegClass,
    /// How many registers are allocated; enough for any instruction if the function names no vreg
    /// of the class.
    available: usize,
    /// How many of them are reserved for moves between stack places.
    spare: usize,
}

impl Supply {
    /// Counts the registers of `class`.
    fn of(function: &StoredFunction, class: RegClass) -> Supply {
        let available = if names_class(function, class) {
            available(function, class)
        } else {
            usize::MAX
        };
        Supply {
            class,
            available,
            spare: spare(function, class),
        }
    }
}

/// Returns the cause if `inst` needs more registers of the class of `supply` than the machine has.
fn class_cause(function: &StoredFunction, inst: usize, supply: Supply) -> Option<CountCause> {
    let Supply {
        class,
        available,
        spare,
    } = supply;
    let data = function.insts.get(inst)?;
    let at_most = data
        .operands
        .len()
        .saturating_add(data.clobbers.len())
        .saturating_add(spare);
    if at_most <= available {
        return None;
    }
    let needed = count_in_any(data.operands.as_slice(), class)
        .saturating_add(count_named(function, inst, class))
        .saturating_add(spare);
    if needed <= available {
        return None;
    }
    Some(CountCause::Registers {
        inst,
        class,
        needed,
        available,
    })
}

/// Returns whether `operand`, at the index `k` of `operands`, occupies its register at `pos`.
fn holds_at(operands: &[u64], k: usize, operand: Operand, pos: OperandPos) -> bool {
    let (is_def, is_late) = (operand.is_def(), operand.is_late());
    match pos {
        OperandPos::Early => !(is_def && is_late) || operand.reused_index().is_some(),
        OperandPos::Late => is_def || is_late || is_reused(operands, k),
    }
}

/// The registers that fixed operands of an instruction occupy early and late.
#[derive(Clone, Copy)]
struct Held {
    early: PRegSet,
    late: PRegSet,
}

impl Held {
    /// Records that `operand`, at the index `k` of `operands`, occupies `register`. Returns whether another operand
    /// occupies it at the same position.
    fn clashes(&mut self, operands: &[u64], k: usize, operand: Operand, register: PReg) -> bool {
        let is_early = holds_at(operands, k, operand, OperandPos::Early);
        let is_late = holds_at(operands, k, operand, OperandPos::Late);
        let clashes = (is_early && self.early.contains(register))
            || (is_late && self.late.contains(register));
        if is_early {
            self.early.add(register);
        }
        if is_late {
            self.late.add(register);
        }
        clashes
    }
}

/// Returns the cause if an operand of `inst` is fixed to a register that it can't get.
fn fixed_cause(function: &StoredFunction, inst: usize) -> Option<(ConstraintCause, Site)> {
    let machine = &function.machine_env;
    let operands = operands_at(function, inst);
    let mut held = Held {
        early: PRegSet::empty(),
        late: PRegSet::empty(),
    };
    for (k, bits) in operands.iter().enumerate() {
        let Some(operand) = operand_of(*bits) else {
            continue;
        };
        let Some(register) = fixed_register(operand) else {
            continue;
        };
        let is_slot = has_register(machine.fixed_stack_slots.as_slice(), register);
        if !is_slot && !is_allocatable(machine, register) {
            return Some((
                ConstraintCause::NoSuchRegister { inst, register },
                Site::Operand(inst, k),
            ));
        }
        if held.clashes(operands, k, operand, register) {
            return Some((
                ConstraintCause::FixedTwice { inst, register },
                Site::Operand(inst, k),
            ));
        }
    }
    None
}

/// Returns the cause if `inst` needs more registers of the class of one of `supplies` than the machine has.
fn count_cause(
    function: &StoredFunction,
    inst: usize,
    supplies: &[Supply],
) -> Option<(Cause, Site)> {
    for supply in supplies {
        if let Some(cause) = class_cause(function, inst, *supply) {
            return Some((Cause::Count(cause), Site::Inst(inst)));
        }
    }
    None
}

/// Returns the cause of `TooManyLiveRegs`: the first instruction of `function` that doesn't fit.
pub(crate) fn live_regs_cause(function: &StoredFunction) -> (Cause, Site) {
    let supplies = [
        Supply::of(function, RegClass::Int),
        Supply::of(function, RegClass::Float),
        Supply::of(function, RegClass::Vector),
    ];
    for inst in 0..function.insts.len() {
        if let Some((cause, site)) = fixed_cause(function, inst) {
            return (Cause::Constraint(cause), site);
        }
        if let Some(found) = count_cause(function, inst, &supplies) {
            return found;
        }
    }
    (Cause::Other, Site::Function)
}
