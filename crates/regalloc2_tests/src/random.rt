//! Classes, registers and machines that look random.

ghost use Rattle.std.specs.Prelude.{◌≡◌};

pub use codegen::program::Random;
use regalloc2::{MachineEnv, PReg, PRegSet, RegClass};
use regalloc2_names::CLASSES;
use std::alloc::Global;

/// The first fixed stack slot of each class; the registers that are allocated have lower numbers.
pub const FIRST_SLOT: usize = 40;

/// The register of each class for moves from stack to stack, where there is one.
const SCRATCH: usize = 50;

/// Returns one of the classes, most often the class of integers, by `random`.
pub fn any_class(random: &mut Random) -> RegClass {
    match random.below(4) {
        0 => RegClass::Float,
        1 => RegClass::Vector,
        _ => RegClass::Int,
    }
}

/// Returns the register of `class` with the number `number`; past the last register the first ones follow again.
pub fn preg(number: usize, class: RegClass) -> PReg
    ensures { result.class ≡ class }
{
    PReg::new(number % 64, class)
}

/// Returns the registers of `class` with the numbers from `from` up to `to`.
fn pregs(class: RegClass, from: usize, to: usize) -> PRegSet {
    let mut set = PRegSet::empty();
    for number in from..to {
        set.add(preg(number, class));
    }
    set
}

/// A machine whose only registers are `count` preferred ones for integers.
pub fn integer_machine(alloc: Global, count: usize) -> MachineEnv {
    let empty = PRegSet::empty();
    MachineEnv {
        preferred_regs_by_class: [pregs(RegClass::Int, 0, count), empty, empty],
        non_preferred_regs_by_class: [empty; 3],
        scratch_by_class: [None; 3],
        fixed_stack_slots: Vec::new(alloc),
    }
}

/// Returns a machine, made by `random`, with how many registers of each class an instruction may require.
///
/// The machine has up to seven registers of each class, of which some aren't preferred, with or without two fixed
/// stack slots and a register for moves.
pub fn any_machine(alloc: Global, random: &mut Random) -> Option<(MachineEnv, [usize; 3])> {
    let mut env = integer_machine(alloc, 0);
    let mut most = [0usize; 3];
    for class in &CLASSES {
        let class = *class;
        let at = class.code();
        let has_slots = random.once_in(2);
        let has_scratch = random.once_in(2);
        let preferred = random.below(4).saturating_add(1);
        let count = preferred.saturating_add(random.below(4));
        most[at] = count.saturating_sub(usize::from(has_slots && !has_scratch));
        env.preferred_regs_by_class[at] = pregs(class, 0, preferred);
        env.non_preferred_regs_by_class[at] = pregs(class, preferred, count);
        env.scratch_by_class[at] = has_scratch.then_some(preg(SCRATCH, class));
        if has_slots {
            let slots = [preg(FIRST_SLOT, class), preg(FIRST_SLOT + 1, class)];
            env.fixed_stack_slots.extend_from_slice(&slots).ok()?;
        }
    }
    Some((env, most))
}
