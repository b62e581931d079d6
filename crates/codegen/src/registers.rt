//! The machine's registers, as the allocator's `MachineEnv`.

ghost use Rattle.std.specs.Prelude.{◌≡◌, true, IsTrue, All};
ghost use Rattle.std.specs.List.{list_all};
ghost use Rattle.regalloc2_names.specs.Register.{Register, has_register};
ghost use Rattle.regalloc2_function.specs.Views.{machine_of};
ghost use Rattle.codegen_emit.specs.Pinned.{is_allocated};
ghost use Rattle.codegen.specs.Target.{IsTarget};

use regalloc2::{MachineEnv, PReg, PRegSet, RegClass};
use std::alloc::Global;

/// The caller-saved registers of the System V calling convention.
const CALLER_SAVED: [usize; 9] = [0, 1, 2, 6, 7, 8, 9, 10, 11];

/// The set of the integer registers with these numbers.
fn registers(numbers: &[usize]) -> PRegSet
    requires { IsTrue (list_all is_allocated numbers.now) }
    ensures general { (r : Register) → has_register result r ≡ true → (r.class ≡ RegClass.Int) × (is_allocated r.number ≡ true) }
    ensures all { All (λ n. has_register result (record { number = n; class = RegClass.Int }) ≡ true) numbers.now }
{
    let mut set = PRegSet::empty();
    for number in numbers {
        set.add(PReg::new(*number, RegClass::Int));
    }
    set
}

/// The caller-saved registers that hold numbers. None is reserved as scratch.
///
/// Callee-saved registers aren't allocated: the first slots are kept in them.
pub fn target(alloc: Global) -> MachineEnv
    ensures { IsTarget (machine_of result) }
{
    let none = PRegSet::empty();
    MachineEnv {
        preferred_regs_by_class: [registers(&CALLER_SAVED), none, none],
        non_preferred_regs_by_class: [none; 3],
        scratch_by_class: [None; 3],
        fixed_stack_slots: Vec::new(alloc),
    }
}
