//! The registers of a machine in which values may be, as sets.

ghost use Rattle.std.specs.Prelude.{◌≡◌, ◌↔◌, IsTrue};
ghost use Rattle.regalloc2_names.specs.Register.{Register, has_register};
ghost use Rattle.regalloc2_names.specs.declared.RegClass.{RegClass};
ghost use Rattle.regalloc2_function.specs.Machine.{MachineValue, is_allocatable};
ghost use Rattle.regalloc2_function.specs.Views.{machine_of};
ghost use Rattle.regalloc2_checker.specs.CellRegisters.{AreCellRegisters, IsPlaceIn, IsAllocatablePlace};

use crate::constraints::stack_slots;
use regalloc2_function::MachineEnv;
use regalloc2_names::{Allocation, PRegSet, RegClass};
use std::alloc::Allocator;

/// The registers of a machine: its fixed stack slots, and the registers that may be allocated, to each class and to any
/// class.
#[derive(Drop)]
pub struct CellRegisters {
    pub slots: PRegSet,
    pub by_class: [PRegSet; 3],
    pub any: PRegSet,
}

/// Returns the registers that may be allocated to vregs of `class`.
pub fn allocatable<B: Allocator>(env: &MachineEnv<B>, class: RegClass) -> PRegSet
    ensures { (r : Register) → has_register result r ≡ is_allocatable (machine_of env.now) class r }
{
    let index = class.code();
    env.preferred_regs_by_class[index] | env.non_preferred_regs_by_class[index]
}

/// Returns whether `place` is one of `regs`.
#[inline(always)]
fn is_one_of(regs: &PRegSet, place: Allocation) -> bool
    ensures { IsTrue result ↔ IsPlaceIn regs.now place }
{
    match place.as_reg() {
        Some(reg) => regs.contains(reg),
        None => false,
    }
}

impl CellRegisters {
    /// Returns the registers of `env`.
    pub fn of<B: Allocator>(env: &MachineEnv<B>) -> CellRegisters
        ensures { AreCellRegisters (machine_of env.now) result }
    {
        let int = allocatable(env, RegClass::Int);
        let float = allocatable(env, RegClass::Float);
        let vector = allocatable(env, RegClass::Vector);
        CellRegisters {
            slots: stack_slots(env),
            by_class: [int, float, vector],
            any: int | float | vector,
        }
    }

    /// Returns whether `place` is a register that may be allocated to `class`.
    #[inline(always)]
    pub fn may_hold(&self, class: RegClass, place: Allocation) -> bool
        ensures { (env : MachineValue) → AreCellRegisters env self.now → IsTrue result ↔ IsAllocatablePlace env class place }
    {
        is_one_of(&self.by_class[class.code()], place)
    }

    /// Returns whether `place` is a register that may be allocated to some class.
    #[inline(always)]
    pub fn may_hold_any(&self, place: Allocation) -> bool
        ensures { (env : MachineValue) → AreCellRegisters env self.now → IsTrue result ↔ ((class : RegClass) × IsAllocatablePlace env class place) }
    {
        is_one_of(&self.any, place)
    }
}
