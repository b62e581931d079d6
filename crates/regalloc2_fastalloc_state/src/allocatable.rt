//! The registers that may be allocated.

ghost use Rattle.std.specs.Prelude.{◌≡◌, ◌≢◌, ◌+◌, ◌↔◌, ◌<◌, ◌∷◌, ◌||◌, ◌⊎◌, true, not, filter, Contains, IfSome, IfNone, IfOk, IfErr, None, Some, Bool};
ghost use Rattle.std.specs.Prelude.{slice_index_or};
ghost use Rattle.regalloc2_names.specs.declared.RegClass.{RegClass};
ghost use Rattle.regalloc2_function.specs.Machine.{is_allocatable};
ghost use Rattle.regalloc2_function.specs.Views.{machine_of};
ghost use Rattle.regalloc2_names.specs.Register.{Register, class_code, is_register, has_register};
ghost use Rattle.regalloc2_names.specs.Place.{is_on_stack};
ghost use Rattle.regalloc2_fastalloc_state.specs.Choice.{chosen};
ghost use Rattle.regalloc2_fastalloc_state.specs.ClassLrus.{AreLrusOf};
ghost use Rattle.regalloc2_fastalloc_state.specs.StateParts.{IsLeastRecentIn, NoneIsIn, NoneIsFrom, AreLrus, AreThoseBelow, SameRegisters, lru_of};
ghost use Rattle.regalloc2_fastalloc_state.specs.StateParts.{scratch_reserve_for};

use regalloc2_function::MachineEnv;
use regalloc2_names::{Allocation, PReg, PRegSet, RegAllocError, RegClass};
use regalloc2_parts::lru::Lrus;
use std::alloc::Allocator;
use std::marker::Model;

/// The allocatable registers, and the LRU list of each class.
#[derive(Drop)]
pub struct AllocatableRegs<A: Allocator> {
    allocatable: PRegSet,
    lrus: Lrus<A>,
    /// The registers that are fixed stack slots.
    fixed_stack: PRegSet,
    /// The register of each class that is kept for stack-to-stack moves.
    dedicated_scratch: [Option<PReg>; 3],
    /// The allocatable registers of each class.
    of_class: [PRegSet; 3],
}

impl<A: Allocator> Model for AllocatableRegs<A> {
    ghost use Rattle.regalloc2_fastalloc_state.specs.StateParts.{AllocatableRegsValue, AreLrus, AreSplit, HasSmall};

    ghost Value = { AllocatableRegsValue };

    ghost view = { λ t. record { allocatable = t.allocatable; lrus = t.lrus.items; fixed_stack = t.fixed_stack; dedicated_scratch = t.dedicated_scratch } };

    ghost invariant = { λ t. AreLrus t.allocatable t.lrus.items × AreSplit t.allocatable t.of_class × HasSmall t.fixed_stack };
}

/// The registers of `class` in `set`, by rising number.
fn class_registers<A: Allocator>(
    alloc: A,
    set: PRegSet,
    class: RegClass,
) -> Result<Vec<PReg, A>, RegAllocError>
    ensures ok { IfOk result (λ v. AreThoseBelow set class 64 v.items) }
    ensures err { IfErr result (λ e. e ≡ RegAllocError.Memory) }
{
    let mut regs = Vec::with_capacity(alloc, PReg::MAX + 1)?;
    for number in 0..PReg::MAX + 1 {
        let preg = PReg::new(number, class);
        if set.contains(preg) {
            regs.push(preg)?;
        }
    }
    Ok(regs)
}

/// The LRU list of each class, of the registers of the class in `int`, `float` or `vector`: the
/// lowest number is the most recently used.
fn lrus_of<A: Allocator + Copy>(
    alloc: A,
    int: PRegSet,
    float: PRegSet,
    vector: PRegSet,
) -> Result<Lrus<A>, RegAllocError>
    ensures ok { IfOk result (λ lrus. AreLrusOf int float vector lrus.items) }
    ensures err { IfErr result (λ e. e ≡ RegAllocError.Memory) }
{
    let int_regs = class_registers(alloc, int, RegClass::Int)?;
    let float_regs = class_registers(alloc, float, RegClass::Float)?;
    let vector_regs = class_registers(alloc, vector, RegClass::Vector)?;
    Lrus::new(alloc, &int_regs, &float_regs, &vector_regs)
}

impl<A: Allocator + Copy> AllocatableRegs<A> {
    /// Returns the registers of the machine `env`; in each class the lowest number is the most
    /// recently used.
    pub fn new<B: Allocator>(alloc: A, env: &MachineEnv<B>) -> Result<Self, RegAllocError>
        requires { (c : RegClass) (r : Register) → is_allocatable (machine_of env.now) c r ≡ true → r.class ≡ c }
        ensures ok { IfOk result (λ t. (r : Register) → r.number < 64 → has_register t.allocatable r ≡ true →
            is_allocatable (machine_of env.now) r.class r ≡ true) }
        ensures all { IfOk result (λ t. (r : Register) → is_allocatable (machine_of env.now) r.class r ≡ true → has_register t.allocatable r ≡ true) }
        ensures fixed_stack { IfOk result (λ t. (r : Register) → (has_register t.fixed_stack r ≡ true) ↔ Contains (machine_of env.now).fixed_stack_slots r) }
        ensures dedicated_scratch { IfOk result (λ t. t.dedicated_scratch ≡ (machine_of env.now).scratch) }
        ensures small { IfOk result (λ t. (r : Register) → (has_register t.allocatable r ≡ true) ⊎ (has_register t.fixed_stack r ≡ true) → r.number < 64) }
        ensures err { IfErr result (λ e. e ≡ RegAllocError.Memory) }
        ensures lrus { IfOk result (λ t. AreLrus t.allocatable t.lrus) }
    {
        let int = env.allocatable(RegClass::Int);
        let float = env.allocatable(RegClass::Float);
        let vector = env.allocatable(RegClass::Vector);
        let lrus = lrus_of(alloc, int, float, vector)?;
        Ok(AllocatableRegs {
            allocatable: int | float | vector,
            lrus,
            fixed_stack: PRegSet::from_slice(&env.fixed_stack_slots),
            dedicated_scratch: [
                env.scratch_by_class[0],
                env.scratch_by_class[1],
                env.scratch_by_class[2],
            ],
            of_class: [int, float, vector],
        })
    }
}

impl<A: Allocator> AllocatableRegs<A> {
    /// The registers of all classes that may be allocated, and the fixed stack slots.
    pub fn available_regs(&self) -> PRegSet
        ensures { (r : Register) → has_register result r ≡ has_register self.now.allocatable r || has_register self.now.fixed_stack r }
    {
        self.allocatable | self.fixed_stack
    }

    /// Whether `preg` may be allocated.
    pub fn is_allocatable(&self, preg: PReg) -> bool
        ensures { result ≡ has_register self.now.allocatable preg }
    {
        self.allocatable.contains(preg)
    }

    /// The registers that are fixed stack slots.
    pub fn fixed_stack(&self) -> PRegSet
        ensures { result ≡ self.now.fixed_stack }
    {
        self.fixed_stack
    }

    /// The allocatable register of `class` with the greatest number.
    pub fn preferred_victim(&self, class: RegClass) -> Option<PReg>
        ensures found { IfSome result (λ r. (r.class ≡ class) × (r.number < 64) × (has_register self.now.allocatable r ≡ true)) }
        ensures greatest { IfSome result (λ r. NoneIsFrom self.now.allocatable class (r.number + 1)) }
        ensures none { IfNone result (NoneIsFrom self.now.allocatable class 0) }
    {
        self.of_class(class).max_preg()
    }

    /// Whether `place` is on the stack: a spill slot or a fixed stack slot.
    pub fn is_stack(&self, place: Allocation) -> bool
        ensures { result ≡ is_on_stack self.now.fixed_stack place }
    {
        // `Allocation::is_on_stack` takes the set by value, which is a copy of three words
        match place.as_reg() {
            Some(preg) => self.fixed_stack.contains(preg),
            None => place.is_some(),
        }
    }

    /// The register of `class` that is kept for stack-to-stack moves.
    pub fn dedicated_scratch(&self, class: RegClass) -> Option<PReg>
        ensures { result ≡ slice_index_or self.now.dedicated_scratch (class_code class) None }
    {
        self.dedicated_scratch[class.code()]
    }

    /// The allocatable registers of `class`.
    pub fn of_class(&self, class: RegClass) -> PRegSet
        ensures { (r : Register) → (has_register result r ≡ true) ↔ (r.class ≡ class) × (has_register self.now.allocatable r ≡ true) }
    {
        self.of_class[class.code()]
    }

    /// How many registers of `class` are to be kept for stack-to-stack moves: one if there are
    /// fixed stack slots of the class and no dedicated register for such moves.
    pub fn scratch_reserve_of(&self, class: RegClass) -> usize
        ensures { result ≡ scratch_reserve_for self.now.fixed_stack self.now.dedicated_scratch class }
    {
        if self.fixed_stack.is_empty(class) || self.dedicated_scratch(class).is_some() {
            0
        } else {
            1
        }
    }

    /// Chooses the least recently used of the registers of `class` in `available`.
    ///
    /// `chosen` defines the choice. Nothing else decides it: to change the policy, edit that
    /// definition, and this function with its short cut `first_choice`.
    pub fn choose_register(&self, class: RegClass, available: PRegSet) -> Option<PReg>
        ensures chosen { result ≡ chosen (has_register available) (lru_of self.now class) }
        ensures found { IfSome result (λ r. IsLeastRecentIn self.now class available r) }
        ensures none { IfNone result (NoneIsIn self.now class available) }
    {
        self.lrus.items[class.code()].last(available)
    }

    /// Returns the register that `choose_register` chooses for `class` if all its registers are
    /// available, and from each set that has that register. Searches nothing.
    #[inline(always)]
    pub fn first_choice(&self, class: RegClass) -> Option<PReg>
        ensures chosen { result ≡ chosen (λ r. true) (lru_of self.now class) }
        ensures first { IfSome result (λ r. (available : Register → Bool) → available r ≡ true → chosen available (lru_of self.now class) ≡ Some r) }
        ensures found { IfSome result (λ r. (r.class ≡ class) × (r.number < 64) × (has_register self.now.allocatable r ≡ true)) }
        ensures none { IfNone result (NoneIsFrom self.now.allocatable class 0) }
    {
        self.lrus.items[class.code()].oldest()
    }

    /// Makes `preg` the most recently used register of its class. The order of the rest stays.
    #[inline(always)]
    pub fn poke(&mut self, preg: PReg)
        requires member { has_register self.old.allocatable preg ≡ true }
        ensures machine { SameRegisters self.old self.new }
        ensures newest { lru_of self.new preg.class ≡ preg ∷ filter (λ r. not (is_register preg r)) (lru_of self.old preg.class) }
        ensures others { (class : RegClass) → class ≢ preg.class → lru_of self.new class ≡ lru_of self.old class }
    {
        self.lrus.items[preg.class().code()].poke(preg);
    }
}
