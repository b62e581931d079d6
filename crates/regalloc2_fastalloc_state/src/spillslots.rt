//! Spill slots.

ghost use Rattle.std.specs.Prelude.{◌≡◌, ℕ, ◌+◌, ◌-◌, ◌<◌, ◌≤◌, length, IfOk, IfErr, IfSome, IfNone, if◌then◌else◌, slice_index};
ghost use Rattle.regalloc2_names.specs.Place.{InSlot};
ghost use Rattle.regalloc2_fastalloc_state.specs.OutOfResources.{IsResourceErrorIn};
ghost use Rattle.regalloc2_fastalloc_state.specs.StateParts.{SlotsHaveOneOwner, GetsSpillSlot, AddsTempSlots, later_end, later_slot, no_slots, slot_end};
ghost use Rattle.regalloc2_fastalloc_state.specs.StateParts.{most_units, slot_name};

use regalloc2_names::{Allocation, RegAllocError, RegClass, SpillSlot, VReg};
use std::alloc::Allocator;
use std::marker::Model;

/// The spill slot of each vreg, and how many units all slots take.
#[derive(Drop)]
pub struct SpillSlots<A: Allocator> {
    /// By vreg number.
    vreg_spillslots: Vec<Allocation, A>,
    /// How many units the slots take so far.
    count: usize,
    /// How many temporary slots there are, which belong to no vreg.
    num_temp_slots: usize,
    /// How many units a slot of each class takes.
    sizes: [usize; 3],
    /// Whether a slot is named by its last unit.
    by_last: bool,
}

impl<A: Allocator> Model for SpillSlots<A> {
    ghost use Rattle.regalloc2_fastalloc_state.specs.StateParts.{SpillSlotsValue, SlotsHaveOneOwner};

    ghost Value = { SpillSlotsValue };

    ghost view = { λ s. record {
      vreg_spillslots = s.vreg_spillslots.items;
      count = s.count;
      num_temp_slots = s.num_temp_slots;
      sizes = s.sizes;
      by_last = s.by_last;
    } };

    ghost invariant = { λ s. SlotsHaveOneOwner
        (record { vreg_spillslots = s.vreg_spillslots.items; count = s.count; num_temp_slots = s.num_temp_slots; sizes = s.sizes; by_last = s.by_last }) };
}

impl<A: Allocator> SpillSlots<A> {
    /// Returns an empty table for `vregs` vregs.
    pub fn new(
        alloc: A,
        vregs: usize,
        sizes: [usize; 3],
        by_last: bool,
    ) -> Result<Self, RegAllocError>
        requires sizes { (c : ℕ) → c < 3 → 0 < slice_index sizes c × slice_index sizes c ≤ most_units }
        ensures empty { IfOk result (λ s. s ≡ no_slots vregs sizes by_last) }
        ensures owned { IfOk result SlotsHaveOneOwner }
        ensures err { IfErr result (λ e. e ≡ RegAllocError.Memory) }
    {
        let vreg_spillslots = vec![in alloc; Allocation::none(); vregs]?;
        Ok(SpillSlots {
            vreg_spillslots,
            count: 0,
            num_temp_slots: 0,
            sizes,
            by_last,
        })
    }

    /// How many units the slots take.
    pub fn num_units(&self) -> usize
        ensures count { result ≡ self.now.count }
        ensures owned { SlotsHaveOneOwner self.now }
    {
        self.count
    }

    /// Returns the slot of `vreg`, or none.
    pub fn find_spillslot(&self, vreg: VReg) -> Allocation
        requires { vreg.number < length self.now.vreg_spillslots }
        ensures slot { result ≡ slot_name self.now vreg.number }
        ensures owned { SlotsHaveOneOwner self.now }
    {
        self.vreg_spillslots[vreg.vreg()]
    }

    /// Returns the slot of `vreg`, which is made if it has none. The error is `TooManySpillSlots` if the new slot would
    /// end past 2^24 units.
    pub fn get_spillslot(&mut self, vreg: VReg) -> Result<Allocation, RegAllocError>
        requires { vreg.number < length self.old.vreg_spillslots }
        ensures ok { IfOk result (λ p. GetsSpillSlot self.old self.new vreg p) }
        ensures full { IfErr result (λ e. (e ≡ RegAllocError.TooManySpillSlots) × (self.new ≡ self.old) × (most_units < slot_end self.old vreg.class)) }
        ensures lack { IfErr result (IsResourceErrorIn self.new) }
        ensures sizes { self.new.sizes ≡ self.old.sizes }
        ensures vregs { length self.new.vreg_spillslots ≡ length self.old.vreg_spillslots }
        ensures num_temp_slots { self.new.num_temp_slots ≡ self.old.num_temp_slots }
        ensures owned { SlotsHaveOneOwner self.new }
    {
        let number = vreg.vreg();
        let had = self.vreg_spillslots[number];
        if had.is_some() {
            return Ok(had);
        }
        let size = self.sizes[vreg.class().code()];
        let start = self.count.next_multiple_of(size);
        let end = start + size;
        if end > SpillSlot::MAX + 1 {
            return Err(RegAllocError::TooManySpillSlots);
        }
        let slot = Allocation::stack(SpillSlot::new(named_unit(start, size, self.by_last)));
        self.vreg_spillslots[number] = slot;
        self.count = end;
        Ok(slot)
    }

    /// Returns the slot of `class` that would come after `before` new slots of the class, if there is room.
    pub fn next_temp_slot(&self, class: RegClass, before: usize) -> Option<Allocation>
        requires few { before ≤ 1 }
        ensures slot { IfSome result (λ p. p ≡ InSlot (later_slot self.now class before)) }
        ensures room { IfSome result (λ p. later_end self.now class before ≤ most_units) }
        ensures full { IfNone result (most_units < later_end self.now class before) }
        ensures owned { SlotsHaveOneOwner self.now }
    {
        let size = self.sizes[class.code()];
        let start = self.count.next_multiple_of(size) + before * size;
        if start + size > SpillSlot::MAX + 1 {
            return None;
        }
        Some(Allocation::stack(SpillSlot::new(named_unit(start, size, self.by_last))))
    }

    /// Adds `taken` temporary slots of `class`, which belong to no vreg.
    pub fn add_temp_slots(&mut self, class: RegClass, taken: usize)
        requires few { taken ≤ 2 }
        requires room { (k : ℕ) → taken ≡ k + 1 → later_end self.old class k ≤ most_units }
        ensures added { AddsTempSlots self.old self.new class taken }
        ensures owned { SlotsHaveOneOwner self.new }
    {
        let size = self.sizes[class.code()];
        if taken == 0 {
            return;
        }
        self.count = self.count.next_multiple_of(size) + taken * size;
        self.num_temp_slots += taken;
    }
}

/// Returns the unit that names the slot of `size` units from `start` on.
fn named_unit(start: usize, size: usize, by_last: bool) -> usize
    requires size { 0 < size }
    requires few { start + size ≤ most_units }
    ensures unit { result ≡ (if by_last then start + size - 1 else start) }
    ensures within { start ≤ result × result < start + size }
{
    if by_last { start + size - 1 } else { start }
}
