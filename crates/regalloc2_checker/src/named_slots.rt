//! A list of slots with the units that they take.

ghost use Rattle.std.specs.Prelude.{◌≡◌, [], true, ℕ, OnOk, IfOk, Contains};
ghost use Rattle.regalloc2_checker.specs.NamedSlots.{AddsSlots};

use std::alloc::{AllocError, Allocator};
use std::marker::Model;

/// The number of slots for which there is room from the beginning.
const ROOM: usize = 32;

/// Slots that were named, each with the units that it takes there. A slot that is named again with as many units is
/// mostly left out.
#[derive(Drop)]
pub struct NamedSlots<A: Allocator> {
    slots: Vec<(usize, usize), A>,
    /// For each slot below some bound, where in the list it was last added.
    latest: Vec<usize, A>,
}

impl<A: Allocator> Model for NamedSlots<A> {
    ghost use Rattle.std.specs.Prelude.{List, ℕ};

    ghost Value = { List (ℕ × ℕ) };

    ghost view = { λ s. s.slots.items };
}

impl<A: Allocator + Copy> NamedSlots<A> {
    /// Returns an empty list, which recognises slots below `bound`.
    pub fn new(alloc: A, bound: usize) -> Result<NamedSlots<A>, AllocError>
        ensures { IfOk result (λ s. s ≡ []) }
    {
        let slots = Vec::with_capacity(alloc, ROOM)?;
        let latest = Vec::from_elem(alloc, 0, bound)?;
        Ok(NamedSlots { slots, latest })
    }
}

impl<A: Allocator> NamedSlots<A> {
    /// Returns whether `slot` was last added with as many units as `units`.
    #[inline(always)]
    fn is_known(&self, slot: usize, units: usize) -> bool
        ensures { result ≡ true → Contains self.now (slot, units) }
    {
        if slot >= self.latest.len() {
            return false;
        }
        let at = self.latest[slot];
        if at >= self.slots.len() {
            return false;
        }
        let (known, taken) = self.slots[at];
        known == slot && taken == units
    }

    /// Adds `slot`, which takes `units` units.
    #[inline(always)]
    pub fn add(&mut self, slot: usize, units: usize) -> Result<(), AllocError>
        ensures { OnOk result (AddsSlots (λ n u. (n ≡ slot) × (u ≡ units)) self.old self.new) }
    {
        if self.is_known(slot, units) {
            return Ok(());
        }
        let at = self.slots.len();
        self.slots.push((slot, units))?;
        if slot < self.latest.len() {
            self.latest[slot] = at;
        }
        Ok(())
    }

    /// Returns the slots, as a list.
    pub fn into_slots(self) -> Vec<(usize, usize), A>
        ensures { result.items ≡ self }
    {
        self.slots
    }
}
