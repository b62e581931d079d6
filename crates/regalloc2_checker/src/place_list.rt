//! A list of places.

ghost use Rattle.std.specs.Prelude.{◌≡◌, ◌∷◌, [], OnOk, IfOk, map};
ghost use Rattle.regalloc2_names.specs.Place.{InRegister};
ghost use Rattle.regalloc2_names.specs.Register.{registers_of};
ghost use Rattle.regalloc2_checker.specs.NamedBits.{ArePlacesAdded};

use crate::number_list::NumberList;
use regalloc2_names::{Allocation, PRegSet};
use std::alloc::{AllocError, Allocator};
use std::marker::Model;

/// The bits of the places that were listed. Missing places are left out.
#[derive(Drop)]
pub struct PlaceList<A: Allocator> {
    registers: PRegSet,
    slots: NumberList<A>,
}

impl<A: Allocator> Model for PlaceList<A> {
    ghost use Rattle.std.specs.Prelude.{List, ℕ, ◌++◌, map};
    ghost use Rattle.std.specs.List.{flat_map};
    ghost use Rattle.regalloc2_names.specs.Place.{InRegister};
    ghost use Rattle.regalloc2_names.specs.Register.{registers_of};
    ghost use Rattle.regalloc2_checker.specs.NamedPlaces.{bits_unless_missing};

    ghost Value = { List ℕ };

    ghost view = { λ l. flat_map bits_unless_missing (map InRegister (registers_of l.registers)) ++ l.slots };
}

impl<A: Allocator + Copy> PlaceList<A> {
    /// Returns an empty list, with a cell for each of `slots` slots.
    pub fn new(alloc: A, slots: usize) -> Result<PlaceList<A>, AllocError>
        ensures { IfOk result (λ l. l ≡ []) }
    {
        Ok(PlaceList {
            registers: PRegSet::empty(),
            slots: NumberList::new(alloc, slots)?,
        })
    }

    /// Returns the bits of the registers by rising index, then the bits of the slots.
    pub fn into_numbers(self, alloc: A) -> Result<Vec<u32, A>, AllocError>
        ensures { IfOk result (λ numbers. numbers.items ≡ self) }
    {
        let slots = self.slots.into_numbers(alloc)?;
        let mut numbers = Vec::with_capacity(alloc, slots.len() + 64)?;
        for reg in self.registers {
            numbers.push(Allocation::reg(reg).bits())?;
        }
        numbers.extend_from_slice(&slots)?;
        Ok(numbers)
    }
}

impl<A: Allocator> PlaceList<A> {
    /// Lists `place`, unless it is missing.
    #[inline(always)]
    pub fn list(&mut self, place: Allocation) -> Result<(), AllocError>
        ensures { OnOk result (ArePlacesAdded self.old self.new (place ∷ [])) }
    {
        if let Some(reg) = place.as_reg() {
            self.registers.add(reg);
            return Ok(());
        }
        if place.is_stack() {
            self.slots.list(place.index(), place.bits())?;
        }
        Ok(())
    }

    /// Lists `regs`.
    pub fn list_registers(&mut self, regs: PRegSet)
        ensures { ArePlacesAdded self.old self.new (map InRegister (registers_of regs)) }
    {
        self.registers.union_from(regs);
    }
}
