//! The locations of vregs.

ghost use Rattle.std.specs.Prelude.{◌≡◌, ◌≢◌, ◌↔◌, ◌<◌, ◌≤◌, ◌⊎◌, ◌+◌, ◌-◌, ◌^◌, [], true, IsTrue, All, length, IfOk, IfErr, IfSome, IfNone, Option, Some};
ghost use Rattle.regalloc2_names.specs.Place.{InRegister, is_in_register};
ghost use Rattle.regalloc2_names.specs.Register.{Register, VirtualRegister, has_register};
ghost use Rattle.regalloc2_fastalloc_state.specs.StateParts.{IsInverse, IsNewest, alloc_of, vreg_of_preg, SetsAlloc, SetsVRegInPReg, no_allocs, count_after};
ghost use Rattle.regalloc2_fastalloc_state.specs.StateParts.{HasIf, in_front_if, without};
ghost use Rattle.regalloc2_fastalloc_state.specs.FilledRegs.{AreRegistersOf};

use regalloc2_names::{Allocation, PReg, PRegSet, RegAllocError, VReg};
use regalloc2_parts::vregset::VRegSet;
use std::alloc::Allocator;
use std::marker::Model;

/// Where the part of the block that was walked expects each vreg, and which vreg is expected in each register: two
/// tables, each the exact inverse of the other.
#[derive(Drop)]
pub struct VRegAllocs<'a, A: Allocator> {
    /// By vreg number.
    vreg_allocs: Vec<Allocation, A>,
    /// By register index.
    vreg_in_preg: Vec<Option<VReg>, A>,
    /// The vregs in registers, the last filled register's first.
    in_registers: VRegSet<A>,
    /// By vreg number, whether it is counted that the vreg gets or loses its location.
    watched: &'a [bool],
    /// How often a watched vreg got its location or was left without one, up to the greatest `usize`.
    changes: usize,
}

impl<'a, A: Allocator> Model for VRegAllocs<'a, A> {
    ghost use Rattle.std.specs.Prelude.{◌≡◌, length};
    ghost use Rattle.regalloc2_fastalloc_state.specs.StateParts.{VRegAllocsValue, IsInverse};

    ghost Value = { VRegAllocsValue };

    ghost view = { λ t. record { vreg_allocs = t.vreg_allocs.items; vreg_in_preg = t.vreg_in_preg.items; in_registers = t.in_registers.members; watched = t.watched.now; changes = t.changes } };

    ghost invariant = { λ t.
        IsInverse (record { vreg_allocs = t.vreg_allocs.items; vreg_in_preg = t.vreg_in_preg.items; in_registers = t.in_registers.members; watched = t.watched.now; changes = t.changes })
        × (t.in_registers.capacity ≡ length t.vreg_allocs.items) };
}

impl<'a, A: Allocator + Copy> VRegAllocs<'a, A> {
    /// Returns tables for `vregs` vregs, in which no vreg has a location. No change is counted yet.
    pub fn new(alloc: A, vregs: usize, watched: &'a [bool]) -> Result<Self, RegAllocError>
        requires { vregs ≤ VReg.MAX + 1 }
        ensures empty { IfOk result (λ t. t ≡ no_allocs vregs watched.now) }
        ensures err { IfErr result (λ e. e ≡ RegAllocError.Memory) }
    {
        let vreg_allocs = vec![in alloc; Allocation::none(); vregs]?;
        let vreg_in_preg = vec![in alloc; None; PReg::NUM_INDEX]?;
        let in_registers = VRegSet::with_capacity(alloc, vregs)?;
        Ok(VRegAllocs {
            vreg_allocs,
            vreg_in_preg,
            in_registers,
            watched,
            changes: 0,
        })
    }
}

/// Returns the count of changes once the vreg with the number `number` leaves the place `left` for
/// `place`: one more than `changes` if the vreg is watched and one of the places is none.
#[inline(always)]
fn count_after(
    watched: &[bool],
    changes: usize,
    number: usize,
    left: Allocation,
    place: Allocation,
) -> usize
    ensures { result ≡ count_after watched.now changes number left place }
{
    if left.is_some() && place.is_some() {
        return changes;
    }
    if number < watched.len() && watched[number] {
        return changes.saturating_add(1);
    }
    changes
}

/// Records that `vreg` is in `place` from now on, if `place` is a register.
#[inline(always)]
fn set_vreg_in_preg<A: Allocator>(
    vreg_in_preg: &mut Vec<Option<VReg>, A>,
    place: Allocation,
    vreg: Option<VReg>,
)
    requires { length vreg_in_preg.old.items ≡ 256 }
    ensures marks { SetsVRegInPReg vreg_in_preg.old.items vreg_in_preg.new.items place vreg }
    ensures in_range { (r : Register) → place ≡ InRegister r → r.number < 64 }
{
    if let Some(preg) = place.as_reg() {
        vreg_in_preg[preg.index()] = vreg;
    }
}

/// Removes the vreg with the number `number`, which leaves the place `left`, from the list if `left` is
/// a register. The vreg is in the list then.
#[inline(always)]
fn take_out<A: Allocator>(in_registers: &mut VRegSet<A>, left: Allocation, number: usize)
    requires { HasIf (is_in_register left) in_registers.old.members number }
    ensures { in_registers.new ≡ record in_registers.old { members = without number in_registers.old.members } }
{
    if left.is_reg() {
        in_registers.remove(number);
    }
}

/// Puts `vreg`, which isn't in the list, in front if `place` is a register.
#[inline(always)]
fn put_in_front<A: Allocator>(in_registers: &mut VRegSet<A>, place: Allocation, vreg: VReg)
    requires below { vreg.number < in_registers.old.capacity }
    requires absent { All (λ v. v.number ≢ vreg.number) in_registers.old.members }
    ensures { in_registers.new ≡ record in_registers.old { members = in_front_if (is_in_register place) vreg in_registers.old.members } }
{
    if place.is_reg() {
        in_registers.insert(vreg);
    }
}

/// The registers in which `vregs` are located by `vreg_allocs`.
fn registers_of_vregs<A: Allocator>(vregs: &VRegSet<A>, vreg_allocs: &Vec<Allocation, A>) -> PRegSet
    requires { All (λ v. v.number < length vreg_allocs.now.items) vregs.now.members }
    ensures { AreRegistersOf vreg_allocs.now.items vregs.now.members result }
{
    let mut found = PRegSet::empty();
    for vreg in vregs.iter() {
        if let Some(preg) = vreg_allocs[vreg.vreg()].as_reg() {
            found.add(preg);
        }
    }
    found
}

impl<'a, A: Allocator> VRegAllocs<'a, A> {
    /// Returns the place where `vreg` is located, or none.
    pub fn current_alloc(&self, vreg: VReg) -> Allocation
        requires { vreg.number < length self.now.vreg_allocs }
        ensures place { result ≡ alloc_of self.now vreg.number }
        ensures inverse { IsInverse self.now }
    {
        self.vreg_allocs[vreg.vreg()]
    }

    /// Returns the vreg in the register `preg`, if any.
    pub fn vreg_in(&self, preg: PReg) -> Option<VReg>
        ensures vreg { result ≡ vreg_of_preg self.now preg }
        ensures inverse { IsInverse self.now }
        ensures in_range { preg.number ≤ PReg.MAX }
    {
        self.vreg_in_preg[preg.index()]
    }

    /// Returns the registers that hold vregs, in one step for each vreg in a register.
    pub fn filled(&self) -> PRegSet
        ensures { (r : Register) → r.number < 64 → (has_register result r ≡ true) ↔ ((v : VirtualRegister) × (vreg_of_preg self.now r ≡ Some v)) }
    {
        registers_of_vregs(&self.in_registers, &self.vreg_allocs)
    }

    /// Returns the register that was filled last, of the registers that hold vregs.
    pub fn newest_filled(&self) -> Option<PReg>
        ensures some { IfSome result (λ r. IsNewest self.now r) }
        ensures none { IfNone result (self.now.in_registers ≡ []) }
        ensures inverse { IsInverse self.now }
    {
        let vreg = self.in_registers.iter().next()?;
        self.vreg_allocs[vreg.vreg()].as_reg()
    }

    /// How often a watched vreg got its location or was left without one, up to the greatest `usize`.
    pub fn changes(&self) -> usize
        ensures { result ≡ self.now.changes }
    {
        self.changes
    }

    /// Whether the count is still `changes`, and can rise.
    pub fn is_unchanged(&self, changes: usize) -> bool
        ensures { IsTrue result ↔ ((self.now.changes ≡ changes) × (changes < 2 ^ 64 - 1)) }
    {
        self.changes == changes && changes < usize::MAX
    }

    /// Makes `place` the only location of `vreg`.
    pub fn set_alloc(&mut self, vreg: VReg, place: Allocation)
        requires vreg { vreg.number < length self.old.vreg_allocs }
        requires alone { (r : Register) → place ≡ InRegister r → (vreg_of_preg self.old r ≡ None) ⊎ (vreg_of_preg self.old r ≡ Some vreg) }
        ensures settled { SetsAlloc self.old self.new vreg place }
        ensures inverse { IsInverse self.new }
    {
        let number = vreg.vreg();
        let left = self.vreg_allocs[number];
        set_vreg_in_preg(&mut self.vreg_in_preg, left, None);
        take_out(&mut self.in_registers, left, number);
        set_vreg_in_preg(&mut self.vreg_in_preg, place, Some(vreg));
        put_in_front(&mut self.in_registers, place, vreg);
        self.vreg_allocs[number] = place;
        self.changes = count_after(self.watched, self.changes, number, left, place);
    }
}
