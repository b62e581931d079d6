//! Where places and vregs are listed.

ghost use Rattle.std.specs.Prelude.{◌≡◌, true};
ghost use Rattle.regalloc2_names.specs.RegisterBits.{bits_of_vreg};
ghost use Rattle.regalloc2_function.specs.OutputValue.{place_at};
ghost use Rattle.regalloc2_checker.specs.TableFacts.{is_packed, is_packed_vreg, place_in, vreg_in};

use crate::PassingTables;
use regalloc2_names::{Allocation, VReg};
use std::alloc::Allocator;

/// Returns the place of operand `k`, or `none` where the list ends before.
pub fn place_at(places: &[Allocation], k: usize) -> Allocation
    ensures { result ≡ place_at places.now k }
{
    if k < places.len() {
        places[k]
    } else {
        Allocation::none()
    }
}

/// Returns the position at which `place` is listed, if it is.
pub fn position<A: Allocator + Copy>(values: &PassingTables<A>, place: Allocation) -> Option<usize>
    ensures position { result ≡ place_in values.now.places place }
    ensures packed { is_packed place ≡ true }
{
    values.place(place)
}

/// Returns the position at which `vreg` is listed, if it is.
pub fn vreg_position<A: Allocator + Copy>(values: &PassingTables<A>, vreg: VReg) -> Option<usize>
    ensures position { result ≡ vreg_in values.now.vregs vreg }
    ensures packed { is_packed_vreg vreg ≡ true }
{
    values.vreg(vreg.bits() as u32)
}

/// Returns the bits of `vreg`.
pub fn bits_of(vreg: VReg) -> u32
    ensures bits { result ≡ bits_of_vreg vreg }
    ensures packed { is_packed_vreg vreg ≡ true }
{
    vreg.bits() as u32
}
