//! Which vregs' values a place holds.

ghost use Rattle.std.specs.Prelude.{◌≡◌, ◌≢◌, ◌<◌, true, IfOk, MatchOption};
ghost use Rattle.regalloc2_names.specs.Register.{VirtualRegister};
ghost use Rattle.regalloc2_names.specs.RegisterBits.{bits_of_vreg};
ghost use Rattle.regalloc2_checker.specs.Report.{AreVRegsInValue};
ghost use Rattle.regalloc2_checker.specs.TableFacts.{facts_now};

use crate::PassingTables;
use crate::lookup::{bits_of, position};
use regalloc2_names::{Allocation, VReg};
use std::alloc::{AllocError, Allocator};

/// Returns whether `place` holds `vreg`.
#[inline(always)]
pub fn holds<A: Allocator + Copy>(values: &PassingTables<A>, place: Allocation, vreg: VReg) -> bool
    ensures { result ≡ facts_now values.now place vreg }
{
    let Some(position) = position(values, place) else {
        return false;
    };
    values.has(position, bits_of(vreg))
}

/// Returns the vreg that `bits` encode, if any.
fn vreg_of(bits: u32) -> Option<VReg>
    ensures vreg { MatchOption result ((v : VirtualRegister) → bits_of_vreg v ≢ bits) (λ v. bits_of_vreg v ≡ bits) }
    ensures small { bits < 4294967296 }
{
    if !VReg::is_bits(bits) {
        return None;
    }
    Some(VReg::from_bits(bits))
}

/// Returns the vregs whose values `place` holds, by rising bits.
#[inline(never)]
pub fn vregs_in<A: Allocator + Copy>(
    alloc: A,
    values: &PassingTables<A>,
    place: Allocation,
) -> Result<Vec<VReg, A>, AllocError>
    ensures { IfOk result (λ r. AreVRegsInValue (λ v. facts_now values.now place v ≡ true) r.items) }
{
    let mut found = Vec::new(alloc);
    let Some(position) = position(values, place) else {
        return Ok(found);
    };
    let members = values.members(position)?;
    for k in 0..members.len() {
        let Some(vreg) = vreg_of(members[k]) else {
            continue;
        };
        found.push(vreg)?;
    }
    Ok(found)
}
