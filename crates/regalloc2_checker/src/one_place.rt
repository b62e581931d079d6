//! The set of vregs that one place holds: taking a vreg out of it, and meeting it with another set.

ghost use Rattle.std.specs.Prelude.{◌≡◌, ◌≢◌, ◌⊎◌, ℕ, ◌<◌, true, false, ◌&&◌, nat_eq, if◌then◌else◌, length, IfOk, OnOk, OnErr};
ghost use Rattle.regalloc2_checker_sets.specs.SavedNumbers.{number_now};
ghost use Rattle.regalloc2_checker_sets.specs.EntrySets.{is_member, IsLess};
ghost use Rattle.regalloc2_checker_sets.specs.Held.{held, AreBelow, AreStill};

use regalloc2_checker_sets::entries::Entries;
use regalloc2_checker_sets::sets::Sets;
use std::alloc::{AllocError, Allocator};

/// Takes the vreg of the encoding `bits` out of `place`. A place past the array holds nothing.
#[inline(always)]
pub fn drop_at<A: Allocator + Copy>(
    entries: &mut Entries<A>,
    sets: &mut Sets<A>,
    place: usize,
    bits: u32,
) -> Result<(), AllocError>
    requires { AreBelow sets.old entries.old }
    ensures still { AreStill sets.old entries.old sets.new entries.new }
    ensures ok { OnOk result ((i y : ℕ) → i < length entries.old.cells → held sets.new entries.new i y
        ≡ (if nat_eq i place && nat_eq y bits then false else held sets.old entries.old i y)) }
    ensures err { OnErr result (entries.new ≡ entries.old) }
{
    if place >= entries.len() {
        return Ok(());
    }
    let set = entries.get(place);
    let less = sets.without(set, bits)?;
    entries.set(place, less);
    Ok(())
}

/// Keeps at `place` only the members of the set `had`. Returns whether `had` has more of them, or `before` is set.
pub fn meet_at<A: Allocator + Copy>(
    entries: &mut Entries<A>,
    sets: &mut Sets<A>,
    place: usize,
    had: u32,
    before: bool,
) -> Result<bool, AllocError>
    requires place { place < length entries.old.cells }
    requires below { AreBelow sets.old entries.old }
    requires had { had < length sets.old }
    ensures still { AreStill sets.old entries.old sets.new entries.new }
    ensures words { entries.new.words ≡ entries.old.words }
    ensures others { (i : ℕ) → (i ≡ place → ⊥) → number_now entries.new i ≡ number_now entries.old i }
    ensures met { OnOk result ((y : ℕ) → held sets.new entries.new place y ≡ (is_member sets.old had y && held sets.old entries.old place y)) }
    ensures less { IfOk result (λ less. less ≡ true → (before ≡ true) ⊎ IsLess (is_member sets.old had) (held sets.old entries.old place)) }
    ensures same { IfOk result (λ less. less ≡ false → (before ≡ false)
        × ((y : ℕ) → is_member sets.old had y ≡ true → held sets.old entries.old place y ≡ true)) }
    ensures err { OnErr result (entries.new ≡ entries.old) }
{
    if entries.get(place) == had {
        return Ok(before);
    }
    let common = sets.common(had, entries.get(place))?;
    entries.set(place, common);
    Ok(before | (common != had))
}
