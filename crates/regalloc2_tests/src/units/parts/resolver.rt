//! A move resolver whose closures return one register and two slots, each once.
//!
//! The rows are worked out by hand: a cycle goes through the first place that is returned. A move
//! from slot to slot goes through the next register, or else through p0i, which is saved in a slot
//! before it and restored after the last move that uses it.

ghost use Rattle.std.specs.Prelude.{◌≡◌, ◌≢◌, ◌↔◌, true, false, Bool, Option, None, Some, IsTrue};
ghost use Rattle.regalloc2_names.specs.Place.{Place, is_in_slot};
ghost use Rattle.regalloc2_parts.specs.Resolved.{moves_listed, IsRunnable, IsUnnamed};
ghost use Rattle.regalloc2_tests.specs.Serving.{AreApart, Serves};

use super::listed::{Move, Pairs, SLOT, place, resolved, write_moves};
use crate::units::report::Report;
use regalloc2_names::{Allocation, PReg, RegClass};
use regalloc2_parts::moves::MoveVecWithScratch::{NoScratch, Scratch};
use regalloc2_parts::moves::{MoveAndScratchResolver, MoveFault, MoveVec, MoveVecWithScratch};
use std::alloc::{Allocator, Global};
use std::mem::replace;

/// The numbers of a register and of two slots, where they are free.
type Numbers = (Option<usize>, Option<usize>, Option<usize>);

/// No free place.
const NONE: Numbers = (None, None, None);

/// A free register.
const REGISTER: Numbers = (Some(5), None, None);

/// A free slot.
const ONE_SLOT: Numbers = (None, Some(SLOT + 9), None);

/// Two free slots.
const TWO_SLOTS: Numbers = (None, Some(SLOT + 2), Some(SLOT + 3));

/// A free register and a free slot.
const BOTH: Numbers = (Some(50), Some(SLOT + 9), None);

/// Two registers that are swapped.
const SWAP: Pairs = &[(0, 1), (1, 0)];

/// Two slots that are swapped.
const SWAP_SLOTS: Pairs = &[(SLOT, SLOT + 1), (SLOT + 1, SLOT)];

/// Moves, one of them from slot to slot; the borrowed register is read and written by others.
const MIXED: Pairs = &[(SLOT, SLOT + 1), (0, 2), (SLOT + 3, 0)];

/// Moves, and the places that are free.
static CASES: [(Pairs, Numbers); 11] = [
    (&[(0, 1), (SLOT, 2)], BOTH),
    (SWAP, BOTH),
    (SWAP, ONE_SLOT),
    (SWAP, NONE),
    (&[(SLOT, SLOT + 1)], REGISTER),
    (&[(SLOT, SLOT)], REGISTER),
    (
        &[(SLOT, SLOT + 1), (0, SLOT + 2), (SLOT + 3, SLOT + 4)],
        ONE_SLOT,
    ),
    (SWAP_SLOTS, BOTH),
    (SWAP_SLOTS, TWO_SLOTS),
    (MIXED, ONE_SLOT),
    (MIXED, NONE),
];

/// Resolved moves.
type Resolved<'a, A> = MoveVecWithScratch<u32, &'a A>;

/// Moves that can be made, or why there are none.
type Computed<'a, A> = Result<MoveVec<u32, &'a A>, MoveFault>;

/// A register and two slots, where they are free.
type Places = (Option<Allocation>, Option<Allocation>, Option<Allocation>);

/// The register and the slot that a resolver returns next, if any.
type Left = (Option<Allocation>, Option<Allocation>);

/// Returns whether `m` is neither from `place` nor to it.
fn is_apart(m: Move, place: Allocation) -> bool
    ensures { IsTrue result ↔ ((m.0 ≢ place) × (m.1 ≢ place)) }
{
    m.0 != place && m.1 != place
}

/// Returns whether none of `moves` names `place`.
fn is_unnamed(moves: &[Move], place: Allocation) -> bool
    ensures { IsTrue result ↔ IsUnnamed place moves.now }
{
    moves.iter().all(|m| is_apart(*m, place))
}

/// Returns whether none of `moves` names `place`, and it is a slot exactly if `is_slot`; also if there is no place.
fn serves<A: Allocator>(moves: &Resolved<'_, A>, place: Option<Allocation>, is_slot: bool) -> bool
    ensures { IsTrue result → Serves (moves_listed moves.now) place is_slot }
{
    let Some(p) = place else {
        return true;
    };
    if p.is_stack() != is_slot || p.is_none() {
        return false;
    }
    match moves {
        NoScratch(list) => is_unnamed(list.as_slice(), p),
        Scratch(list) => is_unnamed(list.as_slice(), p),
    }
}

/// Returns whether `first` and `second` differ, or one of them is no place.
fn differ(first: Option<Allocation>, second: Option<Allocation>) -> bool
    ensures { IsTrue result → AreApart first second }
{
    let Some(p) = first else {
        return true;
    };
    let Some(q) = second else {
        return true;
    };
    p != q
}

/// Returns whether `free` are a register and two slots that differ and that none of `moves` names.
fn all_serve<A: Allocator>(moves: &Resolved<'_, A>, free: Places) -> bool
    ensures register { IsTrue result → Serves (moves_listed moves.now) free.0 false }
    ensures slots { IsTrue result → Serves (moves_listed moves.now) free.1 true × Serves (moves_listed moves.now) free.2 true }
    ensures apart { IsTrue result → AreApart free.1 free.2 }
{
    if !serves(moves, free.0, false) {
        return false;
    }
    if !serves(moves, free.1, true) {
        return false;
    }
    if !serves(moves, free.2, true) {
        return false;
    }
    differ(free.1, free.2)
}

/// Returns what `resolver` makes of `moves`, if its places `free` serve them; and what it has left, if it is called
/// by reference (`by_ref`).
fn computed<'a, A: Allocator, R, S, M>(
    mut resolver: MoveAndScratchResolver<R, S, M>,
    free: Places,
    moves: Resolved<'a, A>,
    by_ref: bool,
) -> Option<(Computed<'a, A>, Option<Left>)>
where
    R: FnMut() -> Option<Allocation>,
    S: FnMut() -> Option<Allocation>,
    M: Fn(Allocation) -> bool,
    requires registers { (f : _) → R.pre f }
    requires slots { (f : _) → S.pre f }
    requires stack { M.IsAlwaysCallable resolver.is_stack_alloc }
    requires first { (a : Option Place) (t : R) → R.step resolver.find_free_reg a t → (a ≡ free.0) × ((b : Option Place) (u : R) → R.step t b u → b ≡ None) }
    requires second { (a : Option Place) (t : S) → S.step resolver.get_stackslot a t → (a ≡ free.1) × ((b : Option Place) (u : S) → S.step t b u → b ≡ free.2) }
    requires tells { (p : Place) (b : Bool) → M.post resolver.is_stack_alloc p b → b ≡ is_in_slot p }
    requires runnable { IsRunnable moves }
{
    if !all_serve(&moves, free) {
        return None;
    }
    if !by_ref {
        return Some((resolver.compute(moves), None));
    }
    let made = resolver.compute_by_ref(moves);
    let left = ((resolver.find_free_reg)(), (resolver.get_stackslot)());
    Some((made, Some(left)))
}

/// Returns the place with the number `number`, if there is one.
fn place_of(number: Option<usize>) -> Option<Allocation> {
    number.map(place)
}

/// Returns what a resolver makes of `moves` with the places `free`, if these serve them; and what it has left, if it
/// is called by reference (`by_ref`).
pub fn computed_with<'a, A: Allocator>(
    free: Numbers,
    moves: Resolved<'a, A>,
    by_ref: bool,
) -> Option<(Computed<'a, A>, Option<Left>)>
    requires { IsRunnable moves }
{
    let free = (place_of(free.0), place_of(free.1), place_of(free.2));
    let (mut register, mut slot, mut last) = free;
    let resolver = MoveAndScratchResolver {
        find_free_reg: move || register.take(),
        get_stackslot: move || replace(&mut slot, last.take()),
        is_stack_alloc: |place: Allocation|
            ensures told { result ≡ is_in_slot place }
        { place.is_stack() },
        borrowed_scratch_reg: PReg::new(0, RegClass::Int),
    };
    computed(resolver, free, moves, by_ref)
}

/// Writes what the resolver makes of the moves of `case`; or how many, with what it has left, if it is called by
/// reference (`by_ref`).
fn write_case(alloc: Global, out: &mut Report, case: (Pairs, Numbers), by_ref: bool) {
    let Ok(Some(moves)) = resolved(alloc, &alloc, case.0) else {
        return;
    };
    let Some((made, left)) = computed_with(case.1, moves, by_ref) else {
        return;
    };
    if let Some(left) = left {
        let count = made.map(|m| m.len());
        out.row("by reference", &(count, left));
        return;
    }
    match made {
        Ok(m) => write_moves(out, "compute", m.as_slice()),
        Err(fault) => out.row("compute", &fault),
    }
}

/// Writes of each case whether its moves need a scratch place, how many there are if not, and what the resolver makes
/// of them.
pub fn write_computed(alloc: Global, out: &mut Report) {
    for case in &CASES {
        if let Ok(Some(moves)) = resolved(alloc, &alloc, case.0) {
            let needs_scratch = moves.needs_scratch();
            let count = moves.without_scratch().map(|m| m.len());
            out.row("needs scratch", &(needs_scratch, count));
        }
        write_case(alloc, out, *case, false);
        write_case(alloc, out, *case, true);
    }
}
