//! The errors in the moves of a call, or in its scratch resources.

ghost use Rattle.std.specs.Prelude.{◌≡◌, ◌≢◌, ◌<◌, ◌≤◌, ◌||◌, true, false, length, ℕ, IfOk, MatchOption};
ghost use Rattle.regalloc2_names.specs.Place.{InRegister, InSlot, is_place, slot_limit};
ghost use Rattle.regalloc2_names.specs.Register.{Register, has_register};
ghost use Rattle.regalloc2_parts.specs.Callmoves.CallMoves.{source, target, HasNone, IsFirstOrNone, NamesNoPlace, HasOtherSource, MovesName, IsLower};
ghost use Rattle.regalloc2_parts.specs.Callmoves.CallMoves.{IsNotFree, IsFreeRegister, IsBorrowedTaken, IsNamedSlot, IsFirstInUseOrNone, IsFoundOrNone};

use super::{CallFault, CallFrame};
use regalloc2_names::{Allocation, PReg, PRegSet, SpillSlot};
use std::alloc::{AllocError, Allocator};
use std::collections::HashMap;
use std::hash::{BuildHasherDefault, FoldHasher};

/// Up to this many moves are compared pairwise, without a table.
const FEW: usize = 16;

/// The source of the move at `at`.
fn source_at(moves: &[(Allocation, Allocation)], at: usize) -> Allocation
    requires { at < length moves.now }
    ensures { result ≡ source moves.now at }
{
    moves[at].0
}

/// The destination of the move at `at`.
fn target_at(moves: &[(Allocation, Allocation)], at: usize) -> Allocation
    requires { at < length moves.now }
    ensures { result ≡ target moves.now at }
{
    moves[at].1
}

/// Whether the move at `at` names no place.
fn names_none(moves: &[(Allocation, Allocation)], at: usize) -> bool
    requires { at < length moves.now }
    ensures yes { result ≡ true → NamesNoPlace moves.now at }
    ensures no { result ≡ false → NamesNoPlace moves.now at → ⊥ }
{
    let none = Allocation::none();
    source_at(moves, at) == none || target_at(moves, at) == none
}

/// The index of the first of `moves` that names no place.
fn find_none(moves: &[(Allocation, Allocation)]) -> Option<usize>
    ensures { IsFirstOrNone (length moves.now) (NamesNoPlace moves.now) result }
{
    for at in 0..moves.len() {
        if names_none(moves, at) {
            return Some(at);
        }
    }
    None
}

/// Whether the moves at `j` and `at` have one destination and two sources.
fn do_differ(moves: &[(Allocation, Allocation)], j: usize, at: usize) -> bool
    requires first { j < length moves.now }
    requires second { at < length moves.now }
    ensures yes { result ≡ true → (target moves.now j ≡ target moves.now at) × (source moves.now j ≢ source moves.now at) }
    ensures no { result ≡ false → target moves.now j ≡ target moves.now at → source moves.now j ≡ source moves.now at }
{
    target_at(moves, j) == target_at(moves, at) && source_at(moves, j) != source_at(moves, at)
}

/// Whether a move before `at` has the destination of the move at `at`, and another source.
fn has_other_source(moves: &[(Allocation, Allocation)], at: usize) -> bool
    requires { at < length moves.now }
    ensures yes { result ≡ true → HasOtherSource moves.now at }
    ensures no { result ≡ false → HasOtherSource moves.now at → ⊥ }
{
    for j in 0..at {
        if do_differ(moves, j, at) {
            return true;
        }
    }
    false
}

/// The index of the first of `moves` whose destination an earlier move has with another source.
/// Compares each move with all earlier moves.
fn find_by_pairs(moves: &[(Allocation, Allocation)]) -> Option<usize>
    ensures { IsFirstOrNone (length moves.now) (HasOtherSource moves.now) result }
{
    for at in 0..moves.len() {
        if has_other_source(moves, at) {
            return Some(at);
        }
    }
    None
}

/// What `find_by_pairs` returns for `moves`, found by a table of destinations: in time linear in
/// the number of moves.
fn find_by_table<A: Allocator + Copy>(
    alloc: A,
    moves: &[(Allocation, Allocation)],
) -> Result<Option<usize>, AllocError>
    ensures { IfOk result (λ found. IsFirstOrNone (length moves.now) (HasOtherSource moves.now) found) }
{
    let mut sources: HashMap<u32, u32, BuildHasherDefault<FoldHasher>, A> = HashMap::new(alloc);
    for at in 0..moves.len() {
        let from = source_at(moves, at).bits();
        let to = target_at(moves, at).bits();
        if let Some(earlier) = sources.insert(to, from)? {
            if earlier != from {
                return Ok(Some(at));
            }
        }
    }
    Ok(None)
}

/// What `find_by_pairs` returns for `moves`, found by the table if that is faster and its memory
/// can be allocated.
fn find_two_sources<A: Allocator + Copy>(
    alloc: A,
    moves: &[(Allocation, Allocation)],
) -> Option<usize>
    ensures { IsFirstOrNone (length moves.now) (HasOtherSource moves.now) result }
{
    if moves.len() <= FEW {
        return find_by_pairs(moves);
    }
    match find_by_table(alloc, moves) {
        Ok(found) => found,
        Err(_) => find_by_pairs(moves),
    }
}

/// Adds `place` to `set` if it is a register.
fn add_place(set: &mut PRegSet, place: Allocation)
    ensures { (r : Register) → has_register set.new r ≡ is_place place (InRegister r) || has_register set.old r }
{
    if let Some(preg) = place.as_reg() {
        set.add(preg);
    }
}

/// The registers that `moves` name.
fn named_registers(moves: &[(Allocation, Allocation)]) -> PRegSet
    ensures yes { (r : Register) → has_register result r ≡ true → MovesName moves.now (InRegister r) }
    ensures no { (r : Register) → MovesName moves.now (InRegister r) → has_register result r ≡ true }
{
    let mut named = PRegSet::empty();
    for at in 0..moves.len() {
        add_place(&mut named, source_at(moves, at));
        add_place(&mut named, target_at(moves, at));
    }
    named
}

/// The index of the first free register of `frame` that is in use.
fn find_taken<A: Allocator>(
    moves: &[(Allocation, Allocation)],
    frame: &CallFrame<A>,
) -> Option<usize>
    ensures { IsFirstOrNone (length frame.now.free_regs.items) (IsNotFree moves.now frame.now) result }
{
    let mut taken = named_registers(moves);
    taken.union_from(frame.stack_pregs);
    for at in 0..frame.free_regs.len() {
        let preg = frame.free_regs[at];
        if taken.contains(preg) {
            return Some(at);
        }
        taken.add(preg);
    }
    None
}

/// Whether `preg` is one of the frame's free registers.
fn is_free<A: Allocator>(frame: &CallFrame<A>, preg: PReg) -> bool
    ensures yes { result ≡ true → IsFreeRegister frame.now preg }
    ensures no { result ≡ false → IsFreeRegister frame.now preg → ⊥ }
{
    let place = Allocation::reg(preg);
    for at in 0..frame.free_regs.len() {
        if place == Allocation::reg(frame.free_regs[at]) {
            return true;
        }
    }
    false
}

/// Whether the borrowed register of `frame` is free or represents a stack place.
fn is_borrowed_taken<A: Allocator>(frame: &CallFrame<A>) -> bool
    ensures yes { result ≡ true → IsBorrowedTaken frame.now }
    ensures no { result ≡ false → IsBorrowedTaken frame.now → ⊥ }
{
    is_free(frame, frame.borrowed) || frame.stack_pregs.contains(frame.borrowed)
}

/// The number of `place`, if it is a slot.
fn slot_number(place: Allocation) -> Option<usize>
    ensures { MatchOption result ((n : ℕ) → place ≢ InSlot n) (λ n. place ≡ InSlot n) }
{
    match place.as_stack() {
        Some(_) => Some(place.index()),
        None => None,
    }
}

/// `number` if it is in `start..lowest`, else `lowest`.
fn lower_number(number: usize, start: usize, lowest: usize) -> usize
    ensures least { result ≤ lowest }
    ensures number { result < lowest → (start ≤ result) × (number ≡ result) }
    ensures other { start ≤ number → result ≤ number }
{
    if start <= number && number < lowest {
        number
    } else {
        lowest
    }
}

/// The number of `place` if it is a slot in `start..lowest`, else `lowest`.
fn lower(place: Allocation, start: usize, lowest: usize) -> usize
    ensures { IsLower place start lowest result }
{
    match slot_number(place) {
        Some(number) => lower_number(number, start, lowest),
        None => lowest,
    }
}

/// The lowest slot of the range of `frame` that a move of `moves` names, or the range's end if no
/// move names one.
fn lowest_slot<A: Allocator>(moves: &[(Allocation, Allocation)], frame: &CallFrame<A>) -> usize
    ensures end { result ≤ frame.now.slots.«end» }
    ensures named { result < frame.now.slots.«end» → IsNamedSlot moves.now frame.now result }
    ensures lower { HasNone result (IsNamedSlot moves.now frame.now) }
{
    let start = frame.slots.start;
    let mut lowest = frame.slots.end;
    for at in 0..moves.len() {
        lowest = lower(source_at(moves, at), start, lowest);
        lowest = lower(target_at(moves, at), start, lowest);
    }
    lowest
}

/// The first place of `frame` that should be free and is in use.
fn find_in_use<A: Allocator>(
    moves: &[(Allocation, Allocation)],
    frame: &CallFrame<A>,
) -> Option<Allocation>
    requires { frame.now.slots.«end» ≤ slot_limit }
    ensures { IsFirstInUseOrNone moves.now frame.now result }
{
    if let Some(at) = find_taken(moves, frame) {
        return Some(Allocation::reg(frame.free_regs[at]));
    }
    if is_borrowed_taken(frame) {
        return Some(Allocation::reg(frame.borrowed));
    }
    let slot = lowest_slot(moves, frame);
    if slot < frame.slots.end {
        return Some(Allocation::stack(SpillSlot::new(slot)));
    }
    None
}

/// The first error of `moves` and `frame`, if any. Without memory for a table, it takes longer.
pub(super) fn find_fault<A: Allocator + Copy, B: Allocator>(
    alloc: A,
    moves: &[(Allocation, Allocation)],
    frame: &CallFrame<B>,
) -> Option<CallFault>
    requires { frame.now.slots.«end» ≤ slot_limit }
    ensures { IsFoundOrNone moves.now frame.now result }
{
    if let Some(at) = find_none(moves) {
        return Some(CallFault::NoneNamed(at));
    }
    if let Some(at) = find_two_sources(alloc, moves) {
        return Some(CallFault::TwoSources(target_at(moves, at)));
    }
    match find_in_use(moves, frame) {
        Some(place) => Some(CallFault::InUse(place)),
        None => None,
    }
}
