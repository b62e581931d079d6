//! Moves between places by their numbers, resolved where no two into one place have two sources, as their list shows.

ghost use Rattle.std.specs.Prelude.{◌≢◌, IsTrue, IfOk, IfSome};
ghost use Rattle.regalloc2_names.specs.Place.{NoPlace};
ghost use Rattle.regalloc2_parts.specs.AtOnce.{ends, ends_of, HasOneSourceEach};
ghost use Rattle.regalloc2_parts.specs.Giving.{IsBefore};
ghost use Rattle.regalloc2_parts.specs.Resolved.{IsRunnable};

use crate::test_alloc::Refusing;
use crate::units::report::Report;
use regalloc2_names::{Allocation, PReg, RegClass, SpillSlot};
use regalloc2_parts::moves::MoveVecWithScratch::{NoScratch, Scratch};
use regalloc2_parts::moves::{MoveFault, MoveVecWithScratch, ParallelMoves};
use std::alloc::{Allocator, Global};

/// A move from a place to a place.
pub type Move = (Allocation, Allocation, u32);

/// The number of the first spill slot.
pub const SLOT: usize = 64;

/// Moves by the numbers of their places.
pub type Pairs = &'static [(usize, usize)];

/// Moves as they are added: a swap, a move of a place to itself, a repeat, a cycle with a branch, two cycles and a
/// chain, and cycles of registers and slots side by side.
static RESOLVED: [Pairs; 6] = [
    &[(0, 1), (1, 0)],
    &[(0, 0)],
    &[(0, 1), (0, 1), (2, 3)],
    &[(0, 1), (1, 2), (2, 0), (0, 3)],
    &[(5, 4), (4, 5), (2, 1), (3, 2), (1, 3), (0, 6), (6, 7)],
    &[(0, SLOT), (SLOT, 0), (0, 1), (SLOT, SLOT + 1)],
];

/// Returns the place with the number `number`: registers below 64, then a million slots; past them the first slots
/// follow again.
pub fn place(number: usize) -> Allocation
    ensures { result ≢ NoPlace }
{
    if number < SLOT {
        Allocation::reg(PReg::new(number, RegClass::Int))
    } else {
        Allocation::stack(SpillSlot::new((number - SLOT) % 1000000))
    }
}

/// Returns what moves between the places of `pairs` resolve to, or `None` if two moves into one place have two
/// sources.
///
/// A move whose memory allocation fails is left out.
pub fn resolved<'a, A: Allocator>(
    global: Global,
    alloc: &'a A,
    pairs: &[(usize, usize)],
) -> Result<Option<MoveVecWithScratch<u32, &'a A>>, MoveFault>
    ensures { IfOk result (λ answer. IfSome answer (λ moves. IsRunnable moves)) }
{
    let mut moves = ParallelMoves::new(alloc);
    let mut list = Vec::new(global);
    for (from, to) in pairs {
        let m = (place(*from), place(*to), 7u32);
        if moves.add(m.0, m.1, m.2).is_ok() {
            list.push(m)?;
        }
    }
    if !has_one_source_each(list.as_mut_slice()) {
        return Ok(None);
    }
    Ok(Some(moves.resolve()?))
}

/// Returns whether no two moves of `list` into one place have two sources. Sorts the list.
fn has_one_source_each(list: &mut [Move]) -> bool
    ensures { IsTrue result → HasOneSourceEach (ends_of list.old) }
{
    list.sort_unstable_by_key(|m| (m.1, m.0));
    list_rises(list)
}

/// Returns whether `a` comes before `b`, or has the same places.
fn is_before(a: Move, b: Move) -> bool
    ensures { IsTrue result → IsBefore (ends a) (ends b) }
{
    let (to, next) = (a.1.bits(), b.1.bits());
    to < next || (a.0.bits() == b.0.bits() && to == next)
}

/// Returns whether the destinations of `list` rise, repeats aside.
fn list_rises(list: &[Move]) -> bool
    ensures { IsTrue result → HasOneSourceEach (ends_of list.now) }
{
    for at in 1..list.len() {
        if !is_before(list[at - 1], list[at]) {
            return false;
        }
    }
    true
}

/// Writes `moves` in their order, in a row of their own that begins with `name`.
pub fn write_moves<T>(out: &mut Report, name: &str, moves: &[(Allocation, Allocation, T)]) {
    out.put(&format_args!("{name}:"));
    for m in moves {
        out.put(&format_args!(" {} -> {},", m.0, m.1));
    }
    out.words("\n");
}

/// Writes what each row resolves to.
pub fn write_resolved(alloc: Global, out: &mut Report) {
    for pairs in &RESOLVED {
        match resolved(alloc, &alloc, *pairs) {
            Ok(Some(NoScratch(m))) => write_moves(out, "resolve", m.as_slice()),
            Ok(Some(Scratch(m))) => write_moves(out, "with scratch", m.as_slice()),
            _ => out.row("resolve", &"nothing"),
        }
    }
}

/// Writes what is left of 17 moves if the allocation for the last of them fails: the 16 before it.
pub fn write_left(global: Global, out: &mut Report) {
    let alloc = Refusing::new(global, 1);
    let mut pairs = [(0, 20); 17];
    for at in 0..pairs.len() {
        pairs[at] = (at, at + 20);
    }
    if let Ok(Some(NoScratch(m))) = resolved(global, &alloc, &pairs) {
        write_moves(out, "the 17th refused", m.as_slice());
    }
}
