//! The moves of calls, which are resolved, and computed with the places of a frame.

ghost use Rattle.std.specs.Prelude.{◌≤◌, IfOk};

use super::listed::{Pairs, SLOT, place, write_moves};
use crate::test_alloc::Refusing;
use crate::units::report::Report;
use regalloc2_names::{Allocation, PReg, PRegSet, RegClass};
use regalloc2_parts::callmoves::{CallFault, CallFrame, schedule};
use regalloc2_parts::moves::MoveVec;
use std::alloc::{AllocError, Allocator, Global};

/// A number that stands for no place.
const NONE: usize = 512;

/// A register that stands for a stack place.
const IN_MEMORY: usize = 20;

/// Two slots that are swapped.
const SLOTS: Pairs = &[(SLOT, SLOT + 1), (SLOT + 1, SLOT)];

/// Moves of which one goes from slot to slot, and others read and write p0i.
const MIXED: Pairs = &[(SLOT, SLOT + 1), (0, 2), (SLOT + 3, 0)];

/// A swap of two registers, and a slot that is copied to another.
const CALL: Pairs = &[(0, 1), (1, 0), (SLOT, SLOT + 1)];

/// Moves, the free registers, the borrowed one, the first slot of the range and how many it has.
static CASES: [(Pairs, &[usize], usize, u8, u8); 19] = [
    (SLOTS, &[], 0, 2, 2),
    (MIXED, &[], 0, 4, 2),
    (MIXED, &[], 0, 4, 0),
    (&[(SLOT, SLOT)], &[5], 0, 4, 0),
    (SLOTS, &[5, 6], 0, 4, 2),
    (SLOTS, &[40], 0, 20, 0),
    (SLOTS, &[40], 0, 20, 1),
    (CALL, &[], 2, 8, 2),
    (CALL, &[5, 6], 2, 8, 0),
    (CALL, &[], 2, 8, 1),
    (CALL, &[5], 2, 8, 2),
    (&[(0, 1), (1, 0), (SLOT, SLOT + 1), (3, 0)], &[], 2, 8, 2),
    (CALL, &[], 2, 1, 2),
    (&[(0, 1), (NONE, 2), (3, NONE)], &[0], 2, 8, 2),
    (CALL, &[5, 0], 2, 8, 2),
    (CALL, &[5, 6, 5], 2, 8, 2),
    (CALL, &[5, IN_MEMORY], 2, 8, 2),
    (CALL, &[5, 2], 2, 8, 2),
    (&[(IN_MEMORY, SLOT), (3, 4)], &[5], 2, 8, 0),
];

/// Returns the integer register with the number `number`; past the last register the first ones follow again.
fn register(number: usize) -> PReg {
    PReg::new(number % 64, RegClass::Int)
}

/// Returns the place with the number `number`, or none for [`NONE`].
fn any_place(number: usize) -> Allocation {
    if number == NONE {
        Allocation::none()
    } else {
        place(number)
    }
}

/// Returns a frame with the free registers `free`, the borrowed register `borrowed`, and `slots` slots from `start`
/// on.
fn frame_of(
    alloc: Global,
    free: &[usize],
    borrowed: usize,
    start: u8,
    slots: u8,
) -> Result<CallFrame, AllocError>
    ensures range { IfOk result (λ f. f.slots.start ≤ f.slots.«end») }
    ensures small { IfOk result (λ f. f.slots.«end» ≤ 16777216) }
{
    let mut free_regs = Vec::new(alloc);
    for number in free {
        free_regs.push(register(*number))?;
    }
    let start = usize::from(start);
    Ok(CallFrame {
        free_regs,
        borrowed: register(borrowed),
        stack_pregs: PRegSet::empty().with(register(IN_MEMORY)),
        slots: start..start + usize::from(slots),
    })
}

/// Writes what is made of each case.
pub fn write_scheduled(alloc: Global, out: &mut Report) -> Result<(), AllocError> {
    for (pairs, free, borrowed, start, slots) in &CASES {
        let mut moves = Vec::new(alloc);
        for (from, to) in *pairs {
            moves.push((any_place(*from), any_place(*to)))?;
        }
        let frame = frame_of(alloc, *free, *borrowed, *start, *slots)?;
        match schedule(alloc, moves.as_slice(), &frame) {
            Ok(made) => write_moves(out, "schedule", made.as_slice()),
            Err(fault) => out.row("schedule", &fault),
        }
    }
    Ok(())
}

/// Returns how many moves were made, or why none, by `made`.
fn count_of<A: Allocator>(made: &Result<MoveVec<(), A>, CallFault>) -> Result<usize, CallFault> {
    match made {
        Ok(moves) => Ok(moves.len()),
        Err(fault) => Err(*fault),
    }
}

/// Writes how many moves come of a chain of 50,000 and a cycle of 50,001.
pub fn write_long(alloc: Global, out: &mut Report) -> Result<(), AllocError> {
    let mut moves = vec![in alloc; (place(110_000), place(60_000))]?;
    for at in 100..110_000usize {
        if at < 50_100 || at >= 60_000 {
            moves.push((place(at), place(at + 1)))?;
        }
    }
    let frame = frame_of(alloc, &[], 3, 20, 2)?;
    let made = schedule(alloc, moves.as_slice(), &frame);
    out.row("long", &count_of(&made));
    Ok(())
}

/// Returns whether failed allocations, each in turn, leave the result `wanted`, make it `Memory`, or make it another.
fn answers_refused(
    global: Global,
    moves: &[(Allocation, Allocation)],
    frame: &CallFrame,
    wanted: &Result<usize, CallFault>,
) -> (bool, bool, bool)
    requires range { frame.now.slots.start ≤ frame.now.slots.«end» }
    requires small { frame.now.slots.«end» ≤ 16777216 }
{
    let mut seen = (false, false, false);
    for nth in 1..1000u64 {
        let alloc = Refusing::new(global, nth);
        let answer = count_of(&schedule(&alloc, moves, frame));
        if !alloc.has_refused() {
            seen.2 = seen.2 || answer != *wanted;
            return seen;
        }
        seen.0 = seen.0 || answer == *wanted;
        seen.1 = seen.1 || answer == Err(CallFault::Memory);
        seen.2 = seen.2 || (answer != *wanted && answer != Err(CallFault::Memory));
    }
    (false, false, true)
}

/// Returns the moves of a cycle of 17 slots, and the move `first` before them.
fn cycle_after(
    alloc: Global,
    first: (usize, usize),
) -> Result<Vec<(Allocation, Allocation)>, AllocError> {
    let mut moves = vec![in alloc; (place(first.0), place(first.1))]?;
    for at in 0..17usize {
        moves.push((place(SLOT + at), place(SLOT + (at + 1) % 17)))?;
    }
    Ok(moves)
}

/// Writes what `schedule` makes of a cycle, and its results where an allocation fails.
pub fn write_refused(global: Global, out: &mut Report) -> Result<(), AllocError> {
    for (first, free) in [((0, 1), 5), ((0, SLOT + 2), 5), ((0, 1), 0)] {
        let moves = cycle_after(global, first)?;
        let frame = frame_of(global, &[free], 2, 20, 2)?;
        let wanted = count_of(&schedule(global, moves.as_slice(), &frame));
        let seen = answers_refused(global, moves.as_slice(), &frame, &wanted);
        out.row("scheduled", &wanted);
        out.row("refused: the same, Memory, another", &seen);
    }
    Ok(())
}
