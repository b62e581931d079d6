//! The moves of calls that are measured.

ghost use Rattle.std.specs.Prelude.{◌≤◌, ◌+◌};

use regalloc2::callmoves::{CallFrame, schedule};
use regalloc2::{Allocation, PReg, PRegSet, RegClass, SpillSlot};
use std::alloc::{AllocError, Global};

/// Of more moves none are made.
const MOST: usize = 1_000_000;

/// How the moves hang together. Each goes from a slot to a slot.
#[derive(Clone, Copy)]
pub enum Shape {
    /// In one cycle: from each slot to the next one.
    Cycle,
    /// In swaps of two slots.
    Swaps,
}

impl Shape {
    /// Returns the shape that `word` names.
    pub fn of(word: &str) -> Option<Shape> {
        match word {
            "callmoves-cycle" => Some(Shape::Cycle),
            "callmoves-swaps" => Some(Shape::Swaps),
            _ => None,
        }
    }

    /// The slot to which the value of slot `from` goes, among `many` moves.
    fn target(self, from: usize, many: usize) -> usize
        requires { from ≤ MOST }
        ensures { result ≤ from + 1 }
    {
        let is_even = from.is_multiple_of(2);
        match self {
            Shape::Cycle if from + 1 < many => from + 1,
            Shape::Cycle => 0,
            Shape::Swaps if is_even => from + 1,
            Shape::Swaps => from.saturating_sub(1),
        }
    }
}

/// `many` moves of a `shape`.
fn moves_of(
    alloc: Global,
    shape: Shape,
    many: usize,
) -> Result<Vec<(Allocation, Allocation)>, AllocError>
    requires { many ≤ MOST }
{
    let mut moves = Vec::new(alloc);
    for number in 0..many {
        let from = SpillSlot::new(number);
        let to = SpillSlot::new(shape.target(number, many));
        moves.push((Allocation::stack(from), Allocation::stack(to)))?;
    }
    Ok(moves)
}

/// Returns whether `moves` were scheduled `times` times, without a free register, so through a borrowed one and two
/// slots.
fn is_repeated(alloc: Global, moves: &[(Allocation, Allocation)], many: usize, times: usize) -> bool
    requires { many ≤ MOST }
{
    let frame = CallFrame {
        free_regs: Vec::new(alloc),
        borrowed: PReg::new(0, RegClass::Int),
        stack_pregs: PRegSet::empty(),
        slots: many + 1..many + 3,
    };
    for _ in 0..times {
        if schedule(alloc, moves, &frame).is_err() {
            return false;
        }
    }
    true
}

/// Returns whether `many` moves of a `shape` were scheduled `times` times.
pub fn is_scheduled(alloc: Global, shape: Shape, many: usize, times: usize) -> bool {
    if many > MOST {
        return false;
    }
    match moves_of(alloc, shape, many) {
        Ok(moves) => is_repeated(alloc, moves.as_slice(), many, times),
        Err(_) => false,
    }
}
