//! The moves of one call, in an order in which they can be made one after another.
//!
//! The arguments of a call go to the places that a calling convention names, in parallel.
//! `schedule` turns these parallel moves into a list that does the same step by step and changes no
//! other places than free registers and free slots.

ghost use Rattle.std.specs.Prelude.{◌≡◌, ◌≤◌, length, IfOk, IfErr, MatchResult};
ghost use Rattle.regalloc2_names.specs.Place.{slot_limit};
ghost use Rattle.regalloc2_parts.specs.Callmoves.CallMoves.{fault_of, with_units, HasNone, NamesNoPlace, IsCallFault, IsProper, IsScheduled};

mod fault;
mod frame;

use crate::moves::{MoveFault, MoveVec, ParallelMoves};
use frame::scratch_pool;
use regalloc2_names::{Allocation, PReg, PRegSet};
use smallvec::SmallVec;
use std::alloc::{Allocator, Global};
use std::error::Error;
use std::fmt;
use std::ops::Range;

/// The scratch resources of a call's moves, beside the places that they name.
#[derive(Drop)]
pub struct CallFrame<A: Allocator = Global> {
    /// Registers whose values are not needed. They are handed out from the front.
    pub free_regs: Vec<PReg, A>,
    /// A register that is used if none is free, and restored.
    pub borrowed: PReg,
    /// The registers that represent stack places: no scheduled move goes from stack to stack.
    pub stack_pregs: PRegSet,
    /// Slots whose values are not needed. They are handed out from the start.
    pub slots: Range<usize>,
}

/// Why the moves of a call could not be scheduled: the first of the first three variants that
/// applies, else one of the last two.
#[derive(Clone, Copy, Debug, PartialEq, Eq)]
pub enum CallFault {
    /// The index of the first move that names `Allocation::none()`.
    NoneNamed(usize),
    /// The destination of the first move whose destination an earlier move has, with another source.
    TwoSources(Allocation),
    /// The first place in use that should be free: a free register that a move names, that occurs
    /// earlier in the list or that represents a stack place; the borrowed register, if it is free
    /// or represents a stack place; the lowest slot of the range that a move names.
    InUse(Allocation),
    /// A slot was needed, and the range had none left.
    NoSlot,
    /// A memory allocation failed.
    Memory,
}

/// Writes what is wrong, as `move 2 names no place`.
impl fmt::Display for CallFault {
    ghost use Rattle.std.specs.Prelude.{Some};
    ghost use Rattle.regalloc2_parts.specs.MoveText.{call_fault_text};

    ghost output = { λ e. Some (call_fault_text e) };

    fn fmt<W: fmt::Write>(&self, f: &mut fmt::Formatter<W>) -> fmt::Result {
        match self {
            Self::NoneNamed(index) => write!(f, "move {index} names no place"),
            Self::TwoSources(place) => write!(f, "two moves to {place} have different sources"),
            Self::InUse(place) => write!(f, "{place} is to be free, and is in use"),
            Self::NoSlot => f.write_str("a move needs a slot, and the frame has none left"),
            Self::Memory => f.write_str("out of memory"),
        }
    }
}

impl Error for CallFault {}

impl From<MoveFault> for CallFault {
    ghost use Rattle.std.specs.Prelude.{◌≡◌};
    ghost use Rattle.regalloc2_parts.specs.Callmoves.CallMoves.{fault_of};

    ghost from_gives = { λ e r. r ≡ fault_of e };

    fn from(fault: MoveFault) -> Self {
        match fault {
            MoveFault::NoSlot => CallFault::NoSlot,
            MoveFault::Memory => CallFault::Memory,
        }
    }
}

/// Returns `moves` as parallel moves.
fn in_parallel<A: Allocator + Copy>(
    alloc: A,
    moves: &[(Allocation, Allocation)],
) -> Result<ParallelMoves<(), A>, MoveFault>
    requires { HasNone (length moves.now) (NamesNoPlace moves.now) }
    ensures all { IfOk result (λ p. p ≡ with_units moves.now) }
    ensures memory { IfErr result (λ e. e ≡ MoveFault.Memory) }
{
    let mut parallel = ParallelMoves::new(alloc);
    for m in moves {
        parallel.add(m.0, m.1, ())?;
    }
    Ok(parallel)
}

/// Does what `schedule` does, for `moves` and a `frame` without errors. Orders the moves over
/// `&alloc`, whose size is known, and copies them.
fn schedule_proper<A: Allocator + Copy, B: Allocator>(
    alloc: A,
    moves: &[(Allocation, Allocation)],
    frame: &CallFrame<B>,
) -> Result<MoveVec<(), A>, MoveFault>
    requires range { frame.now.slots.start ≤ frame.now.slots.«end» }
    requires small { frame.now.slots.«end» ≤ slot_limit }
    requires proper { IsProper moves.now frame.now }
    ensures { MatchResult result (λ made. IsScheduled moves.now frame.now made.items) (λ e. IsCallFault moves.now frame.now (fault_of e)) }
{
    let parallel = in_parallel(&alloc, moves)?;
    let resolved = parallel.resolve()?;
    let made = scratch_pool(frame).compute(resolved)?;
    Ok(SmallVec::from_slice(alloc, made.moves.as_slice())?)
}

/// Orders `moves`, the parallel moves of a call, so that they can be made one after another.
///
/// A cycle goes through a free register of `frame`, or else through a slot of its range; a
/// stack-to-stack move goes through a free register, or else through the borrowed register, which
/// is saved in a slot and restored. The range ends at most at 2^24.
///
/// `alloc` allocates the list and the tables used to make it. An error in `moves` or `frame` is
/// reported even if memory runs out.
///
/// The contract leaves the order and the number of the moves open.
pub fn schedule<A: Allocator + Copy, B: Allocator>(
    alloc: A,
    moves: &[(Allocation, Allocation)],
    frame: &CallFrame<B>,
) -> Result<MoveVec<(), A>, CallFault>
    requires range { frame.now.slots.start ≤ frame.now.slots.«end» }
    requires small { frame.now.slots.«end» ≤ slot_limit }
    ensures { MatchResult result (λ made. IsProper moves.now frame.now × IsScheduled moves.now frame.now made.items) (IsCallFault moves.now frame.now) }
{
    if let Some(fault) = fault::find_fault(alloc, moves, frame) {
        return Err(fault);
    }
    match schedule_proper(alloc, moves, frame) {
        Ok(made) => Ok(made),
        Err(fault) => Err(CallFault::from(fault)),
    }
}
