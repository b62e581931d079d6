//! Parallel moves, put in an order in which they can be made one after another.
//!
//! The moves of a branch's arguments or of a call's are a parallel assignment: each destination
//! gets what its source held before any of them. The order is found by a walk from each move to the
//! one that writes its source; a cycle is broken through a scratch place.

ghost use Rattle.std.specs.Prelude.{◌≡◌, ◌≢◌, ◌↔◌, ◌<◌, ◌≤◌, length, [], ◌∷◌, ◌++◌, IsTrue, IsOk, IfOk, OnOk, OnErr, IfErr, IfSome, IfNone};
ghost use Rattle.regalloc2_names.specs.Place.{NoPlace};
ghost use Rattle.regalloc2_parts.specs.AtOnce.{ends_of, HasOneSourceEach};

mod order;
mod passing;
mod resolved;
mod scratch;

use regalloc2_names::{Allocation, RegAllocError};
pub use resolved::MoveVecWithScratch;
pub use scratch::MoveAndScratchResolver;
use smallvec::SmallVec;
use std::alloc::{AllocError, AllocFailed, Allocator, Global};
use std::error::Error;
use std::fmt;
use std::marker::Model;

/// Moves in the order in which they are made: source, destination and a value of the caller's. Up
/// to 16 are stored inline.
pub type MoveVec<T, A = Global> = SmallVec<(Allocation, Allocation, T), 16, A>;

/// Why moves could not be resolved.
#[derive(Clone, Copy, Debug, PartialEq, Eq)]
pub enum MoveFault {
    /// A spill slot was needed, and the resolver's `get_stackslot` returned none.
    NoSlot,
    /// A memory allocation failed.
    Memory,
}

/// Writes what is wrong, as `a move needs a spill slot, and there is none`.
impl fmt::Display for MoveFault {
    ghost use Rattle.std.specs.Prelude.{Some};
    ghost use Rattle.regalloc2_parts.specs.MoveText.{move_fault_text};

    ghost output = { λ e. Some (move_fault_text e) };

    fn fmt<W: fmt::Write>(&self, f: &mut fmt::Formatter<W>) -> fmt::Result {
        match self {
            Self::NoSlot => f.write_str("a move needs a spill slot, and there is none"),
            Self::Memory => f.write_str("out of memory"),
        }
    }
}

impl Error for MoveFault {}

impl From<AllocError> for MoveFault {
    ghost use Rattle.std.specs.Prelude.{◌≡◌};
    ghost use Rattle.regalloc2_parts.specs.declared.moves.MoveFault.TheVariants.{Memory};

    ghost from_gives = { λ _ r. r ≡ Memory };

    fn from(_: AllocError) -> Self {
        MoveFault::Memory
    }
}

impl<T: Drop> From<AllocFailed<T>> for MoveFault {
    ghost use Rattle.std.specs.Prelude.{◌≡◌};
    ghost use Rattle.regalloc2_parts.specs.declared.moves.MoveFault.TheVariants.{Memory};

    ghost from_gives = { λ _ r. r ≡ Memory };

    fn from(_: AllocFailed<T>) -> Self {
        MoveFault::Memory
    }
}

impl From<MoveFault> for RegAllocError {
    ghost use Rattle.std.specs.Prelude.{◌≡◌};
    ghost use Rattle.regalloc2_parts.specs.ScratchPool.{error_of};

    ghost from_gives = { λ e r. r ≡ error_of e };

    fn from(fault: MoveFault) -> Self {
        match fault {
            MoveFault::NoSlot => RegAllocError::TooManySpillSlots,
            MoveFault::Memory => RegAllocError::Memory,
        }
    }
}

/// Parallel moves, specified as their list in the order in which they were added.
///
/// The first 16 are stored inline and allocate nothing.
#[derive(Drop)]
pub struct ParallelMoves<T: Drop, A: Allocator = Global> {
    parallel_moves: MoveVec<T, A>,
}

impl<T: Drop, A: Allocator> Model for ParallelMoves<T, A> {
    ghost use Rattle.std.specs.Prelude.{List, ◌≤◌};
    ghost use Rattle.regalloc2_names.specs.Place.{Place};
    ghost use Rattle.regalloc2_parts.specs.AtOnce.{AreReal};

    ghost Value = { List (Place × Place × T) };

    ghost view = { λ p. p.parallel_moves.items };

    ghost invariant = { λ p. AreReal p.parallel_moves.items × (16 ≤ p.parallel_moves.capacity) };
}

impl<T: Copy + Default, A: Allocator + Copy> ParallelMoves<T, A> {
    ghost use Rattle.regalloc2_parts.specs.Resolved.{moves_listed, has_scratch, IsResolution, IsRunnable};

    /// Returns an empty list of moves.
    pub fn new(alloc: A) -> Self
        ensures { result ≡ [] }
    {
        ParallelMoves {
            parallel_moves: SmallVec::new(alloc),
        }
    }

    /// Adds a move from `from` to `to` that carries `t`. Returns `Memory` only from the 17th move
    /// on; nothing changes then.
    pub fn add(&mut self, from: Allocation, to: Allocation, t: T) -> Result<(), MoveFault>
        requires from { from ≢ NoPlace }
        requires to { to ≢ NoPlace }
        ensures ok { OnOk result (self.new ≡ self.old ++ (from, to, t) ∷ []) }
        ensures err { OnErr result (self.new ≡ self.old) }
        ensures memory { IfErr result (λ e. e ≡ MoveFault.Memory) }
        ensures inline { length self.old < 16 → IsOk result }
    {
        // `resolve` compares places by their encodings
        prove!(Allocation::is_bits(from.bits()));
        prove!(Allocation::is_bits(to.bits()));
        self.parallel_moves.push((from, to, t))?;
        Ok(())
    }

    /// Returns `true` if there are no moves.
    pub fn is_empty(&self) -> bool
        ensures { IsTrue result ↔ (self.now ≡ []) }
    {
        self.parallel_moves.is_empty()
    }

    /// Returns source and destination of the one move, if there is just one, without the value it
    /// carries.
    #[inline(always)]
    pub fn only(&self) -> Option<(Allocation, Allocation)>
        ensures one { IfSome result (λ m. (t : T) × (self.now ≡ (m.0, m.1, t) ∷ [])) }
        ensures none { IfNone result (length self.now ≢ 1) }
    {
        let moves = self.parallel_moves.as_slice();
        if moves.len() != 1 {
            return None;
        }
        Some((moves[0].0, moves[0].1))
    }

    /// Orders the moves so that they can be made one after another as if in parallel.
    ///
    /// Two moves into one place must be one and the same move. Returns `Memory` if a memory
    /// allocation fails, never for fewer than two moves.
    ///
    /// The contract leaves open the order, and what a move into the scratch place carries.
    pub fn resolve(self) -> Result<MoveVecWithScratch<T, A>, MoveFault>
        requires { HasOneSourceEach (ends_of self) }
        ensures resolved { IfOk result (λ r. IsResolution self (has_scratch r) (moves_listed r)) }
        ensures runnable { IfOk result (λ r. IsRunnable r) }
        ensures short { length self ≤ 1 → IsOk result }
        ensures memory { IfErr result (λ e. e ≡ MoveFault.Memory) }
    {
        order::resolve(self.parallel_moves)
    }
}
