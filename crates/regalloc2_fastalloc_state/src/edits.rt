//! The moves that the allocator adds.

ghost use Rattle.std.specs.Prelude.{◌≡◌, ◌≤◌, ◌+◌, ◌-◌, ◌^◌, ◌++◌, ◌∷◌, [], OnOk, OnErr, IfOk, IfErr};
ghost use Rattle.std.specs.Prelude.{flat_map, length, map, min, reverse, vec_len, vec_capacity};
ghost use Rattle.regalloc2_function.specs.Views.{edit_of};
ghost use Rattle.regalloc2_fastalloc_state.specs.ScratchPool.{pushed};
ghost use Rattle.regalloc2_fastalloc_state.specs.StateParts.{PointsDescend, AllAtOrAfter, kept_move};

use regalloc2_function::Edit;
use regalloc2_names::{Allocation, ProgPoint, RegAllocError};
use std::alloc::Allocator;
use std::marker::Model;
use std::mem;

/// A move as it is kept until it is listed: its point, source and destination. It takes twelve
/// bytes; a move of the output takes sixteen.
type KeptMove = (ProgPoint, Allocation, Allocation);

/// A chunk has room for at most this many moves: 12 kB of them.
const MAX_MOVES_IN_CHUNK: usize = 1024;

/// A chunk has room for at least this many moves.
const MIN_MOVES_IN_CHUNK: usize = 16;

/// The moves of the part that was walked, in the order in which they were pushed: the last one is
/// listed first, so points never rise. They are kept in chunks, so that no move is copied when the
/// list grows; chunks are freed one by one while moves are listed.
#[derive(Drop)]
pub struct Edits<A: Allocator + Copy> {
    /// The chunks that are full, in the order in which they were filled.
    full: Vec<Vec<KeptMove, A>, A>,
    /// The chunk that is being filled.
    current: Vec<KeptMove, A>,
}

impl<A: Allocator + Copy> Model for Edits<A> {
    ghost use Rattle.std.specs.Prelude.{ℕ, ◌++◌, List, flat_map, map};
    ghost use Rattle.regalloc2_function.specs.OutputValue.{MoveValue};
    ghost use Rattle.regalloc2_fastalloc_state.specs.StateParts.{PointsDescend, kept_move};

    ghost Value = { List (ℕ × MoveValue) };

    ghost view = { λ e. map kept_move (flat_map (λ chunk. chunk.items) e.full.items ++ e.current.items) };

    ghost invariant = { λ e. PointsDescend (map kept_move (flat_map (λ chunk. chunk.items) e.full.items ++ e.current.items)) };
}

/// The move `kept` as the output has it.
fn as_edit(kept: KeptMove) -> (ProgPoint, Edit)
    ensures { edit_of result ≡ kept_move kept }
{
    let (point, from, to) = kept;
    (point, Edit::Move { from, to })
}

/// Adds the chunk `current` to the full chunks, and begins a new chunk with room for as many moves.
#[inline(never)]
fn begin_chunk<A: Allocator + Copy>(
    full: &mut Vec<Vec<KeptMove, A>, A>,
    current: &mut Vec<KeptMove, A>,
) -> Result<(), RegAllocError>
    ensures full { OnOk result (full.new.items ≡ full.old.items ++ current.old ∷ []) }
    ensures current { OnOk result (current.new.items ≡ []) }
    ensures room { OnOk result (vec_len current.old ≤ vec_capacity current.new) }
    ensures kept { OnErr result ((full.new.items ≡ full.old.items) × (current.new ≡ current.old)) }
    ensures err { IfErr result (λ e. e ≡ RegAllocError.Memory) }
{
    let next = Vec::with_capacity(*current.allocator(), current.len())?;
    full.reserve(1)?;
    let filled = mem::replace(current, next);
    full.push_reserved(filled);
    Ok(())
}

/// Appends the moves of `chunk` to `listed`, the last one first. `listed` has room for them.
fn list_chunk<B: Allocator>(listed: &mut Vec<(ProgPoint, Edit), B>, chunk: &[KeptMove])
    requires room { vec_len listed.old + length chunk.now ≤ vec_capacity listed.old }
    ensures listed { map edit_of listed.new.items ≡ map edit_of listed.old.items ++ reverse (map kept_move chunk.now) }
{
    let mut k = chunk.len();
    while k > 0 {
        k -= 1;
        listed.push_reserved(as_edit(chunk[k]));
    }
}

/// Returns how many moves `chunks` have in all, or `usize::MAX` if there are more.
fn moves_in<A: Allocator>(chunks: &[Vec<KeptMove, A>]) -> usize
    ensures { result ≡ min (length (flat_map (λ chunk. chunk.items) chunks.now)) (2 ^ 64 - 1) }
{
    let mut moves = 0usize;
    for chunk in chunks {
        moves = moves.saturating_add(chunk.len());
    }
    moves
}

impl<A: Allocator + Copy> Edits<A> {
    /// Returns an empty list. About `moves` moves are expected: a chunk has room for `moves`, clamped
    /// to `MIN_MOVES_IN_CHUNK..=MAX_MOVES_IN_CHUNK`.
    pub fn with_capacity(alloc: A, moves: usize) -> Result<Self, RegAllocError>
        ensures empty { IfOk result (λ e. e ≡ []) }
        ensures err { IfErr result (λ e. e ≡ RegAllocError.Memory) }
    {
        let room = moves.max(MIN_MOVES_IN_CHUNK).min(MAX_MOVES_IN_CHUNK);
        let current = Vec::with_capacity(alloc, room)?;
        Ok(Edits {
            full: Vec::new(alloc),
            current,
        })
    }

    /// Adds a move at `point`, which comes after the point of no move in the list. The move is listed
    /// before all of them.
    pub fn push(
        &mut self,
        point: ProgPoint,
        from: Allocation,
        to: Allocation,
    ) -> Result<(), RegAllocError>
        requires { AllAtOrAfter point self.old }
        ensures ok { OnOk result (self.new ≡ self.old ++ (point, record { from = from; to = to }) ∷ []) }
        ensures err { IfErr result (λ e. e ≡ RegAllocError.Memory) }
        ensures later { AllAtOrAfter point self.new }
    {
        if self.current.len() == self.current.capacity() {
            begin_chunk(&mut self.full, &mut self.current)?;
        }
        self.current.push((point, from, to))?;
        Ok(())
    }

    /// Adds `moves` at `point`, which comes after the point of no move in the list. The last one is
    /// added first, because moves are listed in the reverse order.
    pub fn push_all(
        &mut self,
        point: ProgPoint,
        moves: &[(Allocation, Allocation, ())],
    ) -> Result<(), RegAllocError>
        requires { AllAtOrAfter point self.old }
        ensures ok { OnOk result (self.new ≡ self.old ++ pushed point moves.now) }
        ensures err { IfErr result (λ e. e ≡ RegAllocError.Memory) }
        ensures later { OnOk result (AllAtOrAfter point self.new) }
    {
        let mut k = moves.len();
        while k > 0 {
            k -= 1;
            let made = moves[k];
            self.push(point, made.0, made.1)?;
        }
        Ok(())
    }

    /// Returns the moves in the order in which they are listed, by rising points. Allocates room for
    /// a quarter of the moves at first, and for the rest once the chunks of the first quarter have
    /// been listed and freed. Therefore the moves never take memory twice.
    pub fn listed<B: Allocator>(self, alloc: B) -> Result<Vec<(ProgPoint, Edit), B>, RegAllocError>
        ensures listed { IfOk result (λ v. map edit_of v.items ≡ reverse self) }
        ensures falling { PointsDescend self }
        ensures err { IfErr result (λ e. e ≡ RegAllocError.Memory) }
    {
        let Edits { mut full, current } = self;
        let room = (moves_in(&full) / 4).max(current.len());
        let mut listed = Vec::with_capacity(alloc, room)?;
        list_chunk(&mut listed, &current);
        drop(current);
        while let Some(chunk) = full.pop() {
            if listed.capacity() - listed.len() < chunk.len() {
                listed.reserve_exact(moves_in(&full).saturating_add(chunk.len()))?;
            }
            list_chunk(&mut listed, &chunk);
        }
        Ok(listed)
    }
}
