//! Moves in an order in which they can be made.

ghost use Rattle.std.specs.Prelude.{◌≡◌, ◌≢◌, map};
ghost use Rattle.regalloc2_names.specs.Place.{Place, NoPlace};
ghost use Rattle.regalloc2_parts.specs.AtOnce.{ends_of, own_names, in_turn};
ghost use Rattle.regalloc2_parts.specs.Resolved.{moves_listed, has_scratch, with_place, place_or, filled, unscratched, IsRunnable, IsUnnamed, AreBetweenPlaces};

use super::MoveVec;
use regalloc2_names::Allocation;
use std::alloc::{Allocator, Global};

/// Moves in the order in which they are made. If they have a cycle, a scratch place is still to be
/// chosen: until then `Allocation::none()` represents it.
#[derive(Debug, Drop)]
pub enum MoveVecWithScratch<T: Drop, A: Allocator = Global> {
    /// No move names `Allocation::none()`.
    NoScratch(MoveVec<T, A>),
    /// `Allocation::none()` represents a scratch place, which is written before it is read.
    Scratch(MoveVec<T, A>),
}

/// `place`, or `scratch` if it is `Allocation::none()`.
fn or_scratch(place: Allocation, scratch: Allocation) -> Allocation
    ensures { result ≡ place_or scratch place }
{
    if place.is_none() { scratch } else { place }
}

/// Puts `scratch` wherever a move names `Allocation::none()`.
fn fill<T: Copy + Default>(moves: &mut [(Allocation, Allocation, T)], scratch: Allocation)
    ensures { moves.new ≡ map (filled scratch) moves.old }
{
    for at in 0..moves.len() {
        let m = moves[at];
        moves[at] = (or_scratch(m.0, scratch), or_scratch(m.1, scratch), m.2);
    }
}

impl<T: Copy + Default, A: Allocator + Copy> MoveVecWithScratch<T, A> {
    /// Returns the moves with `scratch` in place of `Allocation::none()` if they need a scratch
    /// place, else unchanged.
    ///
    /// `scratch` should be a place that no move names: then each place but `scratch` ends as
    /// before.
    pub fn with_scratch(self, scratch: Allocation) -> MoveVec<T, A>
        ensures items { result.items ≡ with_place scratch self }
        ensures real { scratch ≢ NoPlace → IsRunnable self → AreBetweenPlaces result.items }
        ensures same { scratch ≢ NoPlace → IsRunnable self → IsUnnamed scratch (moves_listed self) → (q : Place) → q ≢ scratch → q ≢ NoPlace →
            in_turn (ends_of result.items) own_names q ≡ in_turn (ends_of (moves_listed self)) own_names q }
    {
        match self {
            MoveVecWithScratch::NoScratch(moves) => moves,
            MoveVecWithScratch::Scratch(mut moves) => {
                fill(moves.as_mut_slice(), scratch);
                moves
            }
        }
    }

    /// Returns the moves if they need no scratch place, else `None`.
    pub fn without_scratch(self) -> Option<MoveVec<T, A>>
        ensures { result ≡ unscratched self }
    {
        match self {
            MoveVecWithScratch::NoScratch(moves) => Some(moves),
            MoveVecWithScratch::Scratch(_) => None,
        }
    }

    /// Returns `true` if the moves need a scratch place.
    pub fn needs_scratch(&self) -> bool
        ensures { result ≡ has_scratch self.now }
    {
        match self {
            MoveVecWithScratch::NoScratch(_) => false,
            MoveVecWithScratch::Scratch(_) => true,
        }
    }
}
