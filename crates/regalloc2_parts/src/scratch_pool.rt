//! Scratch registers and temporary slots for parallel moves.

ghost use Rattle.std.specs.Prelude.{◌≡◌, ◌⊎◌, false, None, Some, IfOk, IfErr, IsOk};
ghost use Rattle.std.specs.List.{All};
ghost use Rattle.regalloc2_names.specs.Place.{is_on_stack};
ghost use Rattle.regalloc2_parts.specs.Resolved.{has_scratch, moves_listed, IsRunnable};
ghost use Rattle.regalloc2_parts.specs.ScratchPool.{AreNotBothOnStack, AreThere, HasTooFewSlots, IsOrderedWith, IsUsableFor};
ghost use Rattle.regalloc2_parts.specs.Steps.{CanOrder, HasOrdered};

use crate::moves::{MoveAndScratchResolver, MoveFault, MoveVec, MoveVecWithScratch};
use regalloc2_names::{Allocation, PReg, PRegSet};
use std::alloc::Allocator;

/// Two scratch places for moves, one after the other.
#[derive(Clone, Copy)]
pub struct ScratchPair {
    /// Handed out first.
    pub first: Option<Allocation>,
    /// Handed out next.
    pub second: Option<Allocation>,
}

/// The scratch places for moves.
#[derive(Clone, Copy)]
pub struct ScratchPool {
    /// Registers that no move names.
    pub registers: ScratchPair,
    /// Slots that no move names.
    pub slots: ScratchPair,
    /// The registers that represent stack places.
    pub fixed_stack: PRegSet,
    /// A register that is borrowed if there is no scratch register, and restored.
    pub borrowed: PReg,
}

/// Moves that can be made one after another, and how many temporary slots they use.
#[derive(Drop)]
pub struct OrderedMoves<A: Allocator> {
    /// In the order in which they are made.
    pub moves: MoveVec<(), A>,
    /// The number of temporary slots used: 0 to 2.
    pub slots: usize,
}

impl ScratchPair {
    /// Hands out the next place.
    fn take(&mut self) -> Option<Allocation>
        ensures answer { result ≡ self.old.first }
        ensures first { self.new.first ≡ self.old.second }
        ensures second { self.new.second ≡ None }
    {
        let place = self.first;
        self.first = self.second;
        self.second = None;
        place
    }

    /// The number of places.
    fn count(&self) -> usize
        ensures there { AreThere self.now result }
        ensures none { result ≡ 0 → self.now.first ≡ None }
        ensures one { result ≡ 1 → self.now.second ≡ None }
    {
        match (self.first, self.second) {
            (None, _) => 0,
            (Some(_), None) => 1,
            (Some(_), Some(_)) => 2,
        }
    }

    /// The number of places before `next`.
    fn num_before(&self, next: Allocation) -> usize
        ensures there { AreThere self.now result }
        ensures none { result ≡ 0 → (self.now.first ≡ None) ⊎ (Some next ≡ self.now.first) }
        ensures one { result ≡ 1 → (self.now.second ≡ None) ⊎ (Some next ≡ self.now.second) }
    {
        match (self.first, self.second) {
            (None, _) => 0,
            (Some(first), None) => { if first == next { 0 } else { 1 } }
            (Some(first), Some(second)) => {
                if first == next {
                    0
                } else if second == next {
                    1
                } else {
                    2
                }
            }
        }
    }

    /// The number of places that were handed out before `next`; all of them if `next` is none.
    fn num_taken(&self, next: Option<Allocation>) -> usize
        ensures there { AreThere self.now result }
        ensures none { result ≡ 0 → (self.now.first ≡ None) ⊎ (next ≡ self.now.first) }
        ensures one { result ≡ 1 → (self.now.second ≡ None) ⊎ (next ≡ self.now.second) }
    {
        match next {
            Some(place) => self.num_before(place),
            None => self.count(),
        }
    }
}

/// The moves that `resolver` makes, whose closures return the places of `pool`.
fn compute_with_resolver<R, S, M, A: Allocator + Copy>(
    resolver: &mut MoveAndScratchResolver<R, S, M>,
    pool: &ScratchPool,
    moves: MoveVecWithScratch<(), A>,
) -> Result<OrderedMoves<A>, MoveFault>
where
    R: FnMut() -> Option<Allocation>,
    S: FnMut() -> Option<Allocation>,
    M: Fn(Allocation) -> bool,
    requires { CanOrder (λ f. R.pre f) (λ f. S.pre f) (λ f. M.IsAlwaysCallable f) R.FnMut S.FnMut M.Fn resolver.old pool.now moves }
    ensures { HasOrdered pool.now moves result }
{
    match resolver.compute_by_ref(moves) {
        Ok(moves) => {
            // The closure owns the slots: the slot that it would hand out next says how many it did.
            let next = (resolver.get_stackslot)();
            Ok(OrderedMoves {
                moves,
                slots: pool.slots.num_taken(next),
            })
        }
        Err(fault) => Err(fault),
    }
}

impl ScratchPool {
    /// Returns `moves` made with these scratch places, none of them stack-to-stack.
    pub fn compute<A: Allocator + Copy>(
        &self,
        moves: MoveVecWithScratch<(), A>,
    ) -> Result<OrderedMoves<A>, MoveFault>
        requires serves { IsUsableFor self.now (moves_listed moves) }
        requires runnable { IsRunnable moves }
        ensures made { IfOk result (λ m. IsOrderedWith self.now m.slots (moves_listed moves) m.moves.items) }
        ensures there { IfOk result (λ m. AreThere self.now.slots m.slots) }
        ensures err { IfErr result (λ e. e ≡ MoveFault.NoSlot → HasTooFewSlots self.now.slots) }
        ensures plain { has_scratch moves ≡ false → All (λ m. AreNotBothOnStack self.now.fixed_stack m.0 m.1) (moves_listed moves) → IsOk result }
    {
        let fixed_stack = self.fixed_stack;
        let mut registers = self.registers;
        let mut slots = self.slots;
        let mut resolver = MoveAndScratchResolver {
            find_free_reg: move || registers.take(),
            get_stackslot: move || slots.take(),
            is_stack_alloc: |place: Allocation|
                ensures told { result ≡ is_on_stack fixed_stack place }
            { place.is_on_stack(fixed_stack) },
            borrowed_scratch_reg: self.borrowed,
        };
        compute_with_resolver(&mut resolver, self, moves)
    }
}
