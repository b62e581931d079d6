//! A scratch place for cycles, and a register for stack-to-stack moves.

ghost use Rattle.std.specs.Prelude.{◌≡◌, ◌⊎◌, true, false, IfOk, IfErr, MatchResult};
ghost use Rattle.regalloc2_names.specs.Place.{InRegister};
ghost use Rattle.regalloc2_parts.specs.Tracking.{CanExpandBy, IsExpanded};
ghost use Rattle.regalloc2_parts.specs.Computed.{CanAsk, CanCompute, IsHanding, IsRefusing, IsVia, IsPlaceChosen};
ghost use Rattle.regalloc2_parts.specs.Computed.{Computes, AreApartOnStack, AreSeenApart};

use super::passing::{self, Held, ScratchReg};
use super::{MoveFault, MoveVec, MoveVecWithScratch};
use regalloc2_names::{Allocation, PReg};
use smallvec::SmallVec;
use std::alloc::Allocator;

/// Finds the scratch places that resolved moves need, and a register for the stack-to-stack ones.
///
/// `compute` says what the three closures must guarantee.
#[derive(Drop)]
pub struct MoveAndScratchResolver<GetReg, GetStackSlot, IsStackAlloc>
where
    GetReg: FnMut() -> Option<Allocation>,
    GetStackSlot: FnMut() -> Option<Allocation>,
    IsStackAlloc: Fn(Allocation) -> bool,
{
    /// Returns a register that is free for the moves, a different one at each call, or none.
    pub find_free_reg: GetReg,
    /// Returns a spill slot that is free for the moves, a different one at each call, or none.
    pub get_stackslot: GetStackSlot,
    /// Whether a place is on the stack. No move may go from one stack place to another.
    pub is_stack_alloc: IsStackAlloc,
    /// The register that is used if none is free. What the moves leave in it is restored.
    pub borrowed_scratch_reg: PReg,
}

/// The least room for moves that go through a register: more than are stored inline, so that their
/// list isn't copied at last.
const MIN_CAPACITY: usize = 17;

/// A place that the closures returned.
#[derive(Clone, Copy)]
enum Handed {
    Register(Allocation),
    Slot(Allocation),
}

impl Handed {
    /// The register to go through: a free register, which is its own save place, or `borrowed`, which
    /// is saved in the slot.
    fn via(self, borrowed: PReg) -> (ScratchReg, Held)
        ensures { IsVia self (InRegister borrowed) result.0 result.1 }
    {
        match self {
            Handed::Register(register) => (
                ScratchReg {
                    register,
                    save: register,
                },
                Held::Free,
            ),
            Handed::Slot(save) => (
                ScratchReg {
                    register: Allocation::reg(borrowed),
                    save,
                },
                Held::InRegister,
            ),
        }
    }
}

impl<GetReg, GetStackSlot, IsStackAlloc> MoveAndScratchResolver<GetReg, GetStackSlot, IsStackAlloc>
where
    GetReg: FnMut() -> Option<Allocation>,
    GetStackSlot: FnMut() -> Option<Allocation>,
    IsStackAlloc: Fn(Allocation) -> bool,
{
    /// A free register, or a slot if none is free.
    fn hand_out(&mut self) -> Result<Handed, MoveFault>
        requires { CanAsk (GetReg.pre self.old.find_free_reg) (GetStackSlot.pre self.old.get_stackslot) }
        ensures stack { self.new.is_stack_alloc ≡ self.old.is_stack_alloc }
        ensures borrowed { self.new.borrowed_scratch_reg ≡ self.old.borrowed_scratch_reg }
        ensures handed { IfOk result (λ h. IsHanding (λ s a t. GetReg.step s a t) (λ s a t. GetStackSlot.step s a t) self.old.find_free_reg
            self.new.find_free_reg self.old.get_stackslot self.new.get_stackslot h) }
        ensures none { IfErr result (λ e. (e ≡ MoveFault.NoSlot) × IsRefusing (λ s a t. GetReg.step s a t) (λ s a t. GetStackSlot.step s a t)
            self.old.find_free_reg self.new.find_free_reg self.old.get_stackslot self.new.get_stackslot) }
    {
        if let Some(register) = (self.find_free_reg)() {
            return Ok(Handed::Register(register));
        }
        match (self.get_stackslot)() {
            Some(slot) => Ok(Handed::Slot(slot)),
            None => Err(MoveFault::NoSlot),
        }
    }

    /// Whether a move from `from` to `to` is stack-to-stack.
    fn is_stack_to_stack(&self, from: Allocation, to: Allocation) -> bool
        requires callable { IsStackAlloc.IsAlwaysCallable self.now.is_stack_alloc }
        ensures both { result ≡ true → IsStackAlloc.post self.now.is_stack_alloc from true × IsStackAlloc.post self.now.is_stack_alloc to true }
        ensures one { result ≡ false → IsStackAlloc.post self.now.is_stack_alloc from false ⊎ IsStackAlloc.post self.now.is_stack_alloc to false }
    {
        (self.is_stack_alloc)(from) && (self.is_stack_alloc)(to)
    }

    /// Whether one of `moves` is stack-to-stack.
    fn has_stack_to_stack<T: Copy + Default>(&self, moves: &[(Allocation, Allocation, T)]) -> bool
        requires callable { IsStackAlloc.IsAlwaysCallable self.now.is_stack_alloc }
        ensures none { result ≡ false → AreSeenApart (λ p b. IsStackAlloc.post self.now.is_stack_alloc p b) moves.now }
        ensures some { AreApartOnStack (λ p b. IsStackAlloc.post self.now.is_stack_alloc p b) moves.now → result ≡ false }
    {
        for m in moves {
            if self.is_stack_to_stack(m.0, m.1) {
                return true;
            }
        }
        false
    }

    /// A scratch place if `is_needed`, else `Allocation::none()`.
    fn choose_scratch(&mut self, is_needed: bool) -> Result<Allocation, MoveFault>
        requires { CanAsk (GetReg.pre self.old.find_free_reg) (GetStackSlot.pre self.old.get_stackslot) }
        ensures stack { self.new.is_stack_alloc ≡ self.old.is_stack_alloc }
        ensures borrowed { self.new.borrowed_scratch_reg ≡ self.old.borrowed_scratch_reg }
        ensures chosen { IfOk result (λ place. IsPlaceChosen (λ s a t. GetReg.step s a t) (λ s a t. GetStackSlot.step s a t) self.old.find_free_reg
            self.new.find_free_reg self.old.get_stackslot self.new.get_stackslot is_needed place) }
        ensures none { IfErr result (λ e. (e ≡ MoveFault.NoSlot) × (is_needed ≡ true)
            × IsRefusing (λ s a t. GetReg.step s a t) (λ s a t. GetStackSlot.step s a t) self.old.find_free_reg self.new.find_free_reg self.old.get_stackslot
            self.new.get_stackslot) }
    {
        if !is_needed {
            return Ok(Allocation::none());
        }
        match self.hand_out()? {
            Handed::Register(register) => Ok(register),
            Handed::Slot(slot) => Ok(slot),
        }
    }

    /// Returns `moves`, each stack-to-stack move made by way of the register of `via`. `first` says
    /// where that register's value is before the moves.
    fn expand<T: Copy + Default, A: Allocator + Copy>(
        &self,
        alloc: A,
        moves: &[(Allocation, Allocation, T)],
        via: &ScratchReg,
        first: Held,
    ) -> Result<MoveVec<T, A>, MoveFault>
        requires { CanExpandBy (λ s. IsStackAlloc.IsAlwaysCallable s) (λ s p b. IsStackAlloc.post s p b) self.now.is_stack_alloc via.now first moves.now }
        ensures expanded { MatchResult result (λ out. IsExpanded (λ p b. IsStackAlloc.post self.now.is_stack_alloc p b) via.now.register via.now.save moves.now
            out.items) (λ e. e ≡ MoveFault.Memory) }
    {
        let mut held = first;
        let mut out = Vec::with_capacity(alloc, moves.len().saturating_mul(2).max(MIN_CAPACITY))?;
        for m in moves {
            let is_passing = self.is_stack_to_stack(m.0, m.1);
            held = passing::make(m, is_passing, via, held, &mut out)?;
        }
        passing::restore_first(via, held, &mut out)?;
        Ok(SmallVec::from_vec(out))
    }

    /// Does with `moves` what `compute` does, but keeps the resolver: a caller can read the states
    /// that its closures reached.
    pub fn compute_by_ref<T: Copy + Default, A: Allocator + Copy>(
        &mut self,
        moves: MoveVecWithScratch<T, A>,
    ) -> Result<MoveVec<T, A>, MoveFault>
        requires { CanCompute (λ s a t. GetReg.step s a t) (λ s. GetReg.pre s) (λ s a t. GetStackSlot.step s a t) (λ s. GetStackSlot.pre s)
            (λ s p b. IsStackAlloc.post s p b) (λ s. IsStackAlloc.IsAlwaysCallable s) self.old moves }
        ensures computed { Computes (λ s a t. GetReg.step s a t) (λ s a t. GetStackSlot.step s a t) (λ p b. IsStackAlloc.post self.old.is_stack_alloc p b)
            self.old self.new moves result }
    {
        let scratch = self.choose_scratch(moves.needs_scratch())?;
        let chosen = moves.with_scratch(scratch);
        let list = chosen.as_slice();
        if !self.has_stack_to_stack(list) {
            return Ok(chosen);
        }
        let (via, first) = self.hand_out()?.via(self.borrowed_scratch_reg);
        self.expand(*chosen.allocator(), list, &via, first)
    }

    /// Returns the moves with the scratch places that they need, none of them stack-to-stack.
    ///
    /// A cycle goes through a free register, or else through a slot; a stack-to-stack move goes
    /// through a free register, or else through the borrowed one, which is saved in a slot and
    /// restored.
    ///
    /// `moves` must be as `ParallelMoves::resolve` returns them: without `Allocation::none()`, or
    /// with it written before it is read. The closures must return registers and slots that no move
    /// names and that all differ; no register, not even the borrowed one, may be on the stack.
    ///
    /// `find_free_reg` and `get_stackslot` need to allow two calls each only, and are called at
    /// most twice. They are dropped as these calls left them, in the resolver that `computed` calls
    /// `after`; `compute_by_ref` keeps it.
    ///
    /// Returns `NoSlot` only if `get_stackslot` returned none, and `Memory` if a memory allocation
    /// fails. The contract leaves the order and the number of the moves open.
    pub fn compute<T: Copy + Default, A: Allocator + Copy>(
        mut self,
        moves: MoveVecWithScratch<T, A>,
    ) -> Result<MoveVec<T, A>, MoveFault>
        requires { CanCompute (λ s a t. GetReg.step s a t) (λ s. GetReg.pre s) (λ s a t. GetStackSlot.step s a t) (λ s. GetStackSlot.pre s)
            (λ s p b. IsStackAlloc.post s p b) (λ s. IsStackAlloc.IsAlwaysCallable s) self moves }
        ensures computed { (after : MoveAndScratchResolver GetReg GetStackSlot IsStackAlloc)
            × Computes (λ s a t. GetReg.step s a t) (λ s a t. GetStackSlot.step s a t) (λ p b. IsStackAlloc.post self.is_stack_alloc p b) self after moves
            result }
    {
        self.compute_by_ref(moves)
    }
}
