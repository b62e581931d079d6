//! A queue of blocks, in the order of their ranks.

ghost use Rattle.std.specs.Prelude.{◌≡◌, ◌<◌, ◌≤◌, ◌+◌, ◌⊎◌, ◌∷◌, ℕ, None, true, false, OnOk, IfSome, IsPermutation, length, slice_set};
ghost use Rattle.std.specs.BinaryHeap.{heap_items, heap_len};
ghost use Rattle.std.specs.declared.cmp.Reverse.{Reverse};
ghost use Rattle.regalloc2_checker.specs.Propagation.{mark_at, queued_block, IsQueue};

use std::alloc::{AllocError, Allocator};
use std::cmp::Reverse;
use std::collections::BinaryHeap;

/// The blocks that changed since they were propagated, each once, by rank.
#[derive(Drop)]
pub struct Queue<A: Allocator> {
    pub ranks: Vec<usize, A>,
    pub is_queued: Vec<bool, A>,
    pub heap: BinaryHeap<Reverse<(usize, usize)>, A>,
}

impl<A: Allocator + Copy> Queue<A> {
    /// Queues `block`, unless it is queued.
    pub fn push(&mut self, block: usize) -> Result<(), AllocError>
        requires block { block < length self.old.is_queued.items }
        requires queue { IsQueue self.old.is_queued.items (heap_items self.old.heap) }
        ensures marks { OnOk result (self.new.is_queued.items ≡ slice_set self.old.is_queued.items block true) }
        ensures entries { OnOk result ((heap_items self.new.heap ≡ heap_items self.old.heap)
            ⊎ ((x : Reverse (ℕ × ℕ)) × (queued_block x ≡ block) × IsPermutation (x ∷ heap_items self.old.heap) (heap_items self.new.heap))) }
        ensures queue { OnOk result (IsQueue self.new.is_queued.items (heap_items self.new.heap)) }
        ensures longer { OnOk result (heap_len self.new.heap ≤ heap_len self.old.heap + 1) }
    {
        if self.is_queued[block] {
            return Ok(());
        }
        let rank = self.ranks.get(block).copied().unwrap_or(0);
        self.heap.push(Reverse((rank, block)))?;
        self.is_queued[block] = true;
        Ok(())
    }

    /// Takes the block of lowest rank out of the queue.
    pub fn pop(&mut self) -> Option<usize>
        requires { IsQueue self.old.is_queued.items (heap_items self.old.heap) }
        ensures none { result ≡ None → (b : ℕ) → b < length self.old.is_queued.items → mark_at self.old.is_queued.items b ≡ false }
        ensures marks { IfSome result (λ b. (b < length self.old.is_queued.items) × (self.new.is_queued.items ≡ slice_set self.old.is_queued.items b false)) }
        ensures entries { IfSome result (λ b. (x : Reverse (ℕ × ℕ)) × (queued_block x ≡ b)
            × IsPermutation (heap_items self.old.heap) (x ∷ heap_items self.new.heap)) }
        ensures queue { IfSome result (λ b. IsQueue self.new.is_queued.items (heap_items self.new.heap)) }
        ensures shorter { IfSome result (λ b. heap_len self.new.heap + 1 ≡ heap_len self.old.heap) }
    {
        let Some(entry) = self.heap.pop() else {
            return None;
        };
        let Reverse((_, block)) = entry;
        self.is_queued[block] = false;
        Some(block)
    }
}
