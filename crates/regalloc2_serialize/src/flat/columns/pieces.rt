//! A list in parts.

ghost use Rattle.std.specs.Prelude.{◌≡◌, ℕ, ◌+◌, ◌<◌, ◌≤◌, All, slice_index, vec_len};
ghost use Rattle.regalloc2_serialize.specs.Flat.Columns.Value.{part};

use std::alloc::{Allocator, Global};

/// The lists of several owners, one after another: the list of owner `k` lies from bound `k` up to bound `k + 1`.
#[derive(Drop)]
pub struct Pieces<T, A: Allocator = Global> {
    /// All members.
    pub items: Vec<T, A>,
    /// The bounds, which don't fall.
    pub bounds: Vec<u32, A>,
    pub ghost rises: { (k : ℕ) → k + 1 < vec_len bounds → slice_index bounds.items k ≤ slice_index bounds.items (k + 1) },
    pub ghost within: { All (λ b. b ≤ vec_len items) bounds.items },
}

impl<T, A: Allocator> Pieces<T, A> {
    /// Returns the list of owner `k`.
    pub fn part(&self, k: usize) -> &[T]
        requires { k + 1 < vec_len self.now.bounds }
        ensures { result.now ≡ part self.now.items.items self.now.bounds.items k }
    {
        let start = self.bounds[k] as usize;
        let end = self.bounds[k + 1] as usize;
        &self.items[start..end]
    }
}
