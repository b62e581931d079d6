//! An allocator for tests: it fails one request, which the test chooses by its number, and counts.
//!
//! A test that hands it to a call, with each number in turn, sees what the call returns and leaves
//! when that allocation fails. A collection over `&Refusing` shares the count. A growth of a block
//! is one request, as a new block is; giving a block back is none.

use std::alloc::{AllocError, Allocator, Global};
use std::cell::Cell;

/// Passes requests on to the allocator within, but for the one that it fails.
pub struct Refusing<B: Allocator> {
    inner: B,
    left: Cell<u64>,
}

impl<B: Allocator> Refusing<B> {
    /// Over `inner`, the allocator that fails the nth request, counted from 1, and no other.
    pub fn new(inner: B, nth: u64) -> Refusing<B> {
        Refusing {
            inner,
            left: Cell::new(nth),
        }
    }

    /// Over `inner`, the allocator that fails no request a test can reach, and counts by
    /// `requests`.
    pub fn counting(inner: B) -> Refusing<B> {
        Refusing::new(inner, u64::MAX)
    }

    /// Returns whether the request that was to fail was made.
    pub fn has_refused(&self) -> bool {
        self.left.get() == 0
    }

    /// How many requests an allocator that `counting` made has received.
    pub fn requests(&self) -> u64 {
        u64::MAX - self.left.get()
    }
}

impl<B: Allocator> Drop for Refusing<B> {
    fn drop(self) {
        let Self { inner: _, left: _ } = self;
    }
}

/// Counts one request in `left`, and returns whether it is the one to fail.
fn refuses(left: &Cell<u64>) -> bool {
    let now = left.get();
    if now == 0 {
        return false;
    }
    left.set(now - 1);
    now == 1
}

unsafe impl<B: Allocator> Allocator for Refusing<B> {
    ghost dealloc_token = { λ heap ty ptr. B.dealloc_token heap.inner ty ptr };

    fn allocate(&self, size: usize, align: usize) -> Result<*mut u8, AllocError> {
        if refuses(&self.left) {
            return Err(AllocError);
        }
        self.inner.allocate(size, align)
    }

    unsafe fn deallocate(&self, ptr: *mut u8, size: usize, align: usize) {
        self.inner.deallocate(ptr, size, align);
    }
}

/// A call that takes memory from an allocator.
pub trait Call {
    /// Returns whether the call is done, and returns and leaves what it should. An error says that the call
    /// reported that memory ran out.
    fn make(&self, alloc: &Refusing<Global>) -> Result<bool, AllocError>;
}

/// Returns whether `call` has failed allocations, reports each of them, and is done if it is made again.
pub fn is_each_told<C: Call>(global: Global, call: &C) -> bool {
    for nth in 1..10_000u64 {
        let alloc = Refusing::new(global, nth);
        let first = call.make(&alloc);
        if !alloc.has_refused() {
            return nth > 1 && matches!(first, Ok(true));
        }
        if first.is_ok() || !matches!(call.make(&alloc), Ok(true)) {
            return false;
        }
    }
    false
}
