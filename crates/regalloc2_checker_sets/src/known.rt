//! The numbers of kept sets, by a hash of their members.

use std::alloc::{AllocError, Allocator};

/// The length of `numbers` once there is a number. It grows up to `ROOM`, because a small function keeps few sets.
const ROOM_AT_FIRST: usize = 256;

/// The greatest length of `numbers`.
const ROOM: usize = 1024;

/// The numbers of kept sets, each at an index that its hash determines. Of the sets with an index, the last one stays.
#[derive(Drop)]
pub struct Known<A: Allocator> {
    numbers: Vec<u32, A>,
}

impl<A: Allocator + Copy> Known<A> {
    /// Returns no numbers. Allocates nothing.
    pub fn new(alloc: A) -> Known<A> {
        Known {
            numbers: Vec::new(alloc),
        }
    }

    /// Returns the index of a set with the hash `hash`.
    fn index_of(&self, hash: usize) -> usize {
        hash & self.numbers.len().wrapping_sub(1)
    }

    /// Returns the number that was last put at the index of `hash`, or 0 if none was. Without room there is no index.
    pub fn get(&self, hash: usize) -> Option<u32> {
        let number = self.numbers.get(self.index_of(hash))?;
        Some(*number)
    }

    /// Makes room for the numbers of `count` sets. A list of less than twice their number is doubled: each number is
    /// repeated at the other index that its hash may have in the longer list.
    fn make_room(&mut self, alloc: A, count: usize) -> Result<(), AllocError> {
        let len = self.numbers.len();
        if count < len / 2 || len >= ROOM {
            return Ok(());
        }
        if len > 0 {
            return self.numbers.extend_from_within(..);
        }
        self.numbers = Vec::from_elem(alloc, 0, ROOM_AT_FIRST)?;
        Ok(())
    }

    /// Puts `number` at the index of `hash`. `count` sets are kept.
    pub fn put(
        &mut self,
        alloc: A,
        hash: usize,
        number: u32,
        count: usize,
    ) -> Result<(), AllocError> {
        self.make_room(alloc, count)?;
        let index = self.index_of(hash);
        if index < self.numbers.len() {
            self.numbers[index] = number;
        }
        Ok(())
    }
}
