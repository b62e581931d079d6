//! Lists as numbers, each of which takes the place of what other lines say.

ghost use Rattle.std.specs.Prelude.{◌≤◌};
ghost use Rattle.regalloc2_text.specs.Cursor.Cursor.{tokens_left};

use crate::cursor::{Cursor, Expected};
use regalloc2_serialize::StoredFunction;
use std::alloc::Allocator;

/// What is written as numbers and lists of them in brackets.
pub(super) trait FromTokens<A: Allocator> {
    /// Reads the value that is next, and returns it.
    fn from_tokens(alloc: A, cursor: &mut Cursor<'_, '_>) -> Self
        ensures { tokens_left cursor.new ≤ tokens_left cursor.old };
}

impl<A: Allocator> FromTokens<A> for u8 {
    fn from_tokens(_alloc: A, cursor: &mut Cursor<'_, '_>) -> u8 {
        cursor.number(u64::from(u8::MAX)) as u8
    }
}

impl<A: Allocator> FromTokens<A> for u32 {
    fn from_tokens(_alloc: A, cursor: &mut Cursor<'_, '_>) -> u32 {
        cursor.word()
    }
}

impl<A: Allocator> FromTokens<A> for u64 {
    fn from_tokens(_alloc: A, cursor: &mut Cursor<'_, '_>) -> u64 {
        cursor.number(u64::MAX)
    }
}

impl<T: FromTokens<A>, A: Allocator> FromTokens<A> for Option<T> {
    fn from_tokens(alloc: A, cursor: &mut Cursor<'_, '_>) -> Option<T> {
        if cursor.has("null") {
            return None;
        }
        Some(T::from_tokens(alloc, cursor))
    }
}

impl<T: FromTokens<A> + Drop, A: Allocator + Copy> FromTokens<A> for Vec<T, A> {
    fn from_tokens(alloc: A, cursor: &mut Cursor<'_, '_>) -> Vec<T, A> {
        let mut items = Vec::new(alloc);
        cursor.want("[");
        if cursor.has("]") {
            return items;
        }
        loop {
            let item = T::from_tokens(alloc, cursor);
            cursor.push(&mut items, item);
            if !cursor.has(",") {
                break;
            }
        }
        cursor.want("]");
        items
    }
}

/// The lists that are written as numbers.
#[derive(Drop)]
pub(super) struct StoredLists<A: Allocator> {
    pub(super) block_preds: Option<Vec<Vec<u32, A>, A>>,
    pub(super) block_succs: Option<Vec<Vec<u32, A>, A>>,
    pub(super) block_params_in: Option<Vec<Vec<u32, A>, A>>,
    pub(super) block_params_out: Option<Vec<Vec<Vec<u32, A>, A>, A>>,
    pub(super) preferred_regs_by_class: Option<Vec<Vec<u8, A>, A>>,
    pub(super) non_preferred_regs_by_class: Option<Vec<Vec<u8, A>, A>>,
    pub(super) scratch_by_class: Option<Vec<Option<u8>, A>>,
    pub(super) spillslot_size: Option<Vec<u64, A>>,
    pub(super) allocs: Option<Vec<u32, A>>,
    pub(super) inst_alloc_offsets: Option<Vec<u32, A>>,
}

/// Replaces `list` by `stored`, if it was read.
pub(super) fn put<T: Drop>(list: &mut T, stored: Option<T>) {
    if let Some(stored) = stored {
        *list = stored;
    }
}

/// Reads a list after its name, which is the last word of `line`, where there is none yet.
fn read_once<T: FromTokens<A> + Drop, A: Allocator>(
    alloc: A,
    cursor: &mut Cursor<'_, '_>,
    line: &'static str,
    list: &mut Option<T>,
) {
    cursor.advance();
    if list.is_some() {
        cursor.fault_before(Expected::NoSecond(line));
    }
    *list = Some(T::from_tokens(alloc, cursor));
}

impl<A: Allocator + Copy> StoredLists<A> {
    /// Returns the draft before the first line: no list is read.
    pub(super) fn new() -> Self {
        StoredLists {
            block_preds: None,
            block_succs: None,
            block_params_in: None,
            block_params_out: None,
            preferred_regs_by_class: None,
            non_preferred_regs_by_class: None,
            scratch_by_class: None,
            spillslot_size: None,
            allocs: None,
            inst_alloc_offsets: None,
        }
    }

    /// Reads what follows `stored`.
    pub(super) fn read(&mut self, alloc: A, cursor: &mut Cursor<'_, '_>) {
        let is_read = self.read_of_blocks(alloc, cursor)
            || self.read_of_classes(alloc, cursor)
            || self.read_of_output(alloc, cursor);
        if !is_read {
            cursor.misfit(
                "a list: block_preds, block_succs, block_params_in, block_params_out, preferred_regs_by_class, non_preferred_regs_by_class, scratch_by_class, spillslot_size, allocs, inst_alloc_offsets",
            );
        }
    }

    /// Reads a list by block if its name is next. Returns whether it is.
    fn read_of_blocks(&mut self, alloc: A, cursor: &mut Cursor<'_, '_>) -> bool {
        match cursor.peek().unwrap_or("") {
            "block_preds" => read_once(alloc, cursor, "stored block_preds", &mut self.block_preds),
            "block_succs" => read_once(alloc, cursor, "stored block_succs", &mut self.block_succs),
            "block_params_in" => read_once(
                alloc,
                cursor,
                "stored block_params_in",
                &mut self.block_params_in,
            ),
            "block_params_out" => read_once(
                alloc,
                cursor,
                "stored block_params_out",
                &mut self.block_params_out,
            ),
            _ => return false,
        }
        true
    }

    /// Reads a list by class if its name is next. Returns whether it is.
    fn read_of_classes(&mut self, alloc: A, cursor: &mut Cursor<'_, '_>) -> bool {
        match cursor.peek().unwrap_or("") {
            "preferred_regs_by_class" => read_once(
                alloc,
                cursor,
                "stored preferred_regs_by_class",
                &mut self.preferred_regs_by_class,
            ),
            "non_preferred_regs_by_class" => read_once(
                alloc,
                cursor,
                "stored non_preferred_regs_by_class",
                &mut self.non_preferred_regs_by_class,
            ),
            "scratch_by_class" => read_once(
                alloc,
                cursor,
                "stored scratch_by_class",
                &mut self.scratch_by_class,
            ),
            "spillslot_size" => read_once(
                alloc,
                cursor,
                "stored spillslot_size",
                &mut self.spillslot_size,
            ),
            _ => return false,
        }
        true
    }

    /// Reads a list of an output if its name is next. Returns whether it is.
    fn read_of_output(&mut self, alloc: A, cursor: &mut Cursor<'_, '_>) -> bool {
        match cursor.peek().unwrap_or("") {
            "allocs" => read_once(alloc, cursor, "stored allocs", &mut self.allocs),
            "inst_alloc_offsets" => read_once(
                alloc,
                cursor,
                "stored inst_alloc_offsets",
                &mut self.inst_alloc_offsets,
            ),
            _ => return false,
        }
        true
    }

    /// Puts the lists in the place of the lists of `function`, and returns the places and the offsets
    /// of an output.
    pub(super) fn replace(
        self,
        function: &mut StoredFunction<A>,
    ) -> (Option<Vec<u32, A>>, Option<Vec<u32, A>>) {
        put(&mut function.block_preds, self.block_preds);
        put(&mut function.block_succs, self.block_succs);
        put(&mut function.block_params_in, self.block_params_in);
        put(&mut function.block_params_out, self.block_params_out);
        put(&mut function.spillslot_size, self.spillslot_size);
        let machine = &mut function.machine_env;
        put(
            &mut machine.preferred_regs_by_class,
            self.preferred_regs_by_class,
        );
        put(
            &mut machine.non_preferred_regs_by_class,
            self.non_preferred_regs_by_class,
        );
        put(&mut machine.scratch_by_class, self.scratch_by_class);
        (self.allocs, self.inst_alloc_offsets)
    }
}
