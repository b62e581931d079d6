//! What a function has once: its entry, its count of vregs, sizes and flags.

ghost use Rattle.std.specs.Prelude.{◌≤◌};
ghost use Rattle.regalloc2_text.specs.Cursor.Cursor.{tokens_left};

use super::machine::ByClass;
use crate::cursor::{Cursor, Expected, class_named};

/// A function's flags.
#[derive(Clone, Copy)]
pub(super) struct Flags {
    pub(super) named_by_last: bool,
    pub(super) several_definitions: bool,
}

impl Flags {
    /// The default: no flag is set.
    pub(super) const NONE: Flags = Flags {
        named_by_last: false,
        several_definitions: false,
    };
}

/// What the lines so far say of the function as a whole.
#[derive(Drop)]
pub(super) struct Settings {
    pub(super) entry_block: Option<u32>,
    pub(super) num_vregs: Option<u64>,
    pub(super) sizes: Option<ByClass<u64>>,
    pub(super) flags: Option<Flags>,
}

/// Notes an error if `is_second`: only one line may begin with `word`, which was read last.
pub(super) fn first_of_kind(cursor: &mut Cursor<'_, '_>, is_second: bool, word: &'static str)
    ensures { tokens_left cursor.new ≤ tokens_left cursor.old }
{
    if is_second {
        cursor.fault_before(Expected::NoSecond(word));
    }
}

/// Reads a class and the units of its slots, as `float 2`, into `sizes`.
fn read_size(cursor: &mut Cursor<'_, '_>, sizes: &mut ByClass<u64>)
    ensures { tokens_left cursor.new ≤ tokens_left cursor.old }
{
    match class_named(cursor.peek().unwrap_or("")) {
        Some(class) => {
            cursor.advance();
            *sizes.of(class) = cursor.number(u64::MAX);
        }
        None => cursor.misfit("`int`, `float` or `vector`"),
    }
}

/// Reads a flag's name, and sets the flag in `flags`.
fn read_flag(cursor: &mut Cursor<'_, '_>, flags: &mut Flags)
    ensures { tokens_left cursor.new ≤ tokens_left cursor.old }
{
    if cursor.has("named_by_last") {
        flags.named_by_last = true;
    } else if cursor.has("several_definitions") {
        flags.several_definitions = true;
    } else {
        cursor.misfit("`named_by_last` or `several_definitions`");
    }
}

impl Settings {
    /// Returns the settings before the first line.
    pub(super) fn new() -> Self {
        Settings {
            entry_block: None,
            num_vregs: None,
            sizes: None,
            flags: None,
        }
    }

    /// Reads what follows `entry`: the block at which the function starts.
    pub(super) fn read_entry(&mut self, cursor: &mut Cursor<'_, '_>) {
        first_of_kind(cursor, self.entry_block.is_some(), "entry");
        self.entry_block = Some(cursor.named("block", "a block"));
    }

    /// Reads what follows `vregs`: a number above that of each vreg.
    pub(super) fn read_num_vregs(&mut self, cursor: &mut Cursor<'_, '_>) {
        first_of_kind(cursor, self.num_vregs.is_some(), "vregs");
        self.num_vregs = Some(cursor.number(u64::MAX));
    }

    /// Reads what follows `sizes`: the units of slots, by class. A class that isn't named keeps one unit.
    pub(super) fn read_sizes(&mut self, cursor: &mut Cursor<'_, '_>) {
        first_of_kind(cursor, self.sizes.is_some(), "sizes");
        let mut sizes = ByClass::new(1, 1, 1);
        read_size(cursor, &mut sizes);
        while cursor.has(",") {
            read_size(cursor, &mut sizes);
        }
        self.sizes = Some(sizes);
    }

    /// Reads what follows `flags`: the flags that are set.
    pub(super) fn read_flags(&mut self, cursor: &mut Cursor<'_, '_>) {
        first_of_kind(cursor, self.flags.is_some(), "flags");
        let mut flags = Flags::NONE;
        read_flag(cursor, &mut flags);
        while cursor.has(",") {
            read_flag(cursor, &mut flags);
        }
        self.flags = Some(flags);
    }
}
