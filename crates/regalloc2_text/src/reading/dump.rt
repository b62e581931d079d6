//! The lines in which upstream prints a function with its allocation, where they differ from the lines of a text.

ghost use Rattle.std.specs.Prelude.{◌≤◌};

use crate::cursor::{Cursor, Expected, is_numeral};
use crate::named::{operand_of, place_of};
use regalloc2_names::{RegClass, SpillSlot};
use regalloc2_serialize::{InstOpcode, StoredFunction};
use std::alloc::Allocator;

/// What upstream prints before its results.
const HEADING: &str = "=== REGALLOC RESULTS ===";

/// Returns what follows the point in the annotation `line`, which begins with `inst3-pre: ` or `inst3-post: `.
fn annotation(line: &str) -> Option<&str> {
    let after = line.trim_start().strip_prefix("inst")?;
    let (number, after) = after.split_once('-')?;
    if !is_numeral(number) {
        return None;
    }
    match after.strip_prefix("pre: ") {
        Some(words) => Some(words),
        None => after.strip_prefix("post: "),
    }
}

/// Returns whether `line` says nothing of a function or its allocation: the heading of results, or an annotation that
/// is no move.
fn is_remark(line: &str) -> bool {
    if line.trim() == HEADING {
        return true;
    }
    match annotation(line) {
        Some(words) => !words.starts_with("move "),
        None => false,
    }
}

/// Returns `line` without what a logger writes before it in brackets, and the column at which the rest begins.
pub(crate) fn split_prefix(line: &str) -> (&str, usize)
    ensures { 1 ≤ result.1 }
{
    let Some(rest) = line.strip_prefix('[') else {
        return (line, 1);
    };
    match rest.split_once("] ") {
        Some((front, after)) if !front.contains('{') => (after, front.len().saturating_add(4)),
        _ => (line, 1),
    }
}

/// Returns the part of `line` that is to be read, and its column.
pub(super) fn shown_part(line: &str) -> (&str, usize)
    ensures { 1 ≤ result.1 }
{
    let (part, column) = split_prefix(line);
    if is_remark(part) {
        ("", column)
    } else {
        (part, column)
    }
}

/// Returns whether `text` begins with what a logger writes before a line: words in brackets without a brace.
pub fn is_logged(text: &str) -> bool {
    split_prefix(text).1 != 1
}

/// Reads an instruction's number, which has to be `next`, a colon and the opcode, and returns the opcode. Returns
/// `Op`, with an error, if there is no opcode.
pub(super) fn read_dumped_opcode(cursor: &mut Cursor<'_, '_>, next: u32) -> InstOpcode {
    if cursor.named("inst", "an instruction") != next {
        cursor.fault_before(Expected::NextInst(next as usize));
    }
    cursor.want(":");
    if cursor.has("op") {
        InstOpcode::Op
    } else if cursor.has("br") {
        InstOpcode::Branch
    } else if cursor.has("ret") {
        InstOpcode::Ret
    } else {
        cursor.misfit("`op`, `br` or `ret`");
        InstOpcode::Op
    }
}

/// How many units the slots of a function take, and how they are named.
#[derive(Clone, Copy)]
struct SlotRule<'f> {
    /// The units of a slot, by class.
    sizes: &'f [u64],
    /// Whether a slot is named by its last unit, and not by its first.
    is_named_by_last: bool,
}

impl SlotRule<'_> {
    /// Returns the number of units that a slot of `class` takes.
    fn units(&self, class: RegClass) -> u64 {
        self.sizes.get(class.code()).copied().unwrap_or(1)
    }

    /// Returns the first unit past the slot of `class` that `place` names; 0 if `place` is no slot.
    fn end_of(&self, place: u32, class: RegClass) -> u64 {
        let Some(slot) = slot_of(place) else {
            return 0;
        };
        let units = if self.is_named_by_last {
            1
        } else {
            self.units(class)
        };
        (slot.index() as u64).saturating_add(units)
    }

    /// Returns the first unit past all slots among `places`, the places of `operands`.
    fn end_of_operands(&self, operands: &[u64], places: &[u32]) -> u64 {
        let mut end = 0;
        for (bits, place) in operands.iter().zip(places) {
            if let Some(operand) = operand_of(*bits) {
                end = self.end_of(*place, operand.class()).max(end);
            }
        }
        end
    }

    /// Returns the first unit past all slots that `moves` name. A slot has the class of the register at the other end
    /// of the move; upstream moves nothing from stack to stack.
    fn end_of_moves(&self, moves: &[(u32, u32, u32)]) -> u64 {
        let mut end = 0;
        for (_, from, to) in moves {
            let class = register_class(*from)
                .or(register_class(*to))
                .unwrap_or(RegClass::Int);
            end = self.end_of(*from, class).max(end);
            end = self.end_of(*to, class).max(end);
        }
        end
    }
}

/// Returns the spill slot that `place` encodes, if it encodes one.
fn slot_of(place: u32) -> Option<SpillSlot> {
    place_of(place)?.as_stack()
}

/// Returns the class of the register that `place` encodes, if it encodes one.
fn register_class(place: u32) -> Option<RegClass> {
    let register = place_of(place)?.as_reg()?;
    Some(register.class())
}

/// Returns how many units the frame of a dumped `function` has at least: up to the end of the last slot that `moves`
/// or `places` name. The places of an instruction begin at its number in `offsets`.
pub(super) fn frame_units<A: Allocator>(
    function: &StoredFunction<A>,
    places: &[u32],
    offsets: &[u32],
    moves: &[(u32, u32, u32)],
) -> u64 {
    let layout = SlotRule {
        sizes: function.spillslot_size.as_slice(),
        is_named_by_last: function.multi_spillslot_named_by_last_slot,
    };
    let mut units = layout.end_of_moves(moves);
    for (inst, offset) in function.insts.iter().zip(offsets) {
        let rest = places.get(*offset as usize..).unwrap_or(&[]);
        units = layout
            .end_of_operands(inst.operands.as_slice(), rest)
            .max(units);
    }
    units
}
