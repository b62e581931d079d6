//! Stored functions and outputs as JSON text.

use super::lists::JsonText;
use regalloc2_function::StoredOutput;
use regalloc2_serialize::{StoredFunction, StoredInst, StoredMachine};
use std::alloc::Allocator;
use std::fmt;

/// Writes the member `name` of an object, with `before` before it.
fn write_member<T: JsonText, W: fmt::Write>(
    before: &str,
    name: &str,
    value: &T,
    to: &mut W,
) -> fmt::Result {
    write!(to, "{before}\"{name}\": ")?;
    value.write_json(to)
}

impl<A: Allocator> JsonText for StoredInst<A> {
    fn write_json<W: fmt::Write>(&self, to: &mut W) -> fmt::Result {
        write_member("{", "op", &self.op, to)?;
        write_member(", ", "operands", &self.operands, to)?;
        write_member(", ", "clobbers", &self.clobbers, to)?;
        write!(to, "}}")
    }
}

impl<A: Allocator> JsonText for StoredMachine<A> {
    fn write_json<W: fmt::Write>(&self, to: &mut W) -> fmt::Result {
        let preferred = &self.preferred_regs_by_class;
        let others = &self.non_preferred_regs_by_class;
        write_member("{", "preferred_regs_by_class", preferred, to)?;
        write_member(", ", "non_preferred_regs_by_class", others, to)?;
        write_member(", ", "scratch_by_class", &self.scratch_by_class, to)?;
        write_member(", ", "fixed_stack_slots", &self.fixed_stack_slots, to)?;
        write!(to, "}}")
    }
}

impl<A: Allocator> JsonText for StoredOutput<A> {
    fn write_json<W: fmt::Write>(&self, to: &mut W) -> fmt::Result {
        write_member("{", "num_spillslots", &self.num_spillslots, to)?;
        write_member(", ", "edits", &self.edits, to)?;
        write_member(", ", "allocs", &self.allocs, to)?;
        write_member(", ", "inst_alloc_offsets", &self.inst_alloc_offsets, to)?;
        write_member(", ", "debug_locations", &self.debug_locations, to)?;
        write!(to, "}}")
    }
}

/// Writes the members of `function` that are lists by block or by instruction, and its entry.
fn write_lists<A: Allocator, W: fmt::Write>(
    function: &StoredFunction<A>,
    to: &mut W,
) -> fmt::Result {
    write_member(", ", "entry_block", &function.entry_block, to)?;
    write_member(", ", "insts", &function.insts, to)?;
    write_member(", ", "blocks", &function.blocks, to)?;
    write_member(", ", "block_preds", &function.block_preds, to)?;
    write_member(", ", "block_succs", &function.block_succs, to)?;
    write_member(", ", "block_params_in", &function.block_params_in, to)?;
    write_member(", ", "block_params_out", &function.block_params_out, to)
}

impl<A: Allocator> JsonText for StoredFunction<A> {
    fn write_json<W: fmt::Write>(&self, to: &mut W) -> fmt::Result {
        write_member("{", "machine_env", &self.machine_env, to)?;
        write_lists(self, to)?;
        write_member(", ", "num_vregs", &self.num_vregs, to)?;
        write_member(", ", "debug_value_labels", &self.debug_value_labels, to)?;
        write_member(", ", "spillslot_size", &self.spillslot_size, to)?;
        let by_last_slot = &self.multi_spillslot_named_by_last_slot;
        let multiple_defs = &self.allow_multiple_vreg_defs;
        write_member(", ", "multi_spillslot_named_by_last_slot", by_last_slot, to)?;
        write_member(", ", "allow_multiple_vreg_defs", multiple_defs, to)?;
        write!(to, "}}")
    }
}

/// Writes `function` as JSON on one line, without a line feed; with an `output` the array of the two.
///
/// Members have the names of the fields and their order. [`FromValue`] reads it back. An error is the writer's own.
///
/// [`FromValue`]: regalloc2_serialize::FromValue
pub fn write_json<A: Allocator, W: fmt::Write>(
    function: &StoredFunction<A>,
    output: Option<&StoredOutput<A>>,
    to: &mut W,
) -> fmt::Result {
    let Some(output) = output else {
        return function.write_json(to);
    };
    write!(to, "[")?;
    function.write_json(to)?;
    write!(to, ", ")?;
    output.write_json(to)?;
    write!(to, "]")
}
