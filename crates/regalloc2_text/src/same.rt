//! Whether two stored functions, or two stored outputs, hold the same.
//!
//! Equality isn't derived: a derived `==` would require the allocator to have one.

use regalloc2_function::StoredOutput;
use regalloc2_serialize::{StoredFunction, StoredInst, StoredMachine};
use std::alloc::Allocator;

/// Returns whether the machines `one` and `other` hold the same.
fn same_machine<A: Allocator>(one: &StoredMachine<A>, other: &StoredMachine<A>) -> bool {
    one.preferred_regs_by_class == other.preferred_regs_by_class
        && one.non_preferred_regs_by_class == other.non_preferred_regs_by_class
        && one.scratch_by_class == other.scratch_by_class
        && one.fixed_stack_slots == other.fixed_stack_slots
}

/// Returns whether the instructions `one` and `other` hold the same.
fn same_inst<A: Allocator>(one: &StoredInst<A>, other: &StoredInst<A>) -> bool {
    one.op == other.op && one.operands == other.operands && one.clobbers == other.clobbers
}

/// Returns whether the instructions `one` and `other` hold the same, one by one.
fn same_insts<A: Allocator>(one: &[StoredInst<A>], other: &[StoredInst<A>]) -> bool {
    one.len() == other.len()
        && one
            .iter()
            .zip(other)
            .all(|(one, other)| same_inst(one, other))
}

/// Returns whether the functions `one` and `other` have the same blocks.
fn same_blocks<A: Allocator>(one: &StoredFunction<A>, other: &StoredFunction<A>) -> bool {
    one.blocks == other.blocks
        && one.block_preds == other.block_preds
        && one.block_succs == other.block_succs
        && one.block_params_in == other.block_params_in
        && one.block_params_out == other.block_params_out
}

/// Returns whether the functions `one` and `other` hold the same, their machines included.
pub(crate) fn same_function<A: Allocator>(
    one: &StoredFunction<A>,
    other: &StoredFunction<A>,
) -> bool {
    same_machine(&one.machine_env, &other.machine_env)
        && one.entry_block == other.entry_block
        && same_insts(one.insts.as_slice(), other.insts.as_slice())
        && same_blocks(one, other)
        && one.num_vregs == other.num_vregs
        && one.debug_value_labels == other.debug_value_labels
        && one.spillslot_size == other.spillslot_size
        && one.multi_spillslot_named_by_last_slot == other.multi_spillslot_named_by_last_slot
        && one.allow_multiple_vreg_defs == other.allow_multiple_vreg_defs
}

/// Returns whether the outputs `one` and `other` hold the same.
fn same_output<A: Allocator>(one: &StoredOutput<A>, other: &StoredOutput<A>) -> bool {
    one.num_spillslots == other.num_spillslots
        && one.edits == other.edits
        && one.allocs == other.allocs
        && one.inst_alloc_offsets == other.inst_alloc_offsets
        && one.debug_locations == other.debug_locations
}

/// Returns whether `one` and `other` are two outputs that hold the same, or neither is an output.
pub(crate) fn same_outputs<A: Allocator>(
    one: Option<&StoredOutput<A>>,
    other: Option<&StoredOutput<A>>,
) -> bool {
    match (one, other) {
        (Some(one), Some(other)) => same_output(one, other),
        (None, None) => true,
        _ => false,
    }
}
