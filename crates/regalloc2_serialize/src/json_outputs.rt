//! Stored functions and outputs from a JSON value.

ghost use Rattle.std.specs.Prelude.{◌≡◌, ◌⊎◌, IfOk, IfErr};
ghost use Rattle.serde_json.specs.View.{view};
ghost use Rattle.regalloc2_serialize.specs.JsonShape.{HasJsonShape, HasLists, HasSettings, AreListsAt, AreSettingsAt, IsFunctionAt, IsShapeFault};

use super::data::{InstOpcode, StoredFunction, StoredInst, StoredMachine};
use super::from_json::{FromValue, member_from};
use regalloc2_function::{StoredFault, StoredOutput};
use serde_json::Value;
use std::alloc::Allocator;

impl<A: Allocator> FromValue<A> for InstOpcode {
    ghost use Rattle.regalloc2_serialize.specs.declared.data.InstOpcode.{InstOpcode};
    ghost use Rattle.regalloc2_serialize.specs.JsonShape.{opcode};

    ghost Shown = { InstOpcode };

    ghost shows = { λ op. op };

    ghost reads = { opcode };

    fn from_value(_alloc: A, value: &Value) -> Result<InstOpcode, StoredFault> {
        let Some(name) = value.as_str() else {
            return Err(StoredFault::Shape);
        };
        match name {
            "Op" => Ok(InstOpcode::Op),
            "Ret" => Ok(InstOpcode::Ret),
            "Branch" => Ok(InstOpcode::Branch),
            _ => Err(StoredFault::Shape),
        }
    }
}

impl<A: Allocator + Copy> FromValue<A> for StoredInst<A> {
    ghost use Rattle.regalloc2_serialize.specs.JsonShape.{InstData, inst_data, inst};

    ghost Shown = { InstData };

    ghost shows = { inst_data };

    ghost reads = { inst };

    fn from_value(alloc: A, value: &Value) -> Result<StoredInst<A>, StoredFault> {
        let op = member_from(alloc, value, "op")?;
        let operands = member_from(alloc, value, "operands")?;
        let clobbers = member_from(alloc, value, "clobbers")?;
        Ok(StoredInst {
            op,
            operands,
            clobbers,
        })
    }
}

impl<A: Allocator + Copy> FromValue<A> for StoredMachine<A> {
    ghost use Rattle.regalloc2_serialize.specs.JsonShape.{MachineData, machine_data, machine};

    ghost Shown = { MachineData };

    ghost shows = { machine_data };

    ghost reads = { machine };

    fn from_value(alloc: A, value: &Value) -> Result<StoredMachine<A>, StoredFault> {
        let preferred_regs_by_class = member_from(alloc, value, "preferred_regs_by_class")?;
        let non_preferred_regs_by_class = member_from(alloc, value, "non_preferred_regs_by_class")?;
        let scratch_by_class = member_from(alloc, value, "scratch_by_class")?;
        let fixed_stack_slots = member_from(alloc, value, "fixed_stack_slots")?;
        Ok(StoredMachine {
            preferred_regs_by_class,
            non_preferred_regs_by_class,
            scratch_by_class,
            fixed_stack_slots,
        })
    }
}

impl<A: Allocator + Copy> FromValue<A> for StoredOutput<A> {
    ghost use Rattle.regalloc2_serialize.specs.JsonShape.{OutputData, output_data, output};

    ghost Shown = { OutputData };

    ghost shows = { output_data };

    ghost reads = { output };

    fn from_value(alloc: A, value: &Value) -> Result<StoredOutput<A>, StoredFault> {
        let num_spillslots = member_from(alloc, value, "num_spillslots")?;
        let edits = member_from(alloc, value, "edits")?;
        let allocs = member_from(alloc, value, "allocs")?;
        let inst_alloc_offsets = member_from(alloc, value, "inst_alloc_offsets")?;
        let debug_locations = member_from(alloc, value, "debug_locations")?;
        Ok(StoredOutput {
            num_spillslots,
            edits,
            allocs,
            inst_alloc_offsets,
            debug_locations,
        })
    }
}

/// The lists of a function by block.
#[derive(Drop)]
pub struct BlockLists<A: Allocator> {
    /// For each block its first instruction and the one past its last.
    pub blocks: Vec<(u32, u32), A>,
    /// The predecessors of each block.
    pub preds: Vec<Vec<u32, A>, A>,
    /// The successors of each block.
    pub succs: Vec<Vec<u32, A>, A>,
    /// For each block the words of its parameters.
    pub params_in: Vec<Vec<u32, A>, A>,
    /// For each block and each of its successors the words of the arguments.
    pub params_out: Vec<Vec<Vec<u32, A>, A>, A>,
}

/// Reads from `value` a function's lists by block.
fn lists_from<A: Allocator + Copy>(alloc: A, value: &Value) -> Result<BlockLists<A>, StoredFault>
    ensures ok { IfOk result (λ l. AreListsAt (view value.now) l) }
    ensures refused { IfErr result (λ e. IsShapeFault e (HasLists (view value.now) → ⊥)) }
{
    let blocks = member_from(alloc, value, "blocks")?;
    let preds = member_from(alloc, value, "block_preds")?;
    let succs = member_from(alloc, value, "block_succs")?;
    let params_in = member_from(alloc, value, "block_params_in")?;
    let params_out = member_from(alloc, value, "block_params_out")?;
    Ok(BlockLists {
        blocks,
        preds,
        succs,
        params_in,
        params_out,
    })
}

/// Reads from `value` a function's entry, its count of vregs and its two flags.
fn settings_from<A: Allocator + Copy>(
    alloc: A,
    value: &Value,
) -> Result<(u32, u64, bool, bool), StoredFault>
    ensures ok { IfOk result (λ s. AreSettingsAt (view value.now) s) }
    ensures refused { IfErr result (λ e. IsShapeFault e (HasSettings (view value.now) → ⊥)) }
{
    let entry_block = member_from(alloc, value, "entry_block")?;
    let num_vregs = member_from(alloc, value, "num_vregs")?;
    let by_last_slot = member_from(alloc, value, "multi_spillslot_named_by_last_slot")?;
    let multiple_defs = member_from(alloc, value, "allow_multiple_vreg_defs")?;
    Ok((entry_block, num_vregs, by_last_slot, multiple_defs))
}

impl<A: Allocator + Copy> StoredFunction<A> {
    /// Reads the function that `value` holds: an object with a member for each field, by the field's name.
    ///
    /// Other members are ignored. [`SerializableFunction::from_stored`] tests whether the numbers name a function.
    ///
    /// # Errors
    ///
    /// `Shape` if and only if `value` has another shape; `Memory` if memory runs out.
    ///
    /// [`SerializableFunction::from_stored`]: super::SerializableFunction::from_stored
    pub fn from_value(alloc: A, value: &Value) -> Result<StoredFunction<A>, StoredFault>
        ensures fields { IfOk result (λ s. IsFunctionAt (view value.now) s) }
        ensures shape { IfErr result (λ e. e ≡ StoredFault.Shape → HasJsonShape (view value.now) → ⊥) }
        ensures faults { IfErr result (λ e. (e ≡ StoredFault.Shape) ⊎ (e ≡ StoredFault.Memory)) }
    {
        // Numbers are read first and the machine last: each error drops what was read before it.
        let settings = settings_from(alloc, value)?;
        let spillslot_size = member_from(alloc, value, "spillslot_size")?;
        let debug_value_labels = member_from(alloc, value, "debug_value_labels")?;
        let lists = lists_from(alloc, value)?;
        let insts = member_from(alloc, value, "insts")?;
        let machine_env = member_from(alloc, value, "machine_env")?;
        let (entry_block, num_vregs, by_last_slot, multiple_defs) = settings;
        Ok(StoredFunction {
            machine_env,
            entry_block,
            insts,
            blocks: lists.blocks,
            block_preds: lists.preds,
            block_succs: lists.succs,
            block_params_in: lists.params_in,
            block_params_out: lists.params_out,
            num_vregs,
            debug_value_labels,
            spillslot_size,
            multi_spillslot_named_by_last_slot: by_last_slot,
            allow_multiple_vreg_defs: multiple_defs,
        })
    }
}
