//! Why stored numbers name no function or output: the search for the cause of an error.

use crate::explain::stored_cause::{
    EncodingCause, IndexCause, LengthCause, LimitCause, OutputCause, StoredCause,
};
use crate::named::register_of;
use regalloc2_function::{StoredFault, StoredOutput};
use regalloc2_names::{Allocation, CLASSES, Operand, ProgPoint, VReg};
use regalloc2_serialize::limits::{BLOCK_LIMIT, INST_LIMIT, LARGEST_SLOT, VREG_LIMIT};
use regalloc2_serialize::{StoredFunction, StoredInst, StoredMachine};

/// Returns the cause if a block of `function` has another number of lists of arguments than successors.
fn argument_lists_cause(function: &StoredFunction) -> Option<LengthCause> {
    let (arguments, succs) = (&function.block_params_out, &function.block_succs);
    for block in 0..arguments.len().min(succs.len()) {
        let (lists, succs) = (arguments[block].len(), succs[block].len());
        if lists != succs {
            return Some(LengthCause::ArgumentLists {
                block,
                lists,
                succs,
            });
        }
    }
    None
}

/// Returns the cause if a list of `function` has a wrong length.
fn lengths_cause(function: &StoredFunction) -> Option<LengthCause> {
    let blocks = function.blocks.len();
    let lists = [
        ("block_preds", function.block_preds.len()),
        ("block_succs", function.block_succs.len()),
        ("block_params_in", function.block_params_in.len()),
        ("block_params_out", function.block_params_out.len()),
    ];
    for (list, count) in lists {
        if count != blocks {
            return Some(LengthCause::BlockList {
                list,
                count,
                blocks,
            });
        }
    }
    argument_lists_cause(function).or_else(|| class_lists_cause(function))
}

/// Returns the cause if a list by class of `function` doesn't have an item for each class.
fn class_lists_cause(function: &StoredFunction) -> Option<LengthCause> {
    let machine = &function.machine_env;
    let lists = [
        (
            "preferred_regs_by_class",
            machine.preferred_regs_by_class.len(),
        ),
        (
            "non_preferred_regs_by_class",
            machine.non_preferred_regs_by_class.len(),
        ),
        ("scratch_by_class", machine.scratch_by_class.len()),
        ("spillslot_size", function.spillslot_size.len()),
    ];
    for (list, count) in lists {
        if count != 3 {
            return Some(LengthCause::ClassList { list, count });
        }
    }
    None
}

/// Returns the first number in `list` that is no number of one of `blocks` blocks.
fn first_past(list: &[u32], blocks: usize) -> Option<u32> {
    list.iter().copied().find(|named| *named as usize >= blocks)
}

/// Returns the cause if one of `lists`, the blocks' neighbours in the role `role`, has a number that is no number of
/// one of `blocks` blocks.
fn neighbours_cause(lists: &[Vec<u32>], role: &'static str, blocks: usize) -> Option<IndexCause> {
    for (block, list) in lists.iter().enumerate() {
        if let Some(named) = first_past(list.as_slice(), blocks) {
            return Some(IndexCause::Neighbour {
                block,
                role,
                named,
                blocks,
            });
        }
    }
    None
}

/// Returns the cause if one of `ranges` is descending, or ends past the first `insts` instructions.
fn ranges_cause(ranges: &[(u32, u32)], insts: usize) -> Option<IndexCause> {
    for (block, (first, end)) in ranges.iter().enumerate() {
        if first > end || *end as usize > insts {
            return Some(IndexCause::Range {
                block,
                first: *first,
                end: *end,
                insts,
            });
        }
    }
    None
}

/// Returns the cause if one of `labels` is of a vreg whose number isn't below `count`.
fn label_counts_cause(labels: &[(u32, u32, u32, u32)], count: u64) -> Option<IndexCause> {
    for (label, (word, _, _, _)) in labels.iter().enumerate() {
        let number = VReg::number_of_bits(*word);
        if u64::from(number) >= count {
            return Some(IndexCause::LabelPastCount {
                label,
                number,
                count,
            });
        }
    }
    None
}

/// Returns the cause if the number of a block, an instruction or a labelled vreg of `function` is out of range.
fn index_cause(function: &StoredFunction) -> Option<IndexCause> {
    let (blocks, insts) = (function.blocks.len(), function.insts.len());
    let entry = function.entry_block;
    if entry as usize >= blocks {
        return Some(IndexCause::Entry { entry, blocks });
    }
    neighbours_cause(function.block_preds.as_slice(), "predecessor", blocks)
        .or_else(|| neighbours_cause(function.block_succs.as_slice(), "successor", blocks))
        .or_else(|| ranges_cause(function.blocks.as_slice(), insts))
        .or_else(|| {
            label_counts_cause(function.debug_value_labels.as_slice(), function.num_vregs)
        })
}

/// Returns the first of `indexes` that is no index of a register.
fn first_unnamed(indexes: &[u8]) -> Option<u8> {
    indexes
        .iter()
        .copied()
        .find(|index| register_of(*index).is_none())
}

/// Returns the cause if one of `indexes`, the list with the name `list`, is no index of a register.
fn register_cause(list: &'static str, indexes: &[u8]) -> Option<EncodingCause> {
    let index = first_unnamed(indexes)?;
    Some(EncodingCause::Register { list, index })
}

/// Returns the cause if one of `lists`, which have the name `list`, has an item that is no index of a register.
fn register_lists_cause(list: &'static str, lists: &[Vec<u8>]) -> Option<EncodingCause> {
    for indexes in lists {
        if let Some(index) = first_unnamed(indexes.as_slice()) {
            return Some(EncodingCause::Register { list, index });
        }
    }
    None
}

/// Returns the cause if one of `indexes`, the scratch registers by class, is no index of a register.
fn scratch_cause(indexes: &[Option<u8>]) -> Option<EncodingCause> {
    let list = "scratch_by_class";
    for index in indexes {
        let Some(index) = *index else { continue };
        if register_of(index).is_none() {
            return Some(EncodingCause::Register { list, index });
        }
    }
    None
}

/// Returns the cause if a number of `machine` is no index of a register.
fn machine_cause(machine: &StoredMachine) -> Option<EncodingCause> {
    let preferred = machine.preferred_regs_by_class.as_slice();
    let others = machine.non_preferred_regs_by_class.as_slice();
    register_lists_cause("preferred_regs_by_class", preferred)
        .or_else(|| register_lists_cause("non_preferred_regs_by_class", others))
        .or_else(|| scratch_cause(machine.scratch_by_class.as_slice()))
        .or_else(|| register_cause("fixed_stack_slots", machine.fixed_stack_slots.as_slice()))
}

/// Returns the cause if an encoding or an index in `data`, instruction `inst`, names nothing.
fn inst_cause(inst: usize, data: &StoredInst) -> Option<EncodingCause> {
    for (operand, word) in data.operands.iter().enumerate() {
        if !Operand::is_bits(*word) {
            return Some(EncodingCause::OperandWord {
                inst,
                operand,
                word: *word,
            });
        }
    }
    let index = first_unnamed(data.clobbers.as_slice())?;
    Some(EncodingCause::Clobber { inst, index })
}

/// Returns the cause if one of `words`, which `block` has as `role`, encodes no vreg.
fn vregs_cause(block: usize, role: &'static str, words: &[u32]) -> Option<EncodingCause> {
    for word in words {
        if !VReg::is_bits(*word) {
            return Some(EncodingCause::VRegWord {
                block,
                role,
                word: *word,
            });
        }
    }
    None
}

/// Returns the cause if an encoding or an index of one of `insts` names nothing.
fn insts_cause(insts: &[StoredInst]) -> Option<EncodingCause> {
    for (inst, data) in insts.iter().enumerate() {
        if let Some(cause) = inst_cause(inst, data) {
            return Some(cause);
        }
    }
    None
}

/// Returns the cause if a parameter among `lists`, a list for each block, encodes no vreg.
fn params_cause(lists: &[Vec<u32>]) -> Option<EncodingCause> {
    for (block, words) in lists.iter().enumerate() {
        if let Some(cause) = vregs_cause(block, "a parameter", words.as_slice()) {
            return Some(cause);
        }
    }
    None
}

/// Returns the cause if an argument that `block` passes, among `passed`, encodes no vreg.
fn block_arguments_cause(block: usize, passed: &[Vec<u32>]) -> Option<EncodingCause> {
    for words in passed {
        if let Some(cause) = vregs_cause(block, "an argument", words.as_slice()) {
            return Some(cause);
        }
    }
    None
}

/// Returns the cause if an argument among `lists`, the lists of each block, encodes no vreg.
fn arguments_cause(lists: &[Vec<Vec<u32>>]) -> Option<EncodingCause> {
    for (block, passed) in lists.iter().enumerate() {
        if let Some(cause) = block_arguments_cause(block, passed.as_slice()) {
            return Some(cause);
        }
    }
    None
}

/// Returns the cause if the word of one of `labels` encodes no vreg.
fn label_words_cause(labels: &[(u32, u32, u32, u32)]) -> Option<EncodingCause> {
    for (label, (word, _, _, _)) in labels.iter().enumerate() {
        if !VReg::is_bits(*word) {
            return Some(EncodingCause::LabelWord { label, word: *word });
        }
    }
    None
}

/// Returns the cause if an encoding of `function` names nothing.
fn bits_cause(function: &StoredFunction) -> Option<EncodingCause> {
    machine_cause(&function.machine_env)
        .or_else(|| insts_cause(function.insts.as_slice()))
        .or_else(|| params_cause(function.block_params_in.as_slice()))
        .or_else(|| arguments_cause(function.block_params_out.as_slice()))
        .or_else(|| label_words_cause(function.debug_value_labels.as_slice()))
}

/// Returns the cause if one of `sizes`, by class, isn't a power of two from 1 to 2^24.
fn slot_sizes_cause(sizes: &[u64]) -> Option<LimitCause> {
    for (class, size) in CLASSES.iter().zip(sizes) {
        if *size > LARGEST_SLOT as u64 || !size.is_power_of_two() {
            return Some(LimitCause::SlotSize {
                class: *class,
                size: *size,
            });
        }
    }
    None
}

/// Returns the cause if `function` exceeds a limit.
fn limits_cause(function: &StoredFunction) -> Option<LimitCause> {
    let limits = [
        (
            function.insts.len() as u64,
            INST_LIMIT as u64,
            "instructions",
            "2^30 - 1",
        ),
        (
            function.blocks.len() as u64,
            BLOCK_LIMIT as u64,
            "blocks",
            "2^32 - 2",
        ),
        (
            function.num_vregs,
            VREG_LIMIT as u64,
            "virtual registers",
            "2^30 - 1",
        ),
    ];
    for (count, bound, what, limit) in limits {
        if count >= bound {
            return Some(LimitCause::TooMany { count, what, limit });
        }
    }
    slot_sizes_cause(function.spillslot_size.as_slice())
}

/// Returns the cause of the error `fault` in `function`. Linear in the function.
pub fn explain_function(function: &StoredFunction, fault: StoredFault) -> StoredCause {
    let found = match fault {
        StoredFault::Lengths => lengths_cause(function).map(StoredCause::Length),
        StoredFault::Index => index_cause(function).map(StoredCause::Index),
        StoredFault::Bits => bits_cause(function).map(StoredCause::Encoding),
        StoredFault::Limit => limits_cause(function).map(StoredCause::Limit),
        StoredFault::Memory | StoredFault::Shape => None,
    };
    found.unwrap_or(StoredCause::Known(fault))
}

/// Returns the cause if an encoding in one of `moves` names nothing.
fn moves_cause(moves: &[(u32, u32, u32)]) -> Option<OutputCause> {
    for (index, (point, from, to)) in moves.iter().enumerate() {
        let are_places = Allocation::is_bits(*from) && Allocation::is_bits(*to);
        if !ProgPoint::is_index(*point) || !are_places {
            return Some(OutputCause::Move { index });
        }
    }
    None
}

/// Returns the cause if one of `places` encodes no place.
fn places_cause(places: &[u32]) -> Option<OutputCause> {
    for (index, word) in places.iter().enumerate() {
        if !Allocation::is_bits(*word) {
            return Some(OutputCause::Place { index, word: *word });
        }
    }
    None
}

/// Returns the cause if an encoding in one of the debug locations `locations` names nothing.
fn locations_cause(locations: &[(u32, u32, u32, u32)]) -> Option<OutputCause> {
    for (index, (_, from, until, place)) in locations.iter().enumerate() {
        let are_points = ProgPoint::is_index(*from) && ProgPoint::is_index(*until);
        if !are_points || !Allocation::is_bits(*place) {
            return Some(OutputCause::Location { index });
        }
    }
    None
}

/// Returns the cause if an encoding of `output` names nothing.
fn output_bits_cause(output: &StoredOutput) -> Option<OutputCause> {
    moves_cause(output.edits.as_slice())
        .or_else(|| places_cause(output.allocs.as_slice()))
        .or_else(|| locations_cause(output.debug_locations.as_slice()))
}

/// Returns the cause of the error `fault` in `output`. Linear in the output.
pub fn explain_output(output: &StoredOutput, fault: StoredFault) -> StoredCause {
    let found = match fault {
        StoredFault::Bits => output_bits_cause(output).map(StoredCause::Output),
        _ => None,
    };
    found.unwrap_or(StoredCause::Known(fault))
}
