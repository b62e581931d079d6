//! The lines of a text, in order: the machine, what isn't as usual, the blocks, the labels, and what has no line of its
//! own.

use super::machine::{write_machine, write_misfit, write_stored, write_stored_machine};
use super::moves::Moves;
use super::places::{Places, ShownOutput};
use super::shown::{Shown, targets_disagree};
use crate::spell::StoredVReg;
use regalloc2_function::StoredOutput;
use regalloc2_names::CLASSES;
use regalloc2_serialize::StoredFunction;
use std::alloc::{AllocError, Allocator};
use std::fmt;

/// Writes the line of the flags of `function`, if one is set.
fn write_flags<A: Allocator, W: fmt::Write>(
    function: &StoredFunction<A>,
    to: &mut W,
) -> fmt::Result {
    let flags = (
        function.multi_spillslot_named_by_last_slot,
        function.allow_multiple_vreg_defs,
    );
    match flags {
        (true, true) => writeln!(to, "flags named_by_last, several_definitions"),
        (true, false) => writeln!(to, "flags named_by_last"),
        (false, true) => writeln!(to, "flags several_definitions"),
        (false, false) => Ok(()),
    }
}

/// Writes the sizes of spill slots, the flags, the entry and the count of vregs of the function that is `shown`, each
/// only if it isn't what is read without its line.
fn write_settings<A: Allocator + Copy, W: fmt::Write>(
    shown: &Shown<'_, A>,
    to: &mut W,
) -> fmt::Result {
    let function = shown.function;
    match function.spillslot_size.as_slice() {
        [1, 1, 1] => {}
        [int, float, vector] => writeln!(to, "sizes int {int}, float {float}, vector {vector}")?,
        _ => {}
    }
    write_flags(function, to)?;
    let entry = function.entry_block;
    if entry != 0 {
        writeln!(to, "entry block{entry}")?;
    }
    let vregs = function.num_vregs;
    if vregs != shown.count_vregs() {
        writeln!(to, "vregs {vregs}")?;
    }
    Ok(())
}

/// Writes `labels`, a line for each.
fn write_labels<W: fmt::Write>(labels: &[(u32, u32, u32, u32)], to: &mut W) -> fmt::Result {
    for (vreg, first, end, label) in labels {
        let vreg = StoredVReg(*vreg);
        writeln!(to, "label {label}: {vreg} from inst{first} until inst{end}")?;
    }
    Ok(())
}

/// Writes as numbers the lists by block of `function` that don't have an item for each block.
fn write_stored_lists<A: Allocator, W: fmt::Write>(
    function: &StoredFunction<A>,
    to: &mut W,
) -> fmt::Result {
    let blocks = function.blocks.len();
    write_misfit("block_preds", &function.block_preds, blocks, to)?;
    write_misfit("block_succs", &function.block_succs, blocks, to)?;
    write_misfit("block_params_in", &function.block_params_in, blocks, to)?;
    write_misfit("block_params_out", &function.block_params_out, blocks, to)
}

/// Writes as numbers the successors and arguments by block of `function`, if they can't be shown together.
fn write_stored_targets<A: Allocator, W: fmt::Write>(
    function: &StoredFunction<A>,
    to: &mut W,
) -> fmt::Result {
    if !targets_disagree(function) {
        return Ok(());
    }
    let blocks = function.blocks.len();
    if function.block_succs.len() == blocks {
        write_stored("block_succs", &function.block_succs, to)?;
    }
    if function.block_params_out.len() == blocks {
        write_stored("block_params_out", &function.block_params_out, to)?;
    }
    Ok(())
}

/// Writes the lists of `function` whose lengths don't agree with what they belong to.
fn write_stored_lines<A: Allocator, W: fmt::Write>(
    function: &StoredFunction<A>,
    to: &mut W,
) -> fmt::Result {
    write_stored_machine(&function.machine_env, to)?;
    write_misfit(
        "spillslot_size",
        &function.spillslot_size,
        CLASSES.len(),
        to,
    )?;
    write_stored_lists(function, to)?;
    write_stored_targets(function, to)
}

/// Writes all lines of the function that is `shown`, and of its `output` if there is one.
fn write_lines<A: Allocator + Copy, W: fmt::Write>(
    shown: &Shown<'_, A>,
    output: Option<ShownOutput<'_, A>>,
    to: &mut W,
) -> fmt::Result {
    let function = shown.function;
    write_machine(&function.machine_env, to)?;
    write_settings(shown, to)?;
    let (places, mut moves) = match &output {
        Some(output) => (output.places(), output.moves()),
        None => (Places::none(), Moves::new(&[])),
    };
    shown.write_body(&places, &mut moves, to)?;
    write_labels(function.debug_value_labels.as_slice(), to)?;
    if let Some(output) = &output {
        output.write(to)?;
    }
    write_stored_lines(function, to)
}

/// Returns the lines of `function` with its machine, and of an `output` if there is one. Linear in them.
///
/// A function may be ill-formed, and its numbers may name nothing. If no text says what it is, as with 2^32
/// instructions or blocks, these lines read back as another function or output. The only error is that the system is
/// out of memory.
pub fn lay_out<A: Allocator + Copy>(
    alloc: A,
    function: &StoredFunction<A>,
    output: Option<&StoredOutput<A>>,
) -> Result<String<A>, AllocError> {
    let shown = Shown::of(alloc, function)?;
    let laid = ShownOutput::of(output, function.insts.len());
    let mut text = String::new(alloc);
    write_lines(&shown, laid, &mut text).map_err(|_| AllocError)?;
    Ok(text)
}
