//! Functions of texts.

use regalloc2_function::Function;
use regalloc2_index::Block;
use regalloc2_serialize::SerializableFunction;
use regalloc2_serialize::rewrite::renumber;
use regalloc2_serialize::table_function::TableFunction;
use regalloc2_tool::calls::reading::read_text;
use std::alloc::Global;

/// A copy of a function whose blocks and instructions may be changed.
fn copy_of<F: Function>(alloc: Global, f: &F) -> Option<TableFunction> {
    let mut blocks = Vec::new(alloc);
    for number in 0..f.num_blocks() {
        blocks.push(Block::new(number)).ok()?;
    }
    renumber(alloc, f, &blocks).ok()
}

/// Returns the function of `text`, with its labels.
pub fn labelled_function_of(alloc: Global, text: &str) -> Option<SerializableFunction> {
    let read = read_text(alloc, text, 1).ok()?;
    SerializableFunction::from_stored(alloc, &read.function).ok()
}

/// Returns the function of `text` without labels, whose blocks and instructions may be changed.
pub fn function_of(alloc: Global, text: &str) -> Option<TableFunction> {
    let f = labelled_function_of(alloc, text)?;
    copy_of(alloc, &f)
}
