//! Which part of a function or output has the numbers that name nothing.

use crate::explain::blocks::end_of;
use crate::explain::cause::Site;
use crate::explain::stored_cause::{
    EncodingCause, IndexCause, LengthCause, OutputCause, StoredCause,
};
use crate::named::list_at;
use regalloc2_function::StoredOutput;
use regalloc2_serialize::StoredFunction;

/// Returns the own line of `block` if its list among `lists` has `number`, else the line of its last instruction,
/// which has the block's successors and arguments.
fn number_site(function: &StoredFunction, lists: &[Vec<u32>], block: usize, number: u32) -> Site {
    if list_at(lists, block).contains(&number) {
        Site::Block(block)
    } else {
        end_of(function, block)
    }
}

/// Returns the operand whose place is at `index`: an operand of the last instruction whose places begin no later.
fn place_site(output: &StoredOutput, index: usize) -> Site {
    let mut site = Site::Function;
    for (inst, start) in output.inst_alloc_offsets.iter().enumerate() {
        if let Some(operand) = index.checked_sub(*start as usize) {
            site = Site::Operand(inst, operand);
        }
    }
    site
}

impl EncodingCause {
    /// Returns the block, instruction or operand of `function` that has the encoding or index, or the function.
    fn site(self, function: &StoredFunction) -> Site {
        match self {
            Self::VRegWord { block, word, .. } => {
                number_site(function, function.block_params_in.as_slice(), block, word)
            }
            Self::OperandWord { inst, operand, .. } => Site::Operand(inst, operand),
            Self::Clobber { inst, .. } => Site::Inst(inst),
            Self::Register { .. } | Self::LabelWord { .. } => Site::Function,
        }
    }
}

impl StoredCause {
    /// Returns the block, instruction or operand of `function` that the cause is about, or the function. Linear in
    /// the numbers of a block.
    pub fn site(&self, function: &StoredFunction) -> Site {
        match *self {
            Self::Length(LengthCause::ArgumentLists { block, .. })
            | Self::Index(IndexCause::Range { block, .. }) => Site::Block(block),
            Self::Index(IndexCause::Neighbour { block, named, .. }) => {
                number_site(function, function.block_preds.as_slice(), block, named)
            }
            Self::Encoding(cause) => cause.site(function),
            _ => Site::Function,
        }
    }

    /// Returns the operand or move of `output` that the cause is about, or the function. Linear in the instructions.
    pub fn output_site(&self, output: &StoredOutput) -> Site {
        match *self {
            Self::Output(OutputCause::Place { index, .. }) => place_site(output, index),
            Self::Output(OutputCause::Move { index }) => Site::Move(index),
            _ => Site::Function,
        }
    }
}
