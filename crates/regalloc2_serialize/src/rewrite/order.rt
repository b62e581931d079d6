//! Puts a function's blocks in another order.

ghost use Rattle.std.specs.Prelude.{◌≡◌, ◌≢◌, ◌↔◌, ◌<◌, ◌^◌, ◌-◌, All, IfOk, IfErr, IsTrue, length, map, slice_index};
ghost use Rattle.regalloc2_function.specs.WellFormed.{IsFramed};
ghost use Rattle.regalloc2_serialize.specs.TableFunction.Table.{function_of_table};
ghost use Rattle.regalloc2_serialize.specs.TableFunction.Draft.{draft_of};
ghost use Rattle.regalloc2_serialize.specs.Rewrite.Renumbered.{AreNumbers, IsRenumbered, IsUnnumbered, IsUnrenumbered, renamed};

use crate::from_function::copied_arguments;
use crate::rewrite::copied::{copied_insts, laid_like};
use crate::rewrite::error::RewriteError;
use crate::table_function::{BlockDraft, TableFunction};
use regalloc2_function::{Function, is_framed};
use regalloc2_index::Block;
use std::alloc::{AllocError, Allocator};

/// Returns whether each of `numbers` is a number.
fn all_numbered(numbers: &[Block]) -> bool
    ensures { IsTrue result ↔ All (λ n. n ≢ 2 ^ 32 - 1) numbers.now }
{
    numbers.iter().all(|number| number.is_valid())
}

/// Returns the position of each of `count` blocks in `order`.
fn numbers_in<A: Allocator>(
    alloc: A,
    order: &[Block],
    count: usize,
) -> Result<Vec<Block, A>, RewriteError>
    requires { count < 2 ^ 32 - 1 }
    ensures ok { IfOk result (λ numbers. AreNumbers count order.now numbers.items) }
    ensures err { IfErr result (λ e. IsUnnumbered count order.now e) }
{
    if order.len() != count {
        return Err(RewriteError::NoOrder);
    }
    let mut numbers = Vec::from_elem(alloc, Block::invalid(), count)?;
    for n in 0..count {
        let block = order[n].index();
        if block >= count {
            return Err(RewriteError::NoOrder);
        }
        if numbers[block].is_invalid() {
            numbers[block] = Block::new(n);
        }
    }
    if !all_numbered(numbers.as_slice()) {
        return Err(RewriteError::NoOrder);
    }
    Ok(numbers)
}

/// Returns the new numbers of the blocks `succs`: `numbers[b]` for block `b`.
fn renamed_succs<A: Allocator>(
    alloc: A,
    succs: &[Block],
    numbers: &[Block],
) -> Result<Vec<Block, A>, AllocError>
    requires { All (λ s. s < length numbers.now) succs.now }
    ensures { IfOk result (λ named. named.items ≡ map (λ s. slice_index numbers.now s) succs.now) }
{
    let mut named = Vec::with_capacity(alloc, succs.len())?;
    for succ in succs {
        let number = numbers[succ.index()];
        named.push(number)?;
    }
    Ok(named)
}

/// `block` with the new `numbers` of its successors.
fn renamed_block<F: Function, A: Allocator + Copy>(
    alloc: A,
    f: &F,
    block: Block,
    numbers: &[Block],
) -> Result<BlockDraft<A>, AllocError>
    requires framed { IsFramed (F.function f.now) }
    requires block { block < length (F.function f.now).blocks }
    requires numbers { length numbers.now ≡ length (F.function f.now).blocks }
    ensures { IfOk result (λ draft. draft_of draft ≡ renamed (λ s. slice_index numbers.now s) (F.function f.now) block) }
{
    Ok(BlockDraft {
        params: f.block_params(block).to_vec(alloc)?,
        insts: copied_insts(alloc, f, block)?,
        succs: renamed_succs(alloc, f.block_succs(block), numbers)?,
        arguments: copied_arguments(alloc, f, block)?,
    })
}

/// Returns the blocks in `order`, with the new `numbers` of their successors.
fn renamed_blocks<F: Function, A: Allocator + Copy>(
    alloc: A,
    f: &F,
    order: &[Block],
    numbers: &[Block],
) -> Result<Vec<BlockDraft<A>, A>, AllocError>
    requires framed { IsFramed (F.function f.now) }
    requires order { All (λ b. b < length (F.function f.now).blocks) order.now }
    requires numbers { length numbers.now ≡ length (F.function f.now).blocks }
    ensures { IfOk result (λ drafts. map draft_of drafts.items ≡ map (renamed (λ s. slice_index numbers.now s) (F.function f.now)) order.now) }
{
    let mut drafts = Vec::with_capacity(alloc, order.len())?;
    for block in order {
        let draft = renamed_block(alloc, f, *block, numbers)?;
        drafts.push(draft)?;
    }
    Ok(drafts)
}

/// Returns a function with its blocks in another order, and their instructions with them.
///
/// Block `n` of the result is block `order[n]` of `f`: it has the same parameters, instructions and arguments, and
/// its successors by their new numbers. The blocks' instructions follow one another, and predecessors are listed
/// anew, by the successors of all blocks. Each list of ways is a path of both functions or of neither; on a path both
/// functions execute the same instructions, and each vreg has the same last write.
///
/// `f` is structurally valid ([`is_framed`] tests it), and `order` lists each block once. Linear in the function.
///
/// # Errors
///
/// `Unframed`, `Labels` or `NoOrder`, tested in this order; `Memory` if memory runs out. `f` is unchanged.
pub fn renumber<F: Function, A: Allocator + Copy>(
    alloc: A,
    f: &F,
    order: &[Block],
) -> Result<TableFunction<A>, RewriteError>
    ensures ok { IfOk result (λ g. IsRenumbered (F.function f.now) order.now (function_of_table g)) }
    ensures err { IfErr result (λ e. IsUnrenumbered (F.function f.now) order.now e) }
{
    if !is_framed(f) {
        return Err(RewriteError::Unframed);
    }
    if !f.debug_value_labels().is_empty() {
        return Err(RewriteError::Labels);
    }
    let numbers = numbers_in(alloc, order, f.num_blocks())?;
    let drafts = renamed_blocks(alloc, f, order, numbers.as_slice())?;
    let entry = numbers[f.entry_block().index()];
    Ok(laid_like(alloc, f, drafts, entry, Vec::new(alloc))?)
}
