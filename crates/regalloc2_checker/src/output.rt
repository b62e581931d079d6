//! Lists an output's moves before each instruction, and copies an output.

ghost use Rattle.std.specs.Prelude.{◌≡◌, ◌<◌, ◌≤◌, ◌+◌, OnOk, IfOk, length};
ghost use Rattle.std.specs.List.Sorted.{IsNonDecreasingBy};
ghost use Rattle.regalloc2_names.specs.Place.{before};
ghost use Rattle.regalloc2_function.specs.OutputValue.{IsInOrder};
ghost use Rattle.regalloc2_function.specs.Views.{output_of};
ghost use Rattle.regalloc2_function.specs.WellFormed.{IsFramed};
ghost use Rattle.regalloc2_checker.specs.ListingCopied.{AreBeforePoint, IsSplit, IsAdded, IsListedBefore};
ghost use Rattle.regalloc2_checker.specs.Listing.{AreMovesListed};

use crate::listing::Listed;
use regalloc2_function::{Edit, Function, Output};
use regalloc2_index::{Block, Inst};
use regalloc2_names::ProgPoint;
use std::alloc::{AllocError, Allocator};

/// Returns the position of the first edit from `from` on that isn't before `point`.
fn first_from(edits: &[(ProgPoint, Edit)], from: usize, point: u64) -> usize
    requires sorted { IsNonDecreasingBy (λ e. e.0) edits.now }
    requires from { from ≤ length edits.now }
    requires passed { AreBeforePoint edits.now from point }
    ensures from { from ≤ result }
    ensures split { IsSplit edits.now result point }
{
    for k in from..edits.len() {
        if u64::from(edits[k].0.to_index()) >= point {
            return k;
        }
    }
    edits.len()
}

/// Lists the next instruction, whose moves are the edits from `from` up to `end`.
fn list_inst<A: Allocator>(
    from: usize,
    end: usize,
    listing: &mut Vec<Listed, A>,
) -> Result<(), AllocError>
    ensures { OnOk result (IsAdded listing.old.items listing.new.items from end) }
{
    listing.push(Listed { from, end })?;
    Ok(())
}

/// Lists the instructions of `block`, of whose moves the first `passed` edits are none. Returns the number of edits up to
/// the end of `block`.
fn list_block<F: Function, A: Allocator, B: Allocator>(
    f: &F,
    out: &Output<B>,
    block: Block,
    passed: usize,
    listing: &mut Vec<Listed, A>,
) -> Result<usize, AllocError>
    requires framed { IsFramed (F.function f.now) }
    requires in_order { IsInOrder (F.function f.now) (output_of out.now) }
    requires block { block < length (F.function f.now).blocks }
    requires within { passed ≤ length out.now.edits.items }
    requires passed { AreBeforePoint out.now.edits.items passed (before (length listing.old.items)) }
    requires before { IsListedBefore (F.function f.now) (output_of out.now) out.now.edits.items block listing.old.items }
    ensures within { IfOk result (λ r. r ≤ length out.now.edits.items) }
    ensures passed { IfOk result (λ r. AreBeforePoint out.now.edits.items r (before (length listing.new.items))) }
    ensures listed { OnOk result (IsListedBefore (F.function f.now) (output_of out.now) out.now.edits.items (block + 1) listing.new.items) }
{
    let edits = out.edits.as_slice();
    let range = f.block_insns(block);
    let first = range.first();
    let mut from = first_from(edits, passed, 2 * u64::from(first.0));
    for i in first.index()..range.end().index() {
        let inst = Inst::new(i);
        let end = first_from(edits, from, 2 * u64::from(inst.0) + 1);
        list_inst(from, end, listing)?;
        from = end;
    }
    Ok(from)
}

/// Returns, for each instruction, the range of the moves before it.
pub fn moves_by_inst<F: Function, A: Allocator + Copy, B: Allocator>(
    alloc: A,
    f: &F,
    out: &Output<B>,
) -> Result<Vec<Listed, A>, AllocError>
    requires framed { IsFramed (F.function f.now) }
    requires in_order { IsInOrder (F.function f.now) (output_of out.now) }
    ensures { IfOk result (λ r. AreMovesListed (F.function f.now) (output_of out.now) out.now.edits.items r.items) }
{
    let mut listing = Vec::with_capacity(alloc, f.num_insts())?;
    let mut passed = 0;
    for b in 0..f.num_blocks() {
        passed = list_block(f, out, Block::new(b), passed, &mut listing)?;
    }
    Ok(listing)
}

/// Returns a copy of `out`.
pub fn copied<A: Allocator + Copy, B: Allocator>(
    alloc: A,
    out: &Output<B>,
) -> Result<Output<A>, AllocError>
    ensures { IfOk result (λ r. output_of r ≡ output_of out.now) }
{
    let mut copy = Output::new(alloc);
    copy.num_spillslots = out.num_spillslots;
    copy.edits.extend_from_slice(&out.edits)?;
    copy.allocs.extend_from_slice(&out.allocs)?;
    copy.inst_alloc_offsets
        .extend_from_slice(&out.inst_alloc_offsets)?;
    copy.debug_locations
        .extend_from_slice(&out.debug_locations)?;
    Ok(copy)
}
