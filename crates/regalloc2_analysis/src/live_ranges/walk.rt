//! The walk over all blocks and instructions, from the last to the first.

ghost use Rattle.std.specs.Prelude.{◌≡◌, ◌+◌, ◌-◌, ◌<◌, ◌≤◌, ◌↔◌, length, replicate, slice_index_or, IfErr, IfOk, IsTrue, None};
ghost use Rattle.regalloc2_function.specs.FunctionValue.{block_at};
ghost use Rattle.regalloc2_function.specs.Inside.TableLength.{CoversDefinitions};
ghost use Rattle.regalloc2_analysis.specs.LiveRanges.LiveRanges.{AreLiveRanges, IsSSA, IsWanted};
ghost use Rattle.regalloc2_analysis.specs.LiveRanges.Entries.{AreEntryIndexes, spread};
ghost use Rattle.regalloc2_analysis.specs.LiveRanges.WalkInvariant.{AreRangesWalked, ListsAdding};

use super::LiveRange;
use super::ends::{RangeEnd, note_passed, note_uses};
use super::entries::{entry, indexes_of};
use super::ranges::{begin_at_defs, begin_at_params};
use super::wanted::naming;
use regalloc2_function::Function;
use regalloc2_function::table_length::table_length;
use regalloc2_index::{Block, Inst};
use regalloc2_names::RegAllocError;
use std::alloc::{AllocError, Allocator};

/// The requested live ranges. `indexes` has by number the index of the number's entry, which is past
/// the end if the number has none.
#[derive(Drop)]
pub struct FewRanges<A: Allocator> {
    pub indexes: Vec<u32, A>,
    pub entries: Vec<Option<LiveRange>, A>,
}

/// Returns `true` if `inst` is the last of the first `many` instructions of `listed`.
fn is_next(listed: &[u32], many: usize, inst: Inst) -> bool
    requires { many ≤ length listed.now }
    ensures { IsTrue result ↔ ((0 < many) × (slice_index_or listed.now (many - 1) 0 ≡ inst)) }
{
    many > 0 && listed[many - 1] as usize == inst.index()
}

/// Returns `true` if the last of the first `many` instructions of `listed` is `inst` or comes after it.
fn is_left(listed: &[u32], many: usize, inst: Inst) -> bool
    requires { many ≤ length listed.now }
    ensures { IsTrue result ↔ ((0 < many) × (inst ≤ slice_index_or listed.now (many - 1) 0)) }
{
    many > 0 && listed[many - 1] as usize >= inst.index()
}

/// Walks `inst` of `block`: its uses, then its definitions.
fn walk_inst<F: Function>(
    ends: &mut [Option<RangeEnd>],
    ranges: &mut [Option<LiveRange>],
    indexes: &[u32],
    f: &F,
    wanted: &[bool],
    block: Block,
    inst: Inst,
)
    requires ssa { IsSSA (F.function f.now) }
    requires block { block < length (F.function f.now).blocks }
    requires first { (block_at (F.function f.now) block).range.first ≤ inst }
    requires end { inst < (block_at (F.function f.now) block).range.end }
    requires ends_indexes { AreEntryIndexes wanted.now indexes.now (length ends.old) }
    requires ranges_indexes { AreEntryIndexes wanted.now indexes.now (length ranges.old) }
    requires walked { AreRangesWalked (F.function f.now) (IsWanted wanted.now) (inst + 1) (block + 1)
        (spread indexes.now ends.old) (spread indexes.now ranges.old) }
    ensures { AreRangesWalked (F.function f.now) (IsWanted wanted.now) inst (block + 1)
        (spread indexes.now ends.new) (spread indexes.now ranges.new) }
{
    note_uses(ends, indexes, f, block, inst);
    begin_at_defs(ranges, ends, indexes, f, wanted, inst);
}

/// Walks `last`, the last instruction of `block`. If it isn't listed, only the arguments that it passes
/// are noted. Of the first `many` listed instructions, returns how many are left.
fn walk_last<F: Function>(
    ends: &mut [Option<RangeEnd>],
    ranges: &mut [Option<LiveRange>],
    indexes: &[u32],
    f: &F,
    wanted: &[bool],
    listed: &[u32],
    many: usize,
    block: Block,
    last: Inst,
) -> usize
    requires ssa { IsSSA (F.function f.now) }
    requires block { block < length (F.function f.now).blocks }
    requires last { last + 1 ≡ (block_at (F.function f.now) block).range.end }
    requires ends_indexes { AreEntryIndexes wanted.now indexes.now (length ends.old) }
    requires ranges_indexes { AreEntryIndexes wanted.now indexes.now (length ranges.old) }
    requires listed { ListsAdding (F.function f.now) (IsWanted wanted.now) listed.now many (last + 1) }
    requires walked { AreRangesWalked (F.function f.now) (IsWanted wanted.now) (last + 1) (block + 1)
        (spread indexes.now ends.old) (spread indexes.now ranges.old) }
    ensures listed { ListsAdding (F.function f.now) (IsWanted wanted.now) listed.now result last }
    ensures walked { AreRangesWalked (F.function f.now) (IsWanted wanted.now) last (block + 1)
        (spread indexes.now ends.new) (spread indexes.now ranges.new) }
{
    if is_next(listed, many, last) {
        walk_inst(ends, ranges, indexes, f, wanted, block, last);
        return many - 1;
    }
    note_passed(ends, indexes, f, block, last);
    many
}

/// Walks the listed instructions of `block`, and its last instruction. Of the first `many` listed
/// instructions, returns how many are left.
fn walk_insts<F: Function>(
    ends: &mut [Option<RangeEnd>],
    ranges: &mut [Option<LiveRange>],
    indexes: &[u32],
    f: &F,
    wanted: &[bool],
    listed: &[u32],
    many: usize,
    block: Block,
) -> usize
    requires ssa { IsSSA (F.function f.now) }
    requires block { block < length (F.function f.now).blocks }
    requires ends_indexes { AreEntryIndexes wanted.now indexes.now (length ends.old) }
    requires ranges_indexes { AreEntryIndexes wanted.now indexes.now (length ranges.old) }
    requires listed { ListsAdding (F.function f.now) (IsWanted wanted.now) listed.now many (block_at (F.function f.now) block).range.end }
    requires walked { AreRangesWalked (F.function f.now) (IsWanted wanted.now) (block_at (F.function f.now) block).range.end (block + 1)
        (spread indexes.now ends.old) (spread indexes.now ranges.old) }
    ensures listed { ListsAdding (F.function f.now) (IsWanted wanted.now) listed.now result (block_at (F.function f.now) block).range.first }
    ensures walked { AreRangesWalked (F.function f.now) (IsWanted wanted.now) (block_at (F.function f.now) block).range.first (block + 1)
        (spread indexes.now ends.new) (spread indexes.now ranges.new) }
{
    let range = f.block_insns(block);
    let first = range.first();
    let last = range.last();
    let mut left = walk_last(ends, ranges, indexes, f, wanted, listed, many, block, last);
    while is_left(listed, left, first) {
        left -= 1;
        let inst = Inst::new(listed[left] as usize);
        walk_inst(ends, ranges, indexes, f, wanted, block, inst);
    }
    left
}

/// Walks all blocks: the instructions of each, then its parameters.
fn walk_blocks<F: Function>(
    ends: &mut [Option<RangeEnd>],
    ranges: &mut [Option<LiveRange>],
    indexes: &[u32],
    f: &F,
    wanted: &[bool],
    listed: &[u32],
)
    requires ssa { IsSSA (F.function f.now) }
    requires room { CoversDefinitions (F.function f.now) (length indexes.now) }
    requires indexes { AreEntryIndexes wanted.now indexes.now (length ends.old) }
    requires listed { ListsAdding (F.function f.now) (IsWanted wanted.now) listed.now (length listed.now) (length (F.function f.now).insts) }
    requires no_ends { ends.old ≡ replicate (length ends.old) None }
    requires no_ranges { ranges.old ≡ replicate (length ends.old) None }
    ensures { AreLiveRanges (F.function f.now) (IsWanted wanted.now) (spread indexes.now ranges.new) }
{
    let mut b = f.num_blocks();
    let mut many = listed.len();
    while b > 0 {
        b -= 1;
        let block = Block::new(b);
        many = walk_insts(ends, ranges, indexes, f, wanted, listed, many, block);
        begin_at_params(ranges, ends, indexes, f, wanted, block);
    }
}

/// Returns the live ranges of the requested vregs, in tables with an entry for each of these vregs.
///
/// Only the listed instructions and the last instruction of each block are read. An instruction that
/// isn't listed adds nothing: it defines no requested vreg, and each requested vreg that its operands
/// read is used later, too.
pub fn few_ranges<A: Allocator + Copy, F: Function>(
    alloc: A,
    f: &F,
    wanted: &[bool],
    listed: &[u32],
) -> Result<FewRanges<A>, AllocError>
    requires ssa { IsSSA (F.function f.now) }
    requires listed { ListsAdding (F.function f.now) (IsWanted wanted.now) listed.now (length listed.now) (length (F.function f.now).insts) }
    ensures ok { IfOk result (λ r. AreLiveRanges (F.function f.now) (IsWanted wanted.now) (spread r.indexes.items r.entries.items)) }
    ensures few { IfOk result (λ r. length r.indexes.items ≤ (F.function f.now).num_vregs) }
{
    let (indexes, count) = indexes_of(alloc, wanted, table_length(f))?;
    let mut ends: Vec<Option<RangeEnd>, A> = Vec::from_elem(alloc, None, count)?;
    let mut entries = Vec::from_elem(alloc, None, count)?;
    walk_blocks(
        ends.as_mut_slice(),
        entries.as_mut_slice(),
        indexes.as_slice(),
        f,
        wanted,
        listed,
    );
    Ok(FewRanges { indexes, entries })
}

/// Returns the table `entries` by number.
fn spread_out<A: Allocator + Copy>(
    alloc: A,
    indexes: &[u32],
    entries: &[Option<LiveRange>],
) -> Result<Vec<Option<LiveRange>, A>, AllocError>
    ensures { IfOk result (λ t. t.items ≡ spread indexes.now entries.now) }
{
    let mut ranges = Vec::with_capacity(alloc, indexes.len())?;
    for number in 0..indexes.len() {
        ranges.push(entry(entries, indexes, number))?;
    }
    Ok(ranges)
}

/// Returns the live ranges of the requested vregs, by number: none for a number that isn't defined, or
/// that is a parameter's and never used.
///
/// Each range is the one of upstream's `vreg_to_live_inst_range`. Requires what each well-formed
/// function meets (`IsSSA`): its blocks follow one another, each number is defined once, and each use comes
/// after its definition. The time is linear in the operands, the arguments, the parameters and what
/// `table_length` returns. The only error is `Memory`, if an allocation for two tables of that
/// length, or for two of the requested vregs, fails.
pub fn live_ranges<A: Allocator + Copy, F: Function>(
    alloc: A,
    f: &F,
    wanted: &[bool],
) -> Result<Vec<Option<LiveRange>, A>, RegAllocError>
    requires { IsSSA (F.function f.now) }
    ensures ok { IfOk result (λ t. AreLiveRanges (F.function f.now) (IsWanted wanted.now) t.items) }
    ensures few { IfOk result (λ t. length t.items ≤ (F.function f.now).num_vregs) }
    ensures err { IfErr result (λ e. e ≡ RegAllocError.Memory) }
{
    let named = naming(alloc, f, wanted)?;
    let few = few_ranges(alloc, f, wanted, named.as_slice())?;
    Ok(spread_out(alloc, few.indexes.as_slice(), few.entries.as_slice())?)
}
