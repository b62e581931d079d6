//! The tables of a function's blocks and instructions, and the tests of its blocks and edges.

ghost use Rattle.std.specs.Prelude.{◌≡◌, ◌<◌, ◌⊎◌, [], length, map, IfErr, IfOk, OnErr, OnOk};
ghost use Rattle.regalloc2_function.specs.Reasons.{HasShape, IsShapeFault};
ghost use Rattle.regalloc2_function.specs.WellFormed.{BlocksFollow};
ghost use Rattle.regalloc2_function.specs.Tables.{AreCFGTables, HaveBlocks, IsEmptyInfo, IsInfoOf, entry_point, exit_point};

use super::blocks::test_shape;
use super::postorder::leave_order;
use crate::Function;
use regalloc2_index::Block;
use regalloc2_names::{ProgPoint, RegAllocError};
use std::alloc::{AllocError, Allocator, Global};

/// What [`CFGInfo::init`] keeps between calls: the marks of its walk over blocks, and the allocator
/// of its working memory.
#[derive(Drop)]
pub struct CFGInfoCtx<A: Allocator = Global> {
    visited: Vec<bool, A>,
    alloc: A,
}

impl<A: Allocator + Copy> CFGInfoCtx<A> {
    /// Returns a context that allocates its working memory from `alloc`. This call allocates nothing.
    pub fn new(alloc: A) -> CFGInfoCtx<A> {
        CFGInfoCtx {
            visited: Vec::new(alloc),
            alloc,
        }
    }
}

/// The tables of a function's blocks and instructions.
///
/// Upstream's tables of dominators and of loop depth are left out.
#[derive(Debug, Drop)]
pub struct CFGInfo<A: Allocator = Global> {
    /// The blocks that the entry reaches, each once, in the order in which a depth-first walk that
    /// takes successors in listed order leaves them.
    pub postorder: Vec<Block, A>,
    /// The block of each instruction, by the instruction's number.
    pub insn_block: Vec<Block, A>,
    /// The point before each block's first instruction, by the block's number.
    pub block_entry: Vec<ProgPoint, A>,
    /// The point after each block's last instruction, by the block's number.
    pub block_exit: Vec<ProgPoint, A>,
}

/// Fills `insn_block` with the block of each instruction.
fn list_insts<A: Allocator + Copy, F: Function>(
    f: &F,
    insn_block: &mut Vec<Block, A>,
) -> Result<(), AllocError>
    requires some { 0 < length (F.function f.now).blocks }
    requires follow { BlocksFollow (F.function f.now) }
    requires empty { insn_block.old.items ≡ [] }
    ensures insts { OnOk result (length insn_block.new.items ≡ length (F.function f.now).insts) }
    ensures blocks { OnOk result (HaveBlocks (F.function f.now) (length (F.function f.now).blocks) insn_block.new.items) }
{
    for b in 0..f.num_blocks() {
        let block = Block::new(b);
        insn_block.resize(f.block_insns(block).end().index(), block)?;
    }
    Ok(())
}

/// Fills `block_entry` with the point before the first instruction of each block, and `block_exit`
/// with the point after its last.
fn list_points<A: Allocator + Copy, F: Function>(
    f: &F,
    block_entry: &mut Vec<ProgPoint, A>,
    block_exit: &mut Vec<ProgPoint, A>,
) -> Result<(), AllocError>
    requires follow { BlocksFollow (F.function f.now) }
    requires no_entries { block_entry.old.items ≡ [] }
    requires no_exits { block_exit.old.items ≡ [] }
    ensures entries { OnOk result (block_entry.new.items ≡ map entry_point (F.function f.now).blocks) }
    ensures exits { OnOk result (block_exit.new.items ≡ map exit_point (F.function f.now).blocks) }
{
    for b in 0..f.num_blocks() {
        let range = f.block_insns(Block::new(b));
        block_entry.push(ProgPoint::before(range.first()))?;
        block_exit.push(ProgPoint::after(range.last()))?;
    }
    Ok(())
}

impl<A: Allocator + Copy> CFGInfo<A> {
    /// Returns tables without entries. Allocates nothing.
    pub fn empty(alloc: A) -> CFGInfo<A>
        ensures { IsEmptyInfo result }
    {
        CFGInfo {
            postorder: Vec::new(alloc),
            insn_block: Vec::new(alloc),
            block_entry: Vec::new(alloc),
            block_exit: Vec::new(alloc),
        }
    }

    /// Returns the tables of `f`, as [`CFGInfo::init`] fills them in.
    pub fn new<F: Function>(alloc: A, f: &F) -> Result<CFGInfo<A>, RegAllocError>
        ensures ok { IfOk result (λ t. IsInfoOf (F.function f.now) t) }
        ensures refused { IfErr result (λ e. (e ≡ RegAllocError.Memory) ⊎ IsShapeFault (F.function f.now) e) }
        ensures accepted { HasShape (F.function f.now) → IfErr result (λ e. e ≡ RegAllocError.Memory) }
    {
        let mut ctx = CFGInfoCtx::new(alloc);
        let mut info = CFGInfo::empty(alloc);
        info.init(f, &mut ctx)?;
        Ok(info)
    }

    /// Removes all entries.
    fn clear(&mut self)
        ensures { IsEmptyInfo self.new }
    {
        self.postorder.clear();
        self.insn_block.clear();
        self.block_entry.clear();
        self.block_exit.clear();
    }

    /// Fills in the tables, which have no entries.
    fn fill<F: Function>(&mut self, f: &F, ctx: &mut CFGInfoCtx<A>) -> Result<(), AllocError>
        requires shape { HasShape (F.function f.now) }
        requires empty { IsEmptyInfo self.old }
        ensures { OnOk result (AreCFGTables (F.function f.now) self.new) }
    {
        leave_order(ctx.alloc, f, &mut ctx.visited, &mut self.postorder)?;
        list_insts(f, &mut self.insn_block)?;
        list_points(f, &mut self.block_entry, &mut self.block_exit)
    }

    /// Tests the blocks and edges of `f`, and fills in the tables anew.
    ///
    /// The tests, in turn: the entry and each successor is a block; blocks are nonempty and follow
    /// one another, from the first instruction to the last; a block's predecessors are its listings
    /// among successors, counted; no block with several incoming edges has a predecessor with
    /// several successors; no branch into a block with several incoming edges has operands. The
    /// function's start counts as one edge into the entry.
    ///
    /// The first test that fails decides, and the error names where it fails first: `BB` with the
    /// number that is no block, or with the block whose range or whose predecessors don't fit;
    /// `CritEdge` with the predecessor and the block; `DisallowedBranchArg` with the branch. It is
    /// `Memory` if memory ran out; the tests of ranges and edges allocate nothing. An error leaves
    /// the four tables without entries.
    ///
    /// Linear in the function's blocks, edges and instructions. The tables' lists keep their own
    /// allocators; other memory is allocated from the allocator of `ctx`. Upstream tests ranges and
    /// predecessors nowhere, and the rest block by block.
    pub fn init<F: Function>(&mut self, f: &F, ctx: &mut CFGInfoCtx<A>) -> Result<(), RegAllocError>
        ensures ok { OnOk result (IsInfoOf (F.function f.now) self.new) }
        ensures refused { IfErr result (λ e. (e ≡ RegAllocError.Memory) ⊎ IsShapeFault (F.function f.now) e) }
        ensures accepted { HasShape (F.function f.now) → IfErr result (λ e. e ≡ RegAllocError.Memory) }
        ensures empty { OnErr result (IsEmptyInfo self.new) }
    {
        self.clear();
        test_shape(ctx.alloc, f)?;
        match self.fill(f, ctx) {
            Ok(()) => Ok(()),
            Err(AllocError) => {
                self.clear();
                Err(RegAllocError::Memory)
            }
        }
    }
}
