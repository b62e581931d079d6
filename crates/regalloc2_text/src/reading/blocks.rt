//! The lines of blocks, and what functions keep of them.

ghost use Rattle.std.specs.Prelude.{◌≤◌};
ghost use Rattle.regalloc2_text.specs.Cursor.Cursor.{tokens_left};

use super::stored::put;
use crate::cursor::{Cursor, Expected};
use std::alloc::Allocator;

/// What the lines so far say of a block.
#[derive(Drop)]
pub(super) struct DraftBlock<A: Allocator> {
    number: u32,
    /// The first instruction, and the one past the last.
    range: (u32, u32),
    /// Whether the block's line says the range.
    has_range: bool,
    params: Vec<u32, A>,
    /// The predecessors, if the block's line says them.
    preds: Option<Vec<u32, A>>,
    /// Whether the block's line says the successors.
    has_succs: bool,
    succs: Vec<u32, A>,
    /// The arguments for each successor.
    args: Vec<Vec<u32, A>, A>,
}

/// Reads a list of vregs in brackets, and returns their encodings; empty if no bracket is next.
fn vregs<A: Allocator>(alloc: A, cursor: &mut Cursor<'_, '_>) -> Vec<u32, A>
    ensures { tokens_left cursor.new ≤ tokens_left cursor.old }
{
    let mut vregs = Vec::new(alloc);
    if !cursor.has("(") || cursor.has(")") {
        return vregs;
    }
    loop {
        let vreg = cursor.vreg_bits();
        cursor.push(&mut vregs, vreg);
        if !cursor.has(",") {
            break;
        }
    }
    cursor.want(")");
    vregs
}

/// Reads one or more numbers between commas, and adds them to `numbers`.
fn read_numbers<A: Allocator>(cursor: &mut Cursor<'_, '_>, numbers: &mut Vec<u32, A>)
    ensures { tokens_left cursor.new ≤ tokens_left cursor.old }
{
    loop {
        let number = cursor.word();
        cursor.push(numbers, number);
        if !cursor.has(",") {
            break;
        }
    }
}

/// Reads one or more blocks between commas, and returns their numbers; empty for `none`.
fn block_numbers<A: Allocator>(alloc: A, cursor: &mut Cursor<'_, '_>) -> Vec<u32, A>
    ensures { tokens_left cursor.new ≤ tokens_left cursor.old }
{
    let mut numbers = Vec::new(alloc);
    if cursor.has("none") {
        return numbers;
    }
    loop {
        let number = cursor.named("block", "a block");
        cursor.push(&mut numbers, number);
        if !cursor.has(",") {
            break;
        }
    }
    numbers
}

impl<A: Allocator + Copy> DraftBlock<A> {
    /// Reads a block's line, and returns the block without instructions. Its number has to be `next`, and `inst` is the
    /// number of the next instruction.
    pub(super) fn read(alloc: A, cursor: &mut Cursor<'_, '_>, next: usize, inst: u32) -> Self {
        let number = cursor.named("block", "a block");
        if number as usize != next {
            cursor.fault_before(Expected::NextBlock(next));
        }
        let mut block = DraftBlock {
            number,
            range: (inst, inst),
            has_range: false,
            params: vregs(alloc, cursor),
            preds: None,
            has_succs: false,
            succs: Vec::new(alloc),
            args: Vec::new(alloc),
        };
        while cursor.has(";") {
            block.read_part(alloc, cursor);
        }
        cursor.want(":");
        if cursor.has("[") {
            block.read_neighbours(alloc, cursor);
        }
        block
    }

    /// Reads the successors and the predecessors behind a block's colon in a dump, as `[succs [2, 3] preds [0]]`, after
    /// the first bracket.
    fn read_neighbours(&mut self, alloc: A, cursor: &mut Cursor<'_, '_>) {
        if self.has_succs || self.preds.is_some() {
            cursor.misfit_before("each part once");
        }
        self.has_succs = true;
        let open = "[";
        let close = "]";
        cursor.want("succs");
        cursor.want(open);
        if !cursor.has(close) {
            self.read_numbered_targets(alloc, cursor);
            cursor.want(close);
        }
        cursor.want("preds");
        cursor.want(open);
        let mut preds = Vec::new(alloc);
        if !cursor.has(close) {
            read_numbers(cursor, &mut preds);
            cursor.want(close);
        }
        self.preds = Some(preds);
        cursor.want(close);
    }

    /// Reads one or more numbers of successors between commas, each with its arguments in brackets, if it has any.
    fn read_numbered_targets(&mut self, alloc: A, cursor: &mut Cursor<'_, '_>)
        ensures { tokens_left cursor.new ≤ tokens_left cursor.old }
    {
        loop {
            let succ = cursor.word();
            let args = vregs(alloc, cursor);
            cursor.push(&mut self.succs, succ);
            cursor.push(&mut self.args, args);
            if !cursor.has(",") {
                break;
            }
        }
    }

    /// Reads a part of a block's line, after its semicolon: the range, the predecessors or the successors.
    fn read_part(&mut self, alloc: A, cursor: &mut Cursor<'_, '_>)
        ensures { tokens_left cursor.new ≤ tokens_left cursor.old }
    {
        match cursor.peek().unwrap_or("") {
            "from" if !self.has_range => {
                self.range = cursor.range();
                self.has_range = true;
            }
            "preds" if self.preds.is_none() => {
                cursor.advance();
                self.preds = Some(block_numbers(alloc, cursor));
            }
            "succs" if !self.has_succs => {
                cursor.advance();
                self.has_succs = true;
                if !cursor.has("none") {
                    self.read_targets(alloc, cursor);
                }
            }
            "from" | "preds" | "succs" => cursor.misfit("each part once"),
            _ => cursor.misfit("`from`, `preds` or `succs`"),
        }
    }

    /// Reads a successor and its arguments, and adds them to the block's.
    fn read_target(&mut self, alloc: A, cursor: &mut Cursor<'_, '_>)
        ensures { tokens_left cursor.new ≤ tokens_left cursor.old }
    {
        let succ = cursor.named("block", "a block");
        let args = vregs(alloc, cursor);
        cursor.push(&mut self.succs, succ);
        cursor.push(&mut self.args, args);
    }

    /// Reads one or more successors between commas with their arguments, and adds them to the block's.
    fn read_targets(&mut self, alloc: A, cursor: &mut Cursor<'_, '_>)
        ensures { tokens_left cursor.new ≤ tokens_left cursor.old }
    {
        self.read_target(alloc, cursor);
        while cursor.has(",") {
            self.read_target(alloc, cursor);
        }
    }

    /// Notes an error if an instruction before the one whose opcode was read last has the block's successors.
    pub(super) fn want_unended(&self, cursor: &mut Cursor<'_, '_>)
        ensures { tokens_left cursor.new ≤ tokens_left cursor.old }
    {
        if !self.has_succs && !self.succs.is_empty() {
            cursor.misfit_before("no instruction after the one with the block's successors");
        }
    }

    /// Reads the successors behind the opcode of an instruction of the block, if there are any.
    pub(super) fn read_succs(&mut self, alloc: A, cursor: &mut Cursor<'_, '_>)
        ensures { tokens_left cursor.new ≤ tokens_left cursor.old }
    {
        self.want_unended(cursor);
        if !cursor.begins("block") {
            return;
        }
        if self.has_succs {
            cursor.misfit("no successors here");
        }
        self.read_targets(alloc, cursor);
    }

    /// Sets the end of the block's range to `end`, unless the block's line says the range.
    pub(super) fn extend(&mut self, end: u32) {
        if !self.has_range {
            self.range.1 = end;
        }
    }
}

/// What a function keeps of its blocks, list by list.
#[derive(Drop)]
pub(super) struct ReadBlocks<A: Allocator> {
    pub(super) ranges: Vec<(u32, u32), A>,
    pub(super) preds: Vec<Vec<u32, A>, A>,
    pub(super) succs: Vec<Vec<u32, A>, A>,
    pub(super) params_in: Vec<Vec<u32, A>, A>,
    pub(super) params_out: Vec<Vec<Vec<u32, A>, A>, A>,
}

/// Adds `block` to the predecessors of its successors `succs`, as far as there are such blocks.
fn add_pred<A: Allocator>(
    cursor: &mut Cursor<'_, '_>,
    preds: &mut Vec<Vec<u32, A>, A>,
    block: u32,
    succs: &[u32],
) {
    for succ in succs {
        if let Some(list) = preds.get_mut(*succ as usize) {
            cursor.push(list, block);
        }
    }
}

/// Returns the predecessors of each of `blocks`, which follow from the successors.
fn default_preds<A: Allocator + Copy>(
    alloc: A,
    cursor: &mut Cursor<'_, '_>,
    blocks: &[DraftBlock<A>],
) -> Vec<Vec<u32, A>, A> {
    let mut preds = cursor.empty_lists(alloc, blocks.len());
    for block in blocks {
        add_pred(cursor, &mut preds, block.number, block.succs.as_slice());
    }
    preds
}

impl<A: Allocator + Copy> ReadBlocks<A> {
    /// Returns the lists of `blocks`.
    pub(super) fn new(
        alloc: A,
        cursor: &mut Cursor<'_, '_>,
        blocks: Vec<DraftBlock<A>, A>,
    ) -> Self {
        let mut lists = ReadBlocks {
            ranges: Vec::new(alloc),
            preds: default_preds(alloc, cursor, blocks.as_slice()),
            succs: Vec::new(alloc),
            params_in: Vec::new(alloc),
            params_out: Vec::new(alloc),
        };
        for block in blocks {
            lists.push(cursor, block);
        }
        lists
    }

    /// Adds `block`. The predecessors that its line gives replace the default ones.
    fn push(&mut self, cursor: &mut Cursor<'_, '_>, block: DraftBlock<A>) {
        let DraftBlock {
            number,
            range,
            has_range: _,
            params,
            preds,
            has_succs: _,
            succs,
            args,
        } = block;
        cursor.push(&mut self.ranges, range);
        if let Some(list) = self.preds.get_mut(number as usize) {
            put(list, preds);
        }
        cursor.push(&mut self.succs, succs);
        cursor.push(&mut self.params_in, params);
        cursor.push(&mut self.params_out, args);
    }
}
