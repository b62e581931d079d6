//! What the lines say of a function.

use super::blocks::{DraftBlock, ReadBlocks};
use super::dump::read_dumped_opcode;
use super::insts::{DraftInst, read_opcode};
use super::machine::{ByClass, DraftMachine};
use super::output::{DraftOutput, TOO_MANY};
use super::settings::{Flags, Settings};
use crate::cursor::Cursor;
use regalloc2_serialize::{StoredFunction, StoredInst};
use std::alloc::Allocator;

/// What the lines so far say of a function and its machine.
#[derive(Drop)]
pub(super) struct DraftFunction<A: Allocator> {
    pub(super) machine: DraftMachine<A>,
    pub(super) settings: Settings,
    /// One more than the greatest number of a vreg that the lines show.
    pub(super) num_vregs: u64,
    insts: Vec<StoredInst<A>, A>,
    blocks: Vec<DraftBlock<A>, A>,
    labels: Vec<(u32, u32, u32, u32), A>,
}

impl<A: Allocator + Copy> DraftFunction<A> {
    /// Returns the draft before the first line.
    pub(super) fn new(alloc: A) -> Self {
        DraftFunction {
            machine: DraftMachine::new(alloc),
            settings: Settings::new(),
            num_vregs: 0,
            insts: Vec::new(alloc),
            blocks: Vec::new(alloc),
            labels: Vec::new(alloc),
        }
    }

    /// Returns the number of the next instruction; 0, with an error, if 32 bits can't hold it.
    pub(super) fn next_inst(&self, cursor: &mut Cursor<'_, '_>) -> u32 {
        match u32::try_from(self.insts.len()) {
            Ok(number) => number,
            Err(_) => {
                cursor.misfit(TOO_MANY);
                0
            }
        }
    }

    /// Reads the line of a block, and adds the block.
    pub(super) fn read_block(&mut self, alloc: A, cursor: &mut Cursor<'_, '_>) {
        let inst = self.next_inst(cursor);
        let block = DraftBlock::read(alloc, cursor, self.blocks.len(), inst);
        cursor.push(&mut self.blocks, block);
    }

    /// Reads the line of an instruction, and adds the instruction; its places are added to `output`.
    pub(super) fn read_inst(
        &mut self,
        alloc: A,
        cursor: &mut Cursor<'_, '_>,
        output: &mut DraftOutput<A>,
    ) {
        let number = self.next_inst(cursor);
        let op = read_opcode(cursor, number);
        if let Some(block) = self.blocks.last_mut() {
            block.read_succs(alloc, cursor);
        } else if cursor.begins("block") {
            cursor.misfit("no successors here");
        }
        let parts = DraftInst::read(alloc, cursor).into_parts(alloc, op);
        self.add_inst(cursor, number, parts, output);
    }

    /// Reads the line of an instruction of a dump, and adds the instruction; its places are added to `output`.
    pub(super) fn read_dumped_inst(
        &mut self,
        alloc: A,
        cursor: &mut Cursor<'_, '_>,
        output: &mut DraftOutput<A>,
    ) {
        let number = self.next_inst(cursor);
        let op = read_dumped_opcode(cursor, number);
        if let Some(block) = self.blocks.last_mut() {
            block.want_unended(cursor);
        }
        let parts = DraftInst::read_dumped(alloc, cursor).into_parts(alloc, op);
        output.note_dump();
        self.add_inst(cursor, number, parts, output);
    }

    /// Adds `parts`, the instruction `number` and its places, which are added to `output`. All of its line is read.
    fn add_inst(
        &mut self,
        cursor: &mut Cursor<'_, '_>,
        number: u32,
        parts: (StoredInst<A>, Vec<u32, A>),
        output: &mut DraftOutput<A>,
    ) {
        let (inst, places) = parts;
        if number == u32::MAX {
            cursor.misfit(TOO_MANY);
        }
        output.add_places(places.as_slice(), cursor);
        cursor.push(&mut self.insts, inst);
        if let Some(block) = self.blocks.last_mut() {
            block.extend(number.saturating_add(1));
        }
    }

    /// Reads what follows `label` in a line, and adds the label of a vreg.
    pub(super) fn read_label(&mut self, cursor: &mut Cursor<'_, '_>) {
        let label = cursor.word();
        cursor.want(":");
        let vreg = cursor.vreg_bits();
        let (from, until) = cursor.range();
        cursor.push(&mut self.labels, (vreg, from, until, label));
    }

    /// Returns the function. What no line says has its default, which follows from the other lines.
    pub(super) fn finish(self, alloc: A, cursor: &mut Cursor<'_, '_>) -> StoredFunction<A> {
        let lists = ReadBlocks::new(alloc, cursor, self.blocks);
        let settings = self.settings;
        let flags = settings.flags.unwrap_or(Flags::NONE);
        StoredFunction {
            machine_env: self.machine.finish(alloc, cursor),
            entry_block: settings.entry_block.unwrap_or(0),
            insts: self.insts,
            blocks: lists.ranges,
            block_preds: lists.preds,
            block_succs: lists.succs,
            block_params_in: lists.params_in,
            block_params_out: lists.params_out,
            num_vregs: settings.num_vregs.unwrap_or(self.num_vregs),
            debug_value_labels: self.labels,
            spillslot_size: settings
                .sizes
                .unwrap_or(ByClass::new(1, 1, 1))
                .into_vec(alloc, cursor),
            multi_spillslot_named_by_last_slot: flags.named_by_last,
            allow_multiple_vreg_defs: flags.several_definitions,
        }
    }
}
