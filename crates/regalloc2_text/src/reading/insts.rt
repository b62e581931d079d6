//! The lines of instructions.

ghost use Rattle.std.specs.Prelude.{◌≤◌};
ghost use Rattle.regalloc2_text.specs.Cursor.Cursor.{tokens_left};

use super::machine::read_registers;
use crate::cursor::{Cursor, Expected};
use regalloc2_serialize::{InstOpcode, StoredInst};
use std::alloc::Allocator;

/// Returns the opcode that `name` names, if any.
pub(super) fn opcode_named(name: &str) -> Option<InstOpcode> {
    match name {
        "op" => Some(InstOpcode::Op),
        "branch" => Some(InstOpcode::Branch),
        "ret" => Some(InstOpcode::Ret),
        _ => None,
    }
}

/// Reads an instruction's number, which may be left out and else has to be `next`, and its opcode, and returns the
/// opcode. Returns `Op`, with an error, if there is no opcode.
pub(super) fn read_opcode(cursor: &mut Cursor<'_, '_>, next: u32) -> InstOpcode {
    if cursor.begins("inst") && cursor.named("inst", "an instruction") != next {
        cursor.fault_before(Expected::NextInst(next as usize));
    }
    match opcode_named(cursor.peek().unwrap_or("")) {
        Some(op) => {
            cursor.advance();
            op
        }
        None => {
            cursor.misfit("`op`, `branch` or `ret`");
            InstOpcode::Op
        }
    }
}

/// What a line says of an instruction behind its opcode and its successors.
#[derive(Drop)]
pub(super) struct DraftInst<A: Allocator> {
    operands: Vec<u64, A>,
    /// The places of the first operands; if each operand has a place, further places may follow.
    places: Vec<u32, A>,
    clobbers: Option<Vec<u8, A>>,
    /// Whether there are further places.
    has_more: bool,
}

impl<A: Allocator + Copy> DraftInst<A> {
    /// Returns an instruction without operands.
    fn new(alloc: A) -> Self {
        DraftInst {
            operands: Vec::new(alloc),
            places: Vec::new(alloc),
            clobbers: None,
            has_more: false,
        }
    }

    /// Reads what follows an instruction's opcode and successors, and returns the operands, places and clobbers.
    pub(super) fn read(alloc: A, cursor: &mut Cursor<'_, '_>) -> Self {
        let mut inst = DraftInst::new(alloc);
        if cursor.has(":") {
            inst.read_operands(cursor);
        }
        while cursor.has(";") {
            inst.read_part(alloc, cursor);
        }
        inst
    }

    /// Reads what follows the opcode of an instruction of a dump: operands, each with its place, and clobbers in
    /// brackets. Returns them.
    pub(super) fn read_dumped(alloc: A, cursor: &mut Cursor<'_, '_>) -> Self {
        let mut inst = DraftInst::new(alloc);
        match cursor.peek() {
            None | Some("[") => {}
            Some(_) => inst.read_operands(cursor),
        }
        if cursor.has("[") {
            cursor.want("clobber");
            cursor.want(":");
            let mut clobbers = Vec::new(alloc);
            read_registers(alloc, cursor, &mut clobbers);
            inst.clobbers = Some(clobbers);
            cursor.want("]");
        }
        inst
    }

    /// Reads one or more operands between commas with their places, and adds them.
    fn read_operands(&mut self, cursor: &mut Cursor<'_, '_>)
        ensures { tokens_left cursor.new ≤ tokens_left cursor.old }
    {
        self.read_operand(cursor);
        while cursor.has(",") {
            self.read_operand(cursor);
        }
    }

    /// Reads an operand, and its place in brackets if it has one, and adds them.
    fn read_operand(&mut self, cursor: &mut Cursor<'_, '_>)
        ensures { tokens_left cursor.new ≤ tokens_left cursor.old }
    {
        let before = self.operands.len();
        let operand = cursor.operand_bits();
        cursor.push(&mut self.operands, operand);
        if !cursor.has("[") {
            return;
        }
        if self.places.len() != before {
            cursor.misfit_before("no place after an operand without one");
        }
        self.read_place(cursor);
        cursor.want("]");
    }

    /// Reads a place, and adds it.
    fn read_place(&mut self, cursor: &mut Cursor<'_, '_>)
        ensures { tokens_left cursor.new ≤ tokens_left cursor.old }
    {
        let place = cursor.place_bits();
        cursor.push(&mut self.places, place);
    }

    /// Reads a part of an instruction's line, after its semicolon: the clobbers, or further places.
    fn read_part(&mut self, alloc: A, cursor: &mut Cursor<'_, '_>)
        ensures { tokens_left cursor.new ≤ tokens_left cursor.old }
    {
        match cursor.peek().unwrap_or("") {
            "clobbers" if self.clobbers.is_none() => {
                cursor.advance();
                let mut clobbers = Vec::new(alloc);
                read_registers(alloc, cursor, &mut clobbers);
                self.clobbers = Some(clobbers);
            }
            "more" if !self.has_more => {
                cursor.advance();
                self.has_more = true;
                self.read_more(cursor);
            }
            "clobbers" | "more" => cursor.misfit("each part once"),
            _ => cursor.misfit("`clobbers` or `more`"),
        }
    }

    /// Reads one or more places between commas, and adds them after the operands' places.
    fn read_more(&mut self, cursor: &mut Cursor<'_, '_>)
        ensures { tokens_left cursor.new ≤ tokens_left cursor.old }
    {
        if self.places.len() != self.operands.len() {
            cursor.misfit_before("`more` where each operand has a place");
        }
        self.read_place(cursor);
        while cursor.has(",") {
            self.read_place(cursor);
        }
    }

    /// Returns the instruction with the opcode `op`, and its places.
    pub(super) fn into_parts(self, alloc: A, op: InstOpcode) -> (StoredInst<A>, Vec<u32, A>) {
        let inst = StoredInst {
            op,
            operands: self.operands,
            clobbers: self.clobbers.unwrap_or(Vec::new(alloc)),
        };
        (inst, self.places)
    }
}
