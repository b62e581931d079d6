//! What the lines of a text say, and the function and the output that they make.

use super::Text;
use super::function::DraftFunction;
use super::insts::opcode_named;
use super::output::DraftOutput;
use super::stored::StoredLists;
use crate::cursor::{Cursor, Expected, LineError, Token, is_numbered};
use std::alloc::Allocator;

/// What a line leaves to the lines after it.
#[derive(Clone, Copy, PartialEq, Eq)]
pub(super) enum LineEffect {
    /// A move without a point, which an instruction is to follow.
    Waits,
    /// An instruction.
    Inst,
    /// Nothing.
    Nothing,
}

/// What the lines so far say.
#[derive(Drop)]
pub(super) struct Draft<A: Allocator> {
    function: DraftFunction<A>,
    output: DraftOutput<A>,
    lists: StoredLists<A>,
}

impl<A: Allocator + Copy> Draft<A> {
    /// Returns the draft before the first line.
    pub(super) fn new(alloc: A) -> Self {
        Draft {
            function: DraftFunction::new(alloc),
            output: DraftOutput::new(alloc),
            lists: StoredLists::new(),
        }
    }

    /// Reads a line, given as `tokens`. Returns what the line leaves to the lines after it, or the line's first error.
    pub(super) fn read_line<'t>(
        &mut self,
        alloc: A,
        tokens: &[Token<'t>],
    ) -> Result<LineEffect, LineError<'t>> {
        let Some(first) = tokens.first() else {
            return Ok(LineEffect::Nothing);
        };
        let mut cursor = Cursor::new(tokens, self.function.num_vregs);
        let sign = match tokens.get(1) {
            Some(second) => second.text,
            None => "",
        };
        let effect = self.read_kind(alloc, first.text, sign, &mut cursor);
        self.function.num_vregs = cursor.num_vregs();
        cursor.finish_with(effect)
    }

    /// Reads a line whose first word is `inst` with a number: the line of a move of a dump, if `sign` behind the word
    /// is `-`, else the line of an instruction. Returns what the line leaves to the lines after it.
    fn read_numbered(&mut self, alloc: A, sign: &str, cursor: &mut Cursor<'_, '_>) -> LineEffect {
        match sign {
            "-" => {
                self.output.read_dumped_move(cursor);
                return LineEffect::Nothing;
            }
            ":" => self
                .function
                .read_dumped_inst(alloc, cursor, &mut self.output),
            _ => self.function.read_inst(alloc, cursor, &mut self.output),
        }
        LineEffect::Inst
    }

    /// Reads a line whose first word is `word`, with `sign` behind it. Returns what the line leaves to the lines after
    /// it.
    fn read_kind(
        &mut self,
        alloc: A,
        word: &str,
        sign: &str,
        cursor: &mut Cursor<'_, '_>,
    ) -> LineEffect {
        if is_numbered(word, "block") {
            self.function.read_block(alloc, cursor);
            return LineEffect::Nothing;
        }
        if is_numbered(word, "inst") {
            return self.read_numbered(alloc, sign, cursor);
        }
        if opcode_named(word).is_some() {
            self.function.read_inst(alloc, cursor, &mut self.output);
            return LineEffect::Inst;
        }
        cursor.advance();
        if word == "move" {
            let next = self.function.next_inst(cursor);
            if self.output.read_move(cursor, next) {
                return LineEffect::Waits;
            }
        } else {
            self.read_other(alloc, word, cursor);
        }
        LineEffect::Nothing
    }

    /// Reads what follows `word`, the first word of a line of the machine, the settings or the output. Notes an error
    /// if no line begins with `word`.
    fn read_other(&mut self, alloc: A, word: &str, cursor: &mut Cursor<'_, '_>) {
        match word {
            "regs" => self.function.machine.read_preferred(alloc, cursor),
            "others" => self.function.machine.read_others(alloc, cursor),
            "scratch" => self.function.machine.read_scratch(alloc, cursor),
            "stack" => self.function.machine.read_stack(alloc, cursor),
            "entry" => self.function.settings.read_entry(cursor),
            "vregs" => self.function.settings.read_num_vregs(cursor),
            "sizes" => self.function.settings.read_sizes(cursor),
            "flags" => self.function.settings.read_flags(cursor),
            "label" => self.function.read_label(cursor),
            "slots" => self.output.read_slots(cursor),
            "debug" => self.output.read_debug(cursor),
            "stored" => self.lists.read(alloc, cursor),
            _ => cursor.fault_before(Expected::LineBeginning(None)),
        }
    }

    /// Returns the function and the output that all lines describe, or the first error.
    pub(super) fn finish<'t>(self, alloc: A) -> Result<Text<A>, LineError<'t>> {
        let no_tokens: [Token<'t>; 0] = [];
        let mut cursor = Cursor::new(&no_tokens, 0);
        let mut function = self.function.finish(alloc, &mut cursor);
        let (allocs, offsets) = self.lists.replace(&mut function);
        let output = self.output.finish(&function, &mut cursor, allocs, offsets);
        cursor.finish_with(Text { function, output })
    }
}
