//! The lines of a function read so far, and the function they make.

use super::functions::Functions;
use super::operations::{Scope, read_branch, read_store, read_value, read_vreg};
use codegen_machine::{Malformed, NamedProcedure, Part, Procedure};
use codegen_operation::{Line, Operation};
use regalloc2_index::{Block, Inst, InstRange};
use regalloc2_names::VReg;
use regalloc2_text::cursor::{Cursor, Expected, Found, LineError, Token};
use std::alloc::Global;

/// The lines of a block read so far.
#[derive(Drop)]
struct DraftBlock {
    /// The numbers of its first line and of the line past its last.
    range: (u32, u32),
    params: Vec<VReg>,
    succs: Vec<Block>,
    /// The arguments for each successor.
    arguments: Vec<Vec<VReg>>,
    /// Whether its last line has been read.
    is_ended: bool,
}

/// Virtual registers in brackets, or none.
fn vregs(alloc: Global, cursor: &mut Cursor<'_, '_>) -> Vec<VReg> {
    let mut vregs = Vec::new(alloc);
    if !cursor.has("(") || cursor.has(")") {
        return vregs;
    }
    'vregs: loop {
        let vreg = read_vreg(cursor);
        cursor.push(&mut vregs, vreg);
        if !cursor.has(",") {
            break;
        }
    }
    cursor.want(")");
    vregs
}

impl DraftBlock {
    /// Reads a successor and its arguments.
    fn read_target(&mut self, alloc: Global, cursor: &mut Cursor<'_, '_>) {
        let succ = Block(cursor.named("block", "a block"));
        let arguments = vregs(alloc, cursor);
        cursor.push(&mut self.succs, succ);
        cursor.push(&mut self.arguments, arguments);
    }

    /// Reads a line of the block.
    fn read_operation(
        &mut self,
        alloc: Global,
        cursor: &mut Cursor<'_, '_>,
        scope: Scope<'_, '_>,
    ) -> Operation {
        if self.is_ended {
            cursor.misfit("a block, after the last instruction of one");
        }
        if cursor.begins("v") {
            return read_value(alloc, cursor, scope);
        }
        if let Some(store) = read_store(cursor) {
            return store;
        }
        self.is_ended = true;
        if cursor.has("jump") {
            self.read_target(alloc, cursor);
            return Operation::Jump;
        }
        if cursor.has("branch_if") {
            let branch = read_branch(cursor);
            self.read_target(alloc, cursor);
            cursor.want(",");
            self.read_target(alloc, cursor);
            return branch;
        }
        if !cursor.has("return") {
            cursor.misfit("a virtual register, `store`, `jump`, `branch_if`, `return` or a block");
        }
        let value = read_vreg(cursor);
        Operation::Return { value }
    }
}

/// The lines read so far.
#[derive(Drop)]
pub struct Draft {
    lines: Vec<Line>,
    blocks: Vec<DraftBlock>,
    /// One more than the greatest number of a vreg in the lines.
    num_vregs: u64,
    /// The function's name, unless it has none.
    name: String,
    /// How many arguments it has.
    arity: usize,
}

/// The predecessors of each block.
fn predecessors(
    alloc: Global,
    cursor: &mut Cursor<'_, '_>,
    blocks: &[DraftBlock],
) -> Vec<Vec<Block>> {
    let mut preds = cursor.empty_lists(alloc, blocks.len());
    let mut number = 0u32;
    for block in blocks {
        add_pred(cursor, &mut preds, Block(number), block.succs.as_slice());
        number = number.saturating_add(1);
    }
    preds
}

/// Adds `block` to the predecessors of each of `succs` that exists.
fn add_pred(
    cursor: &mut Cursor<'_, '_>,
    preds: &mut Vec<Vec<Block>>,
    block: Block,
    succs: &[Block],
) {
    for succ in succs {
        if let Some(list) = preds.get_mut(succ.index()) {
            cursor.push(list, block);
        }
    }
}

/// One more than the greatest number of an argument that lines read.
fn arity_of(lines: &[Line]) -> usize {
    let mut arity = 0;
    for line in lines {
        if let Operation::Argument { index, .. } = line.operation {
            arity = arity.max(index as usize + 1);
        }
    }
    arity
}

impl Draft {
    /// Returns a draft without lines of a function `name` with `arity` arguments. A function without a
    /// name has as many as its lines read, and at most as many.
    pub fn new(alloc: Global, name: String, arity: usize) -> Self {
        Draft {
            lines: Vec::new(alloc),
            blocks: Vec::new(alloc),
            num_vregs: 0,
            name,
            arity,
        }
    }

    /// The number of the next line; at 2^32 - 1 there are too many, which the test of the
    /// function's size reports.
    fn next_line(&self) -> u32 {
        u32::try_from(self.lines.len()).unwrap_or(u32::MAX)
    }

    /// Whether no line of a block has been read.
    pub fn is_empty(&self) -> bool {
        self.blocks.is_empty()
    }

    /// Reads a line from its tokens.
    pub fn read_line<'t>(
        &mut self,
        alloc: Global,
        tokens: &[Token<'t>],
        functions: &Functions<'t>,
    ) -> Result<(), LineError<'t>> {
        let mut cursor = Cursor::new(tokens, self.num_vregs);
        if cursor.begins("block") {
            self.read_block(alloc, &mut cursor);
        } else {
            self.read_inst(alloc, &mut cursor, functions);
        }
        self.num_vregs = cursor.num_vregs();
        cursor.finish()
    }

    /// Reads the line of a block.
    fn read_block(&mut self, alloc: Global, cursor: &mut Cursor<'_, '_>) {
        let next = self.blocks.len();
        if cursor.named("block", "a block") as usize != next {
            cursor.fault_before(Expected::NextBlock(next));
        }
        let params = vregs(alloc, cursor);
        cursor.want(":");
        let line = self.next_line();
        let block = DraftBlock {
            range: (line, line),
            params,
            succs: Vec::new(alloc),
            arguments: Vec::new(alloc),
            is_ended: false,
        };
        cursor.push(&mut self.blocks, block);
    }

    /// Reads the line of an operation.
    fn read_inst(&mut self, alloc: Global, cursor: &mut Cursor<'_, '_>, functions: &Functions<'_>) {
        let scope = Scope {
            functions,
            arity: self.arity,
        };
        let Some(block) = self.blocks.last_mut() else {
            cursor.fault(Expected::NextBlock(0));
            return;
        };
        let operation = block.read_operation(alloc, cursor, scope);
        match Line::new(alloc, operation) {
            Ok(line) => cursor.push(&mut self.lines, line),
            Err(refused) => cursor.fail(refused.into()),
        }
        let end = self.next_line();
        if let Some(block) = self.blocks.last_mut() {
            block.range.1 = end;
        }
    }

    /// Returns the function of all lines, with a memory of `memory_size` bytes.
    pub fn finish<'t>(
        self,
        alloc: Global,
        memory_size: usize,
    ) -> Result<NamedProcedure, LineError<'t>> {
        let Draft {
            lines,
            blocks,
            num_vregs,
            name,
            arity,
        } = self;
        let arity = if name.is_empty() {
            arity_of(&lines)
        } else {
            arity
        };
        let no_tokens: [Token<'t>; 0] = [];
        let mut cursor = Cursor::new(&no_tokens, 0);
        let preds = predecessors(alloc, &mut cursor, blocks.as_slice());
        let parts = parts(alloc, &mut cursor, blocks, preds);
        cursor.finish()?;
        let made = match Procedure::new(parts, lines, num_vregs as usize) {
            Ok(procedure) => procedure.with_memory(memory_size),
            Err(malformed) => Err(malformed),
        };
        match made {
            Ok(procedure) => Ok(NamedProcedure {
                name,
                arity,
                procedure,
            }),
            Err(malformed) => Err(line_error_of(malformed)),
        }
    }
}

/// The blocks with their predecessors.
fn parts(
    alloc: Global,
    cursor: &mut Cursor<'_, '_>,
    blocks: Vec<DraftBlock>,
    preds: Vec<Vec<Block>>,
) -> Vec<Part> {
    let mut parts = Vec::new(alloc);
    let mut lists = preds.into_iter();
    for block in blocks {
        let preds = match lists.next() {
            Some(preds) => preds,
            None => Vec::new(alloc),
        };
        let DraftBlock {
            range: (first, end),
            params,
            succs,
            arguments,
            is_ended: _,
        } = block;
        let part = Part {
            range: InstRange::new(Inst(first), Inst(end.max(first))),
            succs,
            preds,
            params,
            arguments,
        };
        cursor.push(&mut parts, part);
    }
    parts
}

/// The message for lines that make no valid function.
fn line_error_of<'t>(malformed: Malformed) -> LineError<'t> {
    let expected = match malformed {
        Malformed::TooLarge => "at most a million blocks, instructions and virtual registers",
        Malformed::MissingSuccessor => "two successors of a `branch_if`, and one of a `jump`",
        Malformed::UnknownRegister => "virtual registers of the function",
        Malformed::LargeNumber => "second numbers up to 2147483647",
        Malformed::LargeMemory => "a memory of at most 2147483647 bytes",
    };
    LineError::new(1, Expected::Words(expected), Found::TextEnd)
}
