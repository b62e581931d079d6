//! Functions: blocks of lines.

ghost use Rattle.std.specs.Prelude.{◌≡◌, ◌<◌, ◌≤◌, ◌^◌, ◌-◌, IfOk, IfErr, IsTrue, vec_len};
ghost use Rattle.std.specs.List.{list_all};
ghost use Rattle.codegen_machine.specs.Successors.{has_small_number, has_successors, knows_registers, operations_of, wanted_by, IsMalformed};

use codegen_operation::{Line, Operation, Right};
use regalloc2_function::Function;
use regalloc2_index::{Block, Inst, InstRange};
use regalloc2_names::{Operand, PRegSet, RegClass, VReg};
use std::error::Error;
use std::fmt;

/// A block of lines.
#[derive(Drop)]
pub struct Part {
    /// The numbers of the block's lines.
    pub range: InstRange,
    /// The successors of the block.
    pub succs: Vec<Block>,
    /// The predecessors of the block.
    pub preds: Vec<Block>,
    /// The parameters of the block.
    pub params: Vec<VReg>,
    /// The arguments for each successor.
    pub arguments: Vec<Vec<VReg>>,
}

/// A function over 64-bit integers. It starts at block 0.
#[derive(Drop)]
pub struct Procedure {
    /// The blocks of the function.
    pub parts: Vec<Part>,
    /// The lines of all blocks.
    pub lines: Vec<Line>,
    /// A bound above the number of each virtual register.
    pub num_vregs: usize,
    /// The size of the memory that it uses, in bytes.
    pub memory_size: usize,
    pub ghost few_parts: { vec_len parts < 2 ^ 32 - 1 },
    pub ghost few_lines: { vec_len lines < 2 ^ 30 },
    pub ghost few_vregs: { num_vregs < 2 ^ 30 },
    pub ghost small_memory: { memory_size < 2 ^ 31 },
    pub ghost known: { IsTrue (list_all (knows_registers num_vregs) lines.items) },
    pub ghost small: { IsTrue (list_all has_small_number lines.items) },
    pub ghost successors: { IsTrue (list_all (has_successors (operations_of lines.items)) parts.items) },
}

/// Why blocks and lines are rejected.
#[derive(Clone, Copy, Debug, PartialEq, Eq)]
pub enum Malformed {
    /// There are more than a million blocks, lines or vregs.
    TooLarge,
    /// A block ends with a branch to a successor that it doesn't have.
    MissingSuccessor,
    /// A line names a vreg whose number isn't below the function's.
    UnknownRegister,
    /// A line has a constant of 2^31 or more as its second number.
    LargeNumber,
    /// The memory has 2^31 bytes or more.
    LargeMemory,
}

impl fmt::Display for Malformed {
    ghost use Rattle.std.specs.Prelude.{Some};
    ghost use Rattle.codegen_machine.specs.ErrorText.{malformed_text};

    ghost output = { λ e. Some (malformed_text e) };

    fn fmt<W: fmt::Write>(&self, f: &mut fmt::Formatter<W>) -> fmt::Result {
        match self {
            Malformed::TooLarge => f.write_str("the function is too large"),
            Malformed::MissingSuccessor => f.write_str("a block has too few successors"),
            Malformed::UnknownRegister => {
                write!(
                    f,
                    "a line names a virtual register that the function doesn't have"
                )
            }
            Malformed::LargeNumber => f.write_str("a line has a number of 2^31 or more"),
            Malformed::LargeMemory => f.write_str("the memory has 2^31 bytes or more"),
        }
    }
}

impl Error for Malformed {}

/// The number of successors that an operation requires.
fn successors_wanted(operation: &Operation) -> usize
    ensures { result ≡ wanted_by operation.now }
{
    match *operation {
        Operation::Jump => 1,
        Operation::BranchIf { .. } | Operation::BranchIfHolds { .. } => 2,
        _ => 0,
    }
}

/// Whether a block has at least as many successors as its last line requires.
fn has_them(lines: &[Line], part: &Part) -> bool
    ensures { result ≡ has_successors (operations_of lines.now) part.now }
{
    let end = part.range.end().index();
    match lines.get(end.saturating_sub(1)) {
        Some(line) => successors_wanted(&line.operation) <= part.succs.len(),
        None => true,
    }
}

/// Whether each block has at least as many successors as its last line requires.
fn all_have_them(lines: &[Line], parts: &[Part]) -> bool
    ensures { result ≡ list_all (has_successors (operations_of lines.now)) parts.now }
{
    parts.iter().all(|part| has_them(lines, part))
}

/// Whether a line's vregs have numbers below `num_vregs`.
fn knows_registers(line: &Line, num_vregs: usize) -> bool
    ensures { result ≡ knows_registers num_vregs line.now }
{
    line.operands
        .iter()
        .all(|operand| operand.vreg().vreg() < num_vregs)
}

/// Whether a line's second number is below 2^31, if it is a constant.
fn has_small_number(line: &Line) -> bool
    ensures { result ≡ has_small_number line.now }
{
    match line.operation {
        Operation::Compute { right, .. }
        | Operation::Compare { right, .. }
        | Operation::BranchIfHolds { right, .. } => match right {
            Right::VReg(_) => true,
            Right::Number(number) => number < 1 << 31,
        },
        _ => true,
    }
}

/// Whether each line's vregs have numbers below `num_vregs`.
fn all_know_registers(lines: &[Line], num_vregs: usize) -> bool
    ensures { result ≡ list_all (knows_registers num_vregs) lines.now }
{
    lines.iter().all(|line| knows_registers(line, num_vregs))
}

/// Whether each line's second number is below 2^31, if it is a constant.
fn all_are_small(lines: &[Line]) -> bool
    ensures { result ≡ list_all has_small_number lines.now }
{
    lines.iter().all(|line| has_small_number(line))
}

impl Procedure {
    /// Returns the function of these blocks and lines, without memory.
    ///
    /// # Errors
    ///
    /// The first that applies, in this order: `TooLarge`, `MissingSuccessor`, `UnknownRegister`,
    /// `LargeNumber`.
    pub fn new(parts: Vec<Part>, lines: Vec<Line>, num_vregs: usize) -> Result<Procedure, Malformed>
        ensures ok { IfOk result (λ p. (p.parts ≡ parts) × (p.lines ≡ lines) × (p.num_vregs ≡ num_vregs) × (p.memory_size ≡ 0)) }
        ensures err { IfErr result (IsMalformed parts.items lines.items num_vregs) }
    {
        const MOST: usize = 1_000_000;
        if parts.len() > MOST || lines.len() > MOST || num_vregs > MOST {
            return Err(Malformed::TooLarge);
        }
        if !all_have_them(&lines, &parts) {
            return Err(Malformed::MissingSuccessor);
        }
        if !all_know_registers(&lines, num_vregs) {
            return Err(Malformed::UnknownRegister);
        }
        if !all_are_small(&lines) {
            return Err(Malformed::LargeNumber);
        }
        Ok(Procedure {
            parts,
            lines,
            num_vregs,
            memory_size: 0,
        })
    }

    /// Returns the function with a memory of `memory_size` bytes.
    ///
    /// # Errors
    ///
    /// `LargeMemory` from 2^31 on.
    pub fn with_memory(self, memory_size: usize) -> Result<Procedure, Malformed>
        ensures ok { IfOk result (λ p. (p.parts ≡ self.parts) × (p.lines ≡ self.lines) × (p.num_vregs ≡ self.num_vregs) × (p.memory_size ≡ memory_size)) }
        ensures err { IfErr result (λ e. (e ≡ Malformed.LargeMemory) × (2 ^ 31 ≤ memory_size)) }
    {
        if memory_size >= 1 << 31 {
            return Err(Malformed::LargeMemory);
        }
        let Procedure {
            parts,
            lines,
            num_vregs,
            memory_size: _,
        } = self;
        Ok(Procedure {
            parts,
            lines,
            num_vregs,
            memory_size,
        })
    }
}

impl Function for Procedure {
    ghost use Rattle.codegen_machine.specs.Seen.{function_of_procedure, limited_procedure};

    ghost function = { function_of_procedure };

    fn num_insts(&self) -> usize {
        self.lines.len()
    }

    fn num_blocks(&self) -> usize {
        self.parts.len()
    }

    fn num_vregs(&self) -> usize {
        self.num_vregs
    }

    fn entry_block(&self) -> Block {
        Block::new(0)
    }

    fn block_insns(&self, block: Block) -> InstRange {
        self.parts[block.index()].range
    }

    fn block_succs(&self, block: Block) -> &[Block] {
        &self.parts[block.index()].succs
    }

    fn block_preds(&self, block: Block) -> &[Block] {
        &self.parts[block.index()].preds
    }

    fn block_params(&self, block: Block) -> &[VReg] {
        &self.parts[block.index()].params
    }

    fn is_ret(&self, inst: Inst) -> bool {
        match self.lines[inst.index()].operation {
            Operation::Return { .. } => true,
            _ => false,
        }
    }

    fn is_branch(&self, inst: Inst) -> bool {
        match self.lines[inst.index()].operation {
            Operation::Jump | Operation::BranchIf { .. } | Operation::BranchIfHolds { .. } => true,
            _ => false,
        }
    }

    fn branch_blockparams(&self, block: Block, _inst: Inst, succ_idx: usize) -> &[VReg] {
        match self.parts[block.index()].arguments.get(succ_idx) {
            Some(arguments) => arguments,
            None => &[],
        }
    }

    fn inst_operands(&self, inst: Inst) -> &[Operand] {
        &self.lines[inst.index()].operands
    }

    fn inst_clobbers(&self, inst: Inst) -> PRegSet {
        self.lines[inst.index()].clobbers
    }

    fn debug_value_labels(&self) -> &[(VReg, Inst, Inst, u32)] {
        &[]
    }

    fn spillslot_size(&self, _regclass: RegClass) -> usize {
        1
    }

    fn multi_spillslot_named_by_last_slot(&self) -> bool {
        false
    }

    fn allow_multiple_vreg_defs(&self) -> bool {
        false
    }

    ghost limited = { λ p. limited_procedure p };
}
