//! A small intermediate representation, as the allocator sees it.

ghost use Rattle.std.specs.Prelude.{◌≡◌, ◌⊎◌, ◌<◌, ◌^◌, ◌-◌, IfSome, IfNone, vec_len};

use regalloc2::{Block, Function, Inst, InstRange, Operand, PRegSet, RegClass, VReg};

/// What a line does.
#[derive(Clone, Copy, Drop)]
pub enum Kind {
    /// Takes the program's argument.
    Argument,
    /// A number.
    Number(u32),
    /// A sum: its second operand is added to the first.
    Add,
    /// A difference: its second operand is taken from the first.
    Sub,
    /// Goes to the only successor.
    Jump,
    /// Goes to the first successor where its operand isn't 0, and else to the second.
    Fork,
    /// Ends with its operand.
    Return,
}

/// A line.
#[derive(Drop)]
pub struct Line {
    /// What it does.
    pub kind: Kind,
    /// With what.
    pub operands: Vec<Operand>,
    /// Which registers it overwrites besides.
    pub clobbers: PRegSet,
}

/// A block of lines.
#[derive(Drop)]
pub struct Part {
    /// The numbers of the block's lines.
    pub range: InstRange,
    /// The blocks that may follow.
    pub succs: Vec<Block>,
    /// The blocks that it may follow.
    pub preds: Vec<Block>,
    /// What takes the arguments with which it is entered.
    pub params: Vec<VReg>,
    /// The arguments for each block that may follow.
    pub arguments: Vec<Vec<VReg>>,
}

/// A program. It starts at block 0.
#[derive(Drop)]
pub struct Code {
    /// The blocks of the program.
    pub parts: Vec<Part>,
    /// The lines of all blocks.
    pub lines: Vec<Line>,
    /// A number above that of each vreg.
    pub num_vregs: usize,
    pub ghost few_parts: { vec_len parts < 2 ^ 32 - 1 },
    pub ghost few_lines: { vec_len lines < 2 ^ 30 },
    pub ghost few_vregs: { num_vregs < 2 ^ 30 },
}

impl Code {
    /// The program of the blocks `parts` and the lines `lines`, with vregs below `num_vregs`, unless they are too
    /// many.
    pub fn new(parts: Vec<Part>, lines: Vec<Line>, num_vregs: usize) -> Option<Code>
        ensures some { IfSome result (λ c. (c.parts ≡ parts) × (c.lines ≡ lines) × (c.num_vregs ≡ num_vregs)) }
        ensures none { IfNone result ((1000000 < vec_len parts) ⊎ (1000000 < vec_len lines) ⊎ (1000000 < num_vregs)) }
    {
        const MOST: usize = 1_000_000;
        if parts.len() > MOST || lines.len() > MOST || num_vregs > MOST {
            return None;
        }
        Some(Code {
            parts,
            lines,
            num_vregs,
        })
    }
}

impl Function for Code {
    ghost use Rattle.example_toy.specs.Seen.{function_of, limited_code};

    ghost function = { function_of };

    fn num_insts(&self) -> usize {
        self.lines.len()
    }

    fn num_blocks(&self) -> usize {
        self.parts.len()
    }

    fn num_vregs(&self) -> usize {
        self.num_vregs
    }

    fn entry_block(&self) -> Block {
        Block::new(0)
    }

    fn block_insns(&self, block: Block) -> InstRange {
        self.parts[block.index()].range
    }

    fn block_succs(&self, block: Block) -> &[Block] {
        &self.parts[block.index()].succs
    }

    fn block_preds(&self, block: Block) -> &[Block] {
        &self.parts[block.index()].preds
    }

    fn block_params(&self, block: Block) -> &[VReg] {
        &self.parts[block.index()].params
    }

    fn is_ret(&self, inst: Inst) -> bool {
        match self.lines[inst.index()].kind {
            Kind::Return => true,
            _ => false,
        }
    }

    fn is_branch(&self, inst: Inst) -> bool {
        match self.lines[inst.index()].kind {
            Kind::Jump | Kind::Fork => true,
            _ => false,
        }
    }

    fn branch_blockparams(&self, block: Block, _inst: Inst, succ_idx: usize) -> &[VReg] {
        match self.parts[block.index()].arguments.get(succ_idx) {
            Some(arguments) => arguments,
            None => &[],
        }
    }

    fn inst_operands(&self, inst: Inst) -> &[Operand] {
        &self.lines[inst.index()].operands
    }

    fn inst_clobbers(&self, inst: Inst) -> PRegSet {
        self.lines[inst.index()].clobbers
    }

    fn debug_value_labels(&self) -> &[(VReg, Inst, Inst, u32)] {
        &[]
    }

    fn spillslot_size(&self, _regclass: RegClass) -> usize {
        1
    }

    fn multi_spillslot_named_by_last_slot(&self) -> bool {
        false
    }

    fn allow_multiple_vreg_defs(&self) -> bool {
        false
    }

    ghost limited = { λ p. limited_code p };
}
