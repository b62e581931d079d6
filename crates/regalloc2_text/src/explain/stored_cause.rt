//! The causes of errors in stored numbers, and their texts.

ghost use Rattle.std.specs.Prelude.{Some};
ghost use Rattle.regalloc2_text.specs.Explain.FaultText.{encoding_cause_text, index_cause_text, length_cause_text};
ghost use Rattle.regalloc2_text.specs.Explain.FaultText.{limit_cause_text, output_cause_text, stored_cause_text};

use crate::explain::stored::{ClassName, Counted};
use regalloc2_function::StoredFault;
use regalloc2_names::RegClass;
use std::fmt;

/// What is wrong with stored numbers: one of the several causes of an error.
#[derive(Clone, Copy)]
pub enum StoredCause {
    /// A list has a wrong length.
    Length(LengthCause),
    /// A number is out of range.
    Index(IndexCause),
    /// An encoding or a register's index names nothing.
    Encoding(EncodingCause),
    /// A limit is exceeded.
    Limit(LimitCause),
    /// An encoding in an output names nothing.
    Output(OutputCause),
    /// The error has only one cause.
    Known(StoredFault),
}

/// As `block1 lists block7 as a successor, and the function has 3 blocks`.
impl fmt::Display for StoredCause {
    ghost output = { λ c. Some (stored_cause_text c) };

    fn fmt<W: fmt::Write>(&self, f: &mut fmt::Formatter<W>) -> fmt::Result {
        match self {
            StoredCause::Length(cause) => write!(f, "{cause}"),
            StoredCause::Index(cause) => write!(f, "{cause}"),
            StoredCause::Encoding(cause) => write!(f, "{cause}"),
            StoredCause::Limit(cause) => write!(f, "{cause}"),
            StoredCause::Output(cause) => write!(f, "{cause}"),
            StoredCause::Known(fault) => write!(f, "{fault}"),
        }
    }
}

/// Why a list has a wrong length.
#[derive(Clone, Copy)]
pub enum LengthCause {
    /// A list by block has another length than there are blocks.
    BlockList {
        list: &'static str,
        count: usize,
        blocks: usize,
    },
    /// A block has another number of lists of arguments than successors.
    ArgumentLists {
        block: usize,
        lists: usize,
        succs: usize,
    },
    /// A list by class has another length than there are classes.
    ClassList {
        list: &'static str,
        count: usize,
    },
}

impl fmt::Display for LengthCause {
    ghost output = { λ c. Some (length_cause_text c) };

    fn fmt<W: fmt::Write>(&self, f: &mut fmt::Formatter<W>) -> fmt::Result {
        match *self {
            LengthCause::BlockList {
                list,
                count,
                blocks,
            } => {
                let (count, blocks) = (Counted(count, "member"), Counted(blocks, "block"));
                write!(f, "{list} has {count} for {blocks}")
            }
            LengthCause::ArgumentLists {
                block,
                lists,
                succs,
            } => {
                let (lists, succs) = (Counted(lists, "list"), Counted(succs, "successor"));
                write!(f, "block{block} has {lists} of arguments for {succs}")
            }
            LengthCause::ClassList { list, count } => {
                let count = Counted(count, "member");
                write!(f, "{list} has {count} for 3 classes")
            }
        }
    }
}

/// Why a number is out of range.
#[derive(Clone, Copy)]
pub enum IndexCause {
    /// The entry isn't a block.
    Entry {
        entry: u32,
        blocks: usize,
    },
    /// A block lists a predecessor or a successor that isn't a block.
    Neighbour {
        block: usize,
        role: &'static str,
        named: u32,
        blocks: usize,
    },
    /// A block's range is descending, or ends past the instructions.
    Range {
        block: usize,
        first: u32,
        end: u32,
        insts: usize,
    },
    /// A label is of a vreg that is not below the function's count.
    LabelPastCount {
        label: usize,
        number: u32,
        count: u64,
    },
}

impl fmt::Display for IndexCause {
    ghost output = { λ c. Some (index_cause_text c) };

    fn fmt<W: fmt::Write>(&self, f: &mut fmt::Formatter<W>) -> fmt::Result {
        match *self {
            IndexCause::Entry { entry, blocks } => write!(
                f,
                "the entry is block{entry}, and the function has {}",
                Counted(blocks, "block")
            ),
            IndexCause::Neighbour {
                block,
                role,
                named,
                blocks,
            } => write!(
                f,
                "block{block} lists block{named} as a {role}, and the function has {}",
                Counted(blocks, "block")
            ),
            IndexCause::Range {
                block,
                first,
                end,
                insts,
            } => write!(
                f,
                "block{block} goes from instruction {first} up to {end} of {insts}"
            ),
            IndexCause::LabelPastCount {
                label,
                number,
                count,
            } => write!(
                f,
                "label {label}, counted from 0, is of v{number}, and only numbers below {count} are defined"
            ),
        }
    }
}

/// Which encoding or register index of a function names nothing.
#[derive(Clone, Copy)]
pub enum EncodingCause {
    /// A list of registers has an invalid index.
    Register {
        list: &'static str,
        index: u8,
    },
    /// An operand's encoding is invalid.
    OperandWord {
        inst: usize,
        operand: usize,
        word: u64,
    },
    /// An instruction clobbers an invalid register index.
    Clobber {
        inst: usize,
        index: u8,
    },
    /// A parameter's or argument's encoding isn't that of a vreg.
    VRegWord {
        block: usize,
        role: &'static str,
        word: u32,
    },
    /// A label's encoding isn't that of a vreg.
    LabelWord {
        label: usize,
        word: u32,
    },
}

impl fmt::Display for EncodingCause {
    ghost output = { λ c. Some (encoding_cause_text c) };

    fn fmt<W: fmt::Write>(&self, f: &mut fmt::Formatter<W>) -> fmt::Result {
        match *self {
            EncodingCause::Register { list, index } => {
                write!(f, "{list} has {index}, which is no register's index")
            }
            EncodingCause::OperandWord {
                inst,
                operand,
                word,
            } => write!(
                f,
                "operand {operand} of inst{inst}, counted from 0, is {word}, which is no operand's word"
            ),
            EncodingCause::Clobber { inst, index } => {
                write!(
                    f,
                    "inst{inst} clobbers {index}, which is no register's index"
                )
            }
            EncodingCause::VRegWord { block, role, word } => {
                write!(
                    f,
                    "block{block} has {word} as {role}, which is no virtual register's word"
                )
            }
            EncodingCause::LabelWord { label, word } => write!(
                f,
                "label {label}, counted from 0, is of {word}, which is no virtual register's word"
            ),
        }
    }
}

/// Which limit is exceeded.
#[derive(Clone, Copy)]
pub enum LimitCause {
    /// There are 2^30 instructions or vregs, or 2^32 - 1 blocks, or more.
    TooMany {
        count: u64,
        what: &'static str,
        limit: &'static str,
    },
    /// The size of a class's slots isn't a power of two up to 2^24.
    SlotSize {
        class: RegClass,
        size: u64,
    },
}

impl fmt::Display for LimitCause {
    ghost output = { λ c. Some (limit_cause_text c) };

    fn fmt<W: fmt::Write>(&self, f: &mut fmt::Formatter<W>) -> fmt::Result {
        match *self {
            LimitCause::TooMany { count, what, limit } => {
                write!(f, "there are {count} {what}, and the limit is {limit}")
            }
            LimitCause::SlotSize { class, size } => {
                let class = ClassName(class);
                write!(
                    f,
                    "a slot of the class {class} takes {size} units, which is no power of two from 1 to 2^24"
                )
            }
        }
    }
}

/// Which encoding in an output names nothing.
#[derive(Clone, Copy)]
pub enum OutputCause {
    /// The encoding of a move's point or place is invalid.
    Move { index: usize },
    /// The encoding of an operand's place is invalid.
    Place { index: usize, word: u32 },
    /// The encoding of a debug location's point or place is invalid.
    Location { index: usize },
}

impl fmt::Display for OutputCause {
    ghost output = { λ c. Some (output_cause_text c) };

    fn fmt<W: fmt::Write>(&self, f: &mut fmt::Formatter<W>) -> fmt::Result {
        match *self {
            OutputCause::Move { index } => {
                write!(
                    f,
                    "move {index}, counted from 0, has a word of no point or place"
                )
            }
            OutputCause::Place { index, word } => {
                write!(
                    f,
                    "place {index}, counted from 0, is {word}, which is no place's word"
                )
            }
            OutputCause::Location { index } => {
                write!(
                    f,
                    "debug location {index}, counted from 0, has a word of no point or place"
                )
            }
        }
    }
}
