//! Causes, and their texts.

use crate::explain::stored::{ClassName, Counted};
use regalloc2_names::{PReg, RegClass, VReg, VRegText};
use std::fmt;

/// A part of a function.
#[derive(Clone, Copy)]
pub enum Site {
    /// The function as a whole.
    Function,
    /// A block's own line, with its parameters.
    Block(usize),
    /// An instruction.
    Inst(usize),
    /// An operand, by the number of its instruction and its index there.
    Operand(usize, usize),
    /// A move of an output, by its index.
    Move(usize),
}

/// As `block1`, `inst3` or `move 0`; for an operand the text of its instruction.
impl fmt::Display for Site {
    fn fmt<W: fmt::Write>(&self, f: &mut fmt::Formatter<W>) -> fmt::Result {
        match self {
            Site::Function => f.write_str("the function"),
            Site::Block(block) => write!(f, "block{block}"),
            Site::Inst(inst) | Site::Operand(inst, _) => write!(f, "inst{inst}"),
            Site::Move(index) => write!(f, "move {index}"),
        }
    }
}

/// Why a function is rejected.
#[derive(Clone, Copy)]
pub enum Cause {
    /// The blocks aren't in order.
    Order(OrderCause),
    /// An edge between two blocks is invalid.
    Edge(EdgeCause),
    /// A block doesn't end as a block has to.
    End(EndCause),
    /// A block's arguments don't fit the parameters that they are passed to.
    Argument(ArgumentCause),
    /// A vreg's definitions and uses don't agree.
    VReg(VRegCause),
    /// A reuse constraint is invalid.
    Reuse(ReuseCause),
    /// An operand's constraint can't be met.
    Constraint(ConstraintCause),
    /// There are too few registers, or too many operands or slots.
    Count(CountCause),
    /// No test of this crate finds a cause.
    Other,
}

/// Writes what is wrong, as `v0i is defined twice`, on one line.
impl fmt::Display for Cause {
    fn fmt<W: fmt::Write>(&self, f: &mut fmt::Formatter<W>) -> fmt::Result {
        match self {
            Cause::Order(cause) => write!(f, "{cause}"),
            Cause::Edge(cause) => write!(f, "{cause}"),
            Cause::End(cause) => write!(f, "{cause}"),
            Cause::Argument(cause) => write!(f, "{cause}"),
            Cause::VReg(cause) => write!(f, "{cause}"),
            Cause::Reuse(cause) => write!(f, "{cause}"),
            Cause::Constraint(cause) => write!(f, "{cause}"),
            Cause::Count(cause) => write!(f, "{cause}"),
            Cause::Other => write!(f, "no test finds the cause"),
        }
    }
}

/// Why the blocks aren't in order.
#[derive(Clone, Copy)]
pub enum OrderCause {
    /// A block has no instructions.
    Empty {
        block: usize,
    },
    /// A block doesn't begin where the one before ends.
    Begins {
        block: usize,
        first: usize,
        wanted: usize,
    },
    /// The last block doesn't end with the last instruction.
    Ends {
        block: usize,
        end: usize,
        insts: usize,
    },
    /// The entry isn't block 0.
    EntryIsLater {
        entry: usize,
    },
}

impl fmt::Display for OrderCause {
    fn fmt<W: fmt::Write>(&self, f: &mut fmt::Formatter<W>) -> fmt::Result {
        match *self {
            OrderCause::Empty { block } => write!(f, "block{block} has no instructions"),
            OrderCause::Begins {
                block,
                first,
                wanted,
            } => write!(
                f,
                "block{block} begins at inst{first}, and inst{wanted} is the first after the blocks before"
            ),
            OrderCause::Ends { block, end, insts } => {
                let insts = Counted(insts, "instruction");
                write!(
                    f,
                    "block{block}, the last one, ends before inst{end}, and the function has {insts}"
                )
            }
            OrderCause::EntryIsLater { entry } => {
                write!(f, "the entry is block{entry}; it must be block0")
            }
        }
    }
}

/// Why an edge is invalid.
#[derive(Clone, Copy)]
pub enum EdgeCause {
    /// An edge from a block with several successors to a block with several incoming edges.
    CriticalEdge {
        from: usize,
        to: usize,
        succs: usize,
        ways: usize,
    },
    /// A block's predecessors aren't the blocks with an edge to it.
    Predecessors {
        block: usize,
        listed: usize,
        leading: usize,
    },
    /// A branch with operands leads to a block with several incoming edges.
    BranchOperands {
        inst: usize,
        operands: usize,
        succ: usize,
        ways: usize,
    },
}

impl fmt::Display for EdgeCause {
    fn fmt<W: fmt::Write>(&self, f: &mut fmt::Formatter<W>) -> fmt::Result {
        match *self {
            EdgeCause::CriticalEdge {
                from,
                to,
                succs,
                ways,
            } => write!(
                f,
                "block{from} has {succs} successors, and one of them, block{to}, is entered in {ways} ways"
            ),
            EdgeCause::Predecessors {
                block,
                listed,
                leading,
            } => {
                let listed = Counted(listed, "predecessor");
                let leading = Counted(leading, "edge");
                write!(
                    f,
                    "block{block} lists {listed}, not those of the {leading} into it"
                )
            }
            EdgeCause::BranchOperands {
                inst,
                operands,
                succ,
                ways,
            } => {
                let operands = Counted(operands, "operand");
                write!(
                    f,
                    "inst{inst} has {operands} and leads to block{succ}, which is entered in {ways} ways"
                )
            }
        }
    }
}

/// Why a block doesn't end as a block has to.
#[derive(Clone, Copy)]
pub enum EndCause {
    /// A block continues after its last instruction, which is neither a branch nor a return.
    OpenEnd { block: usize, inst: usize },
    /// A return ends a block with successors.
    ReturnLeads { block: usize, succs: usize },
    /// A branch or a return isn't its block's last instruction.
    EndsWithin { block: usize, inst: usize },
}

impl fmt::Display for EndCause {
    fn fmt<W: fmt::Write>(&self, f: &mut fmt::Formatter<W>) -> fmt::Result {
        match *self {
            EndCause::OpenEnd { block, inst } => write!(
                f,
                "inst{inst}, the last of block{block}, neither branches nor returns"
            ),
            EndCause::ReturnLeads { block, succs } => {
                let succs = Counted(succs, "successor");
                write!(f, "block{block} ends in a return and has {succs}")
            }
            EndCause::EndsWithin { block, inst } => write!(
                f,
                "inst{inst} branches or returns, and isn't the last of block{block}"
            ),
        }
    }
}

/// Why arguments don't fit the parameters that they are passed to.
#[derive(Clone, Copy)]
pub enum ArgumentCause {
    /// A block passes another number of arguments than its successor has parameters.
    ArgumentCount {
        succ: usize,
        passed: usize,
        wanted: usize,
    },
    /// An argument is of another class than its parameter.
    ArgumentClass {
        succ: usize,
        passed: VReg,
        wanted: VReg,
    },
    /// The entry has parameters.
    EntryParams {
        count: usize,
    },
}

impl fmt::Display for ArgumentCause {
    fn fmt<W: fmt::Write>(&self, f: &mut fmt::Formatter<W>) -> fmt::Result {
        match *self {
            ArgumentCause::ArgumentCount {
                succ,
                passed,
                wanted,
            } => {
                let passed = Counted(passed, "argument");
                let wanted = Counted(wanted, "parameter");
                write!(f, "{passed} for block{succ}, which has {wanted}")
            }
            ArgumentCause::ArgumentClass {
                succ,
                passed,
                wanted,
            } => {
                let passed = VRegText(passed);
                let wanted = VRegText(wanted);
                write!(
                    f,
                    "the argument {passed} for the parameter {wanted} of block{succ} is of another class"
                )
            }
            ArgumentCause::EntryParams { count } => {
                let params = Counted(count, "parameter");
                write!(f, "the entry has {params}, which nothing passes")
            }
        }
    }
}

/// Why a vreg's definitions and uses don't agree.
#[derive(Clone, Copy)]
pub enum VRegCause {
    /// A vreg has two definitions.
    DefinedTwice { vreg: VReg },
    /// A vreg's number is not below the function's count.
    PastCount { vreg: VReg, count: u64 },
    /// A vreg is read, and no instruction or parameter defines it.
    Undefined { vreg: VReg },
    /// A vreg is read with another class than that of its definition.
    OtherClass { vreg: VReg, defined: VReg },
    /// A vreg is read no later than it is defined.
    UsedEarly { vreg: VReg },
}

impl fmt::Display for VRegCause {
    fn fmt<W: fmt::Write>(&self, f: &mut fmt::Formatter<W>) -> fmt::Result {
        match *self {
            VRegCause::DefinedTwice { vreg } => write!(f, "{} is defined twice", VRegText(vreg)),
            VRegCause::PastCount { vreg, count } => {
                let vreg = VRegText(vreg);
                write!(
                    f,
                    "{vreg} is defined, and only numbers below {count} may be"
                )
            }
            VRegCause::Undefined { vreg } => {
                write!(f, "{} is used, and nothing defines it", VRegText(vreg))
            }
            VRegCause::OtherClass { vreg, defined } => {
                let vreg = VRegText(vreg);
                let defined = VRegText(defined);
                write!(f, "{vreg} is used, and its number is defined as {defined}")
            }
            VRegCause::UsedEarly { vreg } => {
                write!(f, "{} is used before its definition", VRegText(vreg))
            }
        }
    }
}

/// Why a reuse constraint is invalid.
#[derive(Clone, Copy)]
pub enum ReuseCause {
    /// A reuse isn't a late definition.
    ReuseIsNoDef {
        inst: usize,
    },
    /// A reuse names no operand.
    ReusesNothing {
        inst: usize,
        index: usize,
        operands: usize,
    },
    /// A reuse names an operand that it can't take the place of.
    ReusesOther {
        inst: usize,
        index: usize,
    },
    /// Two reuses name one operand.
    ReusedTwice {
        inst: usize,
        index: usize,
    },
}

impl fmt::Display for ReuseCause {
    fn fmt<W: fmt::Write>(&self, f: &mut fmt::Formatter<W>) -> fmt::Result {
        match *self {
            ReuseCause::ReuseIsNoDef { inst } => {
                write!(f, "a reuse of inst{inst} is no definition at its end")
            }
            ReuseCause::ReusesNothing {
                inst,
                index,
                operands,
            } => {
                let are = if operands == 1 { "is" } else { "are" };
                let operands = Counted(operands, "operand");
                write!(
                    f,
                    "a reuse of inst{inst} names operand {index}, counted from 0, and there {are} {operands}"
                )
            }
            ReuseCause::ReusesOther { inst, index } => write!(
                f,
                "operand {index} of inst{inst}, counted from 0, is reused and is no early use of the class in a register that may be allocated"
            ),
            ReuseCause::ReusedTwice { inst, index } => write!(
                f,
                "two definitions of inst{inst} reuse operand {index}, counted from 0"
            ),
        }
    }
}

/// Why an operand's constraint can't be met.
#[derive(Clone, Copy)]
pub enum ConstraintCause {
    /// An operand is fixed to a register that the machine lacks.
    NoSuchRegister { inst: usize, register: PReg },
    /// Two operands that occupy registers at the same time are fixed to one register.
    FixedTwice { inst: usize, register: PReg },
    /// An operand is fixed to a register that its instruction overwrites.
    FixedClobbered { inst: usize, register: PReg },
    /// An operand has a limit constraint.
    Limited { inst: usize },
    /// A branch defines in any register, or by a reuse.
    BranchDefines { inst: usize },
}

impl fmt::Display for ConstraintCause {
    fn fmt<W: fmt::Write>(&self, f: &mut fmt::Formatter<W>) -> fmt::Result {
        match *self {
            ConstraintCause::NoSuchRegister { inst, register } => write!(
                f,
                "an operand of inst{inst} is fixed to {register}, which the machine doesn't allocate"
            ),
            ConstraintCause::FixedTwice { inst, register } => write!(
                f,
                "two operands of inst{inst} are fixed to {register} at one time"
            ),
            ConstraintCause::FixedClobbered { inst, register } => write!(
                f,
                "an operand of inst{inst} is fixed to {register}, which the instruction clobbers"
            ),
            ConstraintCause::Limited { inst } => write!(
                f,
                "an operand of inst{inst} is under a limit, which the allocator doesn't support"
            ),
            ConstraintCause::BranchDefines { inst } => write!(
                f,
                "inst{inst} branches and defines in any register or by a reuse: only fixed registers and the stack are possible there"
            ),
        }
    }
}

/// What there is too little or too much of.
#[derive(Clone, Copy)]
pub enum CountCause {
    /// An instruction needs more registers of a class than the machine has.
    Registers {
        inst: usize,
        class: RegClass,
        needed: usize,
        available: usize,
    },
    /// The operands are 2^32 or more.
    ManyOperands,
    /// The slots would take more units than slot numbers can count.
    ManySlots {
        vregs: u64,
    },
}

impl fmt::Display for CountCause {
    fn fmt<W: fmt::Write>(&self, f: &mut fmt::Formatter<W>) -> fmt::Result {
        match *self {
            CountCause::Registers {
                inst,
                class,
                needed,
                available,
            } => {
                let needed = Counted(needed, "register");
                let class = ClassName(class);
                write!(
                    f,
                    "inst{inst} needs {needed} of the class {class}, and the machine has {available}"
                )
            }
            CountCause::ManyOperands => write!(f, "the function has 4294967296 operands or more"),
            CountCause::ManySlots { vregs } => write!(
                f,
                "the slots of {vregs} virtual registers would take more than 16777216 units"
            ),
        }
    }
}
