//! The names that an allocator and its clients exchange: registers, virtual registers (vregs),
//! spill slots, operands, places and program points, each packed into one word, with sets of
//! registers and the errors.
//!
//! The words are private. A contract sees a name as the value that it encodes: a `Register` or a
//! `VirtualRegister` is a number with a class, a `Place` one of three forms, an `OperandValue` a
//! record of its parts, and a point its number in the order of points.
#![tactic(auto, using(crate::specs::Packing::packing))]

use regalloc2_index::{Block, Inst};

mod error_kinds;
mod errors;
mod operands;
mod places;
mod points;
mod registers;
mod sets;
mod texts;
mod unions;
mod virtual_registers;

pub use operands::Operand;
pub use places::{Allocation, SpillSlot};
pub use points::ProgPoint;
pub use registers::{CLASSES, PReg};
pub use sets::{PRegSet, PRegSetIter};
pub use texts::VRegText;
pub use unions::OperandUnion;
pub use virtual_registers::VReg;

/// The class of a value and of the registers that may hold it. Classes have separate register
/// files.
#[derive(Clone, Copy, Debug, PartialEq, Eq, PartialOrd, Ord, Hash)]
pub enum RegClass {
    Int = 0,
    Float = 1,
    Vector = 2,
}

/// What an operand requires of its place.
#[derive(Clone, Copy, Debug, PartialEq, Eq)]
pub enum OperandConstraint {
    /// Any register or stack place.
    Any,

    /// A register.
    Reg,

    /// A place on the stack.
    Stack,

    /// The named register.
    FixedReg(PReg),

    /// The place of another operand of the instruction, a use, by its index.
    Reuse(usize),

    /// A register whose hardware number is below the bound, a power of two.
    Limit(usize),
}

/// What an instruction does with an operand.
#[derive(Clone, Copy, Debug, PartialEq, Eq)]
pub enum OperandKind {
    /// Writes the vreg.
    Def = 0,

    /// Reads the vreg.
    Use = 1,
}

/// The half of an instruction in which it reads or writes an operand.
#[derive(Clone, Copy, Debug, PartialEq, Eq)]
pub enum OperandPos {
    /// At its beginning.
    Early = 0,

    /// At its end.
    Late = 1,
}

/// The form of a place.
#[derive(Clone, Copy, Debug, PartialEq, Eq, PartialOrd, Ord, Hash)]
pub enum AllocationKind {
    None = 0,
    Reg = 1,
    Stack = 2,
}

/// The position of a program point: before or after its instruction.
#[derive(Clone, Copy, Debug, PartialEq, Eq, PartialOrd, Ord, Hash)]
pub enum InstPosition {
    Before = 0,
    After = 1,
}

/// Why a function is rejected, or why its allocation fails.
///
/// `kind` returns the reason alone, with a number and a text.
#[derive(Clone, Copy, Debug, PartialEq, Eq)]
pub enum RegAllocError {
    /// The edge from the first block to the second is critical: the first has several successors,
    /// and the second several incoming edges (the function's start counts as one).
    CritEdge(Block, Block),

    /// The vreg is defined twice or too late, or read before it is defined, at the instruction.
    SSA(VReg, Inst),

    /// The block is out of range, the entry but not block 0, or wrong in its range, its terminators
    /// or its predecessors.
    BB(Block),

    /// The branch passes a successor arguments that don't fit its parameters.
    Branch(Inst),

    /// The entry block has parameters.
    EntryLivein,

    /// The branch has operands, and leads to a block with several incoming edges.
    DisallowedBranchArg(Inst),

    /// An instruction needs more registers than there are.
    TooManyLiveRegs,

    /// The function has 2^32 operands or more.
    TooManyOperands,

    /// The instruction has an operand of an unsupported form.
    Unsupported(Inst),

    /// A spill slot would have a number past `SpillSlot::MAX`.
    TooManySpillSlots,

    /// A memory allocation failed.
    Memory,
}

/// The reason that a `RegAllocError` gives, without what it names. Its discriminants are public
/// numbers.
///
/// Upstream: none.
#[derive(Clone, Copy, Debug, PartialEq, Eq)]
pub enum RegAllocErrorKind {
    /// An edge is critical.
    CritEdge = 1,

    /// A vreg is defined twice, isn't below the count, or is used without an earlier definition.
    SSA = 2,

    /// A block doesn't exist, has a wrong range, predecessors or terminators, or is a wrong entry.
    BB = 3,

    /// A branch passes arguments that don't fit the parameters.
    Branch = 4,

    /// The entry has parameters.
    EntryLivein = 5,

    /// A branch with operands leads to a block with several incoming edges.
    DisallowedBranchArg = 6,

    /// An instruction needs more registers than there are.
    TooManyLiveRegs = 7,

    /// There are 2^32 operands or more.
    TooManyOperands = 8,

    /// An operand isn't supported.
    Unsupported = 9,

    /// Spill slots would take more than 2^24 units.
    TooManySpillSlots = 10,

    /// A memory allocation failed.
    Memory = 11,
}
