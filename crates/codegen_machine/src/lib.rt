//! The two languages of a code generator: a small intermediate representation, its input, and a
//! machine, its target.
//!
//! The intermediate representation has functions over 64-bit integers, in blocks with parameters,
//! and modules of them. Its lines are of `codegen_operation`. `specs/Meaning.antt` interprets
//! a function, step by step, and `specs/Frames.antt` a module.
//!
//! The machine has sixteen registers and a frame of slots, and two-address instructions. Registers
//! are numbered as in x86-64. Two of them hold no numbers: 4 (`rsp`) addresses the frame, and 15
//! (`r15`) memory. `specs/Machine.antt` defines each instruction, step by step, and
//! `specs/Calls.antt` calls and returns.
#![tactic(auto)]

use codegen_operation::{Bytes, Condition, Operator, ShiftOperator, Width};

mod module;
mod procedure;

pub use module::{Module, NamedProcedure, Refusal};
pub use procedure::{Malformed, Part, Procedure};

/// The register number used where no register can be named. The machine has no such register, and
/// is stuck at it.
pub const NO_REGISTER: usize = 16;

/// The source of a number: a register or a slot of the frame, by its number, or an immediate.
#[derive(Clone, Copy)]
pub enum Source {
    /// A register.
    Register(usize),
    /// A slot.
    Slot(usize),
    /// An immediate. The processor accepts it where an instruction computes with a register or
    /// compares it, and below 2^31.
    Number(u32),
}

/// An instruction. Registers and slots are given by number; a target is the number of an
/// instruction.
#[derive(Clone, Copy)]
pub enum Instruction {
    /// Puts a number into a register.
    Constant {
        /// The register.
        to: usize,
        /// The number.
        value: u64,
    },
    /// Puts 0 into a register, and clobbers the flags (the numbers last compared).
    Clear {
        /// The register.
        to: usize,
    },
    /// Puts an argument into a register.
    Argument {
        /// The register.
        to: usize,
        /// The argument's number.
        index: u32,
    },
    /// Copies a register.
    Move {
        /// The destination register.
        to: usize,
        /// The source register.
        from: usize,
    },
    /// Copies a slot into a register.
    Load {
        /// The register.
        to: usize,
        /// The slot.
        slot: usize,
    },
    /// Copies a register into a slot.
    Store {
        /// The slot.
        slot: usize,
        /// The register.
        from: usize,
    },
    /// Computes with a register, and puts the result into it; clobbers the flags.
    Compute {
        /// How many bits of the numbers it reads.
        width: Width,
        /// The operator.
        operator: Operator,
        /// The register with the first number.
        to: usize,
        /// The second number.
        from: Source,
    },
    /// Shifts a register by the number in register 1; clobbers the flags.
    Shift {
        /// How many bits of the numbers it reads.
        width: Width,
        /// The kind of shift.
        operator: ShiftOperator,
        /// The register.
        to: usize,
    },
    /// Shifts a register by a constant; clobbers the flags.
    ShiftBy {
        /// How many bits of the numbers it reads.
        width: Width,
        /// The kind of shift.
        operator: ShiftOperator,
        /// The register.
        to: usize,
        /// The count, modulo the width.
        count: u8,
    },
    /// Extends register 0 into register 2: with zeros, or with copies of its highest bit.
    ExtendSign {
        /// How many bits of register 0 it reads.
        width: Width,
    },
    /// Divides the number with register 2 as its upper and register 0 as its lower half: puts the
    /// quotient into register 0 and the remainder into register 2, and clobbers the flags. It traps
    /// if the divisor is 0 or the quotient doesn't fit the width.
    Divide {
        /// How many bits of the numbers it reads.
        width: Width,
        /// Whether the division is signed.
        is_signed: bool,
        /// The divisor.
        from: Source,
    },
    /// Compares two numbers.
    Compare {
        /// How many bits of the numbers it reads.
        width: Width,
        /// The register with the first number.
        left: usize,
        /// The second number.
        right: Source,
    },
    /// Puts 1 into a register if the numbers last compared meet a condition, else 0.
    Set {
        /// The register.
        to: usize,
        /// The condition.
        condition: Condition,
    },
    /// Puts a number into a register if the numbers last compared meet a condition.
    MoveIf {
        /// The condition.
        condition: Condition,
        /// The register.
        to: usize,
        /// The number.
        from: Source,
    },
    /// Compares a number to 0.
    Test {
        /// The number.
        from: Source,
    },
    /// Traps unless the number in a register is below a limit; clobbers the flags.
    Guard {
        /// The register.
        address: usize,
        /// The limit.
        limit: usize,
    },
    /// Reads a number from memory into a register. The machine is stuck if a byte of it lies outside
    /// memory.
    Read {
        /// How many bytes it reads, the lowest first.
        bytes: Bytes,
        /// The register.
        to: usize,
        /// The register with the address of the first byte.
        address: usize,
    },
    /// Writes the lower bytes of a register to memory. The machine is stuck if one of them lies
    /// outside memory.
    Write {
        /// How many bytes it writes, the lowest first.
        bytes: Bytes,
        /// The register with the address of the first byte.
        address: usize,
        /// The register.
        from: usize,
    },
    /// Jumps to an instruction.
    Jump {
        /// The number of the instruction.
        target: usize,
    },
    /// Jumps to an instruction if the numbers last compared meet a condition.
    JumpIf {
        /// The condition.
        condition: Condition,
        /// The instruction's number.
        target: usize,
    },
    /// Calls a function of the module: it begins with a frame of its own, and the caller-saved
    /// registers hold other numbers when it has returned. Registers 7, 6, 2, 1, 8 and 9 pass its
    /// first six arguments, and outgoing words the others. The stack may overflow.
    Call {
        /// The function's number.
        function: usize,
    },
    /// Puts a register into an outgoing word of the frame: an argument past the sixth, for a call.
    Pass {
        /// The outgoing word.
        index: usize,
        /// The register.
        from: usize,
    },
    /// Returns the number in register 0.
    Return,
}

/// A function's code, its name, and the number of its arguments.
#[derive(Drop)]
pub struct NamedCode {
    /// The name.
    pub name: String,
    /// How many arguments a call passes to it.
    pub arity: usize,
    /// The code.
    pub code: Code,
}

/// The code of a module: its functions by number. A run starts at function 0.
#[derive(Drop)]
pub struct ModuleCode {
    /// The functions.
    pub functions: Vec<NamedCode>,
}

/// Code: its instructions by number. It starts at instruction 0.
#[derive(Drop)]
pub struct Code {
    /// The instructions.
    pub instructions: Vec<Instruction>,
    /// The number of slots in the frame.
    pub slots: usize,
    /// The number of the frame's outgoing words: the most arguments past the sixth that a call of
    /// the function passes.
    pub outgoing: usize,
}
