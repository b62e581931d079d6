//! Operations on 64-bit integers in virtual registers.

use regalloc2_names::VReg;

/// An operator on two numbers, modulo 2^64 or 2^32.
#[derive(Clone, Copy)]
pub enum Operator {
    /// The sum of the numbers.
    Add,
    /// The difference of the numbers.
    Sub,
    /// The product of the numbers.
    Mul,
    /// The bits set in both.
    And,
    /// The bits set in at least one.
    Or,
    /// The bits set in exactly one.
    Xor,
}

/// A kind of shift.
#[derive(Clone, Copy)]
pub enum ShiftOperator {
    /// To higher bits, modulo 2^64 or 2^32.
    Left,
    /// To lower bits; zeros come in.
    Right,
    /// To lower bits; copies of the highest bit come in.
    SignedRight,
}

/// How many bits of its numbers an operation reads.
#[derive(Clone, Copy)]
pub enum Width {
    /// All 64.
    Full,
    /// The lower 32. The result is below 2^32.
    Half,
}

/// How many bytes of memory an operation reads or writes.
#[derive(Clone, Copy)]
pub enum Bytes {
    /// One.
    One,
    /// Two.
    Two,
    /// Four.
    Four,
    /// Eight.
    Eight,
}

/// The result of a division.
#[derive(Clone, Copy)]
pub enum DivisionPart {
    /// The quotient, rounded towards 0.
    Quotient,
    /// The remainder, which has the dividend's sign.
    Remainder,
}

/// A comparison of a number with another.
///
/// The signed conditions read the numbers in two's complement.
#[derive(Clone, Copy)]
pub enum Condition {
    /// Equal.
    Equal,
    /// Not equal.
    NotEqual,
    /// Less, unsigned.
    Less,
    /// Less or equal, unsigned.
    LessOrEqual,
    /// Greater, unsigned.
    Greater,
    /// Greater or equal, unsigned.
    GreaterOrEqual,
    /// Less, signed.
    SignedLess,
    /// Less or equal, signed.
    SignedLessOrEqual,
    /// Greater, signed.
    SignedGreater,
    /// Greater or equal, signed.
    SignedGreaterOrEqual,
}

/// The second number of an operation.
#[derive(Clone, Copy)]
pub enum Right {
    /// The number of a virtual register.
    VReg(VReg),
    /// A constant below 2^31: an instruction of x86-64 sign-extends greater ones.
    Number(u32),
}

/// A shift count, modulo the width.
#[derive(Clone, Copy)]
pub enum Count {
    /// The number of a vreg.
    VReg(VReg),
    /// A constant.
    Number(u8),
}

/// The operation of a line.
#[derive(Drop)]
pub enum Operation {
    /// Reads an argument of the function.
    Argument {
        /// The vreg it defines.
        to: VReg,
        /// The argument's number.
        index: u32,
    },
    /// A constant.
    Constant {
        /// The vreg it defines.
        to: VReg,
        /// The number.
        value: u64,
    },
    /// A copy.
    Copy {
        /// The vreg it defines.
        to: VReg,
        /// The vreg it copies.
        from: VReg,
    },
    /// An operator: a sum, difference, product, or bitwise operation.
    Compute {
        /// How many bits of the numbers it reads.
        width: Width,
        /// The operator.
        operator: Operator,
        /// The vreg it defines.
        to: VReg,
        /// The first number.
        left: VReg,
        /// The second number.
        right: Right,
    },
    /// A shift.
    Shift {
        /// How many bits of the numbers it reads.
        width: Width,
        /// The kind of shift.
        operator: ShiftOperator,
        /// The vreg it defines.
        to: VReg,
        /// The number.
        left: VReg,
        /// The count.
        count: Count,
    },
    /// A quotient or remainder. It traps if the divisor is 0, and if it is signed and divides the
    /// least number by -1.
    Divide {
        /// How many bits of the numbers it reads.
        width: Width,
        /// The result: quotient or remainder.
        part: DivisionPart,
        /// Whether the division is signed.
        is_signed: bool,
        /// The vreg it defines.
        to: VReg,
        /// The dividend.
        left: VReg,
        /// The divisor.
        right: VReg,
    },
    /// 1 if a condition holds, else 0.
    Compare {
        /// How many bits of the numbers it reads.
        width: Width,
        /// The condition.
        condition: Condition,
        /// The vreg it defines.
        to: VReg,
        /// The first number.
        left: VReg,
        /// The second number.
        right: Right,
    },
    /// A selection of one of two numbers.
    Select {
        /// The vreg it defines.
        to: VReg,
        /// The deciding number.
        condition: VReg,
        /// The result if the deciding number isn't 0.
        yes: VReg,
        /// The result if it is 0.
        no: VReg,
    },
    /// Reads a number from memory; its upper bits are 0. It traps if a byte of it lies outside
    /// memory.
    Load {
        /// How many bytes it reads, the lowest first.
        bytes: Bytes,
        /// The vreg it defines.
        to: VReg,
        /// The address of the first byte.
        address: VReg,
    },
    /// Writes the lower bytes of a number to memory. It traps, and writes none, if one of them lies
    /// outside memory.
    Store {
        /// How many bytes it writes, the lowest first.
        bytes: Bytes,
        /// The address of the first byte.
        address: VReg,
        /// The number.
        value: VReg,
    },
    /// Calls a function of the module, and waits for the number that it returns.
    Call {
        /// The function's number.
        function: usize,
        /// The vreg it defines.
        to: VReg,
        /// The arguments: six in registers, the others on the stack.
        arguments: Vec<VReg>,
    },
    /// Jumps to the only successor of its block.
    Jump,
    /// Jumps to the first successor if a number isn't 0, else to the second.
    BranchIf {
        /// The number.
        value: VReg,
    },
    /// Jumps to the first successor if a condition holds, else to the second.
    BranchIfHolds {
        /// How many bits of the numbers it reads.
        width: Width,
        /// The condition.
        condition: Condition,
        /// The first number.
        left: VReg,
        /// The second number.
        right: Right,
    },
    /// Returns a number.
    Return {
        /// The number.
        value: VReg,
    },
}
