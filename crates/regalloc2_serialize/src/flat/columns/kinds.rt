//! An instruction's word: its opcode, plus [`SET_STEP`] times the number of its set of clobbers.

/// The step from one set of clobbers to the next in an instruction's word; each opcode is below it.
pub const SET_STEP: u32 = 4;

/// The opcode of a return.
pub const RET: u32 = 1;

/// The opcode of a branch.
pub const BRANCH: u32 = 2;

/// The number of opcodes: the opcode 0 is that of all other instructions.
pub const OPCODES: u32 = 3;
