//! What an operand requires, as it is allocated.

use crate::positions::Positions;
use regalloc2_names::{PReg, VReg};

/// What an operand requires of its place, once a reuse was replaced by the operand that it names.
#[derive(Clone, Copy)]
pub enum Requirement {
    /// Any place.
    AnyPlace,
    /// A register that is no fixed stack slot.
    AnyReg,
    /// A stack place.
    OnStack,
    /// The register or fixed stack slot itself.
    InPReg(PReg),
}

/// An operand that is to be allocated.
#[derive(Clone, Copy)]
pub struct OperandRequest {
    /// The vreg that it names.
    pub vreg: VReg,
    /// What it requires of its place.
    pub requirement: Requirement,
    /// When it holds its register.
    pub positions: Positions,
    /// Whether it defines; else it uses.
    pub is_def: bool,
}
