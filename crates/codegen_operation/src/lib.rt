//! The operations of a code generator's intermediate representation, and what each requires of the
//! allocator: its operands and clobbers.
//!
//! `specs/Numbers.antt` defines their arithmetic, `specs/Operands.antt` the operands and clobbers.
#![tactic(auto)]

mod line;
mod operation;

pub use line::Line;
pub use operation::{
    Bytes, Condition, Count, DivisionPart, Operation, Operator, Right, ShiftOperator, Width,
};
