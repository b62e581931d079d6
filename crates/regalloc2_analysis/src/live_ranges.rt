//! From where to where the value of each vreg can be shown to a debugger, and which operand's place
//! shows it.
//!
//! [`live_ranges`] returns these for each requested vreg, [`kept_labels`] for each label that a
//! client put on a vreg. Nothing here depends on the allocator: its walk selects the places, and
//! these calls return the operands whose places are needed. Upstream keeps the same points in
//! `vreg_to_live_inst_range` while it allocates.

use regalloc2_index::Inst;
use regalloc2_names::{ProgPoint, VReg};

mod ends;
mod entries;
mod labels;
mod ranges;
mod walk;
mod wanted;

pub use labels::{kept_labels, kept_labels_by};
pub use walk::live_ranges;
pub use wanted::{is_wanted, marked_labels};

/// An operand of the function: its instruction, and its index among the instruction's operands.
#[derive(Clone, Copy)]
pub struct InstOperand {
    /// The instruction.
    pub inst: Inst,
    /// The index among the instruction's operands, from 0.
    pub index: usize,
}

/// From where to where the value of a vreg can be shown.
#[derive(Clone, Copy)]
pub struct LiveRange {
    /// The vreg.
    pub vreg: VReg,
    /// The point after its definition, or before the block of which it is a parameter.
    pub first: ProgPoint,
    /// The point at which the vreg's last use ends: before the next instruction for a late use, after
    /// the instruction for an early use, before the instruction for an argument that it passes. If
    /// nothing uses the vreg, except that the branch that defines it passes it, the point before the
    /// instruction that follows its definition.
    pub last: ProgPoint,
    /// The operand whose place shows the value up to the last point: in the instruction of the last
    /// use, the first operand that reads the vreg late, or else the first that reads it early. `None`
    /// if that instruction passes the vreg as an argument and doesn't read it. If nothing uses the
    /// vreg, the operand that defines it.
    pub by: Option<InstOperand>,
}

/// A label that is kept, with the live range of its vreg.
#[derive(Clone, Copy)]
pub struct KeptLabel {
    /// The client's label.
    pub label: u32,
    /// From where to where its vreg's value can be shown.
    pub range: LiveRange,
}
