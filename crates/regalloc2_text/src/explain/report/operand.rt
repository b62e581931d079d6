//! The text of an operand in reports.

use crate::named::operand_of;
use crate::spell::write_bits;
use std::fmt;

/// An operand's encoding, as `Operand` writes it: `Use: v0i reg`, or `Fixed: p3i` without a vreg.
#[derive(Clone, Copy)]
pub(crate) struct ReportedOperand(pub u64);

impl fmt::Display for ReportedOperand {
    fn fmt<W: fmt::Write>(&self, f: &mut fmt::Formatter<W>) -> fmt::Result {
        match operand_of(self.0) {
            Some(operand) => write!(f, "{operand}"),
            None => write_bits(self.0, f),
        }
    }
}
