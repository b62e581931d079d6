//! The texts of program points and of single stored numbers: the text of the name if the number is one's, else
//! `bits(N)`.

ghost use Rattle.std.specs.Prelude.{Some};
ghost use Rattle.regalloc2_text.specs.Point.{point_text};

use crate::named::{operand_of, place_of, point_of, register_of, vreg_of};
use regalloc2_names::{InstPosition, Operand, OperandKind, OperandPos, PReg, ProgPoint, VRegText};
use std::fmt;

/// Writes `bits`, which encode nothing.
pub(crate) fn write_bits<W: fmt::Write>(bits: u64, f: &mut fmt::Formatter<W>) -> fmt::Result {
    write!(f, "bits({bits})")
}

/// A register's index, as `p3i`.
#[derive(Clone, Copy)]
pub(crate) struct StoredRegister(pub u8);

impl fmt::Display for StoredRegister {
    fn fmt<W: fmt::Write>(&self, f: &mut fmt::Formatter<W>) -> fmt::Result {
        match register_of(self.0) {
            Some(register) => write!(f, "{register}"),
            None => write_bits(u64::from(self.0), f),
        }
    }
}

/// A vreg's encoding, with the letter of the class: `v7i`.
#[derive(Clone, Copy)]
pub(crate) struct StoredVReg(pub u32);

impl fmt::Display for StoredVReg {
    fn fmt<W: fmt::Write>(&self, f: &mut fmt::Formatter<W>) -> fmt::Result {
        match vreg_of(self.0) {
            Some(vreg) => write!(f, "{}", VRegText(vreg)),
            None => write_bits(u64::from(self.0), f),
        }
    }
}

impl StoredVReg {
    /// One more than the number that the text shows, or 0 if it shows none.
    pub(crate) fn vregs(self) -> u64 {
        match vreg_of(self.0) {
            Some(vreg) => vreg.vreg() as u64 + 1,
            None => 0,
        }
    }
}

/// An operand's encoding, as `Use: v0i reg`.
///
/// `Operand` writes `Fixed: p3i` for each operand of the greatest vreg number under a fixed
/// register. Here only the early use has this text; the other three operands are written with their
/// vreg, so that no two encodings have one text.
#[derive(Clone, Copy)]
pub(crate) struct StoredOperand(pub u64);

/// Returns whether `operand` is read at the beginning of its instruction.
pub(crate) fn is_early_use(operand: Operand) -> bool {
    operand.kind() == OperandKind::Use && operand.pos() == OperandPos::Early
}

/// Writes `operand`, which is fixed to `register`, with its vreg.
fn write_fixed<W: fmt::Write>(
    operand: Operand,
    register: PReg,
    f: &mut fmt::Formatter<W>,
) -> fmt::Result {
    let kind = operand.kind_name();
    let vreg = VRegText(operand.vreg());
    write!(f, "{kind}: {vreg} fixed({register})")
}

impl fmt::Display for StoredOperand {
    fn fmt<W: fmt::Write>(&self, f: &mut fmt::Formatter<W>) -> fmt::Result {
        let Some(operand) = operand_of(self.0) else {
            return write_bits(self.0, f);
        };
        match operand.as_fixed_nonallocatable() {
            Some(register) if !is_early_use(operand) => write_fixed(operand, register, f),
            _ => write!(f, "{operand}"),
        }
    }
}

impl StoredOperand {
    /// One more than the number of the vreg that the text shows, or 0 if it shows none.
    pub(crate) fn vregs(self) -> u64 {
        let Some(operand) = operand_of(self.0) else {
            return 0;
        };
        if operand.as_fixed_nonallocatable().is_some() && is_early_use(operand) {
            return 0;
        }
        operand.vreg().vreg() as u64 + 1
    }
}

/// A place's encoding, as `none`, `p3i` or `stack5`.
#[derive(Clone, Copy)]
pub(crate) struct StoredPlace(pub u32);

impl fmt::Display for StoredPlace {
    fn fmt<W: fmt::Write>(&self, f: &mut fmt::Formatter<W>) -> fmt::Result {
        match place_of(self.0) {
            Some(place) => write!(f, "{place}"),
            None => write_bits(u64::from(self.0), f),
        }
    }
}

/// A program point, as `inst3-pre` or `inst3-post`.
#[derive(Clone, Copy)]
pub struct PointText(pub ProgPoint);

impl fmt::Display for PointText {
    ghost output = { λ p. Some (point_text p.0) };

    fn fmt<W: fmt::Write>(&self, f: &mut fmt::Formatter<W>) -> fmt::Result {
        let inst = self.0.inst().index();
        match self.0.pos() {
            InstPosition::Before => write!(f, "inst{inst}-pre"),
            InstPosition::After => write!(f, "inst{inst}-post"),
        }
    }
}

/// A point's number, as `inst3-pre` or `inst3-post`.
#[derive(Clone, Copy)]
pub(crate) struct StoredPoint(pub u32);

impl fmt::Display for StoredPoint {
    fn fmt<W: fmt::Write>(&self, f: &mut fmt::Formatter<W>) -> fmt::Result {
        match point_of(self.0) {
            Some(point) => write!(f, "{}", PointText(point)),
            None => write_bits(u64::from(self.0), f),
        }
    }
}

/// A stored move: the number of its point, the place that is read, and the place that is written.
pub(crate) type StoredMove = (u32, u32, u32);

/// A move from the first place to the second, as `move p0i -> stack1`.
#[derive(Clone, Copy)]
pub(crate) struct MoveText(pub u32, pub u32);

impl fmt::Display for MoveText {
    fn fmt<W: fmt::Write>(&self, f: &mut fmt::Formatter<W>) -> fmt::Result {
        let (from, into) = (StoredPlace(self.0), StoredPlace(self.1));
        write!(f, "move {from} -> {into}")
    }
}

/// A block's number, as `block2`.
#[derive(Clone, Copy)]
pub(crate) struct BlockText(pub u32);

impl fmt::Display for BlockText {
    fn fmt<W: fmt::Write>(&self, f: &mut fmt::Formatter<W>) -> fmt::Result {
        write!(f, "block{}", self.0)
    }
}
