//! The texts of names.

ghost use Rattle.std.specs.Prelude.{Some, ◌≡◌};
ghost use Rattle.regalloc2_names.specs.Register.{registers_of};
ghost use Rattle.regalloc2_names.specs.Text.{class_letter, class_name, constraint_text, kind_text, operand_text, place_text, point_debug_text};
ghost use Rattle.regalloc2_names.specs.Text.{class_vreg_text, register_debug_text, register_text, set_text, slot_text, vreg_debug_text, vreg_text};

use super::{
    Allocation, InstPosition, Operand, OperandConstraint, OperandKind, OperandPos, PReg, PRegSet,
    ProgPoint, RegClass, SpillSlot, VReg,
};
use std::fmt;

impl RegClass {
    /// Returns the letter of the class, written after a number.
    fn letter(self) -> &'static str
        ensures { result.now ≡ class_letter self }
    {
        match self {
            RegClass::Int => "i",
            RegClass::Float => "f",
            RegClass::Vector => "v",
        }
    }

    /// Returns the name of the class, as `Int`.
    ///
    /// Upstream: the text of `Debug`.
    pub fn name(self) -> &'static str
        ensures { result.now ≡ class_name self }
    {
        match self {
            RegClass::Int => "Int",
            RegClass::Float => "Float",
            RegClass::Vector => "Vector",
        }
    }
}

impl Operand {
    /// Returns `Def` or `Use`, followed by the position if it isn't the usual one: `Def@Early` or `Use@Late`.
    ///
    /// Upstream: none.
    pub fn kind_name(self) -> &'static str
        ensures { result.now ≡ kind_text self.kind self.position }
    {
        match (self.kind(), self.pos()) {
            (OperandKind::Def, OperandPos::Late) => "Def",
            (OperandKind::Def, OperandPos::Early) => "Def@Early",
            (OperandKind::Use, OperandPos::Early) => "Use",
            (OperandKind::Use, OperandPos::Late) => "Use@Late",
        }
    }
}

/// Writes the number and the letter of the class, as `p3i`.
impl fmt::Display for PReg {
    ghost output = { λ r. Some (register_text r) };

    fn fmt<W: fmt::Write>(&self, f: &mut fmt::Formatter<W>) -> fmt::Result {
        let number = self.hw_enc();
        let class = self.class().letter();
        write!(f, "p{number}{class}")
    }
}

/// Writes the number, as `v7`.
impl fmt::Display for VReg {
    ghost output = { λ v. Some (vreg_text v) };

    fn fmt<W: fmt::Write>(&self, f: &mut fmt::Formatter<W>) -> fmt::Result {
        let number = self.vreg();
        write!(f, "v{number}")
    }
}

/// The text of a vreg with the letter of its class, as `v7i`.
#[derive(Clone, Copy)]
pub struct VRegText(pub VReg);

impl fmt::Display for VRegText {
    ghost output = { λ t. Some (class_vreg_text t.0) };

    fn fmt<W: fmt::Write>(&self, f: &mut fmt::Formatter<W>) -> fmt::Result {
        let vreg = self.0;
        let class = vreg.class().letter();
        write!(f, "{vreg}{class}")
    }
}

/// Writes the number, as `stack5`.
impl fmt::Display for SpillSlot {
    ghost output = { λ s. Some (slot_text s) };

    fn fmt<W: fmt::Write>(&self, f: &mut fmt::Formatter<W>) -> fmt::Result {
        let number = self.index();
        write!(f, "stack{number}")
    }
}

/// Writes `none`, or the register or the slot.
impl fmt::Display for Allocation {
    ghost output = { λ a. Some (place_text a) };

    fn fmt<W: fmt::Write>(&self, f: &mut fmt::Formatter<W>) -> fmt::Result {
        if let Some(preg) = self.as_reg() {
            return write!(f, "{preg}");
        }
        match self.as_stack() {
            Some(slot) => write!(f, "{slot}"),
            None => write!(f, "none"),
        }
    }
}

/// Writes the constraint, as `any`, `fixed(p3i)`, `reuse(2)` or `limit(0..=7)`.
impl fmt::Display for OperandConstraint {
    ghost output = { λ c. Some (constraint_text c) };

    fn fmt<W: fmt::Write>(&self, f: &mut fmt::Formatter<W>) -> fmt::Result {
        match *self {
            OperandConstraint::Any => write!(f, "any"),
            OperandConstraint::Reg => write!(f, "reg"),
            OperandConstraint::Stack => write!(f, "stack"),
            OperandConstraint::FixedReg(preg) => write!(f, "fixed({preg})"),
            OperandConstraint::Reuse(index) => write!(f, "reuse({index})"),
            OperandConstraint::Limit(0) => write!(f, "limit(none)"),
            OperandConstraint::Limit(max) => {
                let last = max - 1;
                write!(f, "limit(0..={last})")
            }
        }
    }
}

/// Writes the operand, as `Use: v0i reg`, or as `Fixed: p63i` if it names no vreg.
impl fmt::Display for Operand {
    ghost output = { λ o. Some (operand_text o) };

    fn fmt<W: fmt::Write>(&self, f: &mut fmt::Formatter<W>) -> fmt::Result {
        if let Some(preg) = self.as_fixed_nonallocatable() {
            return write!(f, "Fixed: {preg}");
        }
        let kind = self.kind_name();
        let vreg = self.vreg();
        let class = self.class().letter();
        let constraint = self.constraint();
        write!(f, "{kind}: {vreg}{class} {constraint}")
    }
}

/// Writes the registers by rising index, as `{p0i, p3i, }`.
impl fmt::Display for PRegSet {
    ghost output = { λ s. Some (set_text (registers_of s)) };

    fn fmt<W: fmt::Write>(&self, f: &mut fmt::Formatter<W>) -> fmt::Result {
        write!(f, "{{")?;
        for preg in *self {
            write!(f, "{preg}, ")?;
        }
        write!(f, "}}")
    }
}

/// Writes the parts and the index, as `PReg(hw = 3, class = Int, index = 3)`.
impl fmt::Debug for PReg {
    ghost debug_output = { λ r. Some (register_debug_text r) };

    fn fmt<W: fmt::Write>(&self, f: &mut fmt::Formatter<W>) -> fmt::Result {
        let number = self.hw_enc();
        let class = self.class().name();
        let index = self.index();
        write!(f, "PReg(hw = {number}, class = {class}, index = {index})")
    }
}

/// Writes the parts, as `VReg(vreg = 7, class = Int)`.
impl fmt::Debug for VReg {
    ghost debug_output = { λ v. Some (vreg_debug_text v) };

    fn fmt<W: fmt::Write>(&self, f: &mut fmt::Formatter<W>) -> fmt::Result {
        let number = self.vreg();
        let class = self.class().name();
        write!(f, "VReg(vreg = {number}, class = {class})")
    }
}

/// Writes the text of `Display`.
impl fmt::Debug for Allocation {
    ghost debug_output = { λ a. Some (place_text a) };

    fn fmt<W: fmt::Write>(&self, f: &mut fmt::Formatter<W>) -> fmt::Result {
        fmt::Display::fmt(self, f)
    }
}

/// Writes the text of `Display`.
impl fmt::Debug for Operand {
    ghost debug_output = { λ o. Some (operand_text o) };

    fn fmt<W: fmt::Write>(&self, f: &mut fmt::Formatter<W>) -> fmt::Result {
        fmt::Display::fmt(self, f)
    }
}

/// Writes the instruction and the position, as `progpoint3-pre` or `progpoint3-post`.
impl fmt::Debug for ProgPoint {
    ghost debug_output = { λ p. Some (point_debug_text p) };

    fn fmt<W: fmt::Write>(&self, f: &mut fmt::Formatter<W>) -> fmt::Result {
        let inst = self.inst().index();
        let ending = match self.pos() {
            InstPosition::Before => "-pre",
            InstPosition::After => "-post",
        };
        write!(f, "progpoint{inst}{ending}")
    }
}
