//! Names: their encodings, their texts, and their order.

use crate::units::report::Report;
use regalloc2_index::{Block, Inst};
use regalloc2_names::{
    Allocation, Operand, OperandConstraint, OperandKind, OperandPos, PReg, ProgPoint,
    RegAllocError, RegClass, SpillSlot, VReg,
};
use std::alloc::{AllocError, AllocFailed};

/// Writes what encodings name, and how names print and are ordered.
pub fn write_all(out: &mut Report) {
    write_places(out);
    write_registers(out);
    write_operands(out);
    write_points(out);
    write_texts(out);
    write_orders(out)
}

/// Writes what encodings of places name: of each kind, an index past the last register, and all
/// bits.
fn write_places(out: &mut Report) {
    for word in [0, 536870912, 536871045, 536871104, 1073741833, 4294967295] {
        if !Allocation::is_bits(word) {
            out.row("no place", &word);
            continue;
        }
        let p = Allocation::from_bits(word);
        let slot = p.as_stack().map(|slot| slot.index());
        let is = (p.is_none(), p.is_some(), p.is_reg(), p.is_stack());
        let row = (p, p.kind(), p.index(), p.as_reg(), slot, p.bits(), is);
        out.row("place", &row);
    }
    let five = SpillSlot::new(5);
    for s in [five, five.plus(2), SpillSlot::invalid()] {
        out.row("slot", &(s.index(), s.is_valid(), s.is_invalid()));
    }
}

/// Writes the registers that numbers name, with the number for no register and the index past all, and
/// the vregs that encodings name, the first with both bits of the class set.
fn write_registers(out: &mut Report) {
    for index in [3, 63, 133, 192] {
        if PReg::is_index(index) {
            let p = PReg::from_index(index);
            let is_none = p == PReg::invalid() && p == PReg::default();
            let row = (p, p.hw_enc(), p.class(), p.index(), p.as_valid(), is_none);
            out.row("register", &row);
        } else {
            out.row("no register", &index);
        }
    }
    for word in [3, 29, 4294967292] {
        if VReg::is_bits(word) {
            let v = VReg::from_bits(word);
            let row = (v, v.vreg(), v.class(), v.bits(), v == VReg::invalid());
            out.row("vreg", &row);
        } else {
            out.row("no vreg", &word);
        }
    }
}

/// Writes what encodings of operands name: a use, a definition; then constraint code 3, bit 43 and
/// class 3, which name none. Then what each constructor makes.
fn write_operands(out: &mut Report) {
    for word in [24 << 32, 20 << 32, 48 << 32, 1 << 43, 3 << 32] {
        if Operand::is_bits(word) {
            let o = Operand::from_bits(word);
            out.row("operand", &(o, o.vreg(), o.kind(), o.pos(), o.bits()));
        } else {
            out.row("no operand", &word);
        }
    }
    let (v, p) = (VReg::new(4, RegClass::Int), PReg::new(3, RegClass::Int));
    let limit = OperandConstraint::Limit(64);
    for operand in [
        Operand::reg_use(v),
        Operand::reg_use_at_end(v),
        Operand::reg_def(v),
        Operand::reg_def_at_start(v),
        Operand::reg_temp(VReg::new(3, RegClass::Float)),
        Operand::reg_reuse_def(v, 31),
        Operand::reg_fixed_use(v, p),
        Operand::reg_fixed_use_at_end(v, p),
        Operand::reg_fixed_def(v, p),
        Operand::reg_fixed_def_at_start(v, p),
        Operand::any_use(v),
        Operand::any_def(v),
        Operand::fixed_nonallocatable(PReg::new(63, RegClass::Int)),
        Operand::new(v, limit, OperandKind::Use, OperandPos::Late),
    ] {
        let not_allocatable = operand.as_fixed_nonallocatable();
        out.row("made", &(operand, operand.bits(), not_allocatable));
    }
}

/// Writes what numbers of points name, the first that names none among them, and the points at an instruction.
fn write_points(out: &mut Report) {
    for number in [7, 2147483647, 2147483648, 4294967294, 4294967295] {
        if ProgPoint::is_index(number) {
            let p = ProgPoint::from_index(number);
            let is_none = p == ProgPoint::invalid();
            out.row("point", &(p, p.inst(), p.pos(), p.to_index(), is_none));
        } else {
            out.row("no point", &number);
        }
    }
    let inst = Inst::new(3);
    let (before, after) = (ProgPoint::before(inst), ProgPoint::after(inst));
    out.row("points", &(before, after, before.next(), after.prev()));
}

/// Writes how registers, constraints and errors print.
fn write_texts(out: &mut Report) {
    let (v3, p3) = (VReg::new(3, RegClass::Float), PReg::new(3, RegClass::Int));
    out.texts(&[
        p3,
        PReg::new(63, RegClass::Float),
        PReg::new(3, RegClass::Vector),
    ]);
    out.texts(&[v3]);
    out.texts(&[
        OperandConstraint::Limit(8),
        OperandConstraint::Limit(0),
        OperandConstraint::Reuse(2),
        OperandConstraint::FixedReg(p3),
        OperandConstraint::Any,
        OperandConstraint::Reg,
        OperandConstraint::Stack,
    ]);
    out.texts(&[
        RegAllocError::CritEdge(Block(0), Block(2)),
        RegAllocError::SSA(v3, Inst(2)),
        RegAllocError::BB(Block(1)),
        RegAllocError::from(AllocError),
        RegAllocError::from(AllocFailed { value: 7u32 }),
    ]);
}

/// Writes that names are ordered by their encodings.
fn write_orders(out: &mut Report) {
    let (p, v) = (PReg::new(63, RegClass::Int), VReg::new(1, RegClass::Vector));
    let (reg, slot) = (Allocation::reg(p), Allocation::stack(SpillSlot::new(0)));
    let registers = (
        p < PReg::new(0, RegClass::Float),
        v < VReg::new(2, RegClass::Int),
    );
    out.row("p63i < p0f, v1v < v2i", &registers);
    out.row(
        "none < p63i < stack0",
        &(Allocation::none() < reg, reg < slot),
    );
    out.row("any < reg", &(Operand::any_use(v) < Operand::reg_use(v)));
    let after = ProgPoint::after(Inst::new(3));
    out.row(
        "after 3 < before 4",
        &(after < ProgPoint::before(Inst::new(4))),
    );
}
