//! Operands of instructions.

ghost use Rattle.std.specs.Prelude.{IfNone, IfSome, None, Some, ◌≡◌, ℕ, ◌<◌, ◌↔◌, IsTrue};
ghost use Rattle.regalloc2_names.specs.Operand.{is_def, is_late, is_position, is_reading, nonallocatable_register, reads_at};
ghost use Rattle.regalloc2_names.specs.Packing.{IsConstraintCode, IsConstraintOf, IsOperandBits, bits_of_operand, constraint_code};
ghost use Rattle.regalloc2_names.specs.Packing.{constraint_code_limit, operand_of_bits, reuse_limit};

use super::registers::CLASSES;
use super::{OperandConstraint, OperandKind, OperandPos, PReg, RegClass, VReg};
use std::marker::Model;

/// An operand of an instruction: the virtual register (vreg) that it reads or writes, when, and
/// what it requires of its place.
///
/// Packed into 64 bits: the vreg's number in the lower `VREG_BITS`, and above it the class, the
/// position, the kind and the constraint's code, each from its own shift on.
#[derive(Clone, Copy, PartialEq, Eq, PartialOrd, Ord, Hash)]
pub struct Operand {
    bits: u64,
}

impl Model for Operand {
    ghost use Rattle.std.specs.Prelude.{ℕ};
    ghost use Rattle.std.proofs.Common.{ap};
    ghost use Rattle.regalloc2_names.specs.Operand.{OperandValue};
    ghost use Rattle.regalloc2_names.specs.Packing.{operand_of_bits, bits_of_operand, IsOperandBits, bits_of_operand-operand_of_bits};

    ghost Value = { OperandValue };

    ghost view = { λ o. operand_of_bits o.bits };

    ghost invariant = { λ o. IsOperandBits o.bits };

    ghost inverse = { λ o. record { bits = bits_of_operand o } };

    ghost inverse_ok = { λ o h. ap (λ (b : ℕ). record { bits = b }) (bits_of_operand-operand_of_bits o.bits h) };
}

/// The code of `OperandConstraint::Any`.
const ANY: u64 = 0;

/// The code of `OperandConstraint::Reg`.
const REG: u64 = 1;

/// The code of `OperandConstraint::Stack`.
const STACK: u64 = 2;

/// The first code of a limit. The exponent of the limit, a power of two, is added.
pub(crate) const LIMIT: u64 = 16;

/// The first code of a reuse. The operand's index is added.
const REUSE: u64 = 32;

/// The first code of a fixed register. The register's number is added.
pub(crate) const FIXED: u64 = 64;

/// The number of limits that have a code: the powers of two up to 64.
const LIMITS: u64 = 7;

/// One more than the greatest code.
const CODES: u64 = 128;

/// Returns the code of `constraint`, which an operand of `class` may have.
fn constraint_field(class: RegClass, constraint: OperandConstraint) -> u64
    requires { IsConstraintOf class constraint }
    ensures code { result ≡ constraint_code constraint }
    ensures small { result < constraint_code_limit }
{
    match constraint {
        OperandConstraint::Any => ANY,
        OperandConstraint::Reg => REG,
        OperandConstraint::Stack => STACK,
        OperandConstraint::FixedReg(preg) => FIXED | preg.hw_enc() as u64,
        OperandConstraint::Reuse(index) => REUSE | index as u64,
        OperandConstraint::Limit(max) => LIMIT + max.trailing_zeros() as u64,
    }
}

/// Returns `true` if `field` is the code of a constraint.
#[inline(always)]
fn is_constraint_field(field: u64) -> bool
    ensures { IsTrue result ↔ IsConstraintCode field }
{
    field <= STACK
        || (field >= LIMIT && field < LIMIT + LIMITS)
        || (field >= REUSE && field < CODES)
}

impl Operand {
    /// The indexes that a reuse can name are below.
    ///
    /// Upstream: none.
    pub const REUSE_LIMIT: usize = (FIXED - REUSE) as usize;

    const VREG_BITS: usize = 32;

    const VREG_MASK: u64 = (1 << Self::VREG_BITS) - 1;

    const CLASS_BITS: usize = 2;

    const CLASS_SHIFT: usize = Self::VREG_BITS;

    const CLASS_MASK: u64 = (1 << Self::CLASS_BITS) - 1;

    const POS_BITS: usize = 1;

    const POS_SHIFT: usize = Self::CLASS_SHIFT + Self::CLASS_BITS;

    const POS_MASK: u64 = (1 << Self::POS_BITS) - 1;

    const KIND_BITS: usize = 1;

    const KIND_SHIFT: usize = Self::POS_SHIFT + Self::POS_BITS;

    const KIND_MASK: u64 = (1 << Self::KIND_BITS) - 1;

    pub(crate) const CONSTRAINT_SHIFT: usize = Self::KIND_SHIFT + Self::KIND_BITS;

    /// Returns the operand that reads or writes `vreg`, by `kind`, at `pos` and under `constraint`.
    ///
    /// A fixed register is of the class of `vreg`, the index of a reuse at most 31, a limit a power of
    /// two up to 64.
    pub fn new(
        vreg: VReg,
        constraint: OperandConstraint,
        kind: OperandKind,
        pos: OperandPos,
    ) -> Self
        requires { IsConstraintOf vreg.class constraint }
        ensures { result ≡ record { vreg = vreg; constraint = constraint; kind = kind; position = pos } }
    {
        let class_field = vreg.class() as u8 as u64;
        let pos_field = pos as u8 as u64;
        let kind_field = kind as u8 as u64;
        let constraint_field = constraint_field(vreg.class(), constraint);
        Operand {
            bits: (vreg.vreg() as u64)
                | (class_field << Self::CLASS_SHIFT)
                | (pos_field << Self::POS_SHIFT)
                | (kind_field << Self::KIND_SHIFT)
                | (constraint_field << Self::CONSTRAINT_SHIFT),
        }
    }

    /// Returns the operand of `vreg` in a register.
    fn in_reg(vreg: VReg, kind: OperandKind, pos: OperandPos) -> Self
        ensures { result ≡ record { vreg = vreg; constraint = OperandConstraint.Reg; kind = kind; position = pos } }
    {
        Operand::new(vreg, OperandConstraint::Reg, kind, pos)
    }

    /// Returns the operand of `vreg` in `preg`.
    fn in_preg(vreg: VReg, preg: PReg, kind: OperandKind, pos: OperandPos) -> Self
        requires { preg.class ≡ vreg.class }
        ensures { result ≡ record { vreg = vreg; constraint = OperandConstraint.FixedReg preg; kind = kind; position = pos } }
    {
        Operand::new(vreg, OperandConstraint::FixedReg(preg), kind, pos)
    }

    /// Returns the operand of `vreg` in any place.
    fn in_any_place(vreg: VReg, kind: OperandKind, pos: OperandPos) -> Self
        ensures { result ≡ record { vreg = vreg; constraint = OperandConstraint.Any; kind = kind; position = pos } }
    {
        Operand::new(vreg, OperandConstraint::Any, kind, pos)
    }

    /// Returns a use of `vreg` in a register, at the beginning of the instruction.
    pub fn reg_use(vreg: VReg) -> Self
        ensures { result ≡ record { vreg = vreg; constraint = OperandConstraint.Reg; kind = OperandKind.Use; position = OperandPos.Early } }
    {
        Operand::in_reg(vreg, OperandKind::Use, OperandPos::Early)
    }

    /// Returns a use of `vreg` in a register at the end of the instruction. Clobbers and definitions
    /// leave the register alone.
    pub fn reg_use_at_end(vreg: VReg) -> Self
        ensures { result ≡ record { vreg = vreg; constraint = OperandConstraint.Reg; kind = OperandKind.Use; position = OperandPos.Late } }
    {
        Operand::in_reg(vreg, OperandKind::Use, OperandPos::Late)
    }

    /// Returns a definition of `vreg` in a register, at the end of the instruction.
    pub fn reg_def(vreg: VReg) -> Self
        ensures { result ≡ record { vreg = vreg; constraint = OperandConstraint.Reg; kind = OperandKind.Def; position = OperandPos.Late } }
    {
        Operand::in_reg(vreg, OperandKind::Def, OperandPos::Late)
    }

    /// Returns a definition of `vreg` at the beginning of the instruction, in a register apart from
    /// the registers of its uses.
    pub fn reg_def_at_start(vreg: VReg) -> Self
        ensures { result ≡ record { vreg = vreg; constraint = OperandConstraint.Reg; kind = OperandKind.Def; position = OperandPos.Early } }
    {
        Operand::in_reg(vreg, OperandKind::Def, OperandPos::Early)
    }

    /// Returns a definition of `vreg` in a register that the instruction may write at any time.
    pub fn reg_temp(vreg: VReg) -> Self
        ensures { result ≡ record { vreg = vreg; constraint = OperandConstraint.Reg; kind = OperandKind.Def; position = OperandPos.Early } }
    {
        Operand::reg_def_at_start(vreg)
    }

    /// Returns a definition of `vreg` at the end of the instruction, in the register of the use with
    /// the index `idx`, at most 31.
    pub fn reg_reuse_def(vreg: VReg, idx: usize) -> Self
        requires { idx < reuse_limit }
        ensures { result ≡ record { vreg = vreg; constraint = OperandConstraint.Reuse idx; kind = OperandKind.Def; position = OperandPos.Late } }
    {
        Operand::new(
            vreg,
            OperandConstraint::Reuse(idx),
            OperandKind::Def,
            OperandPos::Late,
        )
    }

    /// Returns a use of `vreg` in `preg`, which is of its class, at the beginning of the instruction.
    pub fn reg_fixed_use(vreg: VReg, preg: PReg) -> Self
        requires { preg.class ≡ vreg.class }
        ensures { result ≡ record { vreg = vreg; constraint = OperandConstraint.FixedReg preg; kind = OperandKind.Use; position = OperandPos.Early } }
    {
        Operand::in_preg(vreg, preg, OperandKind::Use, OperandPos::Early)
    }

    /// Returns a use of `vreg` in `preg`, which is of its class, at the end of the instruction.
    pub fn reg_fixed_use_at_end(vreg: VReg, preg: PReg) -> Self
        requires { preg.class ≡ vreg.class }
        ensures { result ≡ record { vreg = vreg; constraint = OperandConstraint.FixedReg preg; kind = OperandKind.Use; position = OperandPos.Late } }
    {
        Operand::in_preg(vreg, preg, OperandKind::Use, OperandPos::Late)
    }

    /// Returns a definition of `vreg` in `preg`, which is of its class, at the end of the instruction.
    pub fn reg_fixed_def(vreg: VReg, preg: PReg) -> Self
        requires { preg.class ≡ vreg.class }
        ensures { result ≡ record { vreg = vreg; constraint = OperandConstraint.FixedReg preg; kind = OperandKind.Def; position = OperandPos.Late } }
    {
        Operand::in_preg(vreg, preg, OperandKind::Def, OperandPos::Late)
    }

    /// Returns a definition of `vreg` in `preg`, which is of its class, at the beginning of the
    /// instruction.
    pub fn reg_fixed_def_at_start(vreg: VReg, preg: PReg) -> Self
        requires { preg.class ≡ vreg.class }
        ensures { result ≡ record { vreg = vreg; constraint = OperandConstraint.FixedReg preg; kind = OperandKind.Def; position = OperandPos.Early } }
    {
        Operand::in_preg(vreg, preg, OperandKind::Def, OperandPos::Early)
    }

    /// Returns a use of `vreg` in any place, at the beginning of the instruction.
    pub fn any_use(vreg: VReg) -> Self
        ensures { result ≡ record { vreg = vreg; constraint = OperandConstraint.Any; kind = OperandKind.Use; position = OperandPos.Early } }
    {
        Operand::in_any_place(vreg, OperandKind::Use, OperandPos::Early)
    }

    /// Returns a definition of `vreg` in any place, at the end of the instruction.
    pub fn any_def(vreg: VReg) -> Self
        ensures { result ≡ record { vreg = vreg; constraint = OperandConstraint.Any; kind = OperandKind.Def; position = OperandPos.Late } }
    {
        Operand::in_any_place(vreg, OperandKind::Def, OperandPos::Late)
    }

    /// Returns a use of `preg`, which needn't be allocatable. The operand reads no vreg: its number is
    /// `VReg::MAX`.
    pub fn fixed_nonallocatable(preg: PReg) -> Self
        ensures operand { result ≡ record {
          vreg = record { number = VReg.MAX; class = preg.class };
          constraint = OperandConstraint.FixedReg preg;
          kind = OperandKind.Use;
          position = OperandPos.Early;
        } }
        ensures marked { nonallocatable_register result ≡ Some preg }
    {
        Operand::new(
            VReg::new(VReg::MAX, preg.class()),
            OperandConstraint::FixedReg(preg),
            OperandKind::Use,
            OperandPos::Early,
        )
    }

    /// Returns the class of the vreg.
    #[tactic(auto, unfolding(crate::specs::Packing::operand_of_bits))]
    pub fn class(self) -> RegClass
        ensures { result ≡ self.vreg.class }
    {
        CLASSES[((self.bits >> Self::CLASS_SHIFT) & Self::CLASS_MASK) as usize]
    }

    /// Returns the vreg.
    #[tactic(auto, unfolding(crate::specs::Packing::operand_of_bits))]
    pub fn vreg(self) -> VReg
        ensures { result ≡ self.vreg }
    {
        let number = self.bits & VReg::MAX as u64;
        let class_field = (self.bits >> Self::CLASS_SHIFT) & Self::CLASS_MASK;
        VReg::from_bits((number << VReg::CLASS_BITS) as u32 | class_field as u32)
    }

    /// Returns whether the operand is read or written.
    #[tactic(auto, unfolding(crate::specs::Packing::operand_of_bits))]
    pub fn kind(self) -> OperandKind
        ensures { result ≡ self.kind }
    {
        match (self.bits >> Self::KIND_SHIFT) & Self::KIND_MASK {
            0 => OperandKind::Def,
            1 => OperandKind::Use,
            _ => unreachable!(),
        }
    }

    /// Returns when the operand is read or written.
    #[tactic(auto, unfolding(crate::specs::Packing::operand_of_bits))]
    pub fn pos(self) -> OperandPos
        ensures { result ≡ self.position }
    {
        match (self.bits >> Self::POS_SHIFT) & Self::POS_MASK {
            0 => OperandPos::Early,
            1 => OperandPos::Late,
            _ => unreachable!(),
        }
    }

    /// Returns what the operand requires of its place.
    #[tactic(auto, unfolding(crate::specs::Packing::operand_of_bits))]
    pub fn constraint(self) -> OperandConstraint
        ensures constraint { result ≡ self.constraint }
        ensures of_class { IsConstraintOf self.vreg.class self.constraint }
    {
        let field = self.bits >> Self::CONSTRAINT_SHIFT;
        if field < LIMIT {
            match field {
                ANY => OperandConstraint::Any,
                REG => OperandConstraint::Reg,
                _ => OperandConstraint::Stack,
            }
        } else if field < REUSE {
            OperandConstraint::Limit(1 << (field - LIMIT))
        } else if field < FIXED {
            OperandConstraint::Reuse((field - REUSE) as usize)
        } else {
            let class_field = (self.bits >> Self::CLASS_SHIFT) & Self::CLASS_MASK;
            let hw_enc = field - FIXED;
            let index = (class_field << PReg::MAX_BITS) | hw_enc;
            OperandConstraint::FixedReg(PReg::from_index(index as usize))
        }
    }

    /// Returns the index of the operand whose place this operand reuses, at most 31, or `None` if it
    /// reuses none.
    ///
    /// Upstream: none.
    pub fn reused_index(self) -> Option<usize>
        ensures some { IfSome result (λ n. self.constraint ≡ OperandConstraint.Reuse n) }
        ensures small { IfSome result (λ n. n < reuse_limit) }
        ensures none { IfNone result ((n : ℕ) → self.constraint ≡ OperandConstraint.Reuse n → ⊥) }
    {
        match self.constraint() {
            OperandConstraint::Reuse(index) => Some(index),
            _ => None,
        }
    }

    /// Returns `true` if the operand may be in any register, the most frequent constraint.
    #[tactic(auto, unfolding(crate::specs::Packing::operand_of_bits))]
    pub fn is_any_reg(self) -> bool
        ensures { IsTrue result ↔ (self.constraint ≡ OperandConstraint.Reg) }
    {
        self.bits >> Self::CONSTRAINT_SHIFT == REG
    }

    /// Returns the fixed register of an operand that names no vreg, which the number `VReg::MAX`
    /// marks. The operand reads nothing, and its register needn't be allocatable.
    pub fn as_fixed_nonallocatable(self) -> Option<PReg>
        ensures { result ≡ nonallocatable_register self }
    {
        match self.constraint() {
            OperandConstraint::FixedReg(preg) if self.vreg().vreg() == VReg::MAX => Some(preg),
            _ => None,
        }
    }

    /// Returns `true` if the operand writes its vreg.
    pub fn is_def(self) -> bool
        ensures { result ≡ is_def self.kind }
    {
        self.kind() == OperandKind::Def
    }

    /// Returns `true` if the operand reads its vreg. Every use does, except a use whose register isn't
    /// allocated (`as_fixed_nonallocatable`).
    pub fn is_reading(self) -> bool
        ensures { result ≡ is_reading self }
    {
        if self.kind() != OperandKind::Use {
            return false;
        }
        // The number is tested first: hardly any operand has the greatest.
        self.vreg().vreg() != VReg::MAX
            || !matches!(self.constraint(), OperandConstraint::FixedReg(_))
    }

    /// Returns `true` if the operand is read or written at the end of its instruction.
    pub fn is_late(self) -> bool
        ensures { result ≡ is_late self.position }
    {
        self.is_at(OperandPos::Late)
    }

    /// Returns `true` if the operand is read or written at `pos`.
    pub fn is_at(self, pos: OperandPos) -> bool
        ensures test { result ≡ is_position pos self.position }
        ensures same { IsTrue result ↔ (self.position ≡ pos) }
    {
        self.pos() == pos
    }

    /// Returns `true` if the operand reads its vreg at `pos`.
    pub fn reads_at(self, pos: OperandPos) -> bool
        ensures { result ≡ reads_at pos self }
    {
        self.is_reading() && self.is_at(pos)
    }

    /// Returns the operand's encoding, which `from_bits` decodes.
    pub fn bits(self) -> u64
        ensures bits { result ≡ bits_of_operand self }
        ensures word { IsOperandBits result }
        ensures operand { operand_of_bits result ≡ self }
    {
        self.bits
    }

    /// Returns `true` if `bits` encode an operand.
    #[inline(always)]
    pub fn is_bits(bits: u64) -> bool
        ensures { IsTrue result ↔ IsOperandBits bits }
    {
        let number = bits & Self::VREG_MASK;
        let class_field = (bits >> Self::CLASS_SHIFT) & Self::CLASS_MASK;
        number <= VReg::MAX as u64
            && class_field < CLASSES.len() as u64
            && is_constraint_field(bits >> Self::CONSTRAINT_SHIFT)
    }

    /// Returns the operand that `bits`, which `is_bits` accepts, encode.
    pub fn from_bits(bits: u64) -> Self
        requires { IsOperandBits bits }
        ensures operand { result ≡ operand_of_bits bits }
        ensures back { bits_of_operand result ≡ bits }
    {
        Operand { bits }
    }
}
