//! A randomly generated instruction that fits: there are registers enough for its operands and
//! clobbers.

ghost use Rattle.std.specs.Prelude.{◌≡◌};
ghost use Rattle.regalloc2_names.specs.Packing.{IsConstraintOf};

use super::random::{FIRST_SLOT, Random, any_class, preg};
use regalloc2::{
    Operand, OperandConstraint, OperandKind, OperandPos, PReg, PRegSet, RegClass, VReg,
};
use regalloc2_serialize::InstOpcode;
use regalloc2_serialize::table_function::TableInst;
use std::alloc::Global;

/// The numbers of registers, which not every machine has, and of fixed stack slots.
static NUMBERS: [usize; 8] = [0, 1, 2, 3, 4, 5, FIRST_SLOT, FIRST_SLOT + 1];

/// Returns a register or a fixed stack slot of `class`.
fn any_register(random: &mut Random, class: RegClass) -> PReg
    ensures { result.class ≡ class }
{
    preg(NUMBERS[random.below(8)], class)
}

/// An instruction that is being made.
#[derive(Drop)]
pub struct Draft {
    pub operands: Vec<Operand>,
    /// The registers and fixed stack slots of the machine.
    usable: PRegSet,
    /// How many registers of each class the instruction may still require.
    left: [usize; 3],
    /// Registers of fixed operands at the early position.
    early: PRegSet,
    /// Registers of fixed operands at the late position, and clobbers.
    late: PRegSet,
    /// Which operands are reused.
    reused: Vec<usize>,
}

impl Draft {
    /// An instruction without operands yet, for a machine with the registers `usable`, of which `left` by class may
    /// be required.
    pub fn new(alloc: Global, usable: PRegSet, left: [usize; 3]) -> Draft {
        Draft {
            operands: Vec::new(alloc),
            usable,
            left,
            early: PRegSet::empty(),
            late: PRegSet::empty(),
            reused: Vec::new(alloc),
        }
    }

    /// Claims a register of `class`, if one is left. Returns whether one was.
    fn takes_one(&mut self, class: RegClass) -> bool {
        let at = class.code();
        let has_one = self.left[at] > 0;
        self.left[at] = self.left[at].saturating_sub(1);
        has_one
    }

    /// Claims `fixed` at the early position if `is_early`, and at the late one if `is_late`, if the machine has it
    /// and it is free there. Returns whether it was.
    fn takes(&mut self, fixed: PReg, is_early: bool, is_late: bool) -> bool {
        let (has_early, has_late) = (self.early.contains(fixed), self.late.contains(fixed));
        if is_early && has_early || is_late && has_late || !self.usable.contains(fixed) {
            return false;
        }
        let is_new = !has_early && !has_late && fixed.hw_enc() < FIRST_SLOT;
        if is_new && !self.takes_one(fixed.class()) {
            return false;
        }
        if is_early {
            self.early.add(fixed);
        }
        if is_late {
            self.late.add(fixed);
        }
        true
    }

    /// Returns a constraint of an operand of `class` that holds its place early if `is_early`, and late if `is_late`.
    fn constraint(
        &mut self,
        random: &mut Random,
        class: RegClass,
        is_early: bool,
        is_late: bool,
    ) -> OperandConstraint
        ensures { IsConstraintOf class result }
    {
        match random.below(8) {
            0 | 1 => OperandConstraint::Any,
            2 => OperandConstraint::Stack,
            3 | 4 => {
                let fixed = any_register(random, class);
                if self.takes(fixed, is_early, is_late) {
                    OperandConstraint::FixedReg(fixed)
                } else {
                    OperandConstraint::Any
                }
            }
            _ if self.takes_one(class) => OperandConstraint::Reg,
            _ => OperandConstraint::Any,
        }
    }

    /// Adds an operand of `vreg`: most often an early use or a late definition, by `kind`.
    pub fn add(&mut self, random: &mut Random, vreg: VReg, kind: OperandKind) -> Option<()> {
        let is_use = kind == OperandKind::Use;
        let is_first = is_use != random.once_in(3);
        let pos = if is_first {
            OperandPos::Early
        } else {
            OperandPos::Late
        };
        let (is_early, is_late) = (is_use || is_first, !is_use || !is_first);
        let constraint = self.constraint(random, vreg.class(), is_early, is_late);
        let operand = Operand::new(vreg, constraint, kind, pos);
        self.operands.push(operand).ok()
    }

    /// Adds a use of `vreg` under `Reg`, early most often, if a register of its class is left.
    pub fn add_if_left(&mut self, random: &mut Random, vreg: VReg) -> Option<()> {
        if !self.takes_one(vreg.class()) {
            return Some(());
        }
        let operand = if random.once_in(3) {
            Operand::reg_use_at_end(vreg)
        } else {
            Operand::reg_use(vreg)
        };
        self.operands.push(operand).ok()
    }

    /// Marks an early use that may be reused as reused. Returns its position and class.
    pub fn reused(&mut self, random: &mut Random) -> Option<(usize, RegClass)> {
        let index = random.below(32);
        let operand = *self.operands.get(index)?;
        let is_early_use = operand.kind() == OperandKind::Use && operand.pos() == OperandPos::Early;
        if !is_early_use || operand.as_fixed_nonallocatable().is_some() {
            return None;
        }
        let may_be_reused = match operand.constraint() {
            OperandConstraint::Reg => true,
            OperandConstraint::FixedReg(fixed) if fixed.hw_enc() < FIRST_SLOT => {
                self.takes(fixed, false, true)
            }
            _ => false,
        };
        if !may_be_reused || self.reused.contains(&index) {
            return None;
        }
        self.reused.push(index).ok()?;
        Some((index, operand.class()))
    }

    /// Returns the instruction with the opcode `op`, and with clobbers that are free at the late position.
    pub fn finish(mut self, random: &mut Random, op: InstOpcode) -> TableInst {
        let mut clobbers = PRegSet::empty();
        for _ in 0..random.below(4) {
            let class = any_class(random);
            let clobber = any_register(random, class);
            if self.takes(clobber, false, true) {
                clobbers.add(clobber);
            }
        }
        let Draft { operands, .. } = self;
        TableInst {
            operands,
            clobbers,
            op,
        }
    }
}
