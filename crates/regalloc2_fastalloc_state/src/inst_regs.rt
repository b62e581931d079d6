//! The registers of one instruction: which are free at its two positions, and how many are still
//! required.

ghost use Rattle.std.specs.Prelude.{IsTrue, ◌≡◌, ◌+◌, ◌-◌, ◌<◌, ◌^◌, ◌&&◌, ◌||◌, ◌∷◌, [], true, None, Some, not, slice_index_or, slice_set, if◌then◌else◌};
ghost use Rattle.regalloc2_names.specs.Register.{Register, class_code, has_register};
ghost use Rattle.regalloc2_semantics.specs.Fits.{is_under_reg};
ghost use Rattle.regalloc2_fastalloc_state.specs.InstRegs.{RemovesAvailable, IsAvailableAt, SameAvailable, awaited_of, is_available_at, is_free_throughout};

use crate::positions::Positions;
use regalloc2_names::{Operand, PReg, PRegSet, RegClass};

/// The registers of one instruction, while its operands are allocated.
#[derive(Clone, Copy)]
pub struct InstRegs {
    /// The registers that are free while early operands are there.
    early: PRegSet,
    /// The registers that are free while late operands are there.
    late: PRegSet,
    /// The register of each class that stack-to-stack moves go through, once one is chosen.
    scratch: [Option<PReg>; 3],
    /// How many operands of each class that require any register are still to be allocated.
    awaited: [usize; 3],
}

impl InstRegs {
    /// Returns a value in which all registers of `every` are free and nothing is taken yet.
    pub fn new(every: PRegSet) -> InstRegs
        ensures early { result.early ≡ every }
        ensures late { result.late ≡ every }
        ensures scratch { result.scratch ≡ None ∷ None ∷ None ∷ [] }
        ensures awaited { result.awaited ≡ 0 ∷ 0 ∷ 0 ∷ [] }
    {
        InstRegs {
            early: every,
            late: every,
            scratch: [None; 3],
            awaited: [0; 3],
        }
    }

    /// Returns the registers that are free at `positions`.
    pub fn available_pregs(&self, positions: Positions) -> PRegSet
        ensures free { (r : Register) → has_register result r ≡ true → IsAvailableAt self.now positions r }
        ensures throughout { (r : Register) → is_free_throughout self.now r ≡ true → has_register result r ≡ true }
        ensures all { (r : Register) → (positions.early || positions.late) ≡ true → IsAvailableAt self.now positions r → has_register result r ≡ true }
        ensures same { (r : Register) → has_register result r ≡ is_available_at self.now positions r }
    {
        if positions.early && positions.late {
            self.early & self.late
        } else if positions.early {
            self.early
        } else {
            self.late
        }
    }

    /// Whether `preg` is free at `positions`: whether `available_pregs` has it, without building the
    /// set.
    #[inline(always)]
    pub fn is_available(&self, preg: PReg, positions: Positions) -> bool
        ensures same { result ≡ is_available_at self.now positions preg }
        ensures free { IsTrue result → IsAvailableAt self.now positions preg }
        ensures all { (positions.early || positions.late) ≡ true → IsAvailableAt self.now positions preg → IsTrue result }
    {
        if positions.early {
            self.early.contains(preg) && (!positions.late || self.late.contains(preg))
        } else {
            self.late.contains(preg)
        }
    }

    /// Makes `preg` unavailable at `positions`.
    #[inline(always)]
    pub fn remove_available(&mut self, preg: PReg, positions: Positions)
        ensures removed { RemovesAvailable self.old self.new preg positions }
        ensures awaited { self.new.awaited ≡ self.old.awaited }
    {
        if positions.early {
            self.early.remove(preg);
        }
        if positions.late {
            self.late.remove(preg);
        }
    }

    /// Makes the registers `taken` unavailable at the late position: a clobber is overwritten while late
    /// operands are there.
    pub fn remove_late(&mut self, taken: PRegSet)
        ensures late { (r : Register) → has_register self.new.late r ≡ not (has_register taken r) && has_register self.old.late r }
        ensures early { self.new.early ≡ self.old.early }
        ensures scratch { self.new.scratch ≡ self.old.scratch }
        ensures awaited { self.new.awaited ≡ self.old.awaited }
    {
        self.late = self.late.difference(taken);
    }

    /// Counts `operand` if it requires any register. Has no branch: most processors would predict it badly.
    #[inline(always)]
    pub fn count_operand(&mut self, operand: Operand)
        requires { awaited_of self.old operand.vreg.class < 2 ^ 64 - 1 }
        ensures sets { SameAvailable self.old self.new }
        ensures awaited { self.new.awaited ≡ slice_set self.old.awaited (class_code operand.vreg.class)
            (awaited_of self.old operand.vreg.class + (if is_under_reg operand.constraint then 1 else 0)) }
    {
        self.awaited[operand.class().code()] += operand.is_any_reg() as usize;
    }

    /// Counts an operand of `class` that required any register as placed.
    pub fn remove_any_reg_op(&mut self, class: RegClass)
        ensures sets { SameAvailable self.old self.new }
        ensures awaited { self.new.awaited ≡ slice_set self.old.awaited (class_code class) (awaited_of self.old class - 1) }
    {
        let awaited = self.awaited[class.code()];
        self.awaited[class.code()] = awaited.saturating_sub(1);
    }

    /// How many operands of `class` that require any register are still to be allocated.
    pub fn awaited(&self, class: RegClass) -> usize
        ensures { result ≡ awaited_of self.now class }
    {
        self.awaited[class.code()]
    }

    /// Whether `preg` is free at both positions.
    pub fn is_free(&self, preg: PReg) -> bool
        ensures { result ≡ is_free_throughout self.now preg }
    {
        self.early.contains(preg) && self.late.contains(preg)
    }

    /// The register that stack-to-stack moves of `class` go through, if one was chosen.
    pub fn scratch_of(&self, class: RegClass) -> Option<PReg>
        ensures { result ≡ slice_index_or self.now.scratch (class_code class) None }
    {
        self.scratch[class.code()]
    }

    /// Makes `preg` the register that stack-to-stack moves of `class` go through from now on.
    pub fn set_scratch(&mut self, class: RegClass, preg: PReg)
        ensures early { self.new.early ≡ self.old.early }
        ensures late { self.new.late ≡ self.old.late }
        ensures scratch { self.new.scratch ≡ slice_set self.old.scratch (class_code class) (Some preg) }
        ensures awaited { self.new.awaited ≡ self.old.awaited }
    {
        self.scratch[class.code()] = Some(preg);
    }
}
