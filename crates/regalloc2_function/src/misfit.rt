//! Why a machine doesn't fit a function.

ghost use Rattle.std.specs.Prelude.{◌≡◌};
ghost use Rattle.std.specs.Fmt.{WritesOnOk};
ghost use Rattle.regalloc2_function.specs.RoleText.{listed_text, no_register_text, scratch_fault_text, slot_role_text};

use regalloc2_names::{PReg, RegClass};
use std::error::Error;
use std::fmt;

/// Why a machine doesn't fit a function: the first condition that fails, as `test_machine` tests
/// them.
#[derive(Clone, Copy, Debug, PartialEq, Eq)]
pub enum MachineMisfit {
    /// A fixed stack slot is `PReg::invalid()`.
    InvalidSlot,
    /// A register is listed for a class that isn't its own.
    OtherClass(RegClass, PReg),
    /// A register is listed twice for a class, as preferred and as non-preferred.
    ListedTwice(RegClass, PReg),
    /// `PReg::invalid()` is listed for a class.
    InvalidRegister(RegClass),
    /// The scratch register of a class is of another class.
    ScratchOfOtherClass(RegClass, PReg),
    /// The scratch register of a class is also listed as allocatable.
    ScratchAllocatable(RegClass, PReg),
    /// The scratch register of a class is `PReg::invalid()`.
    InvalidScratch(RegClass),
    /// A fixed stack slot is listed as allocatable for a class.
    SlotAllocatable(RegClass, PReg),
    /// A fixed stack slot is the scratch register of a class.
    SlotIsScratch(RegClass, PReg),
    /// A class has no register to allocate, and the function names a vreg of it.
    NoRegister(RegClass),
}

/// Writes what is wrong with the register `reg`, which is listed for `class`.
fn write_listed<W: fmt::Write>(
    f: &mut fmt::Formatter<W>,
    class: RegClass,
    reg: PReg,
    fault: &'static str,
) -> fmt::Result
    ensures { WritesOnOk W.write_str_gives f.old result (listed_text class reg fault.now) f.new }
{
    let class = class.name();
    write!(f, "{reg} is listed for the class {class}{fault}")
}

/// Writes what is wrong with the scratch register `reg` of `class`.
fn write_scratch<W: fmt::Write>(
    f: &mut fmt::Formatter<W>,
    class: RegClass,
    reg: PReg,
    fault: &'static str,
) -> fmt::Result
    ensures { WritesOnOk W.write_str_gives f.old result (scratch_fault_text class reg fault.now) f.new }
{
    let class = class.name();
    write!(
        f,
        "{reg}, the scratch register of the class {class}, {fault}"
    )
}

/// Writes which other role for `class` the fixed stack slot `reg` has.
fn write_slot<W: fmt::Write>(
    f: &mut fmt::Formatter<W>,
    class: RegClass,
    reg: PReg,
    role: &'static str,
) -> fmt::Result
    ensures { WritesOnOk W.write_str_gives f.old result (slot_role_text class reg role.now) f.new }
{
    let class = class.name();
    write!(f, "{reg}, a fixed stack slot, is {role} the class {class}")
}

/// Writes that `class` has no register to allocate.
fn write_no_register<W: fmt::Write>(f: &mut fmt::Formatter<W>, class: RegClass) -> fmt::Result
    ensures { WritesOnOk W.write_str_gives f.old result (no_register_text class) f.new }
{
    let class = class.name();
    write!(
        f,
        "the function has a virtual register of the class {class}, which has no register to allocate"
    )
}

/// Writes the cause, as `p3f is listed for the class Int, and is of another class`.
impl fmt::Display for MachineMisfit {
    ghost use Rattle.std.specs.Prelude.{Some};
    ghost use Rattle.regalloc2_function.specs.MisfitText.{misfit_text};

    ghost output = { λ m. Some (misfit_text m) };

    fn fmt<W: fmt::Write>(&self, f: &mut fmt::Formatter<W>) -> fmt::Result {
        match *self {
            Self::InvalidSlot => write!(f, "a fixed stack slot is the invalid register"),
            Self::OtherClass(class, reg) => {
                write_listed(f, class, reg, ", and is of another class")
            }
            Self::ListedTwice(class, reg) => {
                write_listed(f, class, reg, " as preferred and as non-preferred")
            }
            Self::InvalidRegister(class) => {
                let class = class.name();
                write!(f, "the invalid register is listed for the class {class}")
            }
            Self::ScratchOfOtherClass(class, reg) => {
                write_scratch(f, class, reg, "is of another class")
            }
            Self::ScratchAllocatable(class, reg) => {
                write_scratch(f, class, reg, "is listed to be allocated")
            }
            Self::InvalidScratch(class) => {
                let class = class.name();
                write!(
                    f,
                    "the scratch register of the class {class} is the invalid register"
                )
            }
            Self::SlotAllocatable(class, reg) => {
                write_slot(f, class, reg, "listed to be allocated for")
            }
            Self::SlotIsScratch(class, reg) => {
                write_slot(f, class, reg, "the scratch register of")
            }
            Self::NoRegister(class) => write_no_register(f, class),
        }
    }
}

impl Error for MachineMisfit {}
