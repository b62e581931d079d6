//! The System V calling convention of x86-64, as far as arguments go, and places as assembly.

ghost use Rattle.std.specs.Prelude.{◌≤◌};

use super::assembly::NAMES;
use regalloc2::{Allocation, PReg, RegClass, SpillSlot};
use std::fmt;

/// Returns the general register with the number `number`.
pub fn int(number: usize) -> PReg
    requires { number ≤ 15 }
{
    PReg::new(number, RegClass::Int)
}

/// Returns the float register with the number `number`.
pub fn xmm(number: usize) -> PReg
    requires { number ≤ 15 }
{
    PReg::new(number, RegClass::Float)
}

/// Returns the slot with the number `number`.
pub fn slot(number: u8) -> Allocation {
    Allocation::stack(SpillSlot::new(usize::from(number)))
}

/// The register of the integer argument after `before` others; `None` if it goes to a slot.
fn int_param(before: u8) -> Option<PReg> {
    match before {
        0 => Some(int(7)),
        1 => Some(int(6)),
        2 => Some(int(2)),
        3 => Some(int(1)),
        4 => Some(int(8)),
        5 => Some(int(9)),
        _ => None,
    }
}

/// The register of the float argument after `before` others; `None` if it goes to a slot.
fn float_param(before: u8) -> Option<PReg> {
    if before < 8 {
        Some(xmm(usize::from(before)))
    } else {
        None
    }
}

/// How many arguments have been given their places, by class, and how many of them in slots.
#[derive(Drop)]
pub struct Convention {
    ints: u8,
    floats: u8,
    slots: u8,
}

impl Convention {
    /// No argument has its place yet.
    pub fn new() -> Convention {
        Convention {
            ints: 0,
            floats: 0,
            slots: 0,
        }
    }

    /// Returns the register of the next argument, of `class`, if there is one left.
    fn next_register(&mut self, class: RegClass) -> Option<PReg> {
        if class == RegClass::Int {
            let before = self.ints;
            self.ints = before.saturating_add(1);
            int_param(before)
        } else {
            let before = self.floats;
            self.floats = before.saturating_add(1);
            float_param(before)
        }
    }

    /// Returns the place of the next argument, of `class`.
    pub fn next(&mut self, class: RegClass) -> Allocation {
        match self.next_register(class) {
            Some(preg) => Allocation::reg(preg),
            None => {
                let before = self.slots;
                self.slots = before.saturating_add(1);
                slot(before)
            }
        }
    }
}

/// A place as an operand in assembly.
#[derive(Clone, Copy)]
pub struct Assembly(pub Allocation);

/// As `rdi`, `xmm0`, `[rsp]` or `[rsp + 8]`; `nowhere` if there is no place.
impl fmt::Display for Assembly {
    fn fmt<W: fmt::Write>(&self, f: &mut fmt::Formatter<W>) -> fmt::Result {
        if let Some(preg) = self.0.as_reg() {
            let number = preg.hw_enc();
            return match NAMES.get(number) {
                Some(name) if preg.class() == RegClass::Int => write!(f, "{name}"),
                _ => write!(f, "xmm{number}"),
            };
        }
        match self.0.as_stack() {
            Some(slot) if slot.index() > 0 => {
                let bytes = 8 * slot.index();
                write!(f, "[rsp + {bytes}]")
            }
            Some(_) => write!(f, "[rsp]"),
            None => write!(f, "nowhere"),
        }
    }
}
