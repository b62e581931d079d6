//! Rings of registers, lists of live vregs, and operands selected from a list.

ghost use Rattle.std.specs.Iterator.{IsFinite};
ghost use Rattle.std.specs.Prelude.{◌≡◌, ◌≤◌};
ghost use Rattle.regalloc2_names.specs.declared.RegClass.{RegClass};
ghost use Rattle.regalloc2_parts.specs.Ring.{AreDistinctOf};

use crate::test_alloc::Refusing;
use crate::units::report::Report;
use regalloc2_names::{Operand, PReg, PRegSet, RegAllocError, RegClass, VReg};
use regalloc2_parts::iter::Operands;
use regalloc2_parts::lru::{Lru, Lrus, PartedByRegClass};
use regalloc2_parts::vregset::VRegSet;
use std::alloc::{Allocator, Global};

/// Returns the integer register with the number `number`.
pub fn preg(number: usize) -> PReg
    requires { number ≤ 63 }
    ensures { result ≡ record { number = number; class = RegClass.Int } }
{
    PReg::new(number, RegClass::Int)
}

/// Writes the members of `ring` as `last` returns them one by one, the least recently used first; then the least
/// recently used of p0i and p1i, whether it has none, and the least recently used.
fn write_ring<A: Allocator>(out: &mut Report, name: &str, ring: &mut Lru<A>) {
    out.put(&format_args!("{name}:"));
    let mut left = PRegSet::empty().invert();
    // Each turn removes one of the 64 registers of the ring's class from `left`.
    for _ in 0..64u32 {
        let Some(preg) = ring.last(left) else {
            break;
        };
        left.remove(preg);
        out.put(&format_args!(" {preg}"));
    }
    out.words("\n");
    let of_two = ring.last(PRegSet::empty().with(preg(0)).with(preg(1)));
    out.row("last of p0i, p1i", &of_two);
    let not_first = ring.last_satisfying(|preg| preg.hw_enc() != 0);
    out.row("is", &(ring.is_empty(), ring.pop(), not_first));
}

/// Writes a new ring of `regs`, and the ring after each of `poked` is poked; then how often it requested memory.
fn write_pokes(alloc: Global, out: &mut Report, regs: &[PReg], poked: &[PReg])
    requires { AreDistinctOf RegClass.Int regs.now }
{
    let counting = Refusing::counting(alloc);
    let Ok(mut ring) = Lru::new(&counting, RegClass::Int, regs) else {
        out.row("no ring", &regs.len());
        return;
    };
    write_ring(out, "new ring", &mut ring);
    for preg in poked {
        if let Some(member) = ring.last(PRegSet::empty().with(*preg)) {
            ring.poke(member);
            write_ring(out, "poked", &mut ring);
        }
    }
    out.row("requests", &counting.requests());
}

/// Writes rings of several registers, of one and of none.
pub fn write_rings(alloc: Global, out: &mut Report) {
    let all = [preg(0), preg(1), preg(2), preg(3)];
    write_pokes(alloc, out, &[preg(0), preg(1), preg(2)], &[all[1], all[2]]);
    write_pokes(alloc, out, &[preg(9), preg(63), preg(0)], &[]);
    write_pokes(alloc, out, &all, &[all[2], all[2], all[0], all[3]]);
    write_pokes(alloc, out, &[preg(7)], &[preg(7)]);
    write_pokes(alloc, out, &[], &[]);
    let items = [7u32, 8, 9];
    out.put(&format_args!("parted: {}\n", PartedByRegClass { items }));
}

/// Rings of two, one and one registers.
pub fn three_rings<A: Allocator>(alloc: &A) -> Result<Lrus<&A>, RegAllocError> {
    let float = PReg::new(1, RegClass::Float);
    let vector = PReg::new(2, RegClass::Vector);
    Lrus::new(alloc, &[preg(0)], &[float], &[vector])
}

fn vreg(number: usize) -> VReg
    requires { number ≤ 1073741823 }
    ensures { result ≡ record { number = number; class = RegClass.Int } }
{
    VReg::new(number, RegClass::Int)
}

/// Writes the members of `live`, the last inserted first, and whether there is none.
fn write_list<A: Allocator>(out: &mut Report, live: &VRegSet<A>) {
    out.words("live:");
    for v in live.iter() {
        out.put(&format_args!(" {v}"));
    }
    out.put(&format_args!("\nnone: {}\n", live.is_empty()));
}

/// Writes a list of all classes before and after removals.
pub fn write_removals(alloc: Global, out: &mut Report) -> Result<(), RegAllocError> {
    let mut live = VRegSet::with_capacity(alloc, 3090)?;
    live.insert(vreg(10));
    live.insert(vreg(2000));
    live.insert(VReg::new(11, RegClass::Vector));
    live.insert(VReg::new(199, RegClass::Float));
    live.insert(vreg(23));
    write_list(out, &live);
    live.remove(23);
    live.remove(11);
    live.insert(VReg::new(73, RegClass::Vector));
    write_list(out, &live);
    Ok(())
}

/// Writes a list after all were removed, the last one too, and one was added again; then how often
/// it requested memory.
pub fn write_emptied(alloc: Global, out: &mut Report) -> Result<(), RegAllocError> {
    let counting = Refusing::counting(alloc);
    let mut live = VRegSet::with_capacity(&counting, 3)?;
    let is_new = live.is_empty();
    live.insert(vreg(0));
    live.insert(vreg(2));
    live.insert(vreg(1));
    live.remove(2);
    live.remove(1);
    live.remove(0);
    let is_emptied = live.is_empty();
    live.insert(vreg(2));
    out.row("new and emptied", &(is_new, is_emptied));
    write_list(out, &live);
    out.row("requests", &counting.requests());
    Ok(())
}

/// Writes the indexes and the operands that `walk` yields.
fn write_walk<I: Iterator<Item = (usize, Operand)>>(out: &mut Report, name: &str, walk: I)
    requires can { I.can_next walk }
    requires ends { IsFinite (I.remaining walk) }
{
    out.put(&format_args!("{name}:"));
    for (index, operand) in walk {
        out.put(&format_args!(" {index} {operand};"));
    }
    out.words("\n");
}

/// Writes what each filter selects.
pub fn write_picks(out: &mut Report) {
    let list = [
        Operand::reg_reuse_def(VReg::new(0, RegClass::Int), 1),
        Operand::reg_use(VReg::new(1, RegClass::Int)),
        Operand::reg_fixed_use_at_end(VReg::new(2, RegClass::Int), PReg::new(3, RegClass::Int)),
    ];
    let operands = Operands::new(&list);
    write_walk(out, "def_ops", operands.def_ops());
    write_walk(out, "use_ops", operands.use_ops());
    write_walk(out, "reuse", operands.reuse());
    write_walk(out, "fixed", operands.fixed());
    write_walk(out, "any_reg", operands.any_reg());
    write_walk(out, "late", operands.late());
    write_walk(out, "early", operands.early());
    let others = operands.matches(|operand| operand.vreg().vreg() != 1);
    write_walk(out, "matches", others)
}
