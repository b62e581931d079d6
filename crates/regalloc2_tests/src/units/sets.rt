//! Sets of registers, and sparse sets of numbers.

use crate::test_alloc::Refusing;
use crate::units::report::Report;
use regalloc2_function::indexset::{IndexSet, SetBitsIter};
use regalloc2_names::{CLASSES, PReg, PRegSet, RegClass};
use std::alloc::{AllocError, Allocator, Global};

/// Writes what sets return.
pub fn write_all(alloc: Global, out: &mut Report) -> Result<(), AllocError> {
    write_changes(alloc, out)?;
    write_counts(out);
    write_ranges(out);
    let refusing = Refusing::new(alloc, 1);
    write_inline(out, &refusing, &mut IndexSet::new(&refusing))?;
    let ample = Refusing::counting(alloc);
    write_left(out, &ample, &Refusing::new(alloc, 1), true)?;
    write_left(out, &ample, &Refusing::new(alloc, 1), false)?;
    write_members(out, &mut IndexSet::new(alloc), &mut IndexSet::new(alloc))
}

/// Writes `sets` with the results of all their queries.
fn write_sets(out: &mut Report, sets: &[(&str, PRegSet)]) {
    for (name, set) in sets {
        out.put(&format_args!("{name}: {set}\n"));
        let (int, float) = (set.is_empty(RegClass::Int), set.is_empty(RegClass::Float));
        let vector = set.is_empty(RegClass::Vector);
        out.row("is", &(set.len(), set.max_preg(), int, float, vector));
    }
}

/// Writes sets that others are changed to, and what walks of one give: by reference its last register, by value how
/// many.
fn write_changes(alloc: Global, out: &mut Report) -> Result<(), AllocError> {
    let (p4, p5) = (PReg::new(4, RegClass::Int), PReg::new(5, RegClass::Int));
    let list = [p4, PReg::new(3, RegClass::Vector), p4];
    let set: PRegSet = list.iter().copied().collect(alloc)?;
    let mut less = set;
    less.remove(p4);
    let mut both = less;
    both.union_from(PRegSet::empty().with(p4));
    let mut common = both;
    common.intersect_from(less);
    let mut low = PRegSet::empty().with(p5);
    low.add_up_to(PReg::new(3, RegClass::Int));
    let sets = [
        ("none", PRegSet::default()),
        ("collected", set),
        ("removed", less),
        ("union", both),
        ("intersection", common),
        ("and", both & less),
        ("or", less | set),
        ("less", set.difference(PRegSet::empty().with(p4))),
        ("up to", low),
    ];
    write_sets(out, &sets);
    out.row("inverse of none", &PRegSet::empty().invert().len());
    out.row("walked", &((&set).into_iter().last(), count_of(set)));
    Ok(())
}

/// Returns how many registers a walk of `set` yields.
fn count_of(set: PRegSet) -> u32 {
    let mut count = 0u32;
    for p in set {
        count = count.wrapping_add(u32::from(set.contains(p)));
    }
    count
}

/// Writes how many registers a set has and which is the greatest, as it grows.
fn write_counts(out: &mut Report) {
    let mut set = PRegSet::empty();
    for number in [3, 3, 4, 2] {
        set.add(PReg::new(number, RegClass::Int));
        write_sets(out, &[("added", set)]);
    }
}

/// Writes, for each class, of how many registers' ranges the first register, the one before and the register itself is.
fn write_ranges(out: &mut Report) {
    for class in &CLASSES {
        let class = *class;
        let (mut first, mut before, mut own) = (0u32, 0u32, 0u32);
        for number in 0..64usize {
            let p = PReg::new(number, class);
            let mut set = PRegSet::empty();
            set.add_up_to(p);
            first = first.wrapping_add(u32::from(set.contains(PReg::new(0, class))));
            own = own.wrapping_add(u32::from(set.contains(p)));
            if number > 0 && set.contains(PReg::new(number - 1, class)) {
                before = before.wrapping_add(1);
            }
        }
        out.row("up to each", &(class, first, before, own));
    }
}

/// Returns how many members `set` has, and their sum.
pub fn count_and_sum<A: Allocator + Copy>(set: &IndexSet<A>) -> (usize, usize) {
    let (mut count, mut sum) = (0usize, 0usize);
    for number in set.iter() {
        count = count.wrapping_add(1);
        sum = sum.wrapping_add(number);
    }
    (count, sum)
}

/// Adds the first `count` multiples of `of` to `set`, 0 the first of them, each taken below 2^20.
pub fn add_multiples<A: Allocator + Copy>(
    set: &mut IndexSet<A>,
    of: usize,
    count: usize,
) -> Result<(), AllocError> {
    for multiple in 0..count {
        set.set(of.wrapping_mul(multiple) % 1_048_576, true)?;
    }
    Ok(())
}

/// Writes `set`, which is empty, as it stays within its twelve words, where the first allocation fails, and then goes
/// past them.
fn write_inline<A: Allocator + Copy>(
    out: &mut Report,
    refusing: &Refusing<Global>,
    set: &mut IndexSet<A>,
) -> Result<(), AllocError> {
    add_multiples(set, 64, 12)?;
    set.set(64 * 5, false)?;
    set.set(64 * 100, true)?;
    let row = (count_and_sum(set), refusing.has_refused());
    out.row("twelve words", &row);
    let is_refused = set.set(64 * 200, true).is_err();
    let row = (is_refused, count_and_sum(set));
    out.row("the thirteenth refused", &row);
    set.set(64 * 200, true)?;
    out.row("thirteen", &(count_and_sum(set), set.get(64 * 200)));
    Ok(())
}

/// Writes what is left of `set`, which is empty, if a member is added, and then `other` is assigned to it if
/// `assigns`, else added, and an allocation fails. Of a union, the words for which there is room are left.
fn write_left_in<A: Allocator + Copy>(
    out: &mut Report,
    other: &IndexSet<A>,
    set: &mut IndexSet<A>,
    assigns: bool,
) -> Result<(), AllocError> {
    set.set(7, true)?;
    let is_refused = if assigns {
        set.assign(other).is_err()
    } else {
        set.union_with(other).is_err()
    };
    out.row("left", &(is_refused, count_and_sum(set)));
    Ok(())
}

/// Writes what is left of a set of one member if a set of 40 words is assigned to it if `assigns`, else added, and an
/// allocation of its own allocator fails.
fn write_left<'a>(
    out: &mut Report,
    ample: &'a Refusing<Global>,
    short: &'a Refusing<Global>,
    assigns: bool,
) -> Result<(), AllocError> {
    let mut other = IndexSet::new(ample);
    add_multiples(&mut other, 64, 40)?;
    write_left_in(out, &other, &mut IndexSet::new(short), assigns)
}

/// Writes the multiples of 17, which are added to `set`, their union with `small`, and the bits of a word.
fn write_members<A: Allocator + Copy>(
    out: &mut Report,
    set: &mut IndexSet<A>,
    small: &mut IndexSet<A>,
) -> Result<(), AllocError> {
    add_multiples(set, 17, 61)?;
    let row = (count_and_sum(set), set.get(17), set.get(18));
    out.row("multiples of 17", &row);
    small.set(17, true)?;
    let added = (small.union_with(set).ok(), small.union_with(set).ok());
    out.row("added", &(added, count_and_sum(small)));
    for bit in SetBitsIter::new(1 << 63 | 0b101) {
        out.row("bit", &bit);
    }
    Ok(())
}
