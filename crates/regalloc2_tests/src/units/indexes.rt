//! Numbers of instructions and blocks, ranges of instructions, and the allocator that fails one
//! request.

ghost use Rattle.std.specs.Iterator.{IsFinite};

use crate::test_alloc::Refusing;
use crate::units::report::Report;
use regalloc2_index::{Block, ContainerComparator, Inst, InstRange};
use std::alloc::{AllocError, Allocator, Global};
use std::cmp::Ordering;
use std::collections::BTreeMap;

/// Writes what numbers and ranges return, and what calls do when each of their allocations fails in
/// turn.
pub fn write_all(alloc: Global, out: &mut Report) -> Result<(), AllocError> {
    write_numbers(out);
    write_ranges(out);
    write_refusals(alloc, out);
    write_requests(alloc, out)
}

/// The blocks by falling number.
struct Falling;

impl ContainerComparator for Falling {
    type Ix = Block;

    fn compare(&self, a: Block, b: Block) -> Ordering {
        b.cmp(&a)
    }
}

/// Returns the lower of `a` and `b` by `order`.
fn lower<C: ContainerComparator>(order: &C, a: C::Ix, b: C::Ix) -> C::Ix {
    match order.compare(a, b) {
        Ordering::Greater => b,
        _ => a,
    }
}

/// Writes numbers with the numbers beside them, the invalid ones, and the lower of two by an order of one's own.
fn write_numbers(out: &mut Report) {
    let (i, b) = (Inst::new(7), Block::new(7));
    let is = (i.is_valid(), Inst::invalid().is_invalid());
    out.row(
        "inst",
        &(i.next().index(), i.prev().index(), i.raw_u32(), is),
    );
    let is = (b.is_valid(), Block::invalid().is_invalid());
    out.row(
        "block",
        &(b.next().index(), b.prev().index(), b.raw_u32(), is),
    );
    let is_invalid = Inst::new(4294967295) == Inst::invalid();
    out.row("the greatest inst is the invalid one", &is_invalid);
    let low = lower(&Falling, Block::new(3), Block::new(5));
    out.row("lower of falling blocks", &low.index());
}

/// Returns the numbers of `items`, written one after the other in base 10, after a 1.
fn digits<I: Iterator<Item = Inst>>(items: I) -> u64
    requires can { I.can_next items }
    requires ends { IsFinite (I.remaining items) }
{
    let mut sum = 1u64;
    for inst in items {
        sum = sum.wrapping_mul(10).wrapping_add(inst.index() as u64);
    }
    sum
}

/// Writes a range of none and one of five, walked from both ends.
fn write_ranges(out: &mut Report) {
    let none = InstRange::new(Inst::new(0), Inst::new(0));
    let ends = (none.iter().next(), none.iter().next_back());
    out.row("range of none", &(none.len(), ends));
    let five = InstRange::new(Inst::new(0), Inst::new(5));
    let rest = five.rest().first().index();
    let row = (
        five.first().index(),
        five.last().index(),
        five.end().index(),
        rest,
    );
    out.row("range of five", &(five.len(), row));
    let walked = (digits(five.iter()), digits(five.iter().rev()));
    out.row("range walked", &walked);
}

/// Returns the first `n` squares, allocated by any allocator.
fn squares<A: Allocator + Copy>(alloc: A, n: u8) -> Result<Vec<u32, A>, AllocError> {
    let mut all = Vec::new(alloc);
    for i in 0..n {
        all.push(u32::from(i) * u32::from(i))?;
    }
    Ok(all)
}

/// Writes, for each request of two calls, made to fail in turn, and one more, whether each of the
/// calls returns an error, and whether the request was made by then.
fn write_refusals(global: Global, out: &mut Report) {
    for nth in 1..10u64 {
        let alloc = Refusing::new(global, nth);
        let first = (squares(&alloc, 20).is_err(), alloc.has_refused());
        let again = (squares(&alloc, 20).is_err(), alloc.has_refused());
        out.row("squares refused", &(nth, first, again));
    }
}

/// Writes how many requests a call makes, and a map whose first allocation fails.
fn write_requests(global: Global, out: &mut Report) -> Result<(), AllocError> {
    let alloc = Refusing::counting(global);
    let before = alloc.requests();
    let all = squares(&alloc, 20)?;
    out.row(
        "squares counted",
        &(before, all.len(), alloc.requests(), alloc.has_refused()),
    );
    let alloc = Refusing::new(global, 1);
    let mut tree = BTreeMap::new(&alloc);
    let is_err = tree.insert(1u8, 2u8).is_err();
    // whether it is done now its length shows
    let _ = tree.insert(1u8, 2u8);
    out.row("map refused", &(is_err, tree.len()));
    Ok(())
}
