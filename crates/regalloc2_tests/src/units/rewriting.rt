//! A function with split edges, and with its blocks in another order.

use crate::texts::function_of;
use crate::units::columns::write_function;
use crate::units::report::Report;
use regalloc2_function::Function;
use regalloc2_index::Block;
use regalloc2_serialize::rewrite::{renumber, split_critical_edges};
use std::alloc::Global;

/// A block that goes to itself and to the end: the first of these edges is critical.
const TURNING: &str = "block0:\n  op: Def: v0i reg\n  branch block1(v0i)\n\
    block1(v1i):\n  branch block1(v1i), block2()\n\
    block2:\n  ret: Use: v1i reg\n";

/// Writes `f` with its blocks in `order`.
fn write_renumbered<F: Function>(alloc: Global, f: &F, order: &[Block], out: &mut Report) {
    match renumber(alloc, f, order) {
        Ok(g) => write_function(&g, out),
        Err(fault) => out.row("refused", &fault),
    }
}

/// Writes a function, and renumbered by two orders of its blocks, of which one names a block twice.
fn write_with_orders<F: Function>(alloc: Global, f: &F, out: &mut Report) {
    write_function(f, out);
    let (first, second) = (Block::new(0), Block::new(1));
    let (third, last) = (Block::new(2), Block::new(3));
    write_renumbered(alloc, f, &[first, second, last, third], out);
    write_renumbered(alloc, f, &[first, second, last, last], out);
}

/// Writes `f` with its critical edges split, and the result renumbered.
fn write_split<F: Function>(alloc: Global, f: &F, out: &mut Report) {
    match split_critical_edges(alloc, f) {
        Ok(g) => write_with_orders(alloc, &g, out),
        Err(fault) => out.row("refused", &fault),
    }
}

/// Writes what is made of a function with a critical edge.
pub fn write_all(alloc: Global, out: &mut Report) {
    match function_of(alloc, TURNING) {
        Some(f) => write_split(alloc, &f, out),
        None => out.row("refused", &"no function"),
    }
}
