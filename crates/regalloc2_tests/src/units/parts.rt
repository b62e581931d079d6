//! Lrus of registers, lists of live vregs, operand filters, move resolvers and the moves of calls.

mod calls;
mod listed;
pub mod refused;
mod resolver;
mod structures;

use crate::units::report::Report;
use std::alloc::{AllocError, Global};

/// Writes what lrus of registers, lists of live vregs, operand filters, move resolvers and calls
/// with moves return.
pub fn write_all(alloc: Global, out: &mut Report) -> Result<(), AllocError> {
    structures::write_rings(alloc, out);
    // A list that can't be made leaves its rows out.
    let _ = structures::write_removals(alloc, out);
    let _ = structures::write_emptied(alloc, out);
    structures::write_picks(out);
    listed::write_resolved(alloc, out);
    listed::write_left(alloc, out);
    resolver::write_computed(alloc, out);
    calls::write_scheduled(alloc, out)?;
    calls::write_refused(alloc, out)?;
    calls::write_long(alloc, out)
}
