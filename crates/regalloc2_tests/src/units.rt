//! What the parts of the library return, a line for each row of a table.

mod columns;
mod indexes;
mod names;
pub mod parts;
pub mod report;
mod rewriting;
mod sets;

use report::Report;
use std::alloc::{AllocError, Global};
use std::io::{self, Write};

/// Makes all rows. `stored` is a function and an output, each as JSON.
fn report_of(alloc: Global, stored: (&str, &str)) -> Result<Report, AllocError> {
    let mut report = Report::new(alloc);
    columns::write_all(alloc, &mut report)?;
    rewriting::write_all(alloc, &mut report);
    indexes::write_all(alloc, &mut report)?;
    names::write_all(&mut report);
    sets::write_all(alloc, &mut report)?;
    parts::write_all(alloc, &mut report)?;
    parts::refused::write_all(alloc, stored, &mut report);
    Ok(report)
}

/// Writes all rows. `stored` is a function and an output, each as JSON.
pub fn write_all<W: Write>(alloc: Global, stored: (&str, &str), out: &mut W) -> io::Result<()> {
    report_of(alloc, stored)?.print(out)
}
