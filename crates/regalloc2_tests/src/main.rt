//! `regalloc2_tests`: runs files of cases, or all tests.
//!
//! An argument is a folder, whose files `*.case` are run, by name. The program prints each call whose result isn't the
//! expected one, and then how many files there are and how many calls passed and failed.
//!
//! Without an argument, the cases of the current folder are followed by calls of the library's parts, the allocator,
//! the checker, `ra2` and the code generator that no case file can make, with their results. The file `stdout` has the
//! expected output. The current folder also has the files that [`TestFiles`] lists. Randomly generated functions, from
//! fixed seeds, have up to twelve blocks, operands of every kind but `Limit`, and registers enough for each of their
//! instructions, most of which require all registers; on no path is a value read before it is written.
//!
//! The status is 0, or 1 where a call of a case failed, or 2 where a file can't be read, the output can't be written or
//! memory runs out.
#![tactic(auto)]

mod adversary;
mod calls;
mod cases;
mod fuzz;
mod graph;
mod instructions;
mod large;
mod maker;
mod prepared;
mod program;
mod random;
mod refusing;
mod rows;
mod single_calls;
mod test_alloc;
mod texts;
mod units;

use cases::{Tally, run_folder};
use codegen::program::agrees_at_random;
use maker::Maker;
use regalloc2::{Function, MachineEnv, allocate, is_framed, run_tested};
use regalloc2_analysis::liveness::decided_by_tree;
use regalloc2_tool::calls::call::CallError;
use std::alloc::{AllocError, Global};
use std::env::{self, Env};
use std::fs;
use std::io::{self, BufWriter, Write};
use std::process::ExitCode;
use units::report::Report;

/// Returns the words of the command line `line`.
fn words_of(alloc: Global, line: &str) -> Result<Vec<String>, AllocError> {
    let mut words = Vec::new(alloc);
    for word in line.split_whitespace() {
        words.push(String::from_str(alloc, word)?)?;
    }
    Ok(words)
}

/// Returns whether registers are allocated to `f`, and the checker accepts the output.
fn is_accepted<F: Function>(alloc: Global, f: &F, env: &MachineEnv) -> bool {
    allocate(alloc, f, env).is_ok()
}

/// Returns whether `f` reads nothing unwritten, by the dominator tree.
fn is_by_tree<F: Function>(alloc: Global, f: &F) -> bool {
    is_framed(f) && matches!(decided_by_tree(alloc, f), Ok(Some(true)))
}

/// Returns whether `f` passes all tests and is allocated.
fn is_tested<F: Function>(alloc: Global, f: &F, env: &MachineEnv) -> bool {
    run_tested(alloc, f, env).is_ok()
}

/// Returns whether `f` passes all tests, reads nothing unwritten, by the dominator tree, and gets an output that the
/// checker accepts.
fn is_right<F: Function>(alloc: Global, f: &F, env: &MachineEnv) -> bool {
    let is_accepted = is_accepted(alloc, f, env);
    let is_by_tree = is_by_tree(alloc, f);
    is_accepted && is_by_tree && is_tested(alloc, f, env)
}

/// Returns [`is_right`] of the function of `seed`.
fn is_seed_right(alloc: Global, seed: u64) -> Option<bool> {
    let mut maker = Maker::new(alloc, seed)?;
    let f = maker.function()?;
    Some(is_right(alloc, &f, &maker.env))
}

/// Returns how many of `count` randomly generated functions fail.
fn failures(alloc: Global, count: u64) -> usize {
    let mut failed = 0usize;
    for seed in 0..count {
        if is_seed_right(alloc, seed) != Some(true) {
            failed = failed.saturating_add(1);
        }
    }
    failed
}

/// Returns how many of `count` randomly generated modules over whole numbers end as their code does.
fn agreeing(alloc: Global, count: u64) -> usize {
    let mut agreeing = 0usize;
    for seed in 0..count {
        if agrees_at_random(alloc, seed) == Some(true) {
            agreeing = agreeing.saturating_add(1);
        }
    }
    agreeing
}

/// Writes what the allocator and the checker return.
fn write_calls(alloc: Global, out: &mut Report) -> Result<(), AllocError> {
    out.row("tables", &rows::tables(alloc));
    out.row("slots and refusals", &rows::slots_and_refusals(alloc));
    out.row("order", &rows::order_to_nowhere(alloc));
    out.row("held by a context", &rows::held(alloc));
    out.row("verdicts", &rows::verdicts(alloc));
    prepared::write_all(alloc, out)?;
    single_calls::write_all(alloc, out);
    out.row("2^32 - 2^15 operands", &adversary::lend(alloc, 131_071));
    out.row("2^32 operands", &adversary::lend(alloc, 131_072));
    out.row("failures of 3000 functions", &failures(alloc, 3000));
    out.row("large functions", &large::sizes(alloc));
    Ok(())
}

/// Writes what `ra2` returns.
fn write_program(alloc: Global, out: &mut Report) {
    out.row("no words are refused", &program::no_words(alloc));
    out.row(
        "cut texts that aren't refused",
        &program::accepted_cuts(alloc),
    );
    out.row("bytes that aren't refused", &program::accepted_bytes(alloc));
    out.row(
        "failed reads that aren't refused",
        &program::unreported_failed_reads(alloc),
    );
    out.row(
        "writes that each end it, up to five",
        &program::writes_up_to_five(alloc),
    );
    out.row("a failed flush", &program::failed_flush(alloc));
    out.row("a shut error stream", &program::shut_error_stream(alloc));
}

/// Writes what the allocator, the checker and `ra2` return.
fn show_rows<W: Write>(alloc: Global, out: &mut W) -> io::Result<()> {
    let mut report = Report::new(alloc);
    write_calls(alloc, &mut report)?;
    write_program(alloc, &mut report);
    report.print(out)
}

/// The texts of the files that the tests read in the current folder.
#[derive(Drop)]
struct TestFiles {
    /// A function as JSON: `stored_function.json`.
    function: String,
    /// An output as JSON: `stored_output.json`.
    output: String,
    /// A title and a function as JSON for each part of the table of failed allocations: `failed_allocations.txt`.
    failed_allocations: String,
    /// Texts for `ra2`, as [`fuzz`] describes them: `ra2_texts.txt`.
    ra2: String,
}

impl TestFiles {
    /// Reads the files.
    fn read(rt: &HostRuntime) -> io::Result<TestFiles> {
        Ok(TestFiles {
            function: fs::read_to_string(rt, "stored_function.json")?,
            output: fs::read_to_string(rt, "stored_output.json")?,
            failed_allocations: fs::read_to_string(rt, "failed_allocations.txt")?,
            ra2: fs::read_to_string(rt, "ra2_texts.txt")?,
        })
    }
}

/// Writes the results of all tests but the cases on `files`.
fn show_all<W: Write>(alloc: Global, files: &TestFiles, out: &mut W) -> io::Result<()> {
    let stored = (files.function.as_str(), files.output.as_str());
    units::write_all(alloc, stored, out)?;
    show_rows(alloc, out)?;
    refusing::show_all(alloc, files.failed_allocations.as_str(), out)?;
    let count = agreeing(alloc, 200);
    writeln!(out, "{count} of 200 modules and their codes end alike")?;
    fuzz::show_fuzz(alloc, files.ra2.as_str(), out)
}

/// Runs the cases of a folder, or else all tests.
fn run<O: Write>(rt: &HostRuntime, out: &mut O) -> Result<Tally, CallError> {
    let folder = env::args(rt)?.nth(1);
    let tally = run_folder(rt, folder.as_deref().unwrap_or("."), out)?;
    if folder.is_none() {
        show_all(rt.alloc(), &TestFiles::read(rt)?, out)?;
    }
    out.flush()?;
    Ok(tally)
}

/// Runs what is requested, and prints.
fn run_and_print(rt: &HostRuntime) -> Result<Tally, CallError> {
    let mut out = BufWriter::new(rt.alloc(), rt.stdout())?;
    let tally = run(rt, &mut out);
    // a buffer that is dropped would write once more what a failed write left in it
    let _ = out.into_parts();
    tally
}

fn main(rt: HostRuntime) -> ExitCode {
    match run_and_print(&rt) {
        Ok(tally) => ExitCode::from(if tally.has_passed() { 0 } else { 1 }),
        Err(error) => {
            let _ = eprintln!(rt; "regalloc2_tests: {error}");
            ExitCode::from(2)
        }
    }
}
