//! Runs the files of cases in a folder, and reports where a result isn't the expected one.

mod case_file;
mod command;
mod program;

pub use program::Tally;
use program::run_file;
use regalloc2_tool::calls::call::CallError;
use std::alloc::{AllocError, Global};
use std::fs;
use std::io::Write;
use std::rt::Runtime;

/// Adds the path of the file `name` of `folder` to `paths`, if it has cases.
fn add_path(
    alloc: Global,
    folder: &str,
    name: &str,
    paths: &mut Vec<String>,
) -> Result<(), AllocError> {
    if name.ends_with(".case") {
        paths.push(format!(in alloc; "{folder}/{name}")?)?;
    }
    Ok(())
}

/// Adds the paths of the files of cases of `folder` to `paths`.
fn add_paths<R: Runtime + AllocGlobal>(
    rt: &R,
    folder: &str,
    paths: &mut Vec<String>,
) -> Result<(), CallError> {
    for entry in fs::read_dir(rt, folder)? {
        add_path(rt.alloc(), folder, entry?.file_name(), paths)?;
    }
    Ok(())
}

/// Returns the paths of the files of cases of `folder`, sorted.
fn case_paths<R: Runtime + AllocGlobal>(rt: &R, folder: &str) -> Result<Vec<String>, CallError> {
    let mut paths = Vec::new(rt.alloc());
    add_paths(rt, folder, &mut paths)?;
    paths.sort()?;
    Ok(paths)
}

/// Runs the files with the paths `paths`, and counts them in `tally`.
fn run_paths<R: Runtime + AllocGlobal, O: Write>(
    rt: &R,
    paths: &[String],
    tally: &mut Tally,
    out: &mut O,
) -> Result<(), CallError> {
    for path in paths {
        let text = fs::read_to_string(rt, path.as_str())?;
        run_file(rt.alloc(), path.as_str(), text.as_str(), tally, out)?;
    }
    Ok(())
}

/// Runs the files `*.case` of `folder`, by name.
///
/// Writes what differs, and then how many files there are and how many calls passed and failed.
pub fn run_folder<R: Runtime + AllocGlobal, O: Write>(
    rt: &R,
    folder: &str,
    out: &mut O,
) -> Result<Tally, CallError> {
    let mut tally = Tally::default();
    run_paths(rt, case_paths(rt, folder)?.as_slice(), &mut tally, out)?;
    writeln!(out, "{tally}")?;
    Ok(tally)
}
