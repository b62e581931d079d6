//! Runs cases, and reports their results.

use super::case_file::{Case, Expectation, cases_of};
use super::command::{write_compiler, write_program};
use regalloc2_text::explain::Source;
use regalloc2_text::{Text, TextError};
use regalloc2_tool::calls::call::{Call, CallError, Given, perform_call};
use regalloc2_tool::calls::reading::read_text;
use std::alloc::{AllocError, Global};
use std::fmt;
use std::io::{self, Write};

/// How many files were run, and how many of their calls passed and failed.
#[derive(Clone, Copy, Debug, Default)]
pub struct Tally {
    files: u64,
    passed: u64,
    failed: u64,
}

impl Tally {
    /// Returns whether no call failed.
    pub fn has_passed(&self) -> bool {
        self.failed == 0
    }

    /// Counts a call, which passed if `has_passed`.
    fn count(&mut self, has_passed: bool) {
        if has_passed {
            self.passed = self.passed.saturating_add(1);
        } else {
            self.failed = self.failed.saturating_add(1);
        }
    }
}

/// As `15 files, 58 calls passed, 0 failed`.
impl fmt::Display for Tally {
    fn fmt<W: fmt::Write>(&self, f: &mut fmt::Formatter<W>) -> fmt::Result {
        let Tally {
            files,
            passed,
            failed,
        } = self;
        write!(f, "{files} files, {passed} calls passed, {failed} failed")
    }
}

/// What was expected or returned at one place of a result.
#[derive(Clone, Copy)]
struct Shown<'a>(Option<&'a str>);

/// The line in quotes, or that the result has ended.
impl fmt::Display for Shown<'_> {
    fn fmt<W: fmt::Write>(&self, f: &mut fmt::Formatter<W>) -> fmt::Result {
        match self.0 {
            Some(line) => write!(f, "`{line}`"),
            None => write!(f, "no more lines"),
        }
    }
}

/// Performs `call` with what `text` gives, and writes the result.
fn write_answer(
    alloc: Global,
    call: Call,
    text: &Text,
    source: Option<Source<'_>>,
    to: &mut Vec<u8>,
) -> Result<(), CallError> {
    let given = Given {
        function: &text.function,
        output: text.output.as_ref(),
        source,
    };
    let mut err = Vec::new(alloc);
    perform_call(alloc, call, &given, to, &mut err)?;
    Ok(to.extend_from_slice(err.as_slice())?)
}

/// Performs `call` with the function in the text of `case`, and writes the result or what is wrong with the text.
fn write_call(
    alloc: Global,
    call: Call,
    case: &Case<'_>,
    source: Option<Source<'_>>,
    to: &mut Vec<u8>,
) -> Result<(), CallError> {
    match read_text(alloc, case.text.as_str(), case.first_line) {
        Ok(text) => write_answer(alloc, call, &text, source, to),
        Err(TextError::Fault(fault)) => Ok(writeln!(to, "bad text {fault}")?),
        Err(TextError::Memory) => Err(CallError::Memory),
    }
}

/// Returns the call that `name` names, and the text of `case` if the name ends in ` why`: then what is rejected or
/// found is explained.
fn call_of<'t>(case: &'t Case<'_>, name: &str) -> (Option<Call>, Option<Source<'t>>) {
    let Some(word) = name.strip_suffix(" why") else {
        return (Call::named(name), None);
    };
    let source = Source {
        name: Some(""),
        text: case.text.as_str(),
        first_line: case.first_line,
    };
    (Call::named(word), Some(source))
}

/// Writes the result of the call `name` of `case`: what is written, followed by the text's error.
///
/// A name that begins with `ra2_text` is this program's command line; `before` is the text of the case before. A name
/// that begins with `compile` is this program's command line, in which the file is left out.
fn write_result(
    alloc: Global,
    case: &Case<'_>,
    before: &str,
    name: &str,
    to: &mut Vec<u8>,
) -> Result<(), CallError> {
    if name.starts_with("ra2_text") {
        return write_program(alloc, name, case.text.as_str(), before, to);
    }
    if let Some(words) = name.strip_prefix("compile") {
        return write_compiler(alloc, words.trim_start(), case.text.as_str(), to);
    }
    match call_of(case, name) {
        (Some(call), source) => write_call(alloc, call, case, source, to),
        (None, _) => Ok(to.extend_from_slice(b"no such call\n")?),
    }
}

/// Returns the result `came` without its blank lines.
fn without_blank_lines(alloc: Global, came: &str) -> Result<String, AllocError> {
    let mut shown = String::new(alloc);
    for line in came.lines() {
        if !line.is_empty() {
            shown.push_str(line)?;
            shown.push('\n')?;
        }
    }
    Ok(shown)
}

/// Returns the first line at which the result `came` differs from `wanted`: the expected line and the actual one.
fn first_difference<'a>(wanted: &[&'a str], came: &'a str) -> Option<(Shown<'a>, Shown<'a>)> {
    let mut lines = came.lines();
    for line in wanted {
        let next = lines.next();
        if !next.is_some_and(|text| text == *line) {
            return Some((Shown(Some(*line)), Shown(next)));
        }
    }
    let next = lines.next()?;
    Some((Shown(None), Shown(Some(next))))
}

/// Returns the result of the call `name` of `case`, without its blank lines.
fn result_of(
    alloc: Global,
    case: &Case<'_>,
    before: &str,
    name: &str,
) -> Result<String, CallError> {
    let mut bytes = Vec::new(alloc);
    write_result(alloc, case, before, name, &mut bytes)?;
    let came = String::from_utf8_lossy(alloc, bytes.as_slice())?;
    Ok(without_blank_lines(alloc, came.as_str())?)
}

/// Writes that a call's result has the line `got` where `wanted` has `want`.
fn write_difference<O: Write>(
    path: &str,
    title: &str,
    wanted: &Expectation<'_>,
    (want, got): (Shown<'_>, Shown<'_>),
    out: &mut O,
) -> io::Result<()> {
    let (line, call) = (wanted.line, wanted.call);
    writeln!(
        out,
        "{path}:{line}: {title}: {call}\n  wanted {want}\n  got    {got}"
    )
}

/// Runs the call `wanted` of `case`, and writes how its result differs from the expected one. Returns whether it is
/// the same.
fn run_call<O: Write>(
    alloc: Global,
    path: &str,
    case: &Case<'_>,
    before: &str,
    wanted: &Expectation<'_>,
    out: &mut O,
) -> Result<bool, CallError> {
    let shown = result_of(alloc, case, before, wanted.call)?;
    match first_difference(wanted.answer.as_slice(), shown.as_str()) {
        Some(differing) => {
            write_difference(path, case.title, wanted, differing, out)?;
            Ok(false)
        }
        None => Ok(true),
    }
}

/// Runs the calls of `case`, and counts them in `tally`.
fn run_case<O: Write>(
    alloc: Global,
    path: &str,
    case: &Case<'_>,
    before: &str,
    tally: &mut Tally,
    out: &mut O,
) -> Result<(), CallError> {
    for wanted in case.calls.iter() {
        tally.count(run_call(alloc, path, case, before, wanted, out)?);
    }
    Ok(())
}

/// Runs the cases of `text`, the file with the path `path`, writes what differs, and counts the file and its calls in
/// `tally`.
///
/// For each call whose result differs the first such line is written, expected and actual, under the file, the line
/// of the call, the title of its case and its name.
pub fn run_file<O: Write>(
    alloc: Global,
    path: &str,
    text: &str,
    tally: &mut Tally,
    out: &mut O,
) -> Result<(), CallError> {
    let cases = cases_of(alloc, text)?;
    let mut before = "";
    for case in cases.iter() {
        run_case(alloc, path, case, before, tally, out)?;
        before = case.text.as_str();
    }
    tally.files = tally.files.saturating_add(1);
    Ok(())
}
