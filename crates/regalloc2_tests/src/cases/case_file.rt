//! The cases of a file: each a text, and calls with the results that they must give.

use std::alloc::{AllocError, Global};

/// A call of a case, and the result that it must give.
#[derive(Drop)]
pub struct Expectation<'t> {
    /// The number of the call's line in the file, from 1.
    pub line: usize,
    /// The name of the call.
    pub call: &'t str,
    /// The lines of the result, without comments, blank lines and blanks at their ends.
    pub answer: Vec<&'t str>,
}

/// A text with its calls.
#[derive(Drop)]
pub struct Case<'t> {
    /// The title, `untitled` before the first one.
    pub title: &'t str,
    /// The number of the text's first line in the file, from 1.
    pub first_line: usize,
    /// The text.
    pub text: String,
    /// The calls.
    pub calls: Vec<Expectation<'t>>,
}

/// Returns `line` without its comment, which begins with `# `, and the blanks before it.
fn without_comment(line: &str) -> &str {
    let shown = line.split_once("# ").map_or(line, |(front, _)| front);
    shown.trim_end()
}

impl<'t> Expectation<'t> {
    /// Adds `line` to the result.
    fn add(&mut self, line: &'t str) -> Result<(), AllocError> {
        let shown = without_comment(line);
        if !shown.is_empty() {
            self.answer.push(shown)?;
        }
        Ok(())
    }
}

impl<'t> Case<'t> {
    /// A case of no lines yet.
    fn new(alloc: Global, title: &'t str, first_line: usize) -> Case<'t> {
        Case {
            title,
            first_line,
            text: String::new(alloc),
            calls: Vec::new(alloc),
        }
    }

    /// Adds `call`, of line `line`, with no result yet.
    fn add_call(&mut self, alloc: Global, line: usize, call: &'t str) -> Result<(), AllocError> {
        let answer = Vec::new(alloc);
        self.calls.push(Expectation { line, call, answer })?;
        Ok(())
    }

    /// Adds `line`, with the number `number`, which begins no case: a call, a line of the last call's result, or a
    /// line of the text.
    fn add(&mut self, alloc: Global, number: usize, line: &'t str) -> Result<(), AllocError> {
        if let Some(call) = line.strip_prefix("== ") {
            return self.add_call(alloc, number, call.trim());
        }
        if let Some(expectation) = self.calls.last_mut() {
            return expectation.add(line);
        }
        self.text.push_str(line)?;
        self.text.push('\n')
    }
}

/// Adds `line`, with the number `number`, to `cases`: it begins a case, or belongs to the last one.
fn take<'t>(
    alloc: Global,
    number: usize,
    line: &'t str,
    cases: &mut Vec<Case<'t>>,
) -> Result<(), AllocError> {
    if let Some(title) = line.strip_prefix("=== ") {
        cases.push(Case::new(alloc, title.trim(), number.saturating_add(1)))?;
        return Ok(());
    }
    match cases.last_mut() {
        Some(case) => case.add(alloc, number, line),
        None => Ok(()),
    }
}

/// Returns the cases of `file`.
///
/// The lines before the first title are a case, too; if they are comments alone, it has no calls.
pub fn cases_of<'t>(alloc: Global, file: &'t str) -> Result<Vec<Case<'t>>, AllocError> {
    let mut cases = vec![in alloc; Case::new(alloc, "untitled", 1)]?;
    let mut next = 1usize;
    for line in file.lines() {
        take(alloc, next, line, &mut cases)?;
        next = next.saturating_add(1);
    }
    Ok(cases)
}
