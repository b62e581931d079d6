//! Gives `ra2` texts that no user would write, and reports its results.
//!
//! Each line of the input is a text, behind the arguments that `ra2` gets, with `+` between them. A
//! text `~OLD~NEW` is the last whole one with OLD replaced by NEW; a line that begins with `#` is a
//! title. Then come deep and large texts, and randomly changed copies of all whole ones, from a
//! fixed seed. Last, with each whole text, each memory allocation of `ra2` fails in turn.

ghost use Rattle.std.specs.Prelude.{◌<◌};

mod asked;
mod changed;
mod refused;

use super::random::Random;
use crate::test_alloc::Refusing;
use asked::{Answer, ask};
use changed::changed;
use refused::show_refused;
use std::alloc::{AllocError, Global};
use std::io::{self, Write};

/// How many changed copies each whole text gets.
const COPIES: u32 = 300;

/// Returns the text that a line gives as `text`: itself, or `whole` with a part replaced.
fn text_of(alloc: Global, whole: &str, text: &str) -> Result<String, AllocError> {
    let Some(change) = text.strip_prefix('~') else {
        return String::from_str(alloc, text);
    };
    let Some((old, new)) = change.split_once('~') else {
        return String::from_str(alloc, text);
    };
    match whole.split_once(old) {
        Some((before, after)) => format!(in alloc; "{before}{new}{after}"),
        None => String::from_str(alloc, "the whole text has no such part"),
    }
}

/// Writes the result of `ra2` with the arguments `words` for `text`.
fn show<W: Write>(alloc: Global, words: &str, text: &str, out: &mut W) -> io::Result<()> {
    match ask(alloc, &Refusing::counting(alloc), words, text.as_bytes()) {
        Some(answer) => write!(out, "{answer}"),
        None => writeln!(out, "out of memory"),
    }
}

/// Returns the last whole text up to `line`; up to the line before it was `before`.
fn whole_after<'a>(line: &'a str, before: &'a str) -> &'a str {
    match line.split_once(' ') {
        Some((words, text)) if words != "#" && !text.starts_with('~') => text,
        _ => before,
    }
}

/// Writes `line`, if it is a title, or the result for its text.
fn show_line<W: Write>(alloc: Global, whole: &str, line: &str, out: &mut W) -> io::Result<()> {
    let Some((words, text)) = line.split_once(' ') else {
        return Ok(());
    };
    if words == "#" {
        return writeln!(out, "{line}");
    }
    show(alloc, words, &text_of(alloc, whole, text)?, out)
}

/// Writes the result for the text of each of `lines`.
fn show_all<W: Write>(alloc: Global, lines: &str, out: &mut W) -> io::Result<()> {
    let mut whole = "";
    for line in lines.lines() {
        whole = whole_after(line, whole);
        show_line(alloc, whole, line, out)?;
    }
    Ok(())
}

/// A text that is deep or large: a part and how often it stands there, what is before and behind it, and whether the
/// members of a function come after that.
type Large = (&'static str, u32, &'static str, &'static str, bool);

/// Deep and large texts. The last three have a function, two of them behind a member that isn't read.
static LARGE: [Large; 5] = [
    ("[", 100_000, "", "", false),
    ("{\"a\":", 100_000, "", "", false),
    ("          ", 3_000_000, "", "{", true),
    ("0,0,0,0,0,", 1_000_000, "{\"a\":[", "0],", true),
    ("aaaaaaaaaa", 3_000_000, "{\"a\":\"", "\",", true),
];

/// Returns the text `large`, followed by `members` if it has members.
fn large_text(alloc: Global, large: Large, members: &str) -> Result<String, AllocError> {
    let (part, count, before, behind, has_members) = large;
    let mut text = String::from_str(alloc, before)?;
    for _ in 0..count {
        text.push_str(part)?;
    }
    text.push_str(behind)?;
    text.push_str(if has_members { members } else { "" })?;
    Ok(text)
}

/// Writes the results for texts that are deep or large; `function` is a function as JSON.
fn show_all_large<W: Write>(alloc: Global, function: &str, out: &mut W) -> io::Result<()> {
    let members = function.strip_prefix('{').unwrap_or("");
    for large in &LARGE {
        writeln!(out, "# {} times {}", large.1, large.0)?;
        show(alloc, "run", &large_text(alloc, *large, members)?, out)?;
    }
    Ok(())
}

/// How many results had each status, and how many broke a rule or had no memory.
type Counts = [u32; 4];

/// Returns the index at which `answer` is counted.
fn place_of(answer: Option<Answer>) -> usize
    ensures { result < 4 }
{
    match answer {
        Some(answer) if answer.keeps_rules() => answer.status as usize % 3,
        _ => 3,
    }
}

/// Counts in `counts` the results for changed copies of `text`.
fn count(alloc: Global, random: &mut Random, words: &str, text: &str, counts: &mut Counts) {
    for _ in 0..COPIES {
        let answer = changed(alloc, random, text.as_bytes()).and_then(|text| ask(
            alloc,
            &Refusing::counting(alloc),
            words,
            text.as_slice(),
        ));
        let place = place_of(answer);
        counts[place] = counts[place].saturating_add(1);
    }
}

/// Returns the words and the text of `line`, if it has a whole text.
fn whole_text(line: &str) -> Option<(&str, &str)> {
    let (words, text) = line.split_once(' ')?;
    if text.starts_with('{') || text.starts_with("[{") {
        Some((words, text))
    } else {
        None
    }
}

/// Returns the text of the first of `lines` that is run.
fn first_function(lines: &str) -> &str {
    for line in lines.lines() {
        if let Some(text) = line.strip_prefix("run ") {
            return text;
        }
    }
    ""
}

/// Counts the results for changed copies of all whole texts of `lines`.
fn fuzz(alloc: Global, lines: &str) -> Counts {
    let mut counts = [0u32; 4];
    let mut random = Random::new(2026);
    for line in lines.lines() {
        if let Some((words, text)) = whole_text(line) {
            count(alloc, &mut random, words, text, &mut counts);
        }
    }
    counts
}

/// Writes the results for the text of each of `lines`, for deep and large texts, how often each came for changed
/// texts, and the results for failed allocations.
pub fn show_fuzz<W: Write>(alloc: Global, lines: &str, out: &mut W) -> io::Result<()> {
    show_all(alloc, lines, out)?;
    show_all_large(alloc, first_function(lines), out)?;
    let [done, refused, unusable, broken] = fuzz(alloc, lines);
    let ran = done
        .saturating_add(refused)
        .saturating_add(unusable)
        .saturating_add(broken);
    writeln!(
        out,
        "{ran} changed texts ran: {done} of status 0, {refused} of 1, {unusable} of 2; {broken} crashed or broke a rule"
    )?;
    show_refused(alloc, lines, out)
}
