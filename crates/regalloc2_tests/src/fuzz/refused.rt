//! Makes each memory allocation of `ra2` fail in turn.
//!
//! `serde_json` takes its memory from `Global` alone, so its requests don't fail. All others do: requests
//! to read the input, to make the stored numbers and what they name, and requests of the allocator and
//! the checker.

use super::asked::{LACKS, ask};
use super::whole_text;
use crate::test_alloc::Refusing;
use std::alloc::Global;
use std::io::{self, Write};

/// Returns whether some memory allocation can fail, and each failure ends in a line that says so, which is then
/// marked in `met`.
fn is_each_told(global: Global, words: &str, text: &[u8], met: &mut [bool; 5]) -> Option<bool> {
    let ample = ask(global, &Refusing::counting(global), words, text)?;
    for nth in 1..10_000u64 {
        let alloc = Refusing::new(global, nth);
        let answer = ask(global, &alloc, words, text)?;
        if !alloc.has_refused() {
            return Some(nth > 1 && answer == ample);
        }
        let place = answer.lack(&ample)?;
        if let Some(mark) = met.get_mut(place) {
            *mark = true;
        }
    }
    None
}

/// Returns for how many whole texts of `lines` each failed allocation is reported, and for how many it isn't; marks
/// in `met` the lines that say so.
fn told_and_untold(global: Global, lines: &str, met: &mut [bool; 5]) -> (u32, u32) {
    let (mut told, mut untold) = (0u32, 0u32);
    for line in lines.lines() {
        let Some((words, text)) = whole_text(line) else {
            continue;
        };
        match is_each_told(global, words, text.as_bytes(), met) {
            Some(true) => told = told.saturating_add(1),
            _ => untold = untold.saturating_add(1),
        }
    }
    (told, untold)
}

/// Writes of each line of [`LACKS`] whether it is marked in `met`.
fn show_met<W: Write>(met: [bool; 5], out: &mut W) -> io::Result<()> {
    for at in 0..met.len() {
        let word = if met[at] { "met" } else { "NOT MET" };
        write!(out, "{word}: {}", LACKS[at])?;
    }
    Ok(())
}

/// Writes for how many whole texts of `lines` each failed allocation is reported, for how many it isn't, and of each
/// line of [`LACKS`] whether it is met.
pub fn show_refused<W: Write>(global: Global, lines: &str, out: &mut W) -> io::Result<()> {
    let mut met = [false; 5];
    let (told, untold) = told_and_untold(global, lines, &mut met);
    writeln!(
        out,
        "each refused request is told for {told} texts, and isn't for {untold}"
    )?;
    show_met(met, out)
}
