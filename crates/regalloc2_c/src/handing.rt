//! Hands out a result: a status, words if there is room for them, and how many there are.

ghost use Rattle.std.specs.Prelude.{◌≡◌, ◌≤◌, Err, length};
ghost use Rattle.regalloc2_c.specs.Handing.{IsHandedOut, IsWrittenOut};

use super::failure::{Failure, number_of};
use super::payload::{words_of_misfit, words_of_refusal};

/// Writes `words` to the beginning of `out` and returns `status`; if there is no room for them, writes nothing and
/// returns the number of `NoRoom`. Sets `needed` to the length of `words`.
fn give(status: u32, words: &[u32], out: &mut [u32], needed: &mut usize) -> u32
    ensures needed { needed.new ≡ length words.now }
    ensures given { IsWrittenOut status words.now out.old out.new result }
{
    let count = words.len();
    *needed = count;
    if count > out.len() {
        return number_of(&Failure::NoRoom);
    }
    out[..count].copy_from_slice(words);
    status
}

/// Hands out `failure`: its number, and the words that say what it is about.
fn hand_out_failure(failure: Failure, out: &mut [u32], needed: &mut usize) -> u32
    ensures status { result ≤ 31 }
    ensures handed { IsHandedOut (Err failure) out.old out.new needed.new result }
{
    let status = number_of(&failure);
    match &failure {
        Failure::BadMachine(misfit) => give(status, &words_of_misfit(*misfit), out, needed),
        Failure::Faults(words) => give(status, words.as_slice(), out, needed),
        Failure::BadText(line, column) => give(status, &[*line, *column], out, needed),
        Failure::Refused(error) => give(status, &words_of_refusal(*error), out, needed),
        _ => give(status, &[], out, needed),
    }
}

/// Hands out `found`: the words of an output, or the words that say what a failure is about.
pub fn hand_out(found: Result<Vec<u32>, Failure>, out: &mut [u32], needed: &mut usize) -> u32
    ensures status { result ≤ 31 }
    ensures handed { IsHandedOut found out.old out.new needed.new result }
{
    match found {
        Ok(words) => give(0, words.as_slice(), out, needed),
        Err(failure) => hand_out_failure(failure, out, needed),
    }
}
