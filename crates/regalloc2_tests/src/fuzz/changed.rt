//! Randomly changed texts.

use super::super::random::Random;
use std::alloc::Global;

/// What changed bytes become, and what is put in.
static BYTES: [u8; 16] = [
    b'[', b']', b'{', b'}', b',', b':', b'"', b'0', b'1', b'9', b'-', b'.', b'e', b' ', b'n', b'\\',
];

/// Returns `text` with the part from `from` to `to`, as far as there is one, replaced by `piece`.
fn replaced(alloc: Global, text: &[u8], from: usize, to: usize, piece: &[u8]) -> Option<Vec<u8>> {
    let mut made = Vec::new(alloc);
    made.extend_from_slice(text.get(..from)?).ok()?;
    made.extend_from_slice(piece).ok()?;
    made.extend_from_slice(text.get(to..).unwrap_or(&[])).ok()?;
    Some(made)
}

/// Returns whether a digit is at `at` of `text`.
fn is_digit(text: &[u8], at: usize) -> bool {
    match text.get(at) {
        Some(byte) => byte.is_ascii_digit(),
        None => false,
    }
}

/// Returns whether a number ends at `at` of `text`.
fn ends_number(text: &[u8], at: usize) -> bool {
    is_digit(text, at) && !is_digit(text, at.saturating_add(1))
}

/// Returns `text` with another last digit of the first number from `at` on.
fn with_other_number(
    alloc: Global,
    random: &mut Random,
    text: &[u8],
    at: usize,
) -> Option<Vec<u8>> {
    for place in at..text.len() {
        if ends_number(text, place) {
            let digit = b'0' + random.below(10) as u8;
            return replaced(alloc, text, place, place.saturating_add(1), &[digit]);
        }
    }
    text.to_vec(alloc).ok()
}

/// Returns `text` with one change: most often of a number's last digit.
///
/// Else a byte is changed, put in or taken out, a part is repeated, or an end is cut off.
fn changed_once(alloc: Global, random: &mut Random, text: &[u8]) -> Option<Vec<u8>> {
    let at = random.below(text.len().max(1));
    let other = random.below(text.len().max(1));
    let byte = [BYTES[random.below(16)]];
    let byte = byte.as_slice();
    match random.below(40) {
        0 => replaced(alloc, text, at, at.saturating_add(1), byte),
        1 => replaced(alloc, text, at, at, byte),
        2 => replaced(alloc, text, at, at.saturating_add(1), &[]),
        3 => replaced(alloc, text, at, at, text.get(at..other).unwrap_or(byte)),
        4 => replaced(alloc, text, at, text.len(), &[]),
        _ => with_other_number(alloc, random, text, at),
    }
}

/// Returns `text` with up to three changes.
pub fn changed(alloc: Global, random: &mut Random, text: &[u8]) -> Option<Vec<u8>> {
    let mut made = changed_once(alloc, random, text)?;
    for _ in 0..random.below(3) {
        made = changed_once(alloc, random, &made)?;
    }
    Some(made)
}
