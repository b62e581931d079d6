//! Numbers as words.

ghost use Rattle.std.specs.Prelude.{◌≡◌};
ghost use Rattle.regalloc2_c.specs.Payload.{as_word};

/// The word of what isn't named.
pub const NONE: u32 = 0xffff_ffff;

/// Returns `number` as a word; [`NONE`] if it is no smaller than that.
pub fn word_of(number: usize) -> u32
    ensures { result ≡ as_word number }
{
    if number < 0xffff_ffff {
        number as u32
    } else {
        NONE
    }
}
