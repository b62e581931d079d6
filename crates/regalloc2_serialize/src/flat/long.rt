//! 64-bit numbers as two words, the lower half first.

ghost use Rattle.std.specs.Prelude.{◌≡◌, ◌+◌, ◌*◌, ◌^◌};
ghost use Rattle.regalloc2_serialize.specs.Flat.Flat.{words_of_long};

/// The number of bits of a word.
const WORD_BITS: u32 = 32;

/// The bits of the lower half.
const LOWER_HALF: u64 = 0xffff_ffff;

/// Returns the halves of `number`, the lower one first.
pub fn halves(number: u64) -> [u32; 2]
    ensures { result ≡ words_of_long number }
{
    [(number & LOWER_HALF) as u32, (number >> WORD_BITS) as u32]
}

/// Returns the number with the halves `low` and `high`.
pub(crate) fn from_halves(low: u32, high: u32) -> u64
    ensures { result ≡ low + high * 2 ^ 32 }
{
    (u64::from(high) << WORD_BITS) + u64::from(low)
}
