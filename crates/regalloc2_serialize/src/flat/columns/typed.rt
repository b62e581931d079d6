//! The lists of columns that were tested.

ghost use Rattle.std.specs.Prelude.{◌≡◌, ℕ, ◌+◌, ◌*◌, ◌/◌, ◌%◌, ◌<◌, ◌≤◌, ◌^◌, ◌∷◌, All, IfOk, length, map, slice_index, vec_len};
ghost use Rattle.std.specs.List.{range_with_len};
ghost use Rattle.regalloc2_names.specs.Packing.{IsRegisterIndex, IsVRegBits, IsOperandBits, register_of_bits, operand_of_bits};
ghost use Rattle.regalloc2_function.specs.FunctionValue.{label_of};
ghost use Rattle.regalloc2_serialize.specs.TableFunction.Table.{sizes_of_table};
ghost use Rattle.regalloc2_serialize.specs.Flat.Columns.Layout.{int_log, float_log, vector_log, most_log};
ghost use Rattle.regalloc2_serialize.specs.Flat.Columns.Value.{HasBits, HaveBits, AreNumbered, long_at, longs, label_at};
ghost use Rattle.regalloc2_serialize.specs.Flat.Columns.Value.{scratch_of_word, column_sizes};
ghost use Rattle.regalloc2_serialize.specs.Flat.Columns.Sound.{Covers};

use super::cut::{Header, LABEL_WORDS, SET_WORDS};
use super::pieces::Pieces;
use super::sound::long;
use crate::table_function::SlotUnits;
use regalloc2_index::Inst;
use regalloc2_names::{Operand, PReg, PRegSet, VReg};
use std::alloc::{AllocError, Allocator};

/// Returns the set of the registers whose bits are 1 in the six words `words`.
fn set_of(words: &[u32]) -> PRegSet
    requires { length words.now ≡ 6 }
    ensures { HasBits words.now result }
{
    PRegSet::from_words([long(words, 0), long(words, 1), long(words, 2)])
}

/// Returns the three sets of `words`, six words each.
pub fn class_sets(words: &[u32]) -> [PRegSet; 3]
    requires { length words.now ≡ 18 }
    ensures { HaveBits words.now 3 result }
{
    [
        set_of(&words[..SET_WORDS]),
        set_of(&words[SET_WORDS..2 * SET_WORDS]),
        set_of(&words[2 * SET_WORDS..3 * SET_WORDS]),
    ]
}

/// Returns the `count` sets of `words`, six words each, by their numbers from 1; number 0 is the empty set.
pub fn numbered_sets<A: Allocator>(
    alloc: A,
    words: &[u32],
    count: usize,
) -> Result<Vec<PRegSet, A>, AllocError>
    requires { length words.now ≡ 6 * count }
    ensures { IfOk result (λ sets. AreNumbered words.now count sets.items) }
{
    let mut sets = Vec::with_capacity(alloc, count + 1)?;
    sets.push(PRegSet::empty())?;
    for k in 0..count {
        sets.push(set_of(&words[SET_WORDS * k..SET_WORDS * k + SET_WORDS]))?;
    }
    Ok(sets)
}

/// Returns the scratch register of `word`, which is 0 for none or one more than an index.
fn scratch_of(word: u32) -> Option<PReg>
    requires { word ≤ 192 }
    ensures { result ≡ scratch_of_word word }
{
    word.checked_sub(1)
        .map(|index| PReg::from_index(index as usize))
}

/// Returns the scratch registers of `words`, by class.
pub fn scratches_of(words: &[u32]) -> [Option<PReg>; 3]
    requires three { length words.now ≡ 3 }
    requires words { All (λ r. r ≤ 192) words.now }
    ensures { result ≡ map scratch_of_word words.now }
{
    [
        scratch_of(words[0]),
        scratch_of(words[1]),
        scratch_of(words[2]),
    ]
}

/// Returns the registers with the indexes `words`.
pub fn registers_of<A: Allocator>(alloc: A, words: &[u32]) -> Result<Vec<PReg, A>, AllocError>
    requires { All IsRegisterIndex words.now }
    ensures { IfOk result (λ registers. registers.items ≡ map register_of_bits words.now) }
{
    let mut registers = Vec::with_capacity(alloc, words.len())?;
    for word in words {
        registers.push(PReg::from_index(*word as usize))?;
    }
    Ok(registers)
}

/// Returns the `count` operands of `words`, two words each.
pub fn operands_of<A: Allocator>(
    alloc: A,
    words: &[u32],
    count: usize,
) -> Result<Vec<Operand, A>, AllocError>
    requires count { length words.now ≡ 2 * count }
    requires operands { (k : ℕ) → k < count → IsOperandBits (long_at words.now k) }
    ensures { IfOk result (λ operands. operands.items ≡ map operand_of_bits (longs words.now count)) }
{
    let mut operands = Vec::with_capacity(alloc, count)?;
    for k in 0..count {
        operands.push(Operand::from_bits(long(words, k)))?;
    }
    Ok(operands)
}

/// Returns the `count` labels of `words`, four words each.
pub fn labels_of<A: Allocator>(
    alloc: A,
    words: &[u32],
    count: usize,
) -> Result<Vec<(VReg, Inst, Inst, u32), A>, AllocError>
    requires count { length words.now ≡ 4 * count }
    requires labels { (k : ℕ) → k < count → IsVRegBits (slice_index words.now (4 * k)) }
    ensures { IfOk result (λ labels. map label_of labels.items ≡ map (label_at words.now) (range_with_len 0 count)) }
{
    let mut labels = Vec::with_capacity(alloc, count)?;
    for k in 0..count {
        let vreg = VReg::from_bits(words[LABEL_WORDS * k]);
        let start = Inst::new(words[LABEL_WORDS * k + 1] as usize);
        let end = Inst::new(words[LABEL_WORDS * k + 2] as usize);
        labels.push((vreg, start, end, words[LABEL_WORDS * k + 3]))?;
    }
    Ok(labels)
}

/// Returns the bounds of the parts that end at `ends`.
pub fn bounds_of<A: Allocator>(alloc: A, ends: &[u32]) -> Result<Vec<u32, A>, AllocError>
    ensures { IfOk result (λ bounds. bounds.items ≡ 0 ∷ ends.now) }
{
    let mut bounds = Vec::with_capacity(alloc, ends.len() + 1)?;
    bounds.push(0)?;
    bounds.extend_from_slice(ends)?;
    Ok(bounds)
}

/// Returns the list `items` in parts that end at `ends`.
pub fn pieces_of<T: Drop, A: Allocator>(
    alloc: A,
    items: Vec<T, A>,
    ends: &[u32],
) -> Result<Pieces<T, A>, AllocError>
    requires { Covers ends.now (vec_len items) }
    ensures { IfOk result (λ p. (p.items ≡ items) × (p.bounds.items ≡ 0 ∷ ends.now)) }
{
    let bounds = bounds_of(alloc, ends)?;
    Ok(Pieces { items, bounds })
}

/// Returns the size of a slot with the logarithm `log`.
fn units_of(log: u32) -> SlotUnits
    requires { log ≤ most_log }
    ensures { result.units ≡ 2 ^ log }
{
    SlotUnits { units: 1 << log }
}

/// Returns the sizes of slots for integers, floating-point numbers and vectors, by the logarithms in `header`.
pub fn sizes_of(header: Header) -> (SlotUnits, SlotUnits, SlotUnits)
    requires int { int_log header.sizes ≤ most_log }
    requires float { float_log header.sizes ≤ most_log }
    requires vector { vector_log header.sizes ≤ most_log }
    ensures { sizes_of_table result.0 result.1 result.2 ≡ column_sizes header.sizes }
{
    (
        units_of(header.int_log()),
        units_of(header.float_log()),
        units_of(header.vector_log()),
    )
}
