//! The tests of columns, in their order.

ghost use Rattle.std.specs.Prelude.{◌≡◌, ℕ, ◌↔◌, ◌+◌, ◌-◌, ◌*◌, ◌/◌, ◌%◌, ◌<◌, ◌≤◌, ◌^◌, IsTrue, All, IfOk, IfErr, length, slice_index};
ghost use Rattle.regalloc2_names.specs.Packing.{IsRegisterIndex, IsVRegBits, IsOperandBits};
ghost use Rattle.regalloc2_serialize.specs.Flat.Columns.Layout.{AreInColumns, int_log, float_log, vector_log, most_log};
ghost use Rattle.regalloc2_serialize.specs.Flat.Columns.Value.{long_at};
ghost use Rattle.regalloc2_serialize.specs.Flat.Columns.Sound.{Covers, AllCovered, AreColumnsWithin, ColumnsNameAll, ColumnsKeepLimits, AreSoundColumns};
ghost use Rattle.regalloc2_serialize.specs.Flat.Columns.Sound.{ColumnsNameRegisters, ColumnsNameVRegs, IsColumnsFault};

use super::cut::{
    ARGUMENT_ENDS, ARGUMENTS, Cut, Header, INST_ENDS, KINDS, LABEL_WORDS, LABELS, MOST_LOG,
    OPERAND_ENDS, OPERANDS, PARAM_ENDS, PARAMS, PRED_ENDS, PREDS, SCRATCH, SLOTS, SUCC_ENDS, SUCCS,
};
use super::kinds::{OPCODES, SET_STEP};
use crate::flat::long::from_halves;
use crate::limits::{BLOCK_LIMIT, INST_LIMIT, VREG_LIMIT};
use crate::validate::{are_blocks, are_vregs};
use regalloc2_function::StoredFault;
use regalloc2_names::{Operand, PReg, VReg};

/// Returns whether `ends` don't fall, and the last one, or 0 where there is none, is `count`.
fn covers(ends: &[u32], count: u32) -> bool
    ensures { IsTrue result ↔ Covers ends.now count }
{
    let mut at = 0;
    for end in ends {
        if *end < at {
            return false;
        }
        at = *end;
    }
    at == count
}

/// Returns whether the number of the set of clobbers in each of `kinds` is at most `count`.
fn are_set_numbers(kinds: &[u32], count: u32) -> bool
    ensures { IsTrue result ↔ All (λ k. k / 4 ≤ count) kinds.now }
{
    kinds.iter().all(|kind| *kind / SET_STEP <= count)
}

/// Returns whether each of `kinds` says what an instruction is.
fn are_kinds(kinds: &[u32]) -> bool
    ensures { IsTrue result ↔ All (λ k. k % 4 < 3) kinds.now }
{
    kinds.iter().all(|kind| *kind % SET_STEP < OPCODES)
}

/// Returns whether `word` is 0 or one more than an index of a register.
fn is_scratch_word(word: u32) -> bool
    ensures { IsTrue result ↔ (word ≤ 192) }
{
    match word.checked_sub(1) {
        Some(index) => PReg::is_index(index as usize),
        None => true,
    }
}

/// Returns whether each of `words` is 0 or one more than an index of a register.
fn are_scratch_words(words: &[u32]) -> bool
    ensures { IsTrue result ↔ All (λ r. r ≤ 192) words.now }
{
    words.iter().all(|word| is_scratch_word(*word))
}

/// Returns whether `words` are indexes of registers.
fn are_register_words(words: &[u32]) -> bool
    ensures { IsTrue result ↔ All IsRegisterIndex words.now }
{
    words.iter().all(|word| PReg::is_index(*word as usize))
}

/// Returns the 64-bit number in the two words from `words[2 * k]` on, the lower half first.
pub fn long(words: &[u32], k: usize) -> u64
    requires { 2 * k + 1 < length words.now }
    ensures { result ≡ long_at words.now k }
{
    from_halves(words[2 * k], words[2 * k + 1])
}

/// Returns whether `words` encode `count` operands, two words each.
fn are_operand_words(words: &[u32], count: usize) -> bool
    requires { length words.now ≡ 2 * count }
    ensures { IsTrue result ↔ ((k : ℕ) → k < count → IsOperandBits (long_at words.now k)) }
{
    for k in 0..count {
        if !Operand::is_bits(long(words, k)) {
            return false;
        }
    }
    true
}

/// Returns whether the number of the vreg of each of `count` labels is below `vregs`. A label is four words.
fn are_labels_below(words: &[u32], count: usize, vregs: u32) -> bool
    requires { length words.now ≡ 4 * count }
    ensures { IsTrue result ↔ ((k : ℕ) → k < count → slice_index words.now (4 * k) / 4 < vregs) }
{
    for k in 0..count {
        if VReg::number_of_bits(words[LABEL_WORDS * k]) >= vregs {
            return false;
        }
    }
    true
}

/// Returns whether the first word of each of `count` labels encodes a vreg. A label is four words.
fn are_labels_of_vregs(words: &[u32], count: usize) -> bool
    requires { length words.now ≡ 4 * count }
    ensures { IsTrue result ↔ ((k : ℕ) → k < count → IsVRegBits (slice_index words.now (4 * k))) }
{
    for k in 0..count {
        if !VReg::is_bits(words[LABEL_WORDS * k]) {
            return false;
        }
    }
    true
}

impl Header {
    /// Returns whether the limits of each function are kept.
    fn keeps_limits(self) -> bool
        ensures { IsTrue result ↔ (self.insts < 2 ^ 30) × (self.blocks < 2 ^ 32 - 1) × (self.vregs < 2 ^ 30) × (int_log self.sizes ≤ most_log)
            × (float_log self.sizes ≤ most_log) × (vector_log self.sizes ≤ most_log) }
    {
        (self.insts as usize) < INST_LIMIT
            && (self.blocks as usize) < BLOCK_LIMIT
            && (self.vregs as usize) < VREG_LIMIT
            && self.int_log() <= MOST_LOG
            && self.float_log() <= MOST_LOG
            && self.vector_log() <= MOST_LOG
    }
}

impl<'a> Cut<'a> {
    /// Returns whether ends don't fall, and their last ones are the lengths of columns.
    fn is_covered(&self) -> bool
        ensures { IsTrue result ↔ AllCovered self.now.words.now }
    {
        let header = self.header();
        covers(self.column(OPERAND_ENDS), header.operands)
            && covers(self.column(INST_ENDS), header.insts)
            && covers(self.column(PRED_ENDS), header.preds)
            && covers(self.column(SUCC_ENDS), header.edges)
            && covers(self.column(PARAM_ENDS), header.params)
            && covers(self.column(ARGUMENT_ENDS), header.arguments)
    }

    /// Returns whether blocks, sets of clobbers and labelled vregs are in range.
    fn is_within(&self) -> bool
        ensures { IsTrue result ↔ AreColumnsWithin self.now.words.now }
    {
        let header = self.header();
        if header.entry >= header.blocks {
            return false;
        }
        if !are_blocks(self.column(PREDS), header.blocks as usize) {
            return false;
        }
        if !are_blocks(self.column(SUCCS), header.blocks as usize) {
            return false;
        }
        if !are_set_numbers(self.column(KINDS), header.sets) {
            return false;
        }
        are_labels_below(self.column(LABELS), header.labels as usize, header.vregs)
    }

    /// Returns whether the machine's numbers are indexes of registers.
    fn names_registers(&self) -> bool
        ensures { IsTrue result ↔ ColumnsNameRegisters self.now.words.now }
    {
        are_scratch_words(self.column(SCRATCH)) && are_register_words(self.column(SLOTS))
    }

    /// Returns whether the numbers of parameters, arguments and labels encode vregs.
    fn names_vregs(&self) -> bool
        ensures { IsTrue result ↔ ColumnsNameVRegs self.now.words.now }
    {
        if !are_vregs(self.column(PARAMS)) {
            return false;
        }
        if !are_vregs(self.column(ARGUMENTS)) {
            return false;
        }
        are_labels_of_vregs(self.column(LABELS), self.header().labels as usize)
    }

    /// Returns whether each number that should be a name is one.
    fn names_all(&self) -> bool
        ensures { IsTrue result ↔ ColumnsNameAll self.now.words.now }
    {
        if !self.names_registers() {
            return false;
        }
        if !are_kinds(self.column(KINDS)) {
            return false;
        }
        if !are_operand_words(self.column(OPERANDS), self.header().operands as usize) {
            return false;
        }
        self.names_vregs()
    }

    /// Returns whether the limits of each function are kept.
    fn is_limited(&self) -> bool
        ensures { IsTrue result ↔ ColumnsKeepLimits self.now.words.now }
    {
        self.header().keeps_limits()
    }

    /// Tests the columns. Allocates nothing.
    pub fn test(&self) -> Result<(), StoredFault>
        requires { AreInColumns self.now.words.now }
        ensures ok { IfOk result (λ _. AreSoundColumns self.now.words.now) }
        ensures refused { IfErr result (λ e. IsColumnsFault self.now.words.now e) }
    {
        if !self.is_covered() {
            return Err(StoredFault::Lengths);
        }
        if !self.is_within() {
            return Err(StoredFault::Index);
        }
        if !self.names_all() {
            return Err(StoredFault::Bits);
        }
        if !self.is_limited() {
            return Err(StoredFault::Limit);
        }
        Ok(())
    }
}
