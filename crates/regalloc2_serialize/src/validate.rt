//! The tests of stored functions, each over plain data.

ghost use Rattle.std.specs.Prelude.{◌≡◌, ◌↔◌, ◌<◌, ◌/◌, IsTrue, All, IfSome, length, map};
ghost use Rattle.regalloc2_names.specs.Packing.{IsRegisterIndex, IsVRegBits, IsOperandBits};
ghost use Rattle.regalloc2_function.specs.FunctionValue.{IsSlotSize};
ghost use Rattle.regalloc2_serialize.specs.Validity.{HasThreeClasses, HasAllOfEachBlock, HasLengths, IsRangeWithin, AreNumbersWithin, NamesOperands};
ghost use Rattle.regalloc2_serialize.specs.Validity.{NamesRegisters, NamesVRegs, NamesAll, KeepsLimits};

use super::data::{StoredFunction, StoredInst, StoredMachine};
use super::limits::{BLOCK_LIMIT, INST_LIMIT, LARGEST_SLOT, VREG_LIMIT};
use regalloc2_names::{Operand, PReg, VReg};
use std::alloc::Allocator;

impl<A: Allocator> StoredMachine<A> {
    /// Returns whether lists by class have three members.
    fn has_three_classes(&self) -> bool
        ensures { IsTrue result ↔ HasThreeClasses self.now }
    {
        self.preferred_regs_by_class.len() == 3
            && self.non_preferred_regs_by_class.len() == 3
            && self.scratch_by_class.len() == 3
    }

    /// Returns whether each number is an index of a register.
    fn names_registers(&self) -> bool
        ensures { IsTrue result ↔ NamesRegisters self.now }
    {
        are_lists_of_registers(self.preferred_regs_by_class.as_slice())
            && are_lists_of_registers(self.non_preferred_regs_by_class.as_slice())
            && are_scratch_registers(self.scratch_by_class.as_slice())
            && are_registers(self.fixed_stack_slots.as_slice())
    }
}

impl<A: Allocator> StoredFunction<A> {
    /// Returns whether the lists by block are equally long, as are each block's successors and arguments.
    fn has_all_of_each_block(&self) -> bool
        ensures { IsTrue result ↔ HasAllOfEachBlock self.now }
    {
        let count = self.blocks.len();
        if self.block_preds.len() != count {
            return false;
        }
        if self.block_succs.len() != count {
            return false;
        }
        if self.block_params_in.len() != count {
            return false;
        }
        are_as_long(
            self.block_params_out.as_slice(),
            self.block_succs.as_slice(),
        )
    }

    /// Returns whether lists are of the lengths that they should have.
    pub(crate) fn has_equal_lengths(&self) -> bool
        ensures { IsTrue result ↔ HasLengths self.now }
    {
        self.has_all_of_each_block()
            && self.machine_env.has_three_classes()
            && self.spillslot_size.len() == 3
    }

    /// Returns whether blocks, instructions and labelled vregs are in range.
    pub(crate) fn is_within(&self) -> bool
        ensures { IsTrue result ↔ AreNumbersWithin self.now }
    {
        let count = self.blocks.len();
        if self.entry_block as usize >= count {
            return false;
        }
        if !are_lists_of_blocks(self.block_preds.as_slice(), count) {
            return false;
        }
        if !are_lists_of_blocks(self.block_succs.as_slice(), count) {
            return false;
        }
        if !are_ranges(self.blocks.as_slice(), self.insts.len()) {
            return false;
        }
        are_labels_below(self.debug_value_labels.as_slice(), self.num_vregs)
    }

    /// Returns whether the numbers of parameters, arguments and labels encode vregs.
    fn names_vregs(&self) -> bool
        ensures { IsTrue result ↔ NamesVRegs self.now }
    {
        if !are_lists_of_vregs(self.block_params_in.as_slice()) {
            return false;
        }
        if !are_arguments(self.block_params_out.as_slice()) {
            return false;
        }
        are_labels(self.debug_value_labels.as_slice())
    }

    /// Returns whether each number that should name a register, a vreg or an operand does.
    pub(crate) fn names_all(&self) -> bool
        ensures { IsTrue result ↔ NamesAll self.now }
    {
        if !self.machine_env.names_registers() {
            return false;
        }
        if !are_insts(self.insts.as_slice()) {
            return false;
        }
        self.names_vregs()
    }

    /// Returns whether the limits of each function are kept.
    pub(crate) fn keeps_limits(&self) -> bool
        ensures { IsTrue result ↔ KeepsLimits self.now }
    {
        self.insts.len() < INST_LIMIT
            && self.blocks.len() < BLOCK_LIMIT
            && self.num_vregs < VREG_LIMIT as u64
            && are_slot_sizes(self.spillslot_size.as_slice())
    }
}

/// Returns whether each of `lists` is as long as its counterpart among `others`.
fn are_as_long<A: Allocator>(lists: &[Vec<Vec<u32, A>, A>], others: &[Vec<u32, A>]) -> bool
    ensures { IsTrue result ↔ (map (λ l. length l.items) lists.now ≡ map (λ l. length l.items) others.now) }
{
    if lists.len() != others.len() {
        return false;
    }
    for i in 0..lists.len() {
        if lists[i].len() != others[i].len() {
            return false;
        }
    }
    true
}

/// Returns whether `words` are numbers of blocks, of which there are `count`.
pub(crate) fn are_blocks(words: &[u32], count: usize) -> bool
    ensures { IsTrue result ↔ All (λ b. b < count) words.now }
{
    words.iter().all(|word| (*word as usize) < count)
}

/// Returns whether `lists` are of numbers of blocks, of which there are `count`.
fn are_lists_of_blocks<A: Allocator>(lists: &[Vec<u32, A>], count: usize) -> bool
    ensures { IsTrue result ↔ All (λ l. All (λ b. b < count) l.items) lists.now }
{
    for list in lists {
        if !are_blocks(list.as_slice(), count) {
            return false;
        }
    }
    true
}

/// Returns whether `ranges` don't fall and end within `count` instructions.
fn are_ranges(ranges: &[(u32, u32)], count: usize) -> bool
    ensures { IsTrue result ↔ All (IsRangeWithin count) ranges.now }
{
    ranges
        .iter()
        .all(|range| range.0 <= range.1 && range.1 as usize <= count)
}

/// Returns whether the number of each labelled vreg is below `num_vregs`.
fn are_labels_below(labels: &[(u32, u32, u32, u32)], num_vregs: u64) -> bool
    ensures { IsTrue result ↔ All (λ l. l.0 / 4 < num_vregs) labels.now }
{
    labels.iter().all(|label| u64::from(VReg::number_of_bits(label.0)) < num_vregs)
}

/// Returns whether `indexes` are indexes of registers.
fn are_registers(indexes: &[u8]) -> bool
    ensures { IsTrue result ↔ All IsRegisterIndex indexes.now }
{
    indexes
        .iter()
        .all(|index| PReg::is_index(usize::from(*index)))
}

/// Returns whether `lists` are of indexes of registers.
fn are_lists_of_registers<A: Allocator>(lists: &[Vec<u8, A>]) -> bool
    ensures { IsTrue result ↔ All (λ l. All IsRegisterIndex l.items) lists.now }
{
    for list in lists {
        if !are_registers(list.as_slice()) {
            return false;
        }
    }
    true
}

/// Returns whether `index` is `None` or an index of a register.
fn is_scratch_register(index: Option<u8>) -> bool
    ensures { IsTrue result ↔ IfSome index IsRegisterIndex }
{
    match index {
        Some(index) => PReg::is_index(usize::from(index)),
        None => true,
    }
}

/// Returns whether each of `indexes` is `None` or an index of a register.
fn are_scratch_registers(indexes: &[Option<u8>]) -> bool
    ensures { IsTrue result ↔ All (λ o. IfSome o IsRegisterIndex) indexes.now }
{
    indexes.iter().all(|index| is_scratch_register(*index))
}

/// Returns whether `words` encode operands.
fn are_operands(words: &[u64]) -> bool
    ensures { IsTrue result ↔ All IsOperandBits words.now }
{
    words.iter().all(|word| Operand::is_bits(*word))
}

impl<A: Allocator> StoredInst<A> {
    /// Returns whether the numbers of operands encode operands, and the numbers of clobbers are indexes of registers.
    fn names_operands(&self) -> bool
        ensures { IsTrue result ↔ NamesOperands self.now }
    {
        are_operands(self.operands.as_slice()) && are_registers(self.clobbers.as_slice())
    }
}

/// Returns whether the numbers of each of `insts` name operands and registers.
fn are_insts<A: Allocator>(insts: &[StoredInst<A>]) -> bool
    ensures { IsTrue result ↔ All (λ i. NamesOperands i) insts.now }
{
    for inst in insts {
        if !inst.names_operands() {
            return false;
        }
    }
    true
}

/// Returns whether `words` encode vregs.
pub(crate) fn are_vregs(words: &[u32]) -> bool
    ensures { IsTrue result ↔ All IsVRegBits words.now }
{
    words.iter().all(|word| VReg::is_bits(*word))
}

/// Returns whether the words of each of `lists` encode vregs.
fn are_lists_of_vregs<A: Allocator>(lists: &[Vec<u32, A>]) -> bool
    ensures { IsTrue result ↔ All (λ l. All IsVRegBits l.items) lists.now }
{
    for list in lists {
        if !are_vregs(list.as_slice()) {
            return false;
        }
    }
    true
}

/// Returns whether the words of each list in `lists` encode vregs.
fn are_arguments<A: Allocator>(lists: &[Vec<Vec<u32, A>, A>]) -> bool
    ensures { IsTrue result ↔ All (λ l. All (λ k. All IsVRegBits k.items) l.items) lists.now }
{
    for list in lists {
        if !are_lists_of_vregs(list.as_slice()) {
            return false;
        }
    }
    true
}

/// Returns whether the first word of each of `labels` encodes a vreg.
fn are_labels(labels: &[(u32, u32, u32, u32)]) -> bool
    ensures { IsTrue result ↔ All (λ l. IsVRegBits l.0) labels.now }
{
    labels.iter().all(|label| VReg::is_bits(label.0))
}

/// Returns whether `size` is a power of two from 1 to 2^24.
fn is_slot_size(size: u64) -> bool
    ensures { IsTrue result ↔ IsSlotSize size }
{
    1 <= size && size <= LARGEST_SLOT as u64 && size.is_power_of_two()
}

/// Returns whether `sizes` are powers of two from 1 to 2^24.
fn are_slot_sizes(sizes: &[u64]) -> bool
    ensures { IsTrue result ↔ All IsSlotSize sizes.now }
{
    sizes.iter().all(|size| is_slot_size(*size))
}
