//! The words that say what a failure is about.

ghost use Rattle.std.specs.Prelude.{◌≡◌, ◌∷◌, []};
ghost use Rattle.regalloc2_names.specs.Register.{class_code};
ghost use Rattle.regalloc2_names.specs.RegisterBits.{bits_of_register};
ghost use Rattle.regalloc2_c.specs.Payload.{misfit_words, none, refusal_payload};

use super::words::NONE;
use regalloc2::{PReg, RegAllocError, RegClass};
use regalloc2_function::MachineMisfit;

/// Returns the words of the condition `number` for the register `reg` of `class`.
fn words_with_register(number: u32, class: RegClass, reg: PReg) -> [u32; 3]
    ensures { result ≡ number ∷ class_code class ∷ bits_of_register reg ∷ [] }
{
    [number, class.code() as u32, reg.index() as u32]
}

/// Returns the words of the condition `number` for `class`.
fn words_with_class(number: u32, class: RegClass) -> [u32; 3]
    ensures { result ≡ number ∷ class_code class ∷ none ∷ [] }
{
    [number, class.code() as u32, NONE]
}

/// Returns the words of the condition `misfit` of a machine: its number, its class and its register.
pub fn words_of_misfit(misfit: MachineMisfit) -> [u32; 3]
    ensures { result ≡ misfit_words misfit }
{
    match misfit {
        MachineMisfit::InvalidSlot => [1, NONE, NONE],
        MachineMisfit::OtherClass(class, reg) => words_with_register(2, class, reg),
        MachineMisfit::ListedTwice(class, reg) => words_with_register(3, class, reg),
        MachineMisfit::InvalidRegister(class) => words_with_class(4, class),
        MachineMisfit::ScratchOfOtherClass(class, reg) => words_with_register(5, class, reg),
        MachineMisfit::ScratchAllocatable(class, reg) => words_with_register(6, class, reg),
        MachineMisfit::InvalidScratch(class) => words_with_class(7, class),
        MachineMisfit::SlotAllocatable(class, reg) => words_with_register(8, class, reg),
        MachineMisfit::SlotIsScratch(class, reg) => words_with_register(9, class, reg),
        MachineMisfit::NoRegister(class) => words_with_class(10, class),
    }
}

/// Returns the two blocks, the instruction and the vreg that `error` names.
pub fn words_of_refusal(error: RegAllocError) -> [u32; 4]
    ensures { result ≡ refusal_payload error }
{
    match error {
        RegAllocError::CritEdge(from, to) => [from.0, to.0, NONE, NONE],
        RegAllocError::SSA(vreg, inst) => [NONE, NONE, inst.0, vreg.bits() as u32],
        RegAllocError::BB(block) => [block.0, NONE, NONE, NONE],
        RegAllocError::Branch(inst)
        | RegAllocError::DisallowedBranchArg(inst)
        | RegAllocError::Unsupported(inst) => [NONE, NONE, inst.0, NONE],
        RegAllocError::EntryLivein
        | RegAllocError::TooManyLiveRegs
        | RegAllocError::TooManyOperands
        | RegAllocError::TooManySpillSlots
        | RegAllocError::Memory => [NONE; 4],
    }
}
