//! The moves before each instruction, and the places of its operands.

ghost use Rattle.std.specs.Prelude.{◌≡◌, ◌<◌, length, get_or};
ghost use Rattle.regalloc2_function.specs.OutputValue.{OffsetsInOrder, allocs_of};
ghost use Rattle.regalloc2_checker.specs.Listing.{AreParts, edits_in, listed_output};
ghost use Rattle.regalloc2_checker.specs.declared.listing.Listed.{Listed};

use regalloc2_function::Edit;
use regalloc2_index::Inst;
use regalloc2_names::{Allocation, ProgPoint};

/// The range of the moves before an instruction, in an output's edits.
#[derive(Clone, Copy)]
pub struct Listed {
    pub from: usize,
    pub end: usize,
}

/// An output's edits and places, with the range of edits before each instruction and the index of its first place.
#[derive(Clone, Copy)]
pub struct Listing<'a> {
    pub edits: &'a [(ProgPoint, Edit)],
    pub listed: &'a [Listed],
    pub allocs: &'a [Allocation],
    pub offsets: &'a [u32],
}

impl<'a> Listing<'a> {
    /// Returns the moves before `inst`, as the output has them.
    #[inline(always)]
    pub fn moves(&self, inst: Inst) -> &'a [(ProgPoint, Edit)]
        requires inst { inst < length self.now.listed.now }
        requires parts { AreParts self.now.edits.now self.now.listed.now }
        ensures { (d : Listed) → result.now ≡ edits_in self.now.edits.now (get_or self.now.listed.now inst d) }
    {
        let listed = self.listed[inst.index()];
        &self.edits[listed.from..listed.end]
    }

    /// Returns the places of the operands of `inst`, as the output has them.
    #[inline(always)]
    pub fn places(&self, inst: Inst) -> &'a [Allocation]
        requires inst { inst < length self.now.offsets.now }
        requires in_order { OffsetsInOrder (listed_output self.now) }
        ensures { result.now ≡ allocs_of (listed_output self.now) inst }
    {
        let index = inst.index();
        let start = self.offsets[index] as usize;
        let end = if index + 1 == self.offsets.len() {
            self.allocs.len()
        } else {
            self.offsets[index + 1] as usize
        };
        &self.allocs[start..end]
    }
}
