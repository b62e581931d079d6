//! Invalid definitions and uses.

use crate::explain::cause::{Site, VRegCause};
use crate::explain::stored::{operands_at, range_of};
use crate::named::{list_at, operand_of, vreg_of};
use regalloc2_index::Inst;
use regalloc2_names::VReg;
use regalloc2_serialize::StoredFunction;

/// The first two definitions of a vreg number, of any class.
#[derive(Clone, Copy)]
struct Definitions {
    first: Option<(Site, VReg)>,
    second: Option<(Site, VReg)>,
}

impl Definitions {
    /// Records a definition of `vreg` at `site`.
    fn note(&mut self, site: Site, vreg: VReg) {
        if self.first.is_none() {
            self.first = Some((site, vreg));
        } else if self.second.is_none() {
            self.second = Some((site, vreg));
        }
    }

    /// Records the parameters of a block that have the vreg number `number`.
    fn note_params(&mut self, function: &StoredFunction, block: usize, number: usize) {
        for bits in list_at(function.block_params_in.as_slice(), block) {
            if let Some(vreg) = vreg_of(*bits) {
                if vreg.vreg() == number {
                    self.note(Site::Block(block), vreg);
                }
            }
        }
    }

    /// Records an instruction's definitions of the vreg number `number`.
    fn note_inst(&mut self, function: &StoredFunction, inst: usize, number: usize) {
        for (k, bits) in operands_at(function, inst).iter().enumerate() {
            if let Some(operand) = operand_of(*bits) {
                if operand.is_def() && operand.vreg().vreg() == number {
                    self.note(Site::Operand(inst, k), operand.vreg());
                }
            }
        }
    }

    /// Records the definitions of the vreg number `number` in a block.
    fn note_block(&mut self, function: &StoredFunction, block: usize, number: usize) {
        self.note_params(function, block, number);
        let (first, end) = range_of(function, block);
        for inst in first..end.min(function.insts.len()) {
            self.note_inst(function, inst, number);
        }
    }
}

/// Returns the first two definitions of the vreg number `number`.
fn definitions_of(function: &StoredFunction, number: usize) -> Definitions {
    let mut definitions = Definitions {
        first: None,
        second: None,
    };
    for block in 0..function.blocks.len() {
        definitions.note_block(function, block, number);
    }
    definitions
}

/// Returns whether `bits` encode an operand that reads `vreg`.
fn reads(bits: u64, vreg: VReg) -> bool {
    match operand_of(bits) {
        Some(operand) => operand.is_reading() && operand.vreg() == vreg,
        None => false,
    }
}

/// Returns the operand of `inst` that reads `vreg`, or the instruction.
fn read_site(function: &StoredFunction, vreg: VReg, inst: Inst) -> Site {
    let number = inst.index();
    for (k, bits) in operands_at(function, number).iter().enumerate() {
        if reads(*bits, vreg) {
            return Site::Operand(number, k);
        }
    }
    Site::Inst(number)
}

/// Returns the cause of `SSA` for `vreg` at `inst`, the site, and another definition or the only definition, if there
/// is any.
pub(crate) fn ssa_cause(
    function: &StoredFunction,
    vreg: VReg,
    inst: Inst,
) -> (VRegCause, Site, Option<Site>) {
    let Definitions { first, second } = definitions_of(function, vreg.vreg());
    if let (Some((before, _)), Some((again, vreg))) = (first, second) {
        return (VRegCause::DefinedTwice { vreg }, again, Some(before));
    }
    let read = read_site(function, vreg, inst);
    let Some((site, defined)) = first else {
        return (VRegCause::Undefined { vreg }, read, None);
    };
    let count = function.num_vregs;
    if vreg.vreg() as u64 >= count {
        return (VRegCause::PastCount { vreg, count }, site, None);
    }
    if defined != vreg {
        return (VRegCause::OtherClass { vreg, defined }, read, Some(site));
    }
    (VRegCause::UsedEarly { vreg }, read, Some(site))
}
