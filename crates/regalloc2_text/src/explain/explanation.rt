//! Why a function is rejected, with the lines of the text that show it.

use crate::explain::cause::{Cause, CountCause, Site};
use crate::explain::pressure::{
    count_in_any, count_named, first_allocated_in, is_in_any, live_regs_cause, names_allocated,
    spare,
};
use crate::explain::source::Source;
use crate::explain::stored::{ClassName, operands_at};
use crate::explain::{blocks, definitions, operands};
use crate::named::operand_of;
use regalloc2_function::MachineMisfit;
use regalloc2_names::{PReg, RegAllocError, RegClass, VRegText};
use regalloc2_serialize::StoredFunction;
use std::fmt;
use std::io::{self, Write};

/// Why a function is rejected: the cause, its site, and another part that belongs to it.
#[derive(Clone, Copy)]
pub struct Explanation {
    /// The cause.
    pub cause: Cause,
    /// The site of the cause.
    pub site: Site,
    /// The definition that it conflicts with, if there is one.
    pub against: Option<Site>,
}

impl Explanation {
    /// Returns an explanation of a cause at a site, which are `found`.
    fn of(found: (Cause, Site)) -> Explanation {
        let (cause, site) = found;
        Explanation {
            cause,
            site,
            against: None,
        }
    }
}

/// Returns why the allocator rejects `function` with `error`.
///
/// Searches for what the error names. Linear in the function, except for a block with wrong predecessors: each of
/// them is counted among the block's predecessors.
pub fn explain(function: &StoredFunction, error: &RegAllocError) -> Explanation {
    let found = match error {
        RegAllocError::SSA(vreg, inst) => {
            let (cause, site, against) = definitions::ssa_cause(function, *vreg, *inst);
            return Explanation {
                cause: Cause::VReg(cause),
                site,
                against,
            };
        }
        RegAllocError::CritEdge(from, to) => blocks::crit_edge_cause(
            function,
            from.index(),
            to.index(),
        ),
        RegAllocError::BB(block) => blocks::block_cause(function, block.index()),
        RegAllocError::Branch(inst) => blocks::branch_cause(function, inst.index()),
        RegAllocError::EntryLivein => blocks::entry_livein_cause(function),
        RegAllocError::DisallowedBranchArg(inst) => blocks::disallowed_branch_arg_cause(
            function,
            inst.index(),
        ),
        RegAllocError::TooManyLiveRegs => live_regs_cause(function),
        RegAllocError::TooManyOperands => (Cause::Count(CountCause::ManyOperands), Site::Function),
        RegAllocError::Unsupported(inst) => operands::unsupported_cause(function, inst.index()),
        RegAllocError::TooManySpillSlots => {
            let vregs = function.num_vregs;
            (
                Cause::Count(CountCause::ManySlots { vregs }),
                Site::Function,
            )
        }
        RegAllocError::Memory => (Cause::Other, Site::Function),
    };
    Explanation::of(found)
}

/// Returns the first operand of a class without registers, if `misfit` says that a class has none.
pub fn misfit_at(function: &StoredFunction, misfit: MachineMisfit) -> Option<Site> {
    let MachineMisfit::NoRegister(class) = misfit else {
        return None;
    };
    for (inst, data) in function.insts.iter().enumerate() {
        if let Some(k) = first_allocated_in(data.operands.as_slice(), class) {
            return Some(Site::Operand(inst, k));
        }
    }
    None
}

/// The operands of an instruction that may be in any register of a class.
#[derive(Drop)]
struct InAny<'a> {
    operands: &'a [u64],
    class: RegClass,
}

impl fmt::Display for InAny<'_> {
    fn fmt<W: fmt::Write>(&self, f: &mut fmt::Formatter<W>) -> fmt::Result {
        let mut before = "";
        for bits in self.operands {
            if !is_in_any(*bits, self.class) {
                continue;
            }
            if let Some(operand) = operand_of(*bits) {
                let vreg = VRegText(operand.vreg());
                write!(f, "{before}{vreg}")?;
                before = ", ";
            }
        }
        Ok(())
    }
}

/// The allocated registers of a class that an instruction names.
#[derive(Drop)]
struct Named<'a> {
    function: &'a StoredFunction,
    inst: usize,
    class: RegClass,
}

impl fmt::Display for Named<'_> {
    fn fmt<W: fmt::Write>(&self, f: &mut fmt::Formatter<W>) -> fmt::Result {
        let mut before = "";
        for number in 0..=PReg::MAX {
            let register = PReg::new(number, self.class);
            if names_allocated(self.function, self.inst, register) {
                write!(f, "{before}{register}")?;
                before = ", ";
            }
        }
        Ok(())
    }
}

/// Writes the operands and clobbers for which `inst` needs registers of `class`, a line for each kind.
fn write_needs<W: Write>(
    function: &StoredFunction,
    inst: usize,
    class: RegClass,
    to: &mut W,
) -> io::Result<()> {
    let operands = operands_at(function, inst);
    if count_in_any(operands, class) > 0 {
        writeln!(to, "  in any register: {}", InAny { operands, class })?;
    }
    let named = Named {
        function,
        inst,
        class,
    };
    if count_named(function, inst, class) > 0 {
        writeln!(to, "  fixed or clobbered: {named}")?;
    }
    if spare(function, class) > 0 {
        let class = ClassName(class);
        writeln!(
            to,
            "  one register is kept for moves between stack places of the class {class}"
        )?;
    }
    Ok(())
}

impl Explanation {
    /// Writes the cause after `before` on a line, then the line of the text that holds its site,
    /// and what it needs or conflicts with.
    pub fn write<T: fmt::Display, W: Write>(
        &self,
        before: &T,
        function: &StoredFunction,
        source: &Source<'_>,
        to: &mut W,
    ) -> io::Result<()> {
        let cause = self.cause;
        writeln!(to, "{before}{cause}")?;
        if let Some(line) = source.find(self.site) {
            writeln!(to, "  {line}")?;
        }
        if let Cause::Count(CountCause::Registers { inst, class, .. }) = cause {
            write_needs(function, inst, class, to)?;
        }
        if let Some(line) = self.against.and_then(|site| source.find(site)) {
            writeln!(to, "  defined: {line}")?;
        }
        Ok(())
    }
}
