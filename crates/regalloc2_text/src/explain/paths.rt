//! A path on which a vreg is read, or passed as an argument, before it is written.

use crate::explain::cause::Site;
use crate::explain::edges::{Along, edges_into};
use crate::explain::stored::{arguments_of, operands_at, range_of};
use crate::named::{list_at, operand_of, vreg_of};
use regalloc2_names::{OperandPos, VReg, VRegText};
use regalloc2_serialize::StoredFunction;
use std::alloc::{AllocError, Global};
use std::collections::BTreeSet;
use std::fmt;

/// A read of a vreg, or an argument that passes it, before each write on a path from the entry.
#[derive(Drop)]
pub struct UnwrittenRead {
    /// The vreg.
    pub vreg: VReg,
    /// The reader: an operand, or the instruction that passes the vreg as an argument.
    pub site: Site,
    /// The blocks of a shortest path on which the vreg isn't written, from the entry to the block that reads.
    pub path: Vec<u32>,
}

/// As `v7i is read before it is written along block0, block2`; `passed` for an argument.
impl fmt::Display for UnwrittenRead {
    fn fmt<W: fmt::Write>(&self, f: &mut fmt::Formatter<W>) -> fmt::Result {
        let vreg = VRegText(self.vreg);
        let verb = match self.site {
            Site::Operand(..) => "read",
            _ => "passed",
        };
        let path = Along(self.path.as_slice());
        write!(f, "{vreg} is {verb} before it is written{path}")
    }
}

/// A vreg that a block reads before writing it, in the block or in one that follows on a path.
#[derive(Clone, Copy)]
struct Need {
    block: u32,
    /// The encoding of the vreg.
    vreg: u32,
    site: Site,
    /// The need of the successor from which this need was derived.
    behind: Option<usize>,
}

/// Needs in the order in which they are found, once for each block and vreg.
#[derive(Drop)]
struct Search {
    needs: Vec<Need>,
    known: BTreeSet<(u32, u32), Global>,
    /// The vregs that blocks write, parameters included, but for the parameters of the entry.
    written: BTreeSet<(u32, u32), Global>,
}

impl Search {
    /// Adds `need`, if its block has no need of its vreg yet.
    fn add(&mut self, need: Need) -> Result<(), AllocError> {
        let pair = (need.block, need.vreg);
        if self.known.contains(&pair) {
            return Ok(());
        }
        self.known.insert(pair)?;
        self.needs.push(need)?;
        Ok(())
    }

    /// Adds the need of the read of `vreg` at `site`, unless `block` writes the vreg earlier.
    fn read(&mut self, block: u32, vreg: u32, site: Site) -> Result<(), AllocError> {
        if self.written.contains(&(block, vreg)) {
            return Ok(());
        }
        self.add(Need {
            block,
            vreg,
            site,
            behind: None,
        })
    }

    /// Adds the needs of the operands of `inst` that read at `pos`.
    fn read_operands(
        &mut self,
        function: &StoredFunction,
        block: u32,
        inst: usize,
        pos: OperandPos,
    ) -> Result<(), AllocError> {
        for (k, bits) in operands_at(function, inst).iter().enumerate() {
            if let Some(operand) = operand_of(*bits) {
                if operand.reads_at(pos) {
                    let vreg = operand.vreg().bits() as u32;
                    self.read(block, vreg, Site::Operand(inst, k))?;
                }
            }
        }
        Ok(())
    }

    /// Records what the operands of `inst` write.
    fn write_operands(
        &mut self,
        function: &StoredFunction,
        block: u32,
        inst: usize,
    ) -> Result<(), AllocError> {
        for bits in operands_at(function, inst) {
            if let Some(operand) = operand_of(*bits) {
                if operand.is_def() {
                    self.written.insert((block, operand.vreg().bits() as u32))?;
                }
            }
        }
        Ok(())
    }

    /// Adds the needs of the arguments that `block` passes to its successor at `position`.
    fn read_arguments(
        &mut self,
        function: &StoredFunction,
        block: u32,
        position: usize,
        site: Site,
    ) -> Result<(), AllocError> {
        for bits in arguments_of(function, block as usize, position) {
            self.read(block, *bits, site)?;
        }
        Ok(())
    }

    /// Records the parameters of `block` as written.
    fn write_params(&mut self, function: &StoredFunction, block: u32) -> Result<(), AllocError> {
        for bits in list_at(function.block_params_in.as_slice(), block as usize) {
            self.written.insert((block, *bits))?;
        }
        Ok(())
    }

    /// Walks over the instructions of `block`.
    fn walk_insts(&mut self, function: &StoredFunction, block: u32) -> Result<(), AllocError> {
        let (first, end) = range_of(function, block as usize);
        for inst in first..end.min(function.insts.len()) {
            self.read_operands(function, block, inst, OperandPos::Early)?;
            self.write_operands(function, block, inst)?;
            self.read_operands(function, block, inst, OperandPos::Late)?;
        }
        Ok(())
    }

    /// Walks over the arguments that `block` passes.
    fn walk_passed(&mut self, function: &StoredFunction, block: u32) -> Result<(), AllocError> {
        let (_, end) = range_of(function, block as usize);
        let site = Site::Inst(end.saturating_sub(1));
        let succs = list_at(function.block_succs.as_slice(), block as usize).len();
        for position in 0..succs {
            self.read_arguments(function, block, position, site)?;
        }
        Ok(())
    }

    /// Finds what each block of `function` reads before writing it. Nothing writes the parameters of the entry where
    /// the function starts.
    fn walk(&mut self, function: &StoredFunction) -> Result<(), AllocError> {
        for block in 0..function.blocks.len() {
            if let Ok(block) = u32::try_from(block) {
                if block != function.entry_block {
                    self.write_params(function, block)?;
                }
                self.walk_insts(function, block)?;
                self.walk_passed(function, block)?;
            }
        }
        Ok(())
    }

    /// Passes `need`, at `index` of the needs, on to the predecessors `preds` of its block, unless they write the
    /// vreg.
    fn pass(&mut self, index: usize, need: Need, preds: &[u32]) -> Result<(), AllocError> {
        for pred in preds {
            if !self.written.contains(&(*pred, need.vreg)) {
                self.add(Need {
                    block: *pred,
                    vreg: need.vreg,
                    site: need.site,
                    behind: Some(index),
                })?;
            }
        }
        Ok(())
    }

    /// Passes needs on against `edges` until a need of the entry is found, and returns its index.
    fn run(
        &mut self,
        function: &StoredFunction,
        edges: &[Vec<u32>],
    ) -> Result<Option<usize>, AllocError> {
        let mut index = 0;
        while index < self.needs.len() {
            let need = self.needs[index];
            if need.block == function.entry_block {
                return Ok(Some(index));
            }
            self.pass(index, need, list_at(edges, need.block as usize))?;
            index += 1;
        }
        Ok(None)
    }

    /// Returns the blocks from the block of the need at `index` to the block that reads.
    fn path(&self, alloc: Global, index: usize) -> Result<Vec<u32>, AllocError> {
        let mut path = Vec::new(alloc);
        let mut next = Some(index);
        // a need is behind one that was found before it, so no need is visited twice
        for _ in 0..self.needs.len() {
            let Some(need) = next.and_then(|index| self.needs.get(index)) else {
                break;
            };
            path.push(need.block)?;
            next = need.behind;
        }
        Ok(path)
    }
}

/// Returns a read or an argument of `function` before each write on a path from the entry, with a shortest such path.
///
/// Returns `None` if there is none. Each pair of a block and a vreg that it needs at its beginning is handled once
/// for each edge into the block. An error means out of memory.
pub fn find_unwritten_read(
    alloc: Global,
    function: &StoredFunction,
) -> Result<Option<UnwrittenRead>, AllocError> {
    let edges = edges_into(alloc, function)?;
    let mut search = Search {
        needs: Vec::new(alloc),
        known: BTreeSet::new(alloc),
        written: BTreeSet::new(alloc),
    };
    search.walk(function)?;
    let Some(index) = search.run(function, edges.as_slice())? else {
        return Ok(None);
    };
    let path = search.path(alloc, index)?;
    let Some(need) = search.needs.get(index) else {
        return Ok(None);
    };
    let site = need.site;
    let Some(vreg) = vreg_of(need.vreg) else {
        return Ok(None);
    };
    Ok(Some(UnwrittenRead { vreg, site, path }))
}
