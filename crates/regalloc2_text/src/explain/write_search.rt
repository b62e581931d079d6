//! What wrote a place last before an instruction reads it: in its block, or on paths to the block.

use crate::explain::edges::{Along, edges_into};
use crate::explain::stored::{block_of, point_after, point_before, range_of};
use crate::explain::writes::{LastWrite, last_between, write_by_reader};
use crate::named::list_at;
use regalloc2_function::StoredOutput;
use regalloc2_names::{Allocation, OperandPos};
use regalloc2_serialize::StoredFunction;
use std::alloc::{AllocError, Global};
use std::io::{self, Write};

/// How many last writes are kept, each on a path of its own.
const KEPT: usize = 2;

/// The last write of a place on a path to its reader.
#[derive(Drop)]
pub struct WriteOnPath {
    /// The write.
    pub write: LastWrite,
    /// The blocks of a shortest path from that of the write to the reader's; none if the reader's
    /// block writes the place before the read.
    pub path: Vec<u32>,
}

/// The last writes of a place before an instruction reads it.
#[derive(Drop)]
pub struct LastWrites {
    /// The place.
    pub place: Allocation,
    /// The number of the reader.
    pub inst: usize,
    /// The last writes on the paths with the fewest blocks, at most two.
    pub writes: Vec<WriteOnPath>,
    /// The blocks of a shortest path from the entry to the reader's block on which nothing writes
    /// the place; none if there is no such path.
    pub unwritten: Vec<u32>,
}

impl LastWrites {
    /// Writes a line for each last write, as `p0i is written last by inst3 along block0, block2`, and
    /// one for the path without a write; or the line `p0i is never written before inst5`.
    pub fn write<W: Write>(&self, to: &mut W) -> io::Result<()> {
        let place = self.place;
        if self.writes.is_empty() {
            let inst = self.inst;
            return writeln!(to, "  {place} is never written before inst{inst}");
        }
        for WriteOnPath { write, path } in self.writes.iter() {
            let path = Along(path.as_slice());
            writeln!(to, "  {place} is {write}{path}")?;
        }
        if !self.unwritten.is_empty() {
            let path = Along(self.unwritten.as_slice());
            writeln!(to, "  {place} is not written{path}")?;
        }
        Ok(())
    }
}

/// A search against the edges, from the reader's block to blocks that write the place.
#[derive(Drop)]
struct Search {
    /// The blocks that are found, nearest first.
    order: Vec<u32>,
    /// The next block on a shortest path to the reader's, of each block that is found.
    next: Vec<Option<u32>>,
    /// The reader's block.
    reader: u32,
    /// The first blocks that write the place, and their last writes.
    writes: Vec<(u32, LastWrite)>,
    /// Whether a path from the entry has no write.
    is_unwritten: bool,
}

impl Search {
    /// Adds those of `preds`, the predecessors of `block`, that aren't found yet.
    fn add(&mut self, block: u32, preds: &[u32]) -> Result<(), AllocError> {
        for pred in preds {
            if let Some(next) = self.next.get_mut(*pred as usize) {
                if next.is_none() {
                    *next = Some(block);
                    self.order.push(*pred)?;
                }
            }
        }
        Ok(())
    }

    /// Searches against `edges` from block to block for writes of `place`, until there are no more blocks.
    fn run(
        &mut self,
        function: &StoredFunction,
        output: &StoredOutput,
        edges: &[Vec<u32>],
        place: u32,
    ) -> Result<(), AllocError> {
        let mut index = 0;
        while index < self.order.len() {
            let block = self.order[index];
            let (first, end) = range_of(function, block as usize);
            match last_between(function, output, first, end, point_before(end), place) {
                Some(write) => {
                    if self.writes.len() < KEPT {
                        self.writes.push((block, write))?;
                    }
                }
                None => {
                    self.is_unwritten = self.is_unwritten || block == function.entry_block;
                    self.add(block, list_at(edges, block as usize))?;
                }
            }
            index += 1;
        }
        Ok(())
    }

    /// Returns the blocks from `from`, a block that is found, to the reader's block.
    fn path(&self, alloc: Global, from: u32) -> Result<Vec<u32>, AllocError> {
        let mut path = Vec::new(alloc);
        path.push(from)?;
        let mut at = from;
        // each block is found once, so no block is visited twice
        for _ in 0..self.order.len() {
            let Some(Some(next)) = self.next.get(at as usize).copied() else {
                break;
            };
            path.push(next)?;
            if next == self.reader {
                break;
            }
            at = next;
        }
        Ok(path)
    }

    /// Returns the blocks of a path from `entry` to the reader's block without a write; none if none is found.
    fn unwritten(&self, alloc: Global, entry: u32) -> Result<Vec<u32>, AllocError> {
        if self.reader != entry && self.is_unwritten {
            return self.path(alloc, entry);
        }
        let mut path = Vec::new(alloc);
        if self.reader == entry {
            path.push(entry)?;
        }
        Ok(path)
    }

    /// Returns the writes that are found, each with its path.
    fn writes(&self, alloc: Global) -> Result<Vec<WriteOnPath>, AllocError> {
        let mut writes = Vec::new(alloc);
        for (from, write) in self.writes.iter() {
            writes.push(WriteOnPath {
                write: *write,
                path: self.path(alloc, *from)?,
            })?;
        }
        Ok(writes)
    }
}

/// Searches the blocks before `reader`, the reader's block, which doesn't write `place` before the read.
fn search_back(
    alloc: Global,
    function: &StoredFunction,
    output: &StoredOutput,
    reader: u32,
    place: u32,
) -> Result<Search, AllocError> {
    let edges = edges_into(alloc, function)?;
    let mut search = Search {
        order: Vec::new(alloc),
        next: Vec::new(alloc),
        reader,
        writes: Vec::new(alloc),
        is_unwritten: false,
    };
    for _ in 0..function.blocks.len() {
        search.next.push(None)?;
    }
    search.add(reader, list_at(edges.as_slice(), reader as usize))?;
    search.run(function, output, edges.as_slice(), place)?;
    Ok(search)
}

/// Returns the last write of `place` in the block from instruction `first` on, before the use at `pos` of instruction
/// `inst` reads it.
fn last_in_block(
    function: &StoredFunction,
    output: &StoredOutput,
    first: usize,
    inst: usize,
    pos: OperandPos,
    place: u32,
) -> Option<LastWrite> {
    let by_reader = write_by_reader(function, output, inst, pos, place);
    if by_reader.is_some() {
        return by_reader;
    }
    last_between(function, output, first, inst, point_after(inst), place)
}

/// Returns the last writes of `place` before a use at `pos` of instruction `inst` reads it. `None` if no block holds
/// the instruction.
///
/// The output's moves are sorted by program point. Linear in the function and the output, with a
/// binary search of the moves for each block. An error means out of memory.
pub fn last_writes(
    alloc: Global,
    function: &StoredFunction,
    output: &StoredOutput,
    inst: usize,
    pos: OperandPos,
    place: Allocation,
) -> Result<Option<LastWrites>, AllocError> {
    let Some(block) = block_of(function, inst) else {
        return Ok(None);
    };
    let (first, _) = range_of(function, block);
    let mut writes = Vec::new(alloc);
    let mut unwritten = Vec::new(alloc);
    if let Some(write) = last_in_block(function, output, first, inst, pos, place.bits()) {
        let path = Vec::new(alloc);
        writes.push(WriteOnPath { write, path })?;
    } else if let Ok(reader) = u32::try_from(block) {
        let search = search_back(alloc, function, output, reader, place.bits())?;
        writes = search.writes(alloc)?;
        unwritten = search.unwritten(alloc, function.entry_block)?;
    }
    Ok(Some(LastWrites {
        place,
        inst,
        writes,
        unwritten,
    }))
}
