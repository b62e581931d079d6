//! Stored outputs from words.

use super::read::{Flat, Words};
use regalloc2_function::{StoredFault, StoredOutput};
use std::alloc::Global;

/// An output's moves, places, offsets and debug locations.
type Lists = (
    Vec<(u32, u32, u32)>,
    Vec<u32>,
    Vec<u32>,
    Vec<(u32, u32, u32, u32)>,
);

impl Flat for StoredOutput {
    ghost use Rattle.regalloc2_serialize.specs.Flat.Flat.{output_words};
    ghost use Rattle.regalloc2_serialize.specs.Flat.RecordsRest.{one_rest-output};

    ghost words = { output_words };

    ghost one_rest = { one_rest-output };

    fn read(alloc: Global, from: &mut Words<'_>) -> Result<StoredOutput, StoredFault> {
        let (num_spillslots, lists) = <(u64, Lists) as Flat>::read(alloc, from)?;
        let (edits, allocs, inst_alloc_offsets, debug_locations) = lists;
        Ok(StoredOutput {
            num_spillslots,
            edits,
            allocs,
            inst_alloc_offsets,
            debug_locations,
        })
    }
}
