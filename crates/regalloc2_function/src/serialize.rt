//! Outputs as plain numbers that can be stored.

ghost use Rattle.std.specs.Prelude.{◌≡◌, ◌⊎◌, ◌↔◌, IsTrue, All, IfOk, IfErr, map};
ghost use Rattle.regalloc2_names.specs.PlaceBits.{IsPlaceBits, place_of_bits};
ghost use Rattle.regalloc2_function.specs.Views.{output_of, edit_of};
ghost use Rattle.regalloc2_function.specs.Stored.{NamesMove, NamesLocation, NamesValues, stored_move, stored_location, location_of, output_of_stored};

use super::{Edit, Output};
use regalloc2_names::{Allocation, ProgPoint, RegAllocError};
use std::alloc::{AllocError, AllocFailed, Allocator, Global};
use std::error::Error;
use std::fmt;

/// Why stored data encode no function or output. The variants are numbered from 1.
#[derive(Clone, Copy, Debug, PartialEq, Eq)]
pub enum StoredFault {
    /// Lists that should be of one length are not.
    Lengths,
    /// A block, an instruction or a labelled vreg is out of range.
    Index,
    /// A number encodes no name.
    Bits,
    /// A limit that each function keeps is exceeded.
    Limit,
    /// A memory allocation failed.
    Memory,
    /// A JSON value has the wrong shape.
    Shape,
}

/// Writes what is wrong, as `a word names nothing`.
impl fmt::Display for StoredFault {
    ghost use Rattle.std.specs.Prelude.{Some};
    ghost use Rattle.regalloc2_function.specs.FaultText.{fault_reason};

    ghost output = { λ e. Some (fault_reason e) };

    fn fmt<W: fmt::Write>(&self, f: &mut fmt::Formatter<W>) -> fmt::Result {
        f.write_str(match self {
            Self::Lengths => "lists by block or by class have different lengths",
            Self::Index => "a block, a range or a label is out of range",
            Self::Bits => "a word names nothing",
            Self::Limit => "a limit is passed",
            Self::Memory => "out of memory",
            Self::Shape => "a value has another shape",
        })
    }
}

impl Error for StoredFault {}

impl From<AllocError> for StoredFault {
    ghost use Rattle.std.specs.Prelude.{◌≡◌};
    ghost use Rattle.regalloc2_function.specs.declared.serialize.StoredFault.TheVariants.{Memory};

    ghost from_gives = { λ _ e. e ≡ Memory };

    fn from(_refused: AllocError) -> StoredFault {
        StoredFault::Memory
    }
}

impl<T: Drop> From<AllocFailed<T>> for StoredFault {
    ghost use Rattle.std.specs.Prelude.{◌≡◌};
    ghost use Rattle.regalloc2_function.specs.declared.serialize.StoredFault.TheVariants.{Memory};

    ghost from_gives = { λ _ e. e ≡ Memory };

    fn from(_refused: AllocFailed<T>) -> StoredFault {
        StoredFault::Memory
    }
}

/// An [`Output`] with the numbers of its names.
#[derive(Debug, Drop)]
pub struct StoredOutput<A: Allocator = Global> {
    /// How many units the spill slots take.
    pub num_spillslots: u64,
    /// The moves: a point, the place that is read, and the place that is written.
    pub edits: Vec<(u32, u32, u32), A>,
    /// The places of all operands.
    pub allocs: Vec<u32, A>,
    /// For each instruction, where its operands' places begin.
    pub inst_alloc_offsets: Vec<u32, A>,
    /// The places of labelled values: a label, the points from which and up to which, and a place.
    pub debug_locations: Vec<(u32, u32, u32, u32), A>,
}

impl<A: Allocator> StoredOutput<A> {
    /// Returns `true` if each number that should encode a point or a place does.
    fn names_values(&self) -> bool
        ensures { IsTrue result ↔ NamesValues self.now }
    {
        are_moves(self.edits.as_slice())
            && are_places(self.allocs.as_slice())
            && are_locations(self.debug_locations.as_slice())
    }
}

/// Returns `true` if the numbers of `edit` encode a point and two places.
fn is_move(edit: (u32, u32, u32)) -> bool
    ensures { IsTrue result ↔ NamesMove edit }
{
    ProgPoint::is_index(edit.0) && Allocation::is_bits(edit.1) && Allocation::is_bits(edit.2)
}

/// Returns `true` if the numbers of `location`, after its label, encode two points and a place.
fn is_location(location: (u32, u32, u32, u32)) -> bool
    ensures { IsTrue result ↔ NamesLocation location }
{
    ProgPoint::is_index(location.1)
        && ProgPoint::is_index(location.2)
        && Allocation::is_bits(location.3)
}

/// Returns `true` if each of `edits` encodes a move.
fn are_moves(edits: &[(u32, u32, u32)]) -> bool
    ensures { IsTrue result ↔ All NamesMove edits.now }
{
    edits.iter().all(|edit| is_move(*edit))
}

/// Returns `true` if each of `words` encodes a place.
fn are_places(words: &[u32]) -> bool
    ensures { IsTrue result ↔ All IsPlaceBits words.now }
{
    words.iter().all(|bits| Allocation::is_bits(*bits))
}

/// Returns `true` if each of `locations` encodes a debug location.
fn are_locations(locations: &[(u32, u32, u32, u32)]) -> bool
    ensures { IsTrue result ↔ All NamesLocation locations.now }
{
    locations.iter().all(|location| is_location(*location))
}

/// Decodes `words` to moves.
fn moves_from<A: Allocator>(
    alloc: A,
    words: &[(u32, u32, u32)],
) -> Result<Vec<(ProgPoint, Edit), A>, AllocError>
    requires { All NamesMove words.now }
    ensures { IfOk result (λ edits. map edit_of edits.items ≡ map stored_move words.now) }
{
    let mut edits = Vec::with_capacity(alloc, words.len())?;
    for word in words {
        let from = Allocation::from_bits(word.1);
        let to = Allocation::from_bits(word.2);
        edits.push((ProgPoint::from_index(word.0), Edit::Move { from, to }))?;
    }
    Ok(edits)
}

/// Decodes `words` to places.
fn places_from<A: Allocator>(alloc: A, words: &[u32]) -> Result<Vec<Allocation, A>, AllocError>
    requires { All IsPlaceBits words.now }
    ensures { IfOk result (λ places. places.items ≡ map place_of_bits words.now) }
{
    let mut places = Vec::with_capacity(alloc, words.len())?;
    for bits in words {
        places.push(Allocation::from_bits(*bits))?;
    }
    Ok(places)
}

/// Decodes `words` to debug locations.
fn locations_from<A: Allocator>(
    alloc: A,
    words: &[(u32, u32, u32, u32)],
) -> Result<Vec<(u32, ProgPoint, ProgPoint, Allocation), A>, AllocError>
    requires { All NamesLocation words.now }
    ensures { IfOk result (λ locations. map location_of locations.items ≡ map stored_location words.now) }
{
    let mut locations = Vec::with_capacity(alloc, words.len())?;
    for word in words {
        let from = ProgPoint::from_index(word.1);
        let to = ProgPoint::from_index(word.2);
        locations.push((word.0, from, to, Allocation::from_bits(word.3)))?;
    }
    Ok(locations)
}

/// Copies `words`.
fn numbers_from<A: Allocator>(alloc: A, words: &[u32]) -> Result<Vec<u32, A>, AllocError>
    ensures { IfOk result (λ numbers. numbers.items ≡ words.now) }
{
    let mut numbers = Vec::with_capacity(alloc, words.len())?;
    numbers.extend_from_slice(words)?;
    Ok(numbers)
}

/// Encodes the moves `edits`.
fn words_of_moves<A: Allocator>(
    alloc: A,
    edits: &[(ProgPoint, Edit)],
) -> Result<Vec<(u32, u32, u32), A>, AllocError>
    ensures moves { IfOk result (λ words. map stored_move words.items ≡ map edit_of edits.now) }
    ensures names { IfOk result (λ words. All NamesMove words.items) }
{
    let mut words = Vec::with_capacity(alloc, edits.len())?;
    for edit in edits {
        let (from, to) = edit.1.places();
        words.push((edit.0.to_index(), from.bits(), to.bits()))?;
    }
    Ok(words)
}

/// Encodes `places`.
fn words_of_places<A: Allocator>(alloc: A, places: &[Allocation]) -> Result<Vec<u32, A>, AllocError>
    ensures places { IfOk result (λ words. map place_of_bits words.items ≡ places.now) }
    ensures names { IfOk result (λ words. All IsPlaceBits words.items) }
{
    let mut words = Vec::with_capacity(alloc, places.len())?;
    for place in places {
        words.push(place.bits())?;
    }
    Ok(words)
}

/// Encodes the debug locations `locations`.
fn words_of_locations<A: Allocator>(
    alloc: A,
    locations: &[(u32, ProgPoint, ProgPoint, Allocation)],
) -> Result<Vec<(u32, u32, u32, u32), A>, AllocError>
    ensures locations { IfOk result (λ words. map stored_location words.items ≡ map location_of locations.now) }
    ensures names { IfOk result (λ words. All NamesLocation words.items) }
{
    let mut words = Vec::with_capacity(alloc, locations.len())?;
    for location in locations {
        let place = location.3.bits();
        words.push((
            location.0,
            location.1.to_index(),
            location.2.to_index(),
            place,
        ))?;
    }
    Ok(words)
}

impl<A: Allocator + Copy> Output<A> {
    /// Decodes `stored` to an output.
    ///
    /// Returns `Bits` exactly if a number that should encode a point or a place doesn't; `Memory`
    /// only if each does, and memory ran out; no other error. [`Output::is_in_order`] tests whether
    /// the output is well-ordered.
    pub fn from_stored<B: Allocator>(
        alloc: A,
        stored: &StoredOutput<B>,
    ) -> Result<Output<A>, StoredFault>
        ensures output { IfOk result (λ output. output_of output ≡ output_of_stored stored.now) }
        ensures names { IfOk result (λ output. NamesValues stored.now) }
        ensures bits { IfErr result (λ e. e ≡ StoredFault.Bits → NamesValues stored.now → ⊥) }
        ensures memory { IfErr result (λ e. e ≡ StoredFault.Memory → NamesValues stored.now) }
        ensures faults { IfErr result (λ e. (e ≡ StoredFault.Bits) ⊎ (e ≡ StoredFault.Memory)) }
    {
        if !stored.names_values() {
            return Err(StoredFault::Bits);
        }
        let edits = moves_from(alloc, stored.edits.as_slice())?;
        let allocs = places_from(alloc, stored.allocs.as_slice())?;
        let inst_alloc_offsets = numbers_from(alloc, stored.inst_alloc_offsets.as_slice())?;
        let debug_locations = locations_from(alloc, stored.debug_locations.as_slice())?;
        Ok(Output {
            num_spillslots: stored.num_spillslots as usize,
            edits,
            allocs,
            inst_alloc_offsets,
            debug_locations,
        })
    }
}

impl<A: Allocator + Copy> Output<A> {
    /// Encodes the output as numbers, which [`Output::from_stored`] decodes. Allocates from the output's
    /// own allocator.
    ///
    /// Returns `Memory` if memory ran out, and no other error.
    pub fn stored(&self) -> Result<StoredOutput<A>, RegAllocError>
        ensures output { IfOk result (λ stored. output_of_stored stored ≡ output_of self.now) }
        ensures names { IfOk result (λ stored. NamesValues stored) }
        ensures memory { IfErr result (λ e. e ≡ RegAllocError.Memory) }
    {
        let alloc = *self.allocs.allocator();
        let edits = words_of_moves(alloc, self.edits.as_slice())?;
        let allocs = words_of_places(alloc, self.allocs.as_slice())?;
        let inst_alloc_offsets = numbers_from(alloc, self.inst_alloc_offsets.as_slice())?;
        let debug_locations = words_of_locations(alloc, self.debug_locations.as_slice())?;
        Ok(StoredOutput {
            num_spillslots: self.num_spillslots as u64,
            edits,
            allocs,
            inst_alloc_offsets,
            debug_locations,
        })
    }
}
