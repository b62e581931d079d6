//! The words of values.

ghost use Rattle.std.specs.Prelude.{◌≡◌, ◌⊎◌, ◌++◌, IfOk, IfErr, OnOk};
ghost use Rattle.regalloc2_serialize.specs.Flat.Flat.{HasLongWord};

use super::long::halves;
use super::read::Flat;
use regalloc2_function::{StoredFault, StoredOutput};
use std::alloc::Global;

/// What is written as words.
pub trait Written: Flat {
    /// Adds the words of the value to `to`.
    ///
    /// # Errors
    ///
    /// `Limit` if the length of a list is no word; `Memory` if memory runs out.
    fn write(&self, to: &mut Vec<u32>) -> Result<(), StoredFault>
        ensures ok { OnOk result (to.new.items ≡ to.old.items ++ Self.words self.now) }
        ensures limit { IfErr result (λ e. e ≡ StoredFault.Limit → HasLongWord (Self.words self.now)) }
        ensures faults { IfErr result (λ e. (e ≡ StoredFault.Limit) ⊎ (e ≡ StoredFault.Memory)) };
}

impl Written for u32 {
    fn write(&self, to: &mut Vec<u32>) -> Result<(), StoredFault> {
        to.push(*self)?;
        Ok(())
    }
}

impl Written for u64 {
    fn write(&self, to: &mut Vec<u32>) -> Result<(), StoredFault> {
        to.extend_from_slice(&halves(*self))?;
        Ok(())
    }
}

impl Written for (u32, u32, u32) {
    fn write(&self, to: &mut Vec<u32>) -> Result<(), StoredFault> {
        to.extend_from_slice(&[self.0, self.1, self.2])?;
        Ok(())
    }
}

impl Written for (u32, u32, u32, u32) {
    fn write(&self, to: &mut Vec<u32>) -> Result<(), StoredFault> {
        to.extend_from_slice(&[self.0, self.1, self.2, self.3])?;
        Ok(())
    }
}

impl<T: Written + Drop> Written for Vec<T> {
    fn write(&self, to: &mut Vec<u32>) -> Result<(), StoredFault> {
        let Ok(count) = u32::try_from(self.len()) else {
            return Err(StoredFault::Limit);
        };
        to.push(count)?;
        for item in self.as_slice() {
            item.write(to)?;
        }
        Ok(())
    }
}

impl Written for StoredOutput {
    fn write(&self, to: &mut Vec<u32>) -> Result<(), StoredFault> {
        self.num_spillslots.write(to)?;
        self.edits.write(to)?;
        self.allocs.write(to)?;
        self.inst_alloc_offsets.write(to)?;
        self.debug_locations.write(to)
    }
}

/// Returns the words of `value`.
///
/// # Errors
///
/// `Limit` if the length of a list is no word; `Memory` if memory runs out.
pub fn words_of<T: Written>(alloc: Global, value: &T) -> Result<Vec<u32>, StoredFault>
    ensures ok { IfOk result (λ v. v.items ≡ T.words value.now) }
    ensures limit { IfErr result (λ e. e ≡ StoredFault.Limit → HasLongWord (T.words value.now)) }
    ensures faults { IfErr result (λ e. (e ≡ StoredFault.Limit) ⊎ (e ≡ StoredFault.Memory)) }
{
    let mut words = Vec::new(alloc);
    value.write(&mut words)?;
    Ok(words)
}
