//! A list of numbers that leaves out most repetitions.

ghost use Rattle.std.specs.Prelude.{◌≡◌, ◌<◌, ◌%◌, ◌↔◌, ◌⊎◌, ℕ, [], OnOk, IfOk, Contains};

use std::alloc::{AllocError, Allocator};
use std::marker::Model;

/// Numbers that were listed. A repeated number is left out, unless another number has its cell.
#[derive(Drop)]
pub struct NumberList<A: Allocator> {
    /// The first number of each cell.
    cells: Vec<Option<u32>, A>,
    /// The numbers whose cells have another number.
    others: Vec<u32, A>,
}

impl<A: Allocator> Model for NumberList<A> {
    ghost use Rattle.std.specs.Prelude.{List, ℕ, ◌<◌, ◌++◌, length};
    ghost use Rattle.std.specs.List.{flat_map};
    ghost use Rattle.std.specs.Option.{option_to_list};

    ghost Value = { List ℕ };

    ghost view = { λ l. flat_map option_to_list l.cells.items ++ l.others.items };

    ghost invariant = { λ l. 0 < length l.cells.items };
}

impl<A: Allocator + Copy> NumberList<A> {
    /// Returns an empty list, with a cell for each of about `keys` keys.
    pub fn new(alloc: A, keys: usize) -> Result<NumberList<A>, AllocError>
        ensures { IfOk result (λ l. l ≡ []) }
    {
        // An odd count: numbers that are two or four apart take all remainders.
        let cells = Vec::from_elem(alloc, None, keys / 2 * 2 + 1)?;
        Ok(NumberList {
            cells,
            others: Vec::new(alloc),
        })
    }

    /// Returns the numbers that were listed: the cells in their order, then the others.
    pub fn into_numbers(self, alloc: A) -> Result<Vec<u32, A>, AllocError>
        ensures { IfOk result (λ numbers. numbers.items ≡ self) }
    {
        let mut numbers = Vec::with_capacity(alloc, self.cells.len())?;
        for k in 0..self.cells.len() {
            if let Some(number) = self.cells[k] {
                numbers.push(number)?;
            }
        }
        numbers.extend_from_slice(&self.others)?;
        Ok(numbers)
    }
}

/// Returns the cell of `key` among `count` cells.
fn cell_of(key: usize, count: usize) -> usize
    requires { 0 < count }
    ensures cell { result ≡ key % count }
    ensures inside { result < count }
{
    // Few keys are past the count, and a division is slow.
    if key < count { key } else { key % count }
}

impl<A: Allocator> NumberList<A> {
    /// Lists `number`, unless the cell of `key` has it already.
    pub fn list(&mut self, key: usize, number: u32) -> Result<(), AllocError>
        ensures { OnOk result ((n : ℕ) → Contains self.new n ↔ (Contains self.old n ⊎ (n ≡ number))) }
    {
        let cell = cell_of(key, self.cells.len());
        let Some(first) = self.cells[cell] else {
            self.cells[cell] = Some(number);
            return Ok(());
        };
        if first == number {
            return Ok(());
        }
        self.others.push(number)?;
        Ok(())
    }
}
