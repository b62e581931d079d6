//! Numbers that are listed once, by rising number.

ghost use Rattle.std.specs.Prelude.{◌≡◌, ℕ, ◌<◌, ◌↔◌, ◌==◌, length, slice_index, Contains};
ghost use Rattle.std.specs.List.{position};
ghost use Rattle.std.specs.List.Sorted.{IsStrictlyIncreasing};

use std::alloc::Allocator;
use std::marker::Model;

/// Numbers, listed once, by rising number.
#[derive(Drop)]
pub struct Positions<A: Allocator> {
    numbers: Vec<u32, A>,
}

impl<A: Allocator> Model for Positions<A> {
    ghost use Rattle.std.specs.Prelude.{List, ℕ};
    ghost use Rattle.std.specs.List.Sorted.{IsStrictlyIncreasing};

    ghost Value = { List ℕ };

    ghost view = { λ p. p.numbers.items };

    ghost invariant = { λ p. IsStrictlyIncreasing p.numbers.items };
}

impl<A: Allocator> Positions<A> {
    /// Returns the positions of `numbers`, sorted, each once.
    pub fn of(mut numbers: Vec<u32, A>) -> Positions<A>
        ensures members { (n : ℕ) → Contains result n ↔ Contains numbers.items n }
        ensures rising { IsStrictlyIncreasing result }
    {
        numbers.sort_unstable();
        numbers.dedup();
        Positions { numbers }
    }

    /// Returns the numbers, as a list.
    pub fn into_numbers(self) -> Vec<u32, A>
        ensures { result.items ≡ self }
    {
        self.numbers
    }

    /// Returns how many numbers there are.
    pub fn len(&self) -> usize
        ensures { result ≡ length self.now }
    {
        self.numbers.len()
    }

    /// Returns the number at `position`.
    pub fn number(&self, position: usize) -> u32
        requires { position < length self.now }
        ensures { result ≡ slice_index self.now position }
    {
        self.numbers[position]
    }

    /// Returns the position of `number`, if it is listed. Tries the position `guess` first.
    pub fn find(&self, number: u32, guess: usize) -> Option<usize>
        ensures { result ≡ position (λ n. n == number) self.now }
    {
        if guess < self.numbers.len() {
            if self.numbers[guess] == number {
                return Some(guess);
            }
        }
        match self.numbers.binary_search(&number) {
            Ok(found) => Some(found),
            Err(_) => None,
        }
    }
}
