//! Values from words.

ghost use Rattle.std.specs.Prelude.{◌≡◌, ◌⊎◌, ℕ, List, [], ◌∷◌, ◌++◌, IfOk, IfErr};
ghost use Rattle.regalloc2_serialize.specs.Flat.Flat.{BeginsNone, IsNone};
ghost use Rattle.regalloc2_serialize.specs.Flat.OneRest.{HasOneRest};

use super::long::from_halves;
use regalloc2_function::StoredFault;
use std::alloc::Global;

/// Words that are read one by one.
#[derive(Drop)]
pub struct Words<'a> {
    /// The words that are still to be read.
    pub rest: &'a [u32],
}

impl<'a> Words<'a> {
    /// Returns the next word. `Shape` if there is none.
    fn next(&mut self) -> Result<u32, StoredFault>
        ensures ok { IfOk result (λ n. self.old.rest.now ≡ n ∷ self.new.rest.now) }
        ensures err { IfErr result (λ e. (e ≡ StoredFault.Shape) × (self.old.rest.now ≡ [])) }
    {
        let Some((first, rest)) = self.rest.split_first() else {
            return Err(StoredFault::Shape);
        };
        self.rest = rest;
        Ok(*first)
    }
}

/// What can be laid out as words.
pub trait Flat {
    /// The words of a value.
    ghost words: { Self → List ℕ };

    /// Reads the words of a value, which others may follow.
    ///
    /// # Errors
    ///
    /// `Shape` if and only if `from` begins with the words of no value; `Memory` if memory runs out.
    fn read(alloc: Global, from: &mut Words<'_>) -> Result<Self, StoredFault>
        ensures ok { IfOk result (λ x. from.old.rest.now ≡ words x ++ from.new.rest.now) }
        ensures shape { IfErr result (λ e. e ≡ StoredFault.Shape → BeginsNone words from.old.rest.now) }
        ensures faults { IfErr result (λ e. (e ≡ StoredFault.Shape) ⊎ (e ≡ StoredFault.Memory)) };

    /// The words say where they end.
    ghost one_rest: { HasOneRest words };
}

impl Flat for u32 {
    ghost use Rattle.regalloc2_serialize.specs.Flat.Flat.{one_word};
    ghost use Rattle.regalloc2_serialize.specs.Flat.OneRest.{one_rest-word};

    ghost words = { one_word };

    ghost one_rest = { one_rest-word (λ n. n) };

    fn read(_alloc: Global, from: &mut Words<'_>) -> Result<u32, StoredFault> {
        from.next()
    }
}

impl Flat for u64 {
    ghost use Rattle.regalloc2_serialize.specs.Flat.Flat.{words_of_long};
    ghost use Rattle.regalloc2_serialize.specs.Flat.OneRest.{one_rest-long};

    ghost words = { words_of_long };

    ghost one_rest = { one_rest-long };

    fn read(_alloc: Global, from: &mut Words<'_>) -> Result<u64, StoredFault> {
        let low = from.next()?;
        let high = from.next()?;
        Ok(from_halves(low, high))
    }
}

impl<A: Flat + Drop, B: Flat + Drop> Flat for (A, B) {
    ghost use Rattle.regalloc2_serialize.specs.Flat.OneRest.{one_rest-pair};

    ghost words = { λ p. A.words p.0 ++ B.words p.1 };

    ghost one_rest = { one_rest-pair A.words B.words A.one_rest B.one_rest };

    fn read(alloc: Global, from: &mut Words<'_>) -> Result<(A, B), StoredFault> {
        let first = A::read(alloc, from)?;
        let second = B::read(alloc, from)?;
        Ok((first, second))
    }
}

impl<A: Flat + Drop, B: Flat + Drop, C: Flat + Drop> Flat for (A, B, C) {
    ghost use Rattle.regalloc2_serialize.specs.Flat.OneRest.{one_rest-triple};

    ghost words = { λ p. A.words p.0 ++ (B.words p.1 ++ C.words p.2) };

    ghost one_rest = { one_rest-triple A.words B.words C.words A.one_rest B.one_rest C.one_rest };

    fn read(alloc: Global, from: &mut Words<'_>) -> Result<(A, B, C), StoredFault> {
        let (first, (second, third)) = <(A, (B, C)) as Flat>::read(alloc, from)?;
        Ok((first, second, third))
    }
}

impl<A: Flat + Drop, B: Flat + Drop, C: Flat + Drop, D: Flat + Drop> Flat for (A, B, C, D) {
    ghost use Rattle.regalloc2_serialize.specs.Flat.OneRest.{one_rest-quadruple};

    ghost words = { λ p. A.words p.0 ++ (B.words p.1 ++ (C.words p.2 ++ D.words p.3)) };

    ghost one_rest = { one_rest-quadruple A.words B.words C.words D.words A.one_rest B.one_rest C.one_rest D.one_rest };

    fn read(alloc: Global, from: &mut Words<'_>) -> Result<(A, B, C, D), StoredFault> {
        let (first, (second, third, fourth)) = <(A, (B, C, D)) as Flat>::read(alloc, from)?;
        Ok((first, second, third, fourth))
    }
}

impl<T: Flat + Drop> Flat for Vec<T> {
    ghost use Rattle.regalloc2_serialize.specs.Flat.Flat.{words_of_list};
    ghost use Rattle.regalloc2_serialize.specs.Flat.OneRest.{one_rest-list};

    ghost words = { λ v. words_of_list T.words v.items };

    ghost one_rest = { λ x y. one_rest-list T.words T.one_rest x.items y.items };

    fn read(alloc: Global, from: &mut Words<'_>) -> Result<Vec<T>, StoredFault> {
        let count = from.next()?;
        let mut items = Vec::new(alloc);
        for index in 0..count {
            let item = T::read(alloc, from)?;
            items.push(item)?;
        }
        Ok(items)
    }
}

/// Returns the value with the words `words`.
///
/// # Errors
///
/// `Shape` if and only if `words` are the words of no value; `Memory` if memory runs out.
pub fn value_of<T: Flat + Drop>(alloc: Global, words: &[u32]) -> Result<T, StoredFault>
    ensures ok { IfOk result (λ x. words.now ≡ T.words x) }
    ensures shape { IfErr result (λ e. e ≡ StoredFault.Shape → IsNone T.words words.now) }
    ensures faults { IfErr result (λ e. (e ≡ StoredFault.Shape) ⊎ (e ≡ StoredFault.Memory)) }
{
    let mut from = Words { rest: words };
    let value = T::read(alloc, &mut from)?;
    if from.rest.is_empty() {
        Ok(value)
    } else {
        Err(StoredFault::Shape)
    }
}
