//! Plain data from a JSON value.

ghost use Rattle.std.specs.Prelude.{◌≡◌, ◌⊎◌, Some, None, Option, IfOk, IfErr};
ghost use Rattle.serde_json.specs.Data.{Data};
ghost use Rattle.serde_json.specs.View.{view};
ghost use Rattle.regalloc2_serialize.specs.FromJson.{member, item_at, word};

use regalloc2_function::StoredFault;
use serde_json::Value;
use std::alloc::Allocator;

/// What is read from a JSON value.
pub trait FromValue<A: Allocator> {
    /// What contracts see of a datum.
    ghost Shown: { Type 0 };

    /// What contracts see of the datum itself.
    ghost shows: { Self → Shown };

    /// The datum of a JSON value, if the value has its shape.
    ghost reads: { Data → Option Shown };

    /// Reads the datum that `value` holds.
    ///
    /// # Errors
    ///
    /// `Shape` if and only if the value has another shape; `Memory` if memory runs out.
    fn from_value(alloc: A, value: &Value) -> Result<Self, StoredFault>
        ensures ok { IfOk result (λ x. reads (view value.now) ≡ Some (shows x)) }
        ensures shape { IfErr result (λ e. e ≡ StoredFault.Shape → reads (view value.now) ≡ None) }
        ensures faults { IfErr result (λ e. (e ≡ StoredFault.Shape) ⊎ (e ≡ StoredFault.Memory)) };
}

impl<A: Allocator> FromValue<A> for u64 {
    ghost use Rattle.std.specs.Prelude.{ℕ};
    ghost use Rattle.regalloc2_serialize.specs.FromJson.{long};

    ghost Shown = { ℕ };

    ghost shows = { λ n. n };

    ghost reads = { long };

    fn from_value(_alloc: A, value: &Value) -> Result<u64, StoredFault> {
        value.as_u64().ok_or(StoredFault::Shape)
    }
}

impl<A: Allocator> FromValue<A> for u32 {
    ghost use Rattle.std.specs.Prelude.{ℕ};
    ghost use Rattle.regalloc2_serialize.specs.FromJson.{word};

    ghost Shown = { ℕ };

    ghost shows = { λ n. n };

    ghost reads = { word };

    fn from_value(_alloc: A, value: &Value) -> Result<u32, StoredFault> {
        let Some(number) = value.as_u64() else {
            return Err(StoredFault::Shape);
        };
        u32::try_from(number).or(Err(StoredFault::Shape))
    }
}

impl<A: Allocator> FromValue<A> for u8 {
    ghost use Rattle.std.specs.Prelude.{ℕ};
    ghost use Rattle.regalloc2_serialize.specs.FromJson.{byte};

    ghost Shown = { ℕ };

    ghost shows = { λ n. n };

    ghost reads = { byte };

    fn from_value(_alloc: A, value: &Value) -> Result<u8, StoredFault> {
        let Some(number) = value.as_u64() else {
            return Err(StoredFault::Shape);
        };
        u8::try_from(number).or(Err(StoredFault::Shape))
    }
}

impl<T: FromValue<A> + Drop, A: Allocator + Copy> FromValue<A> for Vec<T, A> {
    ghost use Rattle.std.specs.Prelude.{List, map};
    ghost use Rattle.regalloc2_serialize.specs.FromJson.{list};

    ghost Shown = { List T.Shown };

    ghost shows = { λ v. map T.shows v.items };

    ghost reads = { list T.reads };

    fn from_value(alloc: A, value: &Value) -> Result<Vec<T, A>, StoredFault> {
        let Some(array) = value.as_array() else {
            return Err(StoredFault::Shape);
        };
        let mut rest = array.as_slice();
        let mut items = Vec::new(alloc);
        while let Some((item, tail)) = rest.split_first() {
            let datum = T::from_value(alloc, item)?;
            items.push(datum)?;
            rest = tail;
        }
        Ok(items)
    }
}

impl<T: FromValue<A>, A: Allocator> FromValue<A> for Option<T> {
    ghost use Rattle.std.specs.Option.{option_map};
    ghost use Rattle.regalloc2_serialize.specs.FromJson.{or_null};

    ghost Shown = { Option T.Shown };

    ghost shows = { option_map T.shows };

    ghost reads = { or_null T.reads };

    fn from_value(alloc: A, value: &Value) -> Result<Option<T>, StoredFault> {
        if value.is_null() {
            return Ok(None);
        }
        Ok(Some(T::from_value(alloc, value)?))
    }
}

impl<A: Allocator> FromValue<A> for bool {
    ghost use Rattle.std.specs.Prelude.{Bool};
    ghost use Rattle.serde_json.specs.Find.{as_bool};

    ghost Shown = { Bool };

    ghost shows = { λ b. b };

    ghost reads = { as_bool };

    fn from_value(_alloc: A, value: &Value) -> Result<bool, StoredFault> {
        value.as_bool().ok_or(StoredFault::Shape)
    }
}

/// Returns the member `name` of the object `value`.
pub(crate) fn member_from<T: FromValue<A>, A: Allocator>(
    alloc: A,
    value: &Value,
    name: &str,
) -> Result<T, StoredFault>
    ensures ok { IfOk result (λ x. member name.now T.reads (view value.now) ≡ Some (T.shows x)) }
    ensures shape { IfErr result (λ e. e ≡ StoredFault.Shape → member name.now T.reads (view value.now) ≡ None) }
    ensures faults { IfErr result (λ e. (e ≡ StoredFault.Shape) ⊎ (e ≡ StoredFault.Memory)) }
{
    let Some(found) = value.get(name) else {
        return Err(StoredFault::Shape);
    };
    T::from_value(alloc, found)
}

/// Returns the word at `index` of the array `value`, if the item there is one.
fn word_at(value: &Value, index: usize) -> Option<u32>
    ensures { result ≡ item_at index word (view value.now) }
{
    let number = value.get(index)?.as_u64()?;
    u32::try_from(number).ok()
}

impl<A: Allocator + Copy> FromValue<A> for (u32, u32) {
    ghost use Rattle.std.specs.Prelude.{ℕ};
    ghost use Rattle.regalloc2_serialize.specs.FromJson.{pair};

    ghost Shown = { ℕ × ℕ };

    ghost shows = { λ p. p };

    ghost reads = { pair };

    fn from_value(_alloc: A, value: &Value) -> Result<(u32, u32), StoredFault> {
        if value.get(2).is_some() {
            return Err(StoredFault::Shape);
        }
        let pair = word_at(value, 0).zip(word_at(value, 1));
        pair.ok_or(StoredFault::Shape)
    }
}

impl<A: Allocator + Copy> FromValue<A> for (u32, u32, u32) {
    ghost use Rattle.std.specs.Prelude.{ℕ};
    ghost use Rattle.regalloc2_serialize.specs.FromJson.{triple};

    ghost Shown = { ℕ × ℕ × ℕ };

    ghost shows = { λ p. p };

    ghost reads = { triple };

    fn from_value(_alloc: A, value: &Value) -> Result<(u32, u32, u32), StoredFault> {
        if value.get(3).is_some() {
            return Err(StoredFault::Shape);
        }
        let pair = word_at(value, 0).zip(word_at(value, 1));
        match pair.zip(word_at(value, 2)) {
            Some(((first, second), third)) => Ok((first, second, third)),
            None => Err(StoredFault::Shape),
        }
    }
}

impl<A: Allocator + Copy> FromValue<A> for (u32, u32, u32, u32) {
    ghost use Rattle.std.specs.Prelude.{ℕ};
    ghost use Rattle.regalloc2_serialize.specs.FromJson.{quadruple};

    ghost Shown = { ℕ × ℕ × ℕ × ℕ };

    ghost shows = { λ p. p };

    ghost reads = { quadruple };

    fn from_value(_alloc: A, value: &Value) -> Result<(u32, u32, u32, u32), StoredFault> {
        if value.get(4).is_some() {
            return Err(StoredFault::Shape);
        }
        let first = word_at(value, 0).zip(word_at(value, 1));
        let last = word_at(value, 2).zip(word_at(value, 3));
        match first.zip(last) {
            Some(((a, b), (c, d))) => Ok((a, b, c, d)),
            None => Err(StoredFault::Shape),
        }
    }
}
