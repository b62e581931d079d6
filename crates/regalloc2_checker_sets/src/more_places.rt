//! Places where vregs may be, past the few that each home has itself.

ghost use Rattle.std.specs.Prelude.{◌≡◌, ◌≢◌, ◌⊎◌, ℕ, ◌<◌, ◌≤◌, ◌+◌, ◌^◌, true, false, cond, nat_eq, [], length, get_or};
ghost use Rattle.std.specs.Prelude.{OnOk, OnErr, IfOk, IfSome, IfNone};
ghost use Rattle.std.specs.Option.{option_map};
ghost use Rattle.regalloc2_function.specs.Numbers.{has_number};
ghost use Rattle.regalloc2_checker_sets.specs.Homes.{no_more, more_in, is_one_of, has_more, has_saved_more, set_in};
ghost use Rattle.regalloc2_checker_sets.specs.Homes.{IsMore, IsSaved, AreMorePlaces};

use regalloc2_function::indexset::IndexSet;
use std::alloc::{AllocError, Allocator};
use std::marker::Model;

/// Adds `place` to the set, which is made if there is none yet.
fn add_other<A: Allocator + Copy>(
    alloc: A,
    others: &mut Option<Box<IndexSet<A>, A>>,
    place: usize,
) -> Result<(), AllocError>
    requires { place < 2 ^ 38 }
    ensures ok { OnOk result ((i : ℕ) → has_number (set_in (option_map (λ b. b.value) others.new)) i
        ≡ cond (nat_eq i place) true (has_number (set_in (option_map (λ b. b.value) others.old)) i)) }
    ensures err { OnErr result ((i : ℕ) → has_number (set_in (option_map (λ b. b.value) others.new)) i ≡ has_number (set_in (option_map (λ b. b.value) others.old)) i) }
{
    if let Some(set) = others {
        return set.set(place, true);
    }
    let mut set = IndexSet::new(alloc);
    set.set(place, true)?;
    *others = Some(Box::new(alloc, set)?);
    Ok(())
}

/// Adds `places` to the set, which is made if there is none yet.
fn add_others<A: Allocator + Copy>(
    alloc: A,
    others: &mut Option<Box<IndexSet<A>, A>>,
    places: &IndexSet<A>,
) -> Result<(), AllocError>
    ensures kept { (i : ℕ) → has_number (set_in (option_map (λ b. b.value) others.old)) i ≡ true
        → has_number (set_in (option_map (λ b. b.value) others.new)) i ≡ true }
    ensures added { OnOk result ((i : ℕ) → has_number places.now i ≡ true → has_number (set_in (option_map (λ b. b.value) others.new)) i ≡ true) }
{
    if let Some(set) = others {
        let _is_more = set.union_with(places)?;
        return Ok(());
    }
    let mut set = IndexSet::new(alloc);
    set.assign(places)?;
    *others = Some(Box::new(alloc, set)?);
    Ok(())
}

/// Returns how many places a set has.
fn count_of<A: Allocator + Copy>(places: &IndexSet<A>) -> usize {
    let mut count: usize = 0;
    for _place in places.iter() {
        count = count.saturating_add(1);
    }
    count
}

/// Returns whether `place` is one of `numbers`.
fn is_listed(numbers: &[u32], place: usize) -> bool
    ensures { result ≡ is_one_of numbers.now place }
{
    for number in numbers {
        if *number as usize == place {
            return true;
        }
    }
    false
}

/// Removes `places` from the set, if there is one.
fn remove_all<A: Allocator + Copy>(others: &mut Option<Box<IndexSet<A>, A>>, places: &[u32])
    ensures { (i : ℕ) → is_one_of places.now i ≡ false → has_number (set_in (option_map (λ b. b.value) others.old)) i ≡ true
        → has_number (set_in (option_map (λ b. b.value) others.new)) i ≡ true }
{
    let Some(set) = others else {
        return;
    };
    for place in places {
        // Removing a place allocates nothing, so it doesn't fail.
        let _ = set.set(*place as usize, false);
    }
}

/// More places where a vreg may be: the first `len` of six numbers, and a set of other places, which is made for the first
/// of them, with how many it has.
///
/// Where the current table alone may hold the vreg are the numbers from `saved` on, and the places of the set that `added`
/// lists.
#[derive(Drop)]
pub struct More<A: Allocator> {
    numbers: [u32; 6],
    len: usize,
    saved: usize,
    others: Option<Box<IndexSet<A>, A>>,
    count: usize,
    added: Vec<u32, A>,
}

impl<A: Allocator> Model for More<A> {
    ghost use Rattle.std.specs.Prelude.{◌≤◌, take};
    ghost use Rattle.std.specs.Option.{option_map};
    ghost use Rattle.regalloc2_checker_sets.specs.Homes.{MorePlaces, set_in};

    ghost Value = { MorePlaces };

    ghost view = { λ m. record {
      numbers = take m.len m.numbers;
      saved = m.saved;
      others = set_in (option_map (λ b. b.value) m.others);
      added = m.added.items;
    } };

    ghost invariant = { λ m. m.len ≤ 6 };
}

impl<A: Allocator + Copy> More<A> {
    /// Returns no places. Allocates nothing.
    fn new(alloc: A) -> Self
        ensures { (i : ℕ) → has_more result i ≡ false }
    {
        More {
            numbers: [0; 6],
            len: 0,
            saved: 0,
            others: None,
            count: 0,
            added: Vec::new(alloc),
        }
    }

    /// Returns the numbers.
    pub fn numbers(&self) -> &[u32]
        ensures { result.now ≡ self.now.numbers }
    {
        &self.numbers[..self.len]
    }

    /// Returns the set of other places, if there is one.
    #[inline(always)]
    pub fn others(&self) -> Option<&IndexSet<A>>
        ensures some { IfSome result (λ set. set.now ≡ self.now.others) }
        ensures none { IfNone result ((i : ℕ) → has_number self.now.others i ≡ false) }
    {
        match &self.others {
            Some(set) => Some(set.as_ref()),
            None => None,
        }
    }

    /// Returns how many places are in the set of other places.
    pub fn other_count(&self) -> usize {
        self.count
    }

    /// Returns whether `place` is there.
    fn has(&self, place: usize) -> bool
        requires { place < 2 ^ 38 }
        ensures { result ≡ has_more self.now place }
    {
        if is_listed(self.numbers(), place) {
            return true;
        }
        let Some(set) = self.others() else {
            return false;
        };
        set.get(place)
    }

    /// Adds `place`, which isn't there.
    fn add(&mut self, alloc: A, place: usize) -> Result<(), AllocError>
        requires place { place < 2 ^ 38 }
        requires absent { has_more self.old place ≡ false }
        ensures more { IsMore self.old self.new }
        ensures added { OnOk result (has_more self.new place ≡ true) }
    {
        let Ok(number) = u32::try_from(place) else {
            return add_other(alloc, &mut self.others, place);
        };
        if self.len < self.numbers.len() {
            self.numbers[self.len] = number;
            self.len += 1;
            return Ok(());
        }
        self.added.push(number)?;
        add_other(alloc, &mut self.others, place)?;
        self.count = self.count.saturating_add(1);
        Ok(())
    }

    /// Adds `places`.
    fn add_all(&mut self, alloc: A, places: &IndexSet<A>) -> Result<(), AllocError>
        ensures more { IsMore self.old self.new }
        ensures added { OnOk result ((i : ℕ) → has_number places.now i ≡ true → has_more self.new i ≡ true) }
    {
        add_others(alloc, &mut self.others, places)?;
        if let Some(set) = self.others() {
            self.count = count_of(set);
        }
        Ok(())
    }

    /// Saves the places that were added since the last call of `save_added` or `drop_added`.
    fn save_added(&mut self)
        ensures kept { (i : ℕ) → has_more self.old i ≡ true → has_more self.new i ≡ true }
        ensures saved { IsSaved self.new }
    {
        self.saved = self.len;
        self.added.clear();
    }

    /// Drops the places that were added since the last call of `save_added` or `drop_added`.
    fn drop_added(&mut self)
        ensures kept { (i : ℕ) → has_saved_more self.old i ≡ true → has_saved_more self.new i ≡ true }
        ensures saved { IsSaved self.new }
    {
        self.len = self.len.min(self.saved);
        remove_all(&mut self.others, &self.added);
        self.count = self.count.saturating_sub(self.added.len());
        self.added.clear();
    }
}

/// The more places of homes, and the indexes at which places were added since the last call of `save_added` or `drop_added`.
#[derive(Drop)]
pub struct MoreList<A: Allocator> {
    items: Vec<More<A>, A>,
    grown: Vec<usize, A>,
    alloc: A,
}

impl<A: Allocator> Model for MoreList<A> {
    ghost use Rattle.std.specs.Prelude.{List};
    ghost use Rattle.regalloc2_checker_sets.specs.Homes.{MorePlaces, AreGrown};

    ghost Value = { List MorePlaces };

    ghost view = { λ l. l.items.items };

    ghost invariant = { λ l. AreGrown l.items.items l.grown.items };
}

impl<A: Allocator + Copy> MoreList<A> {
    /// Returns an empty list. Allocates nothing.
    pub fn new(alloc: A) -> Self
        ensures { result ≡ [] }
    {
        MoreList {
            items: Vec::new(alloc),
            grown: Vec::new(alloc),
            alloc,
        }
    }

    /// Returns how many entries there are.
    pub fn len(&self) -> usize
        ensures { result ≡ length self.now }
    {
        self.items.len()
    }

    /// Returns the more places at `index`, unless it is past the last.
    #[inline(always)]
    pub fn get(&self, index: usize) -> Option<&More<A>>
        ensures { more_in (option_map (λ m. m.now) result) ≡ get_or self.now index no_more }
    {
        if index < self.items.len() {
            return Some(&self.items[index]);
        }
        None
    }

    /// Adds an entry without places.
    pub fn push(&mut self) -> Result<(), AllocError>
        ensures more { AreMorePlaces self.old self.new }
        ensures long { OnOk result (length self.new ≡ length self.old + 1) }
    {
        self.items.push(More::new(self.alloc))?;
        Ok(())
    }

    /// Adds `place` to the more places at `index`.
    pub fn add(&mut self, index: usize, place: usize) -> Result<(), AllocError>
        requires index { index < length self.old }
        requires place { place < 2 ^ 38 }
        ensures more { AreMorePlaces self.old self.new }
        ensures added { OnOk result (has_more (get_or self.new index no_more) place ≡ true) }
    {
        let more = &mut self.items[index];
        if more.has(place) {
            return Ok(());
        }
        self.grown.push(index)?;
        more.add(self.alloc, place)
    }

    /// Adds `places` to the more places at `index`.
    pub fn add_all(&mut self, index: usize, places: &IndexSet<A>) -> Result<(), AllocError>
        requires { index < length self.old }
        ensures more { AreMorePlaces self.old self.new }
        ensures added { OnOk result ((i : ℕ) → has_number places.now i ≡ true → has_more (get_or self.new index no_more) i ≡ true) }
    {
        self.grown.push(index)?;
        let more = &mut self.items[index];
        more.add_all(self.alloc, places)
    }

    /// Saves the places that were added since the last call of `save_added` or `drop_added`.
    pub fn save_added(&mut self)
        ensures kept { (n i : ℕ) → has_more (get_or self.old n no_more) i ≡ true → has_more (get_or self.new n no_more) i ≡ true }
        ensures saved { (n : ℕ) → IsSaved (get_or self.new n no_more) }
    {
        for k in 0..self.grown.len() {
            let more = &mut self.items[self.grown[k]];
            more.save_added();
        }
        self.grown.clear();
    }

    /// Drops the places that were added since the last call of `save_added` or `drop_added`.
    pub fn drop_added(&mut self)
        ensures { (n i : ℕ) → has_saved_more (get_or self.old n no_more) i ≡ true → has_saved_more (get_or self.new n no_more) i ≡ true }
    {
        for k in 0..self.grown.len() {
            let more = &mut self.items[self.grown[k]];
            more.drop_added();
        }
        self.grown.clear();
    }
}
