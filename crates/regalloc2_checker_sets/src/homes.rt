//! The places where vregs may be.

ghost use Rattle.std.specs.Prelude.{◌≡◌, ◌≢◌, ◌⊎◌, ℕ, ◌<◌, ◌≤◌, ◌^◌, true, false, cond, nat_eq, nat_lt, [], ◌∷◌, length, get_or};
ghost use Rattle.std.specs.Prelude.{OnOk, OnErr, IfOk, IfSome, IfNone, IsTrue};
ghost use Rattle.std.specs.Iterator.{YieldsFirst, item_count};
ghost use Rattle.std.specs.Option.{option_map};
ghost use Rattle.regalloc2_function.specs.Numbers.{has_number, times_listed};
ghost use Rattle.regalloc2_checker_sets.specs.Homes.{no_more, no_homes, more_in, home_of, place_list, is_first, has_few, has_home, has_saved};
ghost use Rattle.regalloc2_checker_sets.specs.Homes.{IsMoreHome, AreMorePlaces};
ghost use Rattle.regalloc2_checker_sets.specs.Homes.{AreMoreHomes};

use crate::more_places::{More, MoreList};
use regalloc2_function::indexset::{IndexSet, SetBitsIter};
use std::alloc::{AllocError, Allocator};
use std::marker::Model;

/// Returns the place that `number` stands for, and sets `number` to 0. A 0 stands for no place.
fn take_place(number: &mut u32) -> Option<usize>
    ensures some { IfSome result (λ place. place_list number.old ≡ place ∷ []) }
    ensures none { IfNone result (place_list number.old ≡ []) }
    ensures taken { number.new ≡ 0 }
{
    let place = *number;
    *number = 0;
    if place == 0 {
        None
    } else {
        Some(place as usize)
    }
}

/// The remaining places of a home's mask and of its numbers; a contract sees them as a list.
#[derive(Drop)]
pub struct FewPlacesIter<'a> {
    low: SetBitsIter,
    first: u32,
    second: u32,
    more: &'a [u32],
}

impl<'a> Model for FewPlacesIter<'a> {
    ghost use Rattle.std.specs.Prelude.{List, ℕ, ◌++◌};
    ghost use Rattle.regalloc2_checker_sets.specs.Homes.{place_list};

    ghost Value = { List ℕ };

    ghost view = { λ it. it.low ++ (place_list it.first ++ (place_list it.second ++ it.more.now)) };
}

impl<'a> Iterator for FewPlacesIter<'a> {
    type Item = usize;

    ghost next_gives = { YieldsFirst (λ left. left) };

    ghost remaining = { item_count (λ left. left) };

    fn next(&mut self) -> Option<usize> {
        if let Some(place) = self.low.next() {
            return Some(place);
        }
        if let Some(place) = take_place(&mut self.first) {
            return Some(place);
        }
        if let Some(place) = take_place(&mut self.second) {
            return Some(place);
        }
        let (number, rest) = self.more.split_first()?;
        self.more = rest;
        Some(*number as usize)
    }
}

/// Returns whether `number` may replace `had`: an equal number, or 0.
fn is_room_for(had: u32, number: u32) -> bool
    ensures yes { result ≡ true → (had ≡ 0) ⊎ (had ≡ number) }
    ensures no { result ≡ false → (had ≢ 0) × (had ≢ number) }
{
    had == 0 || had == number
}

/// A home as it is kept: a mask of the places below 32, two numbers that stand for a place each, or for none if they are
/// 0, and the index of its more places in their list, past the last if it has none.
#[derive(Clone, Copy)]
struct Entry {
    low: u32,
    first: u32,
    second: u32,
    index: u32,
}

impl Model for Entry {
    ghost use Rattle.regalloc2_checker_sets.specs.Homes.{HomeEntry};

    ghost Value = { HomeEntry };

    ghost view = { λ e. record { low = e.low; first = e.first; second = e.second; index = e.index } };

    ghost inverse = { λ h. record { low = h.low; first = h.first; second = h.second; index = h.index } };
}

impl Entry {
    /// Adds `place` to the mask, or as one of the two numbers. Returns whether it is there now.
    #[inline(always)]
    fn add(&mut self, place: usize) -> bool
        ensures index { self.new.index ≡ self.old.index }
        ensures added { result ≡ true → (i : ℕ) → is_first self.new.low self.new.first self.new.second i
            ≡ cond (nat_eq i place) true (is_first self.old.low self.old.first self.old.second i) }
        ensures full { result ≡ false → self.new ≡ self.old }
        ensures past { result ≡ false → 32 ≤ place }
    {
        if place < 32 {
            self.low |= 1 << place;
            return true;
        }
        let Ok(number) = u32::try_from(place) else {
            return false;
        };
        if is_room_for(self.first, number) {
            self.first = number;
            return true;
        }
        if is_room_for(self.second, number) {
            self.second = number;
            return true;
        }
        false
    }
}

/// Returns the index of the more places of `entry`, which are made if there are none yet.
fn index_of<A: Allocator + Copy>(
    more: &mut MoreList<A>,
    entry: &mut Entry,
) -> Result<usize, AllocError>
    ensures others { AreMorePlaces more.old more.new }
    ensures kept { IsMoreHome (home_of more.old entry.old) (home_of more.new entry.new) }
    ensures at { IfOk result (λ n. (n < length more.new) × (entry.new.index ≡ n)) }
{
    let end = more.len();
    if (entry.index as usize) < end {
        return Ok(entry.index as usize);
    }
    let Ok(index) = u32::try_from(end) else {
        return Err(AllocError);
    };
    more.push()?;
    entry.index = index;
    Ok(end)
}

/// Adds `place` to the more places of `entry`.
#[inline(never)]
fn add_more<A: Allocator + Copy>(
    more: &mut MoreList<A>,
    entry: &mut Entry,
    place: usize,
) -> Result<(), AllocError>
    requires { place < 2 ^ 38 }
    ensures others { AreMorePlaces more.old more.new }
    ensures kept { IsMoreHome (home_of more.old entry.old) (home_of more.new entry.new) }
    ensures added { OnOk result (has_home (home_of more.new entry.new) place ≡ true) }
{
    let index = index_of(more, entry)?;
    more.add(index, place)
}

/// Adds `places` to the more places of `entry`.
fn add_all_more<A: Allocator + Copy>(
    more: &mut MoreList<A>,
    entry: &mut Entry,
    places: &IndexSet<A>,
) -> Result<(), AllocError>
    ensures others { AreMorePlaces more.old more.new }
    ensures kept { IsMoreHome (home_of more.old entry.old) (home_of more.new entry.new) }
    ensures added { OnOk result ((i : ℕ) → has_number places.now i ≡ true → has_home (home_of more.new entry.new) i ≡ true) }
{
    let index = index_of(more, entry)?;
    more.add_all(index, places)
}

/// Returns the numbers of `more`, or none.
fn numbers_of<A: Allocator + Copy>(more: Option<&More<A>>) -> &[u32]
    ensures { result.now ≡ (more_in (option_map (λ m. m.now) more.entry)).numbers }
{
    match more {
        Some(more) => more.numbers(),
        None => &[],
    }
}

/// The places where a vreg may be: a mask of the places below 32, two numbers that stand for a place each, or for none if
/// they are 0, and more places, if there are some.
#[derive(Drop)]
pub struct Home<'a, A: Allocator> {
    low: u32,
    first: u32,
    second: u32,
    more: Option<&'a More<A>>,
}

impl<'a, A: Allocator> Model for Home<'a, A> {
    ghost use Rattle.std.specs.Option.{option_map};
    ghost use Rattle.regalloc2_checker_sets.specs.Homes.{HomePlaces, more_in};

    ghost Value = { HomePlaces };

    ghost view = { λ h. record { low = h.low; first = h.first; second = h.second; more = more_in (option_map (λ m. m.now) h.more) } };
}

impl<'a, A: Allocator + Copy> Home<'a, A> {
    /// Returns whether the mask is empty, the two numbers are 0, and there are no more places.
    #[inline(always)]
    pub fn has_no_few(&self) -> bool
        ensures { IsTrue result → (self.now.low ≡ 0) × (self.now.first ≡ 0) × (self.now.second ≡ 0) × (self.now.more ≡ no_more) }
    {
        if self.more.is_some() {
            return false;
        }
        self.low == 0 && self.first == 0 && self.second == 0
    }

    /// Returns the places of the mask and of the numbers. Allocates nothing.
    pub fn few(&self) -> FewPlacesIter<'a>
        ensures { (i : ℕ) → nat_lt 0 (times_listed result i) ≡ has_few self.now i }
    {
        FewPlacesIter {
            low: SetBitsIter::new(self.low as u64),
            first: self.first,
            second: self.second,
            more: numbers_of(self.more),
        }
    }

    /// Returns how many places are in the set of other places.
    pub fn other_count(&self) -> usize {
        match self.more {
            Some(more) => more.other_count(),
            None => 0,
        }
    }

    /// Returns the set of other places, if there is one.
    #[inline(always)]
    pub fn others(&self) -> Option<&'a IndexSet<A>>
        ensures some { IfSome result (λ set. set.now ≡ self.now.more.others) }
        ensures none { IfNone result ((i : ℕ) → has_number self.now.more.others i ≡ false) }
    {
        match self.more {
            Some(more) => more.others(),
            None => None,
        }
    }
}

/// The places where vregs may be, by the vreg's number.
#[derive(Drop)]
pub struct Homes<A: Allocator> {
    entries: Vec<Entry, A>,
    more: MoreList<A>,
}

impl<A: Allocator> Model for Homes<A> {
    ghost use Rattle.std.specs.Prelude.{List, map};
    ghost use Rattle.regalloc2_checker_sets.specs.Homes.{HomePlaces, home_of};

    ghost Value = { List HomePlaces };

    ghost view = { λ h. map (home_of h.more) h.entries.items };
}

impl<A: Allocator + Copy> Homes<A> {
    /// Returns `count` homes without places.
    pub fn new(alloc: A, count: usize) -> Result<Self, AllocError>
        ensures { IfOk result (λ homes. length homes ≡ count) }
    {
        let none = Entry {
            low: 0,
            first: 0,
            second: 0,
            index: u32::MAX,
        };
        Ok(Homes {
            entries: vec![in alloc; none; count]?,
            more: MoreList::new(alloc),
        })
    }

    /// Returns the places where `vreg` may be.
    #[inline(always)]
    pub fn at(&self, vreg: usize) -> Home<'_, A>
        requires { vreg < length self.now }
        ensures { result ≡ get_or self.now vreg no_homes }
    {
        let entry = self.entries[vreg];
        Home {
            low: entry.low,
            first: entry.first,
            second: entry.second,
            more: self.more.get(entry.index as usize),
        }
    }

    /// Adds `place` to the places where `vreg` may be.
    #[inline(always)]
    pub fn add(&mut self, vreg: usize, place: usize) -> Result<(), AllocError>
        requires vreg { vreg < length self.old }
        requires place { place < 2 ^ 38 }
        ensures more { AreMoreHomes self.old self.new }
        ensures noted { OnOk result (has_home (get_or self.new vreg no_homes) place ≡ true) }
    {
        let entry = &mut self.entries[vreg];
        if entry.add(place) {
            return Ok(());
        }
        add_more(&mut self.more, entry, place)
    }

    /// Saves the places that were added since the last call of `save_added` or `drop_added`.
    pub fn save_added(&mut self)
        ensures long { length self.new ≡ length self.old }
        ensures saved { (j i : ℕ) → has_home (get_or self.old j no_homes) i ≡ true → has_saved (get_or self.new j no_homes) i ≡ true }
    {
        self.more.save_added();
    }

    /// Drops the places that were added since the last call of `save_added` or `drop_added`. A place that is below 32 or one
    /// of the two numbers stays.
    pub fn drop_added(&mut self)
        ensures long { length self.new ≡ length self.old }
        ensures saved { (j i : ℕ) → has_saved (get_or self.old j no_homes) i ≡ true → has_saved (get_or self.new j no_homes) i ≡ true }
    {
        self.more.drop_added();
    }

    /// Adds `places` to the places where `vreg` may be.
    pub fn add_all(&mut self, vreg: usize, places: &IndexSet<A>) -> Result<(), AllocError>
        requires { vreg < length self.old }
        ensures more { AreMoreHomes self.old self.new }
        ensures noted { OnOk result ((i : ℕ) → has_number places.now i ≡ true → has_home (get_or self.new vreg no_homes) i ≡ true) }
    {
        let entry = &mut self.entries[vreg];
        add_all_more(&mut self.more, entry, places)
    }
}
