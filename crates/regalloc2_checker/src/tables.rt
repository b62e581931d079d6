//! Tables of which vregs places hold.

ghost use Rattle.std.specs.Prelude.{◌≡◌, ℕ, ◌+◌, ◌*◌, ◌<◌, ◌≤◌, ◌^◌, ◌==◌, true, false, ◌&&◌, ◌||◌};
ghost use Rattle.std.specs.Prelude.{nat_eq, nat_lt, if◌then◌else◌, length, get_or};
ghost use Rattle.std.specs.Prelude.{◌↔◌, Contains, IfOk, OnOk, OnErr};
ghost use Rattle.std.specs.Bool.{OnTrue, OnFalse};
ghost use Rattle.std.specs.List.{position};
ghost use Rattle.std.specs.List.Sorted.{IsStrictlyIncreasing};
ghost use Rattle.regalloc2_names.specs.PlaceBits.{bits_of_place};
ghost use Rattle.regalloc2_function.specs.Numbers.{has_number, times_listed};
ghost use Rattle.regalloc2_checker_sets.specs.SavedNumbers.{copy_count, saved_number};
ghost use Rattle.std.specs.Prelude.{min};
ghost use Rattle.regalloc2_checker_sets.specs.EntrySets.{is_member, taken_from, IsSetOf};
ghost use Rattle.regalloc2_checker_sets.specs.Homes.{has_few, has_home};
ghost use Rattle.regalloc2_checker.specs.Holding.{count_of, holds_now, holds_in};
ghost use Rattle.regalloc2_checker_sets.specs.Held.{held, AreBelow, AreStill};
ghost use Rattle.regalloc2_checker_sets.specs.Homes.{AreMoreHomes};
ghost use Rattle.regalloc2_checker.specs.Holding.{is_in, AreKeptTables, HoldsNow, IsHome};
ghost use Rattle.regalloc2_checker.specs.Holding.{LosesSome, IsMetBetween};

use crate::one_place::{drop_at, meet_at};
use regalloc2_checker_sets::Positions;
use regalloc2_checker_sets::entries::Entries;
use regalloc2_checker_sets::homes::{Home, Homes};
use regalloc2_checker_sets::passed_sets::{changed_positions, passed_numbers};
use regalloc2_checker_sets::place_positions::PlacePositions;
use regalloc2_checker_sets::sets::Sets;
use regalloc2_checker_sets::unused_sets::drop_unused_sets;
use regalloc2_function::indexset::IndexSet;
use regalloc2_names::{Allocation, VReg};
use std::alloc::{AllocError, Allocator};
use std::marker::Model;

/// Tables of which vregs places hold, by number, and the current table.
///
/// Places and vregs are listed once, and named by their positions there. Each table has one set of the bits of vregs for
/// each place. Tables share equal chunks and sets.
#[derive(Drop)]
pub struct Tables<A: Allocator> {
    places: PlacePositions<A>,
    vregs: Positions<A>,
    entries: Entries<A>,
    sets: Sets<A>,
    homes: Homes<A>,
    alloc: A,
}

impl<A: Allocator> Model for Tables<A> {
    ghost use Rattle.regalloc2_checker.specs.Holding.{Holding, IsSoundHolding};

    ghost Value = { Holding };

    ghost view = { λ t. record { places = t.places; vregs = t.vregs; entries = t.entries; sets = t.sets; homes = t.homes } };

    ghost invariant = { λ t. IsSoundHolding (record { places = t.places; vregs = t.vregs; entries = t.entries; sets = t.sets; homes = t.homes }) };
}

/// Takes the vreg of `bits` out of the places of the mask and the numbers of `home`.
#[inline(never)]
fn drop_each<A: Allocator + Copy>(
    entries: &mut Entries<A>,
    sets: &mut Sets<A>,
    home: &Home<'_, A>,
    bits: u32,
) -> Result<(), AllocError>
    requires { AreBelow sets.old entries.old }
    ensures still { AreStill sets.old entries.old sets.new entries.new }
    ensures ok { OnOk result ((i y : ℕ) → i < length entries.old.cells → held sets.new entries.new i y
        ≡ (if has_few home.now i && nat_eq y bits then false else held sets.old entries.old i y)) }
    ensures err { OnErr result ((i y : ℕ) → i < length entries.old.cells → held sets.new entries.new i y ≡ true → held sets.old entries.old i y ≡ true) }
{
    for place in home.few() {
        drop_at(entries, sets, place, bits)?;
    }
    Ok(())
}

/// Takes the vreg of `bits` out of the places of the mask and the numbers of `home`, if there are any.
#[inline(always)]
fn drop_few<A: Allocator + Copy>(
    entries: &mut Entries<A>,
    sets: &mut Sets<A>,
    home: &Home<'_, A>,
    bits: u32,
) -> Result<(), AllocError>
    requires { AreBelow sets.old entries.old }
    ensures still { AreStill sets.old entries.old sets.new entries.new }
    ensures ok { OnOk result ((i y : ℕ) → i < length entries.old.cells → held sets.new entries.new i y
        ≡ (if has_few home.now i && nat_eq y bits then false else held sets.old entries.old i y)) }
    ensures err { OnErr result ((i y : ℕ) → i < length entries.old.cells → held sets.new entries.new i y ≡ true → held sets.old entries.old i y ≡ true) }
{
    // A vreg that is written for the first time has no places.
    if home.has_no_few() {
        return Ok(());
    }
    drop_each(entries, sets, home, bits)
}

/// Takes the vreg of `bits` out of each place of the set `places`.
fn drop_members<A: Allocator + Copy>(
    entries: &mut Entries<A>,
    sets: &mut Sets<A>,
    places: &IndexSet<A>,
    bits: u32,
) -> Result<(), AllocError>
    requires { AreBelow sets.old entries.old }
    ensures still { AreStill sets.old entries.old sets.new entries.new }
    ensures ok { OnOk result ((i y : ℕ) → i < length entries.old.cells → held sets.new entries.new i y
        ≡ (if has_number places.now i && nat_eq y bits then false else held sets.old entries.old i y)) }
    ensures err { OnErr result ((i y : ℕ) → i < length entries.old.cells → held sets.new entries.new i y ≡ true → held sets.old entries.old i y ≡ true) }
{
    for place in places.iter() {
        drop_at(entries, sets, place, bits)?;
    }
    Ok(())
}

/// Takes the vreg of `bits` out of the places of `home`, where it may be.
#[inline(always)]
fn drop_everywhere<A: Allocator + Copy>(
    entries: &mut Entries<A>,
    sets: &mut Sets<A>,
    home: &Home<'_, A>,
    bits: u32,
) -> Result<(), AllocError>
    requires { AreBelow sets.old entries.old }
    ensures still { AreStill sets.old entries.old sets.new entries.new }
    ensures ok { OnOk result ((i y : ℕ) → i < length entries.old.cells → held sets.new entries.new i y
        ≡ (if has_home home.now i && nat_eq y bits then false else held sets.old entries.old i y)) }
    ensures err { OnErr result ((i y : ℕ) → i < length entries.old.cells → held sets.new entries.new i y ≡ true → held sets.old entries.old i y ≡ true) }
{
    drop_few(entries, sets, home, bits)?;
    let Some(others) = home.others() else {
        return Ok(());
    };
    drop_members(entries, sets, others, bits)
}

/// Lists `place`, if it is below `bound` and holds the vreg of `bits`.
#[inline(always)]
fn list_holder<A: Allocator + Copy>(
    holders: &mut Vec<usize, A>,
    entries: &Entries<A>,
    sets: &Sets<A>,
    place: usize,
    bits: u32,
    bound: usize,
) -> Result<(), AllocError>
    requires below { AreBelow sets.now entries.now }
    requires bound { bound ≤ length entries.now.cells }
    ensures { OnOk result ((i : ℕ) → is_in holders.new.items i
        ≡ (is_in holders.old.items i || (nat_eq i place && (nat_lt i bound && held sets.now entries.now i bits)))) }
{
    if place >= bound {
        return Ok(());
    }
    if !sets.has(entries.get(place), bits) {
        return Ok(());
    }
    holders.push(place)?;
    Ok(())
}

/// Lists the places of the mask and the numbers of `home` that are below `bound` and hold the vreg of `bits`.
fn list_few<A: Allocator + Copy>(
    holders: &mut Vec<usize, A>,
    entries: &Entries<A>,
    sets: &Sets<A>,
    home: &Home<'_, A>,
    bits: u32,
    bound: usize,
) -> Result<(), AllocError>
    requires below { AreBelow sets.now entries.now }
    requires bound { bound ≤ length entries.now.cells }
    ensures { OnOk result ((i : ℕ) → is_in holders.new.items i
        ≡ (is_in holders.old.items i || (has_few home.now i && (nat_lt i bound && held sets.now entries.now i bits)))) }
{
    for place in home.few() {
        list_holder(holders, entries, sets, place, bits, bound)?;
    }
    Ok(())
}

/// Lists the places of the set `places` that are below `bound` and hold the vreg of `bits`.
fn list_members<A: Allocator + Copy>(
    holders: &mut Vec<usize, A>,
    entries: &Entries<A>,
    sets: &Sets<A>,
    places: &IndexSet<A>,
    bits: u32,
    bound: usize,
) -> Result<(), AllocError>
    requires below { AreBelow sets.now entries.now }
    requires bound { bound ≤ length entries.now.cells }
    ensures { OnOk result ((i : ℕ) → is_in holders.new.items i
        ≡ (is_in holders.old.items i || (has_number places.now i && (nat_lt i bound && held sets.now entries.now i bits)))) }
{
    for place in places.iter() {
        list_holder(holders, entries, sets, place, bits, bound)?;
    }
    Ok(())
}

/// Returns the places of `home` that are below `bound` and hold the vreg of `bits`.
fn holders_among<A: Allocator + Copy>(
    alloc: A,
    entries: &Entries<A>,
    sets: &Sets<A>,
    home: &Home<'_, A>,
    bits: u32,
    bound: usize,
) -> Result<Vec<usize, A>, AllocError>
    requires below { AreBelow sets.now entries.now }
    requires bound { bound ≤ length entries.now.cells }
    ensures { IfOk result (λ holders. (i : ℕ) → is_in holders.items i
        ≡ (nat_lt i bound && (has_home home.now i && held sets.now entries.now i bits))) }
{
    let mut holders = Vec::new(alloc);
    list_few(&mut holders, entries, sets, home, bits, bound)?;
    let Some(others) = home.others() else {
        return Ok(holders);
    };
    list_members(&mut holders, entries, sets, others, bits, bound)?;
    Ok(holders)
}

/// Notes that the vreg of `bits` may be at `place`, if it is listed.
#[inline(always)]
fn note<A: Allocator + Copy>(
    vregs: &Positions<A>,
    homes: &mut Homes<A>,
    bits: u32,
    place: usize,
) -> Result<(), AllocError>
    requires rising { IsStrictlyIncreasing vregs.now }
    requires homes { length homes.old ≡ length vregs.now }
    requires place { place < 2 ^ 38 }
    ensures more { AreMoreHomes homes.old homes.new }
    ensures noted { OnOk result (IsHome vregs.now homes.new place bits) }
{
    let Some(vreg) = vregs.find(bits, bits as usize / 4) else {
        return Ok(());
    };
    homes.add(vreg, place)
}

/// Notes that the listed vregs of `members` may be at `place`.
#[inline(never)]
fn note_all<A: Allocator + Copy>(
    vregs: &Positions<A>,
    homes: &mut Homes<A>,
    members: &[u32],
    place: usize,
) -> Result<(), AllocError>
    requires rising { IsStrictlyIncreasing vregs.now }
    requires homes { length homes.old ≡ length vregs.now }
    requires place { place < 2 ^ 38 }
    ensures more { AreMoreHomes homes.old homes.new }
    ensures noted { OnOk result ((y : ℕ) → 0 < times_listed members.now y → IsHome vregs.now homes.new place y) }
{
    for bits in members {
        note(vregs, homes, *bits, place)?;
    }
    Ok(())
}

/// Notes that a vreg may be at some places, if it is listed.
fn note_places<A: Allocator + Copy>(
    vregs: &Positions<A>,
    homes: &mut Homes<A>,
    bits: u32,
    places: &IndexSet<A>,
) -> Result<(), AllocError>
    requires rising { IsStrictlyIncreasing vregs.now }
    requires homes { length homes.old ≡ length vregs.now }
    ensures more { AreMoreHomes homes.old homes.new }
    ensures noted { OnOk result ((i : ℕ) → has_number places.now i ≡ true → IsHome vregs.now homes.new i bits) }
{
    let Some(vreg) = vregs.find(bits, bits as usize / 4) else {
        return Ok(());
    };
    homes.add_all(vreg, places)
}

/// Notes that each of some vregs may be at some places.
fn note_all_places<A: Allocator + Copy>(
    vregs: &Positions<A>,
    homes: &mut Homes<A>,
    members: &[u32],
    places: &IndexSet<A>,
) -> Result<(), AllocError>
    requires rising { IsStrictlyIncreasing vregs.now }
    requires homes { length homes.old ≡ length vregs.now }
    ensures more { AreMoreHomes homes.old homes.new }
    ensures noted { OnOk result ((k i : ℕ) → k < length members.now → has_number places.now i ≡ true → IsHome vregs.now homes.new i (get_or members.now k 0)) }
{
    for k in 0..members.len() {
        note_places(vregs, homes, members[k], places)?;
    }
    Ok(())
}

/// Notes that the two vregs of `pair` may be at `place`, if they are listed.
#[inline(never)]
fn note_two<A: Allocator + Copy>(
    vregs: &Positions<A>,
    homes: &mut Homes<A>,
    pair: (u32, u32),
    place: usize,
) -> Result<(), AllocError>
    requires rising { IsStrictlyIncreasing vregs.now }
    requires homes { length homes.old ≡ length vregs.now }
    requires place { place < 2 ^ 38 }
    ensures more { AreMoreHomes homes.old homes.new }
    ensures first { OnOk result (IsHome vregs.now homes.new place pair.0) }
    ensures second { OnOk result (IsHome vregs.now homes.new place pair.1) }
{
    note(vregs, homes, pair.0, place)?;
    note(vregs, homes, pair.1, place)
}

/// Notes that the listed vregs of `set` may be at `place`.
#[inline(always)]
fn note_set<A: Allocator + Copy>(
    vregs: &Positions<A>,
    sets: &Sets<A>,
    homes: &mut Homes<A>,
    set: u32,
    place: usize,
) -> Result<(), AllocError>
    requires rising { IsStrictlyIncreasing vregs.now }
    requires homes { length homes.old ≡ length vregs.now }
    requires set { set < length sets.now }
    requires empty { (y : ℕ) → is_member sets.now 0 y ≡ false }
    requires place { place < 2 ^ 38 }
    ensures more { AreMoreHomes homes.old homes.new }
    ensures noted { OnOk result ((y : ℕ) → is_member sets.now set y ≡ true → IsHome vregs.now homes.new place y) }
{
    if set == 0 {
        return Ok(());
    }
    if let Some(only) = sets.only(set) {
        return note(vregs, homes, only, place);
    }
    if let Some(pair) = sets.two(set) {
        return note_two(vregs, homes, pair, place);
    }
    let members = sets.members(set)?;
    note_all(vregs, homes, &members, place)
}

/// Returns how many positions of `chunk` are below `bound`.
fn count_below(chunk: usize, bound: usize) -> usize
    ensures few { result ≤ 64 }
    ensures below { 0 < result → 64 * chunk + result ≤ bound }
    ensures rest { result < 64 → bound ≤ 64 * chunk + result }
{
    let whole = bound / 64;
    if chunk < whole {
        return 64;
    }
    if chunk == whole { bound % 64 } else { 0 }
}

/// Keeps in `chunk` of the array only what the saved copy `table` has too, at the positions below `bound`. Returns
/// whether the copy has more, or `before` is set.
fn meet_chunk<A: Allocator + Copy>(
    entries: &mut Entries<A>,
    sets: &mut Sets<A>,
    table: usize,
    chunk: usize,
    bound: usize,
    before: bool,
) -> Result<bool, AllocError>
    requires table { table < copy_count entries.old }
    requires chunk { 64 * chunk + 64 ≤ length entries.old.cells }
    requires small { chunk < 2 ^ 57 }
    requires bound { bound ≤ length entries.old.cells }
    requires below { AreBelow sets.old entries.old }
    requires saved { (i : ℕ) → i < length entries.old.cells → saved_number entries.old table i < length sets.old }
    ensures still { AreStill sets.old entries.old sets.new entries.new }
    ensures fewer { (i y : ℕ) → i < length entries.old.cells → held sets.new entries.new i y ≡ true → held sets.old entries.old i y ≡ true }
    ensures met { IfOk result (λ less. IsMetBetween sets.old entries.old sets.new entries.new table (64 * chunk) (64 * (chunk + 1)) bound before less) }
{
    let base = entries.base(table, chunk);
    let mut is_less = before;
    for t in 0..count_below(chunk, bound) {
        let had = entries.word(base + t);
        is_less = meet_at(entries, sets, 64 * chunk + t, had, is_less)?;
    }
    Ok(is_less)
}

/// Keeps in the array only what the saved copy `table` has too, at the positions below `bound`. Returns whether the copy
/// has more.
fn meet_entries<A: Allocator + Copy>(
    entries: &mut Entries<A>,
    sets: &mut Sets<A>,
    table: usize,
    bound: usize,
) -> Result<bool, AllocError>
    requires table { table < copy_count entries.old }
    requires bound { bound ≤ length entries.old.cells }
    requires below { AreBelow sets.old entries.old }
    requires saved { (i : ℕ) → i < length entries.old.cells → saved_number entries.old table i < length sets.old }
    ensures still { AreStill sets.old entries.old sets.new entries.new }
    ensures fewer { (i y : ℕ) → i < length entries.old.cells → held sets.new entries.new i y ≡ true → held sets.old entries.old i y ≡ true }
    ensures met { OnOk result ((i y : ℕ) → i < bound → held sets.new entries.new i y
        ≡ (is_member sets.old (saved_number entries.old table i) y && held sets.old entries.old i y)) }
    ensures less { IfOk result (λ less. less ≡ true
        → LosesSome bound (λ i y. is_member sets.old (saved_number entries.old table i) y) (held sets.old entries.old)) }
    ensures same { IfOk result (λ less. less ≡ false
        → (i y : ℕ) → i < bound → is_member sets.old (saved_number entries.old table i) y ≡ true → held sets.old entries.old i y ≡ true) }
{
    let mut is_less = false;
    let mut from = 0;
    while let Some(chunk) = entries.next_chunk(table, from) {
        is_less = meet_chunk(entries, sets, table, chunk, bound, is_less)?;
        from = chunk + 1;
    }
    Ok(is_less)
}

impl<A: Allocator + Copy> Tables<A> {
    /// Returns tables without a member, over listed places and vregs. Past 2^38 places the memory allocation fails.
    pub fn new(
        alloc: A,
        count: usize,
        places: Positions<A>,
        vregs: Positions<A>,
    ) -> Result<Tables<A>, AllocError>
        requires places { IsStrictlyIncreasing places }
        requires vregs { IsStrictlyIncreasing vregs }
        ensures places { IfOk result (λ t. t.places ≡ places) }
        ensures vregs { IfOk result (λ t. t.vregs ≡ vregs) }
        ensures count { IfOk result (λ t. count_of t ≡ count) }
        ensures now { IfOk result (λ t. (i y : ℕ) → holds_now t i y ≡ false) }
        ensures tables { IfOk result (λ t. (k i y : ℕ) → holds_in t k i y ≡ false) }
    {
        if places.len() > 274877906943 {
            return Err(AllocError);
        }
        let places = PlacePositions::of(alloc, places)?;
        let homes = Homes::new(alloc, vregs.len())?;
        let entries = Entries::new(alloc, count, places.len())?;
        Ok(Tables {
            places,
            vregs,
            entries,
            sets: Sets::new(alloc),
            homes,
            alloc,
        })
    }

    /// Returns the position of `place`, if it is listed.
    pub fn place(&self, place: Allocation) -> Option<usize>
        ensures { result ≡ position (λ n. n == bits_of_place place) self.now.places }
    {
        self.places.find(place)
    }

    /// Returns the position of the vreg of `bits`, if it is listed.
    pub fn vreg(&self, bits: u32) -> Option<usize>
        ensures { result ≡ position (λ n. n == bits) self.now.vregs }
    {
        self.vregs.find(bits, bits as usize / 4)
    }

    /// Returns the bits of the vreg at the position `vreg`.
    pub fn bits(&self, vreg: usize) -> u32
        requires { vreg < length self.now.vregs }
        ensures { result ≡ get_or self.now.vregs vreg 0 }
    {
        self.vregs.number(vreg)
    }

    /// Returns whether `place` holds the vreg of `bits`.
    pub fn has(&self, place: usize, bits: u32) -> bool
        requires { place < length self.now.places }
        ensures { result ≡ holds_now self.now place bits }
    {
        self.sets.has(self.entries.get(place), bits)
    }

    /// Returns the bits of the vregs that `place` holds, rising.
    pub fn members(&self, place: usize) -> Result<Vec<u32, A>, AllocError>
        requires { place < length self.now.places }
        ensures rising { IfOk result (λ members. IsStrictlyIncreasing members.items) }
        ensures members { IfOk result (λ members. (y : ℕ) → Contains members.items y ↔ (holds_now self.now place y ≡ true)) }
    {
        let listed = self.sets.members(self.entries.get(place))?;
        Ok(Positions::of(listed).into_numbers())
    }

    /// Empties `place`.
    pub fn clear(&mut self, place: usize)
        requires { place < length self.old.places }
        ensures kept { AreKeptTables self.old self.new }
        ensures now { HoldsNow self.new (λ i y. if nat_eq i place then false else holds_now self.old i y) }
    {
        self.entries.set(place, 0);
    }

    /// Copies what `from` holds to `to`.
    #[inline(always)]
    pub fn copy(&mut self, from: usize, to: usize) -> Result<(), AllocError>
        requires from { from < length self.old.places }
        requires to { to < length self.old.places }
        ensures kept { AreKeptTables self.old self.new }
        ensures now { OnOk result (HoldsNow self.new (λ i y. if nat_eq i to then holds_now self.old from y else holds_now self.old i y)) }
    {
        let set = self.entries.get(from);
        note_set(&self.vregs, &self.sets, &mut self.homes, set, to)?;
        self.entries.set(to, set);
        Ok(())
    }

    /// Takes `vreg` out of every place.
    #[inline(always)]
    pub fn forget(&mut self, vreg: usize) -> Result<(), AllocError>
        requires { vreg < length self.old.vregs }
        ensures kept { AreKeptTables self.old self.new }
        ensures now { OnOk result (HoldsNow self.new (λ i y. if nat_eq y (get_or self.old.vregs vreg 0) then false else holds_now self.old i y)) }
    {
        let bits = self.vregs.number(vreg);
        drop_everywhere(
            &mut self.entries,
            &mut self.sets,
            &self.homes.at(vreg),
            bits,
        )
    }

    /// Makes `place` hold `set`, and notes that `vreg` may be there.
    #[inline(always)]
    fn put(&mut self, place: usize, vreg: usize, set: u32) -> Result<(), AllocError>
        requires place { place < length self.old.places }
        requires vreg { vreg < length self.old.vregs }
        requires set { set < length self.old.sets }
        requires members { (y : ℕ) → is_member self.old.sets set y ≡ true
            → (nat_eq y (get_or self.old.vregs vreg 0) || holds_now self.old place y) ≡ true }
        ensures kept { AreKeptTables self.old self.new }
        ensures now { OnOk result (HoldsNow self.new (λ i y. if nat_eq i place then is_member self.old.sets set y else holds_now self.old i y)) }
    {
        self.homes.add(vreg, place)?;
        self.entries.set(place, set);
        Ok(())
    }

    /// Returns the number of the set of `vreg` alone.
    fn single(&mut self, vreg: usize) -> Result<u32, AllocError>
        requires { vreg < length self.old.vregs }
        ensures kept { AreKeptTables self.old self.new }
        ensures now { HoldsNow self.new (holds_now self.old) }
        ensures set { IfOk result (λ n. IsSetOf self.new.sets n (λ y. nat_eq y (get_or self.old.vregs vreg 0))) }
    {
        self.sets.single(self.vregs.number(vreg))
    }

    /// Makes `place` hold `vreg` alone, and takes `vreg` out of every other place.
    #[inline(always)]
    pub fn define(&mut self, place: usize, vreg: usize) -> Result<(), AllocError>
        requires place { place < length self.old.places }
        requires vreg { vreg < length self.old.vregs }
        ensures kept { AreKeptTables self.old self.new }
        ensures now { OnOk result (HoldsNow self.new (λ i y. if nat_eq i place then nat_eq y (get_or self.old.vregs vreg 0)
            else (if nat_eq y (get_or self.old.vregs vreg 0) then false else holds_now self.old i y))) }
    {
        self.forget(vreg)?;
        let set = self.single(vreg)?;
        self.put(place, vreg, set)
    }

    /// Returns the places that hold `vreg`.
    pub fn holders(&self, alloc: A, vreg: usize) -> Result<Vec<usize, A>, AllocError>
        requires { vreg < length self.now.vregs }
        ensures { IfOk result (λ holders. (i : ℕ) → is_in holders.items i
            ≡ (nat_lt i (length self.now.places) && holds_now self.now i (get_or self.now.vregs vreg 0))) }
    {
        holders_among(
            alloc,
            &self.entries,
            &self.sets,
            &self.homes.at(vreg),
            self.vregs.number(vreg),
            self.places.len(),
        )
    }

    /// Returns the number of the set of what `place` holds, and of `vreg`.
    fn with(&mut self, place: usize, vreg: usize) -> Result<u32, AllocError>
        requires place { place < length self.old.places }
        requires vreg { vreg < length self.old.vregs }
        ensures kept { AreKeptTables self.old self.new }
        ensures now { HoldsNow self.new (holds_now self.old) }
        ensures set { IfOk result (λ n. IsSetOf self.new.sets n
            (λ y. if nat_eq y (get_or self.old.vregs vreg 0) then true else holds_now self.old place y)) }
    {
        self.sets
            .with(self.entries.get(place), self.vregs.number(vreg))
    }

    /// Adds `vreg` to what `place` holds.
    fn add_at(&mut self, place: usize, vreg: usize) -> Result<(), AllocError>
        requires place { place < length self.old.places }
        requires vreg { vreg < length self.old.vregs }
        ensures kept { AreKeptTables self.old self.new }
        ensures now { OnOk result (HoldsNow self.new (λ i y. if nat_eq i place && nat_eq y (get_or self.old.vregs vreg 0) then true
            else holds_now self.old i y)) }
    {
        let set = self.with(place, vreg)?;
        self.put(place, vreg, set)
    }

    /// Makes exactly `places` hold `vreg`, beside what they hold.
    pub fn give(&mut self, vreg: usize, places: &[usize]) -> Result<(), AllocError>
        requires vreg { vreg < length self.old.vregs }
        requires places { (i : ℕ) → is_in places.now i ≡ true → i < length self.old.places }
        ensures kept { AreKeptTables self.old self.new }
        ensures now { OnOk result (HoldsNow self.new (λ i y. if nat_eq y (get_or self.old.vregs vreg 0) then is_in places.now i else holds_now self.old i y)) }
    {
        self.forget(vreg)?;
        for place in places {
            self.add_at(*place, vreg)?;
        }
        Ok(())
    }

    /// Returns `true` if `vregs` may, on average, be in a sixteenth of the places or more. It looks at every eighth of them, and returns
    /// `true` if there are fewer than eight.
    pub fn have_many_homes(&self, vregs: &[VReg]) -> bool {
        let sampled = vregs.len() / 8;
        let mut count: usize = 0;
        for k in 0..sampled {
            if let Some(vreg) = self.vreg(vregs[8 * k].bits() as u32) {
                count = count.saturating_add(self.homes.at(vreg).other_count());
            }
        }
        count.saturating_mul(16) >= self.entries.len().saturating_mul(sampled)
    }

    /// Gives parameters what their arguments have, all at once. Visits every place, but changes equal sets once.
    pub fn pass_all(&mut self, params: &[u32], arguments: &[u32]) -> Result<(), AllocError>
        ensures kept { AreKeptTables self.old self.new }
        ensures now { OnOk result (HoldsNow self.new (λ i y. holds_now self.old i
            (taken_from params.now arguments.now (min (length params.now) (length arguments.now)) y))) }
    {
        let numbers = passed_numbers(self.alloc, &self.entries, &mut self.sets, params, arguments)?;
        let changed = changed_positions(self.alloc, &self.entries, &numbers)?;
        note_all_places(&self.vregs, &mut self.homes, params, &changed)?;
        self.entries.write_all(0, &numbers);
        Ok(())
    }

    /// Returns how many words the tables take, with their sets.
    pub fn word_count(&self) -> usize {
        self.entries
            .word_count()
            .saturating_add(self.sets.word_count())
    }

    /// Drops the current table, the marked tables, and the sets that no table has. Keeps the marked tables if dropping
    /// them makes no room.
    pub fn drop_marked(&mut self, alloc: A, marks: &[bool]) -> Result<(), AllocError>
        ensures places { self.new.places ≡ self.old.places }
        ensures vregs { self.new.vregs ≡ self.old.vregs }
        ensures count { count_of self.new ≡ count_of self.old }
        ensures tables { OnOk result ((k i y : ℕ) → k < count_of self.old → get_or marks.now k false ≡ false → i < length self.old.places
            → holds_in self.new k i y ≡ holds_in self.old k i y) }
    {
        let Some(entries) = self.entries.without(alloc, marks)? else {
            return drop_unused_sets(alloc, &mut self.entries, &mut self.sets);
        };
        self.entries = entries;
        drop_unused_sets(alloc, &mut self.entries, &mut self.sets)
    }

    /// Makes `table` the current table.
    pub fn load(&mut self, table: usize)
        requires { table < count_of self.old }
        ensures kept { AreKeptTables self.old self.new }
        ensures now { HoldsNow self.new (holds_in self.old table) }
    {
        self.homes.drop_added();
        self.entries.load(table);
    }

    /// Saves the current table as `table`.
    pub fn save(&mut self, table: usize) -> Result<(), AllocError>
        requires { table < count_of self.old }
        ensures places { self.new.places ≡ self.old.places }
        ensures vregs { self.new.vregs ≡ self.old.vregs }
        ensures count { count_of self.new ≡ count_of self.old }
        ensures now { HoldsNow self.new (holds_now self.old) }
        ensures tables { OnOk result ((k i y : ℕ) → i < length self.old.places → holds_in self.new k i y
            ≡ (if nat_eq k table then holds_now self.old i y else holds_in self.old k i y)) }
    {
        self.homes.save_added();
        self.entries.save(table)
    }

    /// Keeps in `table` only what the current table holds too. Returns whether that is less than it held. The current
    /// table is lost.
    pub fn meet(&mut self, table: usize) -> Result<bool, AllocError>
        requires { table < count_of self.old }
        ensures places { self.new.places ≡ self.old.places }
        ensures vregs { self.new.vregs ≡ self.old.vregs }
        ensures count { count_of self.new ≡ count_of self.old }
        ensures met { OnOk result ((k i y : ℕ) → i < length self.old.places → holds_in self.new k i y
            ≡ (if nat_eq k table then holds_in self.old k i y && holds_now self.old i y else holds_in self.old k i y)) }
        ensures less { IfOk result (λ less. OnTrue less (LosesSome (length self.old.places) (holds_in self.old table) (holds_now self.old))) }
        ensures same { IfOk result (λ less. OnFalse less ((i y : ℕ) → i < length self.old.places → holds_in self.old table i y ≡ true
            → holds_now self.old i y ≡ true)) }
    {
        let is_less = meet_entries(&mut self.entries, &mut self.sets, table, self.places.len())?;
        if !is_less {
            return Ok(false);
        }
        self.entries.save(table)?;
        Ok(true)
    }
}
