//! Tables in which a parameter may be passed without a walk over the places of its argument.
//!
//! A branch to many blocks may pass one vreg, which many places hold, to a parameter of each. A block that is entered
//! over one edge alone needn't have its parameter noted at each of these places: a question about the parameter is
//! answered from its argument, until the parameter or the argument is written, or another edge is met in.

ghost use Rattle.std.specs.Prelude.{◌≡◌, ◌<◌, ◌≢◌, ℕ, true, false, ◌==◌, ◌&&◌, ◌↔◌, nat_eq, nat_lt, if◌then◌else◌, length, get_or, None, Contains, IfOk, OnOk};
ghost use Rattle.std.specs.Prelude.{min};
ghost use Rattle.std.specs.Bool.{OnTrue, OnFalse};
ghost use Rattle.regalloc2_checker_sets.specs.EntrySets.{taken_from};
ghost use Rattle.std.specs.List.{position};
ghost use Rattle.std.specs.List.Sorted.{IsStrictlyIncreasing};
ghost use Rattle.regalloc2_names.specs.PlaceBits.{bits_of_place};
ghost use Rattle.regalloc2_checker.specs.Holding.{count_of, holds_now, holds_in, is_in, AreKeptTables, HoldsNow, LosesSome};
ghost use Rattle.regalloc2_checker.specs.Showing.{read_as, table_count, shows_now, shows_in, ListsPassed, IsReadApart, AreTablesKept, ShowsNow};

use crate::tables::Tables;
use regalloc2_checker_sets::Positions;
use regalloc2_names::{Allocation, VReg};
use std::alloc::{AllocError, Allocator};
use std::marker::Model;

/// A parameter that was passed for an argument, by their positions: each place that holds the argument holds the
/// parameter.
#[derive(Clone, Copy, Drop)]
pub struct Passed {
    pub parameter: usize,
    pub argument: usize,
}

/// Tables, and for each table the parameter that was passed there and isn't noted at the places of its argument.
#[derive(Drop)]
pub struct PassingTables<A: Allocator> {
    tables: Tables<A>,
    passed: Option<Passed>,
    saved: Vec<Option<Passed>, A>,
    alloc: A,
}

impl<A: Allocator> Model for PassingTables<A> {
    ghost use Rattle.regalloc2_checker.specs.Showing.{Showing, showing, AreShown};

    ghost Value = { Showing };

    ghost view = { λ t. showing t.tables t.passed t.saved.items };

    ghost invariant = { λ t. AreShown (showing t.tables t.passed t.saved.items) };
}

/// Notes the parameter of `passed`, if any, at the places of its argument in the current table.
fn settle<A: Allocator + Copy>(
    alloc: A,
    tables: &mut Tables<A>,
    passed: Option<Passed>,
) -> Result<(), AllocError>
    requires { ListsPassed tables.old.vregs passed }
    ensures kept { AreKeptTables tables.old tables.new }
    ensures now { OnOk result (HoldsNow tables.new (λ i y. holds_now tables.old i (read_as tables.old.vregs passed y))) }
{
    let Some(passed) = passed else {
        return Ok(());
    };
    let holders = tables.holders(alloc, passed.argument)?;
    tables.give(passed.parameter, &holders)
}

/// Notes the parameter of `passed`, if any, in the saved `table`. The table `spare` keeps the current table meanwhile.
fn settle_in<A: Allocator + Copy>(
    alloc: A,
    tables: &mut Tables<A>,
    passed: Option<Passed>,
    table: usize,
    spare: usize,
) -> Result<(), AllocError>
    requires passed { ListsPassed tables.old.vregs passed }
    requires table { table < count_of tables.old }
    requires spare { spare < count_of tables.old }
    requires apart { table ≢ spare }
    ensures places { tables.new.places ≡ tables.old.places }
    ensures vregs { tables.new.vregs ≡ tables.old.vregs }
    ensures count { count_of tables.new ≡ count_of tables.old }
    ensures now { OnOk result (HoldsNow tables.new (holds_now tables.old)) }
    ensures tables { OnOk result ((k i y : ℕ) → k ≢ spare → i < length tables.old.places → holds_in tables.new k i y
        ≡ (if nat_eq k table then holds_in tables.old table i (read_as tables.old.vregs passed y) else holds_in tables.old k i y)) }
{
    tables.save(spare)?;
    tables.load(table);
    settle(alloc, tables, passed)?;
    tables.save(table)?;
    tables.load(spare);
    Ok(())
}

/// Returns the numbers other than `number`.
fn all_but<A: Allocator + Copy>(
    alloc: A,
    numbers: &[u32],
    number: u32,
) -> Result<Vec<u32, A>, AllocError>
    ensures gone { IfOk result (λ r. Contains r.items number → ⊥) }
    ensures others { IfOk result (λ r. (y : ℕ) → y ≢ number → Contains r.items y ↔ Contains numbers.now y) }
{
    let mut left = Vec::new(alloc);
    for other in numbers {
        if *other == number {
            continue;
        }
        left.push(*other)?;
    }
    Ok(left)
}

/// Returns `numbers` with `number` if `is_in`, and without it otherwise.
fn with_or_without<A: Allocator + Copy>(
    alloc: A,
    numbers: &[u32],
    number: u32,
    is_in: bool,
) -> Result<Vec<u32, A>, AllocError>
    ensures here { IfOk result (λ r. Contains r.items number ↔ (is_in ≡ true)) }
    ensures others { IfOk result (λ r. (y : ℕ) → y ≢ number → Contains r.items y ↔ Contains numbers.now y) }
{
    let mut changed = all_but(alloc, numbers, number)?;
    if !is_in {
        return Ok(changed);
    }
    changed.push(number)?;
    Ok(changed)
}

impl<A: Allocator + Copy> PassingTables<A> {
    /// Returns tables without a member, over listed places and vregs. Past 2^38 places the memory allocation fails.
    pub fn new(
        alloc: A,
        count: usize,
        places: Positions<A>,
        vregs: Positions<A>,
    ) -> Result<PassingTables<A>, AllocError>
        requires places { IsStrictlyIncreasing places }
        requires vregs { IsStrictlyIncreasing vregs }
        ensures places { IfOk result (λ t. t.places ≡ places) }
        ensures vregs { IfOk result (λ t. t.vregs ≡ vregs) }
        ensures count { IfOk result (λ t. table_count t ≡ count) }
        ensures now { IfOk result (λ t. (i y : ℕ) → shows_now t i y ≡ false) }
        ensures tables { IfOk result (λ t. (k i y : ℕ) → shows_in t k i y ≡ false) }
    {
        if count == usize::MAX {
            return Err(AllocError);
        }
        let saved = Vec::from_elem(alloc, None, count)?;
        let tables = Tables::new(alloc, count + 1, places, vregs)?;
        Ok(PassingTables {
            tables,
            passed: None,
            saved,
            alloc,
        })
    }

    /// Returns the position of `place`, if it is listed.
    pub fn place(&self, place: Allocation) -> Option<usize>
        ensures { result ≡ position (λ n. n == bits_of_place place) self.now.places }
    {
        self.tables.place(place)
    }

    /// Returns the position of the vreg of `bits`, if it is listed.
    pub fn vreg(&self, bits: u32) -> Option<usize>
        ensures { result ≡ position (λ n. n == bits) self.now.vregs }
    {
        self.tables.vreg(bits)
    }

    /// Returns the bits under which the vreg of `bits` is held: its argument's, for the parameter that was passed.
    fn read(&self, bits: u32) -> u32
        ensures { result ≡ read_as self.now.vregs self.now.passed bits }
    {
        let Some(passed) = self.passed else {
            return bits;
        };
        let parameter = self.tables.bits(passed.parameter);
        if bits == parameter {
            return self.tables.bits(passed.argument);
        }
        bits
    }

    /// Returns whether `place` holds the vreg of `bits`.
    pub fn has(&self, place: usize, bits: u32) -> bool
        requires { place < length self.now.places }
        ensures { result ≡ shows_now self.now place bits }
    {
        self.tables.has(place, self.read(bits))
    }

    /// Returns the bits of the vregs that `place` holds, rising.
    pub fn members(&self, place: usize) -> Result<Vec<u32, A>, AllocError>
        requires { place < length self.now.places }
        ensures rising { IfOk result (λ members. IsStrictlyIncreasing members.items) }
        ensures members { IfOk result (λ members. (y : ℕ) → Contains members.items y ↔ (shows_now self.now place y ≡ true)) }
    {
        let held = self.tables.members(place)?;
        let Some(passed) = self.passed else {
            return Ok(held);
        };
        let parameter = self.tables.bits(passed.parameter);
        let argument = self.tables.bits(passed.argument);
        let is_in = self.tables.has(place, argument);
        let shown = with_or_without(self.alloc, &held, parameter, is_in)?;
        Ok(Positions::of(shown).into_numbers())
    }

    /// Empties `place`.
    pub fn clear(&mut self, place: usize)
        requires { place < length self.old.places }
        ensures kept { AreTablesKept self.old self.new }
        ensures now { ShowsNow self.new (λ i y. if nat_eq i place then false else shows_now self.old i y) }
    {
        self.tables.clear(place);
    }

    /// Copies what `from` holds to `to`.
    #[inline(always)]
    pub fn copy(&mut self, from: usize, to: usize) -> Result<(), AllocError>
        requires from { from < length self.old.places }
        requires to { to < length self.old.places }
        ensures kept { AreTablesKept self.old self.new }
        ensures now { OnOk result (ShowsNow self.new (λ i y. if nat_eq i to then shows_now self.old from y else shows_now self.old i y)) }
    {
        self.tables.copy(from, to)
    }

    /// Notes the parameter that was passed in the current table, if any, at the places of its argument.
    #[inline(never)]
    fn settle(&mut self) -> Result<(), AllocError>
        ensures kept { AreTablesKept self.old self.new }
        ensures now { OnOk result (ShowsNow self.new (shows_now self.old)) }
        ensures none { OnOk result (self.new.passed ≡ None) }
    {
        settle(self.alloc, &mut self.tables, self.passed)?;
        self.passed = None;
        Ok(())
    }

    /// Notes the parameter that was passed at the places of its argument, if `vreg` is the parameter or the argument.
    #[inline(always)]
    fn settle_for(&mut self, vreg: usize) -> Result<(), AllocError>
        requires { vreg < length self.old.vregs }
        ensures kept { AreTablesKept self.old self.new }
        ensures now { OnOk result (ShowsNow self.new (shows_now self.old)) }
        ensures apart { OnOk result (IsReadApart self.new.vregs self.new.passed (get_or self.old.vregs vreg 0)) }
    {
        let Some(passed) = self.passed else {
            return Ok(());
        };
        let bits = self.tables.bits(vreg);
        let parameter = self.tables.bits(passed.parameter);
        let argument = self.tables.bits(passed.argument);
        if bits == parameter {
            return self.settle();
        }
        if bits == argument {
            return self.settle();
        }
        Ok(())
    }

    /// Takes `vreg` out of every place.
    pub fn forget(&mut self, vreg: usize) -> Result<(), AllocError>
        requires { vreg < length self.old.vregs }
        ensures kept { AreTablesKept self.old self.new }
        ensures now { OnOk result (ShowsNow self.new (λ i y. if nat_eq y (get_or self.old.vregs vreg 0) then false else shows_now self.old i y)) }
    {
        self.settle_for(vreg)?;
        self.tables.forget(vreg)
    }

    /// Makes `place` hold `vreg` alone, and takes `vreg` out of every other place.
    #[inline(always)]
    pub fn define(&mut self, place: usize, vreg: usize) -> Result<(), AllocError>
        requires place { place < length self.old.places }
        requires vreg { vreg < length self.old.vregs }
        ensures kept { AreTablesKept self.old self.new }
        ensures now { OnOk result (ShowsNow self.new (λ i y. if nat_eq i place then nat_eq y (get_or self.old.vregs vreg 0)
            else (if nat_eq y (get_or self.old.vregs vreg 0) then false else shows_now self.old i y))) }
    {
        self.settle_for(vreg)?;
        self.tables.define(place, vreg)
    }

    /// Returns the places that hold `vreg`.
    pub fn holders(&self, alloc: A, vreg: usize) -> Result<Vec<usize, A>, AllocError>
        requires { vreg < length self.now.vregs }
        ensures { IfOk result (λ holders. (i : ℕ) → is_in holders.items i
            ≡ (nat_lt i (length self.now.places) && shows_now self.now i (get_or self.now.vregs vreg 0))) }
    {
        let Some(passed) = self.passed else {
            return self.tables.holders(alloc, vreg);
        };
        let bits = self.tables.bits(vreg);
        let parameter = self.tables.bits(passed.parameter);
        if bits == parameter {
            return self.tables.holders(alloc, passed.argument);
        }
        self.tables.holders(alloc, vreg)
    }

    /// Makes exactly `places` hold `vreg`, beside what they hold.
    pub fn give(&mut self, vreg: usize, places: &[usize]) -> Result<(), AllocError>
        requires vreg { vreg < length self.old.vregs }
        requires places { (i : ℕ) → is_in places.now i ≡ true → i < length self.old.places }
        ensures kept { AreTablesKept self.old self.new }
        ensures now { OnOk result (ShowsNow self.new (λ i y. if nat_eq y (get_or self.old.vregs vreg 0) then is_in places.now i else shows_now self.old i y)) }
    {
        self.settle_for(vreg)?;
        self.tables.give(vreg, places)
    }

    /// Gives `parameter` the places of `argument`, without a walk over them.
    pub fn pass(&mut self, parameter: usize, argument: usize) -> Result<(), AllocError>
        requires parameter { parameter < length self.old.vregs }
        requires argument { argument < length self.old.vregs }
        ensures kept { AreTablesKept self.old self.new }
        ensures now { OnOk result (ShowsNow self.new (λ i y. shows_now self.old i
            (if nat_eq y (get_or self.old.vregs parameter 0) then get_or self.old.vregs argument 0 else y))) }
    {
        self.settle()?;
        self.passed = Some(Passed {
            parameter,
            argument,
        });
        Ok(())
    }

    /// Returns `true` if `vregs` may, on average, be in a sixteenth of the places or more. It looks at every eighth of them, and returns
    /// `true` if there are fewer than eight.
    pub fn have_many_homes(&self, vregs: &[VReg]) -> bool {
        self.tables.have_many_homes(vregs)
    }

    /// Gives parameters what their arguments have, all at once. Visits every place, but changes equal sets once.
    pub fn pass_all(&mut self, params: &[u32], arguments: &[u32]) -> Result<(), AllocError>
        ensures kept { AreTablesKept self.old self.new }
        ensures now { OnOk result (ShowsNow self.new (λ i y. shows_now self.old i
            (taken_from params.now arguments.now (min (length params.now) (length arguments.now)) y))) }
    {
        self.settle()?;
        self.tables.pass_all(params, arguments)
    }

    /// Returns how many words the tables take.
    pub fn word_count(&self) -> usize {
        self.tables.word_count()
    }

    /// Drops the current table and the marked tables. Keeps the marked tables if dropping them makes no room.
    pub fn drop_marked(&mut self, marks: &[bool]) -> Result<(), AllocError>
        ensures places { self.new.places ≡ self.old.places }
        ensures vregs { self.new.vregs ≡ self.old.vregs }
        ensures count { table_count self.new ≡ table_count self.old }
        ensures tables { OnOk result ((k i y : ℕ) → get_or marks.now k false ≡ false → i < length self.old.places
            → shows_in self.new k i y ≡ shows_in self.old k i y) }
    {
        self.tables.drop_marked(self.alloc, marks)
    }

    /// Makes `table` the current table.
    pub fn load(&mut self, table: usize)
        requires { table < table_count self.old }
        ensures kept { AreTablesKept self.old self.new }
        ensures now { ShowsNow self.new (shows_in self.old table) }
    {
        self.tables.load(table);
        self.passed = self.saved[table];
    }

    /// Saves the current table as `table`.
    pub fn save(&mut self, table: usize) -> Result<(), AllocError>
        requires { table < table_count self.old }
        ensures places { self.new.places ≡ self.old.places }
        ensures vregs { self.new.vregs ≡ self.old.vregs }
        ensures count { table_count self.new ≡ table_count self.old }
        ensures now { ShowsNow self.new (shows_now self.old) }
        ensures tables { OnOk result ((k i y : ℕ) → i < length self.old.places → shows_in self.new k i y
            ≡ (if nat_eq k table then shows_now self.old i y else shows_in self.old k i y)) }
    {
        self.tables.save(table)?;
        self.saved[table] = self.passed;
        Ok(())
    }

    /// Notes the parameter that was passed in `table`, if any, at the places of its argument.
    fn settle_saved(&mut self, table: usize) -> Result<(), AllocError>
        requires { table < table_count self.old }
        ensures places { self.new.places ≡ self.old.places }
        ensures vregs { self.new.vregs ≡ self.old.vregs }
        ensures count { table_count self.new ≡ table_count self.old }
        ensures passed { self.new.passed ≡ self.old.passed }
        ensures now { OnOk result (ShowsNow self.new (shows_now self.old)) }
        ensures tables { OnOk result ((k i y : ℕ) → i < length self.old.places → shows_in self.new k i y ≡ shows_in self.old k i y) }
        ensures none { OnOk result (get_or self.new.saved table None ≡ None) }
    {
        let Some(passed) = self.saved[table] else {
            return Ok(());
        };
        let spare = self.saved.len();
        let alloc = self.alloc;
        settle_in(alloc, &mut self.tables, Some(passed), table, spare)?;
        self.saved[table] = None;
        Ok(())
    }

    /// Keeps in `table` only what the current table holds too. Returns whether that is less than it held. The current
    /// table is lost.
    pub fn meet(&mut self, table: usize) -> Result<bool, AllocError>
        requires { table < table_count self.old }
        ensures places { self.new.places ≡ self.old.places }
        ensures vregs { self.new.vregs ≡ self.old.vregs }
        ensures count { table_count self.new ≡ table_count self.old }
        ensures met { OnOk result ((k i y : ℕ) → i < length self.old.places → shows_in self.new k i y
            ≡ (if nat_eq k table then shows_in self.old k i y && shows_now self.old i y else shows_in self.old k i y)) }
        ensures less { IfOk result (λ less. OnTrue less (LosesSome (length self.old.places) (shows_in self.old table) (shows_now self.old))) }
        ensures same { IfOk result (λ less. OnFalse less ((i y : ℕ) → i < length self.old.places → shows_in self.old table i y ≡ true
            → shows_now self.old i y ≡ true)) }
    {
        self.settle()?;
        self.settle_saved(table)?;
        self.tables.meet(table)
    }
}
