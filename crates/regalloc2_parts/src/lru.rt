//! Registers ordered by their last use: LRU lists.

ghost use Rattle.std.specs.Prelude.{◌≡◌, ◌-◌, ◌∷◌, ◌<◌, ◌↔◌, ◌==◌, IsTrue, true, false, IfSome, IfNone, IfOk, IfErr, All, Contains, length, Bool, Some, not};
ghost use Rattle.std.specs.Prelude.{filter, find, map, reverse, slice_get, slice_index_or, slice_set, ◌≢◌, [], IsOk};
ghost use Rattle.std.specs.List.{IsDistinct};
ghost use Rattle.regalloc2_names.specs.declared.RegClass.{RegClass};
ghost use Rattle.regalloc2_names.specs.Register.{Register, class_code, is_register, has_register};
ghost use Rattle.regalloc2_parts.specs.Links.{IsFewLinksApart};
ghost use Rattle.regalloc2_parts.specs.Ring.{AreDistinctOf, IsNewRing, IsOldestAccepted, ring_of};

use nodes::{LruNode, OldestFirst};
use regalloc2_names::{PReg, PRegSet, RegAllocError, RegClass};
use std::alloc::{Allocator, Global};
use std::fmt;
use std::marker::Model;
use std::ops::Index;

mod nodes;

/// The registers of one class ordered by their last use, specified as a list: the most recently
/// used first.
///
/// Each register occurs once, and none is added or removed: only the order changes. It is a ring of
/// nodes, one for each number, that name their neighbours.
#[derive(Debug, Drop)]
pub struct Lru<A: Allocator = Global> {
    /// A node for each number; none for an empty ring.
    nodes: Vec<LruNode, A>,
    /// The number of the most recently used register.
    head: u8,
    class: RegClass,
}

impl<A: Allocator> Model for Lru<A> {
    ghost use Rattle.std.specs.Prelude.{List};
    ghost use Rattle.regalloc2_names.specs.Register.{Register};
    ghost use Rattle.regalloc2_parts.specs.RingNodes.{IsLruNodes, ring_registers};

    ghost Value = { List Register };

    ghost view = { λ ring. ring_registers ring.nodes.items ring.head ring.class };

    ghost invariant = { λ ring. IsLruNodes ring.nodes.items ring.head };
}

impl<A: Allocator> Lru<A> {
    /// Returns the ring of these registers of class `regclass`: the lowest number is the most
    /// recently used, the highest the least.
    ///
    /// Returns `Memory` if there is no room for them, which no contract can foresee. A ring of no
    /// registers allocates nothing, and no later call allocates.
    pub fn new(alloc: A, regclass: RegClass, regs: &[PReg]) -> Result<Self, RegAllocError>
        requires { AreDistinctOf regclass regs.now }
        ensures ring { IfOk result (λ ring. IsNewRing regs.now ring) }
        ensures memory { IfErr result (λ e. e ≡ RegAllocError.Memory) }
        ensures empty { regs.now ≡ [] → IsOk result }
    {
        let mut rest = PRegSet::from_slice(regs).into_iter();
        let Some(newest) = rest.next() else {
            return Ok(Lru {
                nodes: Vec::new(alloc),
                head: 0,
                class: regclass,
            });
        };
        let mut nodes = vec![in alloc; LruNode { prev: 0, next: 0 }; PReg::MAX + 1]?;
        let head = newest.hw_enc() as u8;
        nodes::make_ring(&mut nodes, head, rest);
        Ok(Lru {
            nodes,
            head,
            class: regclass,
        })
    }

    /// Makes the member `preg` the most recently used; the other members keep their order.
    ///
    /// At most six links between nodes change. Allocates nothing.
    #[inline(always)]
    pub fn poke(&mut self, preg: PReg)
        requires { Contains self.old preg }
        ensures moved { self.new ≡ preg ∷ filter (λ r. not (is_register preg r)) self.old }
        ensures members { (r : Register) → Contains self.new r ↔ Contains self.old r }
        ensures distinct { IsDistinct is_register self.new }
        ensures few { IsFewLinksApart 6 (map (λ r. r.number) self.old) (map (λ r. r.number) self.new) }
    {
        nodes::poke_node(&mut self.nodes, &mut self.head, preg.hw_enc() as u8);
    }

    /// A walk over the members, the least recently used first.
    #[inline(always)]
    fn oldest_first(&self) -> OldestFirst<'_>
        ensures walk { result ≡ reverse self.now }
        ensures distinct { IsDistinct is_register self.now }
    {
        if self.nodes.is_empty() {
            OldestFirst::none(&self.nodes, self.class)
        } else {
            OldestFirst::of(&self.nodes, self.head, self.class)
        }
    }

    /// Returns the least recently used member; `None` for an empty ring. It is what `last` returns
    /// for each set that has this member, without a search.
    #[inline(always)]
    pub fn oldest(&self) -> Option<PReg>
        ensures oldest { result ≡ slice_get self.now (length self.now - 1) }
        ensures first { IfSome result (λ r. (test : Register → Bool) → test r ≡ true → find test (reverse self.now) ≡ Some r) }
        ensures member { IfSome result (λ r. Contains self.now r) }
        ensures none { IfNone result (self.now ≡ []) }
        ensures distinct { IsDistinct is_register self.now }
    {
        self.oldest_first().next()
    }

    /// Returns the least recently used member, which stays in the ring; `None` for an empty ring.
    pub fn pop(&mut self) -> Option<PReg>
        ensures oldest { result ≡ slice_get self.old (length self.old - 1) }
        ensures member { IfSome result (λ r. Contains self.old r) }
        ensures unchanged { self.new ≡ self.old }
        ensures distinct { IsDistinct is_register self.new }
    {
        self.oldest()
    }

    /// Returns the least recently used member that is in `from`; `None` if no member is.
    pub fn last(&self, from: PRegSet) -> Option<PReg>
        ensures oldest { result ≡ find (has_register from) (reverse self.now) }
        ensures member { IfSome result (λ r. Contains self.now r) }
        ensures in_set { IfSome result (λ r. IsTrue (has_register from r)) }
        ensures none { IfNone result (All (λ r. has_register from r ≡ false) self.now) }
        ensures distinct { IsDistinct is_register self.now }
    {
        self.oldest_first().find(|preg| from.contains(*preg))
    }

    /// Returns the least recently used member that `f` accepts; `None` if it accepts none. Calls
    /// `f` from the least recently used member on, until it accepts one.
    pub fn last_satisfying<F: Fn(PReg) -> bool + Drop>(&self, f: F) -> Option<PReg>
        requires { F.IsAlwaysCallable f }
        ensures oldest { IsOldestAccepted (λ r b. F.post f r b) self.now result }
        ensures member { IfSome result (λ r. Contains self.now r) }
    {
        for preg in self.oldest_first() {
            if f(preg) {
                return Some(preg);
            }
        }
        None
    }

    /// Returns `true` if the ring has no member.
    pub fn is_empty(&self) -> bool
        ensures { result ≡ (length self.now == 0) }
    {
        self.nodes.is_empty()
    }
}

/// One value for each register class.
#[derive(Clone, Copy, Debug, PartialEq, Eq, Drop)]
pub struct PartedByRegClass<T> {
    /// The values for `Int`, `Float` and `Vector`, in this order.
    pub items: [T; 3],
}

impl<T> Index<RegClass> for PartedByRegClass<T> {
    type Output = T;

    ghost index_gives = { λ parted class value. (other : _) → slice_index_or parted.items (class_code class) other ≡ value };

    fn index(&self, class: RegClass) -> &T {
        &self.items[class as usize]
    }
}

impl<T: Drop> PartedByRegClass<T> {
    /// Sets the value of `class` to `value`; the values of the other two classes stay.
    ///
    /// Upstream: `IndexMut`.
    pub fn set(&mut self, class: RegClass, value: T)
        ensures { self.new.items ≡ slice_set self.old.items (class_code class) value }
    {
        self.items[class as usize] = value;
    }
}

impl<T: fmt::Display> fmt::Display for PartedByRegClass<T> {
    ghost use Rattle.regalloc2_parts.specs.Parted.{text_of_parts};

    ghost output = { λ parted. text_of_parts T.output parted.items };

    fn fmt<W: fmt::Write>(&self, f: &mut fmt::Formatter<W>) -> fmt::Result {
        let [int, float, vector] = &self.items;
        write!(f, "{{ int: {int}, float: {float}, vector: {vector} }}")
    }
}

/// A ring for each register class.
pub type Lrus<A = Global> = PartedByRegClass<Lru<A>>;

impl<A: Allocator + Copy> PartedByRegClass<Lru<A>> {
    /// Returns the rings of `int_regs`, `float_regs` and `vec_regs`, each as `Lru::new` makes it,
    /// or its error.
    ///
    /// A function that is generic in its allocator makes rings that stay within it over `&alloc`.
    pub fn new(
        alloc: A,
        int_regs: &[PReg],
        float_regs: &[PReg],
        vec_regs: &[PReg],
    ) -> Result<Self, RegAllocError>
        requires int { AreDistinctOf RegClass.Int int_regs.now }
        requires float { AreDistinctOf RegClass.Float float_regs.now }
        requires vector { AreDistinctOf RegClass.Vector vec_regs.now }
        ensures three { IfOk result (λ rings. length rings.items ≡ 3) }
        ensures int { IfOk result (λ rings. IsNewRing int_regs.now (ring_of rings.items RegClass.Int)) }
        ensures float { IfOk result (λ rings. IsNewRing float_regs.now (ring_of rings.items RegClass.Float)) }
        ensures vector { IfOk result (λ rings. IsNewRing vec_regs.now (ring_of rings.items RegClass.Vector)) }
        ensures memory { IfErr result (λ e. e ≡ RegAllocError.Memory) }
        ensures empty { int_regs.now ≡ [] → float_regs.now ≡ [] → vec_regs.now ≡ [] → IsOk result }
    {
        let int = Lru::new(alloc, RegClass::Int, int_regs)?;
        let float = Lru::new(alloc, RegClass::Float, float_regs)?;
        let vector = Lru::new(alloc, RegClass::Vector, vec_regs)?;
        Ok(PartedByRegClass {
            items: [int, float, vector],
        })
    }
}

impl<A: Allocator> PartedByRegClass<Lru<A>> {
    /// Makes `preg`, a member of the ring of `class`, its most recently used, as `Lru::poke` does;
    /// the other rings don't change.
    pub fn poke(&mut self, class: RegClass, preg: PReg)
        requires { Contains (ring_of self.old.items class) preg }
        ensures moved { ring_of self.new.items class ≡ preg ∷ filter (λ r. not (is_register preg r)) (ring_of self.old.items class) }
        ensures members { (r : Register) → Contains (ring_of self.new.items class) r ↔ Contains (ring_of self.old.items class) r }
        ensures distinct { IsDistinct is_register (ring_of self.new.items class) }
        ensures others { (other : RegClass) → other ≢ class → ring_of self.new.items other ≡ ring_of self.old.items other }
    {
        self.items[class as usize].poke(preg);
    }

    /// Returns the least recently used member of the ring of `class`, as `Lru::pop` does.
    pub fn pop(&mut self, class: RegClass) -> Option<PReg>
        ensures oldest { result ≡ slice_get (ring_of self.old.items class) (length (ring_of self.old.items class) - 1) }
        ensures member { IfSome result (λ r. Contains (ring_of self.old.items class) r) }
        ensures unchanged { self.new.items ≡ self.old.items }
    {
        self.items[class as usize].pop()
    }

    /// Returns the least recently used member of the ring of `class` that is in `from`, as
    /// `Lru::last` does.
    pub fn last(&self, class: RegClass, from: PRegSet) -> Option<PReg>
        ensures oldest { result ≡ find (has_register from) (reverse (ring_of self.now.items class)) }
        ensures member { IfSome result (λ r. Contains (ring_of self.now.items class) r) }
        ensures in_set { IfSome result (λ r. IsTrue (has_register from r)) }
        ensures none { IfNone result (All (λ r. has_register from r ≡ false) (ring_of self.now.items class)) }
        ensures distinct { IsDistinct is_register (ring_of self.now.items class) }
    {
        self.items[class as usize].last(from)
    }
}
