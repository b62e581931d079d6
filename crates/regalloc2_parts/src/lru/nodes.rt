//! The nodes of a ring of registers.

ghost use Rattle.std.specs.Prelude.{◌≡◌, ◌≢◌, ◌∷◌, ◌++◌, [], ◌<◌, ◌≤◌, All, Contains, length, map, not, filter, nat_eq, reverse, slice_set};
ghost use Rattle.std.specs.List.{IsDistinct};
ghost use Rattle.std.specs.Iterator.{YieldsFirst, item_count};
ghost use Rattle.regalloc2_parts.specs.RingNodes.{IsNodeRing, IsRingOfNumbers, lru_changed_links, named, lru_nexts, lru_prevs, ring_numbers};

use regalloc2_names::{PReg, PRegSetIter, RegClass};
use std::marker::Model;

/// The links of a register's number: the numbers before and after it in the ring.
#[derive(Clone, Copy, Debug)]
pub struct LruNode {
    pub prev: u8,
    pub next: u8,
}

/// Makes `prev` and `next` neighbours: two links change.
fn link(nodes: &mut [LruNode], prev: u8, next: u8)
    requires prev { prev < length nodes.old }
    requires next { next < length nodes.old }
    ensures nexts { lru_nexts nodes.new ≡ slice_set (lru_nexts nodes.old) prev next }
    ensures prevs { lru_prevs nodes.new ≡ slice_set (lru_prevs nodes.old) next prev }
    ensures few { lru_changed_links nodes.old nodes.new ≤ 2 }
    ensures long { length nodes.new ≡ length nodes.old }
{
    nodes[prev as usize].next = next;
    nodes[next as usize].prev = prev;
}

/// Adds `number` to the ring of `head`, as the least recently used.
pub fn append_node(nodes: &mut [LruNode], head: u8, number: u8)
    requires ring { IsNodeRing nodes.old head }
    requires below { number < length nodes.old }
    requires absent { All (λ n. n ≢ number) (ring_numbers nodes.old head) }
    ensures ring { IsRingOfNumbers nodes.new head (ring_numbers nodes.old head ++ number ∷ []) }
    ensures few { lru_changed_links nodes.old nodes.new ≤ 4 }
    ensures long { length nodes.new ≡ length nodes.old }
{
    let oldest = nodes[head as usize].prev;
    link(nodes, oldest, number);
    link(nodes, number, head);
}

/// Removes `number`, a member other than the most recently used, from the ring of `head`.
fn take_out_node(nodes: &mut [LruNode], head: u8, number: u8)
    requires ring { IsNodeRing nodes.old head }
    requires member { Contains (ring_numbers nodes.old head) number }
    requires other { number ≢ head }
    ensures ring { IsRingOfNumbers nodes.new head (filter (λ n. not (nat_eq number n)) (ring_numbers nodes.old head)) }
    ensures few { lru_changed_links nodes.old nodes.new ≤ 2 }
    ensures long { length nodes.new ≡ length nodes.old }
{
    let node = nodes[number as usize];
    link(nodes, node.prev, node.next);
}

/// Makes `number`, a member other than the most recently used, the least recently used of the ring of
/// `head`. The other members keep their order.
fn make_oldest(nodes: &mut [LruNode], head: u8, number: u8)
    requires ring { IsNodeRing nodes.old head }
    requires member { Contains (ring_numbers nodes.old head) number }
    requires other { number ≢ head }
    ensures ring { IsRingOfNumbers nodes.new head (filter (λ n. not (nat_eq number n)) (ring_numbers nodes.old head) ++ number ∷ []) }
    ensures few { lru_changed_links nodes.old nodes.new ≤ 6 }
    ensures long { length nodes.new ≡ length nodes.old }
{
    take_out_node(nodes, head, number);
    append_node(nodes, head, number);
}

/// Makes `number`, any member, the most recently used of the ring of `head`, as `poke_node` does,
/// which calls it for members other than the least recently used.
#[inline(never)]
fn poke_younger(nodes: &mut [LruNode], head: &mut u8, number: u8)
    requires ring { IsNodeRing nodes.old head.old }
    requires member { Contains (ring_numbers nodes.old head.old) number }
    ensures ring { IsRingOfNumbers nodes.new head.new (number ∷ filter (λ n. not (nat_eq number n)) (ring_numbers nodes.old head.old)) }
    ensures few { lru_changed_links nodes.old nodes.new ≤ 6 }
    ensures long { length nodes.new ≡ length nodes.old }
{
    if number == *head {
        return;
    }
    make_oldest(nodes, *head, number);
    *head = number;
}

/// Makes `number`, a member, the most recently used of the ring of `head`; the other members keep their
/// order. At most six links and the head change.
///
/// For the least recently used member only the head changes: it is right before the most recently
/// used one in the ring, and so is already at its new place. This case is tested first, and inline,
/// because the allocator mostly chooses this member.
#[inline(always)]
pub fn poke_node(nodes: &mut [LruNode], head: &mut u8, number: u8)
    requires ring { IsNodeRing nodes.old head.old }
    requires member { Contains (ring_numbers nodes.old head.old) number }
    ensures ring { IsRingOfNumbers nodes.new head.new (number ∷ filter (λ n. not (nat_eq number n)) (ring_numbers nodes.old head.old)) }
    ensures few { lru_changed_links nodes.old nodes.new ≤ 6 }
    ensures long { length nodes.new ≡ length nodes.old }
{
    if nodes[*head as usize].prev == number {
        *head = number;
        return;
    }
    poke_younger(nodes, head, number);
}

/// Makes the ring of `head` and the numbers of the registers that are left in the walk `rest`.
pub fn make_ring(nodes: &mut [LruNode], head: u8, rest: PRegSetIter)
    requires room { length nodes.old ≡ 64 }
    requires below { head < 64 }
    requires distinct { IsDistinct nat_eq (head ∷ map (λ r. r.number) rest) }
    ensures ring { IsRingOfNumbers nodes.new head (head ∷ map (λ r. r.number) rest) }
    ensures long { length nodes.new ≡ length nodes.old }
{
    link(nodes, head, head);
    for preg in rest {
        append_node(nodes, head, preg.hw_enc() as u8);
    }
}

/// The registers of a ring that are left in a walk from the least to the most recently used,
/// specified as their list.
#[derive(Drop)]
pub struct OldestFirst<'a> {
    nodes: &'a [LruNode],
    head: u8,
    class: RegClass,
    at: Option<u8>,
}

impl<'a> Model for OldestFirst<'a> {
    ghost use Rattle.std.specs.Prelude.{List};
    ghost use Rattle.regalloc2_names.specs.Register.{Register};
    ghost use Rattle.regalloc2_parts.specs.RingNodes.{IsLeft, left_of};

    ghost Value = { List Register };

    ghost view = { λ it. left_of it.nodes.now it.head it.class it.at };

    ghost invariant = { λ it. IsLeft it.nodes.now it.head it.at };
}

impl<'a> OldestFirst<'a> {
    /// A walk over no register. `nodes` and `class` are unused.
    pub fn none(nodes: &'a [LruNode], class: RegClass) -> Self
        requires { length nodes.now ≤ 64 }
        ensures { result ≡ [] }
    {
        OldestFirst {
            nodes,
            head: 0,
            class,
            at: None,
        }
    }

    /// A walk over the ring of `head`.
    #[inline(always)]
    pub fn of(nodes: &'a [LruNode], head: u8, class: RegClass) -> Self
        requires few { length nodes.now ≤ 64 }
        requires ring { IsNodeRing nodes.now head }
        ensures { result ≡ reverse (map (named class) (ring_numbers nodes.now head)) }
    {
        let oldest = nodes[head as usize].prev;
        OldestFirst {
            nodes,
            head,
            class,
            at: Some(oldest),
        }
    }
}

impl<'a> Iterator for OldestFirst<'a> {
    type Item = PReg;

    ghost next_gives = { YieldsFirst (λ rest. rest) };

    ghost remaining = { item_count (λ rest. rest) };

    #[inline(always)]
    fn next(&mut self) -> Option<PReg> {
        let at = self.at?;
        self.at = if at == self.head {
            None
        } else {
            Some(self.nodes[at as usize].prev)
        };
        Some(PReg::new(at as usize, self.class))
    }
}
