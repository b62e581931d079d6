//! The list of live vregs.

ghost use Rattle.std.specs.Prelude.{◌≡◌, ◌≢◌, ◌∷◌, [], ◌<◌, ◌≤◌, ◌==◌, IfOk, IfErr, All, Any, Contains, length, map, not, filter, slice_set};
ghost use Rattle.std.specs.Iterator.{YieldsFirst, item_count};
ghost use Rattle.regalloc2_names.specs.Register.{vreg_limit};
ghost use Rattle.regalloc2_parts.specs.Links.{IsFewLinksApart};
ghost use Rattle.regalloc2_parts.specs.LiveList.{NamesEachOnce};
ghost use Rattle.regalloc2_parts.specs.VRegNodes.{IsVRegList, Lists, vreg_changed_links, nexts, members_of, vreg_ring_numbers, prevs, vregs};

use regalloc2_names::{RegAllocError, VReg};
use std::alloc::{Allocator, Global};
use std::marker::Model;

/// A vreg with its neighbours in the list, by number.
#[derive(Clone, Copy, Debug)]
struct VRegNode {
    prev: u32,
    next: u32,
    vreg: VReg,
}

/// Makes `prev` and `next` neighbours: two links change.
fn link(nodes: &mut [VRegNode], prev: u32, next: u32)
    requires prev { prev < length nodes.old }
    requires next { next < length nodes.old }
    ensures nexts { nexts nodes.new ≡ slice_set (nexts nodes.old) prev next }
    ensures prevs { prevs nodes.new ≡ slice_set (prevs nodes.old) next prev }
    ensures vregs { vregs nodes.new ≡ vregs nodes.old }
    ensures few { vreg_changed_links nodes.old nodes.new ≤ 2 }
    ensures long { length nodes.new ≡ length nodes.old }
{
    nodes[prev as usize].next = next;
    nodes[next as usize].prev = prev;
}

/// Puts `vreg` behind `head`: four links and its node's vreg change.
fn insert_node(nodes: &mut [VRegNode], head: u32, vreg: VReg)
    requires list { IsVRegList nodes.old head }
    requires below { vreg.number < head }
    requires absent { All (λ n. n ≢ vreg.number) (vreg_ring_numbers nodes.old head) }
    ensures list { Lists nodes.new head (vreg ∷ members_of nodes.old head) }
    ensures few { vreg_changed_links nodes.old nodes.new ≤ 4 }
    ensures vregs { vregs nodes.new ≡ slice_set (vregs nodes.old) vreg.number vreg }
    ensures long { length nodes.new ≡ length nodes.old }
{
    let number = vreg.vreg() as u32;
    let first = nodes[head as usize].next;
    nodes[number as usize].vreg = vreg;
    link(nodes, number, first);
    link(nodes, head, number);
}

/// Takes `number` out of the list: two links change.
fn remove_node(nodes: &mut [VRegNode], head: u32, number: u32)
    requires list { IsVRegList nodes.old head }
    requires member { Contains (vreg_ring_numbers nodes.old head) number }
    ensures list { Lists nodes.new head (filter (λ v. not (v.number == number)) (members_of nodes.old head)) }
    ensures few { vreg_changed_links nodes.old nodes.new ≤ 2 }
    ensures vregs { vregs nodes.new ≡ vregs nodes.old }
    ensures long { length nodes.new ≡ length nodes.old }
{
    let node = nodes[number as usize];
    link(nodes, node.prev, node.next);
}

/// Vregs with different numbers below a capacity, specified as their list, the last inserted first.
#[derive(Debug, Drop)]
pub struct VRegSet<A: Allocator = Global> {
    /// A node for each number below the capacity, and the head, which is before the last inserted
    /// member and after the first inserted one.
    nodes: Vec<VRegNode, A>,
    /// The head's number, which is the capacity.
    head: u32,
}

impl<A: Allocator> Model for VRegSet<A> {
    ghost use Rattle.regalloc2_parts.specs.LiveList.{LiveList};
    ghost use Rattle.regalloc2_parts.specs.VRegNodes.{IsVRegList, members_of};

    ghost Value = { LiveList };

    ghost view = { λ s. record { members = members_of s.nodes.items s.head; capacity = s.head } };

    ghost invariant = { λ s. IsVRegList s.nodes.items s.head };
}

impl<A: Allocator> VRegSet<A> {
    /// Returns an empty list with room for the vregs whose numbers are below `num_vregs`, which is
    /// at most 2^30.
    ///
    /// Returns `Memory` if there is no room for them, which no contract can foresee; no later call
    /// allocates.
    pub fn with_capacity(alloc: A, num_vregs: usize) -> Result<Self, RegAllocError>
        requires { num_vregs ≤ vreg_limit }
        ensures made { IfOk result (λ set. set ≡ record { members = []; capacity = num_vregs }) }
        ensures memory { IfErr result (λ e. e ≡ RegAllocError.Memory) }
    {
        let head = num_vregs as u32;
        let node = VRegNode {
            prev: head,
            next: head,
            vreg: VReg::invalid(),
        };
        let nodes = vec![in alloc; node; num_vregs + 1]?;
        Ok(VRegSet { nodes, head })
    }

    /// Inserts `vreg` at the front.
    ///
    /// The number of `vreg` is below the capacity, and no member has it. At most four links between
    /// nodes change. Allocates nothing.
    pub fn insert(&mut self, vreg: VReg)
        requires below { vreg.number < self.old.capacity }
        requires absent { All (λ v. v.number ≢ vreg.number) self.old.members }
        ensures inserted { self.new ≡ record self.old { members = vreg ∷ self.old.members } }
        ensures proper { NamesEachOnce self.new.members self.new.capacity }
        ensures few { IsFewLinksApart 4 (self.old.capacity ∷ map (λ v. v.number) self.old.members) (self.new.capacity ∷ map (λ v. v.number) self.new.members) }
    {
        insert_node(&mut self.nodes, self.head, vreg);
    }

    /// Removes the member whose number is `vreg_num`; the other members keep their order.
    ///
    /// At most two links between nodes change. Allocates nothing.
    pub fn remove(&mut self, vreg_num: usize)
        requires { Any (λ v. v.number ≡ vreg_num) self.old.members }
        ensures removed { self.new ≡ record self.old { members = filter (λ v. not (v.number == vreg_num)) self.old.members } }
        ensures proper { NamesEachOnce self.new.members self.new.capacity }
        ensures few { IsFewLinksApart 2 (self.old.capacity ∷ map (λ v. v.number) self.old.members) (self.new.capacity ∷ map (λ v. v.number) self.new.members) }
    {
        remove_node(&mut self.nodes, self.head, vreg_num as u32);
    }

    /// Returns `true` if the list has no member.
    pub fn is_empty(&self) -> bool
        ensures { result ≡ (length self.now.members == 0) }
    {
        self.nodes[self.head as usize].next == self.head
    }

    /// Walks the members, the last inserted first.
    pub fn iter(&self) -> VRegSetIter<'_>
        ensures members { result ≡ self.now.members }
        ensures proper { NamesEachOnce self.now.members self.now.capacity }
    {
        VRegSetIter {
            nodes: &self.nodes,
            head: self.head,
            at: self.nodes[self.head as usize].next,
        }
    }
}

/// The members left in a walk, specified as their list.
#[derive(Debug, Drop)]
pub struct VRegSetIter<'a> {
    nodes: &'a [VRegNode],
    head: u32,
    at: u32,
}

impl<'a> Model for VRegSetIter<'a> {
    ghost use Rattle.std.specs.Prelude.{List};
    ghost use Rattle.regalloc2_names.specs.Register.{VirtualRegister};
    ghost use Rattle.regalloc2_parts.specs.Links.{IsWalk, walked_links};
    ghost use Rattle.regalloc2_parts.specs.VRegNodes.{nexts, rest_from};

    ghost Value = { List VirtualRegister };

    ghost view = { λ it. rest_from it.nodes.now it.head it.at };

    ghost invariant = { λ it. IsWalk (nexts it.nodes.now) it.head it.at (walked_links (nexts it.nodes.now) it.head it.at) };
}

impl<'a> Iterator for VRegSetIter<'a> {
    type Item = VReg;

    ghost next_gives = { YieldsFirst (λ rest. rest) };

    ghost remaining = { item_count (λ rest. rest) };

    fn next(&mut self) -> Option<VReg> {
        if self.at == self.head {
            return None;
        }
        let node = self.nodes[self.at as usize];
        self.at = node.next;
        Some(node.vreg)
    }
}
