//! Randomly generated graphs of blocks without critical edges: with forks, loops, and sometimes
//! blocks that nothing leads to.

use super::random::Random;
use regalloc2::{Block, VReg};
use std::alloc::Global;

/// What is known of a block among others.
#[derive(Drop)]
pub struct Node {
    /// A block of a lower number by which each path comes that leads here from the entry.
    pub above: usize,
    /// Whether blocks with no other successor may go on here.
    is_join: bool,
    /// What takes the arguments.
    pub params: Vec<VReg>,
    /// Where it goes on.
    pub succs: Vec<Block>,
    /// What may be read behind it.
    pub known: Vec<VReg>,
}

/// The blocks of a function by number.
#[derive(Drop)]
pub struct Graph {
    pub nodes: Vec<Node>,
}

impl Graph {
    /// Adds a block below block `above`, which is a join if `is_join`.
    fn add(&mut self, alloc: Global, above: usize, is_join: bool) -> Option<()> {
        self.nodes
            .push(Node {
                above,
                is_join,
                params: Vec::new(alloc),
                succs: Vec::new(alloc),
                known: Vec::new(alloc),
            })
            .ok()
    }

    /// Adds an edge from the block `from` to the block `to`.
    fn link(&mut self, from: usize, to: usize) -> Option<()> {
        let succs = &mut self.nodes.get_mut(from)?.succs;
        succs.push(Block::new(to % 100)).ok()
    }

    /// Returns whether block `from`, which has no successors, may go on to block `to`: a join such that each path to
    /// `from` passes the block above the join.
    fn may_join(&self, from: usize, to: usize) -> Option<bool> {
        let join = self.nodes.get(to)?;
        let mut at = from;
        for _ in 0..self.nodes.len() {
            if at == join.above {
                return Some(join.is_join);
            }
            at = self.nodes.get(at)?.above;
        }
        Some(false)
    }

    /// Gives `block`, which has no successors, a successor, if it may have one.
    fn close(&mut self, random: &mut Random, block: usize) -> Option<()> {
        for _ in 0..8 {
            let to = random.below(self.nodes.len().max(1));
            if self.may_join(block, to)? {
                return self.link(block, to);
            }
        }
        Some(())
    }

    /// Returns up to twelve blocks, of which each is a join or is entered from the block above it.
    fn tree(alloc: Global, random: &mut Random) -> Option<Graph> {
        let nodes = Vec::new(alloc);
        let mut graph = Graph { nodes };
        graph.add(alloc, 0, true)?;
        for count in 1..random.below(12).saturating_add(1) {
            let above = if random.once_in(2) {
                count - 1
            } else {
                random.below(count)
            };
            let is_join = random.once_in(3);
            graph.add(alloc, above, is_join)?;
            if !is_join && !random.once_in(15) {
                graph.link(above, count)?;
            }
        }
        Some(graph)
    }

    /// Returns a graph of up to twelve blocks.
    pub fn any(alloc: Global, random: &mut Random) -> Option<Graph> {
        let mut graph = Graph::tree(alloc, random)?;
        for block in 0..graph.nodes.len() {
            if graph.nodes.get(block)?.succs.is_empty() && !random.once_in(6) {
                graph.close(random, block)?;
            }
        }
        Some(graph)
    }

    /// Returns whether a branch of `block` may have operands: each block that it leads to is entered by one edge.
    pub fn may_use(&self, block: usize) -> Option<bool> {
        for succ in &self.nodes.get(block)?.succs {
            if self.nodes.get(succ.index())?.is_join {
                return Some(false);
            }
        }
        Some(true)
    }
}
