//! Invalid blocks and edges.

use crate::explain::cause::{ArgumentCause, Cause, EdgeCause, EndCause, OrderCause, Site};
use crate::explain::stored::{arguments_of, block_of, operands_at, range_of};
use crate::named::{list_at, vreg_of};
use regalloc2_serialize::{InstOpcode, StoredFunction};

/// Returns how many edges enter `block`: one from each predecessor, and for the entry one more from the function's
/// start.
fn ways_into(function: &StoredFunction, block: usize) -> usize {
    let preds = list_at(function.block_preds.as_slice(), block).len();
    let starts = usize::from(block == function.entry_block as usize);
    preds.saturating_add(starts)
}

/// Returns the site of the last instruction of `block`, or of the block's line if it has none.
pub(crate) fn end_of(function: &StoredFunction, block: usize) -> Site {
    let (first, end) = range_of(function, block);
    if first < end {
        Site::Inst(end - 1)
    } else {
        Site::Block(block)
    }
}

/// Returns the cause of `CritEdge` for the edge from block `from` to block `to`.
pub(crate) fn crit_edge_cause(function: &StoredFunction, from: usize, to: usize) -> (Cause, Site) {
    let cause = Cause::Edge(EdgeCause::CriticalEdge {
        from,
        to,
        succs: list_at(function.block_succs.as_slice(), from).len(),
        ways: ways_into(function, to),
    });
    (cause, end_of(function, from))
}

/// Returns the cause if the instructions of `block` don't follow the last instruction of the block before.
fn range_cause(function: &StoredFunction, block: usize) -> Option<OrderCause> {
    let (first, end) = range_of(function, block);
    if first >= end {
        return Some(OrderCause::Empty { block });
    }
    let wanted = match block.checked_sub(1) {
        Some(before) => range_of(function, before).1,
        None => 0,
    };
    if first != wanted {
        return Some(OrderCause::Begins {
            block,
            first,
            wanted,
        });
    }
    let insts = function.insts.len();
    let is_last = block.saturating_add(1) == function.blocks.len();
    if is_last && end != insts {
        return Some(OrderCause::Ends { block, end, insts });
    }
    None
}

/// Returns how often `block` is in `list`.
fn count_in(list: &[u32], block: usize) -> usize {
    list.iter()
        .filter(|listed| **listed as usize == block)
        .count()
}

/// Returns how many edges lead from block `from` to block `to`.
fn edges_between(function: &StoredFunction, from: usize, to: usize) -> usize {
    count_in(list_at(function.block_succs.as_slice(), from), to)
}

/// Returns how many edges lead to `block`.
fn edges_into(function: &StoredFunction, block: usize) -> usize {
    let mut leading = 0usize;
    for from in 0..function.blocks.len() {
        leading = leading.saturating_add(edges_between(function, from, block));
    }
    leading
}

/// Returns whether each predecessor of `block` is listed once for each of its edges to `block`.
fn each_has_edges(function: &StoredFunction, preds: &[u32], block: usize) -> bool {
    for pred in preds {
        let from = *pred as usize;
        if edges_between(function, from, block) != count_in(preds, from) {
            return false;
        }
    }
    true
}

/// Returns the cause if the predecessors of `block` aren't the blocks with an edge to it.
fn preds_cause(function: &StoredFunction, block: usize) -> Option<EdgeCause> {
    let preds = list_at(function.block_preds.as_slice(), block);
    let listed = preds.len();
    let leading = edges_into(function, block);
    if listed == leading && each_has_edges(function, preds, block) {
        return None;
    }
    Some(EdgeCause::Predecessors {
        block,
        listed,
        leading,
    })
}

/// Returns the first instruction from `first` until `last` that branches or returns.
fn ends_within(function: &StoredFunction, first: usize, last: usize) -> Option<usize> {
    for inst in first..last {
        if let Some(data) = function.insts.get(inst) {
            if data.op != InstOpcode::Op {
                return Some(inst);
            }
        }
    }
    None
}

/// Returns the cause if `block` doesn't end with a valid last instruction, and the site.
fn end_cause(function: &StoredFunction, block: usize) -> Option<(EndCause, Site)> {
    let (first, end) = range_of(function, block);
    let last = end.checked_sub(1)?;
    let succs = list_at(function.block_succs.as_slice(), block).len();
    let op = function.insts.get(last)?.op;
    if op == InstOpcode::Op {
        return Some((EndCause::OpenEnd { block, inst: last }, Site::Inst(last)));
    }
    if op == InstOpcode::Ret && succs > 0 {
        return Some((EndCause::ReturnLeads { block, succs }, Site::Inst(last)));
    }
    let inst = ends_within(function, first, last)?;
    Some((EndCause::EndsWithin { block, inst }, Site::Inst(inst)))
}

/// Returns the cause of `BB` for `block`.
pub(crate) fn block_cause(function: &StoredFunction, block: usize) -> (Cause, Site) {
    if let Some(cause) = range_cause(function, block) {
        return (Cause::Order(cause), Site::Block(block));
    }
    if let Some(cause) = preds_cause(function, block) {
        return (Cause::Edge(cause), Site::Block(block));
    }
    let entry = function.entry_block as usize;
    if block == entry && entry != 0 {
        return (
            Cause::Order(OrderCause::EntryIsLater { entry }),
            Site::Block(block),
        );
    }
    match end_cause(function, block) {
        Some((cause, site)) => (Cause::End(cause), site),
        None => (Cause::Other, Site::Block(block)),
    }
}

/// Returns the cause if `arguments` don't fit the parameters `params` of the successor `succ`.
fn passed_cause(succ: usize, arguments: &[u32], params: &[u32]) -> Option<ArgumentCause> {
    if arguments.len() != params.len() {
        return Some(ArgumentCause::ArgumentCount {
            succ,
            passed: arguments.len(),
            wanted: params.len(),
        });
    }
    for k in 0..arguments.len() {
        if let (Some(passed), Some(wanted)) = (vreg_of(arguments[k]), vreg_of(params[k])) {
            if passed.class() != wanted.class() {
                return Some(ArgumentCause::ArgumentClass {
                    succ,
                    passed,
                    wanted,
                });
            }
        }
    }
    None
}

/// Returns the cause of `Branch`: the arguments of the block that ends with `inst`.
pub(crate) fn branch_cause(function: &StoredFunction, inst: usize) -> (Cause, Site) {
    let site = Site::Inst(inst);
    let Some(block) = block_of(function, inst) else {
        return (Cause::Other, site);
    };
    let succs = list_at(function.block_succs.as_slice(), block);
    for (position, succ) in succs.iter().enumerate() {
        let succ = *succ as usize;
        let params = list_at(function.block_params_in.as_slice(), succ);
        if let Some(cause) = passed_cause(succ, arguments_of(function, block, position), params) {
            return (Cause::Argument(cause), site);
        }
    }
    (Cause::Other, site)
}

/// Returns the cause of `DisallowedBranchArg` for the branch `inst`.
pub(crate) fn disallowed_branch_arg_cause(function: &StoredFunction, inst: usize) -> (Cause, Site) {
    let site = Site::Inst(inst);
    let Some(block) = block_of(function, inst) else {
        return (Cause::Other, site);
    };
    for succ in list_at(function.block_succs.as_slice(), block) {
        let succ = *succ as usize;
        let ways = ways_into(function, succ);
        if ways > 1 {
            let cause = Cause::Edge(EdgeCause::BranchOperands {
                inst,
                operands: operands_at(function, inst).len(),
                succ,
                ways,
            });
            return (cause, site);
        }
    }
    (Cause::Other, site)
}

/// Returns the cause of `EntryLivein` for `function`.
pub(crate) fn entry_livein_cause(function: &StoredFunction) -> (Cause, Site) {
    let entry = function.entry_block as usize;
    let count = list_at(function.block_params_in.as_slice(), entry).len();
    (
        Cause::Argument(ArgumentCause::EntryParams { count }),
        Site::Block(entry),
    )
}
