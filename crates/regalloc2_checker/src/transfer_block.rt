//! A block's instructions.

ghost use Rattle.std.specs.Prelude.{◌≡◌, ◌<◌, ◌≤◌, ◌-◌, OnOk, length};
ghost use Rattle.regalloc2_function.specs.FunctionValue.{block_at};
ghost use Rattle.regalloc2_function.specs.OutputValue.{OutputValue};
ghost use Rattle.regalloc2_function.specs.WellFormed.{IsFramed};
ghost use Rattle.regalloc2_checker.specs.Showing.{AreTablesKept};
ghost use Rattle.regalloc2_checker.specs.Facts.{facts_after};
ghost use Rattle.regalloc2_checker.specs.Fixpoint.{facts_within};
ghost use Rattle.regalloc2_checker.specs.TableFacts.{facts_now, AreNamed};
ghost use Rattle.regalloc2_checker.specs.Listing.{IsListing};

use crate::PassingTables;
use crate::listing::Listing;
use crate::transfer::{go_to_early, go_to_late};
use regalloc2_function::Function;
use regalloc2_index::{Block, Inst};
use std::alloc::{AllocError, Allocator};

/// Transfers the current table over `inst` of `block`.
fn transfer_inst<F: Function, A: Allocator + Copy>(
    f: &F,
    listing: &Listing<'_>,
    block: Block,
    inst: Inst,
    values: &mut PassingTables<A>,
) -> Result<(), AllocError>
    ghost o: { OutputValue }
    requires listing { IsListing (F.function f.now) o listing.now }
    requires named { AreNamed (F.function f.now) o values.old }
    requires block { block < length (F.function f.now).blocks }
    requires first { (block_at (F.function f.now) block).range.first ≤ inst }
    requires end { inst < (block_at (F.function f.now) block).range.end }
    requires inst { inst < length (F.function f.now).insts }
    ensures kept { OnOk result (AreTablesKept values.old values.new) }
    ensures now { OnOk result (facts_now values.new ≡ facts_after (F.function f.now) o (record { block = block; inst = inst }) (facts_now values.old)) }
{
    let moves = listing.moves(inst);
    let places = listing.places(inst);
    let operands = f.inst_operands(inst);
    go_to_early(values, moves, places, operands)?;
    go_to_late(values, places, operands, f.inst_clobbers(inst))?;
    Ok(())
}

/// Transfers the current table over the instructions of `block`.
pub fn transfer_block<F: Function, A: Allocator + Copy>(
    f: &F,
    listing: &Listing<'_>,
    block: Block,
    values: &mut PassingTables<A>,
) -> Result<(), AllocError>
    ghost o: { OutputValue }
    requires listing { IsListing (F.function f.now) o listing.now }
    requires named { AreNamed (F.function f.now) o values.old }
    requires framed { IsFramed (F.function f.now) }
    requires block { block < length (F.function f.now).blocks }
    ensures kept { OnOk result (AreTablesKept values.old values.new) }
    ensures now { OnOk result (facts_now values.new ≡ facts_within (F.function f.now) o block (facts_now values.old)
        ((block_at (F.function f.now) block).range.end - (block_at (F.function f.now) block).range.first)) }
{
    let range = f.block_insns(block);
    for i in range.first().index()..range.end().index() {
        transfer_inst(f, listing, block, Inst::new(i), values)?;
    }
    Ok(())
}
