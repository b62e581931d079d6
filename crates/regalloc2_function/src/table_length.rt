//! The length that a table by vreg number needs.

ghost use Rattle.std.specs.Prelude.{◌≡◌, ◌+◌, ◌<◌, ◌≤◌, ◌⊎◌, ℕ, All, length, true};
ghost use Rattle.regalloc2_names.specs.Operand.{is_def};
ghost use Rattle.regalloc2_function.specs.FunctionValue.{block_at, inst_at};
ghost use Rattle.regalloc2_function.specs.Inside.TableLength.{CoversDefinitions, IsBelow, IsShort, ReachedByDef, ReachedByParam};

use crate::Function;
use regalloc2_index::{Block, Inst};
use regalloc2_names::{Operand, VReg};

/// Returns the least number that is at least `bound` and above the number of `vreg`.
fn above_vreg(bound: usize, vreg: VReg) -> usize
    ensures rises { bound ≤ result }
    ensures above { vreg.number < result }
    ensures near { (result ≤ bound) ⊎ (result ≤ vreg.number + 1) }
{
    let number = vreg.vreg();
    bound.max(number + 1)
}

/// Returns the least number that is at least `bound` and above the numbers of `params`.
fn above_params(bound: usize, params: &[VReg]) -> usize
    ensures rises { bound ≤ result }
    ensures above { All (λ v. v.number < result) params.now }
    ensures near { (result ≤ bound) ⊎ ReachedByParam params.now result }
{
    let mut above = bound;
    for param in params {
        above = above_vreg(above, *param);
    }
    above
}

/// Returns the least number that is at least `bound` and above the number that `operand` defines, if
/// it is a definition.
fn above_operand(bound: usize, operand: Operand) -> usize
    ensures rises { bound ≤ result }
    ensures above { IsBelow result operand }
    ensures near { (result ≤ bound) ⊎ ((is_def operand.kind ≡ true) × (result ≤ operand.vreg.number + 1)) }
{
    if operand.is_def() {
        above_vreg(bound, operand.vreg())
    } else {
        bound
    }
}

/// Returns the least number that is at least `bound` and above the numbers that `operands` define.
fn above_operands(bound: usize, operands: &[Operand]) -> usize
    ensures rises { bound ≤ result }
    ensures above { All (IsBelow result) operands.now }
    ensures near { (result ≤ bound) ⊎ ReachedByDef operands.now result }
{
    let mut above = bound;
    for operand in operands {
        above = above_operand(above, *operand);
    }
    above
}

/// Returns the least number above the numbers of all parameters.
fn above_blocks<F: Function>(f: &F) -> usize
    ensures above { (b : ℕ) → b < length (F.function f.now).blocks → All (λ v. v.number < result) (block_at (F.function f.now) b).params }
    ensures near { (result ≡ 0) ⊎ ((b : ℕ) × (b < length (F.function f.now).blocks) × ReachedByParam (block_at (F.function f.now) b).params result) }
{
    let mut above = 0;
    for b in 0..f.num_blocks() {
        above = above_params(above, f.block_params(Block::new(b)));
    }
    above
}

/// Returns the least number that is at least `bound` and above the numbers that all instructions
/// define.
fn above_insts<F: Function>(f: &F, bound: usize) -> usize
    ensures rises { bound ≤ result }
    ensures above { (i : ℕ) → i < length (F.function f.now).insts → All (IsBelow result) (inst_at (F.function f.now) i).operands }
    ensures near { (result ≤ bound) ⊎ ((i : ℕ) × ReachedByDef (inst_at (F.function f.now) i).operands result) }
{
    let mut above = bound;
    for i in 0..f.num_insts() {
        above = above_operands(above, f.inst_operands(Inst::new(i)));
    }
    above
}

/// Returns the length that a table by vreg number needs to have an entry for each number that `f`
/// defines.
///
/// The length is at most `num_vregs`. If `num_vregs` is more than four times the number of
/// instructions, the length is at most one above the greatest number that an operand or a parameter
/// defines: a great `num_vregs` alone then takes no memory.
pub fn table_length<F: Function>(f: &F) -> usize
    ensures room { CoversDefinitions (F.function f.now) result }
    ensures few { result ≤ (F.function f.now).num_vregs }
    ensures short { IsShort (F.function f.now) result }
{
    let all = f.num_vregs();
    if all / 4 <= f.num_insts() {
        return all;
    }
    let params = above_blocks(f);
    let above = above_insts(f, params);
    above.min(all)
}
