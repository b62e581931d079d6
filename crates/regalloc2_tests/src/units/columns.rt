//! Functions laid out in columns: what is read of one, and why others are refused.

ghost use Rattle.std.specs.Prelude.{◌<◌, length};

use crate::test_alloc::Refusing;
use crate::units::report::Report;
use regalloc2_function::Function;
use regalloc2_index::{Block, Inst};
use regalloc2_names::RegClass;
use regalloc2_serialize::flat::FlatFunction;
use std::alloc::{AllocError, Global};

/// A function of two blocks: the first defines v0 and passes it to the parameter v1 of the second, which returns it.
static LINES: [(&str, &str); 10] = [
    ("header", "2 0 3 2 2 1 1 1 1 1 2 1 1 2 65536"),
    ("preferred", "3 0 0 0 0 0 0 0 1 0 0 0 0 0 0 0 0 0"),
    ("others", "4 0 0 0 0 0 0 0 0 0 0 0 0 0 0 0 0 2147483648"),
    ("scratch, slot", "4 0 130 5"),
    ("set", "2 0 0 1 0 0"),
    ("instructions", "4 2 1 1 1 2"),
    ("operands", "0 4 1 8"),
    ("ends by blocks", "2 3 0 1 1 1 0 1"),
    ("of blocks", "0 1 4 1 0"),
    ("label", "0 0 2 7"),
];

/// Which word is replaced by what.
static CHANGES: [(&str, usize, u32); 18] = [
    ("another layout", 0, 1),
    ("too many operands", 4, 2_147_483_648),
    ("flags", 13, 4),
    ("sizes", 14, 16_777_216),
    ("ends that fall", 65, 0),
    ("operands left over", 66, 1),
    ("no entry", 1, 2),
    ("no predecessor", 79, 2),
    ("no successor", 80, 2),
    ("no set", 61, 8),
    ("no vreg of the label", 10, 0),
    ("no kind", 62, 3),
    ("no operand", 68, 3),
    ("no parameter", 81, 3),
    ("no argument", 83, 3),
    ("no scratch register", 52, 193),
    ("no stack slot", 54, 192),
    ("a slot too large", 14, 25),
];

/// Adds the words of `line`, with `word` in place of the word at `at`.
fn push_line(words: &mut Vec<u32>, line: &str, at: usize, word: u32) -> Result<(), AllocError> {
    for text in line.split(' ') {
        let number = text.parse::<u32>().unwrap_or(0);
        words.push(if words.len() == at { word } else { number })?;
    }
    Ok(())
}

/// Returns the words of the function, with `word` in place of the word at `at`.
fn words_with(alloc: Global, at: usize, word: u32) -> Result<Vec<u32>, AllocError> {
    let mut words = Vec::new(alloc);
    for (_, line) in &LINES {
        push_line(&mut words, line, at, word)?;
    }
    Ok(words)
}

/// Writes what is read of `words`.
fn write_read(alloc: Global, words: &[u32], out: &mut Report) {
    match FlatFunction::read(alloc, words) {
        Ok(f) => {
            out.row("machine", f.machine_env());
            write_function(&f, out);
        }
        Err(fault) => out.row("refused", &fault),
    }
}

/// Writes why changed words are refused.
fn write_changes(alloc: Global, out: &mut Report) -> Result<(), AllocError> {
    for (name, at, word) in &CHANGES {
        let changed = words_with(alloc, *at, *word)?;
        write_fault(alloc, name, &changed, out);
    }
    Ok(())
}

/// Writes what is read of words, and why changed ones are refused.
pub fn write_all(alloc: Global, out: &mut Report) -> Result<(), AllocError> {
    let words = words_with(alloc, 0, 2)?;
    write_read(alloc, &words, out);
    write_changes(alloc, out)?;
    if let Some((_, less)) = words.as_slice().split_last() {
        write_fault(alloc, "one word less", less, out);
    }
    write_fault(alloc, "no words", &[], out);
    write_refusals(alloc, &words, out);
    Ok(())
}

/// Writes why `words` are rejected, with `name` before it.
fn write_fault(alloc: Global, name: &str, words: &[u32], out: &mut Report) {
    match FlatFunction::read(alloc, words) {
        Ok(_) => out.row(name, &"taken"),
        Err(fault) => out.put(&format_args!("{name}: {fault}\n")),
    }
}

/// Writes the result for `words` if the first memory allocation fails, the second and so on.
fn write_refusals(alloc: Global, words: &[u32], out: &mut Report) {
    for at in 0..20 {
        let refusing = Refusing::new(alloc, at);
        let fault = FlatFunction::read(&refusing, words).err();
        out.row("refused", &fault);
    }
}

/// Writes what all calls about `block` return.
fn write_block<F: Function>(f: &F, block: Block, out: &mut Report)
    requires { block < length (F.function f.now).blocks }
{
    out.row("block", &(f.block_insns(block), f.block_preds(block)));
    out.row("succs", &(f.block_succs(block), f.block_params(block)));
}

/// Writes what all calls about `inst` return.
fn write_inst<F: Function>(f: &F, inst: Inst, out: &mut Report)
    requires { inst < length (F.function f.now).insts }
{
    out.row("inst", &(f.is_ret(inst), f.is_branch(inst)));
    out.row("operands", &f.inst_operands(inst));
    out.row("clobbers", &f.inst_clobbers(inst));
}

/// Writes what all calls give.
pub fn write_function<F: Function>(f: &F, out: &mut Report) {
    out.row("counts", &(f.num_insts(), f.num_blocks(), f.num_vregs()));
    out.row("entry", &f.entry_block());
    for b in 0..f.num_blocks() {
        write_block(f, Block::new(b), out);
    }
    for i in 0..f.num_insts() {
        write_inst(f, Inst::new(i), out);
    }
    out.row("labels", &f.debug_value_labels());
    let (int, float) = (
        f.spillslot_size(RegClass::Int),
        f.spillslot_size(RegClass::Float),
    );
    out.row("sizes", &[int, float, f.spillslot_size(RegClass::Vector)]);
    out.row("last", &f.multi_spillslot_named_by_last_slot());
    out.row("defs", &f.allow_multiple_vreg_defs());
}
