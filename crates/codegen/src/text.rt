//! Modules of functions over 64-bit integers from texts, and their code as assembly for x86-64.
//!
//! A line of a text has an operation. Letters, words, numbers, signs, comments and errors are as in `docs/TEXT.md`.
//! For example:
//!
//! ```text
//! # the sum of the numbers from 1 to the argument
//! block0:
//!   v0 = argument 0
//!   v1 = constant 0
//!   jump block1(v0, v1)
//! block1(v2, v3):
//!   branch_if v2 block2(), block3()
//! block2:
//!   v4 = add v3, v2
//!   v5 = sub v2, 1
//!   jump block1(v5, v4)
//! block3:
//!   return v3
//! ```
//!
//! A text of several functions names them, with the number of their arguments; a run starts at the first:
//!
//! ```text
//! function factorial(1):
//! block0:
//!   v0 = argument 0
//!   branch_if v0 block1(), block2()
//! block1:
//!   v1 = sub v0, 1
//!   v2 = call factorial(v1)
//!   v3 = mul v0, v2
//!   return v3
//! block2:
//!   v4 = constant 1
//!   return v4
//! ```
//!
//! ```ebnf
//! text      = { line } ;
//! line      = [ memory | function | block | value | store | jump | branch | return ] ;
//! memory    = "memory" number ;                                   (* in bytes, to 2147483647 *)
//! function  = "function" NAME "(" number ")" ":" ;                (* letters, digits and _; the first function's number is to 6 *)
//! block     = BLOCK [ vregs ] ":" ;
//! vregs     = "(" [ vreg { "," vreg } ] ")" ;
//! vreg      = "v" NUMBER ;                                        (* one word; the number is to 1073741823 *)
//! value     = vreg "=" ( "argument" number | "constant" number | "copy" vreg | ( operator | condition ) pair
//!           | shift vreg "," ( vreg | number ) | division vreg "," vreg | "select" vreg "," vreg "," vreg | load vreg
//!           | "call" NAME vregs ) ;
//! store     = "store" [ "32" | "16" | "8" ] vreg "," vreg ;
//! load      = "load" [ "32" | "16" | "8" ] ;
//! pair      = vreg "," ( vreg | number ) ;                        (* the number is to 2147483647 *)
//! operator  = ( "add" | "sub" | "mul" | "and" | "or" | "xor" ) [ "32" ] ;
//! shift     = ( "shift_left" | "shift_right" | "signed_shift_right" ) [ "32" ] ;   (* a number after it is to 63, or to 31 *)
//! division  = [ "signed_" ] ( "div" | "rem" ) [ "32" ] ;
//! condition = ( "equal" | "not_equal" | [ "signed_" ] ( "less" | "less_or_equal" | "greater" | "greater_or_equal" ) ) [ "32" ] ;
//! jump      = "jump" target ;
//! branch    = "branch_if" ( vreg | condition pair ) target "," target ;
//! return    = "return" vreg ;
//! target    = BLOCK [ vregs ] ;
//! ```
//!
//! Operators compute modulo 2^64. A condition is 1 if it holds, else 0; the signed conditions read
//! two's complement. A shift moves bits by its second number modulo 64; `signed_shift_right` copies
//! the highest bit. `div` is a quotient and `rem` a remainder: a signed quotient is rounded towards
//! 0, and a signed remainder has the dividend's sign. A division by 0 traps, and so does a signed
//! one of the least number by -1. `select` is its second number if its first isn't 0, else its
//! third. `branch_if` jumps to its first target if its number isn't 0 or its condition holds, else
//! to its second.
//!
//! An operation whose name ends with `32` reads the lower 32 bits of its numbers, counts shifts
//! modulo 32, and writes a result below 2^32.
//!
//! `load` reads the eight bytes of memory from an address on, the lowest first; `store` writes the
//! number that comes second to the address that comes first. `32`, `16` and `8` stand for four, two
//! and one bytes: a load clears the other bits, and a store writes the lower ones. An access traps, and
//! changes nothing, unless all its bytes lie in memory. Memory has the size that the text's
//! first line gives, as in `memory 4096`, or else 0. The functions share it.
//!
//! `call` passes a function of the text, which may stand before or after it, as many numbers as it
//! has arguments, and is the number that it returns. Functions call each other and themselves, until
//! the stack overflows. No two functions have one name, and none is called `compiled`, as the
//! assembly's entry is. A text without a line `function` has one function without a name. Each
//! function counts its blocks, instructions and vregs anew.
//!
//! Arguments are numbered from 0. The first function has at most six of them, one without a name as many as its lines
//! read. A function has at most a million arguments, blocks, instructions and vregs, counted from v0; a larger one is
//! an error at the end of the text. Blocks are numbered as they appear, the entry first. A block's last instruction is its only `jump`,
//! `branch_if` or `return`: after it, a line that begins neither block nor function is an error of the text, as is an
//! instruction before the first block. Errors in lines `function` come before others. The allocator tests everything
//! else, such as a block without that end, a missing block, arguments that don't match the parameters, or a vreg that
//! is read before it is written.

mod assembly;
mod draft;
mod frame;
mod functions;
mod header;
mod module;
mod operations;
mod reading;

pub use assembly::{AssemblyText, InstructionText};
pub use frame::FrameWords;
pub use header::HeaderText;
pub use reading::read_module;
pub use regalloc2_text::cursor::{Expected, Found, TextError, TextFault};
