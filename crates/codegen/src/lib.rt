//! A code generator: allocates registers to a function over 64-bit integers and emits the machine's
//! code, which behaves as the function.
//!
//! `specs/Behaves.antt` defines "behaves". The theorem rests on the contract of
//! `regalloc2::run_tested` and on the lemma of `regalloc2_semantics::values`, and on nothing else
//! of the allocator: the proofs name none of its steps, tables and internal lemmas.
//!
//! # From an operation to instructions
//!
//! A line's operation determines its operands and clobbers (`codegen_operation`). Where the
//! processor has two-address instructions, the result reuses the register of the first number, and
//! the second number is read from a register, a slot or an immediate. A 32-bit form is emitted as the
//! same instructions with another width. A division reads its dividend from register 0, extends
//! it into register 2, and writes quotient and remainder to these two: one is the result, the
//! other's register is clobbered, and the divisor is read late. An access to memory is a guard, which
//! compares the address with the number of addresses that the access has in a memory of the
//! function's size, and traps, and then the access. A call passes its first six arguments in
//! registers, and reads the others late, from any place: code before the call copies each of them to
//! an outgoing word of the frame, a slot's number by way of register 0. The emitter writes one to
//! three instructions for a line, one or two more for each argument past the sixth, and one for a
//! move. Jumps name blocks at first; once all blocks are emitted, `resolve` replaces the blocks by
//! the numbers of instructions.
//!
//! A branch is two jumps, the second unconditional. If its first successor is the next block, it
//! jumps to the second successor under the opposite condition, and then to the next line. The code
//! keeps a jump to the next line, so each step of the function is a step of the machine; the text
//! omits it.
//!
//! The machine (`codegen_machine`) is *stuck* where a processor would misbehave: at a slot or an
//! outgoing word outside the frame, at an access outside memory, at the registers of the stack
//! pointer and of memory, at a jump out of the code, at a call of no function, at a condition whose
//! flags another instruction has clobbered, and at a division whose register 2 doesn't extend the
//! dividend. "Never stuck" is therefore a guarantee of its own. A trap isn't stuck: function and code
//! trap alike, and leave the same memory.
//!
//! # Where numbers are kept
//!
//! The allocator passes block parameters in slots, so each iteration of a loop writes its variables
//! to slots and reads them there. Slots are therefore registers as far as possible: the allocator
//! allocates only the caller-saved registers, its first five slots are the callee-saved registers
//! rbx, rbp, r12, r13 and r14, and the frame holds the others. `machine_place` maps each place of the
//! allocator to its register or slot of the frame (`codegen_emit`'s `Pinned.antt`), and each instruction that
//! is emitted names the result. The map is injective, so a write to a place leaves the numbers of the
//! others (`proofs/Places.antt`). An outgoing word is no place of the allocator; the frame has as many
//! as the function's calls need.
//!
//! # What of the allocator each part uses
//!
//! | Part | Clause | For |
//! |---|---|---|
//! | `emit_block`, which lists a block's items | `IsAllocation.in_order` | moves and places are well-ordered |
//! | moves | `IsAllocation.no_stack_to_stack` | a move is one instruction |
//! | operands, moves, the frame | `IsAllocation.proper` | a place is a register that `target` lists or a slot below the count, so no instruction names the stack pointer, no register that a slot is kept in is allocated, and the frame is long enough |
//! | results that reuse a register; numbers required in a register | `IsAllocation.constraints` | the place meets the operand's constraint |
//! | counts of shifts | `IsAllocation.constraints` and `proper` | the count is in register 1, where the processor reads it |
//! | dividends and results of divisions | `IsAllocation.constraints` and `proper` | they are in registers 0 and 2, where the processor reads and writes them |
//! | divisors | `runs`, and the lemma `runs_alike`: late uses | whatever the division writes and leaves, the divisor's place keeps its number until it is read |
//! | the register of a division's other part | `runs`, and the lemma `runs_alike`: clobbers | any number may be left there, since none of the function's is expected there |
//! | the first six arguments, and results of calls | `IsAllocation.constraints` and `proper` | an argument is in the register in which the callee reads it, and the result in register 0 |
//! | arguments on the stack | `runs`, and the lemma `runs_alike`: late uses | whatever the call writes to register 0, an argument's place keeps its number, so register 0 is free while arguments are copied |
//! | numbers that are needed after a call | `runs`, and the lemma `runs_alike`: clobbers | whatever the callee leaves in caller-saved registers, none of the caller's numbers is expected there |
//! | blocks and branches | `tested` | blocks are contiguous, each with its only branch or return last; successors exist; the entry is block 0 |
//! | the theorem | `runs`, and the lemma `runs_alike` | whatever instructions compute, the interpreter over places reads the same numbers as the one over vregs |
//! | `frames` and `room` of `compile` | `IsAllocation.slots` | a frame has no more slots than the function's vregs and blocks need |
//! | `refused` of `compile` | `refused` | when each error is returned |
//!
//! `Procedure` establishes two facts itself, because the allocator doesn't guarantee them: a branch
//! has the successors that it may jump to, and each vreg's number is below the function's count. No
//! operand with a fixed register (a count, a dividend, a result of a division) is therefore the
//! vreg of the greatest possible number, whose fixed operands the semantics ignores.
//!
//! # The proof
//!
//! The interpreter over vregs makes the function's steps (`proofs/Source.antt`). The machine
//! follows the interpreter over places: registers and slots hold the same numbers as the places, and
//! the code of the rest of the block is at the machine's address (`proofs/Simulation.antt`).
//! The lemma connects both. Memory is no place: function and machine have the same memory after
//! each step (`proofs/Joined.antt`), so a load writes the same number on both sides.
//!
//! The numbers that a step writes and leaves are chosen when the step is made
//! (`proofs/Choices.antt`, which follows from the lemma). A step may therefore trap, and facts
//! about a late use hold for each choice: `proofs/Divisions.antt` derives from this that the
//! divisor survives the extension of the dividend.
//!
//! Module and code run on stacks, of frames and of activations (`Frames.antt` and `Calls.antt`
//! of `codegen_machine`). Each frame has an activation of its own, with choices of its own
//! (`proofs/Frames.antt`). At a call, the machine runs the call's moves, copies the arguments past the
//! sixth to outgoing words, which changes register 0 alone (`proofs/Passing.antt`), and suspends the
//! activation with its registers and slots; at a return, the call's choice writes the result and
//! leaves in caller-saved registers what the callee left there (`proofs/Calling.antt`). A callee that
//! never returns therefore adds no choice to its caller's. A run within a function is a run of its
//! activation (`proofs/Activations.antt`), so the proofs of the other operations know nothing of the
//! stack. The stack overflows only where the activations, one for each of the module's frames,
//! exceed its room; neither side depends on the other beyond that point. With an unlimited room
//! nothing overflows, so the module is never stuck (`proofs/Behaving.antt`).
//!
//! A frame has at most two slots for each vreg and twelve for each block of its function, so
//! `specs/FrameSizes.antt` says of the module alone when a stack has room for a run
//! (`proofs/Rooms.antt`).
//!
//! Unused: that values are in their slots between blocks, that slots have owners, the bound 2^24 on
//! their number, debug locations, and when nothing is spilled. A code generator that keeps other
//! data in the frame, or describes it to a debugger, needs these guarantees.
//!
//! Not proved: that x86-64 runs the printed text as the machine runs the code.
//! [`text`] has a spec of the text, and tests run it.
#![tactic(auto)]

mod compiler;
pub mod program;
mod registers;
pub mod run;
pub mod text;

pub use compiler::{CompileError, compile};
pub use registers::target;
