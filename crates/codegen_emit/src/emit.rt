//! From an allocated function to the machine's instructions.

ghost use Rattle.std.specs.Prelude.{◌≡◌, ◌<◌, ◌^◌, ◌+◌, [], ◌∷◌, ◌++◌, IfOk, OnOk, length, map, slice_index};
ghost use Rattle.regalloc2_function.specs.FunctionValue.{block_at};
ghost use Rattle.regalloc2_function.specs.Listing.{IsListedWithin};
ghost use Rattle.regalloc2_function.specs.OutputValue.{IsInOrder, place_at};
ghost use Rattle.regalloc2_function.specs.Views.{item_of, output_of};
ghost use Rattle.regalloc2_function.specs.WellFormed.{BlocksFollow};
ghost use Rattle.codegen_machine.specs.Seen.{function_of_procedure, operations};
ghost use Rattle.codegen_machine.specs.Successors.{operations_of};
ghost use Rattle.codegen_machine.specs.Machine.{code_of};
ghost use Rattle.codegen_emit.specs.Emitted.{register_of, source_of, right_source, fetched_from, fetched, move_code, constant_code, operation_code, opposite, item_code, resolved};
ghost use Rattle.codegen_emit.specs.Emitted.{branch_code, branch_if_code, branch_if_holds_code, compare_code, divide_code, extension_code, return_code, select_code, shift_code};
ghost use Rattle.codegen_emit.specs.Emitted.{address_count, load_code, store_code};
ghost use Rattle.codegen_emit.specs.Emitted.{call_code, outgoing_words, pass_code, passed_from, passes_code, stack_arguments};
ghost use Rattle.codegen_emit.specs.Emitted.{block_code, emitted};

use super::placement::{MachinePlace, frame_slots, machine_place};
use codegen_machine::{Code, Instruction, Procedure, Source};
use codegen_operation::{
    Bytes, Condition, Count, Line, Operation, Operator, Right, ShiftOperator, Width,
};
use regalloc2_function::{Function, InstOrEdit, Output};
use regalloc2_index::Block;
use regalloc2_names::Allocation;
use std::alloc::{AllocError, Global};

/// The register of a place.
fn register(place: Allocation) -> usize
    ensures { result ≡ register_of place }
{
    machine_place(place).register()
}

/// A place to read from.
fn source(place: Allocation) -> Source
    ensures { result ≡ source_of place }
{
    machine_place(place).source()
}

/// A second number: its operand's place, unless it is a constant.
fn right_source(right: Right, place: Allocation) -> Source
    ensures { result ≡ right_source right place }
{
    match right {
        Right::VReg(_) => source(place),
        Right::Number(number) => Source::Number(number),
    }
}

/// Copies the number in a place of the machine into a register.
fn fetch_from(to: usize, from: MachinePlace) -> Instruction
    ensures { result ≡ fetched_from to from }
{
    match from {
        MachinePlace::Register(from) => Instruction::Move { to, from },
        MachinePlace::Slot(slot) => Instruction::Load { to, slot },
    }
}

/// Copies the number in a place into a register.
fn fetch(to: usize, from: Allocation) -> Instruction
    ensures { result ≡ fetched to from }
{
    fetch_from(to, machine_place(from))
}

/// A move. None goes from a slot to a slot, so it is one instruction.
fn move_between(from: Allocation, to: Allocation) -> Instruction
    ensures { result ≡ move_code from to }
{
    let from = machine_place(from);
    match machine_place(to) {
        MachinePlace::Register(to) => fetch_from(to, from),
        MachinePlace::Slot(slot) => Instruction::Store {
            slot,
            from: from.register(),
        },
    }
}

/// Loads a constant; 0 has a shorter instruction.
fn constant(to: usize, value: u64) -> Instruction
    ensures { result ≡ constant_code to value }
{
    if value == 0 {
        Instruction::Clear { to }
    } else {
        Instruction::Constant { to, value }
    }
}

/// The place of an operand.
fn place(places: &[Allocation], operand: usize) -> Allocation
    ensures { result ≡ place_at places.now operand }
{
    match places.get(operand) {
        Some(place) => *place,
        None => Allocation::none(),
    }
}

/// The block at a position of a block's successors.
fn successor(succs: &[Block], position: usize) -> usize
    ensures { result ≡ slice_index succs.now position }
{
    match succs.get(position) {
        Some(block) => block.index(),
        None => 0,
    }
}

/// A jump to the block at a position of a block's successors.
fn jump(succs: &[Block], position: usize) -> Instruction
    ensures { result ≡ Instruction.Jump (slice_index succs.now position) }
{
    let target = successor(succs, position);
    Instruction::Jump { target }
}

/// Appends an instruction.
fn put(code: &mut Vec<Instruction>, instruction: Instruction) -> Result<(), AllocError>
    ensures { OnOk result (code.new.items ≡ code.old.items ++ instruction ∷ []) }
{
    code.push(instruction)?;
    Ok(())
}

/// A computation: the register holds the first number, and receives the result.
fn emit_compute(
    code: &mut Vec<Instruction>,
    width: Width,
    operator: Operator,
    right: Right,
    places: &[Allocation],
) -> Result<(), AllocError>
    ensures { OnOk result (code.new.items ≡ code.old.items
        ++ Instruction.Compute width operator (register_of (place_at places.now 0)) (right_source right (place_at places.now 2)) ∷ []) }
{
    let to = register(place(places, 0));
    let from = right_source(right, place(places, 2));
    put(
        code,
        Instruction::Compute {
            width,
            operator,
            to,
            from,
        },
    )
}

/// A shift, by the count in register 1, or by a constant.
fn shift(width: Width, operator: ShiftOperator, count: Count, to: usize) -> Instruction
    ensures { result ≡ shift_code width operator count to }
{
    match count {
        Count::VReg(_) => Instruction::Shift {
            width,
            operator,
            to,
        },
        Count::Number(count) => Instruction::ShiftBy {
            width,
            operator,
            to,
            count,
        },
    }
}

/// Extends register 0 into register 2.
fn extension(width: Width, is_signed: bool) -> Instruction
    ensures { result ≡ extension_code width is_signed }
{
    if is_signed {
        Instruction::ExtendSign { width }
    } else {
        Instruction::Clear { to: 2 }
    }
}

/// Extends register 0, and divides it by a place's number.
fn emit_divide(
    code: &mut Vec<Instruction>,
    width: Width,
    is_signed: bool,
    divisor: Allocation,
) -> Result<(), AllocError>
    ensures { OnOk result (code.new.items ≡ code.old.items ++ divide_code width is_signed divisor) }
{
    put(code, extension(width, is_signed))?;
    let from = source(divisor);
    put(
        code,
        Instruction::Divide {
            width,
            is_signed,
            from,
        },
    )
}

/// A comparison, and the register that is set to its result.
fn emit_compare(
    code: &mut Vec<Instruction>,
    width: Width,
    condition: Condition,
    right: Right,
    places: &[Allocation],
) -> Result<(), AllocError>
    ensures { OnOk result (code.new.items ≡ code.old.items ++ compare_code width condition right places.now) }
{
    let (to, left) = (register(place(places, 0)), register(place(places, 1)));
    let right = right_source(right, place(places, 2));
    put(code, Instruction::Compare { width, left, right })?;
    put(code, Instruction::Set { to, condition })
}

/// A selection: the register holds the first number, and receives the second if the deciding number
/// is 0.
fn emit_select(code: &mut Vec<Instruction>, places: &[Allocation]) -> Result<(), AllocError>
    ensures { OnOk result (code.new.items ≡ code.old.items ++ select_code places.now) }
{
    let from = source(place(places, 3));
    put(code, Instruction::Test { from })?;
    let (to, from) = (register(place(places, 0)), source(place(places, 2)));
    let condition = Condition::Equal;
    put(
        code,
        Instruction::MoveIf {
            condition,
            to,
            from,
        },
    )
}

/// The condition that holds exactly if another doesn't.
fn opposite(condition: Condition) -> Condition
    ensures { result ≡ opposite condition }
{
    match condition {
        Condition::Equal => Condition::NotEqual,
        Condition::NotEqual => Condition::Equal,
        Condition::Less => Condition::GreaterOrEqual,
        Condition::LessOrEqual => Condition::Greater,
        Condition::Greater => Condition::LessOrEqual,
        Condition::GreaterOrEqual => Condition::Less,
        Condition::SignedLess => Condition::SignedGreaterOrEqual,
        Condition::SignedLessOrEqual => Condition::SignedGreater,
        Condition::SignedGreater => Condition::SignedLessOrEqual,
        Condition::SignedGreaterOrEqual => Condition::SignedLess,
    }
}

/// A branch: to the first successor if the numbers last compared meet a condition, else to the
/// second. If the first is block `next`, its jump comes last: to the next line, which the text
/// omits.
fn emit_branch(
    code: &mut Vec<Instruction>,
    condition: Condition,
    succs: &[Block],
    next: usize,
) -> Result<(), AllocError>
    ensures { OnOk result (code.new.items ≡ code.old.items ++ branch_code condition succs.now next) }
{
    let (first, second) = (successor(succs, 0), successor(succs, 1));
    let (condition, target, other) = if first == next {
        (opposite(condition), second, first)
    } else {
        (condition, first, second)
    };
    put(code, Instruction::JumpIf { condition, target })?;
    put(code, Instruction::Jump { target: other })
}

/// A branch: to the first successor if a place's number isn't 0, else to the second.
fn emit_branch_if(
    code: &mut Vec<Instruction>,
    place: Allocation,
    succs: &[Block],
    next: usize,
) -> Result<(), AllocError>
    ensures { OnOk result (code.new.items ≡ code.old.items ++ branch_if_code place succs.now next) }
{
    let from = source(place);
    put(code, Instruction::Test { from })?;
    emit_branch(code, Condition::NotEqual, succs, next)
}

/// A branch: to the first successor if two numbers meet a condition, else to the second.
fn emit_branch_if_holds(
    code: &mut Vec<Instruction>,
    width: Width,
    condition: Condition,
    right: Right,
    places: &[Allocation],
    succs: &[Block],
    next: usize,
) -> Result<(), AllocError>
    ensures { OnOk result (code.new.items ≡ code.old.items ++ branch_if_holds_code width condition right places.now succs.now next) }
{
    let left = register(place(places, 0));
    let right = right_source(right, place(places, 1));
    let comparison = Instruction::Compare { width, left, right };
    put(code, comparison)?;
    emit_branch(code, condition, succs, next)
}

/// How many addresses an access has in a memory of `memory_size` bytes.
fn address_count(memory_size: usize, bytes: Bytes) -> usize
    requires { memory_size < 2 ^ 31 }
    ensures { result ≡ address_count memory_size bytes }
{
    let count: usize = match bytes {
        Bytes::One => 1,
        Bytes::Two => 2,
        Bytes::Four => 4,
        Bytes::Eight => 8,
    };
    (memory_size + 1).saturating_sub(count)
}

/// A read of memory. It traps unless the address is one that the access has.
fn emit_load(
    code: &mut Vec<Instruction>,
    memory_size: usize,
    bytes: Bytes,
    places: &[Allocation],
) -> Result<(), AllocError>
    requires { memory_size < 2 ^ 31 }
    ensures { OnOk result (code.new.items ≡ code.old.items ++ load_code memory_size bytes places.now) }
{
    let (to, address) = (register(place(places, 0)), register(place(places, 1)));
    let limit = address_count(memory_size, bytes);
    put(code, Instruction::Guard { address, limit })?;
    put(code, Instruction::Read { bytes, to, address })
}

/// A write to memory. It traps unless the address is one that the access has.
fn emit_store(
    code: &mut Vec<Instruction>,
    memory_size: usize,
    bytes: Bytes,
    places: &[Allocation],
) -> Result<(), AllocError>
    requires { memory_size < 2 ^ 31 }
    ensures { OnOk result (code.new.items ≡ code.old.items ++ store_code memory_size bytes places.now) }
{
    let (address, from) = (register(place(places, 0)), register(place(places, 1)));
    let limit = address_count(memory_size, bytes);
    put(code, Instruction::Guard { address, limit })?;
    put(
        code,
        Instruction::Write {
            bytes,
            address,
            from,
        },
    )
}

/// Passes an argument on the stack: copies the number in a place of the machine into an outgoing
/// word. Register 0 is free for a number in a slot, because the arguments' uses are late, and the
/// call's result is written to it.
fn emit_pass_from(
    code: &mut Vec<Instruction>,
    index: usize,
    from: MachinePlace,
) -> Result<(), AllocError>
    ensures { OnOk result (code.new.items ≡ code.old.items ++ passed_from index from) }
{
    match from {
        MachinePlace::Register(from) => put(code, Instruction::Pass { index, from }),
        MachinePlace::Slot(slot) => {
            put(code, Instruction::Load { to: 0, slot })?;
            put(code, Instruction::Pass { index, from: 0 })
        }
    }
}

/// Passes an argument on the stack.
fn emit_pass(code: &mut Vec<Instruction>, index: usize, from: Allocation) -> Result<(), AllocError>
    ensures { OnOk result (code.new.items ≡ code.old.items ++ pass_code index from) }
{
    emit_pass_from(code, index, machine_place(from))
}

/// Passes `count` arguments on the stack: the operands after the result and the arguments in registers.
fn emit_passes(
    code: &mut Vec<Instruction>,
    count: usize,
    places: &[Allocation],
) -> Result<(), AllocError>
    requires { count < 2 ^ 63 }
    ensures { OnOk result (code.new.items ≡ code.old.items ++ passes_code count places.now) }
{
    for index in 0..count {
        emit_pass(code, index, place(places, index + 7))?;
    }
    Ok(())
}

/// A call of a function with `count` arguments.
fn emit_call(
    code: &mut Vec<Instruction>,
    function: usize,
    count: usize,
    places: &[Allocation],
) -> Result<(), AllocError>
    requires { count < 2 ^ 63 }
    ensures { OnOk result (code.new.items ≡ code.old.items ++ call_code function count places.now) }
{
    emit_passes(code, count.saturating_sub(6), places)?;
    put(code, Instruction::Call { function })
}

/// The return of a place's number, in register 0.
fn emit_return(code: &mut Vec<Instruction>, place: Allocation) -> Result<(), AllocError>
    ensures { OnOk result (code.new.items ≡ code.old.items ++ return_code place) }
{
    put(code, fetch(0, place))?;
    put(code, Instruction::Return)
}

/// The instructions of an operation, with a memory of `memory_size` bytes and its operands' places,
/// in a block before block `next`. Jumps name blocks.
fn emit_operation(
    code: &mut Vec<Instruction>,
    memory_size: usize,
    operation: &Operation,
    places: &[Allocation],
    succs: &[Block],
    next: usize,
) -> Result<(), AllocError>
    requires { memory_size < 2 ^ 31 }
    ensures { OnOk result (code.new.items ≡ code.old.items ++ operation_code memory_size operation.now places.now succs.now next) }
{
    let first = place(places, 0);
    let to = register(first);
    match *operation {
        Operation::Argument { index, .. } => put(code, Instruction::Argument { to, index }),
        Operation::Constant { value, .. } => put(code, constant(to, value)),
        Operation::Copy { .. } => put(code, fetch(to, place(places, 1))),
        Operation::Compute {
            width,
            operator,
            right,
            ..
        } => emit_compute(code, width, operator, right, places),
        Operation::Shift {
            width,
            operator,
            count,
            ..
        } => put(code, shift(width, operator, count, to)),
        Operation::Divide {
            width,
            is_signed,
            ..
        } => emit_divide(code, width, is_signed, place(places, 2)),
        Operation::Compare {
            width,
            condition,
            right,
            ..
        } => emit_compare(code, width, condition, right, places),
        Operation::Select { .. } => emit_select(code, places),
        Operation::Load { bytes, .. } => emit_load(code, memory_size, bytes, places),
        Operation::Store { bytes, .. } => emit_store(code, memory_size, bytes, places),
        Operation::Call {
            function,
            ref arguments,
            ..
        } => emit_call(code, function, arguments.len(), places),
        Operation::Jump => put(code, jump(succs, 0)),
        Operation::BranchIf { .. } => emit_branch_if(code, first, succs, next),
        Operation::BranchIfHolds {
            width,
            condition,
            right,
            ..
        } => emit_branch_if_holds(code, width, condition, right, places, succs, next),
        Operation::Return { .. } => emit_return(code, first),
    }
}

/// An item of a block's listing.
fn emit_item(
    code: &mut Vec<Instruction>,
    f: &Procedure,
    out: &Output,
    block: Block,
    item: &InstOrEdit,
) -> Result<(), AllocError>
    requires in_order { IsInOrder (function_of_procedure f.now) (output_of out.now) }
    requires block { block < length (function_of_procedure f.now).blocks }
    requires within { IsListedWithin 0 (length (function_of_procedure f.now).insts) (item_of item.now) }
    ensures { OnOk result (code.new.items ≡ code.old.items
        ++ item_code (operations f.now) (output_of out.now) (block_at (function_of_procedure f.now) block).succs (block + 1) (item_of item.now)) }
{
    match item {
        InstOrEdit::Inst(inst) => {
            let operation = &f.lines[inst.index()].operation;
            emit_operation(
                code,
                f.memory_size,
                operation,
                out.inst_allocs(*inst),
                f.block_succs(block),
                block.index() + 1,
            )
        }
        InstOrEdit::Edit(edit) => {
            let (from, to) = edit.places();
            put(code, move_between(from, to))
        }
    }
}

/// A block: its instructions, each after the moves that run before it.
fn emit_block(
    code: &mut Vec<Instruction>,
    f: &Procedure,
    out: &Output,
    block: Block,
) -> Result<(), AllocError>
    requires in_order { IsInOrder (function_of_procedure f.now) (output_of out.now) }
    requires follow { BlocksFollow (function_of_procedure f.now) }
    requires block { block < length (function_of_procedure f.now).blocks }
    ensures { OnOk result (code.new.items ≡ code.old.items
        ++ block_code (operations f.now) (output_of out.now) (function_of_procedure f.now) block) }
{
    for item in out.block_insts_and_edits(f, block) {
        emit_item(code, f, out, block, &item)?;
    }
    Ok(())
}

/// An instruction whose jump is resolved to the first instruction of its block.
fn resolve(instruction: Instruction, starts: &[usize]) -> Instruction
    ensures { result ≡ resolved (λ b. slice_index starts.now b) instruction }
{
    let start = |block: usize| starts.get(block).copied().unwrap_or(0);
    match instruction {
        Instruction::Jump { target } => Instruction::Jump {
            target: start(target),
        },
        Instruction::JumpIf { condition, target } => Instruction::JumpIf {
            condition,
            target: start(target),
        },
        other => other,
    }
}

/// Instructions whose jumps are resolved to the first instructions of their blocks.
fn resolve_all(
    alloc: Global,
    code: &[Instruction],
    starts: &[usize],
) -> Result<Vec<Instruction>, AllocError>
    ensures { IfOk result (λ v. v.items ≡ map (resolved (λ b. slice_index starts.now b)) code.now) }
{
    code.iter()
        .map(|instruction| resolve(*instruction, starts))
        .collect(alloc)
}

/// How many arguments an operation passes on the stack.
fn stack_arguments(operation: &Operation) -> usize
    ensures { result ≡ stack_arguments operation.now }
{
    match operation {
        Operation::Call { arguments, .. } => arguments.len().saturating_sub(6),
        _ => 0,
    }
}

/// The outgoing words of a function: the most arguments that a call passes on the stack.
fn outgoing_words(lines: &[Line]) -> usize
    ensures { result ≡ outgoing_words (operations_of lines.now) }
{
    let mut most = 0;
    for line in lines {
        most = stack_arguments(&line.operation).max(most);
    }
    most
}

/// The code of an allocated function.
///
/// Blocks are emitted in order, with jumps that name blocks, and the first instruction of each is
/// recorded; then jumps are resolved to instructions.
pub fn emit(alloc: Global, f: &Procedure, out: &Output) -> Result<Code, AllocError>
    requires in_order { IsInOrder (function_of_procedure f.now) (output_of out.now) }
    requires follow { BlocksFollow (function_of_procedure f.now) }
    ensures { IfOk result (λ code. code_of code ≡ emitted (operations f.now) (function_of_procedure f.now) (output_of out.now)) }
{
    let mut code = Vec::new(alloc);
    let mut starts = Vec::new(alloc);
    for b in 0..f.num_blocks() {
        starts.push(code.len())?;
        emit_block(&mut code, f, out, Block::new(b))?;
    }
    let instructions = resolve_all(alloc, &code, &starts)?;
    Ok(Code {
        instructions,
        slots: frame_slots(out.num_spillslots),
        outgoing: outgoing_words(&f.lines),
    })
}
