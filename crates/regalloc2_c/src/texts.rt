//! What statuses and faults say, in English.

ghost use Rattle.std.specs.Prelude.{◌≡◌, slice_index_or};
ghost use Rattle.regalloc2_c.specs.Texts.{text_of_status, failure_texts, text_of_refusal, no_status, text_of_fault, IsTold};

use regalloc2_names::RegAllocErrorKind;

/// Returns what `status` says.
pub fn status_words(status: u32) -> &'static str
    ensures { result.now ≡ text_of_status status }
{
    if status < 20 {
        failure_words(status)
    } else {
        refusal_words(status - 20)
    }
}

/// What `status`, which is below 20, says.
fn failure_words(status: u32) -> &'static str
    ensures { result.now ≡ slice_index_or failure_texts status no_status }
{
    match status {
        0 => "the call succeeded",
        1 => "the input lays out no function or no output",
        2 => "the machine doesn't fit the function",
        3 => "the result takes more words than there is room for",
        4 => "the output has faults",
        5 => "out of memory",
        6 =>
            "the function isn't structurally valid: blocks don't follow one another or don't end, or arguments aren't as many as parameters",
        7 => "the output's numbers name none",
        8 => "some path reads or passes a vreg before writing it",
        9 => "a line of the text can't be read",
        10 => "no status",
        11 => "bad function: lists by block or by class have different lengths",
        12 => "bad function: a block, a range or a label is out of range",
        13 => "bad function: a word names nothing",
        14 => "bad function: a limit is passed",
        15 => "bad function: out of memory",
        16 => "bad function: a value has another shape",
        _ => "no status",
    }
}

/// Returns the cause of the allocator's errors with the number `number`.
fn refusal_words(number: u32) -> &'static str
    ensures { result.now ≡ text_of_refusal number }
{
    let Ok(number) = u8::try_from(number) else {
        return "no status";
    };
    match RegAllocErrorKind::from_number(number) {
        Some(kind) => kind.cause(),
        None => "no status",
    }
}

/// Returns what the fault `number` says.
pub fn fault_words(number: u32) -> &'static str
    ensures { result.now ≡ text_of_fault number }
{
    match number {
        0 => "no fault",
        1 => "an operand has no place",
        2 => "the place doesn't hold a value on every path",
        3 => "the place holds values that conflict",
        4 => "the place holds the values of other vregs",
        5 => "a reuse names no operand",
        6 => "the place is no register",
        7 => "the place isn't the fixed register",
        8 => "the place isn't that of the reused operand",
        9 => "the place isn't on the stack",
        10 => "a move goes from one stack place to another",
        11 => "the register's number isn't below the limit",
        12 => "the output isn't in order",
        13 => "out of memory",
        14 => "no register for the class, and no slot of the frame",
        15 => "a move goes from a register to one of another class",
        16 => "a slot isn't within the frame",
        17 => "two slots share a unit",
        _ => "no fault",
    }
}

/// Writes `words` to `text` as far as there is room, and returns how many bytes they are.
pub fn tell(words: &str, text: &mut [u8]) -> usize
    ensures { IsTold words.now text.old text.new result }
{
    let bytes = words.as_bytes();
    let count = bytes.len();
    if count <= text.len() {
        text[..count].copy_from_slice(bytes);
    } else {
        let room = text.len();
        text.copy_from_slice(&bytes[..room]);
    }
    count
}
