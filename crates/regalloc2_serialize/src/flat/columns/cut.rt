//! The columns of words.

ghost use Rattle.std.specs.Prelude.{◌≡◌, ℕ, ◌+◌, ◌/◌, ◌%◌, ◌<◌, ◌≤◌, ◌^◌, All, MatchOption, length, nat_eq, take, slice_index, sum};
ghost use Rattle.regalloc2_serialize.specs.Flat.Columns.Layout.{header_of, widths, column, AreInColumns, int_log, float_log, vector_log};

/// The column of the sets of preferred registers.
pub const PREFERRED: usize = 1;

/// The column of the sets of non-preferred registers.
pub const NON_PREFERRED: usize = 2;

/// The column of the scratch registers.
pub const SCRATCH: usize = 3;

/// The column of the fixed stack slots.
pub const SLOTS: usize = 4;

/// The column of the sets of clobbers.
pub const SETS: usize = 5;

/// The column of what the instructions are.
pub const KINDS: usize = 6;

/// The column of where the operands of each instruction end.
pub const OPERAND_ENDS: usize = 7;

/// The column of the operands.
pub const OPERANDS: usize = 8;

/// The column of where the instructions of each block end.
pub const INST_ENDS: usize = 9;

/// The column of where the predecessors of each block end.
pub const PRED_ENDS: usize = 10;

/// The column of where the successors of each block end.
pub const SUCC_ENDS: usize = 11;

/// The column of where the parameters of each block end.
pub const PARAM_ENDS: usize = 12;

/// The column of the predecessors.
pub const PREDS: usize = 13;

/// The column of the successors.
pub const SUCCS: usize = 14;

/// The column of the parameters.
pub const PARAMS: usize = 15;

/// The column of where the arguments of each edge end.
pub const ARGUMENT_ENDS: usize = 16;

/// The column of the arguments.
pub const ARGUMENTS: usize = 17;

/// The column of the labels.
pub const LABELS: usize = 18;

/// The number of columns, the header among them.
const COLUMNS: usize = 19;

/// The number of classes, which have an item each in columns by class.
const CLASSES: usize = 3;

/// The number of words of a set of registers.
pub const SET_WORDS: usize = 6;

/// The number of words of an operand.
const OPERAND_WORDS: usize = 2;

/// The number of words of a label.
pub const LABEL_WORDS: usize = 4;

/// The first word, the number of this layout.
const LAYOUT: u32 = 2;

/// The number of words of the header.
const HEADER_WORDS: usize = 15;

/// The number of bits that a logarithm takes in [`Header::sizes`].
const LOG_BITS: u32 = 8;

/// The bits of a logarithm.
const LOG_MASK: u32 = 0xff;

/// The numbers of sizes are below this: each has a logarithm for each class.
const SIZES_END: u32 = 1 << (CLASSES as u32 * LOG_BITS);

/// The logarithm of the largest size of a slot.
pub const MOST_LOG: u32 = 24;

/// In [`Header::flags`]: a slot is named by its last unit.
const NAMED_BY_LAST: u32 = 1;

/// In [`Header::flags`]: a vreg may have several definitions.
const MULTIPLE_DEFS: u32 = 2;

/// The numbers of flags are below this.
const FLAGS_END: u32 = 4;

/// The numbers at the head of the words, without the first, which is the layout's.
#[derive(Clone, Copy)]
pub struct Header {
    /// The block at which the function starts.
    pub entry: u32,
    /// How many instructions there are.
    pub insts: u32,
    /// How many blocks.
    pub blocks: u32,
    /// How many operands of all instructions.
    pub operands: u32,
    /// How many sets of clobbers.
    pub sets: u32,
    /// How many successors of all blocks.
    pub edges: u32,
    /// How many predecessors of all blocks.
    pub preds: u32,
    /// How many parameters of all blocks.
    pub params: u32,
    /// How many arguments of all edges.
    pub arguments: u32,
    /// A number above that of each vreg that is defined.
    pub vregs: u32,
    /// How many labels.
    pub labels: u32,
    /// How many fixed stack slots the machine has.
    pub slots: u32,
    /// 1 if a slot is named by its last unit, and 2 more if a vreg may have several definitions.
    pub flags: u32,
    /// The logarithms of the sizes of slots, 8 bits each.
    pub sizes: u32,
}

impl Header {
    /// Returns the header of `words`.
    fn of(words: &[u32]) -> Header
        requires { 15 ≤ length words.now }
        ensures { result ≡ header_of words.now }
    {
        Header {
            entry: words[1],
            insts: words[2],
            blocks: words[3],
            operands: words[4],
            sets: words[5],
            edges: words[6],
            preds: words[7],
            params: words[8],
            arguments: words[9],
            vregs: words[10],
            labels: words[11],
            slots: words[12],
            flags: words[13],
            sizes: words[14],
        }
    }

    /// Returns the logarithm of the size of an integer's slot.
    pub fn int_log(self) -> u32
        ensures { result ≡ int_log self.sizes }
    {
        self.sizes & LOG_MASK
    }

    /// Returns the logarithm of the size of a floating-point number's slot.
    pub fn float_log(self) -> u32
        ensures { result ≡ float_log self.sizes }
    {
        (self.sizes >> LOG_BITS) & LOG_MASK
    }

    /// Returns the logarithm of the size of a vector's slot.
    pub fn vector_log(self) -> u32
        ensures { result ≡ vector_log self.sizes }
    {
        self.sizes >> (2 * LOG_BITS)
    }

    /// Returns whether a slot is named by its last unit.
    pub fn is_named_by_last_slot(self) -> bool
        ensures { result ≡ nat_eq (self.flags % 2) 1 }
    {
        self.flags % MULTIPLE_DEFS == NAMED_BY_LAST
    }

    /// Returns whether a vreg may have several definitions.
    pub fn allows_multiple_defs(self) -> bool
        ensures { result ≡ nat_eq (self.flags / 2) 1 }
    {
        self.flags / MULTIPLE_DEFS == 1
    }

    /// Returns how many words the header and each column take.
    fn widths(self) -> [usize; COLUMNS]
        ensures widths { result ≡ widths self }
        ensures small { All (λ w. w < 2 ^ 35) result }
    {
        let edges = self.edges as usize;
        let insts = self.insts as usize;
        let blocks = self.blocks as usize;
        [
            HEADER_WORDS,
            CLASSES * SET_WORDS,
            CLASSES * SET_WORDS,
            CLASSES,
            self.slots as usize,
            SET_WORDS * self.sets as usize,
            insts,
            insts,
            OPERAND_WORDS * self.operands as usize,
            blocks,
            blocks,
            blocks,
            blocks,
            self.preds as usize,
            edges,
            self.params as usize,
            edges,
            self.arguments as usize,
            LABEL_WORDS * self.labels as usize,
        ]
    }
}

/// Returns where the header and each column begin, by their `widths`, and where the last column ends.
fn starts_of(widths: [usize; COLUMNS]) -> [usize; COLUMNS + 1]
    requires { All (λ w. w < 2 ^ 35) widths }
    ensures { (k : ℕ) → k < 20 → slice_index result k ≡ sum (take k widths) }
{
    let mut starts = [0; COLUMNS + 1];
    for k in 0..COLUMNS {
        starts[k + 1] = starts[k] + widths[k];
    }
    starts
}

/// Words that are cut into columns.
#[derive(Drop)]
pub struct Cut<'a> {
    pub(super) words: &'a [u32],
    header: Header,
    starts: [usize; COLUMNS + 1],
    pub ghost header_is: { header ≡ header_of words.now },
    pub ghost starts_are: { (k : ℕ) → k < 20 → slice_index starts k ≡ sum (take k (widths (header_of words.now))) },
    pub ghost count: { length words.now ≡ sum (widths (header_of words.now)) },
    pub ghost rise: { (k : ℕ) → k < 19 → slice_index starts k ≤ slice_index starts (k + 1) },
    pub ghost within: { (k : ℕ) → k < 20 → slice_index starts k ≤ length words.now },
}

impl<'a> Cut<'a> {
    /// Returns the columns of `words`, if they are laid out in columns. Allocates nothing.
    pub fn of(words: &'a [u32]) -> Option<Cut<'a>>
        ensures { MatchOption result (AreInColumns words.now → ⊥) (λ c. AreInColumns words.now × (c.words.now ≡ words.now)) }
    {
        if words.len() < HEADER_WORDS || words[0] != LAYOUT {
            return None;
        }
        let header = Header::of(words);
        let starts = starts_of(header.widths());
        if starts[COLUMNS] != words.len()
            || header.flags >= FLAGS_END
            || header.sizes >= SIZES_END
        {
            return None;
        }
        Some(Cut {
            words,
            header,
            starts,
        })
    }

    /// Returns the header.
    pub fn header(&self) -> Header
        ensures { result ≡ header_of self.now.words.now }
    {
        self.header
    }

    /// Returns the column with the number `k`, from 1.
    pub fn column(&self, k: usize) -> &'a [u32]
        requires { k < 19 }
        ensures column { result.now ≡ column self.now.words.now k }
        ensures count { length result.now ≡ slice_index (widths (header_of self.now.words.now)) k }
    {
        &self.words[self.starts[k]..self.starts[k + 1]]
    }
}
