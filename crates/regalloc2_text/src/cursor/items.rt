//! Registers, vregs, operands, places and points from tokens.

ghost use Rattle.std.specs.Prelude.{◌<◌, ◌≤◌, IfOk, IfSome};
ghost use Rattle.regalloc2_names.specs.Packing.{IsConstraintOf};
ghost use Rattle.regalloc2_text.specs.Cursor.Cursor.{tokens_left};

use super::cursor::{Cursor, is_numeral};
use regalloc2_index::Inst;
use regalloc2_names::{
    Allocation, InstPosition, Operand, OperandConstraint, OperandKind, OperandPos, PReg, ProgPoint,
    RegClass, SpillSlot, VReg,
};
use regalloc2_serialize::limits::INST_LIMIT;

/// A register or a vreg: one word of a letter, a number and the class's letter.
#[derive(Clone, Copy)]
pub struct Named {
    /// The number.
    pub number: usize,
    /// The class.
    pub class: RegClass,
}

/// What the text needs in place of a word that is no name.
#[derive(Clone, Copy)]
struct Misnamed {
    /// The word has no letter and number.
    other: &'static str,
    /// The word has no class letter.
    no_class: &'static str,
    /// The number is too great.
    too_great: &'static str,
}

const NO_REGISTER: Misnamed = Misnamed {
    other: "a register",
    no_class: "a register with its class letter i, f or v",
    too_great: "a register with a number up to 63",
};

const NO_VREG: Misnamed = Misnamed {
    other: "a virtual register",
    no_class: "a virtual register with its class letter i, f or v",
    too_great: "a virtual register with a number up to 1073741823",
};

/// Returns the class of `letter`, if it has one.
fn class_of_letter(letter: Option<char>) -> Option<RegClass> {
    match letter? {
        'i' => Some(RegClass::Int),
        'f' => Some(RegClass::Float),
        'v' => Some(RegClass::Vector),
        _ => None,
    }
}

/// Returns the class that `name` names, if any.
pub fn class_named(name: &str) -> Option<RegClass> {
    match name {
        "int" => Some(RegClass::Int),
        "float" => Some(RegClass::Float),
        "vector" => Some(RegClass::Vector),
        _ => None,
    }
}

/// Returns the class that `name` names in upstream's `Debug`, if any.
fn class_in_debug(name: &str) -> Option<RegClass> {
    match name {
        "Int" => Some(RegClass::Int),
        "Float" => Some(RegClass::Float),
        "Vector" => Some(RegClass::Vector),
        _ => None,
    }
}

/// Returns the kind and the position that `name` names, if any.
fn kind_named(name: &str) -> Option<(OperandKind, OperandPos)> {
    match name {
        "Def" => Some((OperandKind::Def, OperandPos::Late)),
        "Def@Early" => Some((OperandKind::Def, OperandPos::Early)),
        "Use" => Some((OperandKind::Use, OperandPos::Early)),
        "Use@Late" => Some((OperandKind::Use, OperandPos::Late)),
        _ => None,
    }
}

/// Returns `word` without the small letter at its end, and the letter, if there is one.
fn split_letter(word: &str) -> (&str, Option<char>) {
    let Some(last) = word.chars().next_back() else {
        return (word, None);
    };
    if !last.is_ascii_lowercase() {
        return (word, None);
    }
    match word.strip_suffix(last) {
        Some(front) => (front, Some(last)),
        None => (word, None),
    }
}

/// Returns whether the text of `operand` is `Fixed: ` and its register. If so, it shows no vreg.
fn is_fixed_alone(operand: Operand) -> bool {
    match operand.as_fixed_nonallocatable() {
        Some(register) => operand == Operand::fixed_nonallocatable(register),
        None => false,
    }
}

/// Returns the number and the class in `word`, a name of `letter` and a number up to `max`; or what is needed there.
fn name_in(word: &str, letter: char, max: usize, misnamed: &Misnamed) -> Result<Named, &'static str>
    ensures { IfOk result (λ named. named.number ≤ max) }
{
    let (digits, last) = split_letter(word.strip_prefix(letter).unwrap_or(""));
    if !is_numeral(digits) {
        return Err(misnamed.other);
    }
    let Some(class) = class_of_letter(last) else {
        return Err(misnamed.no_class);
    };
    match digits.parse::<usize>() {
        Ok(number) if number <= max => Ok(Named { number, class }),
        _ => Err(misnamed.too_great),
    }
}

impl Cursor<'_, '_> {
    /// Returns the number in `bits(N)` up to `max`, if `bits(N)` is next. The closing bracket isn't consumed.
    fn bits(&mut self, max: u64) -> Option<u64>
        ensures left { tokens_left self.new ≤ tokens_left self.old }
        ensures up_to { IfSome result (λ n. n ≤ max) }
    {
        if !self.has("bits") {
            return None;
        }
        self.want("(");
        Some(self.number(max))
    }

    /// Consumes the closing bracket of `bits(N)`. A number of which `is_named` is true has a name, and doesn't fit.
    fn bits_end(&mut self, is_named: bool)
        ensures { tokens_left self.new ≤ tokens_left self.old }
    {
        if is_named {
            self.misfit_before("a word that names nothing (this one has a name)");
        }
        self.want(")");
    }

    /// Consumes a name of `letter` and a number up to `max`, and returns what it names.
    fn letter_named(&mut self, letter: char, max: usize, misnamed: &Misnamed) -> Named
        ensures left { tokens_left self.new ≤ tokens_left self.old }
        ensures up_to { result.number ≤ max }
    {
        match name_in(self.peek().unwrap_or(""), letter, max, misnamed) {
            Ok(named) => {
                self.advance();
                named
            }
            Err(expected) => {
                self.misfit(expected);
                Named {
                    number: 0,
                    class: RegClass::Int,
                }
            }
        }
    }

    /// Consumes a name, `=` and a number up to `max`, as `hw = 3`, and returns the number.
    fn number_part(&mut self, name: &'static str, max: u64) -> u64
        ensures left { tokens_left self.new ≤ tokens_left self.old }
        ensures up_to { result ≤ max }
    {
        self.want(name);
        self.want("=");
        self.number(max)
    }

    /// Consumes `class = Int` or another class, and returns the class.
    fn class_part(&mut self) -> RegClass
        ensures { tokens_left self.new ≤ tokens_left self.old }
    {
        self.want("class");
        self.want("=");
        match class_in_debug(self.peek().unwrap_or("")) {
            Some(class) => {
                self.advance();
                class
            }
            None => {
                self.misfit("`Int`, `Float` or `Vector`");
                RegClass::Int
            }
        }
    }

    /// Consumes what follows `PReg` in upstream's `Debug`, as `(hw = 3, class = Int, index = 3)`; returns the register.
    fn register_parts(&mut self) -> Named
        ensures left { tokens_left self.new ≤ tokens_left self.old }
        ensures up_to { result.number ≤ PReg.MAX }
    {
        self.want("(");
        let number = self.number_part("hw", PReg::MAX as u64) as usize;
        self.want(",");
        let class = self.class_part();
        self.want(",");
        let index = self.number_part("index", 255);
        if index != PReg::new(number, class).index() as u64 {
            self.misfit_before("the index of that register");
        }
        self.want(")");
        Named { number, class }
    }

    /// Consumes what follows `VReg` in upstream's `Debug`, as `(vreg = 3, class = Int)`, and returns the vreg.
    fn vreg_parts(&mut self) -> Named
        ensures left { tokens_left self.new ≤ tokens_left self.old }
        ensures up_to { result.number ≤ VReg.MAX }
    {
        self.want("(");
        let number = self.number_part("vreg", VReg::MAX as u64) as usize;
        self.want(",");
        let class = self.class_part();
        self.want(")");
        Named { number, class }
    }

    /// Consumes a register, and returns it.
    pub fn register(&mut self) -> Named
        ensures left { tokens_left self.new ≤ tokens_left self.old }
        ensures up_to { result.number ≤ PReg.MAX }
    {
        if self.has("PReg") {
            return self.register_parts();
        }
        self.letter_named('p', PReg::MAX, &NO_REGISTER)
    }

    /// Consumes the index of a register, or one that is of none, and returns the index.
    pub fn register_bits(&mut self) -> u8
        ensures { tokens_left self.new ≤ tokens_left self.old }
    {
        match self.bits(255) {
            Some(bits) => {
                self.bits_end(PReg::is_index(bits as usize));
                bits as u8
            }
            None => {
                let named = self.register();
                PReg::new(named.number, named.class).index() as u8
            }
        }
    }

    /// Consumes a vreg, and returns it.
    fn vreg(&mut self) -> Named
        ensures left { tokens_left self.new ≤ tokens_left self.old }
        ensures up_to { result.number ≤ VReg.MAX }
    {
        if self.has("VReg") {
            return self.vreg_parts();
        }
        self.letter_named('v', VReg::MAX, &NO_VREG)
    }

    /// Consumes a vreg, or an encoding that is of none, and returns its encoding.
    pub fn vreg_bits(&mut self) -> u32
        ensures { tokens_left self.new ≤ tokens_left self.old }
    {
        match self.bits(u64::from(u32::MAX)) {
            Some(bits) => {
                let bits = bits as u32;
                self.bits_end(VReg::is_bits(bits));
                bits
            }
            None => {
                let named = self.vreg();
                self.show_vreg(named.number as u64);
                VReg::new(named.number, named.class).bits() as u32
            }
        }
    }

    /// Consumes an operand, or an encoding that is of none, and returns its encoding.
    pub fn operand_bits(&mut self) -> u64
        ensures { tokens_left self.new ≤ tokens_left self.old }
    {
        if let Some(bits) = self.bits(u64::MAX) {
            self.bits_end(Operand::is_bits(bits));
            return bits;
        }
        if self.has("Fixed") {
            self.want(":");
            let named = self.register();
            let register = PReg::new(named.number, named.class);
            return Operand::fixed_nonallocatable(register).bits();
        }
        let Some((kind, pos)) = kind_named(self.peek().unwrap_or("")) else {
            self.misfit("an operand: `Def`, `Def@Early`, `Use`, `Use@Late` or `Fixed`");
            return 0;
        };
        self.advance();
        self.want(":");
        self.operand(kind, pos)
    }

    /// Consumes what follows the colon of an operand of `kind` and `pos`, and returns the operand's encoding.
    fn operand(&mut self, kind: OperandKind, pos: OperandPos) -> u64
        ensures { tokens_left self.new ≤ tokens_left self.old }
    {
        let named = self.vreg();
        let constraint = self.constraint(named.class);
        let vreg = VReg::new(named.number, named.class);
        let operand = Operand::new(vreg, constraint, kind, pos);
        if !is_fixed_alone(operand) {
            self.show_vreg(named.number as u64);
        }
        operand.bits()
    }

    /// Consumes the constraint of an operand whose vreg is of `class`, and returns it.
    fn constraint(&mut self, class: RegClass) -> OperandConstraint
        ensures left { tokens_left self.new ≤ tokens_left self.old }
        ensures of_class { IsConstraintOf class result }
    {
        if self.has("any") {
            OperandConstraint::Any
        } else if self.has("reg") {
            OperandConstraint::Reg
        } else if self.has("stack") {
            OperandConstraint::Stack
        } else if self.has("fixed") {
            self.fixed(class)
        } else if self.has("reuse") {
            self.reuse()
        } else if self.has("limit") {
            self.limit()
        } else {
            self.misfit(
                "a constraint: `any`, `reg`, `stack`, `fixed(..)`, `reuse(..)` or `limit(0..=..)`",
            );
            OperandConstraint::Any
        }
    }

    /// Consumes what follows `fixed`, a register of `class`, and returns the constraint.
    fn fixed(&mut self, class: RegClass) -> OperandConstraint
        ensures left { tokens_left self.new ≤ tokens_left self.old }
        ensures of_class { IsConstraintOf class result }
    {
        self.want("(");
        let named = self.register();
        if named.class != class {
            self.misfit_before("a register of the virtual register's class");
        }
        self.want(")");
        OperandConstraint::FixedReg(PReg::new(named.number, class))
    }

    /// Consumes what follows `reuse`, the index of an operand, and returns the constraint.
    fn reuse(&mut self) -> OperandConstraint
        ensures left { tokens_left self.new ≤ tokens_left self.old }
        ensures of_class { (class : RegClass) → IsConstraintOf class result }
    {
        self.want("(");
        let index = self.number(31);
        self.want(")");
        OperandConstraint::Reuse(index as usize)
    }

    /// Consumes what follows `limit`, the range of hardware numbers, and returns the constraint.
    fn limit(&mut self) -> OperandConstraint
        ensures left { tokens_left self.new ≤ tokens_left self.old }
        ensures of_class { (class : RegClass) → IsConstraintOf class result }
    {
        self.want("(");
        self.want("0");
        self.want("..=");
        let bound = match self.number(63) {
            0 => 1,
            1 => 2,
            3 => 4,
            7 => 8,
            15 => 16,
            31 => 32,
            63 => 64,
            _ => {
                self.misfit_before("0, 1, 3, 7, 15, 31 or 63");
                1
            }
        };
        self.want(")");
        OperandConstraint::Limit(bound)
    }

    /// Consumes a place, or an encoding that is of none, and returns its encoding.
    pub fn place_bits(&mut self) -> u32
        ensures { tokens_left self.new ≤ tokens_left self.old }
    {
        if let Some(bits) = self.bits(u64::from(u32::MAX)) {
            let bits = bits as u32;
            self.bits_end(Allocation::is_bits(bits));
            bits
        } else if self.has("none") {
            Allocation::none().bits()
        } else if self.begins("stack") {
            Allocation::stack(SpillSlot::new(self.slot())).bits()
        } else if self.begins("p") || self.begins("PReg") {
            let named = self.register();
            Allocation::reg(PReg::new(named.number, named.class)).bits()
        } else {
            self.misfit("a place: a register, a slot or `none`");
            0
        }
    }

    /// Consumes the number of a spill slot, and returns it.
    fn slot(&mut self) -> usize
        ensures left { tokens_left self.new ≤ tokens_left self.old }
        ensures valid { result ≤ SpillSlot.MAX }
    {
        let number = self.named("stack", "a place") as usize;
        if number > SpillSlot::MAX {
            self.misfit_before("a slot with a number up to 16777215");
            return 0;
        }
        number
    }

    /// Consumes a point, or a number that is of none, and returns its number.
    pub fn point_bits(&mut self) -> u32
        ensures { tokens_left self.new ≤ tokens_left self.old }
    {
        if let Some(bits) = self.bits(u64::from(u32::MAX)) {
            let bits = bits as u32;
            self.bits_end(ProgPoint::is_index(bits));
            return bits;
        }
        // upstream's `Debug` of a point begins so
        let name = if self.begins("progpoint") {
            "progpoint"
        } else {
            "inst"
        };
        let inst = Inst(self.named(name, "a point"));
        if inst != Inst::invalid() && inst.index() >= INST_LIMIT {
            self.misfit_before("an instruction below 1073741824");
            return 0;
        }
        self.want("-");
        let pos = self.position();
        ProgPoint::new(inst, pos).to_index()
    }

    /// Returns whether a point is before or after its instruction.
    fn position(&mut self) -> InstPosition
        ensures { tokens_left self.new ≤ tokens_left self.old }
    {
        if self.has("pre") {
            InstPosition::Before
        } else if self.has("post") {
            InstPosition::After
        } else {
            self.misfit("`pre` or `post`");
            InstPosition::Before
        }
    }

    /// Consumes a range of instructions; returns the numbers of its first instruction and of the one past its last.
    pub fn range(&mut self) -> (u32, u32)
        ensures { tokens_left self.new ≤ tokens_left self.old }
    {
        self.want("from");
        let from = self.named("inst", "an instruction");
        self.want("until");
        let until = self.named("inst", "an instruction");
        (from, until)
    }
}
