//! Suspended frames.

ghost use Rattle.std.specs.Prelude.{◌<◌, ◌+◌, ◌^◌};

use super::procedure::Numbers;
use regalloc2_names::VReg;

/// A frame suspended at a call: its function, its arguments, the line of the call, the numbers of
/// its vregs, and the vreg that the call defines.
#[derive(Drop)]
pub struct Frame {
    pub procedure: usize,
    pub arguments: Vec<u64>,
    pub block: usize,
    pub inst: usize,
    pub numbers: Numbers,
    pub to: VReg,
    pub ghost room: { inst + 1 < 2 ^ 64 },
}
