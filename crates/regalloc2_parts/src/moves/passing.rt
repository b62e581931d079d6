//! Stack-to-stack moves, made by way of a register.

ghost use Rattle.std.specs.Prelude.{◌≡◌, ◌≢◌, ◌⊎◌, Contains, IsTrue, IfOk, OnOk};
ghost use Rattle.regalloc2_names.specs.Place.{Place};
ghost use Rattle.regalloc2_parts.specs.AtOnce.{CellsOf, ends_of, in_turn, moved};
ghost use Rattle.regalloc2_parts.specs.Tracking.{Tracks, CanPass, SavesOrRestores, GoesThrough, IsMadeFor};
ghost use Rattle.regalloc2_parts.specs.declared.moves.passing.Held.TheVariants.{InSave};

use regalloc2_names::Allocation;
use std::alloc::{AllocError, Allocator};

/// Where the value is that the moves made so far put into the register.
#[derive(Clone, Copy)]
pub(super) enum Held {
    /// The register is free: no move names it, and its value isn't needed.
    Free,
    /// In the register only.
    InRegister,
    /// In the register and in the save slot.
    InBoth,
    /// In the save slot only: the register holds the last value that went through it.
    InSave,
}

/// The register that moves go through, and the slot in which its value is saved. For a free
/// register, both are the register.
#[derive(Clone, Copy)]
pub(super) struct ScratchReg {
    /// The register.
    pub register: Allocation,
    /// The slot.
    pub save: Allocation,
}

/// Saves the value that the register of `via` must hold, unless it is saved. `held` says where the
/// value is; the result says where it is then.
fn save_first<T: Copy + Default, A: Allocator + Copy>(
    via: &ScratchReg,
    held: Held,
    out: &mut Vec<(Allocation, Allocation, T), A>,
) -> Result<Held, AllocError>
    ensures tracks { IfOk result (λ after. (c d : CellsOf Place) → Tracks via.now.register via.now.save held c (in_turn (ends_of out.old.items) d) →
        Tracks via.now.register via.now.save after c (in_turn (ends_of out.new.items) d)) }
    ensures can_pass { IfOk result (λ after. CanPass after) }
    ensures added { OnOk result ((x : Place × Place × _) → Contains out.new.items x → Contains out.old.items x ⊎ SavesOrRestores via.now.register via.now.save x) }
{
    match held {
        Held::Free => Ok(Held::Free),
        Held::InRegister => {
            out.push((via.register, via.save, T::default()))?;
            Ok(Held::InSave)
        }
        Held::InBoth => Ok(Held::InSave),
        Held::InSave => Ok(Held::InSave),
    }
}

/// Makes the register of `via` hold the value that the moves put into it: moves it back if `held`
/// says that it is in the save slot only. The result says where it is then.
pub(super) fn restore_first<T: Copy + Default, A: Allocator + Copy>(
    via: &ScratchReg,
    held: Held,
    out: &mut Vec<(Allocation, Allocation, T), A>,
) -> Result<Held, AllocError>
    ensures tracks { IfOk result (λ after. (c d : CellsOf Place) → Tracks via.now.register via.now.save held c (in_turn (ends_of out.old.items) d) →
        Tracks via.now.register via.now.save after c (in_turn (ends_of out.new.items) d)) }
    ensures restored { IfOk result (λ after. after ≢ InSave) }
    ensures added { OnOk result ((x : Place × Place × _) → Contains out.new.items x → Contains out.old.items x ⊎ SavesOrRestores via.now.register via.now.save x) }
{
    match held {
        Held::Free => Ok(Held::Free),
        Held::InRegister => Ok(Held::InRegister),
        Held::InBoth => Ok(Held::InBoth),
        Held::InSave => {
            out.push((via.save, via.register, T::default()))?;
            Ok(Held::InBoth)
        }
    }
}

/// Makes the move `m` by way of the register.
fn pass<T: Copy + Default, A: Allocator + Copy>(
    m: &(Allocation, Allocation, T),
    via: &ScratchReg,
    held: Held,
    out: &mut Vec<(Allocation, Allocation, T), A>,
) -> Result<Held, AllocError>
    requires from { (m.now.0 ≢ via.now.register) × (m.now.0 ≢ via.now.save) }
    requires to { (m.now.1 ≢ via.now.register) × (m.now.1 ≢ via.now.save) }
    ensures tracks { IfOk result (λ after. (c d : CellsOf Place) → Tracks via.now.register via.now.save held c (in_turn (ends_of out.old.items) d) →
        Tracks via.now.register via.now.save after (moved c m.now.1 (c m.now.0)) (in_turn (ends_of out.new.items) d)) }
    ensures added { OnOk result ((x : Place × Place × _) → Contains out.new.items x → (Contains out.old.items x ⊎ SavesOrRestores via.now.register via.now.save x)
        ⊎ GoesThrough via.now.register m.now x) }
{
    let after = save_first(via, held, out)?;
    out.push((m.0, via.register, m.2))?;
    out.push((via.register, m.1, m.2))?;
    Ok(after)
}

/// Makes the move `m` as it is. Its source must be available: not in the save slot only.
fn copy<T: Copy + Default, A: Allocator + Copy>(
    m: &(Allocation, Allocation, T),
    via: &ScratchReg,
    held: Held,
    out: &mut Vec<(Allocation, Allocation, T), A>,
) -> Result<Held, AllocError>
    requires unnamed { (m.now.0 ≢ via.now.save) × (m.now.1 ≢ via.now.save) }
    requires ready { m.now.0 ≡ via.now.register → held ≢ InSave }
    ensures tracks { IfOk result (λ after. (c d : CellsOf Place) → Tracks via.now.register via.now.save held c (in_turn (ends_of out.old.items) d) →
        Tracks via.now.register via.now.save after (moved c m.now.1 (c m.now.0)) (in_turn (ends_of out.new.items) d)) }
    ensures added { OnOk result ((x : Place × Place × _) → Contains out.new.items x → Contains out.old.items x ⊎ (x ≡ m.now)) }
{
    out.push(*m)?;
    if m.1 == via.register {
        return Ok(Held::InRegister);
    }
    Ok(held)
}

/// Makes the move `m`, by way of the register if it is stack-to-stack: if `is_passing` is true.
pub(super) fn make<T: Copy + Default, A: Allocator + Copy>(
    m: &(Allocation, Allocation, T),
    is_passing: bool,
    via: &ScratchReg,
    held: Held,
    out: &mut Vec<(Allocation, Allocation, T), A>,
) -> Result<Held, AllocError>
    requires unnamed { (m.now.0 ≢ via.now.save) × (m.now.1 ≢ via.now.save) }
    requires passing { IsTrue is_passing → (m.now.0 ≢ via.now.register) × (m.now.1 ≢ via.now.register) }
    ensures tracks { IfOk result (λ after. (c d : CellsOf Place) → Tracks via.now.register via.now.save held c (in_turn (ends_of out.old.items) d) →
        Tracks via.now.register via.now.save after (moved c m.now.1 (c m.now.0)) (in_turn (ends_of out.new.items) d)) }
    ensures added { OnOk result ((x : Place × Place × _) → Contains out.new.items x → (Contains out.old.items x ⊎ SavesOrRestores via.now.register via.now.save x)
        ⊎ IsMadeFor via.now.register is_passing m.now x) }
{
    if is_passing {
        return pass(m, via, held, out);
    }
    if m.0 == via.register {
        let after = restore_first(via, held, out)?;
        return copy(m, via, after, out);
    }
    copy(m, via, held, out)
}
