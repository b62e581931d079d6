//! The order in which overlapping moves are made.
//!
//! The *next* of a move is the move that overwrites its source, and must come after it. A place has
//! one writer, so each move has at most one next, and following nexts from a move gives a single
//! chain. It ends at a move whose source no move writes, whose next was already emitted, or whose
//! next is on the chain. In the third case it closes a ring, and a simple one: each of its moves
//! has just its neighbour as next, so no next leads out of a ring, and two rings share no move. A
//! chain that meets itself contains the whole cycle, and no search for strongly connected
//! components is needed.
//!
//! A chain is emitted from its end to its start, and the list of emitted moves is reversed at the
//! end. A ring is broken by a scratch place: its last move is emitted as one from the scratch
//! place, and a move from the last one's source to the scratch place is emitted after its first
//! move.

ghost use Rattle.std.specs.Prelude.{◌≡◌, ◌≢◌, ◌↔◌, true, false, ◌+◌, ◌<◌, ◌≤◌, length, reverse, Contains, List, IsTrue, IsOk};
ghost use Rattle.std.specs.Prelude.{ℕ, ◌-◌, [], IfOk, IfErr, IsFalse, OnOk, replicate, slice_index_or};
ghost use Rattle.std.specs.List.{All};
ghost use Rattle.std.specs.List.Sorted.{IsPermutation, IsNonDecreasingBy};
ghost use Rattle.regalloc2_names.specs.Place.{Place};
ghost use Rattle.regalloc2_names.specs.PlaceBits.{bits_of_place};
ghost use Rattle.regalloc2_parts.specs.AtOnce.{ends_of, AreReal, HasOneSourceEach, IsOfMoves, IsPlace};
ghost use Rattle.regalloc2_parts.specs.Giving.{to_at, AreFair, AreProper, IsTidied, IsWriterOf, AreMovesApart, AreNexts, IsOrder, IsMoveChain};
ghost use Rattle.regalloc2_parts.specs.Giving.{CanFollow, CanOpen, CanGive, CanBegin, IsGiving, LeadsTo, HasGoneOn, IsGivenOut, AreSameDone, state_at};
ghost use Rattle.regalloc2_parts.specs.Steps.{CanReorder, IsReordered, IsRunnableResolution};
ghost use Rattle.regalloc2_parts.specs.declared.moves.order.State.TheVariants.{Todo, Pending, Done};

use super::{MoveFault, MoveVec, MoveVecWithScratch};
use regalloc2_names::Allocation;
use smallvec::SmallVec;
use std::alloc::{AllocError, Allocator};

/// Indexes of moves. Up to 16 are stored inline.
pub(super) type Indexes<'a, A> = SmallVec<usize, 16, &'a A>;

/// The state of a move.
#[derive(Clone, Copy, Default)]
pub(super) enum State {
    /// On no chain yet.
    #[default]
    Todo,
    /// On the chain that is followed.
    Pending,
    /// Emitted.
    Done,
}

/// Follows the chain of nexts from `start`, and returns where it stops: at a move that isn't `Todo`,
/// or past the end.
fn follow<'a, B: Allocator>(
    start: usize,
    nexts: &[usize],
    state: &mut [State],
    chain: &mut Indexes<'a, B>,
) -> Result<usize, AllocError>
    requires { CanFollow nexts.now state.old chain.old.items start }
    ensures chain { OnOk result (IsMoveChain nexts.now state.new chain.new.items) }
    ensures link { IfOk result (λ stop. LeadsTo nexts.now chain.new.items stop) }
    ensures stops { IfOk result (λ stop. stop < length nexts.now → state_at state.new stop ≢ Todo) }
    ensures same { OnOk result (AreSameDone state.old state.new) }
    ensures goes_on { OnOk result (HasGoneOn state.old state.new) }
    ensures begun { OnOk result (state_at state.new start ≢ Todo) }
{
    let mut at = start;
    while at < nexts.len() && matches!(state[at], State::Todo) {
        chain.push(at)?;
        state[at] = State::Pending;
        at = nexts[at];
    }
    Ok(at)
}

/// Whether the move at `at` is on the chain that is followed. No move past the end is.
fn is_pending(state: &[State], at: usize) -> bool
    ensures yes { result ≡ true → (at < length state.now) × (state_at state.now at ≡ Pending) }
    ensures no { result ≡ false → at < length state.now → state_at state.now at ≢ Pending }
{
    at < state.len() && matches!(state[at], State::Pending)
}

/// Opens the ring that `chain` closes at `stop`: emits its last move as a move from
/// `Allocation::none()`, which stands for the scratch place. Returns the indexes of the last move,
/// whose source `give_chain` saves, and of the ring's first move; past the end for both if there is
/// no ring.
fn open_ring<'a, T: Copy + Default, A: Allocator + Copy>(
    moves: &[(Allocation, Allocation, T)],
    nexts: &[usize],
    state: &mut [State],
    chain: &mut Indexes<'a, A>,
    given: &mut MoveVec<T, A>,
    stop: usize,
) -> Result<(usize, usize), AllocError>
    requires { CanOpen moves.now nexts.now state.old chain.old.items given.old.items stop }
    ensures giving { IfOk result (λ ring. IsGiving (ends_of moves.now) nexts.now state.new chain.new.items (ends_of given.new.items) ring.0 ring.1
        × HasGoneOn state.old state.new × All (IsOfMoves moves.now) given.new.items) }
{
    if !is_pending(state, stop) {
        return Ok((moves.len(), moves.len()));
    }
    let Some(last) = chain.pop() else {
        return Ok((moves.len(), moves.len()));
    };
    let end = moves[last];
    given.push((Allocation::none(), end.1, end.2))?;
    state[last] = State::Done;
    Ok((last, stop))
}

/// Emits the moves of `chain` from its end on. If the chain closes a ring, `ring` is its last move and
/// its first, and a move that saves the last move's source is emitted after the first; if there is no
/// ring, both are past the end.
fn give_chain<'a, T: Copy + Default, A: Allocator + Copy>(
    moves: &[(Allocation, Allocation, T)],
    nexts: &[usize],
    state: &mut [State],
    chain: &mut Indexes<'a, A>,
    given: &mut MoveVec<T, A>,
    ring: (usize, usize),
) -> Result<(), AllocError>
    requires { CanGive moves.now nexts.now state.old chain.old.items given.old.items ring.0 ring.1 }
    ensures given { OnOk result (IsGivenOut moves.now nexts.now state.old state.new chain.new.items given.new.items) }
{
    let (mut cut, mut first) = ring;
    while let Some(top) = chain.pop() {
        given.push(moves[top])?;
        state[top] = State::Done;
        if top == first {
            let end = moves[cut];
            given.push((end.0, Allocation::none(), T::default()))?;
            cut = moves.len();
            first = moves.len();
        }
    }
    Ok(())
}

/// Emits the chain that begins at the move `start`.
fn give_from<'a, T: Copy + Default, A: Allocator + Copy>(
    moves: &[(Allocation, Allocation, T)],
    nexts: &[usize],
    state: &mut [State],
    chain: &mut Indexes<'a, A>,
    given: &mut MoveVec<T, A>,
    start: usize,
) -> Result<(), AllocError>
    requires { CanBegin moves.now nexts.now state.old chain.old.items given.old.items start }
    ensures given { OnOk result (IsGivenOut moves.now nexts.now state.old state.new chain.new.items given.new.items × (state_at state.new start ≢ Todo)) }
{
    let stop = follow(start, nexts, state, chain)?;
    let ring = open_ring(moves, nexts, state, chain, given, stop)?;
    give_chain(moves, nexts, state, chain, given, ring)
}

/// The emitted `moves`, from the last to the first, found with a `state` that is `Todo` for each
/// move and an empty `chain`.
fn give_chains<'a, T: Copy + Default, A: Allocator + Copy>(
    alloc: A,
    moves: &[(Allocation, Allocation, T)],
    nexts: &[usize],
    state: &mut [State],
    chain: &mut Indexes<'a, A>,
) -> Result<MoveVec<T, A>, AllocError>
    requires apart { AreMovesApart (ends_of moves.now) }
    requires nexts { AreNexts (ends_of moves.now) nexts.now }
    requires indexed { length nexts.now ≡ length moves.now }
    requires todo { state.old ≡ replicate (length moves.now) Todo }
    requires empty { chain.old.items ≡ [] }
    ensures order { IfOk result (λ given. IsOrder (ends_of moves.now) nexts.now (ends_of given.items) × All (IsOfMoves moves.now) given.items) }
{
    let mut given = SmallVec::with_capacity(alloc, moves.len().saturating_add(1))?;
    for start in 0..moves.len() {
        if matches!(state[start], State::Todo) {
            give_from(moves, nexts, state, chain, &mut given, start)?;
        }
    }
    Ok(given)
}

/// The emitted `moves`, from the last to the first.
fn give_all<T: Copy + Default, A: Allocator + Copy>(
    alloc: A,
    moves: &[(Allocation, Allocation, T)],
    nexts: &[usize],
) -> Result<MoveVec<T, A>, AllocError>
    requires apart { AreMovesApart (ends_of moves.now) }
    requires nexts { AreNexts (ends_of moves.now) nexts.now }
    requires indexed { length nexts.now ≡ length moves.now }
    ensures order { IfOk result (λ given. IsOrder (ends_of moves.now) nexts.now (ends_of given.items) × All (IsOfMoves moves.now) given.items) }
{
    let mut states: SmallVec<State, 16, &A> = SmallVec::from_elem(
        &alloc,
        State::Todo,
        moves.len(),
    )?;
    let mut chain: Indexes<'_, A> = SmallVec::new(&alloc);
    give_chains(alloc, moves, nexts, states.as_mut_slice(), &mut chain)
}

/// Whether the encoding of `place` is below or above the encodings of all destinations. The moves
/// are sorted by destination.
fn is_outside<T: Copy + Default>(moves: &[(Allocation, Allocation, T)], place: Allocation) -> bool
    requires { IsNonDecreasingBy (λ (m : Place × Place × _). bits_of_place m.1) moves.now }
    ensures outside { IsTrue result → (j : ℕ) (d : Place × Place × _) → j < length moves.now →
        bits_of_place (slice_index_or moves.now j d).1 ≢ bits_of_place place }
    ensures within { IsFalse result → (0 < length moves.now) × ((d : Place × Place × _) →
        (bits_of_place (slice_index_or moves.now 0 d).1 ≤ bits_of_place place)
        × (bits_of_place place ≤ bits_of_place (slice_index_or moves.now (length moves.now - 1) d).1)) }
{
    let end = moves.len();
    if end == 0 {
        return true;
    }
    let word = place.bits();
    word < moves[0].1.bits() || moves[end - 1].1.bits() < word
}

/// The index of the move that writes `place`, or past the end if no move does. Slots are numbered as
/// they are made: the slot of an argument is often above the slots of all parameters, and then
/// nothing is searched.
fn find_writer<T: Copy + Default>(moves: &[(Allocation, Allocation, T)], place: Allocation) -> usize
    requires sorted { IsNonDecreasingBy (λ (m : Place × Place × _). bits_of_place m.1) moves.now }
    requires proper { AreProper (ends_of moves.now) }
    requires real { IsPlace place }
    ensures { IsWriterOf (ends_of moves.now) place result }
{
    if is_outside(moves, place) {
        return moves.len();
    }
    match moves.binary_search_by_key(&place.bits(), |other| other.1.bits()) {
        Ok(found) => found,
        Err(_) => moves.len(),
    }
}

/// Whether there is a move at `at`, and it writes `place`.
fn is_writer<T: Copy + Default>(
    moves: &[(Allocation, Allocation, T)],
    at: usize,
    place: Allocation,
) -> bool
    requires proper { AreProper (ends_of moves.now) }
    requires real { IsPlace place }
    ensures { IsTrue result ↔ ((at < length moves.now) × (to_at (ends_of moves.now) at ≡ place)) }
{
    at < moves.len() && moves[at].1.bits() == place.bits()
}

/// The index of the move that writes `place`, or past the end if no move does. Searches only if the
/// move at `guess` doesn't write it.
fn find_writer_near<T: Copy + Default>(
    moves: &[(Allocation, Allocation, T)],
    place: Allocation,
    guess: usize,
) -> usize
    requires sorted { IsNonDecreasingBy (λ (m : Place × Place × _). bits_of_place m.1) moves.now }
    requires proper { AreProper (ends_of moves.now) }
    requires real { IsPlace place }
    ensures { IsWriterOf (ends_of moves.now) place result }
{
    if is_writer(moves, guess, place) {
        return guess;
    }
    find_writer(moves, place)
}

/// The index of the next of each of `moves`, or past the end if it has none. Slots of arguments and
/// of parameters are mostly numbered in one order, so the guess is the index after the last found.
fn find_nexts<'a, T: Copy + Default, B: Allocator>(
    alloc: &'a B,
    moves: &[(Allocation, Allocation, T)],
) -> Result<Indexes<'a, B>, AllocError>
    requires sorted { IsNonDecreasingBy (λ (m : Place × Place × _). bits_of_place m.1) moves.now }
    requires proper { AreProper (ends_of moves.now) }
    ensures ok { IfOk result (λ nexts. AreNexts (ends_of moves.now) nexts.items) }
{
    let mut nexts = SmallVec::new(alloc);
    let mut guess = 0;
    for m in moves {
        let found = find_writer_near(moves, m.0, guess);
        nexts.push(found)?;
        guess = found.wrapping_add(1);
    }
    Ok(nexts)
}

/// Sorts `moves` by the encodings of their destinations.
fn sort_moves<T: Copy + Default, A: Allocator + Copy>(moves: &mut MoveVec<T, A>)
    ensures permutation { IsPermutation moves.old.items moves.new.items }
    ensures sorted { IsNonDecreasingBy (λ (m : Place × Place × _). bits_of_place m.1) moves.new.items }
{
    moves.sort_unstable_by_key(|m| m.1.bits());
}

/// Whether the encodings of the destinations of `moves` rise strictly, and no move is to its own
/// source.
fn is_tidy<T: Copy + Default>(moves: &[(Allocation, Allocation, T)]) -> bool
    ensures { IsTrue result → IsTidied (ends_of moves.now) (ends_of moves.now) }
{
    let mut last = 0;
    for m in moves {
        let word = m.1.bits();
        if word <= last || m.0.bits() == word {
            return false;
        }
        last = word;
    }
    true
}

/// Sorts `moves` by destination, and drops repeats and moves that change nothing.
fn tidy<T: Copy + Default, A: Allocator + Copy>(moves: &mut MoveVec<T, A>)
    requires fair { AreFair (ends_of moves.old.items) }
    requires proper { AreProper (ends_of moves.old.items) }
    ensures tidied { IsTidied (ends_of moves.old.items) (ends_of moves.new.items) }
    ensures given { (m : Place × Place × _) → Contains moves.new.items m → Contains moves.old.items m }
{
    sort_moves(moves);
    if is_tidy(moves.as_slice()) {
        return;
    }
    moves.dedup_by_key(|m| m.1.bits());
    moves.retain(|m| m.0.bits() != m.1.bits());
}

/// Reverses `moves`.
fn turn_round<T: Copy + Default, A: Allocator + Copy>(moves: &mut MoveVec<T, A>)
    ensures { moves.new.items ≡ reverse moves.old.items }
{
    moves.as_mut_slice().reverse();
}

/// The moves in the order that `nexts` requires; `None` if they can be made as they stand, because
/// none reads what another writes.
#[inline(always)]
fn in_turn_order<T: Copy + Default, A: Allocator + Copy>(
    alloc: A,
    moves: &[(Allocation, Allocation, T)],
    nexts: &[usize],
) -> Result<Option<MoveVecWithScratch<T, A>>, AllocError>
    requires { CanReorder moves.now nexts.now }
    ensures { IfOk result (IsReordered moves.now nexts.now) }
{
    let end = nexts.len();
    if nexts.iter().all(|next| *next >= end) {
        return Ok(None);
    }
    let mut given = give_all(alloc, moves, nexts)?;
    turn_round(&mut given);
    // each cycle added one move
    let has_cycle = given.len() > moves.len();
    Ok(Some(if has_cycle {
        MoveVecWithScratch::Scratch(given)
    } else {
        MoveVecWithScratch::NoScratch(given)
    }))
}

/// The moves of the tidy list `moves` in another order; `None` if they can be made as they stand.
#[inline(always)]
fn reordered<T: Copy + Default, A: Allocator + Copy>(
    alloc: A,
    moves: &[(Allocation, Allocation, T)],
) -> Result<Option<MoveVecWithScratch<T, A>>, AllocError>
    requires apart { AreMovesApart (ends_of moves.now) }
    requires sorted { IsNonDecreasingBy (λ (m : Place × Place × _). bits_of_place m.1) moves.now }
    requires proper { AreProper (ends_of moves.now) }
    ensures { IfOk result (λ r. (nexts : List ℕ) × AreNexts (ends_of moves.now) nexts × IsReordered moves.now nexts r) }
{
    let nexts = find_nexts(&alloc, moves)?;
    in_turn_order(alloc, moves, nexts.as_slice())
}

/// Returns `moves`, ordered so that they can be made one after another as if in parallel.
pub(super) fn resolve<T: Copy + Default, A: Allocator + Copy>(
    mut moves: MoveVec<T, A>,
) -> Result<MoveVecWithScratch<T, A>, MoveFault>
    requires one_source { HasOneSourceEach (ends_of moves.items) }
    requires real { AreReal moves.items }
    ensures resolved { IfOk result (λ r. IsRunnableResolution moves.items r) }
    ensures short { length moves.items ≤ 1 → IsOk result }
    ensures memory { IfErr result (λ e. e ≡ MoveFault.Memory) }
{
    if moves.len() <= 1 {
        return Ok(MoveVecWithScratch::NoScratch(moves));
    }
    tidy(&mut moves);
    match reordered(*moves.allocator(), moves.as_slice()) {
        Ok(Some(ordered)) => Ok(ordered),
        Ok(None) => Ok(MoveVecWithScratch::NoScratch(moves)),
        Err(_) => Err(MoveFault::Memory),
    }
}
