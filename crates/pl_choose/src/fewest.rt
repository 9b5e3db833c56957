//! The move that leaves the fewest conflicts. To find it, moves are made on the board and undone. The last one made may stay made
//! if it is the best.
ghost use Rattle.std.specs.Prelude.{◌≡◌, ◌<◌, ◌≤◌, ◌∷◌, true, false, All, map, Some, IfOk, OnErr};
ghost use Rattle.pl_semantics.specs.Legal.{left_after};
ghost use Rattle.pl_moves.specs.Changes.{IsOfActivities};
ghost use Rattle.pl_choose.specs.Found.{IsAllowed};
ghost use Rattle.pl_choose.specs.Picked.{IsPicked, IsFewest};
ghost use Rattle.pl_choose.specs.Picks.{fewest};
ghost use Rattle.pl_choose.specs.Started.{IsStarted};
ghost use Rattle.pl_choose.specs.Stages.{IsStage, move_of};

use crate::aiming::pick_by_aims;
use crate::alone::{Alone, try_alone};
use crate::best::Best;
use crate::bounded::{bounds_of, lowest_of};
use crate::choice::pick_of_hopeful;
use crate::in_turn::pick_in_turn;
use crate::picked::Picked;
use crate::purpose::{Purpose, enough_for};
use crate::stages::{Stage, are_of_one, stages_of, take_out};
use crate::want::or_spoil;
use pl_board::Board;
use pl_moves::least_left;
use pl_plan::RepairMove;
use std::alloc::{AllocError, Global};

// How many aims (see `aiming.rt`) are tried before the moves that are then left are tried in their order.
const AIMS: u32 = 2;

/// What came of trying the first of some moves.
#[derive(Drop)]
pub(crate) enum Started {
    /// The first leaves the fewest conflicts.
    Decided(Picked),
    /// The others may leave fewer.
    Open(Best),
}

// Tries the first of some moves, given a number of conflicts that each of the others leaves at least.
fn start_with(
    alloc: Global,
    board: &mut Board,
    first: &RepairMove,
    least: u32,
    purpose: Purpose,
) -> Result<Started, AllocError>
    requires unspoiled { board.old.spoiled ≡ false }
    requires next { board.old.state.next_id ≤ 3999999000 }
    requires allowed { IsAllowed board.old.state first.now }
    ensures started { IfOk result (λ started. IsStarted purpose first.now least board.old started board.new) }
    ensures err { OnErr result (board.new.spoiled ≡ true) }
{
    match try_alone(alloc, board, first, enough_for(purpose, Some(least)))? {
        Alone::Made(trial) => Ok(Started::Decided(Picked::Made(*first, trial))),
        Alone::Undone { left } => {
            if left <= least as usize {
                return Ok(Started::Decided(Picked::Found(*first)));
            }
            Ok(Started::Open(Best { mv: *first, left }))
        }
    }
}

// A number of conflicts that each of these moves leaves at least. It is found quickly, since little is asked of each move.
fn least_alone(board: &Board, moves: &[RepairMove]) -> u32
    requires { All (IsAllowed board.now.state) moves.now }
    ensures { All (λ m. result ≤ left_after board.now.state m) moves.now }
{
    let mut least = u32::MAX;
    for mv in moves {
        least = least.min(least_left(board.state(), mv));
    }
    least
}

// The best of the first and the others, given a number of conflicts that each of the others leaves at least. If the first leaves
// more, the bound of each of the others is worked out.
fn pick_of_few(
    alloc: Global,
    board: &mut Board,
    first: &RepairMove,
    rest: &[RepairMove],
    least: u32,
    purpose: Purpose,
) -> Result<Picked, AllocError>
    requires unspoiled { board.old.spoiled ≡ false }
    requires next { board.old.state.next_id ≤ 3999999000 }
    requires first { IsAllowed board.old.state first.now }
    requires rest { All (IsAllowed board.old.state) rest.now }
    requires least { All (λ m. least ≤ left_after board.old.state m) rest.now }
    ensures picked { IfOk result (λ p. IsPicked purpose (λ m. fewest board.old.state (first.now ∷ rest.now) ≡ Some m) board.old p board.new) }
    ensures err { OnErr result (board.new.spoiled ≡ true) }
{
    match start_with(alloc, board, first, least, purpose)? {
        Started::Decided(picked) => Ok(picked),
        Started::Open(best) => {
            let bounds = bounds_of(alloc, board, rest)?;
            pick_by_aims(alloc, board, best, rest, &bounds, purpose, AIMS)
        }
    }
}

// The best of the first and the others. The bound of each of the others is worked out before the first is tried.
fn pick_of_many(
    alloc: Global,
    board: &mut Board,
    first: &RepairMove,
    rest: &[RepairMove],
    purpose: Purpose,
) -> Result<Picked, AllocError>
    requires unspoiled { board.old.spoiled ≡ false }
    requires next { board.old.state.next_id ≤ 3999999000 }
    requires first { IsAllowed board.old.state first.now }
    requires rest { All (IsAllowed board.old.state) rest.now }
    ensures picked { IfOk result (λ p. IsPicked purpose (λ m. fewest board.old.state (first.now ∷ rest.now) ≡ Some m) board.old p board.new) }
    ensures err { OnErr result (board.new.spoiled ≡ true) }
{
    let bounds = bounds_of(alloc, board, rest)?;
    let least = lowest_of(u32::MAX, &bounds);
    match start_with(alloc, board, first, least, purpose)? {
        Started::Decided(picked) => Ok(picked),
        Started::Open(best) => pick_by_aims(alloc, board, best, rest, &bounds, purpose, AIMS),
    }
}

// The best of the first and the others. If few conflicts stand, the number that `least_alone` finds quickly is likely to show that no
// other move leaves fewer than the first.
fn pick_by_bounds(
    alloc: Global,
    board: &mut Board,
    first: &RepairMove,
    rest: &[RepairMove],
    purpose: Purpose,
) -> Result<Picked, AllocError>
    requires unspoiled { board.old.spoiled ≡ false }
    requires next { board.old.state.next_id ≤ 3999999000 }
    requires first { IsAllowed board.old.state first.now }
    requires rest { All (IsAllowed board.old.state) rest.now }
    ensures picked { IfOk result (λ p. IsPicked purpose (λ m. fewest board.old.state (first.now ∷ rest.now) ≡ Some m) board.old p board.new) }
    ensures err { OnErr result (board.new.spoiled ≡ true) }
{
    let least = least_alone(board, rest);
    if board.conflicts().len() <= least.saturating_add(1) {
        return pick_of_few(alloc, board, first, rest, least, purpose);
    }
    pick_of_many(alloc, board, first, rest, purpose)
}

// The best of the first and the others, given what each changes. If all take out the same activities, each is made in place of the
// one before.
fn pick_by_stages(
    alloc: Global,
    board: &mut Board,
    first: &RepairMove,
    rest: &[RepairMove],
    stages: Vec<Stage>,
    purpose: Purpose,
) -> Result<Picked, AllocError>
    requires unspoiled { board.old.spoiled ≡ false }
    requires next { board.old.state.next_id ≤ 3999999000 }
    requires first { IsAllowed board.old.state first.now }
    requires rest { All (IsAllowed board.old.state) rest.now }
    requires stages { All (IsStage board.old.state) stages.items }
    requires moves { map move_of stages.items ≡ first.now ∷ rest.now }
    ensures picked { IfOk result (λ p. IsPicked purpose (λ m. fewest board.old.state (first.now ∷ rest.now) ≡ Some m) board.old p board.new) }
    ensures err { OnErr result (board.new.spoiled ≡ true) }
{
    if take_out(&stages[0].trial.change.gone, &stages) {
        return pick_in_turn(alloc, board, stages, purpose);
    }
    pick_by_bounds(alloc, board, first, rest, purpose)
}

// The best of the first and the others, each of which chooses an alternative of one activity or deletes it, all of which are tried.
fn pick_of_all(
    alloc: Global,
    board: &mut Board,
    first: &RepairMove,
    rest: &[RepairMove],
    purpose: Purpose,
) -> Result<Picked, AllocError>
    requires unspoiled { board.old.spoiled ≡ false }
    requires next { board.old.state.next_id ≤ 3999999000 }
    requires first { IsAllowed board.old.state first.now }
    requires rest { All (IsAllowed board.old.state) rest.now }
    requires activities { All IsOfActivities (first.now ∷ rest.now) }
    ensures picked { IfOk result (λ p. IsPicked purpose (λ m. fewest board.old.state (first.now ∷ rest.now) ≡ Some m) board.old p board.new) }
    ensures err { OnErr result (board.new.spoiled ≡ true) }
{
    let staged = stages_of(alloc, board.state(), first, rest);
    let stages = or_spoil(board, staged)?;
    pick_by_stages(alloc, board, first, rest, stages, purpose)
}

// The best of the moves, of which these are the first and the others. Each chooses an alternative of one activity or deletes it.
fn pick_of_choice(
    alloc: Global,
    board: &mut Board,
    moves: &[RepairMove],
    first: &RepairMove,
    rest: &[RepairMove],
    purpose: Purpose,
) -> Result<Picked, AllocError>
    requires unspoiled { board.old.spoiled ≡ false }
    requires next { board.old.state.next_id ≤ 3999999000 }
    requires moves { moves.now ≡ first.now ∷ rest.now }
    requires first { IsAllowed board.old.state first.now }
    requires rest { All (IsAllowed board.old.state) rest.now }
    requires activities { All IsOfActivities (first.now ∷ rest.now) }
    ensures picked { IfOk result (λ p. IsPicked purpose (λ m. fewest board.old.state (first.now ∷ rest.now) ≡ Some m) board.old p board.new) }
    ensures err { OnErr result (board.new.spoiled ≡ true) }
{
    match pick_of_hopeful(alloc, board, moves, purpose)? {
        Some(picked) => Ok(picked),
        None => pick_of_all(alloc, board, first, rest, purpose),
    }
}

// The best of the moves, of which these are the first and the others.
fn pick(
    alloc: Global,
    board: &mut Board,
    moves: &[RepairMove],
    first: &RepairMove,
    rest: &[RepairMove],
    purpose: Purpose,
) -> Result<Picked, AllocError>
    requires unspoiled { board.old.spoiled ≡ false }
    requires next { board.old.state.next_id ≤ 3999999000 }
    requires moves { moves.now ≡ first.now ∷ rest.now }
    requires first { IsAllowed board.old.state first.now }
    requires rest { All (IsAllowed board.old.state) rest.now }
    ensures picked { IfOk result (λ p. IsPicked purpose (λ m. fewest board.old.state (first.now ∷ rest.now) ≡ Some m) board.old p board.new) }
    ensures err { OnErr result (board.new.spoiled ≡ true) }
{
    if rest.is_empty() {
        return Ok(Picked::Found(*first));
    }
    if are_of_one(first, rest) {
        return pick_of_choice(alloc, board, moves, first, rest, purpose);
    }
    pick_by_bounds(alloc, board, first, rest, purpose)
}

/// The first of some moves that leaves the fewest conflicts. A single move is not tried. Want of memory spoils the board.
pub(crate) fn fewest(
    alloc: Global,
    board: &mut Board,
    moves: &[RepairMove],
    purpose: Purpose,
) -> Result<Option<Picked>, AllocError>
    requires unspoiled { board.old.spoiled ≡ false }
    requires next { board.old.state.next_id ≤ 3999999000 }
    requires allowed { All (IsAllowed board.old.state) moves.now }
    ensures fewest { IfOk result (λ p. IsFewest purpose moves.now board.old p board.new) }
    ensures err { OnErr result (board.new.spoiled ≡ true) }
{
    let Some((first, rest)) = moves.split_first() else {
        return Ok(None);
    };
    Ok(Some(pick(alloc, board, moves, first, rest, purpose)?))
}
