//! The aim is that one of some moves that by its bound may leave the fewest conflicts. It is tried before the others. Once it is
//! counted how many conflicts it leaves, no move is tried whose bound is higher than this.
ghost use Rattle.std.specs.Prelude.{◌≡◌, ◌≤◌, ◌<◌, ◌+◌, ◌^◌, true, false, All, IfOk, IfSome, OnErr, take, drop, length};
ghost use Rattle.pl_semantics.specs.Legal.{left_after};
ghost use Rattle.pl_bounds.specs.Bounds.{AreLeastBesideStates};
ghost use Rattle.pl_choose.specs.Aimed.{IsAimed};
ghost use Rattle.pl_choose.specs.Found.{IsAllowed};
ghost use Rattle.pl_choose.specs.Tried.{above, best_of};
ghost use Rattle.pl_choose.specs.Picked.{IsPicked};

use crate::alone::{Alone, try_alone};
use crate::best::Best;
use crate::bounded::{lowest_of, lowest_place};
use crate::hopes::hopes_of;
use crate::picked::Picked;
use crate::purpose::{Purpose, enough_for};
use crate::runs::best_by_runs;
use crate::tries::{Tried, better};
use pl_board::Board;
use pl_moves::Trial;
use pl_plan::RepairMove;
use std::alloc::{AllocError, Global};

/// What came of trying the aim.
#[derive(Drop)]
pub(crate) enum Aimed {
    /// The aim is the best of all, and stays made. What it changed and how that is undone is told, unless it drops a goal.
    Made(RepairMove, Option<Trial>),
    /// The aim and the moves before it were tried, and none of them stays made.
    Passed(Tried),
}

// What the moves before the aim have to be better than. Of equals the first is chosen, so where the aim is the best so far, a move
// before it is better if it leaves no more conflicts than the aim.
fn above(best: Best, aim: &RepairMove, left: usize) -> Best
    requires { left < 2 ^ 63 }
    ensures { result ≡ above best aim.now left }
{
    if left < best.left {
        return Best {
            mv: *aim,
            left: left + 1,
        };
    }
    best
}

// If the move at this place leaves no more conflicts than the result, it is the best of all. For the result is lower than what the
// best so far leaves and than the bound of each move before it, and no higher than the bound of each move after it. None if there
// is no such number.
fn enough_at(best: Best, bounds: &[u32], at: usize) -> Option<u32>
    requires { at < length bounds.now }
    ensures best { IfSome result (λ n. n < best.left) }
    ensures before { IfSome result (λ n. All (λ bound. n < bound) (take at bounds.now)) }
    ensures others { IfSome result (λ n. All (λ bound. n ≤ bound) (drop (at + 1) bounds.now)) }
{
    let so_far = best.left.min(u32::MAX as usize) as u32;
    let before = lowest_of(so_far, &bounds[..at]);
    match before.checked_sub(1) {
        Some(fewer) => Some(lowest_of(fewer, &bounds[at + 1..])),
        None => None,
    }
}

// Tries the aim. It stays made if it is then known to be the best of all. Otherwise it is taken back, and the moves before it are
// tried.
fn try_aim(
    alloc: Global,
    board: &mut Board,
    best: Best,
    moves: &[RepairMove],
    bounds: &[u32],
    purpose: Purpose,
) -> Result<Aimed, AllocError>
    requires unspoiled { board.old.spoiled ≡ false }
    requires next { board.old.state.next_id ≤ 3999999000 }
    requires allowed { All (IsAllowed board.old.state) moves.now }
    requires beside { AreLeastBesideStates board.old.state moves.now bounds.now }
    requires count { length bounds.now ≡ length moves.now }
    requires some { 0 < length moves.now }
    ensures aimed { IfOk result (λ a. IsAimed purpose best moves.now board.old a board.new) }
    ensures err { OnErr result (board.new.spoiled ≡ true) }
{
    let at = lowest_place(bounds);
    let aim = moves[at];
    let enough = enough_for(purpose, enough_at(best, bounds, at));
    match try_alone(alloc, board, &aim, enough)? {
        Alone::Made(trial) => Ok(Aimed::Made(aim, trial)),
        Alone::Undone { left } => {
            let first = above(best, &aim, left);
            let before = best_by_runs(alloc, board, first, &moves[..at], &bounds[..at])?;
            Ok(Aimed::Passed(Tried {
                best: better(before, &aim, left),
                count: at + 1,
            }))
        }
    }
}

/// The best of all: of the best so far and of these moves, of each of which the bound is given. `aims` is how many aims are tried
/// before the moves that are then left are tried in their order.
pub(crate) fn pick_by_aims(
    alloc: Global,
    board: &mut Board,
    best: Best,
    moves: &[RepairMove],
    bounds: &[u32],
    purpose: Purpose,
    aims: u32,
) -> Result<Picked, AllocError>
    requires unspoiled { board.old.spoiled ≡ false }
    requires next { board.old.state.next_id ≤ 3999999000 }
    requires allowed { All (IsAllowed board.old.state) moves.now }
    requires beside { AreLeastBesideStates board.old.state moves.now bounds.now }
    ensures picked { IfOk result (λ p. IsPicked purpose (λ m. m ≡ (best_of (left_after board.old.state) best moves.now).mv) board.old p board.new) }
    ensures err { OnErr result (board.new.spoiled ≡ true) }
{
    let hopes = hopes_of(alloc, board, best, moves, bounds)?;
    if hopes.moves.is_empty() {
        return Ok(Picked::Found(best.mv));
    }
    if aims == 0 {
        let best = best_by_runs(alloc, board, best, &hopes.moves, &hopes.bounds)?;
        return Ok(Picked::Found(best.mv));
    }
    match try_aim(alloc, board, best, &hopes.moves, &hopes.bounds, purpose)? {
        Aimed::Made(mv, trial) => Ok(Picked::Made(mv, trial)),
        Aimed::Passed(tried) => pick_by_aims(
            alloc,
            board,
            tried.best,
            &hopes.moves[tried.count..],
            &hopes.bounds[tried.count..],
            purpose,
            aims - 1,
        ),
    }
}
