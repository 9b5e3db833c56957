//! Moves that are tried one after another, each against the best so far.
ghost use Rattle.std.specs.Prelude.{◌≡◌, ◌<◌, ◌≤◌, ◌+◌, false, true, All, IfOk, OnOk, OnErr, map, take, length};
ghost use Rattle.pl_semantics.specs.Legal.{left_after};
ghost use Rattle.pl_moves.specs.Runs.{counted};
ghost use Rattle.pl_choose.specs.Found.{IsAllowed};
ghost use Rattle.pl_choose.specs.Tried.{better_of, best_of};

use crate::best::Best;
use crate::trial::exact;
use pl_board::Board;
use pl_moves::left_after_run;
use pl_plan::RepairMove;
use pl_points::{Quiet, Steps};
use std::alloc::{AllocError, Global};

/// The best so far, and how many of some moves have been tried.
#[derive(Clone, Copy)]
pub(crate) struct Tried {
    pub(crate) best: Best,
    pub(crate) count: usize,
}

/// The better of two moves: the second if it leaves fewer conflicts, else the first.
pub(crate) fn better(best: Best, mv: &RepairMove, left: usize) -> Best
    ensures { result ≡ better_of best mv.now left }
{
    if left < best.left {
        return Best { mv: *mv, left };
    }
    best
}

// The best of a first move and some others, given how many conflicts each of the others leaves.
fn best_among(
    alloc: Global,
    board: &mut Board,
    first: Best,
    moves: &[RepairMove],
    counts: &[u32],
) -> Result<Best, AllocError>
    requires unspoiled { board.old.spoiled ≡ false }
    requires next { board.old.state.next_id ≤ 3999999000 }
    requires allowed { All (IsAllowed board.old.state) moves.now }
    requires counts { counts.now ≡ map (counted board.old.state) moves.now }
    ensures best { IfOk result (λ b. b ≡ best_of (left_after board.old.state) first moves.now) }
    ensures same { OnOk result (board.new ≡ board.old) }
    ensures err { OnErr result (board.new.spoiled ≡ true) }
{
    let mut best = first;
    for (place, mv) in moves.iter().enumerate() {
        let left = exact(alloc, board, mv, counts[place])?;
        best = better(best, mv, left);
    }
    Ok(best)
}

// Tries the first of some moves, and right after it those that place the same activities at other starts, up to one that is better.
fn try_run(
    alloc: Global,
    board: &mut Board,
    best: Best,
    moves: &[RepairMove],
) -> Result<Tried, AllocError>
    requires unspoiled { board.old.spoiled ≡ false }
    requires next { board.old.state.next_id ≤ 3999999000 }
    requires allowed { All (IsAllowed board.old.state) moves.now }
    requires some { 0 < length moves.now }
    ensures best { IfOk result (λ t. t.best ≡ best_of (left_after board.old.state) best (take t.count moves.now)) }
    ensures tried { IfOk result (λ t. 0 < t.count) }
    ensures few { IfOk result (λ t. t.count ≤ length moves.now) }
    ensures same { OnOk result (board.new ≡ board.old) }
    ensures err { OnErr result (board.new.spoiled ≡ true) }
{
    let first = &moves[0];
    let rest = &moves[1..];
    let enough = best.left.saturating_sub(1).min(u32::MAX as usize) as u32;
    let counts = left_after_run(alloc, board, first, rest, enough, &mut Steps::new(Quiet))?;
    let left = exact(alloc, board, first, counts.first)?;
    let best = better(best, first, left);
    let others = counts.others.len();
    let best = best_among(alloc, board, best, &rest[..others], &counts.others)?;
    Ok(Tried {
        best,
        count: others + 1,
    })
}

/// Tries some moves in their order, up to one that is better than the best so far. Moves in a row that place the same activities at
/// other starts are tried together.
pub(crate) fn try_until_better(
    alloc: Global,
    board: &mut Board,
    best: Best,
    moves: &[RepairMove],
) -> Result<Tried, AllocError>
    requires unspoiled { board.old.spoiled ≡ false }
    requires next { board.old.state.next_id ≤ 3999999000 }
    requires allowed { All (IsAllowed board.old.state) moves.now }
    requires some { 0 < length moves.now }
    ensures best { IfOk result (λ t. t.best ≡ best_of (left_after board.old.state) best (take t.count moves.now)) }
    ensures tried { IfOk result (λ t. 0 < t.count) }
    ensures few { IfOk result (λ t. t.count ≤ length moves.now) }
    ensures same { OnOk result (board.new ≡ board.old) }
    ensures err { OnErr result (board.new.spoiled ≡ true) }
{
    let mut tried = try_run(alloc, board, best, moves)?;
    'runs: while tried.count < moves.len() && tried.best.left == best.left {
        let next = try_run(alloc, board, tried.best, &moves[tried.count..])?;
        tried = Tried {
            best: next.best,
            count: tried.count + next.count,
        };
    }
    Ok(tried)
}
