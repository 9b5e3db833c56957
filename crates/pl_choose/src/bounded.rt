//! Moves with their bounds: the bound of a move is a number of conflicts that it leaves at least.
ghost use Rattle.std.specs.Prelude.{◌≡◌, ◌<◌, ◌≤◌, false, true, All, IfOk, OnOk, OnErr, length};
ghost use Rattle.pl_semantics.specs.Legal.{left_after};
ghost use Rattle.pl_bounds.specs.Bounds.{AreLeast, AreLeastBesideStates};
ghost use Rattle.pl_choose.specs.Found.{IsAllowed};
ghost use Rattle.pl_choose.specs.Tried.{best_of};

use crate::best::Best;
use crate::hopes::hopes_of;
use crate::tries::try_until_better;
use pl_board::Board;
use pl_bounds::least_of_each;
use pl_plan::RepairMove;
use std::alloc::{AllocError, Global};

/// The bound of each of these moves. Want of memory spoils the board.
pub(crate) fn bounds_of(
    alloc: Global,
    board: &mut Board,
    moves: &[RepairMove],
) -> Result<Vec<u32>, AllocError>
    requires unspoiled { board.old.spoiled ≡ false }
    requires next { board.old.state.next_id ≤ 3999999000 }
    requires allowed { All (IsAllowed board.old.state) moves.now }
    ensures least { IfOk result (λ ns. AreLeast board.old.state moves.now ns.items) }
    ensures beside { IfOk result (λ ns. AreLeastBesideStates board.old.state moves.now ns.items) }
    ensures same { OnOk result (board.new ≡ board.old) }
    ensures err { OnErr result (board.new.spoiled ≡ true) }
{
    match least_of_each(alloc, board, moves) {
        Ok(bounds) => Ok(bounds),
        Err(fault) => {
            board.spoil();
            Err(fault)
        }
    }
}

/// The first place at which the lowest of these numbers stands.
pub(crate) fn lowest_place(bounds: &[u32]) -> usize
    requires { 0 < length bounds.now }
    ensures { result < length bounds.now }
{
    let mut lowest = 0;
    for (place, bound) in bounds.iter().enumerate() {
        if *bound < bounds[lowest] {
            lowest = place;
        }
    }
    lowest
}

/// The lowest of `most` and these numbers.
pub(crate) fn lowest_of(most: u32, bounds: &[u32]) -> u32
    ensures most { result ≤ most }
    ensures least { All (λ n. result ≤ n) bounds.now }
{
    let mut lowest = most;
    for bound in bounds {
        lowest = lowest.min(*bound);
    }
    lowest
}

/// The best of a first move and of these moves, of each of which the bound is given. They are tried in their order; one that its
/// bound shows to be no better than the best so far is not tried.
pub(crate) fn best_by_bounds(
    alloc: Global,
    board: &mut Board,
    first: Best,
    moves: &[RepairMove],
    bounds: &[u32],
) -> Result<Best, AllocError>
    requires unspoiled { board.old.spoiled ≡ false }
    requires next { board.old.state.next_id ≤ 3999999000 }
    requires allowed { All (IsAllowed board.old.state) moves.now }
    requires least { AreLeast board.old.state moves.now bounds.now }
    ensures best { IfOk result (λ b. b ≡ best_of (left_after board.old.state) first moves.now) }
    ensures same { OnOk result (board.new ≡ board.old) }
    ensures err { OnErr result (board.new.spoiled ≡ true) }
{
    let mut best = first;
    let mut hopes = hopes_of(alloc, board, best, moves, bounds)?;
    'runs: while !hopes.moves.is_empty() {
        let tried = try_until_better(alloc, board, best, &hopes.moves)?;
        best = tried.best;
        hopes = hopes_of(
            alloc,
            board,
            best,
            &hopes.moves[tried.count..],
            &hopes.bounds[tried.count..],
        )?;
    }
    Ok(best)
}
