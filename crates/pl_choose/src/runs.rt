//! Moves that are tried run by run. Moves in a row that place the same activities at other starts are a run. Right before one is tried, it
//! is worked out how many conflicts of states its moves leave at least, and those that are then known to be no better are not tried.
ghost use Rattle.std.specs.Prelude.{◌≡◌, ◌<◌, ◌≤◌, false, true, All, IfOk, OnOk, OnErr, length};
ghost use Rattle.pl_semantics.specs.Legal.{left_after};
ghost use Rattle.pl_bounds.specs.Bounds.{AreLeast, AreLeastBesideStates};
ghost use Rattle.pl_choose.specs.Found.{IsAllowed};
ghost use Rattle.pl_choose.specs.Tried.{best_of};

use crate::best::Best;
use crate::bounded::best_by_bounds;
use crate::hopes::hopes_of;
use crate::want::or_spoil;
use pl_board::Board;
use pl_bounds::least_with_states;
use pl_moves::run_length;
use pl_plan::RepairMove;
use std::alloc::{AllocError, Global};

// Higher bounds for the moves of a run: conflicts of states are counted too. Want of memory spoils the board.
fn higher_bounds(
    alloc: Global,
    board: &mut Board,
    moves: &[RepairMove],
    bounds: &[u32],
) -> Result<Vec<u32>, AllocError>
    requires unspoiled { board.old.spoiled ≡ false }
    requires next { board.old.state.next_id ≤ 3999999000 }
    requires allowed { All (IsAllowed board.old.state) moves.now }
    requires beside { AreLeastBesideStates board.old.state moves.now bounds.now }
    ensures least { IfOk result (λ ns. AreLeast board.old.state moves.now ns.items) }
    ensures same { OnOk result (board.new ≡ board.old) }
    ensures err { OnErr result (board.new.spoiled ≡ true) }
{
    let outcome = least_with_states(alloc, board, moves, bounds);
    or_spoil(board, outcome)
}

// The best of a first move and of the moves of a run.
fn best_of_run(
    alloc: Global,
    board: &mut Board,
    first: Best,
    moves: &[RepairMove],
    bounds: &[u32],
) -> Result<Best, AllocError>
    requires unspoiled { board.old.spoiled ≡ false }
    requires next { board.old.state.next_id ≤ 3999999000 }
    requires allowed { All (IsAllowed board.old.state) moves.now }
    requires beside { AreLeastBesideStates board.old.state moves.now bounds.now }
    ensures best { IfOk result (λ b. b ≡ best_of (left_after board.old.state) first moves.now) }
    ensures same { OnOk result (board.new ≡ board.old) }
    ensures err { OnErr result (board.new.spoiled ≡ true) }
{
    let higher = higher_bounds(alloc, board, moves, bounds)?;
    best_by_bounds(alloc, board, first, moves, &higher)
}

// How many of these moves the first run has.
fn front_length(moves: &[RepairMove]) -> usize
    requires { 0 < length moves.now }
    ensures some { 0 < result }
    ensures few { result ≤ length moves.now }
{
    1 + run_length(&moves[0], &moves[1..])
}

/// The best of a first move and of these moves, of each of which the bound beside conflicts of states is given. They are tried in their
/// order; one that is known to be no better than the best so far is not tried.
pub(crate) fn best_by_runs(
    alloc: Global,
    board: &mut Board,
    first: Best,
    moves: &[RepairMove],
    bounds: &[u32],
) -> Result<Best, AllocError>
    requires unspoiled { board.old.spoiled ≡ false }
    requires next { board.old.state.next_id ≤ 3999999000 }
    requires allowed { All (IsAllowed board.old.state) moves.now }
    requires beside { AreLeastBesideStates board.old.state moves.now bounds.now }
    ensures best { IfOk result (λ b. b ≡ best_of (left_after board.old.state) first moves.now) }
    ensures same { OnOk result (board.new ≡ board.old) }
    ensures err { OnErr result (board.new.spoiled ≡ true) }
{
    let mut best = first;
    let mut hopes = hopes_of(alloc, board, best, moves, bounds)?;
    'runs: while !hopes.moves.is_empty() {
        let count = front_length(&hopes.moves);
        best = best_of_run(
            alloc,
            board,
            best,
            &hopes.moves[..count],
            &hopes.bounds[..count],
        )?;
        hopes = hopes_of(
            alloc,
            board,
            best,
            &hopes.moves[count..],
            &hopes.bounds[count..],
        )?;
    }
    Ok(best)
}
