//! Whether anything can be repaired.
ghost use Rattle.std.specs.Prelude.{◌≡◌, IfOk, All, true, false};
ghost use Rattle.std.specs.List.{list_any};
ghost use Rattle.pl_semantics.specs.Moves.{is_proper};
ghost use Rattle.pl_semantics.specs.Conflicts.{conflicts_of};
ghost use Rattle.pl_semantics.specs.Legal.{is_legal, has_repair, is_stuck};

use crate::conflicts::candidates;
use pl_board::Board;
use pl_conflict::Conflict;
use pl_moves::is_legal;
use pl_plan::RepairMove;
use std::alloc::{AllocError, Global};

// Whether one of the moves is legal.
fn any_legal(board: &Board, moves: &[RepairMove]) -> bool
    requires unspoiled { board.now.spoiled ≡ false }
    requires proper { All (λ m. is_proper board.now.state m ≡ true) moves.now }
    ensures { result ≡ list_any (is_legal board.now.state) moves.now }
{
    for repair in moves {
        if is_legal(board, repair) {
            return true;
        }
    }
    false
}

// Whether a conflict has a legal candidate.
fn has_repair(alloc: Global, board: &Board, conflict: &Conflict) -> Result<bool, AllocError>
    requires { board.now.spoiled ≡ false }
    ensures { IfOk result (λ has. has ≡ has_repair board.now.state conflict.now) }
{
    let moves = candidates(alloc, board, conflict)?;
    Ok(any_legal(board, moves.as_slice()))
}

// Whether one of the conflicts that stand has a legal candidate.
fn any_repair(alloc: Global, board: &Board) -> Result<bool, AllocError>
    requires { board.now.spoiled ≡ false }
    ensures { IfOk result (λ any. any ≡ list_any (has_repair board.now.state) (conflicts_of board.now.state)) }
{
    for conflict in board.conflicts().iter() {
        if has_repair(alloc, board, conflict)? {
            return Ok(true);
        }
    }
    Ok(false)
}

/// Whether no conflict that stands has a legal candidate. An error is want of memory.
#[tactic(auto, unfolding(pl_semantics::specs::Legal::is_stuck))]
pub fn is_stuck(alloc: Global, board: &Board) -> Result<bool, AllocError>
    requires { board.now.spoiled ≡ false }
    ensures { IfOk result (λ stuck. stuck ≡ is_stuck board.now.state) }
{
    let any = any_repair(alloc, board)?;
    Ok(!any)
}
