//! A move that is tried.
ghost use Rattle.std.specs.Prelude.{◌≡◌, ◌≤◌, false, true, IfOk, OnErr};
ghost use Rattle.pl_prefs.specs.Betters.{IsProperChange};
ghost use Rattle.pl_prefs.specs.Tries.{IsTried};

use pl_board::Board;
use pl_moves::{Attempt, attempt, is_legal};
use pl_plan::RepairMove;
use pl_points::{Ledger, Steps};
use std::alloc::{AllocError, Global};

/// Makes a proper change of activities where nothing refuses it and it leaves no conflict, and tells whether it did.
pub(crate) fn is_made<L: Ledger>(
    alloc: Global,
    board: &mut Board,
    mv: &RepairMove,
    steps: &mut Steps<L>,
) -> Result<bool, AllocError>
    requires unspoiled { board.old.spoiled ≡ false }
    requires next { board.old.state.next_id ≤ 3999999000 }
    requires change { IsProperChange board.old.state mv.now }
    ensures tried { IfOk result (λ made. IsTried mv.now made board.old board.new) }
    ensures err { OnErr result (board.new.spoiled ≡ true) }
{
    if !is_legal(board, mv) {
        return Ok(false);
    }
    let tried = attempt(alloc, board, mv, Some(0), steps)?;
    match tried {
        Attempt::Made(_told) => Ok(true),
        Attempt::Undone { .. } => Ok(false),
    }
}
