//! How many conflicts a move would leave.
ghost use Rattle.std.specs.Prelude.{◌≡◌, ◌≤◌, false, true, OnOk, OnErr, IfOk, IfErr};
ghost use Rattle.pl_semantics.specs.Moves.{is_proper};
ghost use Rattle.pl_moves.specs.Outcomes.{Fails, IsCounted};
ghost use Rattle.pl_moves.specs.Runs.{CanBeMade, counted};

use crate::attempting::attempt;
use crate::attempts::Attempt;
use crate::legality::refusal;
use crate::move_fault::MoveFault;
use pl_board::Board;
use pl_plan::RepairMove;
use pl_points::{Ledger, Steps};
use std::alloc::{AllocError, Global};

/// How many conflicts a move leaves, made and undone again.
pub(crate) fn count_after<L: Ledger>(
    alloc: Global,
    board: &mut Board,
    mv: &RepairMove,
    steps: &mut Steps<L>,
) -> Result<u32, AllocError>
    requires unspoiled { board.old.spoiled ≡ false }
    requires next { board.old.state.next_id ≤ 3999999000 }
    requires allowed { CanBeMade board.old.state mv.now }
    ensures count { IfOk result (λ n. n ≡ counted board.old.state mv.now) }
    ensures same { OnOk result (board.new ≡ board.old) }
    ensures err { OnErr result (board.new.spoiled ≡ true) }
{
    match attempt(alloc, board, mv, None, steps)? {
        Attempt::Undone { left } => Ok(left),
        Attempt::Made(_) => unreachable!(),
    }
}

/// How many conflicts would stand after a proper move, if it is not refused. The move is made and undone again. Want of memory
/// spoils the board.
pub fn left_after<L: Ledger>(
    alloc: Global,
    board: &mut Board,
    mv: &RepairMove,
    steps: &mut Steps<L>,
) -> Result<u32, MoveFault>
    requires unspoiled { board.old.spoiled ≡ false }
    requires proper { is_proper board.old.state mv.now ≡ true }
    requires next { board.old.state.next_id ≤ 3999999000 }
    ensures count { IfOk result (λ n. IsCounted mv.now n board.old board.new) }
    ensures fault { IfErr result (λ fault. Fails mv.now fault board.old board.new) }
{
    match refusal(board.state(), mv) {
        Some(reason) => Err(MoveFault::Refused(reason)),
        None => Ok(count_after(alloc, board, mv, steps)?),
    }
}
