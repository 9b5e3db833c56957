ghost use Rattle.std.specs.Prelude.{◌≡◌, ◌≤◌, ◌<◌, ◌^◌, true, false, IfOk, OnOk, OnErr};
ghost use Rattle.pl_semantics.specs.Legal.{left_after};
ghost use Rattle.pl_moves.specs.Runs.{counted};
ghost use Rattle.pl_choose.specs.Found.{IsAllowed};

use pl_board::Board;
use pl_moves::apply;
use pl_plan::RepairMove;
use pl_points::{Quiet, Steps};
use std::alloc::{AllocError, Global};

// Makes the move on a copy, and counts there. Nothing refuses it, so an error is want of memory.
#[tactic(auto, unfolding(pl_semantics::specs::Legal::left_after))]
fn count_on_copy(alloc: Global, board: &Board, mv: &RepairMove) -> Result<usize, AllocError>
    requires unspoiled { board.now.spoiled ≡ false }
    requires allowed { IsAllowed board.now.state mv.now }
    requires next { board.now.state.next_id ≤ 3999999000 }
    ensures count { IfOk result (λ n. n ≡ left_after board.now.state mv.now) }
    ensures small { IfOk result (λ n. n < 2 ^ 63) }
{
    let mut trial = board.copy(alloc)?;
    match apply(alloc, &mut trial, mv, &mut Steps::new(Quiet)) {
        Ok(()) => {
            let left = trial.conflicts().list(alloc)?;
            Ok(left.len())
        }
        Err(_) => Err(AllocError),
    }
}

fn count_or_spoil(alloc: Global, board: &mut Board, mv: &RepairMove) -> Result<usize, AllocError>
    requires unspoiled { board.old.spoiled ≡ false }
    requires allowed { IsAllowed board.old.state mv.now }
    requires next { board.old.state.next_id ≤ 3999999000 }
    ensures count { IfOk result (λ n. n ≡ left_after board.old.state mv.now) }
    ensures small { IfOk result (λ n. n < 2 ^ 63) }
    ensures same { OnOk result (board.new ≡ board.old) }
    ensures err { OnErr result (board.new.spoiled ≡ true) }
{
    match count_on_copy(alloc, board, mv) {
        Ok(count) => Ok(count),
        Err(fault) => {
            board.spoil();
            Err(fault)
        }
    }
}

/// How many conflicts a move leaves, given the count of `pl_moves`. That count goes no higher than its type; where it is at its
/// greatest, the conflicts are counted anew. An error is want of memory.
pub(crate) fn exact(
    alloc: Global,
    board: &mut Board,
    mv: &RepairMove,
    count: u32,
) -> Result<usize, AllocError>
    requires unspoiled { board.old.spoiled ≡ false }
    requires allowed { IsAllowed board.old.state mv.now }
    requires next { board.old.state.next_id ≤ 3999999000 }
    requires count { count ≡ counted board.old.state mv.now }
    ensures count { IfOk result (λ n. n ≡ left_after board.old.state mv.now) }
    ensures small { IfOk result (λ n. n < 2 ^ 63) }
    ensures same { OnOk result (board.new ≡ board.old) }
    ensures err { OnErr result (board.new.spoiled ≡ true) }
{
    if count < u32::MAX {
        return Ok(count as usize);
    }
    count_or_spoil(alloc, board, mv)
}
