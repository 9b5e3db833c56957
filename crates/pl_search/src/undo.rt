//! Moves that are made on a board to be looked at, and taken back.
ghost use Rattle.std.specs.Prelude.{◌≡◌, ◌≤◌, true, false, IsTrue, OnOk, IfOk};
ghost use Rattle.pl_board.specs.Boards.{after};
ghost use Rattle.pl_moves.specs.Changes.{IsOfActivities};
ghost use Rattle.pl_moves.specs.Undone.{IsUndoneBy};
ghost use Rattle.pl_search.specs.Undos.{CanTakeBack, IsMadeForNow, MayBeMade, taken_back};

use pl_board::Board;
use pl_moves::{Change, Trial, is_legal, make, make_change, proper, trial_of};
use pl_plan::RepairMove;
use pl_points::{Quiet, Steps};
use std::alloc::{AllocError, Global};

/// The greatest id that the next activity of a plan may have.
const LAST_ID: u32 = 3_999_999_000;

/// What takes a move back that was made.
#[derive(Drop)]
pub(crate) struct Undo {
    change: Change,
    next: u32,
}

fn is_of_activities(mv: &RepairMove) -> bool
    ensures { IsTrue result → IsOfActivities mv.now }
{
    match mv {
        RepairMove::Drop { .. } => false,
        _ => true,
    }
}

/// Whether a move of activities may be made.
#[tactic(auto, using(crate::proofs::Allowed::may_be))]
pub(crate) fn may_be_made(board: &Board, mv: &RepairMove) -> bool
    requires { board.now.spoiled ≡ false }
    ensures { IsTrue result → MayBeMade board.now.state mv.now }
{
    if board.next_id() > LAST_ID {
        return false;
    }
    if !is_of_activities(mv) {
        return false;
    }
    if !proper(board, mv) {
        return false;
    }
    is_legal(board, mv)
}

// Makes the move, given the change that it comes to.
fn make_trial(board: &mut Board, mv: &RepairMove, trial: Trial) -> Result<Undo, AllocError>
    requires unspoiled { board.old.spoiled ≡ false }
    requires undone { IsUndoneBy board.old.state mv.now trial.change.gone.items trial.change.placed.items trial.undo.gone.items trial.undo.placed.items }
    ensures { IfOk result (λ u. IsMadeForNow board.old.state u board.new) }
{
    let next = board.next_id();
    let Trial { change, undo } = trial;
    make_change(board, &change, &mut Steps::new(Quiet))?;
    Ok(Undo { change: undo, next })
}

/// Makes a move, and answers what takes it back.
pub(crate) fn make_for_now(
    alloc: Global,
    board: &mut Board,
    mv: &RepairMove,
) -> Result<Undo, AllocError>
    requires unspoiled { board.old.spoiled ≡ false }
    requires allowed { MayBeMade board.old.state mv.now }
    ensures { IfOk result (λ u. IsMadeForNow board.old.state u board.new) }
{
    let trial = trial_of(alloc, board.state(), mv)?;
    make_trial(board, mv, trial)
}

/// Takes a move back.
pub(crate) fn take_back(board: &mut Board, undo: &Undo) -> Result<(), AllocError>
    requires unspoiled { board.old.spoiled ≡ false }
    requires can { CanTakeBack undo.now board.old.state }
    ensures { OnOk result (board.new ≡ after (taken_back undo.now board.old.state)) }
{
    make_change(board, &undo.change, &mut Steps::new(Quiet))?;
    board.reset_next(undo.next);
    Ok(())
}

/// Makes a move for good.
pub(crate) fn make_step(alloc: Global, board: &mut Board, mv: &RepairMove) -> Result<(), AllocError>
    requires unspoiled { board.old.spoiled ≡ false }
    requires allowed { MayBeMade board.old.state mv.now }
    ensures { OnOk result (board.new.spoiled ≡ false) }
{
    make(alloc, board, mv, &mut Steps::new(Quiet))
}
