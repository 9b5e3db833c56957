//! A move that is made, and undone if it leaves too many conflicts.
ghost use Rattle.std.specs.Prelude.{◌≡◌, ◌≤◌, false, true, min, OnOk, OnErr, IfOk};
ghost use Rattle.pl_plan.specs.declared.repair.RepairMove.TheVariants.{Drop};
ghost use Rattle.pl_semantics.specs.Legal.{left_after};
ghost use Rattle.pl_semantics.specs.Moves.{is_proper};
ghost use Rattle.pl_moves.specs.Attempts.{IsAttempted, IsTrial, is_enough};
ghost use Rattle.pl_moves.specs.Changes.{IsOfActivities};
ghost use Rattle.pl_moves.specs.Runs.{CanBeMade};

use crate::application::make_change;
use crate::attempts::Attempt;
use crate::dropping::count_without;
use crate::trial::{Trial, trial_of};
use pl_board::Board;
use pl_plan::RepairMove;
use pl_points::{Ledger, Steps};
use std::alloc::{AllocError, Global};

// Whether so many conflicts are no more than `enough`. If no number is given none are, nor are they if the count has reached the
// end of its type, since then there may be more.
fn is_enough(enough: Option<u32>, left: u32) -> bool
    ensures { result ≡ is_enough enough left }
{
    match enough {
        Some(most) => left <= most && left < u32::MAX,
        None => false,
    }
}

// Makes the change, and undoes it if it leaves more conflicts than `enough`.
fn attempt_between<L: Ledger>(
    board: &mut Board,
    mv: &RepairMove,
    trial: Trial,
    enough: Option<u32>,
    steps: &mut Steps<L>,
) -> Result<Attempt, AllocError>
    requires unspoiled { board.old.spoiled ≡ false }
    requires trial { IsTrial board.old.state mv.now trial }
    ensures attempted { IfOk result (λ a. IsAttempted mv.now enough board.old a board.new) }
    ensures err { OnErr result (board.new.spoiled ≡ true) }
{
    let next = board.next_id();
    make_change(board, &trial.change, steps)?;
    let left = board.conflicts().len();
    if is_enough(enough, left) {
        return Ok(Attempt::Made(Some(trial)));
    }
    make_change(board, &trial.undo, steps)?;
    board.reset_next(next);
    Ok(Attempt::Undone { left })
}

// A move of activities.
fn attempt_change<L: Ledger>(
    alloc: Global,
    board: &mut Board,
    mv: &RepairMove,
    enough: Option<u32>,
    steps: &mut Steps<L>,
) -> Result<Attempt, AllocError>
    requires unspoiled { board.old.spoiled ≡ false }
    requires next { board.old.state.next_id ≤ 3999999000 }
    requires allowed { CanBeMade board.old.state mv.now }
    requires activities { IsOfActivities mv.now }
    ensures attempted { IfOk result (λ a. IsAttempted mv.now enough board.old a board.new) }
    ensures err { OnErr result (board.new.spoiled ≡ true) }
{
    match trial_of(alloc, board.state(), mv) {
        Ok(trial) => attempt_between(board, mv, trial, enough, steps),
        Err(fault) => {
            board.spoil();
            Err(fault)
        }
    }
}

// How many conflicts would stand if the goal were dropped.
fn count_dropped(alloc: Global, board: &mut Board, goal: u32) -> Result<u32, AllocError>
    requires unspoiled { board.old.spoiled ≡ false }
    requires proper { is_proper board.old.state (Drop goal) ≡ true }
    ensures count { IfOk result (λ n. n ≡ min (left_after board.old.state (Drop goal)) 4294967295) }
    ensures same { OnOk result (board.new ≡ board.old) }
    ensures err { OnErr result (board.new.spoiled ≡ true) }
{
    match count_without(alloc, board, goal) {
        Ok(count) => Ok(count.min(u32::MAX as usize) as u32),
        Err(fault) => {
            board.spoil();
            Err(fault)
        }
    }
}

// Drops a goal if that leaves no more conflicts than `enough`. These are counted before the goal is dropped, since a drop cannot be
// undone.
fn attempt_drop(
    alloc: Global,
    board: &mut Board,
    goal: u32,
    enough: Option<u32>,
) -> Result<Attempt, AllocError>
    requires unspoiled { board.old.spoiled ≡ false }
    requires proper { is_proper board.old.state (Drop goal) ≡ true }
    ensures attempted { IfOk result (λ a. IsAttempted (Drop goal) enough board.old a board.new) }
    ensures err { OnErr result (board.new.spoiled ≡ true) }
{
    let left = count_dropped(alloc, board, goal)?;
    if !is_enough(enough, left) {
        return Ok(Attempt::Undone { left });
    }
    board.drop_goal(goal)?;
    Ok(Attempt::Made(None))
}

/// Tries a move. It stays made if it leaves no more conflicts than `enough`, and is undone if it leaves more or if no number is
/// given. For a move of activities that stays made, the answer has what it changed and how that is undone. Want of memory spoils the
/// board.
pub fn attempt<L: Ledger>(
    alloc: Global,
    board: &mut Board,
    mv: &RepairMove,
    enough: Option<u32>,
    steps: &mut Steps<L>,
) -> Result<Attempt, AllocError>
    requires unspoiled { board.old.spoiled ≡ false }
    requires next { board.old.state.next_id ≤ 3999999000 }
    requires allowed { CanBeMade board.old.state mv.now }
    ensures attempted { IfOk result (λ a. IsAttempted mv.now enough board.old a board.new) }
    ensures err { OnErr result (board.new.spoiled ≡ true) }
{
    match *mv {
        RepairMove::Drop { goal } => attempt_drop(alloc, board, goal, enough),
        _ => attempt_change(alloc, board, mv, enough, steps),
    }
}
