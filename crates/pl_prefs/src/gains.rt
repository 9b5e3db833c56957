//! What moves gain: what they take out and put in is counted in a plan state of its own, which is then as before.
ghost use Rattle.std.specs.Prelude.{◌≡◌, ◌≤◌, true, false, length, All, IfOk, OnOk};
ghost use Rattle.pl_points.specs.Sums.{total};
ghost use Rattle.pl_semantics.specs.Moves.{applied};
ghost use Rattle.pl_semantics.specs.Whole.{IsWhole};
ghost use Rattle.pl_update.specs.Changes.Changes.{with_next};
ghost use Rattle.pl_update.specs.Changes.Replaced.{CanReplace, with_plan};
ghost use Rattle.pl_moves.specs.Changes.{IsOfActivities};
ghost use Rattle.pl_moves.specs.Runs.{CanBeMade, IsTrialOf};
ghost use Rattle.pl_prefs.specs.Betters.{IsProperChange, AreProperChanges, is_clear};
ghost use Rattle.pl_prefs.specs.Bounds.{IsWithin};
ghost use Rattle.pl_prefs.specs.Chances.{AreGains};
ghost use Rattle.pl_prefs.specs.Prefers.{IsPreferOf};
ghost use Rattle.pl_prefs.specs.Worths.{worth, gain_of};

use crate::prefer::Prefer;
use crate::worths::worth_of_all;
use pl_board::Board;
use pl_lists::Copied;
use pl_moves::{Change, Trial, is_legal, trial_of};
use pl_plan::RepairMove;
use pl_semantics::PlanState;
use pl_update::changes;
use std::alloc::{AllocError, Global};

// Takes activities out of the plan, and puts others in.
fn put_change(alloc: Global, s: &mut PlanState, change: &Change) -> Result<(), AllocError>
    requires whole { IsWhole s.old }
    requires can { CanReplace s.old change.now.gone.items change.now.placed.items }
    ensures { OnOk result (s.new ≡ with_plan change.now.gone.items change.now.placed.items s.old) }
{
    changes::replace(alloc, &mut s.plan, &change.gone, &change.placed)?;
    s.next_id = changes::next_after(s.next_id, &change.placed);
    Ok(())
}

// What the activities that a move puts in count once they are there. They are taken out again.
fn worth_then(
    alloc: Global,
    s: &mut PlanState,
    prefers: &[Prefer],
    mv: &RepairMove,
    trial: &Trial,
) -> Result<i128, AllocError>
    requires whole { IsWhole s.old }
    requires trial { IsTrialOf s.old mv.now trial.now.change.gone.items trial.now.change.placed.items trial.now.undo.gone.items trial.now.undo.placed.items }
    requires fits { All (IsPreferOf s.old.model) prefers.now }
    requires few { length prefers.now ≤ 64 }
    ensures value { IfOk result (λ z. z ≡ total (worth (applied s.old mv.now) prefers.now) trial.now.change.placed.items) }
    ensures within { IfOk result (IsWithin 640000) }
    ensures same { OnOk result (s.new ≡ s.old) }
{
    let next = s.next_id;
    put_change(alloc, s, &trial.change)?;
    let worth = worth_of_all(alloc, s, prefers, &trial.change.placed)?;
    put_change(alloc, s, &trial.undo)?;
    s.next_id = next;
    Ok(worth)
}

// What a move of activities gains that may be made.
fn gain_of(
    alloc: Global,
    s: &mut PlanState,
    prefers: &[Prefer],
    mv: &RepairMove,
) -> Result<i128, AllocError>
    requires whole { IsWhole s.old }
    requires next { s.old.next_id ≤ 3999999000 }
    requires allowed { CanBeMade s.old mv.now }
    requires activities { IsOfActivities mv.now }
    requires fits { All (IsPreferOf s.old.model) prefers.now }
    requires few { length prefers.now ≤ 64 }
    ensures gain { IfOk result (λ z. z ≡ gain_of s.old prefers.now mv.now) }
    ensures same { OnOk result (s.new ≡ s.old) }
{
    let trial = trial_of(alloc, s, mv)?;
    let before = worth_of_all(alloc, s, prefers, &trial.undo.placed)?;
    let then = worth_then(alloc, s, prefers, mv, &trial)?;
    Ok(then - before)
}

// What a proper change gains, if nothing refuses it; else 0.
fn gain_if_legal(
    alloc: Global,
    board: &Board,
    s: &mut PlanState,
    prefers: &[Prefer],
    mv: &RepairMove,
) -> Result<i128, AllocError>
    requires unspoiled { board.now.spoiled ≡ false }
    requires next { board.now.state.next_id ≤ 3999999000 }
    requires of_board { s.old ≡ board.now.state }
    requires change { IsProperChange board.now.state mv.now }
    requires fits { All (IsPreferOf board.now.state.model) prefers.now }
    requires few { length prefers.now ≤ 64 }
    ensures gain { IfOk result (λ z. is_clear board.now.state mv.now ≡ true → z ≡ gain_of board.now.state prefers.now mv.now) }
    ensures same { OnOk result (s.new ≡ s.old) }
{
    let _state = board.state();
    if !is_legal(board, mv) {
        return Ok(0);
    }
    let gain = gain_of(alloc, s, prefers, mv)?;
    Ok(gain)
}

/// What each of some proper changes gains, if nothing refuses it.
pub(crate) fn gains(
    alloc: Global,
    board: &Board,
    prefers: &[Prefer],
    moves: &[RepairMove],
) -> Result<Vec<i128>, AllocError>
    requires unspoiled { board.now.spoiled ≡ false }
    requires next { board.now.state.next_id ≤ 3999999000 }
    requires fits { All (IsPreferOf board.now.state.model) prefers.now }
    requires few { length prefers.now ≤ 64 }
    requires changes { AreProperChanges board.now.state moves.now }
    ensures { IfOk result (λ all. AreGains board.now.state prefers.now moves.now all.items) }
{
    let mut s = board.state().copy(alloc)?;
    let mut all = Vec::with_capacity(alloc, moves.len())?;
    for mv in moves {
        let gain = gain_if_legal(alloc, board, &mut s, prefers, mv)?;
        all.push(gain)?;
    }
    Ok(all)
}
