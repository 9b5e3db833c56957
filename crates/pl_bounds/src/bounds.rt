//! For each of some moves a number of conflicts that it leaves at least.
ghost use Rattle.std.specs.Prelude.{◌≡◌, ◌≤◌, ◌+◌, false, All, IfOk, OnOk};
ghost use Rattle.pl_semantics.specs.Moves.{applied};
ghost use Rattle.pl_semantics.specs.declared.plan_state.PlanState.{PlanState};
ghost use Rattle.pl_moves.specs.Changes.{IsOfActivities};
ghost use Rattle.pl_moves.specs.Runs.{CanBeMade};
ghost use Rattle.pl_bounds.specs.Asked.{IsAlike};
ghost use Rattle.pl_bounds.specs.Bounds.{AreLeast, AreLeastBesideStates, left_beside_states};
ghost use Rattle.pl_bounds.specs.Known.{IsRunOf};
ghost use Rattle.pl_bounds.specs.Plain.{count_of_plain};
ghost use Rattle.pl_bounds.specs.Sides.{IsOutsideOf, AreDifferent};
ghost use Rattle.pl_bounds.specs.Standing.{IsStandingOf};
ghost use Rattle.pl_bounds.specs.Ties.{count_of_links};

use crate::bounding::past_after;
use crate::orders::unmet_then;
use crate::outside::{Outside, outsides};
use crate::runs::{Run, run_like, run_of};
use crate::standing::{Standing, standing_of};
use crate::ties::lone_then;
use pl_board::Board;
use pl_conflict::ConflictSet;
use pl_moves::{least_left, start_of};
use pl_plan::RepairMove;
use std::alloc::{AllocError, Global};

// With more conflicts than this for each move none of them is looked at.
const CONFLICTS_A_MOVE: usize = 64;

// How often at least timelines are past their limits after the move. 0 if it is not known what the move asks for.
fn past_by(board: &Board, outsides: &[Outside], run: &Run, mv: &RepairMove) -> u32
    requires unspoiled { board.now.spoiled ≡ false }
    requires next { board.now.state.next_id ≤ 3999999000 }
    requires allowed { CanBeMade board.now.state mv.now }
    requires activities { IsOfActivities mv.now }
    requires of_plan { All (IsOutsideOf board.now.state) outsides.now }
    requires different { AreDifferent outsides.now }
    requires run { IsRunOf board.now.state run.now }
    requires alike { IsAlike run.now.known.first mv.now }
    ensures { count_of_plain (applied board.now.state mv.now) + count_of_links (applied board.now.state mv.now) + result ≤ left_beside_states board.now.state mv.now }
{
    let _state = board.state();
    match &run.known.asking {
        Some(asking) => past_after(
            board,
            outsides,
            asking,
            run.additions.as_slice(),
            start_of(mv),
        ),
        None => 0,
    }
}

// How many conflicts the move leaves at least beside those of goals, of activities, of links and of states.
fn others_by(board: &Board, outsides: &[Outside], run: &Run, mv: &RepairMove) -> u32
    requires unspoiled { board.now.spoiled ≡ false }
    requires next { board.now.state.next_id ≤ 3999999000 }
    requires allowed { CanBeMade board.now.state mv.now }
    requires of_plan { All (IsOutsideOf board.now.state) outsides.now }
    requires different { AreDifferent outsides.now }
    requires run { IsRunOf board.now.state run.now }
    requires alike { IsAlike run.now.known.first mv.now }
    ensures { count_of_plain (applied board.now.state mv.now) + count_of_links (applied board.now.state mv.now) + result ≤ left_beside_states board.now.state mv.now }
{
    match *mv {
        RepairMove::Drop { .. } => 0,
        _ => past_by(board, outsides, run, mv),
    }
}

// How many conflicts the move leaves at least beside those of states.
fn least_by(board: &Board, outsides: &[Outside], run: &Run, mv: &RepairMove) -> u32
    requires unspoiled { board.now.spoiled ≡ false }
    requires next { board.now.state.next_id ≤ 3999999000 }
    requires allowed { CanBeMade board.now.state mv.now }
    requires of_plan { All (IsOutsideOf board.now.state) outsides.now }
    requires different { AreDifferent outsides.now }
    requires run { IsRunOf board.now.state run.now }
    requires alike { IsAlike run.now.known.first mv.now }
    ensures { result ≤ left_beside_states board.now.state mv.now }
{
    let others = others_by(board, outsides, run, mv);
    let start = start_of(mv);
    let steady = run.known.steady_at(start);
    let lone = lone_then(board, run.known.alone, start);
    let unmet = unmet_then(board, run.known.alone, start);
    let links = run
        .known
        .untouched
        .saturating_add(lone)
        .saturating_add(unmet);
    steady.saturating_add(links).saturating_add(others)
}

// Whether a look over all conflicts costs less than it may save.
fn is_worth_it(conflicts: &ConflictSet, moves: &[RepairMove]) -> bool {
    conflicts.len() as usize / CONFLICTS_A_MOVE <= moves.len()
}

// What is known of each move without a look over the conflicts.
fn least_alone(alloc: Global, board: &Board, moves: &[RepairMove]) -> Result<Vec<u32>, AllocError>
    requires unspoiled { board.now.spoiled ≡ false }
    requires next { board.now.state.next_id ≤ 3999999000 }
    requires allowed { All (CanBeMade board.now.state) moves.now }
    ensures { IfOk result (λ ns. AreLeastBesideStates board.now.state moves.now ns.items) }
{
    let mut bounds = Vec::with_capacity(alloc, moves.len())?;
    'moves: for mv in moves {
        bounds.push(least_left(board.state(), mv))?;
    }
    Ok(bounds)
}

// A number of conflicts that a move leaves at least beside those of states. If no move before it places the same activities, what is known of it is put behind the
// others.
fn bound_of(
    alloc: Global,
    board: &Board,
    standing: &Standing,
    past: &mut Vec<Outside>,
    mv: &RepairMove,
    runs: &mut Vec<Run>,
) -> Result<u32, AllocError>
    requires unspoiled { board.now.spoiled ≡ false }
    requires next { board.now.state.next_id ≤ 3999999000 }
    requires standing { IsStandingOf board.now.state standing.now }
    requires of_plan { All (IsOutsideOf board.now.state) past.old.items }
    requires different { AreDifferent past.old.items }
    requires allowed { CanBeMade board.now.state mv.now }
    requires runs { All (IsRunOf board.now.state) runs.old.items }
    ensures least { IfOk result (λ n. n ≤ left_beside_states board.now.state mv.now) }
    ensures of_plan { OnOk result (All (IsOutsideOf board.now.state) past.new.items) }
    ensures different { OnOk result (AreDifferent past.new.items) }
    ensures runs { OnOk result (All (IsRunOf board.now.state) runs.new.items) }
{
    if let Some(run) = run_like(runs.as_slice(), mv) {
        return Ok(least_by(board, past.as_slice(), run, mv));
    }
    let run = run_of(alloc, board, standing, mv, past)?;
    let bound = least_by(board, past.as_slice(), &run, mv);
    runs.push(run)?;
    Ok(bound)
}

fn bounds_of_each(
    alloc: Global,
    board: &Board,
    moves: &[RepairMove],
) -> Result<Vec<u32>, AllocError>
    requires unspoiled { board.now.spoiled ≡ false }
    requires next { board.now.state.next_id ≤ 3999999000 }
    requires allowed { All (CanBeMade board.now.state) moves.now }
    ensures { IfOk result (λ ns. AreLeastBesideStates board.now.state moves.now ns.items) }
{
    let standing = standing_of(alloc, board)?;
    let mut past = outsides(alloc, board)?;
    let mut runs: Vec<Run> = Vec::new(alloc);
    let mut bounds = Vec::with_capacity(alloc, moves.len())?;
    'moves: for mv in moves {
        let bound = bound_of(alloc, board, &standing, &mut past, mv, &mut runs)?;
        bounds.push(bound)?;
    }
    Ok(bounds)
}

// For each move a number of conflicts that it leaves at least beside those of states.
fn least_beside_states(
    alloc: Global,
    board: &Board,
    moves: &[RepairMove],
) -> Result<Vec<u32>, AllocError>
    requires unspoiled { board.now.spoiled ≡ false }
    requires next { board.now.state.next_id ≤ 3999999000 }
    requires allowed { All (CanBeMade board.now.state) moves.now }
    ensures { IfOk result (λ ns. AreLeastBesideStates board.now.state moves.now ns.items) }
{
    if is_worth_it(board.conflicts(), moves) {
        Ok(bounds_of_each(alloc, board, moves)?)
    } else {
        Ok(least_alone(alloc, board, moves)?)
    }
}

/// For each of these moves a number of conflicts that it leaves at least, known without making it. Conflicts of states are not among those
/// that were counted: `least_with_states` adds some of them. No clause says how near these come: 0 for each would be right too, and slower
/// to choose by. If the conflicts are very many for so few moves, none of them is looked at. An error is want of memory.
pub fn least_of_each(
    alloc: Global,
    board: &Board,
    moves: &[RepairMove],
) -> Result<Vec<u32>, AllocError>
    requires unspoiled { board.now.spoiled ≡ false }
    requires next { board.now.state.next_id ≤ 3999999000 }
    requires allowed { All (CanBeMade board.now.state) moves.now }
    ensures least { IfOk result (λ ns. AreLeast board.now.state moves.now ns.items) }
    ensures beside { IfOk result (λ ns. AreLeastBesideStates board.now.state moves.now ns.items) }
{
    let bounds = least_beside_states(alloc, board, moves)?;
    Ok(bounds)
}
