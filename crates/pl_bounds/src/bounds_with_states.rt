//! For each of some moves a number of conflicts that it leaves at least, those of states among them.
ghost use Rattle.std.specs.Prelude.{◌≡◌, ◌≤◌, false, List, All, IfOk, IsTrue};
ghost use Rattle.pl_moves.specs.Changes.{IsOfActivities};
ghost use Rattle.pl_moves.specs.Runs.{CanBeMade};
ghost use Rattle.pl_semantics.specs.Moves.{applied};
ghost use Rattle.pl_plan.specs.declared.repair.RepairMove as repair;
ghost use Rattle.pl_semantics.specs.declared.plan_state.PlanState.{PlanState};
ghost use Rattle.pl_bounds.specs.Asked.{IsAlike};
ghost use Rattle.pl_bounds.specs.Bounds.{AreLeast, AreLeastBesideStates};
ghost use Rattle.pl_bounds.specs.Marks.{count_of_states};
ghost use Rattle.pl_bounds.specs.UnmetMusts.{IsExchangeOf, IsUnmet};

use crate::coming_musts::add_coming_musts;
use crate::exchange::{Exchange, exchange_of};
use crate::left_unmet::marks_left;
use crate::marks::count_of_marks;
use crate::unmet_musts::{UnmetMust, unmet_musts};
use pl_board::Board;
use pl_moves::{goes_on, start_of};
use pl_plan::RepairMove;
use std::alloc::{AllocError, Global};

// Whether the move places the same activities as the first one.
fn is_alike(first: &RepairMove, mv: &RepairMove) -> bool
    ensures { IsTrue result → IsAlike first.now mv.now }
{
    if mv == first {
        return true;
    }
    goes_on(first, mv)
}

// How many conflicts of states a move leaves at least that changes activities.
fn states_after(
    alloc: Global,
    board: &Board,
    exchange: &Exchange,
    mv: &RepairMove,
) -> Result<u32, AllocError>
    requires unspoiled { board.now.spoiled ≡ false }
    requires next { board.now.state.next_id ≤ 3999999000 }
    requires allowed { CanBeMade board.now.state mv.now }
    requires activities { IsOfActivities mv.now }
    requires alike { IsAlike exchange.now.first mv.now }
    requires exchange { IsExchangeOf board.now.state exchange.now }
    ensures { IfOk result (λ n. n ≤ count_of_states (applied board.now.state mv.now)) }
{
    let _state = board.state();
    let start = start_of(mv);
    let asking = &exchange.asking;
    let mut marks = marks_left(alloc, board, asking, start, exchange.left.as_slice())?;
    add_coming_musts(board, asking, start, &mut marks)?;
    Ok(count_of_marks(marks.as_slice()))
}

// The same of any move: nothing is known of one that does not place the same activities as the first one.
fn states_by(
    alloc: Global,
    board: &Board,
    exchange: &Exchange,
    mv: &RepairMove,
) -> Result<u32, AllocError>
    requires unspoiled { board.now.spoiled ≡ false }
    requires next { board.now.state.next_id ≤ 3999999000 }
    requires allowed { CanBeMade board.now.state mv.now }
    requires exchange { IsExchangeOf board.now.state exchange.now }
    ensures { IfOk result (λ n. n ≤ count_of_states (applied board.now.state mv.now)) }
{
    if !is_alike(&exchange.first, mv) {
        return Ok(0);
    }
    match *mv {
        RepairMove::Drop { .. } => Ok(0),
        _ => states_after(alloc, board, exchange, mv),
    }
}

// Each bound, with the conflicts of states that the move is known to leave.
fn with_states(
    alloc: Global,
    board: &Board,
    exchange: &Exchange,
    moves: &[RepairMove],
    bounds: &[u32],
) -> Result<Vec<u32>, AllocError>
    requires unspoiled { board.now.spoiled ≡ false }
    requires next { board.now.state.next_id ≤ 3999999000 }
    requires allowed { All (CanBeMade board.now.state) moves.now }
    requires exchange { IsExchangeOf board.now.state exchange.now }
    requires beside { AreLeastBesideStates board.now.state moves.now bounds.now }
    ensures { IfOk result (λ ns. AreLeast board.now.state moves.now ns.items) }
{
    let mut all = Vec::with_capacity(alloc, moves.len())?;
    for (place, mv) in moves.iter().enumerate() {
        let states = states_by(alloc, board, exchange, mv)?;
        all.push(bounds[place].saturating_add(states))?;
    }
    Ok(all)
}

// The bounds as they are: a number beside conflicts of states is right with them too.
fn as_given(alloc: Global, bounds: &[u32]) -> Result<Vec<u32>, AllocError>
    ensures { IfOk result (λ ns. (s : PlanState) (ms : List repair.RepairMove) → AreLeastBesideStates s ms bounds.now → AreLeast s ms ns.items) }
{
    let same = bounds.to_vec(alloc)?;
    Ok(same)
}

// The bounds with what is known of states, given the first move and the musts that are not met.
fn least_by_first(
    alloc: Global,
    board: &Board,
    first: &RepairMove,
    unmet: &[UnmetMust],
    moves: &[RepairMove],
    bounds: &[u32],
) -> Result<Vec<u32>, AllocError>
    requires unspoiled { board.now.spoiled ≡ false }
    requires next { board.now.state.next_id ≤ 3999999000 }
    requires first { CanBeMade board.now.state first.now }
    requires unmet { All (IsUnmet board.now.state) unmet.now }
    requires allowed { All (CanBeMade board.now.state) moves.now }
    requires beside { AreLeastBesideStates board.now.state moves.now bounds.now }
    ensures { IfOk result (λ ns. AreLeast board.now.state moves.now ns.items) }
{
    match exchange_of(alloc, board, first, unmet)? {
        Some(exchange) => with_states(alloc, board, &exchange, moves, bounds),
        None => as_given(alloc, bounds),
    }
}

/// For each of these moves a number of conflicts that it leaves at least, given such numbers beside conflicts of states, as
/// `least_of_each` answers them. What is added is how many musts are known to be unmet after the move. It is worked out for the first move,
/// and for those that place the same activities at other starts. No clause says how near these numbers come. An error is want of memory.
pub fn least_with_states(
    alloc: Global,
    board: &Board,
    moves: &[RepairMove],
    bounds: &[u32],
) -> Result<Vec<u32>, AllocError>
    requires unspoiled { board.now.spoiled ≡ false }
    requires next { board.now.state.next_id ≤ 3999999000 }
    requires allowed { All (CanBeMade board.now.state) moves.now }
    requires beside { AreLeastBesideStates board.now.state moves.now bounds.now }
    ensures { IfOk result (λ ns. AreLeast board.now.state moves.now ns.items) }
{
    let unmet = unmet_musts(alloc, board)?;
    let Some((first, _others)) = moves.split_first() else {
        return as_given(alloc, bounds);
    };
    least_by_first(alloc, board, first, unmet.as_slice(), moves, bounds)
}
