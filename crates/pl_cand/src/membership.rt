//! Whether a move is a candidate. Mostly this is answered without a list of the candidates.
ghost use Rattle.std.specs.Prelude.{◌≡◌, [], take, filter, IfOk, false};
ghost use Rattle.std.specs.List.{list_any};
ghost use Rattle.pl_semantics.specs.Whole.{IsWhole};
ghost use Rattle.pl_semantics.specs.Candidates.{candidates_of, is_worth, once_from, same_move};

use crate::conflicts::tried;
use crate::cuts::{MOST, cut, is_same};
use crate::telling::told;
use crate::told::Told;
use crate::worth::is_worth;
use pl_board::Board;
use pl_conflict::Conflict;
use pl_plan::RepairMove;
use pl_semantics::PlanState;
use std::alloc::{AllocError, Global};

/// Whether a move is one of these.
fn is_among(mv: &RepairMove, moves: &[RepairMove]) -> bool
    ensures { result ≡ list_any (same_move mv.now) moves.now }
{
    moves.iter().any(|other| is_same(mv, other))
}

#[tactic(auto, using(crate::proofs::Among::all_short))]
/// The first 256 of the moves: there are never more candidates.
fn first(moves: &[RepairMove]) -> &[RepairMove]
    ensures { result.now ≡ take 256 moves.now }
{
    if moves.len() <= MOST {
        moves
    } else {
        &moves[..MOST]
    }
}

/// Whether the move is a candidate, given all moves that are tried. What is left out of these only brings a later move forward. So
/// a move that makes sense, changes something and is one of the first 256 that are tried is a candidate.
fn is_left(
    alloc: Global,
    state: &PlanState,
    moves: &[RepairMove],
    mv: &RepairMove,
) -> Result<bool, AllocError>
    requires { IsWhole state.now }
    ensures { IfOk result (λ left. left ≡ list_any (same_move mv.now) (take 256 (once_from [] (filter (is_worth state.now) moves.now)))) }
{
    if !is_worth(state, mv) {
        return Ok(false);
    }
    if is_among(mv, first(moves)) {
        return Ok(true);
    }
    if moves.len() <= MOST {
        return Ok(false);
    }
    let left = cut(alloc, state, moves)?;
    Ok(is_among(mv, left.as_slice()))
}

// Whether the move is a candidate for the conflict, answered by a list of all moves that are tried for it.
#[tactic(auto, unfolding(pl_semantics::specs::Candidates::candidates_of))]
fn is_listed(
    alloc: Global,
    state: &PlanState,
    k: &Conflict,
    mv: &RepairMove,
) -> Result<bool, AllocError>
    requires { IsWhole state.now }
    ensures { IfOk result (λ is. is ≡ list_any (same_move mv.now) (candidates_of state.now k.now)) }
{
    let mut all = Vec::with_capacity(alloc, MOST)?;
    tried(alloc, state, k, &mut all)?;
    is_left(alloc, state, all.as_slice(), mv)
}

// The same, answered without a list where that is possible.
fn is_candidate_in(
    alloc: Global,
    state: &PlanState,
    k: &Conflict,
    mv: &RepairMove,
) -> Result<bool, AllocError>
    requires { IsWhole state.now }
    ensures { IfOk result (λ is. is ≡ list_any (same_move mv.now) (candidates_of state.now k.now)) }
{
    match told(alloc, state, k, mv)? {
        Told::Early => Ok(is_worth(state, mv)),
        Told::Untried => Ok(false),
        Told::Unknown => is_listed(alloc, state, k, mv),
    }
}

/// Whether the move is a candidate for the conflict.
pub fn is_candidate(
    alloc: Global,
    board: &Board,
    k: &Conflict,
    mv: &RepairMove,
) -> Result<bool, AllocError>
    requires { board.now.spoiled ≡ false }
    ensures { IfOk result (λ is. is ≡ list_any (same_move mv.now) (candidates_of board.now.state k.now)) }
{
    is_candidate_in(alloc, board.state(), k, mv)
}
