//! What is asked of moves: whether they are refused, which are tried, and what they leave.
ghost use Rattle.std.specs.Prelude.{All, IfOk};
ghost use Rattle.pl_moves.specs.Runs.{CanBeMade};

use crate::asserting::is_printed;
use crate::board::changes::{can_make, can_move};
use crate::board::reading::{conflict, repair};
use crate::board::values::are_conflicts;
use crate::reading::{sides, word};
use pl_board::Board;
use pl_bounds::{least_of_choices, least_of_each, least_with_states};
use pl_cand::candidates;
use pl_moves::{Attempt, attempt, is_legal, legal, make};
use pl_plan::RepairMove;
use pl_points::{Quiet, Steps};
use std::alloc::{AllocError, Global};

/// Whether a move is refused so.
pub fn is_refused(alloc: Global, board: &Board, row: &str) -> Option<bool> {
    let (line, wanted) = sides(row);
    let mv = repair(line);
    if !can_move(board, &mv) {
        return None;
    }
    let refused = legal(board, &mv).err();
    if is_legal(board, &mv) == refused.is_none() {
        is_printed(format!(in alloc; "{refused:?}"), wanted)
    } else {
        Some(false)
    }
}

/// The moves of a text.
fn moves_in(alloc: Global, text: &str) -> Option<Vec<RepairMove>> {
    let mut moves = Vec::new(alloc);
    for line in text.split(';') {
        moves.push(repair(line)).ok()?;
    }
    Some(moves)
}

/// Whether these moves are tried for a conflict that stands.
pub fn is_tried_for(alloc: Global, board: &Board, row: &str) -> Option<bool> {
    let (wrong, moves) = sides(row);
    let wrong = conflict(wrong);
    if board.spoiled() || !board.conflicts().has(&wrong) {
        return None;
    }
    let wanted = moves_in(alloc, moves)?;
    let found = candidates(alloc, board, &wrong).ok()?;
    Some(found.as_slice() == wanted.as_slice())
}

/// Whether a legal move is known to leave so many conflicts at least.
pub fn is_known_to_leave(alloc: Global, board: &Board, row: &str) -> Option<bool> {
    let (line, wanted) = sides(row);
    let mv = repair(line);
    if !can_make(board, &mv) {
        return None;
    }
    let found = least_of_each(alloc, board, &[mv]).ok()?;
    is_printed(format!(in alloc; "{found:?}"), wanted)
}

/// Those of the moves of a text that are legal.
pub fn legal_moves(alloc: Global, board: &Board, text: &str) -> Result<Vec<RepairMove>, AllocError>
    ensures { IfOk result (λ moves. All (CanBeMade board.now.state) moves.items) }
{
    let mut moves = Vec::new(alloc);
    'lines: for line in text.split(';') {
        let mv = repair(line);
        if can_make(board, &mv) {
            moves.push(mv)?;
        }
    }
    Ok(moves)
}

/// Whether legal moves are known as choices of alternatives to leave so many conflicts at least.
fn leave_at_least(alloc: Global, board: &Board, moves: &[RepairMove], wanted: &str) -> Option<bool>
    requires { All (CanBeMade board.now.state) moves.now }
{
    if board.spoiled() || board.next_id() > 3_999_999_000 {
        return None;
    }
    let found = least_of_choices(alloc, board, moves).ok()?;
    is_printed(format!(in alloc; "{found:?}"), wanted)
}

/// The same of the moves of a row.
pub fn are_known_to_leave(alloc: Global, board: &Board, row: &str) -> Option<bool> {
    let (lines, wanted) = sides(row);
    match legal_moves(alloc, board, lines) {
        Ok(moves) => leave_at_least(alloc, board, moves.as_slice(), wanted),
        Err(_) => None,
    }
}

// Whether legal moves are known to leave so many conflicts at least, those of states among them.
fn leave_with_states(
    alloc: Global,
    board: &Board,
    moves: &[RepairMove],
    wanted: &str,
) -> Option<bool>
    requires { All (CanBeMade board.now.state) moves.now }
{
    if board.spoiled() || board.next_id() > 3_999_999_000 {
        return None;
    }
    let Ok(bounds) = least_of_each(alloc, board, moves) else {
        return None;
    };
    let found = least_with_states(alloc, board, moves, bounds.as_slice()).ok()?;
    is_printed(format!(in alloc; "{found:?}"), wanted)
}

/// The same of the moves of a row.
pub fn are_known_to_leave_with_states(alloc: Global, board: &Board, row: &str) -> Option<bool> {
    let (lines, wanted) = sides(row);
    match legal_moves(alloc, board, lines) {
        Ok(moves) => leave_with_states(alloc, board, moves.as_slice(), wanted),
        Err(_) => None,
    }
}

// What came of trying a move, in words.
fn outcome_of(alloc: Global, came: &Attempt) -> Result<String, AllocError> {
    match came {
        Attempt::Made(_) => format!(in alloc; "Made"),
        Attempt::Undone { left } => format!(in alloc; "Undone {{ left: {left} }}"),
    }
}

/// Whether this comes of trying a legal move.
pub fn comes_of(alloc: Global, board: &mut Board, row: &str) -> Option<bool> {
    let (asked, rest) = sides(row);
    let (wanted, conflicts) = sides(rest);
    let mut line = asked;
    let enough = word(&mut line).parse().ok();
    let mv = repair(line);
    if !can_make(board, &mv) {
        return None;
    }
    let came = attempt(alloc, board, &mv, enough, &mut Steps::new(Quiet)).ok()?;
    let outcome = outcome_of(alloc, &came).ok()?;
    let next = board.next_id();
    if is_printed(format!(in alloc; "{outcome} {next}"), wanted)? {
        are_conflicts(alloc, board, conflicts)
    } else {
        Some(false)
    }
}

/// Whether this is wrong behind a legal move.
pub fn is_made(alloc: Global, board: &mut Board, row: &str) -> Option<bool> {
    let (line, conflicts) = sides(row);
    let mv = repair(line);
    if !can_make(board, &mv) {
        return None;
    }
    make(alloc, board, &mv, &mut Steps::new(Quiet)).ok()?;
    are_conflicts(alloc, board, conflicts)
}
