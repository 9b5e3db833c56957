//! What a board recalls of choices that were made on it.
ghost use Rattle.std.specs.Prelude.{All};
ghost use Rattle.pl_moves.specs.Runs.{CanBeMade};

use crate::asserting::is_printed;
use crate::board::changes::change_all;
use crate::board::moves::legal_moves;
use crate::reading::sides;
use pl_board::Board;
use pl_cand::Chooser;
use pl_choose::Least;
use pl_plan::RepairMove;
use std::alloc::Global;

/// Lets the least chooser propose a repair, or make it.
fn choose(alloc: Global, board: &mut Board, how: &str) -> Option<()> {
    if board.spoiled() || board.next_id() > 3_999_999_000 {
        return None;
    }
    let chosen = match how {
        "propose" => Least.propose(alloc, board),
        _ => Least.mend(alloc, board),
    };
    chosen.ok()?;
    Some(())
}

/// Whether this is recalled as the place of the best of some legal moves.
fn recalls(alloc: Global, board: &Board, moves: &[RepairMove], wanted: &str) -> Option<bool>
    requires { All (CanBeMade board.now.state) moves.now }
{
    if board.spoiled() {
        return None;
    }
    let place = board.recall(moves);
    is_printed(format!(in alloc; "{place:?}"), wanted)
}

/// Whether this is recalled behind a choice and the changes that come after it.
pub fn is_recalled(alloc: Global, board: &mut Board, row: &str) -> Option<bool> {
    let (script, rest) = sides(row);
    let (lines, wanted) = sides(rest);
    let (how, changes) = script.split_once(';').unwrap_or((script, ""));
    choose(alloc, board, how)?;
    change_all(alloc, board, changes)?;
    match legal_moves(alloc, board, lines) {
        Ok(moves) => recalls(alloc, board, moves.as_slice(), wanted),
        Err(_) => None,
    }
}
