//! Conflicts that no repair can mend, as a limit that is passed before anything may start.
ghost use Rattle.std.specs.Prelude.{◌≡◌, false};

use crate::look::is_open_goal;
use crate::undo::may_be_made;
use pl_board::Board;
use pl_cand::candidates;
use pl_conflict::Conflict;
use std::alloc::{AllocError, Global};

// Whether a repair of the conflict may be made.
fn has_repair(alloc: Global, board: &Board, conflict: &Conflict) -> Result<bool, AllocError>
    requires { board.now.spoiled ≡ false }
{
    let moves = candidates(alloc, board, conflict)?;
    for mv in moves.as_slice() {
        if may_be_made(board, mv) {
            return Ok(true);
        }
    }
    Ok(false)
}

/// How many conflicts have no repair that may be made, open goals not counted.
pub(crate) fn count_hopeless(alloc: Global, board: &Board) -> Result<u32, AllocError>
    requires { board.now.spoiled ≡ false }
{
    let mut count: u32 = 0;
    for conflict in board.conflicts().iter() {
        if !is_open_goal(conflict) && !has_repair(alloc, board, conflict)? {
            count = count.saturating_add(1);
        }
    }
    Ok(count)
}
