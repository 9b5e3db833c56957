//! A move that is tried alone.
ghost use Rattle.std.specs.Prelude.{◌≡◌, ◌≤◌, true, false, IfOk, OnErr};
ghost use Rattle.pl_choose.specs.Alone.{IsTriedAlone};
ghost use Rattle.pl_choose.specs.Found.{IsAllowed};

use crate::trial::exact;
use pl_board::Board;
use pl_moves::{Attempt, Trial, attempt};
use pl_plan::RepairMove;
use pl_points::{Quiet, Steps};
use std::alloc::{AllocError, Global};

/// What comes of a move that is tried alone.
#[derive(Drop)]
pub(crate) enum Alone {
    /// The move leaves few enough conflicts, and stays made. What it changed and how that is undone is told, unless it drops a goal.
    Made(Option<Trial>),
    /// The move leaves so many conflicts, and is undone.
    Undone { left: usize },
}

/// Tries a move. It stays made if it leaves no more conflicts than `enough`, and is undone if it leaves more or if no number is
/// given. Want of memory spoils the board.
pub(crate) fn try_alone(
    alloc: Global,
    board: &mut Board,
    mv: &RepairMove,
    enough: Option<u32>,
) -> Result<Alone, AllocError>
    requires unspoiled { board.old.spoiled ≡ false }
    requires next { board.old.state.next_id ≤ 3999999000 }
    requires allowed { IsAllowed board.old.state mv.now }
    ensures tried { IfOk result (λ a. IsTriedAlone mv.now enough board.old a board.new) }
    ensures err { OnErr result (board.new.spoiled ≡ true) }
{
    match attempt(alloc, board, mv, enough, &mut Steps::new(Quiet))? {
        Attempt::Made(trial) => Ok(Alone::Made(trial)),
        Attempt::Undone { left } => {
            let left = exact(alloc, board, mv, left)?;
            Ok(Alone::Undone { left })
        }
    }
}
