ghost use Rattle.std.specs.Prelude.{◌≡◌, false, IfOk};
ghost use Rattle.pl_choose.specs.Picks.{picked_by, picked_for, random_pick};

use crate::legality::legal_moves;
use crate::search::repairable;
use pl_board::Board;
use pl_cand::Proposal;
use pl_conflict::Conflict;
use std::alloc::{AllocError, Global};

/// The item that a random word picks, if there is any: the one at the place that is the word modulo how many there are.
fn picked_by<T: Copy>(word: u32, all: &[T]) -> Option<T>
    ensures { result ≡ picked_by word all.now }
{
    if all.is_empty() {
        None
    } else {
        Some(all[word as usize % all.len()])
    }
}

fn pick_repair(
    alloc: Global,
    board: &Board,
    conflict: Conflict,
    word: u32,
) -> Result<Option<Proposal>, AllocError>
    requires { board.now.spoiled ≡ false }
    ensures { IfOk result (λ p. p ≡ picked_for board.now.state word conflict) }
{
    let moves = legal_moves(alloc, board, &conflict)?;
    match picked_by(word, moves.as_slice()) {
        Some(mv) => Ok(Some(Proposal { conflict, mv })),
        None => Ok(None),
    }
}

/// By chance: one random word picks the conflict, and the other one its repair.
pub(crate) fn pick(
    alloc: Global,
    board: &Board,
    word: u32,
    other: u32,
) -> Result<Option<Proposal>, AllocError>
    requires { board.now.spoiled ≡ false }
    ensures { IfOk result (λ p. p ≡ random_pick board.now.state word other) }
{
    let conflicts = repairable(alloc, board)?;
    match picked_by(word, conflicts.as_slice()) {
        Some(conflict) => pick_repair(alloc, board, conflict, other),
        None => Ok(None),
    }
}
