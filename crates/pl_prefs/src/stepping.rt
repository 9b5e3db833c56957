//! A step on a board: the best of the moves is made.
ghost use Rattle.std.specs.Prelude.{◌≡◌, ◌≤◌, false, true, length, All, IfOk, OnErr};
ghost use Rattle.pl_semantics.specs.Whole.{IsWhole};
ghost use Rattle.pl_prefs.specs.Betters.{AreProperChanges, changes_in};
ghost use Rattle.pl_prefs.specs.Chances.{AreGains, IsChosen};
ghost use Rattle.pl_prefs.specs.Prefers.{IsPreferOf};

use crate::changes::changes;
use crate::choice::Choice;
use crate::choosing::best_made;
use crate::gains::gains;
use crate::prefer::Prefer;
use pl_board::Board;
use pl_plan::RepairMove;
use pl_points::{Ledger, Steps};
use std::alloc::{AllocError, Global};

// Moves, and what each of them gains.
#[derive(Drop)]
struct Chances {
    moves: Vec<RepairMove>,
    gains: Vec<i128>,
}

fn chances_of(alloc: Global, board: &Board, prefers: &[Prefer]) -> Result<Chances, AllocError>
    requires unspoiled { board.now.spoiled ≡ false }
    requires next { board.now.state.next_id ≤ 3999999000 }
    requires fits { All (IsPreferOf board.now.state.model) prefers.now }
    requires few { length prefers.now ≤ 64 }
    ensures moves { IfOk result (λ c. c.moves.items ≡ changes_in board.now.state) }
    ensures changes { IfOk result (λ c. AreProperChanges board.now.state c.moves.items) }
    ensures gains { IfOk result (λ c. AreGains board.now.state prefers.now c.moves.items c.gains.items) }
{
    let moves = changes(alloc, board)?;
    let gains = gains(alloc, board, prefers, &moves)?;
    Ok(Chances { moves, gains })
}

/// Makes the move that betters the plan the most, the first among equals. Want of memory spoils the board.
pub(crate) fn step_on<L: Ledger>(
    alloc: Global,
    board: &mut Board,
    prefers: &[Prefer],
    steps: &mut Steps<L>,
) -> Result<Option<Choice>, AllocError>
    requires unspoiled { board.old.spoiled ≡ false }
    requires next { board.old.state.next_id ≤ 3999999000 }
    requires fits { All (IsPreferOf board.old.state.model) prefers.now }
    requires few { length prefers.now ≤ 64 }
    ensures chosen { IfOk result (λ choice. IsChosen prefers.now (changes_in board.old.state) choice board.old board.new) }
    ensures whole { IsWhole board.old.state }
    ensures err { OnErr result (board.new.spoiled ≡ true) }
{
    let _state = board.state();
    match chances_of(alloc, board, prefers) {
        Ok(mut found) => { best_made(alloc, board, prefers, &found.moves, &mut found.gains, steps) }
        Err(fault) => {
            board.spoil();
            Err(fault)
        }
    }
}
