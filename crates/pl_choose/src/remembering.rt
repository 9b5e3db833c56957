//! Choices that were made before. The board remembers some, and recalls one when its plan is again the same, or the same but for the ids
//! of its newest roots.
ghost use Rattle.std.specs.Prelude.{◌≡◌, ◌≢◌, false, true, Some, All, IfSome};
ghost use Rattle.pl_semantics.specs.declared.plan_state.PlanState.{PlanState};
ghost use Rattle.pl_memo.specs.Memories.{IsFewestAt};
ghost use Rattle.pl_choose.specs.Found.{IsAllowed};
ghost use Rattle.pl_choose.specs.Picks.{fewest};
ghost use Rattle.pl_choose.specs.Remembered.{WasChosen, WasChosenIfTold};

use pl_board::Board;
use pl_moves::Trial;
use pl_plan::RepairMove;

// Of fewer moves than this the best is found as quickly as it is recalled.
const FEW: usize = 2;

/// The first of these moves that leaves the fewest conflicts, if the board remembers it.
pub(crate) fn recalled(board: &Board, moves: &[RepairMove]) -> Option<RepairMove>
    requires unspoiled { board.now.spoiled ≡ false }
    requires allowed { All (IsAllowed board.now.state) moves.now }
    ensures { IfSome result (λ m. fewest board.now.state moves.now ≡ Some m) }
{
    if moves.len() < FEW {
        return None;
    }
    match board.recall(moves) {
        Some(place) => Some(moves[place]),
        None => None,
    }
}

fn is_same(one: &RepairMove, other: &RepairMove) -> bool
    ensures same { result ≡ true → one.now ≡ other.now }
    ensures other { result ≡ false → one.now ≢ other.now }
{
    one == other
}

// The place of the best of some moves.
fn place_of(moves: &[RepairMove], best: &RepairMove) -> usize
    ensures { (s : PlanState) → fewest s moves.now ≡ Some best.now → IsFewestAt s moves.now result }
{
    for (place, mv) in moves.iter().enumerate() {
        if is_same(mv, best) {
            return place;
        }
    }
    moves.len()
}

/// Remembers which of these moves was found to be the best. The board still is as it was when this was found.
pub(crate) fn remember_found(board: &mut Board, moves: &[RepairMove], best: &RepairMove)
    requires unspoiled { board.old.spoiled ≡ false }
    requires allowed { All (IsAllowed board.old.state) moves.now }
    requires best { fewest board.old.state moves.now ≡ Some best.now }
    ensures { board.new ≡ board.old }
{
    if moves.len() < FEW {
        return;
    }
    let place = place_of(moves, best);
    board.remember(moves, place);
}

// Remembers which of these moves was the best before it was made.
fn remember_trial(board: &mut Board, moves: &[RepairMove], best: &RepairMove, trial: Trial)
    requires unspoiled { board.old.spoiled ≡ false }
    requires chosen { WasChosen board.old.state moves.now best.now trial }
    ensures { board.new ≡ board.old }
{
    if moves.len() < FEW {
        return;
    }
    let place = place_of(moves, best);
    board.remember_before(&trial.undo.placed, &trial.change.placed, moves, place);
}

/// The same, if it is told what the move changed and how that is undone.
pub(crate) fn remember_made(
    board: &mut Board,
    moves: &[RepairMove],
    best: &RepairMove,
    told: Option<Trial>,
)
    requires unspoiled { board.old.spoiled ≡ false }
    requires chosen { WasChosenIfTold board.old.state moves.now best.now told }
    ensures { board.new ≡ board.old }
{
    match told {
        Some(trial) => remember_trial(board, moves, best, trial),
        None => (),
    }
}
