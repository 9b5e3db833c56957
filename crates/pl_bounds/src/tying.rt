//! The activity that a move places alone, with its end. Once it stands at the move's start, each of its links that finds no partner is a
//! conflict, and so is each order of its parent that is not met. None of these is among the conflicts that the move does not touch.
ghost use Rattle.std.specs.Prelude.{◌≡◌, ◌≤◌, ◌+◌, ℕ, false};
ghost use Rattle.pl_moves.specs.Runs.{CanBeMade};
ghost use Rattle.pl_plan.specs.Activities.{IsLive};
ghost use Rattle.pl_plan.specs.Trees.{subtree_of};
ghost use Rattle.pl_plan.specs.declared.repair.RepairMove.TheVariants.{Shift};
ghost use Rattle.pl_semantics.specs.Moves.{applied};
ghost use Rattle.pl_semantics.specs.Whole.{IsWhole};
ghost use Rattle.pl_bounds.specs.Orders.{unmet_then};
ghost use Rattle.pl_bounds.specs.Remaining.{IsLeftByShifting};
ghost use Rattle.pl_bounds.specs.Ties.{lone_then, count_of_links, root_in};

use pl_board::Board;
use pl_links::Placed;
use pl_semantics::PlanState;

/// The activity that a shift moves, given the ids of its subtree. None if others descend from it.
pub(crate) fn moved_alone(board: &Board, id: u32, subtree: &[u32]) -> Option<Placed>
    requires unspoiled { board.now.spoiled ≡ false }
    requires next { board.now.state.next_id ≤ 3999999000 }
    requires subtree { subtree.now ≡ subtree_of id board.now.state.plan.activities }
    ensures { (to n : ℕ) → CanBeMade board.now.state (Shift id to) → IsLeftByShifting board.now.state id n → n + lone_then board.now.state to result + unmet_then board.now.state to result ≤ count_of_links (applied board.now.state (Shift id to)) }
{
    let _state = board.state();
    if subtree.len() != 1 {
        return None;
    }
    board.placed(id)
}

/// The new root of this id, given alone in a plan of its own.
pub(crate) fn added_alone(alone: &PlanState, id: u32, kind: u32, start: u32) -> Placed
    requires whole { IsWhole alone.now }
    requires live { IsLive id alone.now.plan.activities }
    ensures { result ≡ root_in alone.now id kind start }
{
    Placed {
        id,
        kind,
        start,
        end: alone.plan.end(alone.model.get(), id),
        parent: None,
        detail: None,
    }
}
