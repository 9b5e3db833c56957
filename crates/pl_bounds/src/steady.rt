//! How many conflicts of goals and activities a move is known to leave.
ghost use Rattle.std.specs.Prelude.{◌≡◌, ◌≤◌, false, IfOk, length};
ghost use Rattle.std.specs.Option.{option_to_list};
ghost use Rattle.pl_moves.specs.Runs.{CanBeMade};
ghost use Rattle.pl_plan.specs.Trees.{subtree_of};
ghost use Rattle.pl_plan.specs.declared.repair.RepairMove.TheVariants.{Add, Delete};
ghost use Rattle.pl_semantics.specs.Moves.{applied};
ghost use Rattle.pl_semantics.specs.Whole.{IsWhole};
ghost use Rattle.pl_bounds.specs.Askings.{root_alone};
ghost use Rattle.pl_bounds.specs.Plain.{count_of_plain};
ghost use Rattle.pl_bounds.specs.Standing.{IsLeftByNew, IsStandingOf};
ghost use Rattle.pl_bounds.specs.Windows.{IsLeftByShift};

use crate::elsewhere::count_elsewhere;
use crate::reopening::is_open_without;
use crate::standing::{Standing, count_if};
use crate::unset::is_unset_in;
use pl_board::Board;
use pl_moves::least_left;
use pl_plan::RepairMove;
use pl_semantics::PlanState;
use std::alloc::{AllocError, Global};

fn goals_of(goal: Option<u32>) -> u32
    ensures { result ≡ length (option_to_list goal) }
{
    match goal {
        Some(_) => 1,
        None => 0,
    }
}

/// All but the goal that a new root serves, and what is known to be wrong with the root, which is given alone in a plan of its own.
pub(crate) fn left_by_new(
    alloc: Global,
    s: &PlanState,
    alone: &PlanState,
    wrong: u32,
    kind: u32,
    start: u32,
    goal: Option<u32>,
) -> Result<u32, AllocError>
    requires whole { IsWhole s.now }
    requires next { s.now.next_id ≤ 3999999000 }
    requires allowed { CanBeMade s.now (Add kind start goal) }
    requires alone { alone.now ≡ root_alone s.now kind start goal }
    requires wrong { wrong ≤ count_of_plain s.now }
    ensures { IfOk result (IsLeftByNew s.now kind goal) }
{
    let is_unset = is_unset_in(alloc, alone, s.next_id)?;
    let mv = RepairMove::Add { kind, start, goal };
    let left = wrong
        .saturating_sub(goals_of(goal))
        .saturating_add(least_left(s, &mv));
    Ok(count_if(is_unset, left))
}

/// All but what is wrong with the subtree that goes, and one more if the goal that it served is open then.
pub(crate) fn left_by_deletion(
    alloc: Global,
    board: &Board,
    id: u32,
    subtree: &[u32],
) -> Result<u32, AllocError>
    requires unspoiled { board.now.spoiled ≡ false }
    requires next { board.now.state.next_id ≤ 3999999000 }
    requires allowed { CanBeMade board.now.state (Delete id) }
    requires subtree { subtree.now ≡ subtree_of id board.now.state.plan.activities }
    ensures { IfOk result (λ n. n ≤ count_of_plain (applied board.now.state (Delete id))) }
{
    let s = board.state();
    let left = count_elsewhere(board.conflicts(), subtree);
    let is_open = is_open_without(alloc, s, id)?;
    Ok(count_if(is_open, left))
}

/// All that does not depend on a start, or all but what is wrong with the subtree that moves: the greater number of the two. If nothing
/// that is wrong depends on a start, the conflicts are not looked through.
pub(crate) fn left_by_shift(board: &Board, standing: &Standing, id: u32, subtree: &[u32]) -> u32
    requires unspoiled { board.now.spoiled ≡ false }
    requires next { board.now.state.next_id ≤ 3999999000 }
    requires subtree { subtree.now ≡ subtree_of id board.now.state.plan.activities }
    requires standing { IsStandingOf board.now.state standing.now }
    ensures { IsLeftByShift board.now.state id result }
{
    let _state = board.state();
    if standing.wrong <= standing.unmoved {
        return standing.unmoved;
    }
    let others = count_elsewhere(board.conflicts(), subtree);
    standing.unmoved.max(others)
}
