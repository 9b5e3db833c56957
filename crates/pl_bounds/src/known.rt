//! What is known of moves that place the same activities at other starts.
ghost use Rattle.std.specs.Prelude.{◌≡◌, ◌≤◌, false, IfOk};
ghost use Rattle.pl_moves.specs.Runs.{CanBeMade};
ghost use Rattle.pl_plan.specs.declared.repair.RepairMove.TheVariants.{Add, Delete, Shift};
ghost use Rattle.pl_semantics.specs.Whole.{IsWhole};
ghost use Rattle.pl_bounds.specs.Asked.{IsAlike};
ghost use Rattle.pl_bounds.specs.Known.{IsKnownOf, only_steady, steady_then};
ghost use Rattle.pl_bounds.specs.Standing.{IsStandingOf};

use crate::asking::{Asking, added, deleted_if, shifted_if};
use crate::roots::root_alone;
use crate::standing::{Standing, count_if};
use crate::steady::{left_by_deletion, left_by_new, left_by_shift};
use crate::subtrees::subtree;
use crate::tying::{added_alone, moved_alone};
use crate::untouched::{left_alone_by_deletion, left_alone_by_new, left_alone_by_shift};
use crate::window::{Window, is_off, window_of};
use pl_board::Board;
use pl_links::Placed;
use pl_plan::RepairMove;
use pl_semantics::PlanState;
use std::alloc::{AllocError, Global};

/// What is known of a move, and of each that places the same activities at another start: how many conflicts of goals and activities it
/// leaves at least, not counting one more if it starts outside the window; how many of the conflicts of links that stand it does not
/// touch; the activity that it moves alone, or adds; and what it asks for.
#[derive(Drop)]
pub(crate) struct Known {
    pub(crate) first: RepairMove,
    pub(crate) steady: u32,
    pub(crate) window: Option<Window>,
    pub(crate) untouched: u32,
    pub(crate) alone: Option<Placed>,
    pub(crate) asking: Option<Asking>,
}

impl Known {
    /// How many conflicts of goals and activities the move that starts then leaves at least.
    pub(crate) fn steady_at(&self, start: u32) -> u32
        ensures { result ≤ steady_then self.now start }
    {
        count_if(is_off(self.window, start), self.steady)
    }
}

// What is known of the addition of a root. The root is made once, alone in a plan of its own.
fn known_of_new(
    alloc: Global,
    s: &PlanState,
    standing: &Standing,
    kind: u32,
    start: u32,
    goal: Option<u32>,
) -> Result<Known, AllocError>
    requires whole { IsWhole s.now }
    requires next { s.now.next_id ≤ 3999999000 }
    requires standing { IsStandingOf s.now standing.now }
    requires allowed { CanBeMade s.now (Add kind start goal) }
    ensures known { IfOk result (λ k. IsKnownOf s.now k) }
    ensures alike { IfOk result (λ k. IsAlike k.first (Add kind start goal)) }
{
    let alone = root_alone(alloc, s, kind, start, goal)?;
    let steady = left_by_new(alloc, s, &alone, standing.wrong, kind, start, goal)?;
    let asking = added(alloc, &alone, start)?;
    Ok(Known {
        first: RepairMove::Add { kind, start, goal },
        steady,
        window: None,
        untouched: left_alone_by_new(standing, kind),
        alone: Some(added_alone(&alone, s.next_id, kind, start)),
        asking: Some(asking),
    })
}

// What is known of a deletion.
fn known_of_deletion(
    alloc: Global,
    board: &Board,
    standing: &Standing,
    id: u32,
    is_asked: bool,
) -> Result<Known, AllocError>
    requires unspoiled { board.now.spoiled ≡ false }
    requires next { board.now.state.next_id ≤ 3999999000 }
    requires standing { IsStandingOf board.now.state standing.now }
    requires allowed { CanBeMade board.now.state (Delete id) }
    ensures known { IfOk result (λ k. IsKnownOf board.now.state k) }
    ensures alike { IfOk result (λ k. IsAlike k.first (Delete id)) }
{
    let s = board.state();
    let subtree = subtree(alloc, s, id)?;
    let steady = left_by_deletion(alloc, board, id, &subtree)?;
    let asking = deleted_if(alloc, board, &subtree, is_asked)?;
    Ok(Known {
        first: RepairMove::Delete { id },
        steady,
        window: None,
        untouched: left_alone_by_deletion(board, standing, id, &subtree),
        alone: None,
        asking,
    })
}

// What is known of a shift.
fn known_of_shift(
    alloc: Global,
    board: &Board,
    standing: &Standing,
    id: u32,
    start: u32,
    is_asked: bool,
) -> Result<Known, AllocError>
    requires unspoiled { board.now.spoiled ≡ false }
    requires next { board.now.state.next_id ≤ 3999999000 }
    requires standing { IsStandingOf board.now.state standing.now }
    requires allowed { CanBeMade board.now.state (Shift id start) }
    ensures known { IfOk result (λ k. IsKnownOf board.now.state k) }
    ensures alike { IfOk result (λ k. IsAlike k.first (Shift id start)) }
{
    let s = board.state();
    let subtree = subtree(alloc, s, id)?;
    let steady = left_by_shift(board, standing, id, &subtree);
    let untouched = left_alone_by_shift(alloc, board, standing, id, &subtree)?;
    let asking = shifted_if(alloc, board, id, &subtree, is_asked)?;
    Ok(Known {
        first: RepairMove::Shift { id, start },
        steady,
        window: window_of(s, id),
        untouched,
        alone: moved_alone(board, id, &subtree),
        asking,
    })
}

// What is known of any other move, for which nothing is looked up.
fn known_of_other(mv: &RepairMove, steady: u32) -> Known
    ensures { result ≡ only_steady mv.now steady }
{
    Known {
        first: *mv,
        steady,
        window: None,
        untouched: 0,
        alone: None,
        asking: None,
    }
}

/// What is known of a move. What a deletion or a shift asks for is worked out if that is wanted.
pub(crate) fn known_of(
    alloc: Global,
    board: &Board,
    standing: &Standing,
    mv: &RepairMove,
    is_asked: bool,
) -> Result<Known, AllocError>
    requires unspoiled { board.now.spoiled ≡ false }
    requires next { board.now.state.next_id ≤ 3999999000 }
    requires standing { IsStandingOf board.now.state standing.now }
    requires allowed { CanBeMade board.now.state mv.now }
    ensures known { IfOk result (λ k. IsKnownOf board.now.state k) }
    ensures alike { IfOk result (λ k. IsAlike k.first mv.now) }
{
    let s = board.state();
    match *mv {
        RepairMove::Add { kind, start, goal } => known_of_new(
            alloc, s, standing, kind, start, goal,
        ),
        RepairMove::Delete { id } => known_of_deletion(alloc, board, standing, id, is_asked),
        RepairMove::Shift { id, start } => known_of_shift(
            alloc, board, standing, id, start, is_asked,
        ),
        RepairMove::Assign { .. } => Ok(known_of_other(mv, standing.valueless)),
        _ => Ok(known_of_other(mv, 0)),
    }
}
