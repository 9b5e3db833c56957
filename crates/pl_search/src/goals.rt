//! The order in which open goals are served.
ghost use Rattle.std.specs.Prelude.{◌≡◌, false};

use crate::look::is_open_goal;
use pl_board::Board;
use pl_conflict::Conflict;
use pl_facts::Goal;
use std::alloc::{AllocError, Global};

/// A number greater than the width of any window.
const BEHIND: u64 = 1_000_000_000_000;

/// The conflict of an open goal, and its place in the order.
#[derive(Clone, Copy)]
struct Wanted {
    conflict: Conflict,
    rank: (u64, u32),
}

// How wide the rest of a goal's window is.
fn width_of(goal: &Goal, floor: u32) -> u64 {
    u64::from(goal.latest.saturating_sub(goal.earliest.max(floor)))
}

// Goals that must be served come first, and among these and the others the one of the narrowest window.
fn rank_of(goal: &Goal, floor: u32) -> (u64, u32) {
    let width = width_of(goal, floor);
    let rank = if goal.must {
        width
    } else {
        width.saturating_add(BEHIND)
    };
    (rank, goal.number)
}

// The open goals, in the order of their conflicts.
fn open_ones(alloc: Global, board: &Board) -> Result<Vec<Wanted>, AllocError>
    requires { board.now.spoiled ≡ false }
{
    let floor = board.floor();
    let mut all = Vec::new(alloc);
    for conflict in board.conflicts().iter() {
        if is_open_goal(conflict) {
            if let Some(goal) = board.goals().get(conflict.subject) {
                all.push(Wanted {
                    conflict: *conflict,
                    rank: rank_of(goal, floor),
                })?;
            }
        }
    }
    Ok(all)
}

/// The conflicts of open goals, in the order in which these are to be served.
pub(crate) fn open_goals(alloc: Global, board: &Board) -> Result<Vec<Conflict>, AllocError>
    requires { board.now.spoiled ≡ false }
{
    let mut all = open_ones(alloc, board)?;
    all.sort_by_key(|wanted| wanted.rank)?;
    let mut conflicts = Vec::new(alloc);
    for wanted in all.as_slice() {
        conflicts.push(wanted.conflict)?;
    }
    Ok(conflicts)
}
