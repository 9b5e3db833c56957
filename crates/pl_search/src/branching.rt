//! Which conflicts of a plan a search mends next, and which moves it leaves out.

use crate::look::is_open_goal;
use pl_board::Board;
use pl_conflict::{Code, Conflict, ConflictSet};
use pl_plan::RepairMove;
use std::alloc::{AllocError, Global};

/// Which goals may lose the activity that serves them.
#[derive(Clone, Copy)]
pub(crate) enum GivingUp {
    /// None may.
    Nothing,
    /// Any may.
    Any,
    /// Any may but the one of this number.
    AllBut(u32),
}

// Whether the conflict is one of an activity that is not complete. Such an activity does not ask for all that it will ask for, so
// until it is complete the other conflicts say little about the plan.
fn is_of_structure(conflict: &Conflict) -> bool {
    matches!(
        conflict.code,
        Code::Unset | Code::BadValue | Code::Undetailed
    )
}

fn first_of_structure(all: &ConflictSet) -> Option<Conflict> {
    for conflict in all.iter() {
        if is_of_structure(conflict) {
            return Some(*conflict);
        }
    }
    None
}

/// All conflicts but open goals, in order.
pub(crate) fn hard_conflicts(
    alloc: Global,
    all: &ConflictSet,
) -> Result<Vec<Conflict>, AllocError> {
    let mut hard = Vec::new(alloc);
    for conflict in all.iter() {
        if !is_open_goal(conflict) {
            hard.push(*conflict)?;
        }
    }
    Ok(hard)
}

/// The conflicts that may be mended next, in order: the first one of an activity that is not complete. If there is none, all but
/// open goals.
pub(crate) fn to_mend(alloc: Global, all: &ConflictSet) -> Result<Vec<Conflict>, AllocError> {
    match first_of_structure(all) {
        Some(conflict) => {
            let mut one = Vec::new(alloc);
            one.push(conflict)?;
            Ok(one)
        }
        None => hard_conflicts(alloc, all),
    }
}

// The goal of an activity.
fn goal_of(board: &Board, id: u32) -> Option<u32> {
    match board.plan().get(id) {
        Some(activity) => activity.goal,
        None => None,
    }
}

// The goal that a move may leave unserved.
fn lost_goal(board: &Board, mv: &RepairMove) -> Option<u32> {
    match *mv {
        RepairMove::Delete { id } => goal_of(board, id),
        _ => None,
    }
}

fn may_lose(goal: u32, giving_up: GivingUp) -> bool {
    match giving_up {
        GivingUp::Nothing => false,
        GivingUp::Any => true,
        GivingUp::AllBut(kept) => goal != kept,
    }
}

/// Whether a move leaves those goals served that may not be given up.
pub(crate) fn spares(board: &Board, mv: &RepairMove, giving_up: GivingUp) -> bool {
    match lost_goal(board, mv) {
        None => true,
        Some(goal) => may_lose(goal, giving_up),
    }
}
