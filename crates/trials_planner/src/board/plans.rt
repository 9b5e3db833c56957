//! What is asked of the plan of a board, and of a copy of it.
use crate::asserting::is_printed;
use crate::reading::{number, sides, word};
use pl_board::Board;
use pl_entry::due;
use pl_lists::Copied;
use pl_plan::Plan;
use std::alloc::Global;

/// Whether a live activity has these values, is firm or not, and has this end.
pub fn is_evaluated(alloc: Global, board: &Board, row: &str) -> Option<bool> {
    let (id, wanted) = sides(row);
    let id = id.parse().unwrap_or(0);
    let state = board.state();
    if board.spoiled() || state.plan.get(id).is_none() {
        return None;
    }
    let firm = state.plan.firm(state.model.get(), id);
    let values = state.plan.values(alloc, state.model.get(), id).ok()?;
    let found = state.plan.evaluate(alloc, state.model.get(), id).ok()?;
    let (values, end) = (values.as_slice(), found.end);
    if found.values.as_slice() == values {
        is_printed(format!(in alloc; "{values:?} {firm} {end:?}"), wanted)
    } else {
        Some(false)
    }
}

/// Whether a live activity has these children, these below it and itself, and this root.
pub fn is_in_tree(alloc: Global, board: &Board, row: &str) -> Option<bool> {
    let (id, wanted) = sides(row);
    let id = id.parse().unwrap_or(0);
    let state = board.state();
    if board.spoiled() || state.plan.get(id).is_none() {
        return None;
    }
    let children = state.plan.children(alloc, id).ok()?;
    let subtree = state.plan.subtree(alloc, id).ok()?;
    let root = state.plan.root(id);
    is_printed(format!(in alloc; "{children:?} {subtree:?} {root}"), wanted)
}

/// Whether these are due at a moment, if so much is committed.
pub fn is_due(alloc: Global, board: &Board, row: &str) -> Option<bool> {
    let (asked, wanted) = sides(row);
    let mut rest = asked;
    let now = number(&mut rest);
    let committed = number(&mut rest);
    let state = board.state();
    if board.spoiled() {
        return None;
    }
    let ids = due(alloc, state.model.get(), &state.plan, now, committed).ok()?;
    is_printed(format!(in alloc; "{ids:?}"), wanted)
}

/// Tells the end of an activity, and answers what is known of it then.
fn tell_end(plan: &mut Plan, id: u32, moment: u32) -> Option<u32> {
    plan.get(id)?;
    plan.set_end(id, moment);
    plan.measured(id)
}

/// Takes an activity out and puts it in again, and answers how many there are then.
fn put_again(plan: &mut Plan, id: u32) -> Option<u32> {
    let activity = plan.take(id)?;
    if plan.get(activity.id).is_some() {
        return None;
    }
    plan.put(activity).ok()?;
    Some(plan.len())
}

/// What a call answers.
fn answer(plan: &mut Plan, call: &str) -> Option<u32> {
    let mut rest = call;
    let name = word(&mut rest);
    let id = number(&mut rest);
    match name {
        "id-at" => Some(plan.nth(id)?.id),
        "start-of" => Some(plan.get(id)?.start),
        "tell-end" => tell_end(plan, id, number(&mut rest)),
        "measured" => plan.measured(id),
        "take" => Some(plan.take(id)?.start),
        "put-again" => put_again(plan, id),
        _ => Some(plan.len()),
    }
}

/// Whether the calls of a copy have these answers, one after the other; `;` parts them.
pub fn is_said_of_copy(alloc: Global, board: &Board, row: &str) -> Option<bool> {
    let mut copy = board.plan().copy(alloc).ok()?;
    for line in row.split(';') {
        let (call, wanted) = line.split_once(" = ").unwrap_or((line, ""));
        if answer(&mut copy, call) != wanted.parse().ok() {
            return Some(false);
        }
    }
    Some(true)
}
