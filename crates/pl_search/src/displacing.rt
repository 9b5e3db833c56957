//! Goals for which no way was found are tried again, and other goals may give way to them.
ghost use Rattle.std.specs.Prelude.{◌≡◌, false, OnOk};

use crate::branching::GivingUp;
use crate::draft::Draft;
use crate::failures::Failures;
use crate::goals::open_goals;
use crate::node::Node;
use crate::tries::Tries;
use pl_board::Board;
use pl_conflict::Conflict;
use std::alloc::{AllocError, Global};

// The goals that are open in this plan and were served before.
fn displaced(alloc: Global, plan: &Board, before: &Board) -> Result<Vec<Conflict>, AllocError>
    requires { plan.now.spoiled ≡ false }
{
    let open = open_goals(alloc, plan)?;
    let mut goals = Vec::new(alloc);
    for conflict in open.as_slice() {
        if !before.conflicts().has(conflict) {
            goals.push(*conflict)?;
        }
    }
    Ok(goals)
}

// Makes some repairs of a plan. Then serves as many as it can of the goals that gave way by these.
fn serve_again(
    tries: &mut Tries,
    failures: &Failures,
    before: &Board,
    other: &mut Draft,
    way: &Node,
) -> Result<(), AllocError>
    requires { other.old.board.spoiled ≡ false }
    ensures { OnOk result (other.new.board.spoiled ≡ false) }
{
    other.follow(tries.alloc, way)?;
    let goals = displaced(tries.alloc, &other.board, before)?;
    other.serve(tries, failures, goals.as_slice())?;
    Ok(())
}

// Goes on with the other plan where it serves more goals.
fn take_better(draft: &mut Draft, other: &mut Draft)
    requires plan { draft.old.board.spoiled ≡ false }
    requires other { other.old.board.spoiled ≡ false }
    ensures { draft.new.board.spoiled ≡ false }
{
    if other.look.unserved < draft.look.unserved {
        std::mem::swap(draft, other);
    }
}

fn serve_and_take(
    tries: &mut Tries,
    failures: &Failures,
    draft: &mut Draft,
    other: &mut Draft,
    way: &Node,
) -> Result<(), AllocError>
    requires plan { draft.old.board.spoiled ≡ false }
    requires other { other.old.board.spoiled ≡ false }
    ensures { OnOk result (draft.new.board.spoiled ≡ false) }
{
    serve_again(tries, failures, &draft.board, other, way)?;
    take_better(draft, other);
    Ok(())
}

// Makes these repairs on a copy of the plan, and goes on with the copy if more goals are served there.
fn try_way(
    tries: &mut Tries,
    failures: &Failures,
    draft: &mut Draft,
    way: &Node,
) -> Result<(), AllocError>
    requires { draft.old.board.spoiled ≡ false }
    ensures { OnOk result (draft.new.board.spoiled ≡ false) }
{
    let mut other = draft.copy(tries.alloc)?;
    serve_and_take(tries, failures, draft, &mut other, way)
}

// Serves the goal of a conflict while others may give way, if more goals are served then.
fn displace_for(
    tries: &mut Tries,
    failures: &Failures,
    draft: &mut Draft,
    conflict: &Conflict,
) -> Result<(), AllocError>
    requires { draft.old.board.spoiled ≡ false }
    ensures { OnOk result (draft.new.board.spoiled ≡ false) }
{
    let giving_up = GivingUp::AllBut(conflict.subject);
    match draft.way_to_serve(tries, failures, conflict, giving_up)? {
        Some(way) => try_way(tries, failures, draft, &way),
        None => Ok(()),
    }
}

/// Tries each of these goals again, and keeps the plan that comes of it if more goals are served there.
pub(crate) fn displace(
    tries: &mut Tries,
    failures: &Failures,
    draft: &mut Draft,
    failed: &[Conflict],
) -> Result<(), AllocError>
    requires { draft.old.board.spoiled ≡ false }
    ensures { OnOk result (draft.new.board.spoiled ≡ false) }
{
    for conflict in failed {
        displace_for(tries, failures, draft, conflict)?;
    }
    Ok(())
}
