//! Musts that stand and are not met.
ghost use Rattle.std.specs.Prelude.{◌≡◌, false, All, IfOk, IfSome, OnOk};
ghost use Rattle.pl_semantics.specs.Demands.{demands_of};
ghost use Rattle.pl_state.specs.Keys.{Has};
ghost use Rattle.pl_bounds.specs.UnmetMusts.{IsUnmet};

use crate::asking::asked_by;
use crate::seen::{Seen, seen_at};
use pl_board::Board;
use pl_conflict::{Code, Conflict};
use pl_semantics::{Asked, Demand};
use pl_state::{Must, Setting};
use std::alloc::{AllocError, Global};

// So many of them are listed at most: more would seldom rule out a further move.
const MOST: usize = 32;

/// A must that is not met, a moment at which it needs its state and the timeline has another one, and the last set at this moment or before
/// it, if there is one.
#[derive(Clone, Copy)]
pub(crate) struct UnmetMust {
    pub(crate) must: Must,
    pub(crate) seen: Seen,
    pub(crate) set: Option<Setting>,
}

// The must that is asked for, if it is the one that the conflict tells of. It is looked at at the conflict's first moment.
fn unmet_by(board: &Board, conflict: &Conflict, demand: &Demand) -> Option<UnmetMust>
    requires unspoiled { board.now.spoiled ≡ false }
    requires asked { Has demand.now (demands_of board.now.state) }
    ensures { IfSome result (λ u. IsUnmet board.now.state u) }
{
    let Asked::Must(must) = demand.asked else {
        return None;
    };
    if must.index != conflict.detail {
        return None;
    }
    let at = conflict.a;
    if at < must.from {
        return None;
    }
    if must.to <= at {
        return None;
    }
    let Some(seen) = seen_at(board, demand.line, at) else {
        return None;
    };
    if seen.state == must.state {
        return None;
    }
    let set = board.last_set(seen.line, seen.at);
    Some(UnmetMust { must, seen, set })
}

// Lists the must that a conflict tells of.
fn add_unmet(
    alloc: Global,
    board: &Board,
    conflict: &Conflict,
    all: &mut Vec<UnmetMust>,
) -> Result<(), AllocError>
    requires unspoiled { board.now.spoiled ≡ false }
    requires all { All (IsUnmet board.now.state) all.old.items }
    ensures { OnOk result (All (IsUnmet board.now.state) all.new.items) }
{
    let asked = asked_by(alloc, board, &[conflict.subject])?;
    for demand in asked.as_slice() {
        if let Some(unmet) = unmet_by(board, conflict, demand) {
            all.push(unmet)?;
        }
    }
    Ok(())
}

fn is_wanted(conflict: &Conflict, all: &[UnmetMust]) -> bool {
    conflict.code == Code::Must && all.len() < MOST
}

/// The musts that conflicts tell of, the first ones if there are many.
pub(crate) fn unmet_musts(alloc: Global, board: &Board) -> Result<Vec<UnmetMust>, AllocError>
    requires { board.now.spoiled ≡ false }
    ensures { IfOk result (λ us. All (IsUnmet board.now.state) us.items) }
{
    let mut all = Vec::new(alloc);
    for conflict in board.conflicts().iter() {
        if is_wanted(conflict, all.as_slice()) {
            add_unmet(alloc, board, conflict, &mut all)?;
        }
    }
    Ok(all)
}
