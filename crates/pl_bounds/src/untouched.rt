//! How many of the conflicts of links that stand a move does not touch. A temporal link still finds no partner if its activity neither
//! goes nor moves, and no activity of the kind that it seeks is placed. An order is still not met if its activity neither goes nor moves,
//! and is not the parent of what goes or moves.
ghost use Rattle.std.specs.Prelude.{◌≡◌, ◌≤◌, ◌∷◌, ◌++◌, [], false, None, filter, length, IfOk, OnOk};
ghost use Rattle.pl_plan.specs.Index.{is_number};
ghost use Rattle.pl_plan.specs.Trees.{parent_of, subtree_of};
ghost use Rattle.pl_semantics.specs.PlanStates.{found, of_found};
ghost use Rattle.pl_semantics.specs.declared.plan_state.PlanState.{PlanState};
ghost use Rattle.pl_bounds.specs.Remaining.{count_of_untouched, is_left, kind_alone, kinds_of, IsLeftByShifting};
ghost use Rattle.pl_bounds.specs.Standing.{IsStandingOf};

use crate::elsewhere::is_among;
use crate::link_conflicts::LinkConflict;
use crate::standing::{Standing, count_if};
use pl_board::Board;
use std::alloc::{AllocError, Global};

// Whether there is a parent, and it has this id.
fn is_number(id: u32, parent: Option<u32>) -> bool
    ensures { result ≡ is_number id parent }
{
    match parent {
        Some(other) => other == id,
        None => false,
    }
}

// Whether a conflict is left by a move that takes out the activities of these ids and places some of these kinds. `parent` is the parent
// of the uppermost of these activities, if it has one.
fn is_left(one: LinkConflict, gone: &[u32], kinds: &[u32], parent: Option<u32>) -> bool
    ensures { result ≡ is_left gone.now kinds.now parent one }
{
    if is_among(one.subject, gone) {
        return false;
    }
    match one.sought {
        Some(kind) => !is_among(kind, kinds),
        None => !is_number(one.subject, parent),
    }
}

/// How many of these conflicts a move leaves that takes out the activities of these ids and places some of these kinds. `parent` is the parent of the
/// uppermost of these activities, if it has one.
pub(crate) fn count_left(
    links: &[LinkConflict],
    gone: &[u32],
    kinds: &[u32],
    parent: Option<u32>,
) -> u32
    ensures { result ≤ length (filter (is_left gone.now kinds.now parent) links.now) }
{
    let mut count = 0;
    for one in links {
        count = count_if(is_left(*one, gone, kinds, parent), count);
    }
    count
}

fn parent_of(board: &Board, id: u32) -> Option<u32>
    ensures { result ≡ parent_of id board.now.state.plan.activities }
{
    let a = board.plan().get(id)?;
    let (parent, _) = a.parent?;
    Some(parent)
}

// Appends the kind of the activity of this id, if it is live.
fn add_kind(board: &Board, id: u32, kinds: &mut Vec<u32>) -> Result<(), AllocError>
    ensures { OnOk result (kinds.new.items ≡ kinds.old.items ++ of_found kind_alone (found board.now.state id)) }
{
    match board.plan().get(id) {
        Some(a) => Ok(kinds.push(a.kind)?),
        None => Ok(()),
    }
}

// The kinds of the activities of these ids.
fn kinds_of(alloc: Global, board: &Board, ids: &[u32]) -> Result<Vec<u32>, AllocError>
    ensures { IfOk result (λ kinds. kinds.items ≡ kinds_of board.now.state ids.now) }
{
    let mut kinds = Vec::new(alloc);
    for id in ids {
        add_kind(board, *id, &mut kinds)?;
    }
    Ok(kinds)
}

/// How many of these conflicts the addition of a root of this kind leaves.
pub(crate) fn left_alone_by_new(standing: &Standing, kind: u32) -> u32
    ensures { (s : PlanState) → IsStandingOf s standing.now → result ≤ count_of_untouched s [] (kind ∷ []) None }
{
    count_left(standing.links.as_slice(), &[], &[kind], None)
}

/// How many of them a deletion leaves, given the ids of the subtree that goes.
pub(crate) fn left_alone_by_deletion(
    board: &Board,
    standing: &Standing,
    id: u32,
    subtree: &[u32],
) -> u32
    requires standing { IsStandingOf board.now.state standing.now }
    requires subtree { subtree.now ≡ subtree_of id board.now.state.plan.activities }
    ensures { result ≤ count_of_untouched board.now.state (subtree_of id board.now.state.plan.activities) [] (parent_of id board.now.state.plan.activities) }
{
    let parent = parent_of(board, id);
    count_left(standing.links.as_slice(), subtree, &[], parent)
}

/// How many of them a shift leaves, given the ids of the subtree that moves.
pub(crate) fn left_alone_by_shift(
    alloc: Global,
    board: &Board,
    standing: &Standing,
    id: u32,
    subtree: &[u32],
) -> Result<u32, AllocError>
    requires standing { IsStandingOf board.now.state standing.now }
    requires subtree { subtree.now ≡ subtree_of id board.now.state.plan.activities }
    ensures { IfOk result (λ n. IsLeftByShifting board.now.state id n) }
{
    if standing.links.is_empty() {
        return Ok(0);
    }
    let kinds = kinds_of(alloc, board, subtree)?;
    let parent = parent_of(board, id);
    let left = count_left(standing.links.as_slice(), subtree, kinds.as_slice(), parent);
    Ok(left)
}
