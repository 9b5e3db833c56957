//! A root for a goal, and the repairs of the conflicts that it brings.
ghost use Rattle.std.specs.Prelude.{◌≡◌, false, OnOk};

use crate::beam::{Aim, Ended};
use crate::expanding::Branch;
use crate::look::Look;
use crate::mending::mend;
use crate::node::Node;
use crate::tries::Tries;
use pl_board::Board;
use pl_cand::candidates;
use pl_conflict::Conflict;
use pl_plan::RepairMove;
use std::alloc::{AllocError, Global};

/// Whether a move adds a root.
pub(crate) fn is_addition(mv: &RepairMove) -> bool {
    matches!(mv, RepairMove::Add { .. })
}

// The additions among the candidates of a conflict.
fn additions(
    alloc: Global,
    board: &Board,
    conflict: &Conflict,
) -> Result<Vec<RepairMove>, AllocError>
    requires { board.now.spoiled ≡ false }
{
    let moves = candidates(alloc, board, conflict)?;
    let mut roots = Vec::new(alloc);
    for mv in moves.as_slice() {
        if is_addition(mv) {
            roots.push(*mv)?;
        }
    }
    Ok(roots)
}

// The plans that the steps from one plan lead to.
fn nodes_of_steps(tries: &Tries, look: Look) -> Result<Vec<Node>, AllocError> {
    let start = Node::start(tries.alloc, look);
    let mut nodes = Vec::new(tries.alloc);
    for step in tries.found.as_slice() {
        nodes.push(start.behind(tries.alloc, step)?)?;
    }
    Ok(nodes)
}

fn has_enough(tries: &Tries, enough: u32) -> bool {
    tries
        .found
        .as_slice()
        .iter()
        .any(|step| step.look.hard <= enough)
}

// Tries roots for the goal of a conflict: first the first one alone, since it often is good enough, and if it is not, the others.
fn try_roots(
    tries: &mut Tries,
    board: &mut Board,
    branch: &Branch,
    conflict: &Conflict,
    roots: &[RepairMove],
    enough: u32,
) -> Result<(), AllocError>
    requires { board.old.spoiled ≡ false }
    ensures { OnOk result (board.new ≡ board.old) }
{
    let first = roots.len().min(1);
    let _count = tries.try_moves(board, branch, conflict, &roots[..first])?;
    if has_enough(tries, enough) {
        return Ok(());
    }
    let _count = tries.try_moves(board, branch, conflict, &roots[first..])?;
    Ok(())
}

// The plans with a root for the goal of a conflict, for the starts that are tried.
fn with_roots(
    tries: &mut Tries,
    board: &mut Board,
    look: Look,
    conflict: &Conflict,
    aim: &Aim,
) -> Result<Vec<Node>, AllocError>
    requires { board.old.spoiled ≡ false }
    ensures { OnOk result (board.new ≡ board.old) }
{
    let branch = Branch {
        from: 0,
        look,
        conflicts: 1,
        giving_up: aim.giving_up,
    };
    tries.forget();
    let roots = additions(tries.alloc, board, conflict)?;
    try_roots(
        tries,
        board,
        &branch,
        conflict,
        roots.as_slice(),
        aim.enough,
    )?;
    nodes_of_steps(tries, look)
}

/// Looks for a plan in which the goal of a conflict is served, and no more conflicts stand than before.
pub(crate) fn insert(
    tries: &mut Tries,
    board: &mut Board,
    look: Look,
    conflict: &Conflict,
    aim: &Aim,
) -> Result<Option<Node>, AllocError>
    requires { board.old.spoiled ≡ false }
    ensures { OnOk result (board.new ≡ board.old) }
{
    if aim.repairs == 0 {
        return Ok(None);
    }
    let from = with_roots(tries, board, look, conflict, aim)?;
    match mend(tries, board, from.as_slice(), aim)? {
        Ended::Found(node) => Ok(Some(node)),
        Ended::Best(_) => Ok(None),
    }
}
