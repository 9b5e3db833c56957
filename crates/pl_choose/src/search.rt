ghost use Rattle.std.specs.Prelude.{◌≡◌, ◌∷◌, [], ◌++◌, false, filter, IfOk, OnOk};
ghost use Rattle.pl_semantics.specs.Legal.{has_repair, repairable};
ghost use Rattle.pl_choose.specs.Found.{AreFor, AreFirst};

use crate::legality::legal_moves;
use crate::repairs::Repairs;
use pl_board::Board;
use pl_conflict::Conflict;
use std::alloc::{AllocError, Global};

fn repairs_for(
    alloc: Global,
    board: &Board,
    conflict: &Conflict,
) -> Result<Option<Repairs>, AllocError>
    requires { board.now.spoiled ≡ false }
    ensures { IfOk result (AreFor board.now.state conflict.now) }
{
    let moves = legal_moves(alloc, board, conflict)?;
    if moves.is_empty() {
        return Ok(None);
    }
    Ok(Some(Repairs {
        conflict: *conflict,
        moves,
    }))
}

/// The first conflict that has a legal candidate, with all its legal candidates.
pub(crate) fn first_repairs(alloc: Global, board: &Board) -> Result<Option<Repairs>, AllocError>
    requires { board.now.spoiled ≡ false }
    ensures { IfOk result (AreFirst board.now.state) }
{
    for conflict in board.conflicts().iter() {
        if let Some(repairs) = repairs_for(alloc, board, conflict)? {
            return Ok(Some(repairs));
        }
    }
    Ok(None)
}

fn has_repair(alloc: Global, board: &Board, conflict: &Conflict) -> Result<bool, AllocError>
    requires { board.now.spoiled ≡ false }
    ensures { IfOk result (λ has. has ≡ has_repair board.now.state conflict.now) }
{
    match repairs_for(alloc, board, conflict)? {
        Some(_) => Ok(true),
        None => Ok(false),
    }
}

fn add_if_repairable(
    alloc: Global,
    board: &Board,
    conflict: &Conflict,
    all: &mut Vec<Conflict>,
) -> Result<(), AllocError>
    requires { board.now.spoiled ≡ false }
    ensures { OnOk result (all.new.items ≡ all.old.items ++ filter (has_repair board.now.state) (conflict.now ∷ [])) }
{
    if !has_repair(alloc, board, conflict)? {
        return Ok(());
    }
    all.push(*conflict)?;
    Ok(())
}

/// The conflicts that have a legal candidate, in their order.
#[tactic(auto, unfolding(pl_semantics::specs::Legal::repairable))]
pub(crate) fn repairable(alloc: Global, board: &Board) -> Result<Vec<Conflict>, AllocError>
    requires { board.now.spoiled ≡ false }
    ensures { IfOk result (λ all. all.items ≡ repairable board.now.state) }
{
    let mut all = Vec::new(alloc);
    for conflict in board.conflicts().iter() {
        add_if_repairable(alloc, board, conflict, &mut all)?;
    }
    Ok(all)
}
