//! What moves that place the same activities ask for in place of what they take out, and which musts are unmet without that.
ghost use Rattle.std.specs.Prelude.{◌≡◌, ◌≤◌, false, All, IfOk, IfSome};
ghost use Rattle.pl_moves.specs.Runs.{CanBeMade};
ghost use Rattle.pl_plan.specs.declared.repair.RepairMove.TheVariants.{Add, Delete, Shift};
ghost use Rattle.pl_bounds.specs.Askings.{IsAskingOf};
ghost use Rattle.pl_bounds.specs.UnmetMusts.{IsExchangeOf, IsUnmet};

use crate::asking::{Asking, added, deleted, shifted};
use crate::left_unmet::left_by;
use crate::roots::root_alone;
use crate::subtrees::subtree;
use crate::unmet_musts::UnmetMust;
use pl_board::Board;
use pl_plan::RepairMove;
use std::alloc::{AllocError, Global};

/// What a move, and each that places the same activities at another start, asks for in place of what it takes out; and the unmet musts that
/// are unmet without what goes.
#[derive(Drop)]
pub(crate) struct Exchange {
    pub(crate) first: RepairMove,
    pub(crate) asking: Asking,
    pub(crate) left: Vec<UnmetMust>,
}

// What the addition of a root asks for.
fn asking_of_new(
    alloc: Global,
    board: &Board,
    kind: u32,
    start: u32,
    goal: Option<u32>,
) -> Result<Option<Asking>, AllocError>
    requires unspoiled { board.now.spoiled ≡ false }
    requires next { board.now.state.next_id ≤ 3999999000 }
    requires allowed { CanBeMade board.now.state (Add kind start goal) }
    ensures { IfOk result (λ o. IfSome o (λ a. IsAskingOf board.now.state (Add kind start goal) a)) }
{
    let alone = root_alone(alloc, board.state(), kind, start, goal)?;
    let asking = added(alloc, &alone, start)?;
    Ok(Some(asking))
}

// What a deletion asks for.
fn asking_of_deletion(alloc: Global, board: &Board, id: u32) -> Result<Option<Asking>, AllocError>
    requires unspoiled { board.now.spoiled ≡ false }
    requires allowed { CanBeMade board.now.state (Delete id) }
    ensures { IfOk result (λ o. IfSome o (λ a. IsAskingOf board.now.state (Delete id) a)) }
{
    let ids = subtree(alloc, board.state(), id)?;
    let asking = deleted(alloc, board, &ids)?;
    Ok(Some(asking))
}

// What a shift asks for.
fn asking_of_shift(
    alloc: Global,
    board: &Board,
    id: u32,
    start: u32,
) -> Result<Option<Asking>, AllocError>
    requires unspoiled { board.now.spoiled ≡ false }
    requires next { board.now.state.next_id ≤ 3999999000 }
    requires allowed { CanBeMade board.now.state (Shift id start) }
    ensures { IfOk result (λ o. IfSome o (λ a. IsAskingOf board.now.state (Shift id start) a)) }
{
    let ids = subtree(alloc, board.state(), id)?;
    let asking = shifted(alloc, board, id, &ids)?;
    Ok(Some(asking))
}

// What an addition, a deletion or a shift asks for.
fn asking_of(alloc: Global, board: &Board, mv: &RepairMove) -> Result<Option<Asking>, AllocError>
    requires unspoiled { board.now.spoiled ≡ false }
    requires next { board.now.state.next_id ≤ 3999999000 }
    requires allowed { CanBeMade board.now.state mv.now }
    ensures { IfOk result (λ o. IfSome o (λ a. IsAskingOf board.now.state mv.now a)) }
{
    match *mv {
        RepairMove::Add { kind, start, goal } => asking_of_new(alloc, board, kind, start, goal),
        RepairMove::Delete { id } => asking_of_deletion(alloc, board, id),
        RepairMove::Shift { id, start } => asking_of_shift(alloc, board, id, start),
        _ => Ok(None),
    }
}

// With the unmet musts that are unmet without what goes.
fn exchange_by(
    alloc: Global,
    board: &Board,
    first: &RepairMove,
    asking: Asking,
    unmet: &[UnmetMust],
) -> Result<Option<Exchange>, AllocError>
    requires unspoiled { board.now.spoiled ≡ false }
    requires asking { IsAskingOf board.now.state first.now asking }
    requires unmet { All (IsUnmet board.now.state) unmet.now }
    ensures { IfOk result (λ o. IfSome o (λ x. IsExchangeOf board.now.state x)) }
{
    let left = left_by(alloc, board, asking.going.as_slice(), unmet)?;
    Ok(Some(Exchange {
        first: *first,
        asking,
        left,
    }))
}

/// What is known of an addition, a deletion or a shift, given musts that are not met.
pub(crate) fn exchange_of(
    alloc: Global,
    board: &Board,
    first: &RepairMove,
    unmet: &[UnmetMust],
) -> Result<Option<Exchange>, AllocError>
    requires unspoiled { board.now.spoiled ≡ false }
    requires next { board.now.state.next_id ≤ 3999999000 }
    requires allowed { CanBeMade board.now.state first.now }
    requires unmet { All (IsUnmet board.now.state) unmet.now }
    ensures exchange { IfOk result (λ o. IfSome o (λ x. IsExchangeOf board.now.state x)) }
{
    match asking_of(alloc, board, first)? {
        Some(asking) => exchange_by(alloc, board, first, asking, unmet),
        None => Ok(None),
    }
}
