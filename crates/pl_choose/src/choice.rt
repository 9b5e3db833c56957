//! The moves that choose an alternative of one activity, and the one that deletes it. Mostly the alternatives are known to leave more
//! conflicts than stand, and the deletion leaves as many. So the moves that are known to leave more are left out at first.
ghost use Rattle.std.specs.Prelude.{◌≡◌, ◌<◌, ◌≤◌, false, true, All, IfOk, OnErr, Some, length, map};
ghost use Rattle.pl_moves.specs.Changes.{IsOfActivities};
ghost use Rattle.pl_choose.specs.Choice.{IsFewestBelow, IsPickedIf};
ghost use Rattle.pl_choose.specs.Found.{IsAllowed};
ghost use Rattle.pl_choose.specs.Picks.{fewest};
ghost use Rattle.pl_choose.specs.Stages.{IsStage, move_of};

use crate::best::Best;
use crate::hopes::hopes_of;
use crate::in_turn::pick_if_below;
use crate::picked::Picked;
use crate::purpose::Purpose;
use crate::stages::{Stage, stages_of, take_out};
use crate::want::or_spoil;
use pl_board::Board;
use pl_bounds::least_of_choices;
use pl_plan::RepairMove;
use std::alloc::{AllocError, Global};

fn is_choice(mv: &RepairMove) -> bool
    ensures { result ≡ true → IsOfActivities mv.now }
{
    match *mv {
        RepairMove::Detail { .. } => true,
        RepairMove::Delete { .. } => true,
        _ => false,
    }
}

// Whether each of the moves chooses an alternative or deletes.
fn are_choices(moves: &[RepairMove]) -> bool
    ensures { result ≡ true → All IsOfActivities moves.now }
{
    moves.iter().all(|mv| is_choice(mv))
}

// The best of the moves, given what each changes, if all take out the same activities and it leaves fewer conflicts than this number.
fn pick_of_stages(
    alloc: Global,
    board: &mut Board,
    stages: Vec<Stage>,
    fewer: usize,
    purpose: Purpose,
) -> Result<Option<Picked>, AllocError>
    requires unspoiled { board.old.spoiled ≡ false }
    requires some { 0 < length stages.items }
    requires stages { All (IsStage board.old.state) stages.items }
    ensures picked { IfOk result (λ p. IsPickedIf purpose (IsFewestBelow board.old.state (map move_of stages.items) (Some fewer)) board.old p board.new) }
    ensures err { OnErr result (board.new.spoiled ≡ true) }
{
    if take_out(&stages[0].trial.change.gone, &stages) {
        return pick_if_below(alloc, board, stages, Some(fewer), purpose);
    }
    Ok(None)
}

// The best of the moves, if they are such choices and it leaves fewer conflicts than this number.
fn pick_of_hopes(
    alloc: Global,
    board: &mut Board,
    hopes: &[RepairMove],
    fewer: usize,
    purpose: Purpose,
) -> Result<Option<Picked>, AllocError>
    requires unspoiled { board.old.spoiled ≡ false }
    requires next { board.old.state.next_id ≤ 3999999000 }
    requires allowed { All (IsAllowed board.old.state) hopes.now }
    ensures picked { IfOk result (λ p. IsPickedIf purpose (IsFewestBelow board.old.state hopes.now (Some fewer)) board.old p board.new) }
    ensures err { OnErr result (board.new.spoiled ≡ true) }
{
    let Some((first, rest)) = hopes.split_first() else {
        return Ok(None);
    };
    if !are_choices(hopes) {
        return Ok(None);
    }
    let staged = stages_of(alloc, board.state(), first, rest);
    let stages = or_spoil(board, staged)?;
    pick_of_stages(alloc, board, stages, fewer, purpose)
}

/// The best of some moves, if it is found among those that are not known to leave more conflicts than stand. Otherwise nothing is picked.
pub(crate) fn pick_of_hopeful(
    alloc: Global,
    board: &mut Board,
    moves: &[RepairMove],
    purpose: Purpose,
) -> Result<Option<Picked>, AllocError>
    requires unspoiled { board.old.spoiled ≡ false }
    requires next { board.old.state.next_id ≤ 3999999000 }
    requires allowed { All (IsAllowed board.old.state) moves.now }
    ensures picked { IfOk result (λ p. IsPickedIf purpose (λ m. fewest board.old.state moves.now ≡ Some m) board.old p board.new) }
    ensures err { OnErr result (board.new.spoiled ≡ true) }
{
    let Some(any) = moves.first() else {
        return Ok(None);
    };
    let told = least_of_choices(alloc, board, moves);
    let bounds = or_spoil(board, told)?;
    let best = Best {
        mv: *any,
        left: board.conflicts().len() as usize + 1,
    };
    let hopes = hopes_of(alloc, board, best, moves, &bounds)?;
    pick_of_hopes(alloc, board, &hopes.moves, best.left, purpose)
}
