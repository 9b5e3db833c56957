ghost use Rattle.std.specs.Prelude.{◌≡◌, ◌<◌, ◌≤◌, ◌++◌, ◌∷◌, [], true, false, All, filter, take, length, IfOk, OnOk};
ghost use Rattle.pl_semantics.specs.Moves.{is_proper};
ghost use Rattle.pl_semantics.specs.Legal.{is_legal, legal_for};
ghost use Rattle.pl_choose.specs.Found.{IsProper};
ghost use Rattle.pl_choose.specs.Stretches.{IsStretch};

use crate::stretch::{Stretch, stretch_of};
use pl_board::Board;
use pl_cand::candidates;
use pl_conflict::Conflict;
use pl_moves::run_length;
use pl_plan::RepairMove;
use std::alloc::{AllocError, Global};

fn add_if_legal(
    board: &Board,
    stretch: Stretch,
    mv: &RepairMove,
    all: &mut Vec<RepairMove>,
) -> Result<(), AllocError>
    requires unspoiled { board.now.spoiled ≡ false }
    requires proper { is_proper board.now.state mv.now ≡ true }
    requires stretch { IsStretch board.now.state stretch }
    ensures { OnOk result (all.new.items ≡ all.old.items ++ filter (is_legal board.now.state) (mv.now ∷ [])) }
{
    if !stretch.is_legal(board, mv) {
        return Ok(());
    }
    all.push(*mv)?;
    Ok(())
}

// Appends those of some moves that are legal. Where all lie within the stretch, all are legal, and none is looked at.
#[tactic(auto, using(crate::proofs::Between::has_all_legal))]
fn add_legal(
    board: &Board,
    stretch: Stretch,
    moves: &[RepairMove],
    all: &mut Vec<RepairMove>,
) -> Result<(), AllocError>
    requires unspoiled { board.now.spoiled ≡ false }
    requires proper { All (IsProper board.now.state) moves.now }
    requires stretch { IsStretch board.now.state stretch }
    ensures { OnOk result (all.new.items ≡ all.old.items ++ filter (is_legal board.now.state) moves.now) }
{
    if stretch.has_all(moves) {
        all.extend_from_slice(moves)?;
        return Ok(());
    }
    for mv in moves {
        add_if_legal(board, stretch, mv, all)?;
    }
    Ok(())
}

// Takes the first move and those right after it that place the same activities at other starts, and appends those of them that are
// legal. Of many that come after the first, the first and the last of them, if both are legal, tell of those that start between
// them. Answers how many moves were taken.
#[tactic(auto, using(crate::proofs::Finding::run_kept))]
fn add_run(
    board: &Board,
    moves: &[RepairMove],
    all: &mut Vec<RepairMove>,
) -> Result<usize, AllocError>
    requires unspoiled { board.now.spoiled ≡ false }
    requires some { 0 < length moves.now }
    requires proper { All (IsProper board.now.state) moves.now }
    ensures kept { IfOk result (λ n. all.new.items ≡ all.old.items ++ filter (is_legal board.now.state) (take n moves.now)) }
    ensures some { IfOk result (λ n. 0 < n) }
    ensures few { IfOk result (λ n. n ≤ length moves.now) }
{
    let first = &moves[0];
    let rest = &moves[1..];
    let count = run_length(first, rest);
    let run = &rest[..count];
    let stretch = stretch_of(board, *first, run);
    add_if_legal(board, stretch, first, all)?;
    add_legal(board, stretch, run, all)?;
    Ok(count + 1)
}

// Those of the moves that are legal.
fn legal_among(
    alloc: Global,
    board: &Board,
    tried: &[RepairMove],
) -> Result<Vec<RepairMove>, AllocError>
    requires unspoiled { board.now.spoiled ≡ false }
    requires proper { All (IsProper board.now.state) tried.now }
    ensures { IfOk result (λ all. all.items ≡ filter (is_legal board.now.state) tried.now) }
{
    let mut all = Vec::with_capacity(alloc, tried.len())?;
    let mut done = 0;
    'runs: while done < tried.len() {
        let count = add_run(board, &tried[done..], &mut all)?;
        done += count;
    }
    Ok(all)
}

/// The legal candidates of a conflict, in their order.
#[tactic(auto, unfolding(pl_semantics::specs::Legal::legal_for))]
pub(crate) fn legal_moves(
    alloc: Global,
    board: &Board,
    conflict: &Conflict,
) -> Result<Vec<RepairMove>, AllocError>
    requires { board.now.spoiled ≡ false }
    ensures { IfOk result (λ all. all.items ≡ legal_for board.now.state conflict.now) }
{
    let tried = candidates(alloc, board, conflict)?;
    legal_among(alloc, board, tried.as_slice())
}
