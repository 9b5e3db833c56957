//! Whether something that was found may be proposed: it is looked up among what may be.
ghost use Rattle.std.specs.Prelude.{◌≡◌, false, true, IfOk, IfSome, Some, All, Contains};
ghost use Rattle.pl_semantics.specs.Moves.{is_proper};
ghost use Rattle.pl_semantics.specs.Legal.{is_legal, legal_for};
ghost use Rattle.pl_cand.specs.Proposals.{IsProposal};

use pl_board::Board;
use pl_cand::{Proposal, candidates};
use pl_conflict::Conflict;
use pl_moves::is_legal;
use pl_plan::RepairMove;
use std::alloc::{AllocError, Global};

fn legal_among(board: &Board, moves: &[RepairMove], wanted: &RepairMove) -> Option<RepairMove>
    requires unspoiled { board.now.spoiled ≡ false }
    requires proper { All (λ m. is_proper board.now.state m ≡ true) moves.now }
    ensures { IfSome result (λ m. Contains moves.now m × (is_legal board.now.state m ≡ true)) }
{
    for mv in moves {
        if mv == wanted && is_legal(board, mv) {
            return Some(*mv);
        }
    }
    None
}

fn legal_for(
    alloc: Global,
    board: &Board,
    conflict: &Conflict,
    wanted: &RepairMove,
) -> Result<Option<RepairMove>, AllocError>
    requires { board.now.spoiled ≡ false }
    ensures { IfOk result (λ o. IfSome o (λ m. Contains (legal_for board.now.state conflict.now) m)) }
{
    let moves = candidates(alloc, board, conflict)?;
    Ok(legal_among(board, moves.as_slice(), wanted))
}

/// The proposal, if its conflict stands and its move is a legal candidate of it.
pub(crate) fn confirm(
    alloc: Global,
    board: &Board,
    wanted: &Proposal,
) -> Result<Option<Proposal>, AllocError>
    requires { board.now.spoiled ≡ false }
    ensures { IfOk result (λ o. IfSome o (λ p. IsProposal board.now.state (Some p))) }
{
    let all = board.conflicts().list(alloc)?;
    for conflict in all.as_slice() {
        if *conflict == wanted.conflict {
            if let Some(mv) = legal_for(alloc, board, conflict, &wanted.mv)? {
                return Ok(Some(Proposal {
                    conflict: *conflict,
                    mv,
                }));
            }
        }
    }
    Ok(None)
}
