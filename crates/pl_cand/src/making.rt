//! Makes what was proposed.
ghost use Rattle.std.specs.Prelude.{◌≡◌, ◌≤◌, false, true, Some, IfOk, OnOk, OnErr};
ghost use Rattle.pl_semantics.specs.Moves.{applied};
ghost use Rattle.pl_board.specs.Boards.{after};
ghost use Rattle.pl_cand.specs.Proposals.{IsProposal, mended};

use crate::proposal::Proposal;
use pl_board::Board;
use pl_points::{Quiet, Steps};
use std::alloc::{AllocError, Global};

/// Makes what was proposed. It is legal, so nothing but want of memory keeps it from being made, and that spoils the board.
pub fn make(alloc: Global, board: &mut Board, proposal: &Proposal) -> Result<(), AllocError>
    requires unspoiled { board.old.spoiled ≡ false }
    requires next_id { board.old.state.next_id ≤ 3999999000 }
    requires legal { IsProposal board.old.state (Some proposal.now) }
    ensures made { OnOk result (board.new ≡ after (applied board.old.state proposal.now.mv)) }
    ensures err { OnErr result (board.new.spoiled ≡ true) }
{
    pl_moves::make(alloc, board, &proposal.mv, &mut Steps::new(Quiet))
}

/// Makes what was proposed, if anything was, and answers it.
pub(crate) fn make_proposed(
    alloc: Global,
    board: &mut Board,
    proposed: Option<Proposal>,
) -> Result<Option<Proposal>, AllocError>
    requires unspoiled { board.old.spoiled ≡ false }
    requires next_id { board.old.state.next_id ≤ 3999999000 }
    requires legal { IsProposal board.old.state proposed }
    ensures same { IfOk result (λ p. p ≡ proposed) }
    ensures made { OnOk result (board.new ≡ mended proposed board.old) }
    ensures err { OnErr result (board.new.spoiled ≡ true) }
{
    match proposed {
        Some(proposal) => {
            make(alloc, board, &proposal)?;
            Ok(Some(proposal))
        }
        None => Ok(None),
    }
}
