ghost use Rattle.std.specs.Prelude.{◌≡◌, ◌≤◌, IfOk, IfSome, OnOk, OnErr, true, false, Option, ◌⊎◌};
ghost use Rattle.pl_semantics.specs.declared.plan_state.PlanState.{PlanState};
ghost use Rattle.pl_semantics.specs.Legal.{is_stuck};
ghost use Rattle.pl_cand.specs.declared.proposal.Proposal.{Proposal};
ghost use Rattle.pl_cand.specs.Proposals.{IsProposal, mended};

use crate::making::make_proposed;
use crate::proposal::Proposal;
use crate::stuck::is_stuck;
use pl_board::Board;
use std::alloc::{AllocError, Global};

/// Chooses the next repair.
pub trait Chooser: Drop {
    // How it chooses: the chooser before, the plan state, what is proposed, and the chooser after.
    ghost picks: { Self → PlanState → Option Proposal → Self → Type 0 };

    // How a choice changes it, whatever comes of the choice: the chooser before and after.
    ghost drawn: { Self → Self → Type 0 };

    /// Proposes the next repair, or nothing if no conflict has a legal candidate. The plan stays as it is. Want of memory spoils
    /// the board.
    fn propose(&mut self, alloc: Global, board: &mut Board) -> Result<Option<Proposal>, AllocError>
        requires unspoiled { board.old.spoiled ≡ false }
        requires next_id { board.old.state.next_id ≤ 3999999000 }
        ensures picks { IfOk result (λ p. picks self.old board.old.state p self.new) }
        ensures legal { IfOk result (IsProposal board.old.state) }
        ensures same { OnOk result (board.new ≡ board.old) }
        ensures err { OnErr result (board.new.spoiled ≡ true) }
        ensures drawn { drawn self.old self.new };

    /// Makes the repair that `propose` would propose, and answers it. If no conflict has a legal candidate, board and chooser stay
    /// as they are. The provided method first looks for a conflict with a legal candidate, asks `propose`, and makes what that
    /// proposes.
    fn mend(&mut self, alloc: Global, board: &mut Board) -> Result<Option<Proposal>, AllocError>
        requires unspoiled { board.old.spoiled ≡ false }
        requires next_id { board.old.state.next_id ≤ 3999999000 }
        ensures picks { IfOk result (λ p. IfSome p (λ q. picks self.old board.old.state (Some q) self.new)) }
        ensures kept { IfOk result (λ p. p ≡ None → self.new ≡ self.old) }
        ensures legal { IfOk result (IsProposal board.old.state) }
        ensures made { IfOk result (λ p. board.new ≡ mended p board.old) }
        ensures err { OnErr result (board.new.spoiled ≡ true) }
        ensures drawn { (self.new ≡ self.old) ⊎ ((is_stuck board.old.state ≡ false) × drawn self.old self.new) }
    {
        match is_stuck(alloc, board) {
            Ok(true) => Ok(None),
            Ok(false) => {
                let proposed = self.propose(alloc, board)?;
                make_proposed(alloc, board, proposed)
            }
            Err(fault) => {
                board.spoil();
                Err(fault)
            }
        }
    }
}
