ghost use Rattle.std.specs.Prelude.{◌≡◌, ◌<◌, ◌≤◌, length, false, true, None, Some, IfOk, IfErr, IfSome, OnOk, OnErr, ◌⊎◌};
ghost use Rattle.pl_entry.specs.Bounds.{IsConflictInRange};
ghost use Rattle.pl_semantics.specs.Legal.{is_stuck};
ghost use Rattle.pl_moves.specs.Keeping.{KeepsCommitted};
ghost use Rattle.pl_cand.specs.Proposals.{IsProposal, mended};
ghost use Rattle.pl_machine.specs.Repairs.{FitsTypes};
ghost use Rattle.pl_machine.specs.World.{plain_reason_of};
ghost use Rattle.pl_machine.specs.Mending.{is_repairing, Stops, HasMended, logged, ahead_behind};

use crate::ahead::Ahead;
use crate::change::Change;
use crate::machine::Machine;
use crate::machine::appending::{push_done, reserve_entry};
use crate::ranges::{known_conflict, known_move};
use crate::starting::ahead_after;
use crate::stop::Stop;
use pl_board::Board;
use pl_cand::{Chooser, Proposal};
use pl_entry::Event;
use pl_log::Log;
use std::alloc::{AllocError, Global};

/// Appends the entry of a repair that was made, in the place that was reserved for it.
fn push_made(log: &mut Log, proposal: &Proposal)
    requires { log.old.has_place ≡ true }
    ensures logged { log.new.entries ≡ logged (Some proposal.now) log.old.entries }
    ensures conflict { IsConflictInRange proposal.now.conflict }
    ensures repair { FitsTypes proposal.now.mv }
{
    let conflict = known_conflict(&proposal.conflict);
    let repair = known_move(&proposal.mv);
    push_done(log, Event::Fix(conflict, repair));
}

/// Lets a chooser make the next repair of a board, and appends its entry. The place in the log is reserved first.
fn push_repair<C: Chooser>(
    log: &mut Log,
    board: &mut Board,
    ahead: &mut Ahead,
    alloc: Global,
    chooser: &mut C,
) -> Result<Option<Proposal>, AllocError>
    requires unspoiled { board.old.spoiled ≡ false }
    requires next_id { board.old.state.next_id ≤ 3999999000 }
    ensures picks { IfOk result (λ p. IfSome p (λ q. C.picks chooser.old board.old.state (Some q) chooser.new)) }
    ensures kept { IfOk result (λ p. p ≡ None → chooser.new ≡ chooser.old) }
    ensures legal { IfOk result (IsProposal board.old.state) }
    ensures ranges { IfOk result (λ p. IfSome p (λ q. IsConflictInRange q.conflict × FitsTypes q.mv)) }
    ensures made { IfOk result (λ p. board.new ≡ mended p board.old) }
    ensures logged { IfOk result (λ p. log.new.entries ≡ logged p log.old.entries) }
    ensures ahead { IfOk result (λ p. ahead.new ≡ ahead_behind p ahead.old) }
    ensures err { OnErr result (log.new.entries ≡ log.old.entries) }
    ensures spoils { OnErr result (board.new.spoiled ≡ true) }
    ensures drawn { (chooser.new ≡ chooser.old) ⊎ ((is_stuck board.old.state ≡ false) × C.drawn chooser.old chooser.new) }
{
    reserve_entry(log, board)?;
    match chooser.mend(alloc, board)? {
        None => Ok(None),
        Some(proposal) => {
            push_made(log, &proposal);
            *ahead = ahead_after(&Change::Repair(proposal.mv), *ahead);
            Ok(Some(proposal))
        }
    }
}

impl Machine {
    /// Lets a chooser make the next repair, and logs it. If no conflict has a legal candidate, none is made, and all stays as it is.
    pub(crate) fn make_next<C: Chooser>(
        &mut self,
        chooser: &mut C,
    ) -> Result<Option<Proposal>, Stop>
        requires unspoiled { self.old.spoiled ≡ false }
        requires repairing { is_repairing self.old.world ≡ true }
        requires room { length self.old.log < self.old.world.options.entries }
        requires turns { self.old.world.turn ≤ self.old.world.options.turns }
        requires plain { plain_reason_of self.old.world ≡ None }
        ensures made { IfOk result (λ p. HasMended C.picks self.old chooser.old p self.new chooser.new) }
        ensures committed { OnOk result (KeepsCommitted self.old.world.state self.new.world.state) }
        ensures err { IfErr result (λ stop. Stops self.old stop self.new) }
        ensures drawn { (chooser.new ≡ chooser.old) ⊎ ((is_stuck self.old.world.state ≡ false) × C.drawn chooser.old chooser.new) }
    {
        let _state = self.standing();
        match push_repair(
            &mut self.log,
            &mut self.board,
            &mut self.schedule.ahead,
            self.alloc,
            chooser,
        )? {
            None => Ok(None),
            Some(proposal) => {
                self.round = self.round.repaired();
                Ok(Some(proposal))
            }
        }
    }
}
