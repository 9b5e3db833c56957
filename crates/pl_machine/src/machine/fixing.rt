ghost use Rattle.std.specs.Prelude.{◌≡◌, ◌≢◌, ◌≤◌, not, ◌&&◌, nat_lt, false, true, IfOk, OnOk, Some};
ghost use Rattle.pl_entry.specs.Bounds.{IsConflictInRange, IsMoveInRange, IsFixReply};
ghost use Rattle.pl_semantics.specs.Moves.{is_proper, refusal_of};
ghost use Rattle.pl_semantics.specs.Whole.{IsWhole};
ghost use Rattle.pl_moves.specs.Keeping.{KeepsCommitted};
ghost use Rattle.pl_machine.specs.Changes.{CanChange};
ghost use Rattle.pl_machine.specs.Repairs.{IsMoveOf};
ghost use Rattle.pl_machine.specs.Step.{is_candidate, fix_reply, refusal_reply};
ghost use Rattle.pl_machine.specs.Taking.{IsOpen, Answers};

use crate::change::Change;
use crate::machine::Machine;
use crate::ranges::{known_conflict, known_move, word};
use crate::round::Round;
use crate::stop::Stop;
use pl_board::Board;
use pl_cand::is_candidate;
use pl_conflict::Conflict;
use pl_entry::{Event, Reply};
use pl_moves::legal;
use pl_plan::RepairMove;
use pl_semantics::{PlanState, Refusal};
use std::alloc::AllocError;

fn refusal_reply(refusal: Refusal) -> Reply
    ensures value { result ≡ refusal_reply (Some refusal) }
    ensures fix { IsFixReply result }
{
    match refusal {
        Refusal::Locked(id) => Reply::Locked(word(id)),
        Refusal::Behind(id) => Reply::Behind(word(id)),
        Refusal::Beyond(id) => Reply::Beyond(word(id)),
        Refusal::Full => Reply::Full,
    }
}

/// The reply to a move that is a candidate.
fn legal_reply(board: &Board, repair: &RepairMove) -> Reply
    requires unspoiled { board.now.spoiled ≡ false }
    requires proper { is_proper board.now.state repair.now ≡ true }
    ensures value { result ≡ refusal_reply (refusal_of board.now.state repair.now) }
    ensures fix { IsFixReply result }
{
    match legal(board, repair) {
        Ok(()) => Reply::Done,
        Err(refusal) => refusal_reply(refusal),
    }
}

impl Machine {
    /// Whether a move is a candidate of a conflict that stands.
    fn is_candidate(&self, conflict: &Conflict, repair: &RepairMove) -> Result<bool, AllocError>
        requires { self.now.spoiled ≡ false }
        ensures { IfOk result (λ is. is ≡ is_candidate self.now.world.state conflict.now repair.now) }
    {
        is_candidate(self.alloc, &self.board, conflict, repair)
    }

    /// The plan state, of which the contract says that it is whole and that few ids have been given.
    pub(crate) fn standing(&self) -> &PlanState
        requires { self.now.spoiled ≡ false }
        ensures value { result.now ≡ self.now.world.state }
        ensures whole { IsWhole self.now.world.state }
        ensures next_id { self.now.world.state.next_id ≤ 3999999000 }
    {
        self.board.state()
    }

    #[tactic(auto, using(crate::proofs::Handed::candidate_proper), unfolding(crate::specs::Step::fix_reply))]
    fn fix_reply(&self, conflict: &Conflict, repair: &RepairMove) -> Result<Reply, AllocError>
        requires { self.now.spoiled ≡ false }
        ensures value { IfOk result (λ reply. reply ≡ fix_reply self.now.world.state conflict.now repair.now) }
        ensures fix { IfOk result IsFixReply }
        ensures whole { IsWhole self.now.world.state }
        ensures next_id { self.now.world.state.next_id ≤ 3999999000 }
    {
        let _state = self.standing();
        if !self.board.conflicts().has(conflict) {
            return Ok(Reply::Stale);
        }
        if !self.is_candidate(conflict, repair)? {
            return Ok(Reply::NotFor);
        }
        Ok(legal_reply(&self.board, repair))
    }

    fn repair(&mut self, conflict: Conflict, repair: RepairMove) -> Result<Reply, Stop>
        requires open { IsOpen self.old (Event.Fix conflict repair) }
        requires conflict { IsConflictInRange conflict }
        requires repair { IsMoveInRange self.old.model repair }
        requires whole { IsWhole self.old.world.state }
        requires can { CanChange self.old.world.state (Change.Repair repair) }
        requires done { fix_reply self.old.world.state conflict repair ≡ Reply.Done }
        ensures { Answers self.old (Event.Fix conflict repair) result self.new }
    {
        let round = self.round.repaired();
        self.carry_out(Event::Fix(conflict, repair), Change::Repair(repair), round)
    }

    fn refuse_fix(
        &mut self,
        conflict: Conflict,
        repair: RepairMove,
        refusal: Reply,
    ) -> Result<Reply, Stop>
        requires open { IsOpen self.old (Event.Fix conflict repair) }
        requires conflict { IsConflictInRange conflict }
        requires repair { IsMoveInRange self.old.model repair }
        requires refusal { fix_reply self.old.world.state conflict repair ≡ refusal }
        requires fix { IsFixReply refusal }
        requires other { refusal ≢ Reply.Done }
        ensures { Answers self.old (Event.Fix conflict repair) result self.new }
    {
        let round = Round {
            turn: self.round.turn + 1,
            ..self.round
        };
        self.append(Event::Fix(conflict, repair), refusal, round)
    }

    fn fix_by(
        &mut self,
        conflict: Conflict,
        repair: RepairMove,
        reply: Reply,
    ) -> Result<Reply, Stop>
        requires open { IsOpen self.old (Event.Fix conflict repair) }
        requires conflict { IsConflictInRange conflict }
        requires repair { IsMoveInRange self.old.model repair }
        requires whole { IsWhole self.old.world.state }
        requires next_id { self.old.world.state.next_id ≤ 3999999000 }
        requires reply { fix_reply self.old.world.state conflict repair ≡ reply }
        requires fix { IsFixReply reply }
        ensures { Answers self.old (Event.Fix conflict repair) result self.new }
    {
        match reply {
            Reply::Done => self.repair(conflict, repair),
            refusal => self.refuse_fix(conflict, repair, refusal),
        }
    }

    /// Whether a repair may be tried.
    fn can_fix(&self) -> bool
        ensures { result ≡ (not self.now.world.closed && (not self.now.world.rested && nat_lt self.now.world.turn self.now.world.options.turns)) }
    {
        !self.round.closed && (!self.round.rested && self.round.turn < self.options.turns)
    }

    /// Makes a repair of a conflict, if it is a legal candidate of it. No repair changes what is committed.
    pub fn fix(&mut self, conflict: &Conflict, repair: &RepairMove) -> Result<Reply, Stop>
        requires { IsMoveOf self.old.model repair.now }
        ensures answers { Answers self.old (Event.Fix conflict.now repair.now) result self.new }
        ensures committed { OnOk result (KeepsCommitted self.old.world.state self.new.world.state) }
    {
        self.admit(self.can_fix())?;
        match self.fix_reply(conflict, repair) {
            Err(_) => Err(self.spoil()),
            Ok(reply) => self.fix_by(known_conflict(conflict), known_move(repair), reply),
        }
    }
}
