ghost use Rattle.std.specs.Prelude.{◌≡◌, ◌≤◌, ◌⊎◌, ◌↔◌, false, IfOk, OnOk};
ghost use Rattle.pl_entry.specs.Bounds.{IsConflictInRange, IsCommitReply};
ghost use Rattle.pl_semantics.specs.Conflicts.{conflicts_of};
ghost use Rattle.pl_semantics.specs.Grants.{IsGrantable};
ghost use Rattle.pl_semantics.specs.Whole.{IsWhole};
ghost use Rattle.pl_machine.specs.Step.{behind_of, target_in, best_in, first_conflict, commit_reply, held_reply};
ghost use Rattle.pl_machine.specs.Taking.{IsOpen, Answers};

use crate::change::Change;
use crate::machine::Machine;
use crate::ranges::known_conflict;
use crate::round::Round;
use crate::stop::Stop;
use pl_conflict::Conflict;
use pl_entry::{Event, Reply, best, target};

impl Machine {
    pub(crate) fn behind(&self) -> u32
        ensures { result ≡ behind_of self.now.world.state }
    {
        self.board.committed().max(self.board.now())
    }

    pub(crate) fn target(&self) -> u32
        ensures { result ≡ target_in self.now.world }
    {
        target(self.board.model(), self.board.now(), self.round.halted)
    }

    fn first(&self) -> Option<Conflict>
        requires { self.now.spoiled ≡ false }
        ensures { result ≡ first_conflict self.now.world.state }
    {
        self.board.conflicts().first()
    }

    pub(crate) fn best(&self) -> u32
        requires { self.now.spoiled ≡ false }
        ensures { result ≡ best_in self.now.world }
    {
        best(
            self.board.model(),
            self.board.now(),
            self.round.halted,
            self.first(),
        )
    }

    fn held_reply(&self, h: u32) -> Reply
        requires { self.now.spoiled ≡ false }
        ensures value { result ≡ held_reply (first_conflict self.now.world.state) h }
        ensures commit { IsCommitReply result }
    {
        match self.first() {
            Some(conflict) if conflict.from < h => Reply::Held(known_conflict(&conflict)),
            _ => Reply::Done,
        }
    }

    fn commit_reply(&self, h: u32) -> Reply
        requires { self.now.spoiled ≡ false }
        ensures value { result ≡ commit_reply self.now.world.state h }
        ensures commit { IsCommitReply result }
        ensures whole { IsWhole self.now.world.state }
    {
        let state = self.board.state();
        if h <= state.committed.max(state.moment) {
            Reply::CommitBehind
        } else if state.model.get().horizon < h {
            Reply::CommitBeyond
        } else {
            self.held_reply(h)
        }
    }

    /// Grants a commit: what starts before this moment is now committed.
    fn grant(&mut self, h: u32) -> Result<Reply, Stop>
        requires open { IsOpen self.old (Event.Commit h) }
        requires whole { IsWhole self.old.world.state }
        requires done { commit_reply self.old.world.state h ≡ Reply.Done }
        ensures { Answers self.old (Event.Commit h) result self.new }
    {
        self.carry_out(Event::Commit(h), Change::Commit(h), self.round)
    }

    fn hold(&mut self, h: u32, conflict: Conflict) -> Result<Reply, Stop>
        requires open { IsOpen self.old (Event.Commit h) }
        requires conflict { IsConflictInRange conflict }
        requires held { commit_reply self.old.world.state h ≡ Reply.Held conflict }
        ensures { Answers self.old (Event.Commit h) result self.new }
    {
        let round = Round {
            held: true,
            ..self.round
        };
        self.append(Event::Commit(h), Reply::Held(conflict), round)
    }

    fn refuse_commit(&mut self, h: u32, refusal: Reply) -> Result<Reply, Stop>
        requires open { IsOpen self.old (Event.Commit h) }
        requires other { (refusal ≡ Reply.CommitBehind) ⊎ (refusal ≡ Reply.CommitBeyond) }
        requires refused { commit_reply self.old.world.state h ≡ refusal }
        ensures { Answers self.old (Event.Commit h) result self.new }
    {
        self.append(Event::Commit(h), refusal, self.round)
    }

    fn take_commit(&mut self, h: u32) -> Result<Reply, Stop>
        ensures { Answers self.old (Event.Commit h) result self.new }
    {
        self.admit(!self.round.closed)?;
        match self.commit_reply(h) {
            Reply::Done => self.grant(h),
            Reply::Held(conflict) => self.hold(h, conflict),
            Reply::CommitBeyond => self.refuse_commit(h, Reply::CommitBeyond),
            _ => self.refuse_commit(h, Reply::CommitBehind),
        }
    }

    /// Commits what starts before `h`, if no conflict begins before `h`. Nothing that is committed is taken back, and no conflict
    /// comes or goes.
    pub fn commit(&mut self, h: u32) -> Result<Reply, Stop>
        ensures answers { Answers self.old (Event.Commit h) result self.new }
        ensures never_falls { OnOk result (self.old.world.state.committed ≤ self.new.world.state.committed) }
        ensures conflicts { OnOk result (conflicts_of self.new.world.state ≡ conflicts_of self.old.world.state) }
        ensures granted { IfOk result (λ reply. (reply ≡ Reply.Done) ↔ IsGrantable self.old.world.state h) }
    {
        self.take_commit(h)
    }
}
