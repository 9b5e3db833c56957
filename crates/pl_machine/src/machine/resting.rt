ghost use Rattle.std.specs.Prelude.{◌≡◌, IfOk, false};
ghost use Rattle.pl_machine.specs.World.{plain_reason_of, reason_of};
ghost use Rattle.pl_machine.specs.Taking.{IsOpen, Answers};

use crate::machine::Machine;
use crate::round::Round;
use crate::stop::Stop;
use pl_cand::is_stuck;
use pl_entry::{Event, Reason, Reply};
use std::alloc::AllocError;

impl Machine {
    /// Why repair is to rest, as far as this is known without a look at candidates: no conflict is left, or the turns are spent.
    pub fn plain_reason(&self) -> Option<Reason>
        requires { self.now.spoiled ≡ false }
        ensures { result ≡ plain_reason_of self.now.world }
    {
        if self.board.conflicts().is_empty() {
            return Some(Reason::Clear);
        }
        if self.round.turn == self.options.turns {
            return Some(Reason::Spent);
        }
        None
    }

    /// Why repair is to rest, if it is to.
    #[tactic(auto, using(crate::proofs::Resting::plain_rests, crate::proofs::Resting::stuck_rests, crate::proofs::Resting::goes_on))]
    fn reason(&self) -> Result<Option<Reason>, AllocError>
        requires { self.now.spoiled ≡ false }
        ensures { IfOk result (λ reason. reason ≡ reason_of self.now.world) }
    {
        match self.plain_reason() {
            Some(reason) => Ok(Some(reason)),
            None => {
                if is_stuck(self.alloc, &self.board)? {
                    Ok(Some(Reason::Stuck))
                } else {
                    Ok(None)
                }
            }
        }
    }

    pub(crate) fn rest_for(&mut self, reason: Reason) -> Result<Reply, Stop>
        requires open { IsOpen self.old Event.Rest }
        requires reason { reason_of self.old.world ≡ Some reason }
        ensures { Answers self.old Event.Rest result self.new }
    {
        let round = Round {
            rested: true,
            ..self.round
        };
        self.append(Event::Rest, Reply::Rested(reason), round)
    }

    /// Lets repair rest, if there is a reason to.
    pub fn rest(&mut self) -> Result<Reply, Stop>
        ensures { Answers self.old Event.Rest result self.new }
    {
        if self.spoiled() {
            return Err(Stop::Spoiled);
        }
        if self.round.closed || self.round.rested {
            return Err(Stop::NotNow);
        }
        match self.reason() {
            Err(_) => Err(self.spoil()),
            Ok(None) => Err(Stop::NotNow),
            Ok(Some(reason)) => {
                self.admit(true)?;
                self.rest_for(reason)
            }
        }
    }
}
