ghost use Rattle.std.specs.Prelude.{◌≡◌, ◌<◌, ◌≤◌, length, false, true, None, OnOk};
ghost use Rattle.pl_moves.specs.Keeping.{KeepsCommitted};
ghost use Rattle.pl_machine.specs.World.{plain_reason_of};
ghost use Rattle.pl_machine.specs.Mending.{is_repairing, RepairsOnce};

use crate::machine::Machine;
use crate::repaired::Repaired;
use crate::stop::Stop;
use pl_cand::Chooser;
use pl_entry::Reason;

impl Machine {
    /// Whether the round is open, and repair does not rest in it.
    fn is_repairing(&self) -> bool
        ensures value { result ≡ is_repairing self.now.world }
        ensures turns { self.now.world.turn ≤ self.now.world.options.turns }
    {
        !self.round.closed && !self.round.rested
    }

    /// Lets a chooser make the next repair. If it makes none, no conflict has a legal candidate, and repair rests.
    #[tactic(auto, using(crate::proofs::Mending::made_fails, crate::proofs::Mending::asked_fails))]
    fn mend<C: Chooser>(&mut self, chooser: &mut C) -> Result<Repaired, Stop>
        requires unspoiled { self.old.spoiled ≡ false }
        requires repairing { is_repairing self.old.world ≡ true }
        requires room { length self.old.log < self.old.world.options.entries }
        requires turns { self.old.world.turn ≤ self.old.world.options.turns }
        requires plain { plain_reason_of self.old.world ≡ None }
        ensures repairs { RepairsOnce C.picks C.drawn self.old chooser.old result self.new chooser.new }
        ensures committed { OnOk result (KeepsCommitted self.old.world.state self.new.world.state) }
    {
        match self.make_next(chooser)? {
            Some(proposal) => Ok(Repaired::Fixed(proposal)),
            None => {
                self.rest_for(Reason::Stuck)?;
                Ok(Repaired::Rested(Reason::Stuck))
            }
        }
    }

    /// One turn of repair: lets a chooser make the next repair, or lets repair rest if there is a reason to. A turn that rests leaves
    /// the chooser as it was. What a chooser makes is known to be a legal candidate, so candidates are not listed again, and the
    /// machine does not make it a second time. No repair changes what is committed.
    #[tactic(auto, using(crate::proofs::Mending::not_admitted, crate::proofs::Resting::plain_rests, crate::proofs::Mending::rest_open, crate::proofs::Mending::rested, crate::proofs::Mending::rest_keeps, crate::proofs::Mending::rest_fails))]
    pub fn repair_once<C: Chooser>(&mut self, chooser: &mut C) -> Result<Repaired, Stop>
        ensures repairs { RepairsOnce C.picks C.drawn self.old chooser.old result self.new chooser.new }
        ensures committed { OnOk result (KeepsCommitted self.old.world.state self.new.world.state) }
    {
        self.admit(self.is_repairing())?;
        match self.plain_reason() {
            None => self.mend(chooser),
            Some(reason) => {
                self.rest_for(reason)?;
                Ok(Repaired::Rested(reason))
            }
        }
    }
}
