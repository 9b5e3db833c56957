//! What a planner does in a second turn, with what its chooser proposed meanwhile.
ghost use Rattle.std.specs.Prelude.{◌≡◌, ◌<◌, ◌⊎◌, false, true, Some, None, IfSome, is_some};
ghost use Rattle.rand_pcg.specs.Lcg.{Lcg};
ghost use Rattle.pl_marks.specs.Authors.{IsAuthor};
ghost use Rattle.pl_machine.specs.Mending.{is_repairing};
ghost use Rattle.pl_machine.specs.Repairs.{IsMoveOf};
ghost use Rattle.pl_acts.specs.Replicas.{IsReplica};
ghost use Rattle.pl_acts.specs.Inside.{SettlesIn};

use crate::held::Held;
use crate::role::Acted;
use crate::sight::Sight;
use pl_cand::Proposal;
use pl_choose::Seeded;
use pl_machine::Stop;
use pl_marks::Author;

impl Held {
    /// One turn of repair on the plan as it stands.
    #[tactic(auto, using(crate::proofs::Settled::repaired_once, crate::proofs::Settled::repair_stops))]
    fn repair(
        &mut self,
        by: Author,
        chooser: &mut Seeded,
        proposal: Option<Proposal>,
    ) -> Result<Acted, Stop>
        requires author { IsAuthor by }
        requires unspoiled { self.old.plan.machine.spoiled ≡ false }
        requires going { self.old.plan.machine.world.done ≡ false }
        requires running { is_some self.old.stopper ≡ false }
        requires repairing { is_repairing self.old.plan.machine.world ≡ true }
        requires free { (proposal ≡ None) ⊎ (self.old.plan.machine.world.turn ≡ self.old.plan.machine.world.options.turns) }
        ensures { SettlesIn by chooser.old proposal self.old result chooser.new self.new }
    {
        match self.plan.repair_once(by, chooser) {
            Ok(_) => Ok(Acted::Did(self.last_number())),
            Err(stop) => Err(stop),
        }
    }

    /// Makes what was proposed, or logs why it is refused.
    #[tactic(auto, using(crate::proofs::Settled::fixed, crate::proofs::Settled::fix_stops))]
    fn fix(&mut self, by: Author, proposal: Proposal) -> Result<Acted, Stop>
        requires author { IsAuthor by }
        requires unspoiled { self.old.plan.machine.spoiled ≡ false }
        requires going { self.old.plan.machine.world.done ≡ false }
        requires running { is_some self.old.stopper ≡ false }
        requires repairing { is_repairing self.old.plan.machine.world ≡ true }
        requires turns { self.old.plan.machine.world.turn < self.old.plan.machine.world.options.turns }
        requires repair { IsMoveOf self.old.plan.machine.model proposal.mv }
        ensures { (g : Lcg) → SettlesIn by g (Some proposal) self.old result g self.new }
    {
        match self.plan.fix(by, &proposal) {
            Ok(_) => Ok(Acted::Did(self.last_number())),
            Err(stop) => Err(stop),
        }
    }

    fn settle_open(
        &mut self,
        by: Author,
        chooser: &mut Seeded,
        proposal: Option<Proposal>,
    ) -> Result<Acted, Stop>
        requires author { IsAuthor by }
        requires unspoiled { self.old.plan.machine.spoiled ≡ false }
        requires going { self.old.plan.machine.world.done ≡ false }
        requires running { is_some self.old.stopper ≡ false }
        requires repairing { is_repairing self.old.plan.machine.world ≡ true }
        requires repair { IfSome proposal (λ p. IsMoveOf self.old.plan.machine.model p.mv) }
        ensures { SettlesIn by chooser.old proposal self.old result chooser.new self.new }
    {
        let machine = self.plan.get();
        if machine.turn() == machine.options().turns {
            return self.repair(by, chooser, proposal);
        }
        match proposal {
            Some(proposal) => self.fix(by, proposal),
            None => self.repair(by, chooser, None),
        }
    }

    /// Fixes with what was proposed, rests, or asks the chooser again where nothing was.
    fn settle_with(
        &mut self,
        by: Author,
        chooser: &mut Seeded,
        proposal: Option<Proposal>,
    ) -> Result<Acted, Stop>
        requires author { IsAuthor by }
        requires repair { IfSome proposal (λ p. IsMoveOf self.old.plan.machine.model p.mv) }
        ensures { SettlesIn by chooser.old proposal self.old result chooser.new self.new }
    {
        if self.plan.get().spoiled() {
            return Err(Stop::Spoiled);
        }
        if self.plan.get().done() {
            return Ok(Acted::Finished);
        }
        if self.stopper.is_some() {
            return Ok(Acted::Stopped);
        }
        if !self.can_repair() {
            return Ok(Acted::Nothing);
        }
        self.settle_open(by, chooser, proposal)
    }

    /// Fixes with what a sight proposes, rests, or asks the chooser again where it proposes nothing. The sight's replica is kept.
    pub fn settle(&mut self, by: Author, chooser: &mut Seeded, sight: Sight) -> Result<Acted, Stop>
        requires author { IsAuthor by }
        requires repair { IfSome sight.proposal (λ p. IsMoveOf self.old.plan.machine.model p.mv) }
        requires replica { IfSome sight.replica (IsReplica self.old.plan.machine) }
        ensures { SettlesIn by chooser.old sight.proposal self.old result chooser.new self.new }
    {
        let Sight {
            proposal,
            replica,
            ..
        } = sight;
        self.plan.keep(replica);
        self.settle_with(by, chooser, proposal)
    }
}
