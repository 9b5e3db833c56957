//! What a planner finds in one turn.
ghost use Rattle.std.specs.Prelude.{◌≡◌, is_some, nat_le, length, false, true, None};
ghost use Rattle.pl_marks.specs.declared.author.Author.{Author};
ghost use Rattle.pl_marks.specs.Authors.{IsAuthor};
ghost use Rattle.pl_machine.specs.World.{plain_reason_of};
ghost use Rattle.pl_machine.specs.Mending.{is_repairing};
ghost use Rattle.pl_acts.specs.Inside.{LooksIn};

use crate::held::Held;
use crate::look::Looked;
use crate::role::Acted;
use pl_machine::Stop;
use pl_marks::Author;
use std::alloc::Global;

impl Held {
    pub(crate) fn is_full(&self) -> bool
        ensures { result ≡ nat_le self.now.plan.machine.world.options.entries (length self.now.plan.machine.log) }
    {
        let machine = self.plan.get();
        machine.options().entries <= machine.entries()
    }

    /// Repair rests, since there is a plain reason to.
    #[tactic(auto, using(crate::proofs::Finding::rested_at_once, crate::proofs::Finding::rest_stops))]
    fn rest(&mut self, by: Author) -> Result<Looked, Stop>
        requires author { IsAuthor by }
        requires unspoiled { self.old.plan.machine.spoiled ≡ false }
        requires going { self.old.plan.machine.world.done ≡ false }
        requires running { is_some self.old.stopper ≡ false }
        requires repairing { is_repairing self.old.plan.machine.world ≡ true }
        requires plain { is_some (plain_reason_of self.old.plan.machine.world) ≡ true }
        ensures { LooksIn by self.old result self.new }
    {
        match self.plan.rest(by) {
            Ok(_) => Ok(Looked::Settled(Acted::Did(self.last_number()))),
            Err(stop) => Err(stop),
        }
    }

    /// Lends a replica to be asked about, unless the log is full.
    #[tactic(auto, using(crate::proofs::Finding::lent, crate::proofs::Finding::lend_fails, crate::proofs::Finding::is_full))]
    fn lend(&mut self, alloc: Global) -> Result<Looked, Stop>
        requires unspoiled { self.old.plan.machine.spoiled ≡ false }
        requires going { self.old.plan.machine.world.done ≡ false }
        requires running { is_some self.old.stopper ≡ false }
        requires repairing { is_repairing self.old.plan.machine.world ≡ true }
        requires plain { plain_reason_of self.old.plan.machine.world ≡ None }
        ensures { (by : Author) → LooksIn by self.old result self.new }
    {
        if self.is_full() {
            return Err(Stop::LogFull);
        }
        let draft = self.plan.lend(alloc)?;
        Ok(Looked::Open(draft))
    }

    fn look_open(&mut self, by: Author, alloc: Global) -> Result<Looked, Stop>
        requires author { IsAuthor by }
        requires unspoiled { self.old.plan.machine.spoiled ≡ false }
        requires going { self.old.plan.machine.world.done ≡ false }
        requires running { is_some self.old.stopper ≡ false }
        requires repairing { is_repairing self.old.plan.machine.world ≡ true }
        ensures { LooksIn by self.old result self.new }
    {
        match self.plan.get().plain_reason() {
            Some(_) => self.rest(by),
            None => self.lend(alloc),
        }
    }

    /// Rests as this author where there is a plain reason to, and lends a replica where repair goes on.
    pub fn look(&mut self, by: Author, alloc: Global) -> Result<Looked, Stop>
        requires { IsAuthor by }
        ensures { LooksIn by self.old result self.new }
    {
        if self.plan.get().spoiled() {
            return Err(Stop::Spoiled);
        }
        if self.plan.get().done() {
            return Ok(Looked::Settled(Acted::Finished));
        }
        if self.stopper.is_some() {
            return Ok(Looked::Settled(Acted::Stopped));
        }
        if !self.can_repair() {
            return Ok(Looked::Settled(Acted::Nothing));
        }
        self.look_open(by, alloc)
    }
}
