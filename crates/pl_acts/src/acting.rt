//! The executive's event, inside a turn.
ghost use Rattle.std.specs.Prelude.{◌≡◌, ◌&&◌, not, false, true, Some, is_some};
ghost use Rattle.pl_marks.specs.Authors.{IsAuthor};
ghost use Rattle.pl_machine.specs.Step.{is_enabled};
ghost use Rattle.pl_machine.specs.Choices.{exec_choice_of, event_of};
ghost use Rattle.pl_machine.specs.Mending.{is_repairing};
ghost use Rattle.pl_acts.specs.Inside.{ExecutesIn};

use crate::held::Held;
use crate::role::Acted;
use pl_machine::{Choice, Stop};
use pl_marks::Author;

impl Held {
    /// Whether the planner has an event.
    pub(crate) fn can_repair(&self) -> bool
        ensures { result ≡ is_repairing self.now.plan.machine.world }
    {
        let machine = self.plan.get();
        !machine.closed() && !machine.resting()
    }

    #[tactic(auto, using(crate::proofs::Answering::executed, crate::proofs::Answering::execute_stops))]
    fn carry_out(&mut self, by: Author, choice: Choice) -> Result<Acted, Stop>
        requires author { IsAuthor by }
        requires unspoiled { self.old.plan.machine.spoiled ≡ false }
        requires going { self.old.plan.machine.world.done ≡ false }
        requires running { is_some self.old.stopper ≡ false }
        requires chosen { exec_choice_of self.old.plan.machine.world ≡ Some choice }
        requires enabled { is_enabled self.old.plan.machine.world (event_of choice) ≡ true }
        ensures { ExecutesIn by self.old result self.new }
    {
        match self.plan.execute(by, choice) {
            Ok(_) => Ok(Acted::Did(self.last_number())),
            Err(stop) => Err(stop),
        }
    }

    #[tactic(auto, using(crate::proofs::Answering::execute_none))]
    fn execute_going(&mut self, by: Author) -> Result<Acted, Stop>
        requires author { IsAuthor by }
        requires unspoiled { self.old.plan.machine.spoiled ≡ false }
        requires going { self.old.plan.machine.world.done ≡ false }
        requires running { is_some self.old.stopper ≡ false }
        ensures { ExecutesIn by self.old result self.new }
    {
        match self.plan.get().exec_choice() {
            Some(choice) => self.carry_out(by, choice),
            None => Ok(Acted::Nothing),
        }
    }

    /// Makes the event that the executive has, if it has one, as this author's.
    pub fn execute(&mut self, by: Author) -> Result<Acted, Stop>
        requires { IsAuthor by }
        ensures { ExecutesIn by self.old result self.new }
    {
        if self.plan.get().spoiled() {
            return Err(Stop::Spoiled);
        }
        if self.plan.get().done() {
            return Ok(Acted::Finished);
        }
        if self.stopper.is_some() {
            return Ok(Acted::Stopped);
        }
        self.execute_going(by)
    }
}
