//! Who has something to do.
ghost use Rattle.std.specs.Prelude.{◌≡◌, ◌||◌, ◌&&◌, not, false, is_some};
ghost use Rattle.pl_machine.specs.Choices.{exec_choice_of};
ghost use Rattle.pl_acts.specs.Inside.{is_over};

use crate::held::Held;

/// Who has something to do in a plan as it stands.
#[derive(Clone, Copy, PartialEq, Eq)]
pub struct Busy {
    pub planner: bool,
    pub executive: bool,
    pub feeder: bool,
}

impl Busy {
    /// Whether the planners alone have something to do.
    pub fn is_for_planners(self) -> bool {
        self.planner && !self.executive && !self.feeder
    }
}

impl Held {
    // Whether the workers have to find out that the plan goes no further.
    pub(crate) fn is_over(&self) -> bool
        ensures over { result ≡ is_over self.now }
        ensures unspoiled { result ≡ false → self.now.plan.machine.spoiled ≡ false }
    {
        let machine = self.plan.get();
        machine.spoiled() || machine.done() || self.stopper.is_some()
    }

    /// Who has something to do: a worker whose role has an event, or that has to find out that the plan goes no further, and the feeder once
    /// the round is closed or the plan was stopped. A plan that wants memory gives the feeder nothing to do before it is stopped.
    pub fn busy(&self) -> Busy
        ensures planner { result.planner ≡ (is_over self.now || (not self.now.plan.machine.world.closed && not self.now.plan.machine.world.rested)) }
        ensures executive { result.executive ≡ (is_over self.now || is_some (exec_choice_of self.now.plan.machine.world)) }
        ensures feeder { result.feeder ≡ (self.now.plan.machine.world.closed || is_some self.now.stopper) }
    {
        let feeder = self.round_over();
        if self.is_over() {
            return Busy {
                planner: true,
                executive: true,
                feeder,
            };
        }
        Busy {
            planner: self.can_repair(),
            executive: self.plan.get().exec_choice().is_some(),
            feeder,
        }
    }
}
