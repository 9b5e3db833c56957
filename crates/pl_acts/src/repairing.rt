//! A planner repairs in the turn in which it looks, where nobody else has anything to do.
ghost use Rattle.std.specs.Prelude.{◌≡◌, true, false};
ghost use Rattle.pl_marks.specs.Authors.{IsAuthor};
ghost use Rattle.pl_acts.specs.Inside.{LooksIn, MayRepair, RepairsIn, LooksOrRepairs};

use crate::held::Held;
use crate::look::Looked;
use crate::role::Acted;
use pl_choose::Seeded;
use pl_machine::{Repaired, Stop};
use pl_marks::Author;
use std::alloc::Global;

impl Held {
    /// Whether the planner's chooser is to be asked, and the log has room for what it proposes.
    #[tactic(auto, using(crate::proofs::AtOnce::may_repair))]
    fn may_repair(&self) -> bool
        ensures { result ≡ true → MayRepair self.now }
    {
        if self.is_over() {
            return false;
        }
        if !self.can_repair() {
            return false;
        }
        if self.is_full() {
            return false;
        }
        match self.plan.get().plain_reason() {
            None => true,
            Some(_) => false,
        }
    }

    /// Makes what the chooser proposes, or lets repair rest where nothing can be repaired.
    #[tactic(auto, using(crate::proofs::AtOnce::fixed_at_once, crate::proofs::AtOnce::stuck_at_once, crate::proofs::AtOnce::repair_stops))]
    fn repair_at_once(&mut self, by: Author, chooser: &mut Seeded) -> Result<Looked, Stop>
        requires author { IsAuthor by }
        requires may { MayRepair self.old }
        ensures { RepairsIn by chooser.old self.old result chooser.new self.new }
    {
        match self.plan.repair_once(by, chooser) {
            Ok(Repaired::Fixed(_)) => Ok(Looked::Settled(Acted::Did(self.last_number()))),
            Ok(Repaired::Rested(_)) => {
                self.plan.draw(chooser);
                Ok(Looked::Settled(Acted::Did(self.last_number())))
            }
            Err(stop) => Err(stop),
        }
    }

    /// Looks as [`Held::look`] does. With `at_once` the planner repairs in this turn where it would be lent a replica, if no other planner
    /// has looked at the plan and nobody else has anything to do.
    pub fn look_or_repair(
        &mut self,
        by: Author,
        chooser: &mut Seeded,
        at_once: bool,
        alloc: Global,
    ) -> Result<Looked, Stop>
        requires { IsAuthor by }
        ensures acts { LooksOrRepairs by chooser.old self.old result chooser.new self.new }
        ensures looks { at_once ≡ false → LooksIn by self.old result self.new × (chooser.new ≡ chooser.old) }
    {
        let only = self.plan.is_only_planner(by);
        if at_once && only && self.busy().is_for_planners() && self.may_repair() {
            return self.repair_at_once(by, chooser);
        }
        self.look(by, alloc)
    }
}
