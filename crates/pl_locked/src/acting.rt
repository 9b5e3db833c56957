ghost use Rattle.std.specs.Prelude.{◌≡◌};
ghost use Rattle.pl_marks.specs.Authors.{IsAuthor};
ghost use Rattle.pl_acts.specs.Roles.{role_author};
ghost use Rattle.pl_locked.specs.Plans.{BelongsTo};
ghost use Rattle.pl_locked.specs.Turns.{TakesTurn, Acts};

use crate::plan::{Pass, SharedPlan};
use pl_acts::{Acted, Role, View};
use pl_machine::Stop;
use pl_marks::Author;
use std::alloc::Global;
use std::sync::Wait;

impl SharedPlan {
    /// Makes the event that the role has, if it has one, as this author. A planner takes two turns, and its chooser is asked between them,
    /// unless it has nothing to choose, or is the only planner and nobody else has anything to do: then it takes one.
    #[tactic(auto, using(crate::proofs::Halves::can_settle, crate::proofs::Halves::acts_by_both, crate::proofs::Halves::sees_planner, crate::proofs::Halves::both_turns))]
    pub fn act_as<R: Wait>(
        &self,
        rt: &R,
        alloc: Global,
        pass: &mut Pass,
        by: Author,
        role: &mut Role,
    ) -> Result<Acted, Stop>
        requires own { BelongsTo self.now pass.old }
        requires author { IsAuthor by }
        ensures own { BelongsTo self.now pass.new }
        ensures takes { TakesTurn pass.old pass.new }
        ensures acts { Acts by role.old pass.old result role.new pass.new }
    {
        match self.begin(rt, alloc, pass, by, role, true)? {
            View::Settled(acted) => Ok(acted),
            View::Copy(sight) => self.settle_as(rt, pass, by, role, sight),
        }
    }

    /// [`SharedPlan::act_as`] the author of the role, where there is one planner.
    pub fn act<R: Wait>(
        &self,
        rt: &R,
        alloc: Global,
        pass: &mut Pass,
        role: &mut Role,
    ) -> Result<Acted, Stop>
        requires { BelongsTo self.now pass.old }
        ensures own { BelongsTo self.now pass.new }
        ensures takes { TakesTurn pass.old pass.new }
        ensures acts { Acts (role_author role.old) role.old pass.old result role.new pass.new }
    {
        let by = role.author();
        self.act_as(rt, alloc, pass, by, role)
    }
}
