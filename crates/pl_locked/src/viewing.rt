//! The two halves of a planner's act: its chooser is asked between two turns.
ghost use Rattle.std.specs.Prelude.{◌≡◌, false};
ghost use Rattle.pl_turn.specs.Passes.{seen_of};
ghost use Rattle.pl_marks.specs.Authors.{IsAuthor};
ghost use Rattle.pl_acts.specs.Roles.{worker_of, role_author};
ghost use Rattle.pl_locked.specs.Plans.{BelongsTo};
ghost use Rattle.pl_locked.specs.Turns.{TakesTurn, Acts, Looks, LookRests, Views, ViewRests, CanSettle, Settles, SettlesAs};

use crate::plan::{Pass, SharedPlan};
use pl_acts::{Acted, Looked, Role, Sight, View, ask};
use pl_choose::Seeded;
use pl_machine::Stop;
use pl_marks::Author;
use std::alloc::Global;
use std::sync::Wait;

impl SharedPlan {
    fn execute<R: Wait>(&self, rt: &R, pass: &mut Pass, by: Author) -> Result<Acted, Stop>
        requires own { BelongsTo self.now pass.old }
        requires author { IsAuthor by }
        ensures own { BelongsTo self.now pass.new }
        ensures takes { TakesTurn pass.old pass.new }
        ensures acts { Acts by Role.Executive pass.old result Role.Executive pass.new }
    {
        let mut held = self.enter(rt, pass);
        let before = held.busy();
        let acted = held.execute(by);
        let behind = held.busy();
        self.bells.note(behind);
        self.leave(pass, held);
        self.bells.ring(rt, before, behind);
        acted
    }

    /// A planner's first turn. With `at_once` it repairs in this turn, if it is the only planner and nobody else has anything to do.
    fn look<R: Wait>(
        &self,
        rt: &R,
        alloc: Global,
        pass: &mut Pass,
        by: Author,
        chooser: &mut Seeded,
        at_once: bool,
    ) -> Result<Looked, Stop>
        requires own { BelongsTo self.now pass.old }
        requires author { IsAuthor by }
        ensures own { BelongsTo self.now pass.new }
        ensures takes { TakesTurn pass.old pass.new }
        ensures looks { Looks by chooser.old pass.old result chooser.new pass.new }
        ensures rests { at_once ≡ false → LookRests by chooser.old pass.old result chooser.new pass.new }
    {
        let mut held = self.enter(rt, pass);
        let before = held.busy();
        let looked = held.look_or_repair(by, chooser, at_once, alloc);
        let behind = held.busy();
        self.bells.note(behind);
        self.leave(pass, held);
        self.bells.ring(rt, before, behind);
        looked
    }

    #[tactic(auto, using(crate::proofs::Halves::viewed, crate::proofs::Halves::view_stops))]
    fn view_plan<R: Wait>(
        &self,
        rt: &R,
        alloc: Global,
        pass: &mut Pass,
        by: Author,
        chooser: &mut Seeded,
        at_once: bool,
    ) -> Result<View, Stop>
        requires own { BelongsTo self.now pass.old }
        requires author { IsAuthor by }
        ensures own { BelongsTo self.now pass.new }
        ensures takes { TakesTurn pass.old pass.new }
        ensures views { Views by (Role.Planner chooser.old) pass.old result (Role.Planner chooser.new) pass.new }
        ensures rests { at_once ≡ false → ViewRests by (Role.Planner chooser.old) pass.old result (Role.Planner chooser.new) pass.new }
    {
        match self.look(rt, alloc, pass, by, chooser, at_once)? {
            Looked::Settled(acted) => Ok(View::Settled(acted)),
            Looked::Open(draft) => match ask(chooser, draft) {
                Ok(sight) => Ok(View::Copy(sight)),
                Err(_) => Err(Stop::Memory),
            },
        }
    }

    /// The first turn of an act. With `at_once` it may be the only one: see `look`.
    pub(crate) fn begin<R: Wait>(
        &self,
        rt: &R,
        alloc: Global,
        pass: &mut Pass,
        by: Author,
        role: &mut Role,
        at_once: bool,
    ) -> Result<View, Stop>
        requires own { BelongsTo self.now pass.old }
        requires author { IsAuthor by }
        ensures own { BelongsTo self.now pass.new }
        ensures takes { TakesTurn pass.old pass.new }
        ensures views { Views by role.old pass.old result role.new pass.new }
        ensures rests { at_once ≡ false → ViewRests by role.old pass.old result role.new pass.new }
    {
        match role {
            Role::Planner(chooser) => self.view_plan(rt, alloc, pass, by, chooser, at_once),
            Role::Executive => {
                let acted = self.execute(rt, pass, by)?;
                Ok(View::Settled(acted))
            }
        }
    }

    /// The first half of an act, in one turn. An executive's act is over with it, and so is a planner's that has nothing to choose. Else
    /// the planner's chooser is asked on a copy of the plan, outside the turn.
    pub fn view_as<R: Wait>(
        &self,
        rt: &R,
        alloc: Global,
        pass: &mut Pass,
        by: Author,
        role: &mut Role,
    ) -> Result<View, Stop>
        requires own { BelongsTo self.now pass.old }
        requires author { IsAuthor by }
        ensures own { BelongsTo self.now pass.new }
        ensures takes { TakesTurn pass.old pass.new }
        ensures views { Views by role.old pass.old result role.new pass.new }
        ensures rests { ViewRests by role.old pass.old result role.new pass.new }
    {
        self.begin(rt, alloc, pass, by, role, false)
    }

    /// [`SharedPlan::view_as`] the author of the role, where there is one planner.
    pub fn view<R: Wait>(
        &self,
        rt: &R,
        alloc: Global,
        pass: &mut Pass,
        role: &mut Role,
    ) -> Result<View, Stop>
        requires { BelongsTo self.now pass.old }
        ensures own { BelongsTo self.now pass.new }
        ensures takes { TakesTurn pass.old pass.new }
        ensures views { Views (role_author role.old) role.old pass.old result role.new pass.new }
        ensures rests { ViewRests (role_author role.old) role.old pass.old result role.new pass.new }
    {
        let by = role.author();
        self.view_as(rt, alloc, pass, by, role)
    }

    fn settle_plan<R: Wait>(
        &self,
        rt: &R,
        pass: &mut Pass,
        by: Author,
        chooser: &mut Seeded,
        sight: Sight,
    ) -> Result<Acted, Stop>
        requires own { BelongsTo self.now pass.old }
        requires author { IsAuthor by }
        requires sight { CanSettle (seen_of pass.old) sight }
        ensures own { BelongsTo self.now pass.new }
        ensures takes { TakesTurn pass.old pass.new }
        ensures settles { Settles by chooser.old sight pass.old result chooser.new pass.new }
    {
        let mut held = self.enter(rt, pass);
        let before = held.busy();
        let acted = held.settle(by, chooser, sight);
        let behind = held.busy();
        self.bells.note(behind);
        self.leave(pass, held);
        self.bells.ring(rt, before, behind);
        acted
    }

    /// The second half of a planner's act, in one turn: what was proposed is fixed, or repair rests, or the chooser is asked again on the
    /// standing plan.
    pub fn settle_as<R: Wait>(
        &self,
        rt: &R,
        pass: &mut Pass,
        by: Author,
        role: &mut Role,
        sight: Sight,
    ) -> Result<Acted, Stop>
        requires own { BelongsTo self.now pass.old }
        requires author { IsAuthor by }
        requires planner { worker_of role.old ≡ 1 }
        requires sight { CanSettle (seen_of pass.old) sight }
        ensures own { BelongsTo self.now pass.new }
        ensures takes { TakesTurn pass.old pass.new }
        ensures settles { SettlesAs by role.old sight pass.old result role.new pass.new }
    {
        match role {
            Role::Planner(chooser) => self.settle_plan(rt, pass, by, chooser, sight),
            Role::Executive => unreachable!(),
        }
    }

    /// [`SharedPlan::settle_as`] the author of the role, where there is one planner.
    pub fn settle<R: Wait>(
        &self,
        rt: &R,
        _alloc: Global,
        pass: &mut Pass,
        role: &mut Role,
        sight: Sight,
    ) -> Result<Acted, Stop>
        requires own { BelongsTo self.now pass.old }
        requires planner { worker_of role.old ≡ 1 }
        requires sight { CanSettle (seen_of pass.old) sight }
        ensures own { BelongsTo self.now pass.new }
        ensures takes { TakesTurn pass.old pass.new }
        ensures settles { SettlesAs (role_author role.old) role.old sight pass.old result role.new pass.new }
    {
        let by = role.author();
        self.settle_as(rt, pass, by, role, sight)
    }
}
