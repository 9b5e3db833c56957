//! What the members of a crew do, each in turns of its own.
ghost use Rattle.std.specs.Prelude.{◌≡◌, ◌≢◌, ◌≤◌, length, IfOk, IfSome};
ghost use Rattle.std.specs.Option.{option_copied};
ghost use Rattle.pl_turn.specs.Passes.{seen_of, mine_of};
ghost use Rattle.pl_entry.specs.Bounds.{IsMessageLine};
ghost use Rattle.pl_marks.specs.declared.author.Author.TheVariants.{Feeder, Executive};
ghost use Rattle.pl_acts.specs.Seen.{Copies};
ghost use Rattle.pl_locked.specs.Turns.{TakesTurn, Feeds, Stops, CanSettle};
ghost use Rattle.pl_many.specs.Members.{IsMember, ActsAs, ViewsAs, ViewRestsAs, SettlesBy, SameMember};

use crate::crew::Crew;
use crate::member::Member;
use pl_acts::{Acted, Part, Sight, View};
use pl_machine::Stop;
use std::alloc::{AllocError, Global};
use std::sync::Wait;

impl Crew {
    /// Takes a message line, or the end of the input, in one turn, and answers the number of its entry.
    pub fn feed<R: Wait>(
        &self,
        rt: &R,
        _alloc: Global,
        feeder: &mut Member,
        line: Option<&[u8]>,
    ) -> Result<u32, Stop>
        requires own { IsMember self.now feeder.old }
        requires feeder { feeder.old.author ≡ Feeder }
        requires line { IfSome (option_copied line) IsMessageLine }
        ensures own { IsMember self.now feeder.new }
        ensures same { SameMember feeder.old feeder.new }
        ensures takes { TakesTurn feeder.old.pass feeder.new.pass }
        ensures feeds { Feeds (option_copied line.entry) feeder.old.pass result feeder.new.pass }
    {
        self.plan.feed(rt, &mut feeder.pass, line)
    }

    /// The first half of an act. An executive's act is over with it.
    #[tactic(auto, using(crate::proofs::Acting::acts_somehow))]
    pub fn view<R: Wait>(&self, rt: &R, alloc: Global, member: &mut Member) -> Result<View, Stop>
        requires own { IsMember self.now member.old }
        requires worker { member.old.author ≢ Feeder }
        ensures own { IsMember self.now member.new }
        ensures takes { TakesTurn member.old.pass member.new.pass }
        ensures views { ViewsAs member.old result member.new }
        ensures rests { ViewRestsAs member.old result member.new }
    {
        let author = member.author;
        match &mut member.role {
            Some(role) => self.plan.view_as(rt, alloc, &mut member.pass, author, role),
            None => unreachable!(),
        }
    }

    /// The second half of a planner's act.
    #[tactic(auto, using(crate::proofs::Acting::acts_somehow, crate::proofs::Acting::repairs))]
    pub fn settle<R: Wait>(
        &self,
        rt: &R,
        _alloc: Global,
        member: &mut Member,
        sight: Sight,
    ) -> Result<Acted, Stop>
        requires own { IsMember self.now member.old }
        requires planner { (member.old.author ≢ Feeder) × (member.old.author ≢ Executive) }
        requires sight { CanSettle (seen_of member.old.pass) sight }
        ensures own { IsMember self.now member.new }
        ensures takes { TakesTurn member.old.pass member.new.pass }
        ensures settles { SettlesBy sight member.old result member.new }
    {
        let author = member.author;
        match &mut member.role {
            Some(role) => self
                .plan
                .settle_as(rt, &mut member.pass, author, role, sight),
            None => unreachable!(),
        }
    }

    /// Makes the event that the member has, if it has one.
    #[tactic(auto, using(crate::proofs::Acting::acts_somehow))]
    pub fn act<R: Wait>(&self, rt: &R, alloc: Global, member: &mut Member) -> Result<Acted, Stop>
        requires own { IsMember self.now member.old }
        requires worker { member.old.author ≢ Feeder }
        ensures own { IsMember self.now member.new }
        ensures takes { TakesTurn member.old.pass member.new.pass }
        ensures acts { ActsAs member.old result member.new }
    {
        let author = member.author;
        match &mut member.role {
            Some(role) => self.plan.act_as(rt, alloc, &mut member.pass, author, role),
            None => unreachable!(),
        }
    }

    /// The entries of the log from a number on, as they stand in one turn. Nothing is changed.
    pub fn copy_from<R: Wait>(
        &self,
        rt: &R,
        alloc: Global,
        member: &mut Member,
        from: u32,
    ) -> Result<Part, AllocError>
        requires own { IsMember self.now member.old }
        requires from { from ≤ length (seen_of member.old.pass) }
        ensures own { IsMember self.now member.new }
        ensures same { SameMember member.old member.new }
        ensures takes { TakesTurn member.old.pass member.new.pass }
        ensures mine { mine_of member.new.pass ≡ mine_of member.old.pass }
        ensures copies { IfOk result (Copies from (seen_of member.new.pass)) }
    {
        self.plan.copy_from(rt, alloc, &mut member.pass, from)
    }

    /// Lets no event be made from here on. It takes one turn and no memory.
    pub fn stop<R: Wait>(&self, rt: &R, member: &mut Member)
        requires { IsMember self.now member.old }
        ensures own { IsMember self.now member.new }
        ensures same { SameMember member.old member.new }
        ensures takes { TakesTurn member.old.pass member.new.pass }
        ensures stops { Stops member.old.author member.old.pass member.new.pass }
    {
        let author = member.author;
        self.plan.stop_as(rt, &mut member.pass, author);
    }
}
