//! The members of a crew of two planners, and their calls, each compared with what is wanted.
ghost use Rattle.std.specs.Prelude.{◌≡◌, ◌≢◌, [], length, true};
ghost use Rattle.std.specs.List.{All};
ghost use Rattle.pl_turn.specs.Passes.{seen_of, crew_of, leads, made_by, joined_by};
ghost use Rattle.pl_marks.specs.declared.author.Author.TheVariants.{Feeder, Executive};
ghost use Rattle.pl_locked.specs.Turns.{CanSettle};
ghost use Rattle.pl_many.specs.Members.{IsMember};

use crate::asserting::holds;
use crate::plan::calls::has_newline;
use crate::worked::shared_model;
use pl_facts::Options;
use pl_machine::Machine;
use pl_many::{Acted, Author, Crew, Hired, Member, Sight, View};
use std::alloc::Global;
use std::process::Abort;
use std::sync::Wait;

/// A crew of two planners over a plan with nothing planned.
pub fn hired(rt: &impl Abort, alloc: Global) -> Hired
    ensures feeder { IsMember result.crew result.feeder }
    ensures feeds { result.feeder.author ≡ Feeder }
    ensures first { leads result.feeder.pass ≡ true }
    ensures three { (made_by result.feeder.pass ≡ 3) × (joined_by result.feeder.pass ≡ []) }
    ensures members { All (IsMember result.crew) result.members.items }
{
    let options = Options {
        turns: 8,
        live: 10000,
        goals: 20000,
        entries: 250000,
    };
    let machine = Machine::fresh(alloc, shared_model(rt, alloc), options).expect(rt, "memory");
    match Crew::new(alloc, machine, 2, 7) {
        Ok(hired) => hired,
        Err(_) => panic!(rt; "memory"),
    }
}

/// Takes the last of the members, who has this author.
pub fn last_of(rt: &impl Abort, crew: &Crew, members: &mut Vec<Member>, wanted: Author) -> Member
    requires { All (IsMember crew.now) members.old.items }
    ensures rest { All (IsMember crew.now) members.new.items }
    ensures own { IsMember crew.now result }
{
    let member = members.pop().expect(rt, "a member");
    holds(rt, "its author", member.author() == wanted);
    member
}

/// Feeds a message, the first of all.
pub fn tell<R: Abort + Wait>(rt: &R, alloc: Global, crew: &Crew, feeder: &mut Member, line: &[u8])
    requires own { IsMember crew.now feeder.old }
    requires feeder { feeder.old.author ≡ Feeder }
    ensures own { IsMember crew.now feeder.new }
    ensures crew { crew_of feeder.new.pass ≡ crew_of feeder.old.pass }
{
    holds(rt, "few bytes", line.len() <= 4096);
    holds(rt, "one line", !has_newline(line));
    let fed = crew.feed(rt, alloc, feeder, Some(line));
    holds(rt, "entry 1", fed == Ok(1));
}

fn is_planner(member: &Member) -> bool
    ensures { result ≡ true → (member.now.author ≢ Feeder) × (member.now.author ≢ Executive) }
{
    matches!(member.author(), Author::Planner(_))
}

/// What a planner saw.
pub fn sight_of<R: Abort + Wait>(rt: &R, alloc: Global, crew: &Crew, planner: &mut Member) -> Sight
    requires { IsMember crew.now planner.old }
    ensures own { IsMember crew.now planner.new }
    ensures sight { CanSettle (seen_of planner.new.pass) result }
{
    holds(rt, "a planner", is_planner(planner));
    match crew.view(rt, alloc, planner) {
        Ok(View::Copy(sight)) => sight,
        _ => panic!(rt; "no sight"),
    }
}

/// Settles, and compares the number of the entry.
pub fn settles<R: Abort + Wait>(
    rt: &R,
    alloc: Global,
    crew: &Crew,
    planner: &mut Member,
    sight: Sight,
    entry: u32,
)
    requires own { IsMember crew.now planner.old }
    requires sight { CanSettle (seen_of planner.old.pass) sight }
    ensures { IsMember crew.now planner.new }
{
    holds(rt, "a planner", is_planner(planner));
    let settled = crew.settle(rt, alloc, planner, sight);
    holds(rt, "what settles", settled == Ok(Acted::Did(entry)));
}

fn is_worker(member: &Member) -> bool
    ensures { result ≡ true → member.now.author ≢ Feeder }
{
    !matches!(member.author(), Author::Feeder)
}

/// Lets a member act, and compares the answer.
pub fn acts<R: Abort + Wait>(rt: &R, alloc: Global, crew: &Crew, member: &mut Member, wanted: Acted)
    requires { IsMember crew.now member.old }
    ensures { IsMember crew.now member.new }
{
    holds(rt, "a worker", is_worker(member));
    let acted = crew.act(rt, alloc, member);
    holds(rt, "what was done", acted == Ok(wanted));
}

/// Whether so many entries are copied in an open round, and whether the plan was stopped.
pub fn is_told<R: Abort + Wait>(
    rt: &R,
    alloc: Global,
    crew: &Crew,
    feeder: &mut Member,
    wanted: (usize, bool),
) -> bool
    requires { IsMember crew.now feeder.old }
    ensures own { IsMember crew.now feeder.new }
    ensures crew { crew_of feeder.new.pass ≡ crew_of feeder.old.pass }
{
    let part = crew.copy_from(rt, alloc, feeder, 0).expect(rt, "memory");
    let (entries, stopped) = wanted;
    part.entries.len() == entries && part.stopped == stopped && !part.closed && !part.done
}

/// Joins the executive and both planners to the feeder.
pub fn join_three(
    crew: &Crew,
    feeder: &mut Member,
    executive: Member,
    first: Member,
    second: Member,
)
    requires feeder { IsMember crew.now feeder.old }
    requires first_pass { leads feeder.old.pass ≡ true }
    requires three { (made_by feeder.old.pass ≡ 3) × (joined_by feeder.old.pass ≡ []) }
    requires executive { IsMember crew.now executive }
    requires first { IsMember crew.now first }
    requires second { IsMember crew.now second }
    ensures feeder { IsMember crew.now feeder.new }
    ensures first_pass { leads feeder.new.pass ≡ true }
    ensures all_joined { made_by feeder.new.pass ≡ length (joined_by feeder.new.pass) }
{
    crew.join(feeder, executive);
    crew.join(feeder, first);
    crew.join(feeder, second);
}
