//! How a crew begins.
ghost use Rattle.std.specs.Prelude.{◌≡◌, ◌≤◌, ◌<◌, [], true, IfOk, IfErr, vec_len, vec_capacity};
ghost use Rattle.pl_turn.specs.Passes.{seen_of, leads, made_by};
ghost use Rattle.pl_marks.specs.Authors.{IsAuthor};
ghost use Rattle.pl_pair.specs.Joins.{IsFresh, IsFirst, Splits};
ghost use Rattle.pl_many.specs.Members.{first_role, workers_of, IsNew, Crewed, IsHired};

use crate::crew::{Crew, Hired};
use crate::member::Member;
use pl_acts::Role;
use pl_choose::Seeded;
use pl_locked::{Pass, SharedPlan};
use pl_machine::Machine;
use pl_marks::Author;
use std::alloc::Global;

/// How an author begins to act. The chooser of a planner is made from the seed and the planner's number added up.
#[tactic(auto, unfolding(pl_pair::specs::Duties::chooser_of))]
fn first_role(seed: u64, author: Author) -> Option<Role>
    requires { seed ≤ 999999999999999999 }
    ensures { result ≡ first_role seed author }
{
    match author {
        Author::Feeder => None,
        Author::Executive => Some(Role::Executive),
        Author::Planner(number) => Some(Role::Planner(Seeded::new(seed + u64::from(number)))),
    }
}

/// A member with a pass of its own, which has seen as much as the first.
fn hire(alloc: Global, plan: &SharedPlan, first: &mut Pass, seed: u64, author: Author) -> Member
    requires fresh { IsFresh plan.now first.old }
    requires leads { leads first.old ≡ true }
    requires room { made_by first.old < 1000 }
    requires seed { seed ≤ 999999999999999999 }
    requires author { IsAuthor author }
    ensures fresh { IsFresh plan.now first.new }
    ensures splits { Splits first.old 1 first.new }
    ensures who { result.author ≡ author }
    ensures new { IsNew plan.now seed (seen_of first.old) result }
{
    let pass = plan.split(alloc, first).unwrap();
    Member {
        author,
        pass,
        role: first_role(seed, author),
    }
}

/// The executive and the planners by number, for whom there is room.
#[tactic(auto, using(crate::proofs::Beginning::crew_none, crate::proofs::Beginning::crew_more, crate::proofs::Beginning::crew_leads, crate::proofs::Beginning::crew_few))]
fn hire_all(
    alloc: Global,
    plan: &SharedPlan,
    first: &mut Pass,
    planners: u8,
    seed: u64,
    members: &mut Vec<Member>,
)
    requires first { IsFirst plan.now first.old }
    requires planners { planners ≤ 8 }
    requires seed { seed ≤ 999999999999999999 }
    requires none { (members.old.items ≡ []) × (vec_len members.old ≡ 0) }
    requires room { 9 ≤ vec_capacity members.old }
    ensures { Crewed plan.now seed (workers_of planners) first.old first.new members.new.items }
{
    members.push_reserved(hire(alloc, plan, first, seed, Author::Executive));
    for before in 0..planners {
        let author = Author::Planner(before + 1);
        members.push_reserved(hire(alloc, plan, first, seed, author));
    }
}

impl Crew {
    /// A crew over a machine. For want of memory the machine comes back.
    #[tactic(auto, using(crate::proofs::Beginning::first_pass))]
    pub fn new(alloc: Global, machine: Machine, planners: u8, seed: u64) -> Result<Hired, Machine>
        requires planners { (2 ≤ planners) × (planners ≤ 8) }
        requires seed { seed ≤ 999999999999999999 }
        ensures hired { IfOk result (IsHired planners seed machine) }
        ensures back { IfErr result (λ same. same ≡ machine) }
    {
        let Ok(mut members) = Vec::with_capacity(alloc, 9) else {
            return Err(machine);
        };
        let (plan, mut pass) = SharedPlan::new(alloc, machine)?;
        hire_all(alloc, &plan, &mut pass, planners, seed, &mut members);
        let feeder = Member {
            author: Author::Feeder,
            pass,
            role: None,
        };
        Ok(Hired {
            crew: Crew { plan },
            feeder,
            members,
        })
    }
}
