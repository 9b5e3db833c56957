//! The first users of a timeline that has a conflict.
ghost use Rattle.std.specs.Prelude.{◌≡◌, ◌<◌, ◌≤◌, List, ◌∷◌, IfOk, OnOk, Some, length, drop, map};
ghost use Rattle.pl_plan.specs.declared.activity.Activity.{Activity};
ghost use Rattle.pl_plan.specs.Activities.{activity_of};
ghost use Rattle.pl_plan.specs.Trees.{id_of};
ghost use Rattle.pl_semantics.specs.Whole.{IsWhole};
ghost use Rattle.pl_semantics.specs.LineRepairs.{first_eight};
ghost use Rattle.pl_cand.specs.Tests.{plays, users_with};

use crate::role::Role;
use crate::users::is_user;
use pl_plan::Activity;
use pl_semantics::PlanState;
use std::alloc::{AllocError, Global};

/// For how many users moves are tried, at most.
pub(crate) const USERS: usize = 8;

// So many activities are looked at before it is asked again which can be passed over.
const PART: usize = 32;

// Puts the id of an activity at the end if it is not committed and plays the role.
#[tactic(auto, using(crate::proofs::Keeping::users_past, crate::proofs::Keeping::users_more))]
fn add_if_user(
    alloc: Global,
    state: &PlanState,
    timeline: u32,
    role: Role,
    a: &Activity,
    ids: &mut Vec<u32>,
) -> Result<(), AllocError>
    requires whole { IsWhole state.now }
    requires live { activity_of a.now.id state.now.plan.activities ≡ Some a.now }
    requires room { length ids.old.items < 8 }
    ensures { OnOk result ((rest : List Activity) → users_with state.now timeline role ids.old.items (a.now ∷ rest) ≡ users_with state.now timeline role ids.new.items rest) }
{
    if is_user(alloc, state, timeline, role, a)? {
        ids.push(a.id)?;
    }
    Ok(())
}

// Puts the ids of those at these places behind the others that are not committed and play the role, as long as there are fewer
// than eight.
#[tactic(auto, using(crate::proofs::Keeping::users_full))]
fn add_users(
    alloc: Global,
    state: &PlanState,
    timeline: u32,
    role: Role,
    begin: usize,
    behind: usize,
    ids: &mut Vec<u32>,
) -> Result<(), AllocError>
    requires whole { IsWhole state.now }
    requires begin { begin ≤ behind }
    requires behind { behind ≤ length state.now.plan.activities }
    ensures { OnOk result (users_with state.now timeline role ids.old.items (drop begin state.now.plan.activities) ≡ users_with state.now timeline role ids.new.items (drop behind state.now.plan.activities)) }
{
    let activities = state.plan.activities();
    for place in begin..behind {
        if ids.len() >= USERS {
            return Ok(());
        }
        add_if_user(alloc, state, timeline, role, &activities[place], ids)?;
    }
    Ok(())
}

/// The ids of the first eight activities that are not committed and play the role. Most activities are committed, so these are
/// passed over.
#[tactic(auto, using(crate::proofs::Keeping::users_full))]
pub(crate) fn first_users(
    alloc: Global,
    state: &PlanState,
    timeline: u32,
    role: Role,
) -> Result<Vec<u32>, AllocError>
    requires { IsWhole state.now }
    ensures { IfOk result (λ ids. ids.items ≡ map id_of (first_eight state.now (plays state.now timeline role))) }
{
    let mut ids = Vec::new(alloc);
    let count = state.plan.activities().len();
    let mut place = 0;
    'parts: while place < count {
        if ids.len() >= USERS {
            return Ok(ids);
        }
        let begin = state.plan.pass_early(place, state.committed);
        let behind = count.min(begin + PART);
        add_users(alloc, state, timeline, role, begin, behind, &mut ids)?;
        place = behind;
    }
    Ok(ids)
}
