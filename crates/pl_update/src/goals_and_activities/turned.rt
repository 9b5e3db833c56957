//! Which goals one that goes in a replacement serves and none that comes, and which ones one that comes serves and none that goes.
ghost use Rattle.std.specs.Prelude.{◌≡◌, ◌++◌, ◌∷◌, [], not, filter, All, IfOk, OnOk};
ghost use Rattle.std.specs.List.{flat_map};
ghost use Rattle.std.specs.Option.{option_to_list};
ghost use Rattle.pl_plan.specs.Activities.{IsLive};
ghost use Rattle.pl_plan.specs.Index.{is_number};
ghost use Rattle.pl_plan.specs.Serving.{served_in, serves};
ghost use Rattle.pl_semantics.specs.Whole.{IsWhole};
ghost use Rattle.pl_update.specs.GoalsAndActivities.Near.{HoldSame};
ghost use Rattle.pl_update.specs.GoalsAndActivities.Touched.{served_at, served_by_id, served_before, served_after, lost_goals, met_goals, touched_ids};

use crate::goals_and_activities::touched::{
    Touched, each_once, ids_touched, served_by_id, served_in,
};
use pl_plan::Activity;
use pl_semantics::PlanState;
use std::alloc::{AllocError, Global};

/// The goals and activities whose conflicts a replacement may change. Before it, these are the goals in `met`, which one
/// that comes serves and none that goes, with the activities of `after`. After it, they are those in `after`: the goals that
/// one that goes serves and none that comes, and the same activities.
#[derive(Drop)]
pub struct Turned {
    pub met: Vec<u32>,
    pub after: Touched,
}

fn is_number(number: u32, other: Option<u32>) -> bool
    ensures { result ≡ is_number number other }
{
    match other {
        Some(other) => other == number,
        None => false,
    }
}

fn serves(a: &Activity, number: u32) -> bool
    ensures { result ≡ serves number a.now }
{
    is_number(number, served_in(a))
}

fn serves_by_id(s: &PlanState, id: u32, number: u32) -> bool
    ensures { result ≡ is_number number (served_by_id s.now id) }
{
    is_number(number, served_by_id(s, id))
}

fn served_before(s: &PlanState, gone: &[u32], number: u32) -> bool
    ensures { result ≡ served_before s.now gone.now number }
{
    gone.iter().any(|id| serves_by_id(s, *id, number))
}

fn served_after(placed: &[Activity], number: u32) -> bool
    ensures { result ≡ served_after placed.now number }
{
    placed.iter().any(|a| serves(a, number))
}

fn add_unless_after(
    placed: &[Activity],
    number: u32,
    numbers: &mut Vec<u32>,
) -> Result<(), AllocError>
    ensures { OnOk result (numbers.new.items ≡ numbers.old.items ++ filter (λ n. not (served_after placed.now n)) (number ∷ [])) }
{
    if !served_after(placed, number) {
        numbers.push(number)?;
    }
    Ok(())
}

fn add_unless_before(
    s: &PlanState,
    gone: &[u32],
    number: u32,
    numbers: &mut Vec<u32>,
) -> Result<(), AllocError>
    ensures { OnOk result (numbers.new.items ≡ numbers.old.items ++ filter (λ n. not (served_before s.now gone.now n)) (number ∷ [])) }
{
    if !served_before(s, gone, number) {
        numbers.push(number)?;
    }
    Ok(())
}

// The goal of one that goes, which none that comes serves.
fn add_lost(
    s: &PlanState,
    placed: &[Activity],
    id: u32,
    numbers: &mut Vec<u32>,
) -> Result<(), AllocError>
    ensures { OnOk result (numbers.new.items ≡ numbers.old.items ++ filter (λ n. not (served_after placed.now n)) (served_at s.now id)) }
{
    match served_by_id(s, id) {
        Some(number) => add_unless_after(placed, number, numbers),
        None => Ok(()),
    }
}

// The goal of one that comes, which none that goes serves.
fn add_met(
    s: &PlanState,
    gone: &[u32],
    a: &Activity,
    numbers: &mut Vec<u32>,
) -> Result<(), AllocError>
    ensures { OnOk result (numbers.new.items ≡ numbers.old.items ++ filter (λ n. not (served_before s.now gone.now n)) (option_to_list (served_in a.now))) }
{
    match served_in(a) {
        Some(number) => add_unless_before(s, gone, number, numbers),
        None => Ok(()),
    }
}

#[tactic(auto, unfolding(crate::specs::GoalsAndActivities::Touched::lost_goals))]
fn goals_lost(
    alloc: Global,
    s: &PlanState,
    gone: &[u32],
    placed: &[Activity],
) -> Result<Vec<u32>, AllocError>
    ensures { IfOk result (λ numbers. numbers.items ≡ lost_goals s.now gone.now placed.now) }
{
    let mut numbers = Vec::new(alloc);
    for id in gone {
        add_lost(s, placed, *id, &mut numbers)?;
    }
    Ok(numbers)
}

#[tactic(auto, unfolding(crate::specs::GoalsAndActivities::Touched::met_goals))]
fn goals_met(
    alloc: Global,
    s: &PlanState,
    gone: &[u32],
    placed: &[Activity],
) -> Result<Vec<u32>, AllocError>
    ensures { IfOk result (λ numbers. numbers.items ≡ met_goals s.now gone.now placed.now) }
{
    let mut numbers = Vec::new(alloc);
    for a in placed {
        add_met(s, gone, a, &mut numbers)?;
    }
    Ok(numbers)
}

/// What it concerns that activities go and others come: before it the goals that one that comes serves and none that goes,
/// and after it those that one that goes serves and none that comes. The activities are those that go or come and the children
/// of those that go, each once.
pub fn turned_by(
    alloc: Global,
    s: &PlanState,
    gone: &[u32],
    placed: &[Activity],
) -> Result<Turned, AllocError>
    requires whole { IsWhole s.now }
    requires live { All (λ id. IsLive id s.now.plan.activities) gone.now }
    ensures met { IfOk result (λ t. t.met.items ≡ met_goals s.now gone.now placed.now) }
    ensures lost { IfOk result (λ t. t.after.numbers.items ≡ lost_goals s.now gone.now placed.now) }
    ensures ids { IfOk result (λ t. HoldSame t.after.ids.items (touched_ids s.now gone.now placed.now)) }
{
    let met = goals_met(alloc, s, gone, placed)?;
    let numbers = goals_lost(alloc, s, gone, placed)?;
    let ids = ids_touched(alloc, s, gone, placed)?;
    let ids = each_once(ids);
    Ok(Turned {
        met,
        after: Touched { numbers, ids },
    })
}
