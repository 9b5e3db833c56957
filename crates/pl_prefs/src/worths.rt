//! What activities count for all that is preferred.
ghost use Rattle.std.specs.Prelude.{◌≡◌, ◌≤◌, ◌*◌, length, All, IfOk, Some};
ghost use Rattle.pl_plan.specs.Activities.{activity_of};
ghost use Rattle.pl_points.specs.Sums.{total};
ghost use Rattle.pl_semantics.specs.Demands.{demands_at};
ghost use Rattle.pl_semantics.specs.Whole.{IsWhole};
ghost use Rattle.pl_prefs.specs.Bounds.{IsWithin};
ghost use Rattle.pl_prefs.specs.Prefers.{IsPreferOf};
ghost use Rattle.pl_prefs.specs.Worths.{worth_for, worth};

use crate::levels::level_worth;
use crate::prefer::Prefer;
use crate::scores::share_of;
use pl_detect::demands_at;
use pl_plan::Activity;
use pl_semantics::{Demand, PlanState};
use std::alloc::{AllocError, Global};

// What an activity counts for one preference.
fn worth_for(s: &PlanState, a: &Activity, demands: &[Demand], prefer: &Prefer) -> i128
    requires whole { IsWhole s.now }
    requires live { activity_of a.now.id s.now.plan.activities ≡ Some a.now }
    requires fits { IsPreferOf s.now.model prefer.now }
    requires demands { demands.now ≡ demands_at s.now a.now }
    requires few { length demands.now ≤ 32 }
    ensures value { result ≡ worth_for s.now a.now prefer.now }
    ensures within { IsWithin 1 result }
{
    match *prefer {
        Prefer::Early(..) => share_of(s, prefer, a),
        Prefer::Late(..) => share_of(s, prefer, a),
        Prefer::Value(..) => share_of(s, prefer, a),
        Prefer::Level(line, weight) => level_worth(s, line, weight, a, demands),
    }
}

// What an activity counts that asks for these demands.
fn worth_with(s: &PlanState, a: &Activity, demands: &[Demand], prefers: &[Prefer]) -> i128
    requires whole { IsWhole s.now }
    requires live { activity_of a.now.id s.now.plan.activities ≡ Some a.now }
    requires fits { All (IsPreferOf s.now.model) prefers.now }
    requires few_prefers { length prefers.now ≤ 64 }
    requires demands { demands.now ≡ demands_at s.now a.now }
    requires few { length demands.now ≤ 32 }
    ensures value { result ≡ worth s.now prefers.now a.now }
    ensures within { IsWithin 64 result }
{
    let mut sum: i128 = 0;
    for prefer in prefers {
        sum += worth_for(s, a, demands, prefer);
    }
    sum
}

fn worth(alloc: Global, s: &PlanState, prefers: &[Prefer], a: &Activity) -> Result<i128, AllocError>
    requires whole { IsWhole s.now }
    requires live { activity_of a.now.id s.now.plan.activities ≡ Some a.now }
    requires fits { All (IsPreferOf s.now.model) prefers.now }
    requires few { length prefers.now ≤ 64 }
    ensures value { IfOk result (λ z. z ≡ worth s.now prefers.now a.now) }
    ensures within { IfOk result (IsWithin 64) }
{
    let mut demands = Vec::new(alloc);
    demands_at(alloc, s, a, &mut demands)?;
    Ok(worth_with(s, a, &demands, prefers))
}

/// What these live activities count together.
pub(crate) fn worth_of_all(
    alloc: Global,
    s: &PlanState,
    prefers: &[Prefer],
    activities: &[Activity],
) -> Result<i128, AllocError>
    requires whole { IsWhole s.now }
    requires live { All (λ a. activity_of a.id s.now.plan.activities ≡ Some a) activities.now }
    requires few_activities { length activities.now ≤ 10000 }
    requires fits { All (IsPreferOf s.now.model) prefers.now }
    requires few { length prefers.now ≤ 64 }
    ensures value { IfOk result (λ z. z ≡ total (worth s.now prefers.now) activities.now) }
    ensures within { IfOk result (IsWithin 640000) }
{
    let mut sum: i128 = 0;
    for a in activities {
        sum += worth(alloc, s, prefers, a)?;
    }
    Ok(sum)
}
