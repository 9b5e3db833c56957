//! What each demand keeps, and how few there are.
ghost use Rattle.std.specs.Prelude.{◌≡◌, ◌≤◌, Some, All, length};
ghost use Rattle.pl_plan.specs.declared.activity.Activity.{Activity};
ghost use Rattle.pl_plan.specs.Activities.{activity_of};
ghost use Rattle.pl_semantics.specs.declared.plan_state.PlanState.{PlanState};
ghost use Rattle.pl_semantics.specs.Whole.{IsWhole};
ghost use Rattle.pl_semantics.specs.Demands.{demands_at, demands_of};
ghost use Rattle.pl_detect.specs.Bounds.{IsDemandOf};

/// Each demand is one of a timeline of its sort, in the bounds that the timelines ask for. An activity has at most 32 of
/// them, and all together have at most 320,000.
pub fn laws_of_demands()
    ensures at { (s : PlanState) (a : Activity) → IsWhole s → activity_of a.id s.plan.activities ≡ Some a → All (IsDemandOf s.model) (demands_at s a) }
    ensures all { (s : PlanState) → IsWhole s → All (IsDemandOf s.model) (demands_of s) }
    ensures few_at { (s : PlanState) (a : Activity) → IsWhole s → activity_of a.id s.plan.activities ≡ Some a → length (demands_at s a) ≤ 32 }
    ensures few { (s : PlanState) → IsWhole s → length (demands_of s) ≤ 320000 }
{}
