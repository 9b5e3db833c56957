//! Laws of changes, as contracts of functions that do nothing.

ghost use Rattle.std.specs.Prelude.{◌≡◌, ◌<◌, ◌≤◌, ◌&&◌, ◌||◌, not, true, false, All, ℕ, ℤ, List, [], ◌∷◌};
ghost use Rattle.pl_conflict.specs.declared.conflict.Conflict.{Conflict};
ghost use Rattle.pl_conflict.specs.Order.{has};
ghost use Rattle.pl_facts.specs.declared.goal.Goal.{Goal};
ghost use Rattle.pl_update.specs.Changes.Changes.{with_goal, without_goal, moved_on, told_now, committed_to, with_next};
ghost use Rattle.pl_semantics.specs.declared.plan_state.PlanState.{PlanState};
ghost use Rattle.pl_semantics.specs.Conflicts.{conflicts_of};
ghost use Rattle.pl_semantics.specs.Grants.{touches_before};
ghost use Rattle.pl_semantics.specs.Whole.{IsWhole};
ghost use Rattle.pl_plan.specs.declared.activity.Activity.{Activity};
ghost use Rattle.pl_update.specs.Changes.Replaced.{CanReplace, with_plan};
ghost use Rattle.pl_update.specs.GoalsAndActivities.Near.{near, IsPlain, Follows};
ghost use Rattle.pl_update.specs.GoalsAndActivities.Passed.{passed_goals, passed_ids};
ghost use Rattle.pl_update.specs.GoalsAndActivities.Committed.{missed_goals, early_ids};
ghost use Rattle.pl_update.specs.GoalsAndActivities.Touched.{touched_goals, turned_goals, touched_ids};

/// Where a change concerns some goals and activities alone, what stood at these goes and what stands at them now comes, and no
/// other conflict of goals or of activities does.
pub fn laws_of_nearness()
    ensures mended { (s t : PlanState) (numbers ids : List ℕ) → IsWhole s → IsWhole t → Follows s t numbers ids → (q : Conflict) → IsPlain q →
        has q (conflicts_of t) ≡ ((has q (conflicts_of s) && not (has q (near s numbers ids))) || has q (near t numbers ids)) }
    ensures plain { (s : PlanState) (numbers ids : List ℕ) (q : Conflict) → has q (near s numbers ids) ≡ true → IsPlain q }
{}

/// A goal that comes or is dropped concerns that goal alone. What is told, and the next id, concern no goal and no activity.
pub fn laws_of_goal_changes()
    ensures added { (s : PlanState) (g : Goal) → IsWhole s → Follows s (with_goal g s) (g.number ∷ []) [] }
    ensures dropped { (s : PlanState) (n : ℕ) → Follows s (without_goal n s) (n ∷ []) [] }
    ensures told { (s : PlanState) (line : ℕ) (value : ℤ) → Follows s (told_now line value s) [] [] }
    ensures next { (s : PlanState) (next : ℕ) → Follows s (with_next next s) [] [] }
{}

/// A replacement of activities concerns the goals that those serve which go or come, those activities, and the children of those
/// that go. A goal that is served before and after it is not concerned.
pub fn laws_of_replacements()
    ensures touched { (s : PlanState) (gone : List ℕ) (more : List Activity) → IsWhole s → CanReplace s gone more → Follows s (with_plan gone more s) (touched_goals s gone more) (touched_ids s gone more) }
    ensures turned { (s : PlanState) (gone : List ℕ) (more : List Activity) → IsWhole s → CanReplace s gone more → Follows s (with_plan gone more s) (turned_goals s gone more) (touched_ids s gone more) }
{}

/// As the present moves on it concerns the open goals that can no longer be met, and the activities that become late.
pub fn laws_of_moments()
    ensures { (s : PlanState) (now : ℕ) → IsWhole s → s.moment < now → Follows s (moved_on now s) (passed_goals now (conflicts_of s)) (passed_ids s now) }
{}

/// A commit concerns the open goals that can no longer be met, and the activities of which something is wrong before its moment. Where
/// no conflict touches what comes before it, it changes none.
pub fn laws_of_commits()
    ensures concerns { (s : PlanState) (h : ℕ) → IsWhole s → s.committed ≤ h → Follows s (committed_to h s) (missed_goals h (conflicts_of s)) (early_ids h (conflicts_of s)) }
    ensures none { (s : PlanState) (h : ℕ) → s.committed ≤ h → All (λ k. touches_before h k ≡ false) (conflicts_of s) → conflicts_of (committed_to h s) ≡ conflicts_of s }
{}
