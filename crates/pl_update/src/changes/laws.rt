ghost use Rattle.std.specs.Prelude.{◌≡◌, ◌<◌, ◌≤◌, ℕ, ℤ, List, [], ◌∷◌, Some, None, All, slice_get, if◌then◌else◌};
ghost use Rattle.std.specs.Option.{option_or};
ghost use Rattle.pl_facts.specs.declared.goal.Goal.{Goal};
ghost use Rattle.pl_facts.specs.Goals.{goal_of};
ghost use Rattle.pl_model.specs.declared.whole.Model.{Model};
ghost use Rattle.pl_model.specs.Checked.{IsChecked};
ghost use Rattle.pl_plan.specs.declared.activity.Activity.{Activity};
ghost use Rattle.pl_plan.specs.Activities.{activity_of, ended};
ghost use Rattle.pl_semantics.specs.declared.plan_state.PlanState.{PlanState};
ghost use Rattle.pl_semantics.specs.PlanStates.{among, found};
ghost use Rattle.pl_semantics.specs.Whole.{IsWhole, IsGoalOf, IsIdBelow};
ghost use Rattle.pl_update.specs.Changes.Changes.{first_state, with_goal, without_goal, moved_on, told_now, committed_to, measured_to, withdrawn, with_next, CanTell, CanMeasure};
ghost use Rattle.pl_update.specs.Changes.Replaced.{CanReplace, replaced, with_plan};

/// A first state is whole, and each change leaves a whole state whole. To measure an end is to replace the activity by
/// itself with this end. Under an id a replacement leaves what comes under it, else what was there, unless that goes. It
/// does nothing.
pub fn laws_of_plan_changes()
    ensures first { (model : Model) (live : ℕ) → IsChecked model → live ≤ 10000 → IsWhole (first_state model live) }
    ensures goal_comes { (s : PlanState) (goal : Goal) → IsWhole s → goal_of goal.number s.goals ≡ None → IsGoalOf s.model goal → IsWhole (with_goal goal s) }
    ensures goal_goes { (s : PlanState) (number : ℕ) → IsWhole s → IsWhole (without_goal number s) }
    ensures later { (s : PlanState) (now : ℕ) → IsWhole s → s.moment < now → now ≤ s.model.horizon → IsWhole (moved_on now s) }
    ensures told { (s : PlanState) (line : ℕ) (value : ℤ) → IsWhole s → CanTell value (slice_get s.model.timelines line) → IsWhole (told_now line value s) }
    ensures committed { (s : PlanState) (h : ℕ) → IsWhole s → s.committed ≤ h → h ≤ s.model.horizon → IsWhole (committed_to h s) }
    ensures withdrawn { (s : PlanState) → IsWhole s → IsWhole (withdrawn s) }
    ensures measured { (s : PlanState) (id moment : ℕ) → IsWhole s → CanMeasure s id moment → IsWhole (measured_to id moment s) }
    ensures may_measure { (s : PlanState) (id moment : ℕ) (a : Activity) → IsWhole s → found s id ≡ Some a → CanMeasure s id moment → CanReplace s (id ∷ []) (ended moment a ∷ []) }
    ensures measures { (s : PlanState) (id moment : ℕ) (a : Activity) → IsWhole s → found s id ≡ Some a → with_plan (id ∷ []) (ended moment a ∷ []) s ≡ measured_to id moment s }
    ensures next { (s : PlanState) (id : ℕ) → IsWhole s → 1 ≤ id → All (IsIdBelow id) s.plan.activities → id ≤ s.next_id → IsWhole (with_next id s) }
    ensures replaced { (s : PlanState) (gone : List ℕ) (more : List Activity) → IsWhole s → CanReplace s gone more → IsWhole (with_plan gone more s) }
    ensures found { (s : PlanState) (gone : List ℕ) (more : List Activity) (q : ℕ) → IsWhole s → CanReplace s gone more →
        activity_of q (replaced s.plan.activities gone more) ≡ option_or (activity_of q more) (if among q gone then None else activity_of q s.plan.activities) }
{}
