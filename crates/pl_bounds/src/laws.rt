//! Laws of the definitions, as contracts of functions that do nothing.

ghost use Rattle.std.specs.Prelude.{◌≡◌, ◌≤◌, ◌+◌, ◌++◌, filter, ◌-◌, ◌+ℤ◌, None, Some, map, ℕ, Bool, true, false, List, length};
ghost use Rattle.pl_conflict.specs.declared.conflict.Conflict.{Conflict};
ghost use Rattle.pl_conflict.specs.Order.{has};
ghost use Rattle.pl_conflict.specs.Sorting.{AreInOrder};
ghost use Rattle.pl_model.specs.declared.whole.Model.{Model};
ghost use Rattle.pl_plan.specs.Trees.{IsRooted};
ghost use Rattle.pl_plan.specs.Values.{values_of};
ghost use Rattle.pl_update.specs.GoalsAndActivities.Near.{near, IsPlain, Follows};
ghost use Rattle.pl_semantics.specs.Conflicts.{conflicts_of};
ghost use Rattle.pl_conflict.specs.declared.conflict.Code.{Code};
ghost use Rattle.pl_points.specs.declared.span.Span.{Span};
ghost use Rattle.pl_points.specs.Spans as spans;
ghost use Rattle.pl_semantics.specs.Timelines.{outside};
ghost use Rattle.pl_bounds.specs.Counts.{AreApart};
ghost use Rattle.pl_update.specs.Evaluations.Shifted.{AreStill};
ghost use Rattle.pl_bounds.specs.Moved.{demand_moved};
ghost use Rattle.pl_update.specs.Changes.Replaced.{CanReplace, with_plan};
ghost use Rattle.pl_update.specs.Timelines.Laws.{AreOnce, gone_from, coming_to};
ghost use Rattle.pl_plan.specs.declared.activity.Activity.{Activity};
ghost use Rattle.pl_points.specs.Spans.{spans_of};
ghost use Rattle.pl_semantics.specs.Demands.{use_at, level_at, demands_at};
ghost use Rattle.pl_semantics.specs.Moves.{moved};
ghost use Rattle.pl_semantics.specs.PlanStates.{found, row_of};
ghost use Rattle.pl_semantics.specs.Whole.{IsWhole};
ghost use Rattle.pl_semantics.specs.declared.plan_state.PlanState.{PlanState};
ghost use Rattle.pl_bounds.specs.Pulls.{taken_by, pulled_by};
ghost use Rattle.pl_bounds.specs.Risings.{risings, AreMoments};

/// Among some moments a property comes to hold no more often than it has maximal spans.
pub fn laws_of_samples()
    ensures { (P : ℕ → Bool) (a b : ℕ) (moments : List ℕ) → a ≤ b → AreMoments a b moments → risings P false moments ≤ length (spans_of P a (b - a)) }
{}

/// A replacement changes what is in use, and a level, by what goes and by what comes.
pub fn laws_of_values()
    ensures uses { (s : PlanState) (gone : List ℕ) (more : List Activity) (line t : ℕ) → IsWhole s → CanReplace s gone more → AreOnce gone →
        (use_at (with_plan gone more s) line t +ℤ taken_by line t (gone_from s gone)) ≡ (use_at s line t +ℤ taken_by line t (coming_to (with_plan gone more s) more)) }
    ensures levels { (s : PlanState) (gone : List ℕ) (more : List Activity) (line t : ℕ) → IsWhole s → CanReplace s gone more → AreOnce gone →
        (level_at (with_plan gone more s) line t +ℤ pulled_by s line t (gone_from s gone)) ≡ (level_at s line t +ℤ pulled_by s line t (coming_to (with_plan gone more s) more)) }
{}

/// Conflicts that differ, and that a list in order holds, are no more than the list is long.
pub fn laws_of_counts()
    ensures { (ks all : List Conflict) → AreApart ks → AreInOrder all → ((q : Conflict) → has q ks ≡ true → has q all ≡ true) → length ks ≤ length all }
{}

/// What an activity comes to does not hang on starts.
pub fn laws_of_starts()
    ensures { (model : Model) (xs ys : List Activity) → IsRooted xs → IsRooted ys → AreStill xs ys → (id : ℕ) → values_of model xs id ≡ values_of model ys id }
{}

/// What an activity asks for moves along with it, where its end was not measured.
pub fn laws_of_moving()
    ensures { (s : PlanState) (gone : List ℕ) (more : List Activity) (a : Activity) (from to : ℕ) → found s a.id ≡ Some a
        → found (with_plan gone more s) a.id ≡ Some (moved from to a) → row_of (with_plan gone more s) (moved from to a) ≡ row_of s a → a.measured ≡ None → from ≤ a.start + to
        → demands_at (with_plan gone more s) (moved from to a) ≡ map (demand_moved from to) (demands_at s a) }
{}

/// What is wrong with goals and activities that a change does not concern stands after it.
pub fn laws_of_the_steady()
    ensures { (s t : PlanState) (numbers ids : List ℕ) → IsWhole s → IsWhole t → Follows s t numbers ids → (q : Conflict) → IsPlain q
        → has q (conflicts_of s) ≡ true → has q (near s numbers ids) ≡ false → has q (conflicts_of t) ≡ true }
{}

/// Conflicts differ in two lists that do not meet, among those of a list that pass a test, and at the spans of a timeline.
pub fn laws_of_differing()
    ensures both { (xs ys : List Conflict) → AreApart xs → AreApart ys → ((q : Conflict) → has q xs ≡ true → has q ys ≡ false) → AreApart (xs ++ ys) }
    ensures passing { (p : Conflict → Bool) (ks : List Conflict) → AreApart ks → AreApart (filter p ks) }
    ensures at_spans { (why : Code) (line a b : ℕ) (ps : List Span) → spans.AreApart a b ps → AreApart (map (outside why line) ps) }
{}
