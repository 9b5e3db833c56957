//! Laws of the definitions, as contracts of functions that do nothing.

ghost use Rattle.std.specs.Prelude.{◌≡◌, nat_le, true, List, All, Some, None, map, find, slice_get};
ghost use Rattle.std.specs.List.{list_all};
ghost use Rattle.pl_plan.specs.declared.activity.Activity.{Activity};
ghost use Rattle.pl_plan.specs.Activities.{AreRising, activity_of, placed, without};
ghost use Rattle.pl_plan.specs.Trees.{id_of};
ghost use Rattle.pl_update.specs.Changes.Replaced.{taken, replaced};
ghost use Rattle.pl_update.specs.Changes.Putting.{CanPut};
ghost use Rattle.pl_memo.specs.declared.difference.Difference.{Difference};
ghost use Rattle.pl_memo.specs.Differences.{IsDifference, no_difference, leaving, Comes, IsChangedBy, CanLeave};
ghost use Rattle.pl_plan.specs.declared.repair.RepairMove.{RepairMove};
ghost use Rattle.pl_semantics.specs.declared.plan_state.PlanState.{PlanState};
ghost use Rattle.pl_semantics.specs.Legal.{left_after};
ghost use Rattle.pl_semantics.specs.Whole.{IsWhole};
ghost use Rattle.pl_memo.specs.declared.memory.Answer.{Answer};
ghost use Rattle.pl_memo.specs.Memories.{AreProper, Holds, IsFewestAt};
ghost use Rattle.pl_memo.specs.Renames.{OnlyRenames, renamed_move};
ghost use Rattle.pl_memo.specs.Fewest.{fewest_place};

/// A plan does not differ from itself. A replacement changes the difference by what leaves and what comes, and the plan is
/// always the earlier one with what is gone taken out and what is placed put in.
pub fn laws_of_differences()
    ensures none { (earlier : List Activity) → IsDifference earlier earlier no_difference }
    ensures leaves { (earlier xs : List Activity) (d : Difference) (a : Activity) → AreRising xs → IsDifference earlier xs d → activity_of a.id xs ≡ Some a → IsDifference earlier (without a.id xs) (leaving d a) }
    ensures comes { (earlier xs : List Activity) (d e : Difference) (a : Activity) → AreRising xs → IsDifference earlier xs d → activity_of a.id xs ≡ None → Comes d a e → IsDifference earlier (placed a xs) e }
    ensures replacement { (earlier xs out more : List Activity) (d e : Difference) → AreRising xs → IsDifference earlier xs d → CanLeave xs out → CanPut (taken xs (map id_of out)) more → IsChangedBy out more d e
        → IsDifference earlier (replaced xs (map id_of out) more) e }
    ensures shape { (earlier xs : List Activity) (d : Difference) → AreRising earlier → AreRising xs → IsDifference earlier xs d → xs ≡ replaced earlier (map id_of d.gone) d.placed }
{}

/// The first move that leaves the fewest conflicts is told by its place. In two states that are the same but for the ids of the newest
/// roots, it stands at the same place among moves that are the same but for these ids.
pub fn laws_of_the_fewest()
    ensures place { (s : PlanState) (moves : List RepairMove) →
        find (λ m. list_all (λ other. nat_le (left_after s m) (left_after s other)) moves) moves ≡ slice_get moves (fewest_place s moves) }
    ensures alike { (s : PlanState) (a : Answer) (moves : List RepairMove) → IsWhole s → Holds s a → OnlyRenames a.since s.plan.activities → map (renamed_move a.since) a.moves ≡ moves → AreProper s moves → IsFewestAt s moves a.place }
{}
