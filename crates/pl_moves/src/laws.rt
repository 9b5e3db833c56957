//! Laws of the definitions, as contracts of a function that does nothing.

ghost use Rattle.std.specs.Prelude.{◌≡◌, true, None};
ghost use Rattle.pl_plan.specs.declared.repair.RepairMove.{RepairMove};
ghost use Rattle.pl_semantics.specs.declared.plan_state.PlanState.{PlanState};
ghost use Rattle.pl_semantics.specs.Moves.{is_proper, refusal_of, applied};
ghost use Rattle.pl_semantics.specs.Whole.{IsWhole};
ghost use Rattle.pl_moves.specs.Keeping.{GivesIds, KeepsCommitted, KeepsGoals};

/// What a proper move that is not refused leaves as it was. This holds of every whole plan state.
pub fn laws_of_repairs()
    ensures committed { (s : PlanState) (m : RepairMove) → IsWhole s → is_proper s m ≡ true → refusal_of s m ≡ None → KeepsCommitted s (applied s m) }
    ensures goals { (s : PlanState) (m : RepairMove) → IsWhole s → is_proper s m ≡ true → refusal_of s m ≡ None → KeepsGoals s (applied s m) }
    ensures ids { (s : PlanState) (m : RepairMove) → IsWhole s → is_proper s m ≡ true → refusal_of s m ≡ None → GivesIds s (applied s m) }
{}
