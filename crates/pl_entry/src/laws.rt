ghost use Rattle.std.specs.Prelude.{◌≡◌, ℕ, ◌≤◌, Bool, List, ◌++◌, slice_get};
ghost use Rattle.std.specs.List.Sorted.{IsStrictlySortedBy};
ghost use Rattle.pl_model.specs.declared.whole.Model.{Model};
ghost use Rattle.pl_conflict.specs.declared.conflict.Conflict.{Conflict};
ghost use Rattle.pl_conflict.specs.Order.{conflict_cmp};
ghost use Rattle.pl_plan.specs.declared.activity.Activity.{Activity};
ghost use Rattle.pl_plan.specs.Activities.{AreRising};
ghost use Rattle.pl_entry.specs.Horizon.{IsBest, best_of};
ghost use Rattle.pl_entry.specs.Due.{AreDue, due_of, due_since};

/// Of a sorted list of conflicts the first alone decides the furthest moment up to the target before which none stands.
pub fn laws_of_horizon()
    ensures best { (model : Model) (now : ℕ) (halted : Bool) (ks : List Conflict) → IsStrictlySortedBy conflict_cmp ks → IsBest model now halted ks (best_of model now halted (slice_get ks 0)) }
{}

/// The list of the due activities holds exactly their ids, each before those that start later, and no other list does. The list of a later moment,
/// or of a larger commit, begins with the earlier one; that of a later moment goes on with what comes to be due.
pub fn laws_of_due()
    ensures meets { (model : Model) (xs : List Activity) → AreRising xs → (now c : ℕ) → AreDue model xs now c (due_of model xs now c) }
    ensures only { (model : Model) (xs : List Activity) → AreRising xs → (now c : ℕ) (ids : List ℕ) → AreDue model xs now c ids → ids ≡ due_of model xs now c }
    ensures grows { (model : Model) (xs : List Activity) → AreRising xs → (now c later higher : ℕ) → now ≤ later → c ≤ higher → (rest : List ℕ) × (due_of model xs later higher ≡ due_of model xs now c ++ rest) }
    ensures goes_on { (model : Model) (xs : List Activity) → AreRising xs → (before now c : ℕ) → before ≤ now → due_of model xs now c ≡ due_of model xs before c ++ due_since model xs before now c }
{}
