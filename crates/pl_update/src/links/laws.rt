//! Laws of the definitions, as contracts of functions that do nothing.
ghost use Rattle.std.specs.Prelude.{◌≡◌, ℕ, ◌≤◌, ℤ, List, []};
ghost use Rattle.pl_conflict.specs.declared.conflict.Conflict.{Conflict};
ghost use Rattle.pl_facts.specs.declared.goal.Goal.{Goal};
ghost use Rattle.pl_links.specs.Kept.{Kept, kept_of};
ghost use Rattle.pl_model.specs.declared.whole.Model.{Model};
ghost use Rattle.pl_semantics.specs.Links.{placed_in};
ghost use Rattle.pl_semantics.specs.declared.plan_state.PlanState.{PlanState};
ghost use Rattle.pl_semantics.specs.Conflicts.{conflicts_of};
ghost use Rattle.pl_update.specs.Changes.Changes.{first_state, with_goal, without_goal, moved_on, told_now, committed_to, with_next};
ghost use Rattle.pl_update.specs.Links.Mended.{KeepsLinks};
ghost use Rattle.pl_update.specs.Links.Passing.{IsBefore, ShowsLinks};

/// Goals, telemetry and the next id leave the conflicts of links and orders as they are, and an empty store is that of a first state.
pub fn laws_of_keeping()
    ensures with_goal { (s : PlanState) (goal : Goal) → KeepsLinks s (with_goal goal s) }
    ensures without_goal { (s : PlanState) (number : ℕ) → KeepsLinks s (without_goal number s) }
    ensures told { (s : PlanState) (line : ℕ) (value : ℤ) → KeepsLinks s (told_now line value s) }
    ensures first { (model : Model) (live : ℕ) (links : Kept) → links.items ≡ [] → links.broken ≡ [] → links ≡ kept_of model (placed_in (first_state model live)) }
    ensures with_next { (s : PlanState) (id : ℕ) → KeepsLinks s (with_next id s) }
{}

/// A later present or a later horizon of what is committed is what `pass` goes by, and the conflicts of a state show those of
/// its links and orders.
pub fn laws_of_passing()
    ensures moved_on { (s : PlanState) (now : ℕ) → s.moment ≤ now → IsBefore s (moved_on now s) }
    ensures committed { (s : PlanState) (h : ℕ) → s.committed ≤ h → IsBefore s (committed_to h s) }
    ensures shown { (s : PlanState) (all : List Conflict) → all ≡ conflicts_of s → ShowsLinks s all }
{}
