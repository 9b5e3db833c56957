//! Laws of the definitions, as contracts of functions that do nothing.

ghost use Rattle.std.specs.Prelude.{◌≡◌, ℕ, true, List, map, length};
ghost use Rattle.std.specs.Option.{option_map};
ghost use Rattle.pl_conflict.specs.declared.conflict.Conflict.{Conflict};
ghost use Rattle.pl_conflict.specs.Sorting.{sorted};
ghost use Rattle.pl_plan.specs.declared.activity.Activity.{Activity};
ghost use Rattle.pl_plan.specs.Activities.{activity_of};
ghost use Rattle.pl_plan.specs.Trees.{IsRooted, descends};
ghost use Rattle.pl_plan.specs.Moves.{without_subtree};
ghost use Rattle.pl_semantics.specs.declared.plan_state.PlanState.{PlanState};
ghost use Rattle.pl_semantics.specs.Goals.{goal_conflicts};
ghost use Rattle.pl_semantics.specs.Activities.{activity_conflicts};
ghost use Rattle.pl_semantics.specs.Links.{link_conflicts};
ghost use Rattle.pl_semantics.specs.Timelines.{timeline_conflicts};
ghost use Rattle.pl_semantics.specs.Conflicts.{conflicts_of};
ghost use Rattle.pl_semantics.specs.Demands.{use_at, level_at};
ghost use Rattle.pl_model.specs.declared.whole.Model.{Model};
ghost use Rattle.pl_plan.specs.Values.{values_of};
ghost use Rattle.pl_plan.specs.Firm.{amounts_of, is_firm, end_of};
ghost use Rattle.pl_renumbering.specs.Renumbered.{KeepsOrder, renumbered, renumbered_all, renumbered_state, renumbered_conflict, renumbered_move, renumbered_refusal, IsRenumbered, AgreesAhead};
ghost use Rattle.pl_plan.specs.declared.repair.RepairMove.{RepairMove};
ghost use Rattle.pl_semantics.specs.Moves.{is_proper, refusal_of, applied};
ghost use Rattle.pl_semantics.specs.Candidates.{candidates_of};
ghost use Rattle.pl_semantics.specs.Legal.{legal_for, has_repair, repairable, is_stuck, left_after};
ghost use Rattle.pl_semantics.specs.Whole.{IsWhole};
ghost use Rattle.pl_renumbering.specs.Normal.{normal_of, normal_move, AreAlike, id_at};

/// Under new ids in the same order the activity of an id is the same one but for its id and its parent's, and the same
/// activities stand below it. Conflicts keep their order.
pub fn laws_of_ids()
    ensures found { (f : ℕ → ℕ) (xs : List Activity) (id : ℕ) → KeepsOrder f → activity_of (f id) (renumbered_all f xs) ≡ option_map (renumbered f) (activity_of id xs) }
    ensures below { (f : ℕ → ℕ) (xs : List Activity) (top id : ℕ) → KeepsOrder f → IsRooted xs → descends (renumbered_all f xs) (f top) (f id) ≡ descends xs top id }
    ensures left { (f : ℕ → ℕ) (xs : List Activity) (top : ℕ) → KeepsOrder f → IsRooted xs → without_subtree (f top) (renumbered_all f xs) ≡ renumbered_all f (without_subtree top xs) }
    ensures sorting { (f : ℕ → ℕ) (ks : List Conflict) → KeepsOrder f → sorted (map (renumbered_conflict f) ks) ≡ map (renumbered_conflict f) (sorted ks) }
{}

/// What an activity comes to does not depend on ids, nor does what timelines come to.
pub fn laws_of_values()
    ensures values { (f : ℕ → ℕ) (model : Model) (xs : List Activity) (id : ℕ) → KeepsOrder f → IsRooted xs → values_of model (renumbered_all f xs) (f id) ≡ values_of model xs id }
    ensures amounts { (f : ℕ → ℕ) (model : Model) (xs : List Activity) (id : ℕ) → KeepsOrder f → IsRooted xs → amounts_of model (renumbered_all f xs) (f id) ≡ amounts_of model xs id }
    ensures firm { (f : ℕ → ℕ) (model : Model) (xs : List Activity) (id : ℕ) → KeepsOrder f → IsRooted xs → is_firm model (renumbered_all f xs) (f id) ≡ is_firm model xs id }
    ensures ends { (f : ℕ → ℕ) (model : Model) (xs : List Activity) (id : ℕ) → KeepsOrder f → IsRooted xs → end_of model (renumbered_all f xs) (f id) ≡ end_of model xs id }
    ensures uses { (f : ℕ → ℕ) (next : ℕ) (s : PlanState) (line t : ℕ) → KeepsOrder f → IsRooted s.plan.activities → use_at (renumbered_state f next s) line t ≡ use_at s line t }
    ensures levels { (f : ℕ → ℕ) (next : ℕ) (s : PlanState) (line t : ℕ) → KeepsOrder f → IsRooted s.plan.activities → level_at (renumbered_state f next s) line t ≡ level_at s line t }
{}

/// The conflicts of a plan under new ids are its conflicts, with the new ids.
pub fn laws_of_conflicts()
    ensures goals { (f : ℕ → ℕ) (next : ℕ) (s : PlanState) → goal_conflicts (renumbered_state f next s) ≡ map (renumbered_conflict f) (goal_conflicts s) }
    ensures links { (f : ℕ → ℕ) (next : ℕ) (s : PlanState) → KeepsOrder f → IsRooted s.plan.activities → link_conflicts (renumbered_state f next s) ≡ map (renumbered_conflict f) (link_conflicts s) }
    ensures activities { (f : ℕ → ℕ) (next : ℕ) (s : PlanState) → KeepsOrder f → IsRooted s.plan.activities → activity_conflicts (renumbered_state f next s) ≡ map (renumbered_conflict f) (activity_conflicts s) }
    ensures timelines { (f : ℕ → ℕ) (next : ℕ) (s : PlanState) → KeepsOrder f → IsRooted s.plan.activities → timeline_conflicts (renumbered_state f next s) ≡ map (renumbered_conflict f) (timeline_conflicts s) }
    ensures all { (f : ℕ → ℕ) (s t : PlanState) → IsRenumbered f s t → IsRooted s.plan.activities → conflicts_of t ≡ map (renumbered_conflict f) (conflicts_of s) }
    ensures count { (f : ℕ → ℕ) (s t : PlanState) → IsRenumbered f s t → IsRooted s.plan.activities → length (conflicts_of t) ≡ length (conflicts_of s) }
{}

/// A move under new ids is as proper as the move, and refused for the same cause. It makes of the plan under new ids what
/// the move makes of the plan, under new ids, and it leaves as many conflicts.
pub fn laws_of_moves()
    ensures proper { (f : ℕ → ℕ) (s t : PlanState) (m : RepairMove) → IsRenumbered f s t → is_proper t (renumbered_move f m) ≡ is_proper s m }
    ensures refused { (f : ℕ → ℕ) (s t : PlanState) (m : RepairMove) → IsRenumbered f s t → AgreesAhead f s t → IsRooted s.plan.activities → refusal_of t (renumbered_move f m) ≡ option_map (renumbered_refusal f) (refusal_of s m) }
    ensures made { (f : ℕ → ℕ) (s t : PlanState) (m : RepairMove) → IsRenumbered f s t → AgreesAhead f s t → IsRooted s.plan.activities → IsRenumbered f (applied s m) (applied t (renumbered_move f m)) }
    ensures ahead { (f : ℕ → ℕ) (s t : PlanState) (m : RepairMove) → IsRenumbered f s t → AgreesAhead f s t → IsRooted s.plan.activities → AgreesAhead f (applied s m) (applied t (renumbered_move f m)) }
    ensures left { (f : ℕ → ℕ) (s t : PlanState) (m : RepairMove) → IsRenumbered f s t → AgreesAhead f s t → IsRooted s.plan.activities → IsRooted (applied s m).plan.activities → left_after t (renumbered_move f m) ≡ left_after s m }
{}

/// The candidates of a conflict under new ids are its candidates, under the new ids, and the same of them are legal. So the
/// same conflicts have a legal candidate.
pub fn laws_of_candidates()
    ensures candidates { (f : ℕ → ℕ) (s t : PlanState) (q : Conflict) → IsRenumbered f s t → IsRooted s.plan.activities → candidates_of t (renumbered_conflict f q) ≡ map (renumbered_move f) (candidates_of s q) }
    ensures legal { (f : ℕ → ℕ) (s t : PlanState) (q : Conflict) → IsRenumbered f s t → AgreesAhead f s t → IsRooted s.plan.activities → legal_for t (renumbered_conflict f q) ≡ map (renumbered_move f) (legal_for s q) }
    ensures has { (f : ℕ → ℕ) (s t : PlanState) (q : Conflict) → IsRenumbered f s t → AgreesAhead f s t → IsRooted s.plan.activities → has_repair t (renumbered_conflict f q) ≡ has_repair s q }
    ensures repairable { (f : ℕ → ℕ) (s t : PlanState) → IsRenumbered f s t → AgreesAhead f s t → IsRooted s.plan.activities → repairable t ≡ map (renumbered_conflict f) (repairable s) }
    ensures stuck { (f : ℕ → ℕ) (s t : PlanState) → IsRenumbered f s t → AgreesAhead f s t → IsRooted s.plan.activities → is_stuck t ≡ is_stuck s }
{}

/// After a move of a whole plan each parent is live and has a smaller id, as the laws of renumbered states ask for.
pub fn laws_of_trees()
    ensures { (s : PlanState) (m : RepairMove) → IsWhole s → IsRooted (applied s m).plan.activities }
{}

/// A state is its normal form under the ids of its ranks. So states of one normal form, which are the same but for ids,
/// have as many conflicts, and moves of one normal form leave as many in them.
pub fn laws_of_normal_forms()
    ensures form { (s : PlanState) → IsWhole s → IsRenumbered (id_at s) (normal_of s) s }
    ensures moves { (s : PlanState) (m : RepairMove) → IsWhole s → is_proper s m ≡ true → renumbered_move (id_at s) (normal_move s m) ≡ m }
    ensures count { (s t : PlanState) → AreAlike s t → IsWhole s → IsWhole t → length (conflicts_of s) ≡ length (conflicts_of t) }
    ensures left { (s t : PlanState) (m n : RepairMove) → AreAlike s t → IsWhole s → IsWhole t → is_proper s m ≡ true → is_proper t n ≡ true → normal_move s m ≡ normal_move t n
        → left_after s m ≡ left_after t n }
{}
