//! Laws of the definitions, as contracts of functions that do nothing.

ghost use Rattle.std.specs.Prelude.{◌≡◌, ◌||◌, true, false, ℕ, ◌≤◌, ◌*◌, ℤ, pos, ◌+ℤ◌, ◌≤ℤ◌, ◌<ℤ◌, All, AllPairs, length, slice_get, Some, None, IfSome, ◌↔◌};
ghost use Rattle.pl_conflict.specs.declared.conflict.Conflict.{Conflict};
ghost use Rattle.pl_conflict.specs.Order.{has};
ghost use Rattle.pl_conflict.specs.Sorting.{AreInOrder};
ghost use Rattle.pl_facts.specs.Goals.{AreDistinct};
ghost use Rattle.pl_plan.specs.Activities.{AreRising};
ghost use Rattle.pl_plan.specs.declared.activity.Activity.{Activity};
ghost use Rattle.pl_plan.specs.declared.repair.RepairMove.{RepairMove};
ghost use Rattle.pl_semantics.specs.declared.refusal.Refusal.{Refusal};
ghost use Rattle.pl_semantics.specs.declared.plan_state.PlanState.{PlanState};
ghost use Rattle.pl_semantics.specs.Whole.{IsWhole};
ghost use Rattle.pl_semantics.specs.Parts.{part_of, of_goals, of_activities, of_links, of_timelines};
ghost use Rattle.pl_semantics.specs.Goals.{goal_conflicts, open_of, off_of};
ghost use Rattle.pl_semantics.specs.Activities.{activity_conflicts, wrong_of};
ghost use Rattle.pl_semantics.specs.Links.{link_conflicts, linked_of};
ghost use Rattle.pl_semantics.specs.Timelines.{timeline_conflicts, line_conflicts_of};
ghost use Rattle.pl_semantics.specs.Owners.{owner_of};
ghost use Rattle.pl_semantics.specs.PlanStates.{found, is_committed, of_found, natural};
ghost use Rattle.pl_semantics.specs.Demands.{demands_of, effects_of, sets_of, told, level_at, state_at};
ghost use Rattle.pl_semantics.specs.Telemetry.{IsBehindZero, first_moment, told_at, counted_after, state_after};
ghost use Rattle.pl_points.specs.Sums.{total};
ghost use Rattle.pl_semantics.specs.Conflicts.{conflicts_of};
ghost use Rattle.pl_semantics.specs.Grants.{touches_before};
ghost use Rattle.pl_semantics.specs.Moves.{is_proper, refusal_of};
ghost use Rattle.pl_semantics.specs.Starts.{spread, stride_of};
ghost use Rattle.pl_semantics.specs.Candidates.{candidates_of, changes_nothing, same_move, StartsWithin};
ghost use Rattle.pl_semantics.specs.Legal.{IsRefused, MayBeMade};

/// The conflicts stand in their order, none twice, and exactly those of the four parts do.
pub fn laws_of_conflicts()
    ensures ordered { (s : PlanState) → AreInOrder (conflicts_of s) }
    ensures members { (s : PlanState) (q : Conflict) → has q (conflicts_of s) ≡ (has q (goal_conflicts s) || (has q (activity_conflicts s) || (has q (link_conflicts s) || has q (timeline_conflicts s)))) }
{}

/// The code of a conflict tells its part, so no conflict is of two parts.
pub fn laws_of_parts()
    ensures goals { (s : PlanState) (q : Conflict) → has q (goal_conflicts s) ≡ true → part_of q.code ≡ of_goals }
    ensures activities { (s : PlanState) (q : Conflict) → has q (activity_conflicts s) ≡ true → part_of q.code ≡ of_activities }
    ensures links { (s : PlanState) (q : Conflict) → has q (link_conflicts s) ≡ true → part_of q.code ≡ of_links }
    ensures timelines { (s : PlanState) (q : Conflict) → has q (timeline_conflicts s) ≡ true → part_of q.code ≡ of_timelines }
{}

/// A conflict of goals, activities or links stands exactly where the goal or the activity that is its subject says so, and a
/// conflict of timelines exactly where the timeline that it is about does.
pub fn laws_of_subjects()
    ensures goals { (s : PlanState) → AreDistinct s.goals → AreRising s.plan.activities → (q : Conflict) → has q (goal_conflicts s) ≡ (has q (open_of s q.subject) || has q (off_of s q.subject)) }
    ensures activities { (s : PlanState) → AreRising s.plan.activities → (q : Conflict) → has q (activity_conflicts s) ≡ has q (wrong_of s q.subject) }
    ensures links { (s : PlanState) → AreRising s.plan.activities → (q : Conflict) → has q (link_conflicts s) ≡ has q (linked_of s q.subject) }
    ensures timelines { (s : PlanState) → AreRising s.plan.activities → (q : Conflict) → has q (timeline_conflicts s) ≡ has q (of_found (line_conflicts_of s) (owner_of s q)) }
{}

/// Nothing is asked for before the moment 1, so a base of the moment -1 counts as one of 0 does.
pub fn laws_of_telemetry()
    ensures later { (s : PlanState) → All IsBehindZero s.plan.activities → All (λ d. 1 ≤ first_moment d.asked) (demands_of s) }
    ensures level { (s : PlanState) → All IsBehindZero s.plan.activities → (line t : ℕ) → level_at s line t ≡ told s line +ℤ total (counted_after (told_at s line) t) (effects_of line (demands_of s)) }
    ensures state { (s : PlanState) → All IsBehindZero s.plan.activities → (line t : ℕ) → state_at s line t ≡ state_after (told_at s line) t (natural (told s line)) (sets_of line (demands_of s)) }
{}

/// The end of an activity that is not committed was not measured.
pub fn laws_of_measured_ends()
    ensures none { (s : PlanState) → IsWhole s → (id : ℕ) (a : Activity) → found s id ≡ Some a → is_committed s a ≡ false → a.measured ≡ None }
{}

/// No conflict touches what comes before a moment exactly where the first of them does not.
pub fn laws_of_grants()
    ensures first { (s : PlanState) (h : ℕ) → All (λ k. touches_before h k ≡ false) (conflicts_of s) ↔ IfSome (slice_get (conflicts_of s) 0) (λ k. h ≤ k.from) }
{}

/// A move is refused by the first cause that stands, with the least id that it concerns. It is not refused exactly where it
/// changes nothing committed, gives no start below the floor or past the horizon, and has room.
pub fn laws_of_refusals()
    ensures refused { (s : PlanState) (m : RepairMove) → AreRising s.plan.activities → (r : Refusal) → (refusal_of s m ≡ Some r) ↔ IsRefused s m r }
    ensures not_refused { (s : PlanState) (m : RepairMove) → (refusal_of s m ≡ None) ↔ MayBeMade s m }
{}

/// Of the numbers from a low to a high one every so many is tried, from the low on and up to the high: sixteen at most.
pub fn laws_of_spread()
    ensures tried { (low high : ℤ) (i : ℕ) → (low +ℤ pos (i * stride_of low high)) ≤ℤ high → slice_get (spread low high) i ≡ Some (low +ℤ pos (i * stride_of low high)) }
    ensures no_other { (low high : ℤ) (i : ℕ) → high <ℤ (low +ℤ pos (i * stride_of low high)) → slice_get (spread low high) i ≡ None }
    ensures few { (low high : ℤ) → length (spread low high) ≤ 16 }
{}

/// A candidate is proper, changes something and gives no start outside 1 to one before the horizon. None stands twice, and
/// there are 256 at most.
pub fn laws_of_candidates()
    ensures proper { (s : PlanState) (k : Conflict) → All (λ m. is_proper s m ≡ true) (candidates_of s k) }
    ensures changing { (s : PlanState) (k : Conflict) → All (λ m. changes_nothing s m ≡ false) (candidates_of s k) }
    ensures starts { (s : PlanState) (k : Conflict) → All (StartsWithin s) (candidates_of s k) }
    ensures none_twice { (s : PlanState) (k : Conflict) → AllPairs (λ one other. same_move other one ≡ false) (candidates_of s k) }
    ensures few { (s : PlanState) (k : Conflict) → length (candidates_of s k) ≤ 256 }
{}
