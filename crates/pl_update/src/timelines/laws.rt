//! Laws of timelines that hold what a plan asks for, as contracts of functions that do nothing.

ghost use Rattle.std.specs.Prelude.{◌≡◌, ℕ, ◌<◌, ◌≤◌, ℤ, pos, ◌≤ℤ◌, List, [], map, All, slice_get, Some};
ghost use Rattle.pl_capacity.specs.Uses as capacity;
ghost use Rattle.pl_conflict.specs.Order.{has};
ghost use Rattle.pl_conflict.specs.declared.conflict.Conflict.{Conflict};
ghost use Rattle.pl_update.specs.Changes.Changes.{moved_on, told_now, CanTell};
ghost use Rattle.pl_update.specs.Changes.Replaced.{CanReplace, with_plan};
ghost use Rattle.pl_level.specs.Effects as level;
ghost use Rattle.pl_update.specs.declared.timelines.line.Line.TheVariants.{Capacity, Level, States};
ghost use Rattle.pl_update.specs.declared.timelines.line.Line.{Line as ALine};
ghost use Rattle.pl_update.specs.Timelines.Framed.{idle, AreLinesOf};
ghost use Rattle.pl_update.specs.Timelines.Held.{held_at, asked_at, one, HoldAll, HaveRoom};
ghost use Rattle.pl_update.specs.Timelines.Laws.{AreOnce, gone_from, coming_to};
ghost use Rattle.pl_update.specs.Timelines.Mending.{IsMoved, less, CanAsk};
ghost use Rattle.pl_update.specs.Timelines.Moments.{at_moment, MayReach, CanHaveAt, rebased_in};
ghost use Rattle.pl_update.specs.Timelines.Named.{AreNamed};
ghost use Rattle.pl_update.specs.Timelines.Readings.{IsCapacityAt, IsLevelAt, IsLevelIn, AreStatesAt, used_of, level_of, state_of, sets_standing, musts_standing};
ghost use Rattle.pl_update.specs.Timelines.Told.{wrong_at, IsTold};
ghost use Rattle.pl_detect.specs.Based.{IsStateLine};
ghost use Rattle.pl_model.specs.Checked.{IsCapacityLine, IsLevelLine};
ghost use Rattle.pl_plan.specs.declared.activity.Activity.{Activity};
ghost use Rattle.pl_state.specs.Timelines as states;
ghost use Rattle.pl_semantics.specs.Demands.{demands_of, sets_of, musts_of, use_at, level_at, state_at};
ghost use Rattle.pl_semantics.specs.Parts.{part_of, of_timelines};
ghost use Rattle.pl_semantics.specs.Timelines.{lines_of, line_conflicts_of, timeline_conflicts};
ghost use Rattle.pl_semantics.specs.Whole.{IsWhole};
ghost use Rattle.pl_semantics.specs.declared.plan_state.PlanState.{PlanState};

/// Timelines that hold what a plan asks for have the plan's values at each moment and exactly its conflicts, and a set that
/// tells what is wrong with them has exactly those of the plan. They hold what reservations name them for, and not too much.
pub fn laws_of_holding()
    ensures uses { (s : PlanState) (lines : List ALine) (line : ℕ) (c : capacity.Standing) → AreLinesOf s lines → slice_get lines line ≡ Some (Capacity c) → (t : ℕ) → capacity.used c.uses t ≡ use_at s line t }
    ensures levels { (s : PlanState) (lines : List ALine) (line : ℕ) (l : level.Standing) → AreLinesOf s lines → slice_get lines line ≡ Some (Level l) → (t : ℕ) → level.level l t ≡ level_at s line t }
    ensures states { (s : PlanState) (lines : List ALine) (line : ℕ) (x : states.Standing) → IsWhole s → AreLinesOf s lines → slice_get lines line ≡ Some (States x) → (t : ℕ) → states.state_at x t ≡ state_at s line t }
    ensures wrong { (s : PlanState) (lines : List ALine) (line : ℕ) → IsWhole s → AreLinesOf s lines → wrong_at s lines line ≡ line_conflicts_of s line }
    ensures told { (s : PlanState) (lines : List ALine) (set : List Conflict) → IsWhole s → AreLinesOf s lines → IsTold s lines set → (q : Conflict) → part_of q.code ≡ of_timelines → has q set ≡ has q (timeline_conflicts s) }
    ensures all_told { (s : PlanState) (lines : List ALine) (set : List Conflict) → IsWhole s → AreLinesOf s lines → ((q : Conflict) → part_of q.code ≡ of_timelines → has q set ≡ has q (timeline_conflicts s)) → IsTold s lines set }
    ensures named { (s : PlanState) (lines : List ALine) → IsWhole s → AreLinesOf s lines → AreNamed s lines }
    ensures few { (s : PlanState) (lines : List ALine) (line : ℕ) → IsWhole s → AreLinesOf s lines → held_at lines line one ≤ℤ pos 320000 }
{}

/// As a plan is replaced its timelines hold what goes, so it may be given back. What is told of them then is told of the new
/// plan as well, there is room for what comes, and with that they hold what the new plan asks for.
pub fn laws_of_replacements()
    ensures held { (s : PlanState) (gone : List ℕ) (more : List Activity) (lines : List ALine) → IsWhole s → CanReplace s gone more → AreOnce gone → AreLinesOf s lines → HoldAll lines (gone_from s gone) }
    ensures may_go { (s : PlanState) (gone : List ℕ) (lines : List ALine) → IsWhole s → AreLinesOf s lines → All (CanAsk s lines) (gone_from s gone) }
    ensures named { (s : PlanState) (gone : List ℕ) (more : List Activity) (lines rest : List ALine) → IsWhole s → CanReplace s gone more → AreOnce gone → AreLinesOf s lines → IsMoved lines rest (less (gone_from s gone)) → AreNamed (with_plan gone more s) rest }
    ensures told { (s : PlanState) (gone : List ℕ) (more : List Activity) (lines rest : List ALine) (set : List Conflict) → IsWhole s → CanReplace s gone more → AreOnce gone → AreLinesOf s lines → IsMoved lines rest (less (gone_from s gone)) → IsTold s rest set → IsTold (with_plan gone more s) rest set }
    ensures room { (s : PlanState) (gone : List ℕ) (more : List Activity) (lines rest : List ALine) → IsWhole s → CanReplace s gone more → AreOnce gone → AreLinesOf s lines → IsMoved lines rest (less (gone_from s gone)) → HaveRoom rest (coming_to (with_plan gone more s) more) }
    ensures may_come { (s : PlanState) (gone : List ℕ) (more : List Activity) (lines rest : List ALine) → IsWhole s → CanReplace s gone more → AreOnce gone → AreLinesOf s lines → IsMoved lines rest (less (gone_from s gone)) → All (CanAsk (with_plan gone more s) rest) (coming_to (with_plan gone more s) more) }
    ensures after { (s : PlanState) (gone : List ℕ) (more : List Activity) (lines rest full : List ALine) → IsWhole s → CanReplace s gone more → AreOnce gone → AreLinesOf s lines → IsMoved lines rest (less (gone_from s gone)) → IsMoved rest full (asked_at (coming_to (with_plan gone more s) more)) → AreLinesOf (with_plan gone more s) full }
{}

/// Timelines hold what a plan asks for at first, as the present moves on, and as one of them is told anew.
pub fn laws_of_moments()
    ensures first { (s : PlanState) → s.plan.activities ≡ [] → AreLinesOf s (map (idle s) (lines_of s)) }
    ensures moved { (s : PlanState) (now : ℕ) (lines : List ALine) → AreLinesOf s lines → AreLinesOf (moved_on now s) (map (at_moment now) lines) }
    ensures told { (s : PlanState) (line : ℕ) (value : ℤ) (lines : List ALine) → IsWhole s → AreLinesOf s lines → CanTell value (slice_get s.model.timelines line) → AreLinesOf (told_now line value s) (rebased_in lines line value (slice_get lines line)) }
{}

/// Of timelines that hold what a plan asks for those may be read that the plan's model has of the sort, from the present on and
/// up to the horizon, and they say what the plan does and have its sets and musts. Their present may move on as the plan's may, and they may be told what it may be.
pub fn laws_of_readings()
    ensures may_use { (s : PlanState) (lines : List ALine) (line t : ℕ) → AreLinesOf s lines → IsCapacityLine (slice_get s.model.timelines line) → s.moment ≤ t → t < s.model.horizon → IsCapacityAt t (slice_get lines line) }
    ensures uses { (s : PlanState) (lines : List ALine) (line t : ℕ) → AreLinesOf s lines → IsCapacityLine (slice_get s.model.timelines line) → used_of t (slice_get lines line) ≡ use_at s line t }
    ensures may_level { (s : PlanState) (lines : List ALine) (line t : ℕ) → AreLinesOf s lines → IsLevelLine (slice_get s.model.timelines line) → s.moment ≤ t → t < s.model.horizon → IsLevelAt t (slice_get lines line) }
    ensures may_level_in { (s : PlanState) (lines : List ALine) (line from to : ℕ) → AreLinesOf s lines → IsLevelLine (slice_get s.model.timelines line) → s.moment ≤ from → from ≤ to → to ≤ s.model.horizon → IsLevelIn from to (slice_get lines line) }
    ensures levels { (s : PlanState) (lines : List ALine) (line t : ℕ) → AreLinesOf s lines → IsLevelLine (slice_get s.model.timelines line) → level_of t (slice_get lines line) ≡ level_at s line t }
    ensures may_state { (s : PlanState) (lines : List ALine) (line t : ℕ) → AreLinesOf s lines → IsStateLine (slice_get s.model.timelines line) → s.moment ≤ t → t < s.model.horizon → AreStatesAt t (slice_get lines line) }
    ensures states { (s : PlanState) (lines : List ALine) (line t : ℕ) → IsWhole s → AreLinesOf s lines → IsStateLine (slice_get s.model.timelines line) → state_of t (slice_get lines line) ≡ state_at s line t }
    ensures sets { (s : PlanState) (lines : List ALine) (line : ℕ) → IsWhole s → AreLinesOf s lines → IsStateLine (slice_get s.model.timelines line) → sets_standing (slice_get lines line) ≡ sets_of line (demands_of s) }
    ensures musts { (s : PlanState) (lines : List ALine) (line : ℕ) → IsWhole s → AreLinesOf s lines → IsStateLine (slice_get s.model.timelines line) → musts_standing (slice_get lines line) ≡ musts_of line (demands_of s) }
    ensures may_reach { (s : PlanState) (now : ℕ) (lines : List ALine) → AreLinesOf s lines → s.moment ≤ now → now ≤ s.model.horizon → All (MayReach now) lines }
    ensures may_tell { (s : PlanState) (line : ℕ) (value : ℤ) (lines : List ALine) → IsWhole s → AreLinesOf s lines → CanTell value (slice_get s.model.timelines line) → CanHaveAt value (slice_get lines line) }
{}
