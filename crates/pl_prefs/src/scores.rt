//! How well a plan meets what is preferred.
ghost use Rattle.std.specs.Prelude.{◌≡◌, ◌≤◌, ◌*ℤ◌, false, length, slice_get, All, Some};
ghost use Rattle.pl_model.specs.Checked.{IsLevelLine};
ghost use Rattle.pl_plan.specs.Activities.{activity_of};
ghost use Rattle.pl_points.specs.Sums.{total};
ghost use Rattle.pl_semantics.specs.Whole.{IsWhole};
ghost use Rattle.pl_prefs.specs.Bounds.{IsWithin};
ghost use Rattle.pl_prefs.specs.Prefers.{IsWeight, IsPreferOf, HasParam};
ghost use Rattle.pl_prefs.specs.Scores.{earliness, lateness, value_or_zero, of_kind, last_level, score_of, score};
ghost use Rattle.pl_prefs.specs.Worths.{share_of};

use crate::prefer::Prefer;
use crate::weights::weighed;
use pl_board::Board;
use pl_plan::Activity;
use pl_semantics::PlanState;

// What an early start of an activity counts, if it is of the kind.
fn early_share(state: &PlanState, kind: u32, weight: i64, a: &Activity) -> i128
    requires { IsWeight weight }
    ensures value { result ≡ of_kind kind (λ b. weight *ℤ earliness state.now b) a.now }
    ensures within { IsWithin 1 result }
{
    if a.kind == kind {
        let moments = i128::from(state.model.get().horizon) - i128::from(a.start);
        weighed(weight, moments)
    } else {
        0
    }
}

// What a late start counts.
fn late_share(kind: u32, weight: i64, a: &Activity) -> i128
    requires { IsWeight weight }
    ensures value { result ≡ of_kind kind (λ b. weight *ℤ lateness b) a.now }
    ensures within { IsWithin 1 result }
{
    if a.kind == kind {
        weighed(weight, i128::from(a.start))
    } else {
        0
    }
}

// The value of a parameter, or 0 where it has none.
fn value_or_zero(state: &PlanState, param: u8, a: &Activity) -> i64
    requires whole { IsWhole state.now }
    requires live { activity_of a.now.id state.now.plan.activities ≡ Some a.now }
    requires param { HasParam state.now.model a.now.kind param }
    ensures { result ≡ value_or_zero state.now param a.now }
{
    let value = state.plan.value(state.model.get(), a.id, param);
    value.unwrap_or(0)
}

// What the value of a parameter counts.
fn value_share(state: &PlanState, kind: u32, param: u8, weight: i64, a: &Activity) -> i128
    requires whole { IsWhole state.now }
    requires live { activity_of a.now.id state.now.plan.activities ≡ Some a.now }
    requires param { HasParam state.now.model kind param }
    requires weight { IsWeight weight }
    ensures value { result ≡ of_kind kind (λ b. weight *ℤ value_or_zero state.now param b) a.now }
    ensures within { IsWithin 1 result }
{
    if a.kind == kind {
        weighed(weight, i128::from(value_or_zero(state, param, a)))
    } else {
        0
    }
}

/// What an activity counts for a preference of its kind; nothing for one of a level.
pub(crate) fn share_of(state: &PlanState, prefer: &Prefer, a: &Activity) -> i128
    requires whole { IsWhole state.now }
    requires live { activity_of a.now.id state.now.plan.activities ≡ Some a.now }
    requires fits { IsPreferOf state.now.model prefer.now }
    ensures value { result ≡ share_of state.now prefer.now a.now }
    ensures within { IsWithin 1 result }
{
    match *prefer {
        Prefer::Early(kind, weight) => early_share(state, kind, weight, a),
        Prefer::Late(kind, weight) => late_share(kind, weight, a),
        Prefer::Value(kind, param, weight) => value_share(state, kind, param, weight, a),
        Prefer::Level(..) => 0,
    }
}

// What these live activities count for a preference of a kind.
fn shares_of(state: &PlanState, prefer: &Prefer, activities: &[Activity]) -> i128
    requires whole { IsWhole state.now }
    requires fits { IsPreferOf state.now.model prefer.now }
    requires live { All (λ a. activity_of a.id state.now.plan.activities ≡ Some a) activities.now }
    requires few { length activities.now ≤ 10000 }
    ensures value { result ≡ total (share_of state.now prefer.now) activities.now }
    ensures within { IsWithin 10000 result }
{
    let mut sum: i128 = 0;
    for a in activities {
        sum += share_of(state, prefer, a);
    }
    sum
}

// What all activities count.
fn shares(state: &PlanState, prefer: &Prefer) -> i128
    requires whole { IsWhole state.now }
    requires fits { IsPreferOf state.now.model prefer.now }
    ensures value { result ≡ total (share_of state.now prefer.now) state.now.plan.activities }
    ensures within { IsWithin 10000 result }
{
    shares_of(state, prefer, state.plan.activities())
}

// What a level at the last moment before the horizon counts.
fn level_worth(board: &Board, line: u32, weight: i64) -> i128
    requires unspoiled { board.now.spoiled ≡ false }
    requires level { IsLevelLine (slice_get board.now.state.model.timelines line) }
    requires weight { IsWeight weight }
    ensures value { result ≡ weight *ℤ last_level board.now.state line }
    ensures within { IsWithin 1 result }
{
    let horizon = board.model().horizon;
    if board.now() < horizon {
        weighed(weight, i128::from(board.level_at(line, horizon - 1)))
    } else {
        0
    }
}

// What a preference counts.
fn score_of(board: &Board, prefer: &Prefer) -> i128
    requires unspoiled { board.now.spoiled ≡ false }
    requires fits { IsPreferOf board.now.state.model prefer.now }
    ensures value { result ≡ score_of board.now.state prefer.now }
    ensures within { IsWithin 10000 result }
{
    match *prefer {
        Prefer::Early(..) => shares(board.state(), prefer),
        Prefer::Late(..) => shares(board.state(), prefer),
        Prefer::Value(..) => shares(board.state(), prefer),
        Prefer::Level(line, weight) => level_worth(board, line, weight),
    }
}

/// The score of a board's plan.
#[tactic(auto, unfolding(crate::specs::Scores::score))]
pub(crate) fn score(board: &Board, prefers: &[Prefer]) -> i128
    requires unspoiled { board.now.spoiled ≡ false }
    requires fits { All (IsPreferOf board.now.state.model) prefers.now }
    requires few { length prefers.now ≤ 64 }
    ensures value { result ≡ score board.now.state prefers.now }
    ensures within { IsWithin 640000 result }
{
    let mut sum: i128 = 0;
    for prefer in prefers {
        sum += score_of(board, prefer);
    }
    sum
}
