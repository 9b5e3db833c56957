//! What the lists of moves ask of a plan state: the limits of starts, and what an activity has by its kind.
ghost use Rattle.std.specs.Prelude.{◌≡◌, ◌≤◌, All, IfSome, Some, length};
ghost use Rattle.std.specs.Int.{int_max, int_min};
ghost use Rattle.std.specs.Option.{option_copied};
ghost use Rattle.pl_model.specs.Checked.{params_of};
ghost use Rattle.pl_plan.specs.Activities.{activity_of};
ghost use Rattle.pl_plan.specs.Fitting.{kind_of};
ghost use Rattle.pl_links.specs.Broken.{moment_of, links_of};
ghost use Rattle.pl_semantics.specs.Whole.{IsWhole};
ghost use Rattle.pl_semantics.specs.PlanStates.{end_at, is_committed, reservations_in};
ghost use Rattle.pl_semantics.specs.Links.{order_at, placed_of};
ghost use Rattle.pl_semantics.specs.Moves.{alternatives_at};
ghost use Rattle.pl_semantics.specs.Starts.{floor_at, last_of};
ghost use Rattle.pl_cand.specs.Near.{AreClose, AreNear, IsNear};
ghost use Rattle.pl_cand.specs.Levels.{IsOfLevel};

use pl_model::{Alternative, Link, Order, Param, Point, Reservation};
use pl_plan::Activity;
use pl_semantics::PlanState;

/// The least start that a repair may give.
pub(crate) fn floor(state: &PlanState) -> i64
    requires { IsWhole state.now }
    ensures value { result ≡ floor_at state.now }
    ensures near { IsNear result }
{
    i64::from(state.floor())
}

/// The last start that an activity may have.
pub(crate) fn last(state: &PlanState) -> i64
    ensures value { result ≡ last_of state.now }
    ensures near { IsNear result }
{
    i64::from(state.model.get().horizon) - 1
}

/// The moment, or the floor if the moment lies before it.
pub(crate) fn from_floor(state: &PlanState, moment: i64) -> i64
    requires whole { IsWhole state.now }
    requires moment { IsNear moment }
    ensures value { result ≡ int_max moment (floor_at state.now) }
    ensures near { IsNear result }
{
    moment.max(floor(state))
}

/// The moment, or the last start if the moment lies after it.
pub(crate) fn to_last(state: &PlanState, moment: i64) -> i64
    requires { IsNear moment }
    ensures value { result ≡ int_min moment (last_of state.now) }
    ensures near { IsNear result }
{
    moment.min(last(state))
}

/// The parameters of an activity's kind, at most sixteen. Their bounds are so near 0 that sums of them fit the type.
pub(crate) fn checked_params<'s>(state: &'s PlanState, a: &Activity) -> &'s [Param]
    requires { IsWhole state.now }
    ensures value { result.now ≡ params_of (kind_of state.now.model a.now) }
    ensures few { length result.now ≤ 16 }
    ensures near { All AreNear result.now }
{
    state.params_of(a)
}

fn reservations_of_kind<'s>(state: &'s PlanState, a: &Activity) -> &'s [Reservation]
    ensures { result.now ≡ reservations_in (kind_of state.now.model a.now) }
{
    match state.kind_of(a) {
        Some(kind) => kind.reservations.as_slice(),
        None => &[],
    }
}

/// What an activity's kind asks of timelines.
pub(crate) fn reservations_of<'s>(state: &'s PlanState, a: &Activity) -> &'s [Reservation]
    requires { IsWhole state.now }
    ensures value { result.now ≡ reservations_in (kind_of state.now.model a.now) }
    ensures level { All (IsOfLevel state.now) result.now }
{
    reservations_of_kind(state, a)
}

fn links_of_kind<'s>(state: &'s PlanState, a: &Activity) -> &'s [Link]
    ensures { result.now ≡ links_of state.now.model (placed_of state.now a.now) }
{
    match state.kind_of(a) {
        Some(kind) => kind.links.as_slice(),
        None => &[],
    }
}

/// The temporal links of an activity's kind.
pub(crate) fn links_of<'s>(state: &'s PlanState, a: &Activity) -> &'s [Link]
    requires { IsWhole state.now }
    ensures value { result.now ≡ links_of state.now.model (placed_of state.now a.now) }
    ensures close { All AreClose result.now }
{
    links_of_kind(state, a)
}

/// The alternatives of an activity's kind, at most eight.
pub(crate) fn checked_alternatives<'s>(state: &'s PlanState, a: &Activity) -> &'s [Alternative]
    requires { IsWhole state.now }
    ensures value { result.now ≡ alternatives_at state.now a.now }
    ensures few { length result.now ≤ 8 }
{
    state.alternatives_of(a)
}

/// The order of this index of an activity's chosen alternative. Its distances are so near 0 that sums of them fit the type.
pub(crate) fn checked_order<'s>(state: &'s PlanState, a: &Activity, index: u32) -> Option<&'s Order>
    requires { IsWhole state.now }
    ensures value { option_copied result ≡ order_at state.now a.now index }
    ensures low { IfSome result (λ o. IsNear o.now.low) }
    ensures high { IfSome result (λ o. IsNear o.now.high) }
{
    state.order_at(a, index)
}

/// Whether the activity is committed.
pub(crate) fn is_committed(state: &PlanState, a: &Activity) -> bool
    ensures { result ≡ is_committed state.now a.now }
{
    a.start < state.committed
}

/// The end of a live activity, if it is firm.
pub(crate) fn end_of(state: &PlanState, a: &Activity) -> Option<u32>
    requires whole { IsWhole state.now }
    requires live { activity_of a.now.id state.now.plan.activities ≡ Some a.now }
    ensures { result ≡ end_at state.now a.now }
{
    state.plan.end(state.model.get(), a.id)
}

/// The moment at which a live activity has its start or its end, if it is firm.
pub(crate) fn moment_of(state: &PlanState, a: &Activity, point: Point) -> Option<u32>
    requires whole { IsWhole state.now }
    requires live { activity_of a.now.id state.now.plan.activities ≡ Some a.now }
    ensures { result ≡ moment_of point (placed_of state.now a.now) }
{
    let end = end_of(state, a)?;
    match point {
        Point::Start => Some(a.start),
        Point::End => Some(end),
    }
}
