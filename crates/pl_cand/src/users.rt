//! The users of a timeline that has a conflict: the activities that do to it what a repair is to change.
ghost use Rattle.std.specs.Prelude.{◌≡◌, ◌<◌, ◌≤ℤ◌, pos, IfOk, IfSome, Some, All, length};
ghost use Rattle.std.specs.List.{list_any};
ghost use Rattle.pl_model.specs.Values.{NamesBelow};
ghost use Rattle.pl_plan.specs.Activities.{activity_of};
ghost use Rattle.pl_plan.specs.Firm.{amount_of};
ghost use Rattle.pl_semantics.specs.Whole.{IsWhole};
ghost use Rattle.pl_semantics.specs.Demands.{amount_in, moment_of_base, since};
ghost use Rattle.pl_semantics.specs.LineRepairs.{point_counts, takes_in};
ghost use Rattle.pl_cand.specs.Tests.{changes_at, changes_below, is_user, may_take, plays, uses_in};
ghost use Rattle.pl_cand.specs.Levels.{HasBase, IsOfLevel};

use crate::reading::{is_committed, moment_of, reservations_of};
use crate::role::{Role, Way};
use pl_model::{Expr, Point, Reservation, eval};
use pl_plan::Activity;
use pl_semantics::PlanState;
use std::alloc::{AllocError, Global};

fn amount_in(amount: &Expr, values: &[Option<i64>]) -> i64
    requires { NamesBelow (length values.now) amount.now }
    ensures { result ≡ amount_in values.now amount.now }
{
    match eval(amount, values) {
        Some(value) => value,
        None => 0,
    }
}

fn uses_in(
    timeline: u32,
    a: u32,
    b: u32,
    start: u32,
    end: u32,
    values: &[Option<i64>],
    reservation: &Reservation,
) -> bool
    requires { IfSome (amount_of reservation.now) (NamesBelow (length values.now)) }
    ensures { result ≡ uses_in timeline a b start end values.now reservation.now }
{
    match reservation {
        Reservation::Take(of, amount) => {
            *of == timeline && amount_in(amount, values) > 0 && start < b && a < end
        }
        _ => false,
    }
}

fn any_uses(
    timeline: u32,
    a: u32,
    b: u32,
    start: u32,
    end: u32,
    values: &[Option<i64>],
    reservations: &[Reservation],
) -> bool
    requires { All (λ r. IfSome (amount_of r) (NamesBelow (length values.now))) reservations.now }
    ensures { result ≡ list_any (uses_in timeline a b start end values.now) reservations.now }
{
    for reservation in reservations {
        if uses_in(timeline, a, b, start, end, values, reservation) {
            return true;
        }
    }
    false
}

// Whether the reservation may take from the timeline before moment `b`, if its amount and the end of the activity allow it.
fn may_take(timeline: u32, b: u32, start: u32, reservation: &Reservation) -> bool
    ensures { result ≡ may_take timeline b start reservation.now }
{
    match reservation {
        Reservation::Take(of, _) => *of == timeline && start < b,
        _ => false,
    }
}

fn any_may_take(timeline: u32, b: u32, start: u32, reservations: &[Reservation]) -> bool
    ensures { result ≡ list_any (may_take timeline b start) reservations.now }
{
    for reservation in reservations {
        if may_take(timeline, b, start, reservation) {
            return true;
        }
    }
    false
}

// Whether the activity takes from the timeline within a span. Its values are worked out only if a reservation of its kind may take
// from the timeline then.
#[tactic(auto, unfolding(pl_semantics::specs::Demands::demands_at))]
fn takes_in(
    alloc: Global,
    state: &PlanState,
    timeline: u32,
    a: u32,
    b: u32,
    x: &Activity,
) -> Result<bool, AllocError>
    requires whole { IsWhole state.now }
    requires live { activity_of x.now.id state.now.plan.activities ≡ Some x.now }
    ensures { IfOk result (λ t. t ≡ takes_in state.now timeline a b x.now) }
{
    let reservations = reservations_of(state, x);
    if !any_may_take(timeline, b, x.start, reservations) {
        return Ok(false);
    }
    let evaluated = state.plan.evaluate(alloc, state.model.get(), x.id)?;
    match evaluated.end {
        Some(end) => Ok(any_uses(
            timeline,
            a,
            b,
            x.start,
            end,
            evaluated.values.as_slice(),
            reservations,
        )),
        None => Ok(false),
    }
}

// The moment of a level's base. It is 0 as well before any telemetry, since no effect lies at 0.
fn since(state: &PlanState, timeline: u32) -> u32
    requires whole { IsWhole state.now }
    requires timeline { HasBase state.now timeline }
    ensures { result ≡ since state.now timeline }
{
    moment_of_base(state.bases.get(timeline))
}

fn moment_of_base(base: (i64, i64)) -> u32
    requires { base.0 ≤ℤ pos 10000000 }
    ensures { result ≡ moment_of_base (Some base) }
{
    if base.0 < 0 { 0 } else { base.0 as u32 }
}

// Whether the activity is firm, and this point of it lies after the base's moment, before the horizon and before moment `b`.
fn point_counts(state: &PlanState, timeline: u32, b: u32, a: &Activity, point: Point) -> bool
    requires whole { IsWhole state.now }
    requires live { activity_of a.now.id state.now.plan.activities ≡ Some a.now }
    requires timeline { HasBase state.now timeline }
    ensures { result ≡ point_counts state.now timeline b a.now point }
{
    match moment_of(state, a, point) {
        Some(at) => since(state, timeline) < at && at < state.model.get().horizon && at < b,
        None => false,
    }
}

// Whether the reservation changes the level in this way, at a point that counts.
fn changes_at(
    state: &PlanState,
    timeline: u32,
    b: u32,
    a: &Activity,
    way: Way,
    reservation: &Reservation,
) -> bool
    requires whole { IsWhole state.now }
    requires live { activity_of a.now.id state.now.plan.activities ≡ Some a.now }
    requires sort { IsOfLevel state.now reservation.now }
    ensures { result ≡ changes_at way state.now timeline b a.now reservation.now }
{
    match (way, reservation) {
        (Way::Down, Reservation::Lower(of, _, point)) => {
            *of == timeline && point_counts(state, *of, b, a, *point)
        }
        (Way::Up, Reservation::Raise(of, _, point)) => {
            *of == timeline && point_counts(state, *of, b, a, *point)
        }
        _ => false,
    }
}

fn any_changes(
    state: &PlanState,
    timeline: u32,
    b: u32,
    a: &Activity,
    way: Way,
    reservations: &[Reservation],
) -> bool
    requires whole { IsWhole state.now }
    requires live { activity_of a.now.id state.now.plan.activities ≡ Some a.now }
    requires level { All (IsOfLevel state.now) reservations.now }
    ensures { result ≡ list_any (changes_at way state.now timeline b a.now) reservations.now }
{
    for reservation in reservations {
        if changes_at(state, timeline, b, a, way, reservation) {
            return true;
        }
    }
    false
}

fn changes_below(state: &PlanState, timeline: u32, b: u32, a: &Activity, way: Way) -> bool
    requires whole { IsWhole state.now }
    requires live { activity_of a.now.id state.now.plan.activities ≡ Some a.now }
    ensures { result ≡ changes_below way state.now timeline b a.now }
{
    any_changes(state, timeline, b, a, way, reservations_of(state, a))
}

fn plays(
    alloc: Global,
    state: &PlanState,
    timeline: u32,
    role: Role,
    a: &Activity,
) -> Result<bool, AllocError>
    requires whole { IsWhole state.now }
    requires live { activity_of a.now.id state.now.plan.activities ≡ Some a.now }
    ensures { IfOk result (λ p. p ≡ plays state.now timeline role a.now) }
{
    match role {
        Role::Uses(from, to) => takes_in(alloc, state, timeline, from, to, a),
        Role::ChangesBelow(before, way) => Ok(changes_below(state, timeline, before, a, way)),
    }
}

/// Whether the activity is not committed and plays the role. It is inlined, since each activity of a plan is asked.
#[inline(always)]
pub(crate) fn is_user(
    alloc: Global,
    state: &PlanState,
    timeline: u32,
    role: Role,
    a: &Activity,
) -> Result<bool, AllocError>
    requires whole { IsWhole state.now }
    requires live { activity_of a.now.id state.now.plan.activities ≡ Some a.now }
    ensures { IfOk result (λ u. u ≡ is_user state.now timeline role a.now) }
{
    if is_committed(state, a) {
        return Ok(false);
    }
    plays(alloc, state, timeline, role, a)
}
