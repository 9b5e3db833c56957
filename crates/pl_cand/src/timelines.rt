//! Moves for what is wrong with timelines.
ghost use Rattle.std.specs.Prelude.{◌≡◌, ◌++◌, OnOk, Some};
ghost use Rattle.std.specs.List.{flat_map};
ghost use Rattle.std.specs.Option.{option_copied};
ghost use Rattle.pl_plan.specs.Activities.{activity_of};
ghost use Rattle.pl_semantics.specs.Whole.{IsWhole};
ghost use Rattle.pl_semantics.specs.PlanStates.{of_found};
ghost use Rattle.pl_semantics.specs.LineRepairs.{for_bad_step, for_high, for_low, for_must, for_over, help_must, help_step, reservation_at};
ghost use Rattle.pl_cand.specs.ById.{around_id, moves_of_id};

use crate::activities::end_by;
use crate::help::Help;
use crate::helping::add_help;
use crate::repairs::add_moves;
use crate::role::{Role, Way};
use crate::starts::add_shift;
use crate::user_list::first_users;
use pl_model::Reservation;
use pl_plan::{Activity, RepairMove};
use pl_semantics::PlanState;
use std::alloc::{AllocError, Global};

// Appends the shift by which a user starts where the span ends, and the one by which it ends where the span starts.
fn add_around(
    state: &PlanState,
    id: u32,
    a: u32,
    b: u32,
    out: &mut Vec<RepairMove>,
) -> Result<(), AllocError>
    requires { IsWhole state.now }
    ensures { OnOk result (out.new.items ≡ out.old.items ++ around_id state.now a b id) }
{
    match state.live(id) {
        Some(user) => {
            add_shift(state, user.id, i64::from(b), out)?;
            end_by(state, user, a, out)?;
            Ok(())
        }
        None => Ok(()),
    }
}

fn add_all_around(
    state: &PlanState,
    ids: &[u32],
    a: u32,
    b: u32,
    out: &mut Vec<RepairMove>,
) -> Result<(), AllocError>
    requires { IsWhole state.now }
    ensures { OnOk result (out.new.items ≡ out.old.items ++ flat_map (around_id state.now a b) ids.now) }
{
    for id in ids {
        add_around(state, *id, a, b, out)?;
    }
    Ok(())
}

fn add_moves_of(
    alloc: Global,
    state: &PlanState,
    id: u32,
    out: &mut Vec<RepairMove>,
) -> Result<(), AllocError>
    requires { IsWhole state.now }
    ensures { OnOk result (out.new.items ≡ out.old.items ++ moves_of_id state.now id) }
{
    match state.live(id) {
        Some(user) => add_moves(alloc, state, user, out),
        None => Ok(()),
    }
}

fn add_all_moves(
    alloc: Global,
    state: &PlanState,
    ids: &[u32],
    out: &mut Vec<RepairMove>,
) -> Result<(), AllocError>
    requires { IsWhole state.now }
    ensures { OnOk result (out.new.items ≡ out.old.items ++ flat_map (moves_of_id state.now) ids.now) }
{
    for id in ids {
        add_moves_of(alloc, state, *id, out)?;
    }
    Ok(())
}

/// Appends for each of the first eight users the shifts by which it starts where the span ends or ends where the span starts, and
/// then the moves of each.
#[tactic(auto, using(crate::proofs::Playing::moves_by_ids, crate::proofs::Playing::around_by_ids))]
pub(crate) fn for_over(
    alloc: Global,
    state: &PlanState,
    timeline: u32,
    a: u32,
    b: u32,
    out: &mut Vec<RepairMove>,
) -> Result<(), AllocError>
    requires { IsWhole state.now }
    ensures { OnOk result (out.new.items ≡ out.old.items ++ for_over state.now timeline a b) }
{
    let users = first_users(alloc, state, timeline, Role::Uses(a, b))?;
    add_all_around(state, users.as_slice(), a, b, out)?;
    add_all_moves(alloc, state, users.as_slice(), out)?;
    Ok(())
}

/// Appends additions of activities that raise the level, and the moves of the first eight activities that lower it before the
/// span's end.
#[tactic(auto, using(crate::proofs::Playing::moves_by_ids, crate::proofs::Playing::around_by_ids))]
pub(crate) fn for_low(
    alloc: Global,
    state: &PlanState,
    timeline: u32,
    a: u32,
    b: u32,
    out: &mut Vec<RepairMove>,
) -> Result<(), AllocError>
    requires { IsWhole state.now }
    ensures { OnOk result (out.new.items ≡ out.old.items ++ for_low state.now timeline a b) }
{
    add_help(alloc, state, timeline, Help::Raise, a, out)?;
    let users = first_users(alloc, state, timeline, Role::ChangesBelow(b, Way::Down))?;
    add_all_moves(alloc, state, users.as_slice(), out)?;
    Ok(())
}

/// Appends additions of activities that lower the level, and the moves of the first eight activities that raise it before the
/// span's end.
#[tactic(auto, using(crate::proofs::Playing::moves_by_ids, crate::proofs::Playing::around_by_ids))]
pub(crate) fn for_high(
    alloc: Global,
    state: &PlanState,
    timeline: u32,
    a: u32,
    b: u32,
    out: &mut Vec<RepairMove>,
) -> Result<(), AllocError>
    requires { IsWhole state.now }
    ensures { OnOk result (out.new.items ≡ out.old.items ++ for_high state.now timeline a b) }
{
    add_help(alloc, state, timeline, Help::Lower, a, out)?;
    let users = first_users(alloc, state, timeline, Role::ChangesBelow(b, Way::Up))?;
    add_all_moves(alloc, state, users.as_slice(), out)?;
    Ok(())
}

fn reservation_at<'s>(state: &'s PlanState, a: &Activity, index: u32) -> Option<&'s Reservation>
    ensures { option_copied result ≡ reservation_at state.now a.now index }
{
    match state.kind_of(a) {
        Some(kind) => kind.reservations.as_slice().get(index as usize),
        None => None,
    }
}

// Appends additions of activities that set the state that the reservation needs.
fn add_help_must(
    alloc: Global,
    state: &PlanState,
    a: &Activity,
    index: u32,
    until: u32,
    out: &mut Vec<RepairMove>,
) -> Result<(), AllocError>
    requires { IsWhole state.now }
    ensures { OnOk result (out.new.items ≡ out.old.items ++ of_found (help_must state.now until) (reservation_at state.now a.now index)) }
{
    match reservation_at(state, a, index) {
        Some(Reservation::Must(timeline, needed)) => {
            add_help(alloc, state, *timeline, Help::SetState(*needed), until, out)
        }
        _ => Ok(()),
    }
}

// Appends additions of activities that set a state of the reservation's timeline, whichever it is.
fn add_help_step(
    alloc: Global,
    state: &PlanState,
    a: &Activity,
    index: u32,
    until: u32,
    out: &mut Vec<RepairMove>,
) -> Result<(), AllocError>
    requires { IsWhole state.now }
    ensures { OnOk result (out.new.items ≡ out.old.items ++ of_found (help_step state.now until) (reservation_at state.now a.now index)) }
{
    match reservation_at(state, a, index) {
        Some(Reservation::Put(timeline, _, _)) => add_help(
            alloc,
            state,
            *timeline,
            Help::SetAny,
            until,
            out,
        ),
        _ => Ok(()),
    }
}

/// Appends additions, up to a moment, of activities that set the state that a reservation needs, and the moves of the activity.
pub(crate) fn for_must(
    alloc: Global,
    state: &PlanState,
    a: &Activity,
    index: u32,
    until: u32,
    out: &mut Vec<RepairMove>,
) -> Result<(), AllocError>
    requires whole { IsWhole state.now }
    requires live { activity_of a.now.id state.now.plan.activities ≡ Some a.now }
    ensures { OnOk result (out.new.items ≡ out.old.items ++ for_must state.now a.now index until) }
{
    add_help_must(alloc, state, a, index, until, out)?;
    add_moves(alloc, state, a, out)?;
    Ok(())
}

/// Appends additions, up to a moment, of activities that set a state of the timeline that a reservation sets, and the moves of the
/// activity.
pub(crate) fn for_bad_step(
    alloc: Global,
    state: &PlanState,
    a: &Activity,
    index: u32,
    until: u32,
    out: &mut Vec<RepairMove>,
) -> Result<(), AllocError>
    requires whole { IsWhole state.now }
    requires live { activity_of a.now.id state.now.plan.activities ≡ Some a.now }
    ensures { OnOk result (out.new.items ≡ out.old.items ++ for_bad_step state.now a.now index until) }
{
    add_help_step(alloc, state, a, index, until, out)?;
    add_moves(alloc, state, a, out)?;
    Ok(())
}
