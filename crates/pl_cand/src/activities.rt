//! Moves for what is wrong with an activity.
ghost use Rattle.std.specs.Prelude.{◌≡◌, ◌≤◌, ◌++◌, pos, map, length, slice_get, All, OnOk, Some};
ghost use Rattle.pl_plan.specs.Activities.{activity_of};
ghost use Rattle.pl_semantics.specs.Whole.{IsWhole};
ghost use Rattle.std.specs.List.{flat_map};
ghost use Rattle.std.specs.Option.{option_copied};
ghost use Rattle.pl_semantics.specs.PlanStates.{numbered, of_found};
ghost use Rattle.pl_semantics.specs.Activities.{bindings_of, params_at};
ghost use Rattle.pl_semantics.specs.Moves.{alternatives_at};
ghost use Rattle.pl_semantics.specs.Repairs.{all_assigns, assigns, assigns_one, end_by, for_bad_value, for_overrun, for_undetailed, for_unset, parent_at};
ghost use Rattle.pl_cand.specs.Near.{AreNear};
ghost use Rattle.pl_cand.specs.Details.{assign_to, assigns_as, assigns_if_free, detail_of};

use crate::reading::{checked_alternatives, checked_params, end_of};
use crate::repairs::{add_deletion, add_moves};
use crate::starts::add_shift;
use crate::strides::spread;
use pl_model::{Expr, Param};
use pl_moves::is_free;
use pl_plan::{Activity, RepairMove};
use pl_semantics::PlanState;
use std::alloc::{AllocError, Global};

// Appends an assignment of each of these values to one parameter.
fn add_values(
    id: u32,
    number: u8,
    values: &[i64],
    out: &mut Vec<RepairMove>,
) -> Result<(), AllocError>
    ensures { OnOk result (out.new.items ≡ out.old.items ++ map (assign_to id number) values.now) }
{
    for value in values {
        out.push(RepairMove::Assign {
            id,
            param: number,
            value: *value,
        })?;
    }
    Ok(())
}

// Appends assignments of values to one parameter, spread over its bounds.
fn add_assigns(
    alloc: Global,
    id: u32,
    number: u8,
    param: &Param,
    out: &mut Vec<RepairMove>,
) -> Result<(), AllocError>
    requires { AreNear param.now }
    ensures { OnOk result (out.new.items ≡ out.old.items ++ assigns id (number, param.now)) }
{
    let values = spread(alloc, param.low, param.high)?;
    add_values(id, number, values.as_slice(), out)?;
    Ok(())
}

// Appends assignments to one parameter, if it is free.
fn add_if_free(
    alloc: Global,
    id: u32,
    bindings: &[(u8, Expr)],
    number: u8,
    param: &Param,
    out: &mut Vec<RepairMove>,
) -> Result<(), AllocError>
    requires { AreNear param.now }
    ensures { OnOk result (out.new.items ≡ out.old.items ++ assigns_if_free bindings.now id (number, param.now)) }
{
    if is_free(bindings, number, param) {
        add_assigns(alloc, id, number, param, out)?;
    }
    Ok(())
}

// Appends assignments to each of these parameters that is free.
fn add_free_assigns(
    alloc: Global,
    id: u32,
    bindings: &[(u8, Expr)],
    params: &[Param],
    out: &mut Vec<RepairMove>,
) -> Result<(), AllocError>
    requires few { length params.now ≤ 16 }
    requires near { All AreNear params.now }
    ensures { OnOk result (out.new.items ≡ out.old.items ++ flat_map (assigns_if_free bindings.now id) (numbered 0 params.now)) }
{
    for (number, param) in params.iter().enumerate() {
        add_if_free(alloc, id, bindings, number as u8, param, out)?;
    }
    Ok(())
}

/// Appends assignments to each parameter of the activity that is free.
#[tactic(auto, using(crate::proofs::Listing::free_all))]
pub fn add_all_assigns(
    alloc: Global,
    state: &PlanState,
    a: &Activity,
    out: &mut Vec<RepairMove>,
) -> Result<(), AllocError>
    requires { IsWhole state.now }
    ensures { OnOk result (out.new.items ≡ out.old.items ++ all_assigns state.now a.now) }
{
    add_free_assigns(
        alloc,
        a.id,
        state.bindings_of(a),
        checked_params(state, a),
        out,
    )?;
    Ok(())
}

// Appends assignments to the parameter of this number.
fn add_assigns_at(
    alloc: Global,
    id: u32,
    params: &[Param],
    number: u32,
    out: &mut Vec<RepairMove>,
) -> Result<(), AllocError>
    requires few { length params.now ≤ 16 }
    requires near { All AreNear params.now }
    ensures { OnOk result (out.new.items ≡ out.old.items ++ of_found (assigns_as id number) (slice_get params.now number)) }
{
    match params.get(number as usize) {
        Some(param) => add_assigns(alloc, id, number as u8, param, out),
        None => Ok(()),
    }
}

#[tactic(auto, using(crate::proofs::Listing::assigns_at))]
fn add_assigns_of(
    alloc: Global,
    state: &PlanState,
    a: &Activity,
    number: u32,
    out: &mut Vec<RepairMove>,
) -> Result<(), AllocError>
    requires { IsWhole state.now }
    ensures { OnOk result (out.new.items ≡ out.old.items ++ flat_map (assigns_one a.now number) (params_at state.now a.now)) }
{
    add_assigns_at(alloc, a.id, checked_params(state, a), number, out)?;
    Ok(())
}

/// Appends assignments to a parameter that has no value, and the deletion of the root.
pub(crate) fn for_unset(
    alloc: Global,
    state: &PlanState,
    a: &Activity,
    number: u32,
    out: &mut Vec<RepairMove>,
) -> Result<(), AllocError>
    requires whole { IsWhole state.now }
    requires live { activity_of a.now.id state.now.plan.activities ≡ Some a.now }
    ensures { OnOk result (out.new.items ≡ out.old.items ++ for_unset state.now a.now number) }
{
    add_assigns_of(alloc, state, a, number, out)?;
    add_deletion(state, a, out)?;
    Ok(())
}

fn parent_at<'s>(state: &'s PlanState, a: &Activity) -> Option<&'s Activity>
    ensures { option_copied result ≡ parent_at state.now a.now }
{
    match a.parent {
        Some((parent, _)) => state.plan.get(parent),
        None => None,
    }
}

fn add_assigns_above(
    alloc: Global,
    state: &PlanState,
    a: &Activity,
    out: &mut Vec<RepairMove>,
) -> Result<(), AllocError>
    requires { IsWhole state.now }
    ensures { OnOk result (out.new.items ≡ out.old.items ++ of_found (all_assigns state.now) (parent_at state.now a.now)) }
{
    match parent_at(state, a) {
        Some(parent) => add_all_assigns(alloc, state, parent, out),
        None => Ok(()),
    }
}

/// Appends assignments to each free parameter of the activity and then of its parent, and the deletion of the root.
pub(crate) fn for_bad_value(
    alloc: Global,
    state: &PlanState,
    a: &Activity,
    out: &mut Vec<RepairMove>,
) -> Result<(), AllocError>
    requires whole { IsWhole state.now }
    requires live { activity_of a.now.id state.now.plan.activities ≡ Some a.now }
    ensures { OnOk result (out.new.items ≡ out.old.items ++ for_bad_value state.now a.now) }
{
    add_all_assigns(alloc, state, a, out)?;
    add_assigns_above(alloc, state, a, out)?;
    add_deletion(state, a, out)?;
    Ok(())
}

fn add_details(state: &PlanState, a: &Activity, out: &mut Vec<RepairMove>) -> Result<(), AllocError>
    requires { IsWhole state.now }
    ensures { OnOk result (out.new.items ≡ out.old.items ++ map (detail_of a.now.id) (numbered 0 (alternatives_at state.now a.now))) }
{
    let alternatives = checked_alternatives(state, a);
    for (number, _alternative) in alternatives.iter().enumerate() {
        out.push(RepairMove::Detail {
            id: a.id,
            alternative: number as u32,
        })?;
    }
    Ok(())
}

/// Appends each alternative of the activity's kind, and the deletion of the root.
pub(crate) fn for_undetailed(
    state: &PlanState,
    a: &Activity,
    out: &mut Vec<RepairMove>,
) -> Result<(), AllocError>
    requires whole { IsWhole state.now }
    requires live { activity_of a.now.id state.now.plan.activities ≡ Some a.now }
    ensures { OnOk result (out.new.items ≡ out.old.items ++ for_undetailed state.now a.now) }
{
    add_details(state, a, out)?;
    add_deletion(state, a, out)?;
    Ok(())
}

/// Appends the shift by which a live activity ends at this moment, if it is firm.
pub(crate) fn end_by(
    state: &PlanState,
    a: &Activity,
    moment: u32,
    out: &mut Vec<RepairMove>,
) -> Result<(), AllocError>
    requires whole { IsWhole state.now }
    requires live { activity_of a.now.id state.now.plan.activities ≡ Some a.now }
    ensures { OnOk result (out.new.items ≡ out.old.items ++ end_by state.now a.now (pos moment)) }
{
    match end_of(state, a) {
        Some(end) => {
            let duration = i64::from(end) - i64::from(a.start);
            add_shift(state, a.id, i64::from(moment) - duration, out)?;
            Ok(())
        }
        None => Ok(()),
    }
}

/// Appends the shift by which the activity ends at the horizon, and the moves of the activity.
pub(crate) fn for_overrun(
    alloc: Global,
    state: &PlanState,
    a: &Activity,
    out: &mut Vec<RepairMove>,
) -> Result<(), AllocError>
    requires whole { IsWhole state.now }
    requires live { activity_of a.now.id state.now.plan.activities ≡ Some a.now }
    ensures { OnOk result (out.new.items ≡ out.old.items ++ for_overrun state.now a.now) }
{
    end_by(state, a, state.model.get().horizon, out)?;
    add_moves(alloc, state, a, out)?;
    Ok(())
}
