//! Moves for an order between two slots, or between a slot and the parent, that is not met.
ghost use Rattle.std.specs.Prelude.{◌≡◌, ◌++◌, ◌+ℤ◌, ◌-ℤ◌, pos, IfSome, OnOk, Some};
ghost use Rattle.std.specs.Option.{option_copied};
ghost use Rattle.pl_plan.specs.Activities.{activity_of};
ghost use Rattle.pl_links.specs.Broken.{moment_of};
ghost use Rattle.pl_semantics.specs.Whole.{IsWhole};
ghost use Rattle.pl_semantics.specs.PlanStates.{of_found};
ghost use Rattle.pl_semantics.specs.Links.{order_at, placed_of};
ghost use Rattle.pl_semantics.specs.Repairs.{for_linked, for_order, order_shifts, shift_one, shifts_apart, shifts_between};
ghost use Rattle.pl_cand.specs.Near.{IsNear};

use crate::reading::{checked_order, moment_of};
use crate::repairs::add_moves;
use crate::starts::add_shift;
use pl_model::Order;
use pl_plan::{Activity, RepairMove};
use pl_semantics::PlanState;
use std::alloc::{AllocError, Global};

// Appends the shift of the activity in this slot to a start. The parent, which has no slot, is not shifted.
fn add_shift_one(
    state: &PlanState,
    slot: Option<u32>,
    a: &Activity,
    to: i64,
    out: &mut Vec<RepairMove>,
) -> Result<(), AllocError>
    ensures { OnOk result (out.new.items ≡ out.old.items ++ shift_one state.now slot a.now to) }
{
    match slot {
        Some(_) => add_shift(state, a.id, to, out),
        None => Ok(()),
    }
}

// The start that comes of moving one later by a distance (`by`) and then earlier by another (`back`).
fn moved(start: u32, by: i64, back: i64) -> i64
    requires by { IsNear by }
    requires back { IsNear back }
    ensures { result ≡ (pos start +ℤ by) -ℤ back }
{
    i64::from(start) + by - back
}

fn add_moved(
    state: &PlanState,
    slot: Option<u32>,
    a: &Activity,
    by: i64,
    back: i64,
    out: &mut Vec<RepairMove>,
) -> Result<(), AllocError>
    requires by { IsNear by }
    requires back { IsNear back }
    ensures { OnOk result (out.new.items ≡ out.old.items ++ shift_one state.now slot a.now ((pos a.now.start +ℤ by) -ℤ back)) }
{
    add_shift_one(state, slot, a, moved(a.start, by, back), out)?;
    Ok(())
}

// Appends the shifts of the second activity by which it lies the least and the greatest distance of the order after the first, and
// then those of the first by which it lies that far before the second. `apart` is the distance from the first to the second at
// present.
fn add_order_shifts(
    state: &PlanState,
    order: &Order,
    first: &Activity,
    second: &Activity,
    apart: i64,
    out: &mut Vec<RepairMove>,
) -> Result<(), AllocError>
    requires low { IsNear order.now.low }
    requires high { IsNear order.now.high }
    requires apart { IsNear apart }
    ensures { OnOk result (out.new.items ≡ out.old.items ++ order_shifts state.now order.now first.now second.now apart) }
{
    add_moved(state, order.second, second, order.low, apart, out)?;
    add_moved(state, order.second, second, order.high, apart, out)?;
    add_moved(state, order.first, first, apart, order.low, out)?;
    add_moved(state, order.first, first, apart, order.high, out)?;
    Ok(())
}

fn add_shifts_apart(
    state: &PlanState,
    order: &Order,
    first: &Activity,
    second: &Activity,
    out: &mut Vec<RepairMove>,
) -> Result<(), AllocError>
    requires whole { IsWhole state.now }
    requires first { activity_of first.now.id state.now.plan.activities ≡ Some first.now }
    requires second { activity_of second.now.id state.now.plan.activities ≡ Some second.now }
    requires low { IsNear order.now.low }
    requires high { IsNear order.now.high }
    ensures { OnOk result (out.new.items ≡ out.old.items ++ shifts_apart state.now order.now first.now second.now (moment_of order.now.first_end (placed_of state.now first.now)) (moment_of order.now.second_end (placed_of state.now second.now))) }
{
    match (
        moment_of(state, first, order.first_end),
        moment_of(state, second, order.second_end),
    ) {
        (Some(from), Some(to)) => {
            add_order_shifts(
                state,
                order,
                first,
                second,
                i64::from(to) - i64::from(from),
                out,
            )
        }
        _ => Ok(()),
    }
}

fn add_shifts_between(
    state: &PlanState,
    order: &Order,
    first: Option<&Activity>,
    second: Option<&Activity>,
    out: &mut Vec<RepairMove>,
) -> Result<(), AllocError>
    requires whole { IsWhole state.now }
    requires first { IfSome first (λ a. activity_of a.now.id state.now.plan.activities ≡ Some a.now) }
    requires second { IfSome second (λ a. activity_of a.now.id state.now.plan.activities ≡ Some a.now) }
    requires low { IsNear order.now.low }
    requires high { IsNear order.now.high }
    ensures { OnOk result (out.new.items ≡ out.old.items ++ shifts_between state.now order.now (option_copied first.entry) (option_copied second.entry)) }
{
    match (first, second) {
        (Some(first), Some(second)) => add_shifts_apart(state, order, first, second, out),
        _ => Ok(()),
    }
}

fn add_order(
    alloc: Global,
    state: &PlanState,
    parent: &Activity,
    order: &Order,
    out: &mut Vec<RepairMove>,
) -> Result<(), AllocError>
    requires whole { IsWhole state.now }
    requires live { activity_of parent.now.id state.now.plan.activities ≡ Some parent.now }
    requires low { IsNear order.now.low }
    requires high { IsNear order.now.high }
    ensures { OnOk result (out.new.items ≡ out.old.items ++ for_order state.now parent.now order.now) }
{
    let first = state.place_in(alloc, parent, order.first)?;
    let second = state.place_in(alloc, parent, order.second)?;
    add_shifts_between(state, order, first, second, out)?;
    Ok(())
}

fn add_order_of(
    alloc: Global,
    state: &PlanState,
    parent: &Activity,
    index: u32,
    out: &mut Vec<RepairMove>,
) -> Result<(), AllocError>
    requires whole { IsWhole state.now }
    requires live { activity_of parent.now.id state.now.plan.activities ≡ Some parent.now }
    ensures { OnOk result (out.new.items ≡ out.old.items ++ of_found (for_order state.now parent.now) (order_at state.now parent.now index)) }
{
    match checked_order(state, parent, index) {
        Some(order) => add_order(alloc, state, parent, order, out),
        None => Ok(()),
    }
}

/// Appends shifts by which the order of this index is met, the move by which the parent gives up its alternative, and the moves of
/// the parent.
pub(crate) fn for_linked(
    alloc: Global,
    state: &PlanState,
    parent: &Activity,
    index: u32,
    out: &mut Vec<RepairMove>,
) -> Result<(), AllocError>
    requires whole { IsWhole state.now }
    requires live { activity_of parent.now.id state.now.plan.activities ≡ Some parent.now }
    ensures { OnOk result (out.new.items ≡ out.old.items ++ for_linked state.now parent.now index) }
{
    add_order_of(alloc, state, parent, index, out)?;
    out.push(RepairMove::Abstract { id: parent.id })?;
    add_moves(alloc, state, parent, out)?;
    Ok(())
}
