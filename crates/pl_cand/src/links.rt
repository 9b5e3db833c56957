//! Moves for links that have no partner.
ghost use Rattle.std.specs.Prelude.{◌≡◌, ◌++◌, ◌≤ℤ◌, ◌+ℤ◌, pos, neg_ℤ, OnOk, Some, slice_get};
ghost use Rattle.pl_plan.specs.Activities.{activity_of};
ghost use Rattle.pl_links.specs.Broken.{moment_of, links_of};
ghost use Rattle.pl_semantics.specs.Whole.{IsWhole};
ghost use Rattle.pl_semantics.specs.PlanStates.{of_found};
ghost use Rattle.pl_semantics.specs.Links.{placed_of};
ghost use Rattle.pl_semantics.specs.Repairs.{for_temporal, kind_at, least_of, partner_start, partners_for, partners_from};
ghost use Rattle.std.specs.Int.{int_max, int_min};
ghost use Rattle.pl_semantics.specs.Starts.{floor_at, last_of};
ghost use Rattle.pl_cand.specs.Near.{AreClose, IsClose, IsNear};

use crate::reading::{floor, last, links_of, moment_of};
use crate::repairs::add_moves;
use crate::starts::add_news;
use crate::strides::spread;
use pl_model::{Link, Point};
use pl_plan::{Activity, RepairMove};
use pl_semantics::PlanState;
use std::alloc::{AllocError, Global};

// The least duration of a kind.
fn least_of(state: &PlanState, kind: u32) -> u32
    ensures { result ≡ least_of (kind_at state.now kind) }
{
    match state.model.get().kinds.as_slice().get(kind as usize) {
        Some(kind) => kind.least_duration,
        None => 0,
    }
}

// Where a partner of least duration starts if its point of the link lies at the moment `own`, at which the activity that has the
// link has its own point.
fn partner_start(own: u32, theirs: Point, least: u32) -> i64
    ensures { result ≡ partner_start (pos own) theirs least }
{
    match theirs {
        Point::Start => i64::from(own),
        Point::End => i64::from(own) - i64::from(least),
    }
}

// The earliest start that is tried for a partner.
fn earliest(state: &PlanState, link: &Link, start: i64) -> i64
    requires whole { IsWhole state.now }
    requires link { AreClose link.now }
    requires least { neg_ℤ (pos 5000000000) ≤ℤ start }
    requires most { start ≤ℤ pos 5000000000 }
    ensures value { result ≡ int_max (floor_at state.now) (start +ℤ link.now.low) }
    ensures near { IsNear result }
{
    floor(state).max(behind(start, link.low))
}

// The latest start that is tried for a partner.
fn latest(state: &PlanState, link: &Link, start: i64) -> i64
    requires link { AreClose link.now }
    requires least { neg_ℤ (pos 5000000000) ≤ℤ start }
    requires most { start ≤ℤ pos 5000000000 }
    ensures value { result ≡ int_min (last_of state.now) (start +ℤ link.now.high) }
    ensures near { IsNear result }
{
    last(state).min(behind(start, link.high))
}

// Appends additions of partners within the window of a link.
fn add_partners_from(
    alloc: Global,
    state: &PlanState,
    link: &Link,
    start: i64,
    out: &mut Vec<RepairMove>,
) -> Result<(), AllocError>
    requires whole { IsWhole state.now }
    requires link { AreClose link.now }
    requires least { neg_ℤ (pos 5000000000) ≤ℤ start }
    requires most { start ≤ℤ pos 5000000000 }
    ensures { OnOk result (out.new.items ≡ out.old.items ++ partners_from state.now link.now start) }
{
    let starts = spread(
        alloc,
        earliest(state, link, start),
        latest(state, link, start),
    )?;
    add_news(state, link.kind, None, starts.as_slice(), out)?;
    Ok(())
}

fn add_partners(
    alloc: Global,
    state: &PlanState,
    a: &Activity,
    link: &Link,
    out: &mut Vec<RepairMove>,
) -> Result<(), AllocError>
    requires whole { IsWhole state.now }
    requires live { activity_of a.now.id state.now.plan.activities ≡ Some a.now }
    requires link { AreClose link.now }
    ensures { OnOk result (out.new.items ≡ out.old.items ++ partners_for state.now a.now link.now) }
{
    match moment_of(state, a, link.mine) {
        Some(own) => {
            let start = partner_start(own, link.theirs, least_of(state, link.kind));
            add_partners_from(alloc, state, link, start, out)
        }
        None => Ok(()),
    }
}

fn add_partners_of(
    alloc: Global,
    state: &PlanState,
    a: &Activity,
    index: u32,
    out: &mut Vec<RepairMove>,
) -> Result<(), AllocError>
    requires whole { IsWhole state.now }
    requires live { activity_of a.now.id state.now.plan.activities ≡ Some a.now }
    ensures { OnOk result (out.new.items ≡ out.old.items ++ of_found (partners_for state.now a.now) (slice_get (links_of state.now.model (placed_of state.now a.now)) index)) }
{
    match links_of(state, a).get(index as usize) {
        Some(link) => add_partners(alloc, state, a, link, out),
        None => Ok(()),
    }
}

/// Appends additions of partners for the link of this index, and the moves of the activity.
pub(crate) fn for_temporal(
    alloc: Global,
    state: &PlanState,
    a: &Activity,
    index: u32,
    out: &mut Vec<RepairMove>,
) -> Result<(), AllocError>
    requires whole { IsWhole state.now }
    requires live { activity_of a.now.id state.now.plan.activities ≡ Some a.now }
    ensures { OnOk result (out.new.items ≡ out.old.items ++ for_temporal state.now a.now index) }
{
    add_partners_of(alloc, state, a, index, out)?;
    add_moves(alloc, state, a, out)?;
    Ok(())
}

// The moment that lies this distance after another.
fn behind(moment: i64, distance: i64) -> i64
    requires least { neg_ℤ (pos 5000000000) ≤ℤ moment }
    requires most { moment ≤ℤ pos 5000000000 }
    requires distance { IsClose distance }
    ensures value { result ≡ moment +ℤ distance }
    ensures near { IsNear result }
{
    moment + distance
}
