//! Capacities: the cost of a change.
ghost use Rattle.std.specs.Prelude.{◌≡◌, ◌≤◌, ◌<◌, [], length, OnOk, IfOk};
ghost use Rattle.lundocsef_bench.specs.Sizes.{CanTry};

use crate::places::place_of;
use crate::report::{Found, nanos_each, show};
use anyhow::Result;
use pl_capacity::Capacity;
use pl_points::{Points, Quiet, Span, Steps};
use std::alloc::{AllocError, Global};
use std::time::CpuClock;

const SPACING: u32 = 100;

const MOST: i64 = 10;

/// The span of a use: most of them reach into the next place's.
fn span_at(place: u32) -> Span
    requires { place < 10000 }
    ensures { result.from < result.to }
{
    let from = place * SPACING + 1;
    let to = from + 85 + place % 20 * 2;
    Span { from, to }
}

/// The span of a use that lies within the use of its place.
fn extra_at(place: u32) -> Span
    requires { place < 10000 }
    ensures { result.from < result.to }
{
    let from = place * SPACING + 31;
    let to = from + 50;
    Span { from, to }
}

fn filled<P: Points>(
    alloc: Global,
    points: P,
    count: u32,
    amount: u16,
) -> Result<Capacity<P>, AllocError>
    requires points { P.points points ≡ [] }
    requires few { count ≤ 10000 }
    ensures { IfOk result (λ c. length c.uses ≡ count) }
{
    let mut steps = Steps::new(Quiet);
    let mut timeline = Capacity::new(alloc, count * SPACING, MOST, points);
    for index in 0..count {
        let new = span_at(place_of(index, count));
        timeline.add(new.from, new.to, i64::from(amount), &mut steps)?;
    }
    Ok(timeline)
}

/// One use comes and goes.
#[tactic(auto, using(crate::proofs::Pairs::use_stands, crate::proofs::Pairs::use_gone))]
fn change<P: Points>(timeline: &mut Capacity<P>, new: Span, amount: u16) -> Result<(), AllocError>
    requires few { length timeline.old.uses ≤ 10000 }
    requires new { new.from < new.to }
    ensures { OnOk result (length timeline.new.uses ≡ length timeline.old.uses) }
{
    let mut steps = Steps::new(Quiet);
    let amount = i64::from(amount);
    timeline.add(new.from, new.to, amount, &mut steps)?;
    timeline.remove(new.from, new.to, amount, &mut steps)?;
    Ok(())
}

/// Changes at so many of the places.
fn changed<P: Points>(
    timeline: &mut Capacity<P>,
    count: u32,
    amount: u16,
    changes: u32,
) -> Result<(), AllocError>
    requires few { length timeline.old.uses ≤ 10000 }
    requires count { count ≤ 10000 }
    requires changes { changes ≤ count }
{
    for index in 0..changes {
        change(timeline, extra_at(place_of(index, count)), amount)?;
    }
    Ok(())
}

/// Changes a capacity over the points, with so many uses of the amount, and says what it tells then and what a change cost.
pub fn run<P: Points>(
    rt: &(impl Print + CpuClock),
    alloc: Global,
    points: P,
    name: &str,
    count: u32,
    amount: u16,
    changes: u32,
    is_timed: bool,
) -> Result<()>
    requires points { P.points points ≡ [] }
    requires sizes { CanTry 10000 count count changes }
{
    let mut timeline = filled(alloc, points, count, amount)?;
    let start = rt.thread_cpu_time()?;
    changed(&mut timeline, count, amount, changes)?;
    let end = rt.thread_cpu_time()?;
    let found = Found {
        count: timeline.spans().len(),
        nanos: nanos_each(start, end, changes),
    };
    show(rt, name, "spans", found, is_timed)
}
