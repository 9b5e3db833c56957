//! State timelines: the cost of a change.
ghost use Rattle.std.specs.Prelude.{◌≤◌, ◌<◌, ◌*◌};
ghost use Rattle.lundocsef_bench.specs.Sizes.{CanTry};

use crate::places::place_of;
use crate::report::{Found, nanos_each, show};
use anyhow::Result;
use pl_state::StateTimeline;
use std::alloc::{AllocError, Global};
use std::time::CpuClock;

const SPACING: u32 = 100;

const STEPS: [(u32, u32); 3] = [(0, 1), (1, 2), (2, 0)];

/// The set of a place, whose id is the place. Each fifth takes a step that is not allowed.
fn put(timeline: &mut StateTimeline, place: u32) -> Result<(), AllocError>
    requires { place < 10000 }
{
    timeline.put(place * SPACING + 1, place, 0, place % 5 % 3)?;
    Ok(())
}

/// The must of a place, from the middle of its set into the next.
fn need(timeline: &mut StateTimeline, place: u32) -> Result<(), AllocError>
    requires { place < 10000 }
{
    let from = place * SPACING + 50;
    timeline.need(from, from + 70, place, 1, place % 3)?;
    Ok(())
}

fn filled(alloc: Global, count: u32) -> Result<StateTimeline, AllocError>
    requires { count ≤ 10000 }
{
    let steps = STEPS.as_slice();
    let mut timeline = StateTimeline::new(alloc, count * SPACING, 3, 0, false, steps)?;
    for index in 0..count {
        put(&mut timeline, place_of(index, count))?;
        need(&mut timeline, index)?;
    }
    Ok(timeline)
}

/// A set behind the one of a place, or half way to the next, comes and goes.
fn change(timeline: &mut StateTimeline, place: u32) -> Result<(), AllocError>
    requires { place < 20000 }
{
    let at = place * (SPACING / 2) + 11;
    timeline.put(at, place, 2, 1)?;
    timeline.take(at, place, 2, 1)?;
    Ok(())
}

/// Changes at so many of the places.
fn changed(timeline: &mut StateTimeline, count: u32, changes: u32) -> Result<(), AllocError>
    requires count { count ≤ 10000 }
    requires changes { changes ≤ 2 * count }
{
    for index in 0..changes {
        change(timeline, place_of(index, 2 * count))?;
    }
    Ok(())
}

/// Changes a state timeline with so many sets and as many musts, and says what it tells then and what a change cost.
pub fn run(
    rt: &(impl Print + CpuClock),
    alloc: Global,
    count: u32,
    changes: u32,
    is_timed: bool,
) -> Result<()>
    requires { CanTry 10000 count (2 * count) changes }
{
    let mut timeline = filled(alloc, count)?;
    let start = rt.thread_cpu_time()?;
    changed(&mut timeline, count, changes)?;
    let end = rt.thread_cpu_time()?;
    let (musts, steps) = (timeline.broken_musts().len(), timeline.bad_steps().len());
    let found = Found {
        count: musts.saturating_add(steps),
        nanos: nanos_each(start, end, changes),
    };
    let what = "broken musts and steps not allowed";
    show(rt, "state", what, found, is_timed)
}
