//! Levels: the cost of a change.
ghost use Rattle.std.specs.Prelude.{◌≡◌, ◌≤◌, ◌<◌, [], length, OnOk, IfOk};
ghost use Rattle.lundocsef_bench.specs.Sizes.{CanTry};

use crate::places::place_of;
use crate::report::{Found, nanos_each, show};
use anyhow::Result;
use pl_level::Level;
use pl_points::{Points, Quiet, Steps};
use std::alloc::{AllocError, Global};
use std::time::CpuClock;

const SPACING: u32 = 50;

const START: i64 = 5;

const LEAST: i64 = 3;

const MOST: i64 = 7;

/// The moment of the effect of a place.
fn moment_at(place: u32) -> u32
    requires { place < 20000 }
    ensures { 1 ≤ result }
{
    place * SPACING + 1
}

/// A moment between the effects of its place and the next.
fn extra_at(place: u32) -> u32
    requires { place < 20000 }
    ensures { 1 ≤ result }
{
    place * SPACING + 26
}

/// The effect of a place: up and back, down and back, in turn. Before the place `calm` the level stays within its limits.
fn jump_at(place: u32, calm: u32) -> i16 {
    let is_up = matches!(place % 4, 0 | 3);
    match (place < calm, is_up) {
        (true, true) => 1,
        (true, false) => -1,
        (false, true) => 3,
        (false, false) => -3,
    }
}

fn filled<P: Points>(
    alloc: Global,
    points: P,
    count: u32,
    calm: u32,
) -> Result<Level<P>, AllocError>
    requires points { P.points points ≡ [] }
    requires some { 0 < count }
    requires few { count ≤ 20000 }
    ensures { IfOk result (λ c. length c.effects ≡ count) }
{
    let mut steps = Steps::new(Quiet);
    let mut timeline = Level::new(alloc, count * SPACING, LEAST, MOST, START, points);
    for index in 0..count {
        let place = place_of(index, count);
        let jump = i64::from(jump_at(place, calm));
        timeline.add(moment_at(place), jump, &mut steps)?;
    }
    Ok(timeline)
}

/// An effect of one comes and goes.
#[tactic(auto, using(crate::proofs::Pairs::effect_stands, crate::proofs::Pairs::effect_gone))]
fn change<P: Points>(timeline: &mut Level<P>, at: u32) -> Result<(), AllocError>
    requires few { length timeline.old.effects ≤ 20000 }
    requires new { 1 ≤ at }
    ensures { OnOk result (length timeline.new.effects ≡ length timeline.old.effects) }
{
    let mut steps = Steps::new(Quiet);
    timeline.add(at, 1, &mut steps)?;
    timeline.remove(at, 1, &mut steps)?;
    Ok(())
}

/// Changes at so many of the places.
fn changed<P: Points>(timeline: &mut Level<P>, count: u32, changes: u32) -> Result<(), AllocError>
    requires few { length timeline.old.effects ≤ 20000 }
    requires count { count ≤ 20000 }
    requires changes { changes ≤ count }
{
    for index in 0..changes {
        change(timeline, extra_at(place_of(index, count)))?;
    }
    Ok(())
}

/// Changes a level over the points, with so many effects, and says what it tells then and what a change cost. It stays within its
/// limits up to the place `calm`.
pub fn run<P: Points>(
    rt: &(impl Print + CpuClock),
    alloc: Global,
    points: P,
    name: &str,
    count: u32,
    calm: u32,
    changes: u32,
    is_timed: bool,
) -> Result<()>
    requires points { P.points points ≡ [] }
    requires sizes { CanTry 20000 count count changes }
{
    let mut timeline = filled(alloc, points, count, calm)?;
    let start = rt.thread_cpu_time()?;
    changed(&mut timeline, count, changes)?;
    let end = rt.thread_cpu_time()?;
    let (low, high) = (timeline.low_spans().len(), timeline.high_spans().len());
    let found = Found {
        count: low.saturating_add(high),
        nanos: nanos_each(start, end, changes),
    };
    show(rt, name, "spans", found, is_timed)
}
