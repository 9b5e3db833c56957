//! Benchmarks, one for each word: `timelines`, `replace`, `question`, `turns`.
//! Without a word each makes little and says what it found, with no times.
#![tactic(auto)]

ghost use Rattle.std.specs.Prelude.{◌≤◌};
ghost use Rattle.lundocsef_bench.specs.Sizes.{CanTry};

mod answers;
mod boards;
mod capacities;
mod levels;
mod places;
mod questions;
mod replaces;
mod report;
mod states;
mod turns;

use anyhow::Result;
use pl_blocks::BlockPoints;
use pl_points::PlainPoints;
use std::alloc::Global;
use std::env;
use std::rt::Clock;
use std::sync::Wait;
use std::thread::Threads;
use std::time::CpuClock;

/// A capacity over plain points and one over blocks, with so many uses of the amount.
fn try_capacity(
    rt: &(impl Print + CpuClock),
    alloc: Global,
    count: u32,
    amount: u16,
    changes: u32,
    is_timed: bool,
) -> Result<()>
    requires { CanTry 10000 count count changes }
{
    let (plain, blocks) = (PlainPoints::new(alloc), BlockPoints::new(alloc));
    let (one, other) = ("capacity", "capacity over blocks");
    capacities::run(rt, alloc, plain, one, count, amount, changes, is_timed)?;
    capacities::run(rt, alloc, blocks, other, count, amount, changes, is_timed)
}

/// A level over plain points and one over blocks, with so many effects, within its limits up to the place `calm`.
fn try_level(
    rt: &(impl Print + CpuClock),
    alloc: Global,
    count: u32,
    calm: u32,
    changes: u32,
    is_timed: bool,
) -> Result<()>
    requires { CanTry 20000 count count changes }
{
    let (plain, blocks) = (PlainPoints::new(alloc), BlockPoints::new(alloc));
    let (one, other) = ("level", "level over blocks");
    levels::run(rt, alloc, plain, one, count, calm, changes, is_timed)?;
    levels::run(rt, alloc, blocks, other, count, calm, changes, is_timed)
}

/// Levels with so many effects: within their limits, outside at the last 400, and outside everywhere.
fn try_levels(rt: &(impl Print + CpuClock), alloc: Global, count: u32) -> Result<()>
    requires some { 2500 ≤ count }
    requires few { count ≤ 20000 }
{
    try_level(rt, alloc, count, count, 1_000, true)?;
    try_level(rt, alloc, count, count - 400, 1_000, true)?;
    try_level(rt, alloc, count, 0, 1_000, true)
}

/// Capacities with so many uses, that stay within their most and that do not, and a state timeline with as many sets and musts.
fn try_others(rt: &(impl Print + CpuClock), alloc: Global, count: u32) -> Result<()>
    requires some { 1250 ≤ count }
    requires few { count ≤ 10000 }
{
    try_capacity(rt, alloc, count, 1, 1_250, true)?;
    try_capacity(rt, alloc, count, 6, 1_250, true)?;
    states::run(rt, alloc, count, 2_500, true)
}

/// Levels of so many points, and the others of half as many uses and sets.
fn try_timelines(rt: &(impl Print + CpuClock), alloc: Global, points: u32) -> Result<()>
    requires some { 2500 ≤ points }
    requires few { points ≤ 20000 }
{
    rt.println(format_args!("{points} points"))?;
    try_others(rt, alloc, points / 2)?;
    try_levels(rt, alloc, points)
}

fn measure_timelines(rt: &(impl Print + CpuClock), alloc: Global) -> Result<()> {
    try_timelines(rt, alloc, 2_500)?;
    try_timelines(rt, alloc, 20_000)
}

fn measure_replacements(rt: &(impl Print + CpuClock), alloc: Global) -> Result<()> {
    replaces::run(rt, alloc, 125, true)?;
    replaces::run(rt, alloc, 1_000, true)
}

fn measure_questions(rt: &(impl Print + CpuClock), alloc: Global) -> Result<()> {
    questions::run(rt, alloc, 125, 16, true)?;
    questions::run(rt, alloc, 1_000, 2, true)
}

/// Makes a few changes of each timeline.
fn show_timelines(rt: &(impl Print + CpuClock), alloc: Global) -> Result<()> {
    try_capacity(rt, alloc, 50, 6, 50, false)?;
    try_level(rt, alloc, 100, 60, 50, false)?;
    states::run(rt, alloc, 50, 100, false)
}

fn show_all<R: Print + Clock + CpuClock + Threads + Wait + Sync>(
    rt: &R,
    alloc: Global,
) -> Result<()> {
    show_timelines(rt, alloc)?;
    replaces::run(rt, alloc, 5, false)?;
    questions::run(rt, alloc, 5, 1, false)?;
    turns::run(rt, alloc, 500, false)
}

fn run<R: Print + Clock + CpuClock + Threads + Wait + Sync>(
    rt: &R,
    alloc: Global,
    word: &str,
) -> Result<()> {
    match word {
        "timelines" => measure_timelines(rt, alloc),
        "replace" => measure_replacements(rt, alloc),
        "question" => measure_questions(rt, alloc),
        "turns" => turns::run(rt, alloc, 200_000, true),
        _ => Ok(rt.println(format_args!(
            "usage: lundocsef_bench [timelines | replace | question | turns]"
        ))?),
    }
}

fn main(rt: HostRuntime) -> Result<()> {
    let mut words = env::args(&rt)?;
    words.next();
    match words.next() {
        Some(word) => run(&rt, rt.alloc(), word.as_str()),
        None => show_all(&rt, rt.alloc()),
    }
}
