ghost use Rattle.std.specs.Prelude.{◌≤◌};

use crate::boards::{Group, filled, shift_and_back};
use crate::report::nanos_each;
use anyhow::Result;
use pl_board::Board;
use std::alloc::Global;
use std::time::CpuClock;

// How many nanoseconds of the processor one shift took, of an activity alone and of one with four below it.
#[derive(Clone, Copy)]
struct Cost {
    alone: u128,
    tree: u128,
}

fn shift_tests(alloc: Global, board: &mut Board, groups: &[Group]) -> Result<()> {
    for group in groups {
        shift_and_back(alloc, board, group.test, group.test_start)?;
    }
    Ok(())
}

fn shift_surveys(alloc: Global, board: &mut Board, groups: &[Group]) -> Result<()> {
    for group in groups {
        shift_and_back(alloc, board, group.survey, group.survey_start)?;
    }
    Ok(())
}

// Times both sorts of shifts, two for each group.
fn measure(
    rt: &impl CpuClock,
    alloc: Global,
    board: &mut Board,
    groups: &[Group],
    count: u32,
) -> Result<Cost> {
    let shifts = count.saturating_mul(2);
    let start = rt.thread_cpu_time()?;
    shift_tests(alloc, board, groups)?;
    let middle = rt.thread_cpu_time()?;
    shift_surveys(alloc, board, groups)?;
    let end = rt.thread_cpu_time()?;
    Ok(Cost {
        alone: nanos_each(start, middle, shifts),
        tree: nanos_each(middle, end, shifts),
    })
}

// Prints how many activities there are, how many conflicts, and whether these are as many as before the shifts.
fn tell_state(rt: &impl Print, board: &Board, before: u32) -> Result<()> {
    let (live, after) = (board.plan().len(), board.conflicts().len());
    let word = if before == after { "as" } else { "NOT as" };
    rt.println(format_args!(
        "board: {live} activities, {after} conflicts, {word} before the shifts"
    ))?;
    Ok(())
}

fn tell_cost(rt: &impl Print, cost: Cost) -> Result<()> {
    let Cost { alone, tree } = cost;
    rt.println(format_args!(
        "board: {alone} ns for the shift of one activity, {tree} ns for that of a tree of five"
    ))?;
    Ok(())
}

// Shifts activities of the board, and says what came of it.
fn shift_on(
    rt: &(impl Print + CpuClock),
    alloc: Global,
    board: &mut Board,
    groups: &[Group],
    count: u32,
    is_timed: bool,
) -> Result<()> {
    let before = board.conflicts().len();
    let cost = measure(rt, alloc, board, groups, count)?;
    tell_state(rt, board, before)?;
    if is_timed {
        tell_cost(rt, cost)?;
    }
    Ok(())
}

/// Shifts activities of a board with so many groups of eight, and says how many stand, how much is wrong and, if asked, what a shift cost.
pub fn run(rt: &(impl Print + CpuClock), alloc: Global, count: u32, is_timed: bool) -> Result<()>
    requires { count ≤ 1000 }
{
    let (mut board, groups) = filled(alloc, count)?;
    shift_on(rt, alloc, &mut board, &groups, count, is_timed)
}
