//! Which of the numbers between two are tried: at most sixteen, spread evenly.
ghost use Rattle.std.specs.Prelude.{◌≡◌, ◌≤◌, ◌-ℤ◌, IfOk};
ghost use Rattle.std.specs.List.{list_any};
ghost use Rattle.std.specs.Ordering.{int_eq};
ghost use Rattle.pl_semantics.specs.PlanStates.{natural};
ghost use Rattle.pl_semantics.specs.Starts.{spread, stride, steps_from};
ghost use Rattle.pl_cand.specs.Near.{IsNear};

use std::alloc::{AllocError, Global};

/// The most numbers that are tried.
const MOST: u32 = 16;

// The distance between one number that is tried and the next, given how far the high number lies above the low one.
fn stride(width: u64) -> u64
    requires { width ≤ 2000000000000 }
    ensures value { result ≡ stride width }
    ensures few { result ≤ 1000000000000 }
{
    ((width + 14) / 15).max(1)
}

// The numbers from a low one up to a high one, in steps of this size, and at most so many.
fn steps(alloc: Global, low: i64, high: i64, step: u64, most: u32) -> Result<Vec<i64>, AllocError>
    requires low { IsNear low }
    requires high { IsNear high }
    requires step { step ≤ 1000000000000 }
    ensures { IfOk result (λ all. all.items ≡ steps_from most low high step) }
{
    let mut all = Vec::with_capacity(alloc, most as usize)?;
    let mut next = low;
    let mut left = most;
    while left > 0 {
        if high < next {
            return Ok(all);
        }
        all.push(next)?;
        next += step as i64;
        left -= 1;
    }
    Ok(all)
}

// How far a high number lies above a low one.
fn width(low: i64, high: i64) -> u64
    requires low { IsNear low }
    requires high { IsNear high }
    ensures value { result ≡ natural (high -ℤ low) }
    ensures few { result ≤ 2000000000000 }
{
    if low <= high { (high - low) as u64 } else { 0 }
}

/// The numbers from `low` to `high` that are tried: `low` and each step up from it, sixteen at most.
pub(crate) fn spread(alloc: Global, low: i64, high: i64) -> Result<Vec<i64>, AllocError>
    requires low { IsNear low }
    requires high { IsNear high }
    ensures { IfOk result (λ all. all.items ≡ spread low high) }
{
    steps(alloc, low, high, stride(width(low, high)), MOST)
}

// Whether a number is one of those from a low one up to a high one, in steps of this size, and at most so many.
fn is_among_steps(low: i64, high: i64, step: u64, most: u32, number: i64) -> bool
    requires low { IsNear low }
    requires high { IsNear high }
    requires step { step ≤ 1000000000000 }
    ensures { result ≡ list_any (int_eq number) (steps_from most low high step) }
{
    let mut next = low;
    let mut left = most;
    while left > 0 {
        if next > high {
            return false;
        }
        if number == next {
            return true;
        }
        next += step as i64;
        left -= 1;
    }
    false
}

/// Whether a number is one of those from `low` to `high` that are tried.
pub(crate) fn is_step(low: i64, high: i64, number: i64) -> bool
    requires low { IsNear low }
    requires high { IsNear high }
    ensures { result ≡ list_any (int_eq number) (spread low high) }
{
    is_among_steps(low, high, stride(width(low, high)), MOST, number)
}
