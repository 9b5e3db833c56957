ghost use Rattle.std.specs.Prelude.{◌≡◌, ◌-ℤ◌, int_le, IsTrue, IfOk};
ghost use Rattle.std.specs.List.{list_all};
ghost use Rattle.pl_stn.specs.Nets.{IsWellFormed, IsSolution, IsNegativeCycle, time_of};
ghost use Rattle.pl_stn.specs.Verdicts.{IfTimes, IfCycle};
ghost use Rattle.pl_times.specs.Times.{IsSmall, IsAboveAll, is_met};
ghost use Rattle.pl_times.specs.Bounded.{AreBounds, HasCycle};

use crate::bounds::Bounds;
use crate::closing::is_cycle;
use crate::mirror::latest_times;
use crate::settling::earliest_times;
use crate::tracing::edges_of;
use crate::trying::{Found, look_quickly};
use pl_lists::Items;
use pl_stn::{Edge, Net, Verdict, solve};
use std::alloc::{AllocError, Global};

/// The time of a point, and 0 where there is none.
fn time_of(times: &[i64], point: u32) -> i64
    ensures { result ≡ time_of times.now point }
{
    times.get(point as usize).copied().unwrap_or(0)
}

fn is_at_most(distance: i128, most: i64) -> bool
    ensures { result ≡ int_le distance most }
{
    distance <= most as i128
}

fn is_within(first: i64, last: i64, most: i64) -> bool
    ensures { result ≡ int_le (last -ℤ first) most }
{
    is_at_most(last as i128 - first as i128, most)
}

fn is_met(times: &[i64], edge: &Edge) -> bool
    ensures { result ≡ is_met times.now edge.now }
{
    is_within(
        time_of(times, edge.from),
        time_of(times, edge.to),
        edge.most,
    )
}

fn are_met(edges: &[Edge], times: &[i64]) -> bool
    ensures { result ≡ list_all (is_met times.now) edges.now }
{
    edges.iter().all(|edge| is_met(times, edge))
}

/// Whether the times are a solution.
#[tactic(auto, using(crate::proofs::Ends::solution_from_tests))]
fn is_solution(net: &Net, times: &[i64]) -> bool
    ensures { IsTrue result → IsSolution net.now times.now }
{
    if times.len() != net.points as usize || time_of(times, 0) != 0 {
        return false;
    }
    are_met(net.edges.as_slice(), times)
}

fn times_or_solve(alloc: Global, net: &Net, times: Vec<i64>) -> Result<Verdict, AllocError>
    requires { IsWellFormed net.now }
    ensures solution { IfOk result (λ v. IfTimes v (IsSolution net.now)) }
    ensures cycle { IfOk result (λ v. IfCycle v (IsNegativeCycle net.now)) }
{
    if is_solution(net, times.as_slice()) {
        return Ok(Verdict::Times(Items::from_vec(times)));
    }
    solve(alloc, net)
}

fn cycle_or_solve(alloc: Global, net: &Net, numbers: Vec<u32>) -> Result<Verdict, AllocError>
    requires { IsWellFormed net.now }
    ensures solution { IfOk result (λ v. IfTimes v (IsSolution net.now)) }
    ensures cycle { IfOk result (λ v. IfCycle v (IsNegativeCycle net.now)) }
{
    if is_cycle(alloc, net, numbers.as_slice())? {
        return Ok(Verdict::Cycle(Items::from_vec(numbers)));
    }
    solve(alloc, net)
}

/// A solution, or a negative cycle. A quick look finds one of them in nearly all cases, and `solve` in all.
#[tactic(auto, using(crate::proofs::Ends::joined_from))]
fn solution_of(alloc: Global, net: &Net, guess: &[i64]) -> Result<Verdict, AllocError>
    requires { IsWellFormed net.now }
    ensures solution { IfOk result (λ v. IfTimes v (IsSolution net.now)) }
    ensures cycle { IfOk result (λ v. IfCycle v (IsNegativeCycle net.now)) }
{
    match look_quickly(alloc, net, guess)? {
        Found::Times(times) => times_or_solve(alloc, net, times),
        Found::Cycle(numbers) => cycle_or_solve(alloc, net, numbers),
        Found::Nothing => solve(alloc, net),
    }
}

/// A solution, the guess where it is one, or a negative cycle.
fn solution_near(alloc: Global, net: &Net, guess: &[i64]) -> Result<Verdict, AllocError>
    requires { IsWellFormed net.now }
    ensures solution { IfOk result (λ v. IfTimes v (IsSolution net.now)) }
    ensures cycle { IfOk result (λ v. IfCycle v (IsNegativeCycle net.now)) }
{
    if is_solution(net, guess) {
        let times = Vec::from_slice(alloc, guess)?;
        return Ok(Verdict::Times(Items::from_vec(times)));
    }
    solution_of(alloc, net, guess)
}

#[tactic(auto, using(pl_stn::proofs::Exclusion::cycle_excludes))]
fn cycle_of(alloc: Global, net: &Net, numbers: &[u32]) -> Result<Items<Edge>, AllocError>
    requires { IsNegativeCycle net.now numbers.now }
    ensures { IfOk result (HasCycle net.now) }
{
    let edges = edges_of(alloc, net, numbers)?;
    Ok(Items::from_vec(edges))
}

fn bounds_about(alloc: Global, net: &Net, known: &[i64], ceiling: i64) -> Result<Bounds, AllocError>
    requires net { IsWellFormed net.now }
    requires known { IsSolution net.now known.now }
    requires ceiling { IsSmall ceiling }
    requires above { IsAboveAll net.now ceiling }
    ensures { IfOk result (AreBounds net.now) }
{
    let early = earliest_times(alloc, net, known, -1)?;
    let late = latest_times(alloc, net, known, ceiling)?;
    Ok(Bounds::Between { early, late })
}

/// The earliest and the latest times of a net whose solutions all lie below a ceiling, or a negative cycle where it has no
/// solution. Where the guess is a solution this takes near linear time.
pub fn bounds_of(
    alloc: Global,
    net: &Net,
    guess: &[i64],
    ceiling: i64,
) -> Result<Bounds, AllocError>
    requires net { IsWellFormed net.now }
    requires ceiling { IsSmall ceiling }
    requires above { IsAboveAll net.now ceiling }
    ensures { IfOk result (AreBounds net.now) }
{
    match solution_near(alloc, net, guess)? {
        Verdict::Times(known) => bounds_about(alloc, net, known.as_slice(), ceiling),
        Verdict::Cycle(cycle) => Ok(Bounds::Cycle(cycle_of(alloc, net, cycle.as_slice())?)),
    }
}
