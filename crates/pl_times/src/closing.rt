//! Whether edges close a negative cycle.
ghost use Rattle.std.specs.Prelude.{◌≡◌, ◌<◌, ◌<ℤ◌, pos, length, IsTrue, IfOk, IfSome, replicate, false};
ghost use Rattle.pl_stn.specs.Nets.{IsNegativeCycle};
ghost use Rattle.pl_times.specs.Walks.{IsWalk, Steps};

use crate::index::edge_at;
use pl_stn::Net;
use std::alloc::{AllocError, Global};

/// Where an edge leads from the end of a walk, and what the bounds along the walk then add up to, if the edge starts there and
/// no edge of the walk does.
fn step(net: &Net, marks: &mut [bool], at: u32, sum: i64, number: u32) -> Option<(u32, i64)>
    ensures { IfSome result (λ r. Steps net.now marks.old marks.new at sum number r.0 r.1) }
{
    if number as usize >= net.edges.len() || at as usize >= marks.len() {
        return None;
    }
    let edge = edge_at(net, number);
    if edge.from != at || marks[at as usize] {
        return None;
    }
    let more = sum.checked_add(edge.most)?;
    marks[at as usize] = true;
    Some((edge.to, more))
}

/// Where the edges of these numbers lead from a point and what their bounds add up to, if they are a walk of which no two start at
/// one point.
fn end_of_walk(net: &Net, marks: &mut [bool], start: u32, numbers: &[u32]) -> Option<(u32, i64)>
    requires { marks.old ≡ replicate net.now.points false }
    ensures { IfSome result (λ r. IsWalk net.now start numbers.now r.0 r.1) }
{
    let mut at = start;
    let mut sum: i64 = 0;
    for number in numbers {
        let (to, more) = step(net, marks, at, sum, *number)?;
        at = to;
        sum = more;
    }
    Some((at, sum))
}

fn comes_back(start: u32, end: u32, sum: i64) -> bool
    ensures { IsTrue result → (end ≡ start) × (sum <ℤ pos 0) }
{
    end == start && sum < 0
}

#[tactic(auto, using(crate::proofs::Walking::cycle_from))]
fn closes(net: &Net, marks: &mut [bool], start: u32, numbers: &[u32]) -> bool
    requires marks { marks.old ≡ replicate net.now.points false }
    requires some { 0 < length numbers.now }
    ensures { IsTrue result → IsNegativeCycle net.now numbers.now }
{
    match end_of_walk(net, marks, start, numbers) {
        Some((end, sum)) => comes_back(start, end, sum),
        None => false,
    }
}

/// Whether the edges of these numbers are found to be a negative cycle.
pub fn is_cycle(alloc: Global, net: &Net, numbers: &[u32]) -> Result<bool, AllocError>
    ensures { IfOk result (λ found. IsTrue found → IsNegativeCycle net.now numbers.now) }
{
    if numbers.is_empty() || numbers[0] as usize >= net.edges.len() {
        return Ok(false);
    }
    let start = edge_at(net, numbers[0]).from;
    let mut marks: Vec<bool> = vec![in alloc; false; net.points as usize]?;
    Ok(closes(net, marks.as_mut_slice(), start, numbers))
}
