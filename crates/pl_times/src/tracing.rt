ghost use Rattle.std.specs.Prelude.{◌≡◌, ◌<◌, length, IfOk, All, neg_ℤ};
ghost use Rattle.pl_stn.specs.Nets.{time_of};
ghost use Rattle.pl_times.specs.Times.{IsJoined, IsPath, ArePath, edges_of};
ghost use Rattle.pl_times.specs.Mirror.{mirrored};
ghost use Rattle.pl_times.specs.Bounded.{IsEarly, IsLate};

use crate::index::{edge_at, slot_at};
use crate::timing::Timing;
use pl_stn::{Edge, Net};
use std::alloc::{AllocError, Global};

/// The numbers of the edges that hold a point at its earliest time, from the point to the origin.
fn walk_to_origin(
    alloc: Global,
    net: &Net,
    early: &Timing,
    point: u32,
) -> Result<Vec<u32>, AllocError>
    requires joined { IsJoined net.now }
    requires early { IsEarly net.now early.now }
    requires point { point < net.now.points }
    ensures { IfOk result (λ ks. IsPath net.now point 0 (neg_ℤ (time_of early.now.times point)) ks.items) }
{
    let causes = early.causes.as_slice();
    let mut walk: Vec<u32> = Vec::new(alloc);
    let mut at = point;
    'steps: while let Some(number) = slot_at(causes, at) {
        walk.push(number)?;
        at = edge_at(net, number).to;
    }
    Ok(walk)
}

/// The numbers of the edges that hold a point at its latest time, from the point to the origin against the edges.
fn walk_back(alloc: Global, net: &Net, late: &Timing, point: u32) -> Result<Vec<u32>, AllocError>
    requires joined { IsJoined net.now }
    requires late { IsLate net.now late.now }
    requires point { point < net.now.points }
    ensures { IfOk result (λ ks. IsPath (mirrored net.now) point 0 (time_of late.now.times point) ks.items) }
{
    let causes = late.causes.as_slice();
    let mut walk: Vec<u32> = Vec::new(alloc);
    let mut at = point;
    'steps: while let Some(number) = slot_at(causes, at) {
        walk.push(number)?;
        at = edge_at(net, number).from;
    }
    Ok(walk)
}

/// The edges of these numbers.
pub fn edges_of(alloc: Global, net: &Net, numbers: &[u32]) -> Result<Vec<Edge>, AllocError>
    requires { All (λ k. k < length net.now.edges) numbers.now }
    ensures { IfOk result (λ es. es.items ≡ edges_of net.now numbers.now) }
{
    let mut all = Vec::new(alloc);
    for number in numbers {
        all.push(edge_at(net, *number))?;
    }
    Ok(all)
}

/// The edges that hold a point at its earliest time, from the point to the origin.
pub fn path_to_origin(
    alloc: Global,
    net: &Net,
    early: &Timing,
    point: u32,
) -> Result<Vec<Edge>, AllocError>
    requires joined { IsJoined net.now }
    requires early { IsEarly net.now early.now }
    requires point { point < net.now.points }
    ensures { IfOk result (λ es. ArePath net.now point 0 (neg_ℤ (time_of early.now.times point)) es.items) }
{
    let walk = walk_to_origin(alloc, net, early, point)?;
    let path = edges_of(alloc, net, walk.as_slice())?;
    Ok(path)
}

/// The edges that hold a point at its latest time, from the origin to the point.
pub fn path_from_origin(
    alloc: Global,
    net: &Net,
    late: &Timing,
    point: u32,
) -> Result<Vec<Edge>, AllocError>
    requires joined { IsJoined net.now }
    requires late { IsLate net.now late.now }
    requires point { point < net.now.points }
    ensures { IfOk result (λ es. ArePath net.now 0 point (time_of late.now.times point) es.items) }
{
    let mut walk = walk_back(alloc, net, late, point)?;
    walk.reverse();
    let path = edges_of(alloc, net, walk.as_slice())?;
    Ok(path)
}
