ghost use Rattle.std.specs.Prelude.{◌≡◌, ◌<◌, length, IfOk, IfSome, IfNone, IsTrue, slice_index_or, drop, ◌≤◌, ◌≤ℤ◌, pos, negsuc};
ghost use Rattle.pl_stn.specs.Nets.{IsWellFormed, edge_of};
ghost use Rattle.pl_stn.specs.Causes.{AreCauses, IsLoop, EndsFrom, cause_of};

use crate::net::{Edge, Net};
use std::alloc::{AllocError, Global};

/// The edge of this number, from 0.
pub fn edge_at(net: &Net, number: u32) -> Edge
    requires net { IsWellFormed net.now }
    requires number { number < length net.now.edges }
    ensures edge { result ≡ edge_of net.now number }
    ensures joins { (result.from < net.now.points) × (result.to < net.now.points) }
    ensures small { (negsuc 99999999 ≤ℤ result.most) × (result.most ≤ℤ pos 100000000) }
{
    net.edges.as_slice()[number as usize]
}

/// The number of the edge for which the point was last raised, if it was.
pub fn cause_at(causes: &[Option<u32>], point: u32) -> Option<u32>
    requires { point < length causes.now }
    ensures { result ≡ cause_of causes.now point }
{
    causes[point as usize]
}

/// The numbers from a place on.
fn from_place(alloc: Global, numbers: &[u32], place: usize) -> Result<Vec<u32>, AllocError>
    requires { place ≤ length numbers.now }
    ensures { IfOk result (λ v. v.items ≡ drop place numbers.now) }
{
    Vec::from_slice(alloc, &numbers[place..])
}

/// Whether the causes lead from `start` to a point without a cause in as many steps as there are points; `false` is
/// no answer.
fn surely_ends(net: &Net, causes: &[Option<u32>], start: u32) -> bool
    requires net { IsWellFormed net.now }
    requires causes { AreCauses net.now causes.now }
    requires start { start < net.now.points }
    ensures { IsTrue result → EndsFrom net.now causes.now start }
{
    let mut point = start;
    for _step in 0..net.points {
        match cause_at(causes, point) {
            None => return true,
            Some(number) => point = edge_at(net, number).to,
        }
    }
    false
}

/// The closed walk along causes that the causes lead into from `start`, or `None` where they end.
pub fn closed_walk(
    alloc: Global,
    net: &Net,
    causes: &[Option<u32>],
    start: u32,
) -> Result<Option<Vec<u32>>, AllocError>
    requires net { IsWellFormed net.now }
    requires causes { AreCauses net.now causes.now }
    requires start { start < net.now.points }
    ensures closed { IfOk result (λ found. IfSome found (λ ks. IsLoop net.now causes.now ks.items)) }
    ensures ends { IfOk result (λ found. IfNone found (EndsFrom net.now causes.now start)) }
{
    if surely_ends(net, causes, start) {
        return Ok(None);
    }
    walk_to_repeat(alloc, net, causes, start)
}

/// The same, by giving each point its place on the walk.
fn walk_to_repeat(
    alloc: Global,
    net: &Net,
    causes: &[Option<u32>],
    start: u32,
) -> Result<Option<Vec<u32>>, AllocError>
    requires net { IsWellFormed net.now }
    requires causes { AreCauses net.now causes.now }
    requires start { start < net.now.points }
    ensures closed { IfOk result (λ found. IfSome found (λ ks. IsLoop net.now causes.now ks.items)) }
    ensures ends { IfOk result (λ found. IfNone found (EndsFrom net.now causes.now start)) }
{
    let mut places: Vec<Option<usize>> = vec![in alloc; None; causes.len()]?;
    let mut walk: Vec<u32> = Vec::new(alloc);
    let mut point = start;
    'steps: while let Some(number) = cause_at(causes, point) {
        if let Some(place) = places[point as usize] {
            return Ok(Some(from_place(alloc, walk.as_slice(), place)?));
        }
        places[point as usize] = Some(walk.len());
        walk.push(number)?;
        point = edge_at(net, number).to;
    }
    Ok(None)
}
