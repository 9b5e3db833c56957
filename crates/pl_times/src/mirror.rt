ghost use Rattle.std.specs.Prelude.{◌≡◌, IfOk, map, neg_ℤ, All};
ghost use Rattle.pl_times.specs.Times.{IsSmall};
ghost use Rattle.pl_times.specs.Mirror.{IsKnownBelow, mirrored, negated, turn};
ghost use Rattle.pl_times.specs.Bounded.{IsLate};

use crate::settling::earliest_times;
use crate::timing::Timing;
use pl_lists::Items;
use pl_stn::{Edge, Net};
use std::alloc::{AllocError, Global};

fn turned(alloc: Global, edges: &[Edge]) -> Result<Vec<Edge>, AllocError>
    ensures { IfOk result (λ v. v.items ≡ map turn edges.now) }
{
    let mut all = Vec::new(alloc);
    for edge in edges {
        all.push(Edge {
            from: edge.to,
            to: edge.from,
            most: edge.most,
        })?;
    }
    Ok(all)
}

/// The net with its edges turned: its solutions are those of the net, negated.
fn mirror_of(alloc: Global, net: &Net) -> Result<Net, AllocError>
    ensures { IfOk result (λ m. m ≡ mirrored net.now) }
{
    let edges = turned(alloc, net.edges.as_slice())?;
    Ok(Net {
        points: net.points,
        edges: Items::from_vec(edges),
    })
}

fn negative(time: i64) -> i64
    requires { IsSmall time }
    ensures { result ≡ neg_ℤ time }
{
    -time
}

fn negatives(alloc: Global, times: &[i64]) -> Result<Vec<i64>, AllocError>
    requires { All IsSmall times.now }
    ensures { IfOk result (λ v. v.items ≡ negated times.now) }
{
    let mut all = Vec::new(alloc);
    for time in times {
        all.push(negative(*time))?;
    }
    Ok(all)
}

/// The latest times of a net of which a solution is known, and what holds each point there: the earliest times of its
/// mirror, negated.
pub fn latest_times(
    alloc: Global,
    net: &Net,
    known: &[i64],
    ceiling: i64,
) -> Result<Timing, AllocError>
    requires { IsKnownBelow net.now known.now ceiling }
    ensures { IfOk result (IsLate net.now) }
{
    let mirror = mirror_of(alloc, net)?;
    let known = negatives(alloc, known)?;
    let early = earliest_times(alloc, &mirror, known.as_slice(), negative(ceiling))?;
    Ok(Timing {
        times: Items::from_vec(negatives(alloc, early.times.as_slice())?),
        causes: early.causes,
    })
}
