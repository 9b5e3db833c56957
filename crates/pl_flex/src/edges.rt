ghost use Rattle.std.specs.Prelude.{◌≡◌, ◌<◌, ◌++◌, ◌∷◌, [], OnOk, ◌≤ℤ◌, negsuc, IfSome};
ghost use Rattle.pl_flex.specs.FlexNets.{point_at, edge, between, between_places};

use pl_model::Point;
use pl_stn::Edge;
use std::alloc::AllocError;

/// The point of an activity in the network, by its place among the firm ones.
pub fn point_at(place: usize, point: Point) -> u32
    requires { place < 10000 }
    ensures { result ≡ point_at place point }
{
    match point {
        Point::Start => 2 * place as u32 + 1,
        Point::End => 2 * place as u32 + 2,
    }
}

pub fn push_edge(edges: &mut Vec<Edge>, from: u32, to: u32, most: i64) -> Result<(), AllocError>
    ensures { OnOk result (edges.new.items ≡ edges.old.items ++ edge from to most ∷ []) }
{
    edges.push(Edge { from, to, most })?;
    Ok(())
}

pub fn push_between(
    edges: &mut Vec<Edge>,
    first: u32,
    second: u32,
    low: i64,
    high: i64,
) -> Result<(), AllocError>
    requires { negsuc 4999999999 ≤ℤ low }
    ensures { OnOk result (edges.new.items ≡ edges.old.items ++ between first second low high) }
{
    push_edge(edges, first, second, high)?;
    push_edge(edges, second, first, -low)?;
    Ok(())
}

/// The same of points of the activities at two places, where both have one.
pub fn push_between_places(
    edges: &mut Vec<Edge>,
    place: Option<usize>,
    point: Point,
    theirs: Option<usize>,
    other: Point,
    low: i64,
    high: i64,
) -> Result<(), AllocError>
    requires low { negsuc 4999999999 ≤ℤ low }
    requires place { IfSome place (λ k. k < 10000) }
    requires theirs { IfSome theirs (λ k. k < 10000) }
    ensures { OnOk result (edges.new.items ≡ edges.old.items ++ between_places place point theirs other low high) }
{
    match (place, theirs) {
        (Some(place), Some(theirs)) => push_between(
            edges,
            point_at(place, point),
            point_at(theirs, other),
            low,
            high,
        ),
        _ => Ok(()),
    }
}
