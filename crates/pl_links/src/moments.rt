//! When the points of an activity are, and how far two are apart.
ghost use Rattle.std.specs.Prelude.{◌≡◌};
ghost use Rattle.pl_links.specs.Broken.{moment_of, is_apart, are_apart, are_misplaced};

use crate::placed::Placed;
use pl_model::Point;

pub(crate) fn moment(point: Point, item: &Placed) -> Option<u32>
    ensures { result ≡ moment_of point item.now }
{
    let end = item.end?;
    match point {
        Point::Start => Some(item.start),
        Point::End => Some(end),
    }
}

fn is_apart(low: i64, high: i64, first: u32, second: u32) -> bool
    ensures { result ≡ is_apart low high first second }
{
    let distance = i64::from(second) - i64::from(first);
    low <= distance && distance <= high
}

pub(crate) fn are_apart(low: i64, high: i64, first: Option<u32>, second: Option<u32>) -> bool
    ensures { result ≡ are_apart low high first second }
{
    match (first, second) {
        (Some(first), Some(second)) => is_apart(low, high, first, second),
        _ => false,
    }
}

pub(crate) fn are_misplaced(low: i64, high: i64, first: Option<u32>, second: Option<u32>) -> bool
    ensures { result ≡ are_misplaced low high first second }
{
    match (first, second) {
        (Some(first), Some(second)) => !is_apart(low, high, first, second),
        _ => false,
    }
}
