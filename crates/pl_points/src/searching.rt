ghost use Rattle.std.specs.Prelude.{◌≡◌, ◌≤◌, ◌+◌, length};
ghost use Rattle.pl_points.specs.Points.{RiseFrom, SmallFrom, leaving, points_from, ahead_of};

use crate::steps::{Ledger, Steps};

/// Of points that follow the sum, the first after which the sum is below `least` or above `most`,
/// and that sum. A step for each point that it goes over; then the walk stands at the one found.
pub fn leaving<L: Ledger>(
    points: &[(u32, i64)],
    before: i64,
    least: i64,
    most: i64,
    steps: &mut Steps<L>,
) -> Option<(u32, i64)>
    requires rising { RiseFrom 0 points.now }
    requires small { SmallFrom before points.now }
    ensures first { result ≡ leaving least most before points.now }
    ensures more { steps.old ≤ steps.new }
    ensures few { steps.new ≤ steps.old + length points.now }
    ensures cost { steps.new + ahead_of (points_from points.now) result ≤ steps.old + length points.now + 1 }
{
    let mut sum = before;
    for (place, point) in points.iter().enumerate() {
        steps.tick();
        sum += point.1;
        if sum < least || most < sum {
            steps.go_on(place + 1);
            return Some((point.0, sum));
        }
    }
    None
}
