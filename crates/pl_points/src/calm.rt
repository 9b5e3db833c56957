//! Stretches in which the sum lies between two bounds.
ghost use Rattle.std.specs.Prelude.{◌≡◌, ◌<◌, ◌≤◌, ◌+◌, true, false, ℕ, Bool, length, if◌then◌else◌};
ghost use Rattle.pl_points.specs.Points.{sum_to, is_out, ArePoints};
ghost use Rattle.pl_points.specs.Limits.{is_outside};
ghost use Rattle.pl_points.specs.declared.limit.Limit.TheVariants.{Below, Above};
ghost use Rattle.pl_points.specs.Counting.{walk_steps, walk_until, goes_outside, points_after};
ghost use Rattle.pl_points.specs.Passing.{Passes, IsLook};

use crate::mark::Mark;
use crate::points::Points;
use crate::span::Span;
use crate::steps::{Ledger, Steps};

fn is_out(least: i64, most: i64, value: i64) -> bool
    ensures { result ≡ is_out least most value }
{
    value < least || most < value
}

// From between the bounds, goes to the next point after which the sum is out of them, or to the end.
// The sum there is told where it lies in the window.
pub(crate) fn next_crossing<P: Points, L: Ledger>(
    points: &P,
    least: i64,
    most: i64,
    at: u32,
    sum: i64,
    to: u32,
    steps: &mut Steps<L>,
) -> (u32, i64)
    requires some { at < to }
    requires sum { sum ≡ sum_to (P.points points.now) at }
    requires small { ArePoints (P.points points.now) }
    requires inside { is_out least most sum ≡ false }
    ensures passes { Passes (λ z. is_out least most z ≡ false) (P.points points.now) at to result.0 result.1 }
    ensures cost { IsLook (P.ahead points.now) P.search_steps (P.points points.now) at to result.0 steps.old steps.new }
    ensures leaves { result.0 < to → is_out least most (sum_to (P.points points.now) result.0) ≡ true }
{
    match points.first_outside(at + 1, sum, least, most, steps) {
        Some((moment, after)) => {
            if moment < to {
                (moment, after)
            } else {
                (to, 0)
            }
        }
        None => (to, 0),
    }
}

/// From the window's begin up to where the sum is below `least` or above `most`, or to its end.
pub fn calm_until<P: Points, L: Ledger>(
    points: &P,
    least: i64,
    most: i64,
    window: Span,
    steps: &mut Steps<L>,
) -> Mark
    requires some { window.from ≤ window.to }
    ensures low { window.from ≤ result.at }
    ensures bound { result.at ≤ window.to }
    ensures below { (t : ℕ) → window.from ≤ t → t < result.at → is_outside (Below least) (sum_to (P.points points.now) t) ≡ false }
    ensures above { (t : ℕ) → window.from ≤ t → t < result.at → is_outside (Above most) (sum_to (P.points points.now) t) ≡ false }
    ensures sum { result.at < window.to → result.sum ≡ sum_to (P.points points.now) result.at }
    ensures sound { ArePoints (P.points points.now) }
    ensures falls { (a b : ℕ) → a ≤ b → P.ahead points.now b ≤ P.ahead points.now a }
    ensures cost { steps.new + (walk_until (P.ahead points.now) P.look_steps P.search_steps (goes_outside (Below least) (P.points points.now)) (P.points points.now) result.at window.to + walk_until (P.ahead points.now) P.look_steps P.search_steps (goes_outside (Above most) (P.points points.now)) (P.points points.now) result.at window.to) ≤ steps.old + (walk_steps P.parts P.look_steps P.search_steps (length (P.points points.now)) (points_after (goes_outside (Below least) (P.points points.now)) window.from (P.points points.now)) + walk_steps P.parts P.look_steps P.search_steps (length (P.points points.now)) (points_after (goes_outside (Above most) (P.points points.now)) window.from (P.points points.now))) }
{
    let from = window.from;
    let sum = points.sum_to(from, steps);
    if from == window.to {
        return Mark { at: from, sum };
    }
    if is_out(least, most, sum) {
        return Mark { at: from, sum };
    }
    let (at, after) = next_crossing(points, least, most, from, sum, window.to, steps);
    Mark { at, sum: after }
}
