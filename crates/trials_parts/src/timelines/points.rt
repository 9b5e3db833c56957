//! Two points: 12 more at 10, 6 less at 15.
ghost use Rattle.std.specs.Prelude.{◌≡◌, [], ◌∷◌, pos, negsuc};

use crate::asserting::holds;
use crate::timelines::capacities::is_one;
use crate::timelines::counting::Counting;
use pl_lists::{Copied, Items};
use pl_points::{Change, Ledger, PlainPoints, Points, Quiet, Span, Steps};
use std::process::Abort;

/// Puts the two points where none is, the first in two parts.
pub(crate) fn fill<P: Points, L: Ledger>(rt: &impl Abort, points: &mut P, steps: &mut Steps<L>)
    requires { P.points points.old ≡ [] }
    ensures { P.points points.new ≡ (10, pos 12) ∷ (15, negsuc 5) ∷ [] }
{
    points.add(10, 6, steps).expect(rt, "memory");
    points.add(15, -6, steps).expect(rt, "memory");
    points.add(10, 6, steps).expect(rt, "memory");
}

/// Whether the two points are there, and no third.
pub(crate) fn has_both<P: Points, L: Ledger>(points: &P, steps: &mut Steps<L>) -> bool {
    points.first_from(0, steps) == Some((10, 12))
        && points.first_from(11, steps) == Some((15, -6))
        && points.first_from(16, steps) == None
}

/// Whether they add up.
pub(crate) fn adds_up<P: Points, L: Ledger>(points: &P, steps: &mut Steps<L>) -> bool {
    points.sum_to(9, steps) == 0 && points.sum_to(12, steps) == 12 && points.sum_to(15, steps) == 6
}

/// Whether it finds where the sum is outside 0 to 10, and that it is not behind the second point.
pub(crate) fn finds_outside<P: Points, L: Ledger>(points: &P, steps: &mut Steps<L>) -> bool
    requires { P.points points.now ≡ (10, pos 12) ∷ (15, negsuc 5) ∷ [] }
{
    points.first_outside(0, 0, 0, 10, steps) == Some((10, 12))
        && points.first_outside(11, 12, 0, 10, steps) == None
}

#[test]
fn points_merge(rt: HostRuntime) {
    let mut steps = Steps::new(Counting { ticks: 0 });
    let mut points = PlainPoints::new(rt.alloc());
    fill(&rt, &mut points, &mut steps);
    holds(&rt, "both", has_both(&points, &mut steps));
    holds(&rt, "their sums", adds_up(&points, &mut steps));
    // Nine calls, and one step more for each point that was added up.
    holds(&rt, "the steps", steps.ledger().ticks == 12);
    holds(&rt, "no third", points.len() == 2);
    holds(&rt, "what is outside", finds_outside(&points, &mut steps));
}

#[test]
fn points_cancel(rt: HostRuntime) {
    let mut steps = Steps::new(Quiet);
    let mut points = PlainPoints::new(rt.alloc());
    fill(&rt, &mut points, &mut steps);
    let again = points.copy(rt.alloc()).expect(&rt, "memory");
    points.add(15, 6, &mut steps).expect(&rt, "memory");
    holds(&rt, "one", points.len() == 1);
    holds(&rt, "both in the copy", again.len() == 2);
    holds(&rt, "the sum", points.sum_to(20, &mut steps) == 12);
}

#[test]
fn a_change_and_its_copy(rt: HostRuntime) {
    let mut went = Items::new(rt.alloc());
    went.push(Span { from: 3, to: 5 }).expect(&rt, "memory");
    let change = Change {
        went,
        came: Items::new(rt.alloc()),
    };
    let copy = change.copy(rt.alloc()).expect(&rt, "memory");
    holds(&rt, "what went", is_one(copy.went.as_slice(), 3, 5));
    holds(&rt, "nothing that came", copy.came.is_empty());
}
