ghost use Rattle.std.specs.Prelude.{◌≡◌, ◌<◌, ◌≤◌, ◌+◌, ◌-◌, pos, true, length, get_or, take};
ghost use Rattle.pl_points.specs.Points.{RiseFrom, AreNear};
ghost use Rattle.pl_blocks.specs.Blocks.{is_past, change_of, least_sum, greatest_sum, AreSums};

use pl_points::{Ledger, Steps};

// After a change the kept sums go on to so many points before it, since the next change often comes
// a little before this one.
const NEAR: usize = 2;

/// What searches ask of points: the last moment, their sum and the least and greatest sum of their fronts.
#[derive(Clone, Copy, Debug)]
pub(crate) struct Summary {
    pub(crate) last: u32,
    pub(crate) sum: i64,
    pub(crate) least: i64,
    pub(crate) greatest: i64,
}

/// Of the first points of a list: how many they are, their sum, and the least and greatest sum of
/// their fronts.
#[derive(Clone, Copy, Debug)]
pub(crate) struct Sums {
    pub(crate) count: usize,
    pub(crate) sum: i64,
    pub(crate) least: i64,
    pub(crate) greatest: i64,
}

/// The sums of the first point alone.
pub(crate) fn sums_of_first(points: &[(u32, i64)]) -> Sums
    requires { 0 < length points.now }
    ensures { AreSums points.now result.count result.sum result.least result.greatest }
{
    let delta = points[0].1;
    Sums {
        count: 1,
        sum: delta,
        least: delta,
        greatest: delta,
    }
}

// The sums of one point more.
fn sums_of_next(points: &[(u32, i64)], sums: Sums) -> Sums
    requires there { sums.count < length points.now }
    requires sums { AreSums points.now sums.count sums.sum sums.least sums.greatest }
    requires near { AreNear (pos 0) points.now }
    ensures count { result.count ≡ sums.count + 1 }
    ensures sums { AreSums points.now result.count result.sum result.least result.greatest }
{
    let sum = sums.sum + points[sums.count].1;
    Sums {
        count: sums.count + 1,
        sum,
        least: sums.least.min(sum),
        greatest: sums.greatest.max(sum),
    }
}

/// These sums, if they are still those of the first points, and else those of the first point alone.
pub(crate) fn kept_or_first(points: &[(u32, i64)], sums: Sums, keeps: bool) -> Sums
    requires some { 0 < length points.now }
    requires sums { keeps ≡ true → AreSums points.now sums.count sums.sum sums.least sums.greatest }
    ensures { AreSums points.now result.count result.sum result.least result.greatest }
{
    if keeps {
        return sums;
    }
    sums_of_first(points)
}

/// Whether the first `count` points all lie before the moment.
pub(crate) fn lie_before(points: &[(u32, i64)], count: usize, at: u32) -> bool
    requires some { 0 < count }
    requires bound { count ≤ length points.now }
    requires rising { RiseFrom 0 points.now }
    ensures { result ≡ is_past at (take count points.now) }
{
    points[count - 1].0 < at
}

/// The sums of these first points and of those behind them, up to a few before the moment: a step
/// for each point more.
pub(crate) fn sums_up_to<L: Ledger>(
    points: &[(u32, i64)],
    early: Sums,
    at: u32,
    steps: &mut Steps<L>,
) -> Sums
    requires early { AreSums points.now early.count early.sum early.least early.greatest }
    requires near { AreNear (pos 0) points.now }
    ensures sums { AreSums points.now result.count result.sum result.least result.greatest }
    ensures more { steps.old ≤ steps.new }
    ensures cost { steps.new + early.count ≤ steps.old + result.count }
{
    let mut sums = early;
    'further: while sums.count + NEAR < points.len() && points[sums.count + NEAR].0 < at {
        steps.tick();
        sums = sums_of_next(points, sums);
    }
    sums
}

/// The summary of all points, worked out from the sums of the first of them: a step for each point
/// behind these.
pub(crate) fn summary_of<L: Ledger>(
    points: &[(u32, i64)],
    early: Sums,
    steps: &mut Steps<L>,
) -> Summary
    requires early { AreSums points.now early.count early.sum early.least early.greatest }
    requires near { AreNear (pos 0) points.now }
    ensures ends { result.last ≡ (get_or points.now (length points.now - 1) (0, pos 0)).0 }
    ensures adds_up { result.sum ≡ change_of points.now }
    ensures lowest { result.least ≡ least_sum points.now }
    ensures highest { result.greatest ≡ greatest_sum points.now }
    ensures more { steps.old ≤ steps.new }
    ensures cost { steps.new + early.count ≤ steps.old + length points.now }
{
    let mut sums = early;
    'behind: while sums.count < points.len() {
        steps.tick();
        sums = sums_of_next(points, sums);
    }
    Summary {
        last: points[points.len() - 1].0,
        sum: sums.sum,
        least: sums.least,
        greatest: sums.greatest,
    }
}
