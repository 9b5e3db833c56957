ghost use Rattle.std.specs.Prelude.{◌≡◌, ◌<◌, ◌≤◌, ◌+◌, ◌-◌, pos, ◌+ℤ◌, true, false, is_some, length, get_or, take, drop, OnOk, OnErr, IfOk};
ghost use Rattle.pl_lists.specs.Lists.{front, back};
ghost use Rattle.pl_points.specs.Points.{is_before, sum_below, first_from, leaving, merged};
ghost use Rattle.pl_points.specs.Points.{RiseFrom, AreNear, IsNear, SmallFrom};
ghost use Rattle.pl_blocks.specs.Blocks.{is_past, change_of, least_sum, greatest_sum};

use crate::summary::{
    Summary, Sums, kept_or_first, lie_before, summary_of, sums_of_first, sums_up_to,
};
use pl_lists::Copied;
use pl_points::{Ledger, Steps, leaving, merge};
use std::alloc::{AllocError, Global};
use std::marker::Model;

/// From 1 to 64 points, with their summary, and with the sums of the first of them: after a change
/// behind these, the new summary is worked out from there on.
#[derive(Drop)]
pub(crate) struct Block {
    points: Vec<(u32, i64)>,
    summary: Summary,
    early: Sums,
}

impl Model for Block {
    ghost use Rattle.std.specs.Prelude.{ℕ, ℤ, List};
    ghost use Rattle.pl_blocks.specs.Blocks.{IsBlock};

    ghost Value = { List (ℕ × ℤ) };

    ghost view = { λ b. b.points.items };

    ghost invariant = { λ b. IsBlock b.points.items b.summary.last b.summary.sum b.summary.least b.summary.greatest b.early.count b.early.sum b.early.least b.early.greatest };
}

impl Block {
    pub(crate) fn new<L: Ledger>(points: Vec<(u32, i64)>, steps: &mut Steps<L>) -> Block
        requires some { 0 < length points.items }
        requires few { length points.items ≤ 64 }
        requires rising { RiseFrom 0 points.items }
        requires near { AreNear (pos 0) points.items }
        ensures points { result ≡ points.items }
        ensures more { steps.old ≤ steps.new }
        ensures cost { steps.new ≤ steps.old + length points.items }
    {
        let early = sums_of_first(&points);
        let summary = summary_of(&points, early, steps);
        Block {
            points,
            summary,
            early,
        }
    }

    pub(crate) fn points(&self) -> &[(u32, i64)]
        ensures points { result.now ≡ self.now }
        ensures some { 0 < length result.now }
        ensures few { length result.now ≤ 64 }
        ensures rising { RiseFrom 0 result.now }
        ensures near { AreNear (pos 0) result.now }
    {
        &self.points
    }

    pub(crate) fn sum(&self) -> i64
        ensures { result ≡ change_of self.now }
    {
        self.summary.sum
    }

    pub(crate) fn least(&self) -> i64
        ensures { result ≡ least_sum self.now }
    {
        self.summary.least
    }

    pub(crate) fn greatest(&self) -> i64
        ensures { result ≡ greatest_sum self.now }
    {
        self.summary.greatest
    }

    /// Whether all its points lie before the moment, which need not fit 32 bits.
    pub(crate) fn is_past(&self, at: u64) -> bool
        ensures { result ≡ is_past at self.now }
    {
        u64::from(self.summary.last) < at
    }

    /// How many of its points lie before the moment, and what they add up to: from the end that is
    /// nearer.
    pub(crate) fn passed<L: Ledger>(&self, at: u64, steps: &mut Steps<L>) -> (usize, i64)
        ensures bound { result.0 ≤ length self.now }
        ensures before { take result.0 self.now ≡ front (is_before at) self.now }
        ensures rest { drop result.0 self.now ≡ back (is_before at) self.now }
        ensures sum { result.1 ≡ sum_below self.now at }
        ensures more { steps.old ≤ steps.new }
        ensures few { steps.new ≤ steps.old + length self.now }
        ensures cost { steps.new ≤ steps.old + result.0 + 1 }
    {
        let points = self.points();
        let middle = points.len() / 2;
        if u64::from(points[middle].0) < at {
            passed_behind(points, middle, self.sum(), at, steps)
        } else {
            passed(points, at, steps)
        }
    }

    /// Whether its summary says that no sum along its points, which follow the sum `start`, is
    /// outside.
    pub(crate) fn is_calm(&self, start: i64, least: i64, most: i64) -> bool
        requires { SmallFrom start self.now }
        ensures { result ≡ true → is_some (leaving least most start self.now) ≡ false }
    {
        // There is at least one point.
        let _ = self.points();
        if start + self.least() < least || most < start + self.greatest() {
            return false;
        }
        true
    }

    /// Of its points from a place on, which follow the sum `before`, the first after which the sum
    /// is outside. `start` is the sum before all its points, from which its summary says whether
    /// any sum is outside: the points are read only then.
    pub(crate) fn leaving_from<L: Ledger>(
        &self,
        place: usize,
        start: i64,
        before: i64,
        least: i64,
        most: i64,
        steps: &mut Steps<L>,
    ) -> Option<(u32, i64)>
        requires bound { place ≤ length self.now }
        requires before { before ≡ start +ℤ change_of (take place self.now) }
        requires small { SmallFrom start self.now }
        ensures first { result ≡ leaving least most before (drop place self.now) }
        ensures more { steps.old ≤ steps.new }
        ensures few { steps.new + place ≤ steps.old + length self.now }
    {
        if !self.is_calm(start, least, most) {
            return leaving(&self.points()[place..], before, least, most, steps);
        }
        None
    }

    /// The points with the delta merged in.
    pub(crate) fn merged(
        &self,
        alloc: Global,
        at: u32,
        delta: i64,
    ) -> Result<Vec<(u32, i64)>, AllocError>
        requires { IsNear delta }
        ensures { IfOk result (λ v. v.items ≡ merged at delta self.now) }
    {
        let mut points = Vec::with_capacity(alloc, self.points().len() + 1)?;
        points.extend_from_slice(self.points())?;
        merge(&mut points, at, delta)?;
        Ok(points)
    }

    /// Merges the delta into its points, where these stay from 1 to 64.
    pub(crate) fn merge_in<L: Ledger>(
        &mut self,
        at: u32,
        delta: i64,
        steps: &mut Steps<L>,
    ) -> Result<(), AllocError>
        requires delta { IsNear delta }
        requires some { 0 < length (merged at delta self.old) }
        requires few { length (merged at delta self.old) ≤ 64 }
        requires rising { RiseFrom 0 (merged at delta self.old) }
        requires near { AreNear (pos 0) (merged at delta self.old) }
        ensures ok { OnOk result (self.new ≡ merged at delta self.old) }
        ensures err { OnErr result (self.new ≡ self.old) }
        ensures more { steps.old ≤ steps.new }
        ensures cost { steps.new ≤ steps.old + 64 }
    {
        let keeps = lie_before(&self.points, self.early.count, at);
        merge(&mut self.points, at, delta)?;
        let kept = kept_or_first(&self.points, self.early, keeps);
        let early = sums_up_to(&self.points, kept, at, steps);
        self.summary = summary_of(&self.points, early, steps);
        self.early = early;
        Ok(())
    }
}

impl Copied for Block {
    fn copy(&self, alloc: Global) -> Result<Block, AllocError> {
        Ok(Block {
            points: Vec::from_slice(alloc, self.points.as_slice())?,
            summary: self.summary,
            early: self.early,
        })
    }
}

// How many of the points lie before the moment, and what they add up to.
fn passed<L: Ledger>(points: &[(u32, i64)], at: u64, steps: &mut Steps<L>) -> (usize, i64)
    requires rising { RiseFrom 0 points.now }
    requires near { AreNear (pos 0) points.now }
    ensures bound { result.0 ≤ length points.now }
    ensures before { take result.0 points.now ≡ front (is_before at) points.now }
    ensures rest { drop result.0 points.now ≡ back (is_before at) points.now }
    ensures sum { result.1 ≡ sum_below points.now at }
    ensures more { steps.old ≤ steps.new }
    ensures few { steps.new ≤ steps.old + length points.now }
    ensures cost { steps.new ≤ steps.old + result.0 + 1 }
{
    let mut sum: i64 = 0;
    for (place, point) in points.iter().enumerate() {
        steps.tick();
        if u64::from(point.0) >= at {
            return (place, sum);
        }
        sum += point.1;
    }
    (points.len(), sum)
}

// The same of points that add up to `total`, from the last back to one behind the middle.
fn passed_behind<L: Ledger>(
    points: &[(u32, i64)],
    middle: usize,
    total: i64,
    at: u64,
    steps: &mut Steps<L>,
) -> (usize, i64)
    requires there { middle < length points.now }
    requires half { length points.now ≤ middle + middle + 1 }
    requires passes { (get_or points.now middle (0, pos 0)).0 < at }
    requires rising { RiseFrom 0 points.now }
    requires near { AreNear (pos 0) points.now }
    requires total { total ≡ change_of points.now }
    ensures bound { result.0 ≤ length points.now }
    ensures before { take result.0 points.now ≡ front (is_before at) points.now }
    ensures rest { drop result.0 points.now ≡ back (is_before at) points.now }
    ensures sum { result.1 ≡ sum_below points.now at }
    ensures more { steps.old ≤ steps.new }
    ensures few { steps.new ≤ steps.old + length points.now }
    ensures cost { steps.new ≤ steps.old + result.0 + 1 }
{
    let mut count = points.len();
    let mut sum = total;
    steps.tick();
    'behind: while u64::from(points[count - 1].0) >= at {
        steps.tick();
        sum -= points[count - 1].1;
        count -= 1;
    }
    (count, sum)
}
