ghost use Rattle.std.specs.Prelude.{◌≡◌, ◌<◌, ◌≤◌, ◌+◌, ℕ, ℤ, List, length, OnOk, OnErr};
ghost use Rattle.pl_points.specs.Points.{sum_to, sum_below, first_from, first_outside, ahead_of};
ghost use Rattle.pl_points.specs.Points.{merged, AreSmall, ArePoints};

use crate::steps::{Ledger, Steps};
use std::alloc::AllocError;

/// Change points: pairs of a moment and a delta, by rising moments, no delta 0. How they are kept
/// is the type's own. A walk from moment to moment takes a step for each part that it passes, and a
/// few for each call.
pub trait Points: Drop {
    ghost points: { Self → List (ℕ × ℤ) };

    // How many parts, points or blocks of points, reach to the moment or behind it.
    ghost ahead: { Self → ℕ → ℕ };

    // So many parts at most has a number of points.
    ghost parts: { ℕ → ℕ };

    // What a call takes beside the parts that it passes: a change, a look for a point, and a search.
    ghost change_steps: { ℕ };

    ghost look_steps: { ℕ };

    ghost search_steps: { ℕ };

    /// Merges the delta into the point at its moment, which goes where its delta becomes 0.
    fn add<L: Ledger>(
        &mut self,
        at: u32,
        delta: i64,
        steps: &mut Steps<L>,
    ) -> Result<(), AllocError>
        requires { AreSmall (merged at delta (points self.old)) }
        ensures ok { OnOk result (points self.new ≡ merged at delta (points self.old)) }
        ensures err { OnErr result (points self.new ≡ points self.old) }
        ensures ticks { steps.old < steps.new }
        ensures cost { steps.new ≤ steps.old + parts (length (points self.old)) + change_steps };

    /// The first point at or after the moment.
    fn first_from<L: Ledger>(&self, at: u32, steps: &mut Steps<L>) -> Option<(u32, i64)>
        ensures first { result ≡ first_from (points self.now) at }
        ensures sound { ArePoints (points self.now) }
        ensures ticks { steps.old < steps.new }
        ensures cost { steps.new + ahead_of (ahead self.now) result ≤ steps.old + ahead self.now at + look_steps };

    /// The first moment at or after `from` that has a point after which the sum is below `least` or
    /// above `most`, and that sum. `before` is the sum of all deltas before `from`.
    fn first_outside<L: Ledger>(
        &self,
        from: u32,
        before: i64,
        least: i64,
        most: i64,
        steps: &mut Steps<L>,
    ) -> Option<(u32, i64)>
        requires { before ≡ sum_below (points self.now) from }
        ensures first { result ≡ first_outside (points self.now) from least most }
        ensures sound { ArePoints (points self.now) }
        ensures ticks { steps.old < steps.new }
        ensures cost { steps.new + ahead_of (ahead self.now) result ≤ steps.old + ahead self.now from + search_steps };

    /// The sum of all deltas at or before the moment.
    fn sum_to<L: Ledger>(&self, at: u32, steps: &mut Steps<L>) -> i64
        ensures sum { result ≡ sum_to (points self.now) at }
        ensures sound { ArePoints (points self.now) }
        ensures ticks { steps.old < steps.new }
        ensures cost { steps.new + ahead self.now at ≤ steps.old + parts (length (points self.now)) + search_steps }
        ensures falls { (a b : ℕ) → a ≤ b → ahead self.now b ≤ ahead self.now a };

    /// How many points there are.
    fn len(&self) -> u32
        ensures { result ≡ length (points self.now) };
}
