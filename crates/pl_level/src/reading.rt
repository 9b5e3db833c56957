//! What a level comes to at a moment, and how long it stays between two bounds.
ghost use Rattle.std.specs.Prelude.{◌≡◌, ◌<◌, ◌≤◌, ℕ, true, false};
ghost use Rattle.pl_points.specs.Sums.{IsSmall};
ghost use Rattle.pl_points.specs.Points.{is_out};
ghost use Rattle.pl_level.specs.Effects.{level};

use crate::level::Level;
use crate::windows::{first_out, sums_for, value_for};
use pl_points::{Ledger, Points, Span, Steps};

impl<P: Points> Level<P> {
    /// The level at a moment.
    pub fn at<L: Ledger>(&self, t: u32, steps: &mut Steps<L>) -> i64
        requires now { self.now.spoiled ≡ false → self.now.moment ≤ t }
        requires before_horizon { self.now.spoiled ≡ false → t < self.now.horizon }
        ensures { self.now.spoiled ≡ false → result ≡ level self.now t }
    {
        if self.spoiled {
            return 0;
        }
        let sum = self.points.sum_to(t, steps);
        value_for(self.value, sum, self.before)
    }

    /// The first moment of a window at which the level is below `least` or above `most`, or the window's end.
    pub fn within_until<L: Ledger>(
        &self,
        least: i64,
        most: i64,
        window: Span,
        steps: &mut Steps<L>,
    ) -> u32
        requires least { IsSmall least }
        requires most { IsSmall most }
        requires now { self.now.spoiled ≡ false → self.now.moment ≤ window.from }
        requires order { self.now.spoiled ≡ false → window.from ≤ window.to }
        requires horizon { self.now.spoiled ≡ false → window.to ≤ self.now.horizon }
        ensures low { window.from ≤ result }
        ensures bound { window.from ≤ window.to → result ≤ window.to }
        ensures within { self.now.spoiled ≡ false → (t : ℕ) → window.from ≤ t → t < result → is_out least most (level self.now t) ≡ false }
        ensures leaves { self.now.spoiled ≡ false → result < window.to → is_out least most (level self.now result) ≡ true }
    {
        if self.spoiled {
            return window.from;
        }
        let sums = sums_for(least, most, self.value, self.before);
        first_out(&self.points, sums, window, steps)
    }
}
