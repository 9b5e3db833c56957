//! The steps by which a move changes what a timeline comes to.
ghost use Rattle.std.specs.Prelude.{◌≡◌, ◌≤◌, ℕ, IfSome};
ghost use Rattle.pl_bounds.specs.declared.stepwise.Way as ways;
ghost use Rattle.pl_bounds.specs.Moved.{moved_to};
ghost use Rattle.pl_bounds.specs.Steps.{moment_along, is_counted, step_by, step_on};

use crate::outside::{Outside, Side};

/// A move in time: what stood at `from` then stands at `to`.
#[derive(Clone, Copy)]
pub(crate) struct Way {
    pub(crate) from: u32,
    pub(crate) to: u32,
}

impl Way {
    /// A moment so much later or earlier.
    pub(crate) fn moved(self, t: u32) -> u64
        ensures { result ≡ moved_to self.from self.to t }
    {
        (u64::from(t) + u64::from(self.to)).saturating_sub(u64::from(self.from))
    }
}

/// From a moment on a timeline comes to `gain` more and to `loss` less. A step of what comes is moved along with the move's start.
#[derive(Clone, Copy)]
pub(crate) struct Step {
    pub(crate) at: u32,
    pub(crate) gain: i64,
    pub(crate) loss: i64,
    pub(crate) comes: bool,
}

// Whether a step counts: of a level only after the moment at which its value was told.
fn is_counted(outside: &Outside, at: u64) -> bool
    ensures { result ≡ is_counted outside.now.side outside.now.since at }
{
    match outside.side {
        Side::Over => true,
        Side::Low => u64::from(outside.since) < at,
        Side::High => u64::from(outside.since) < at,
    }
}

impl Step {
    /// The step by this amount, or back by it.
    pub(crate) fn new(at: u32, amount: i64, is_up: bool, comes: bool) -> Step
        ensures { result ≡ step_by at amount is_up comes }
    {
        if is_up {
            Step {
                at,
                gain: amount,
                loss: 0,
                comes,
            }
        } else {
            Step {
                at,
                gain: 0,
                loss: amount,
                comes,
            }
        }
    }

    /// When it is taken.
    pub(crate) fn moment(self, way: Way) -> u64
        ensures { result ≡ moment_along way self }
    {
        if self.comes {
            way.moved(self.at)
        } else {
            u64::from(self.at)
        }
    }

    /// What it adds to a timeline from its moment on, if that fits.
    pub(crate) fn by(self, outside: &Outside, at: u64) -> Option<i64>
        ensures { (w : ways.Way) (t : ℕ) → at ≡ moment_along w self → at ≤ t → IfSome result (λ z. z ≡ step_on outside.now w t self) }
    {
        if is_counted(outside, at) {
            self.gain.checked_sub(self.loss)
        } else {
            Some(0)
        }
    }

    /// Whether it makes this side of its timeline worse, and comes.
    pub(crate) fn worsens(self, side: Side) -> bool {
        match side {
            Side::Over => self.comes && 0 < self.gain,
            Side::Low => self.comes && self.gain < 0,
            Side::High => self.comes && 0 < self.gain,
        }
    }
}
