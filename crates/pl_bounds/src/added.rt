//! What a move adds to a timeline, and up to when.
ghost use Rattle.std.specs.Prelude.{◌≡◌, ◌≤◌, ◌<◌, ◌+ℤ◌, ℕ, IfSome, IsTrue, List};
ghost use Rattle.pl_bounds.specs.declared.outside.Outside as looked;
ghost use Rattle.pl_bounds.specs.declared.stepwise.Step as taken;
ghost use Rattle.pl_bounds.specs.declared.stepwise.Way as ways;
ghost use Rattle.pl_bounds.specs.Changed.{IsAddedBy};
ghost use Rattle.pl_bounds.specs.Steps.{step_on, steps_on};

use crate::outside::{Look, Outside};
use crate::stepwise::{Step, Way};

// After every moment.
const EVER: u64 = u64::MAX;

/// The steps by which a move changes a timeline. Those of what comes are moved along.
#[derive(Clone, Copy)]
pub(crate) struct Change<'c> {
    pub(crate) steps: &'c [Step],
    pub(crate) way: Way,
}

/// How much is added at each moment from one on and before another.
#[derive(Clone, Copy)]
pub(crate) struct Added {
    pub(crate) by: i64,
    pub(crate) from: u32,
    pub(crate) until: u64,
}

impl Added {
    /// It is known of no moment how much is added.
    pub(crate) fn unknown() -> Added
        ensures { (o : looked.Outside) (w : ways.Way) (steps : List taken.Step) → IsAddedBy o w steps result }
    {
        Added {
            by: 0,
            from: 0,
            until: 0,
        }
    }

    // With one step more, if the sum fits.
    fn with(self, outside: &Outside, step: Step, way: Way) -> Option<Added>
        ensures from { IfSome result (λ a. a.from ≡ self.from) }
        ensures until { IfSome result (λ a. a.until ≤ self.until) }
        ensures by { IfSome result (λ a. (u : ℕ) → self.from ≤ u → u < a.until → a.by ≡ self.by +ℤ step_on outside.now way u step) }
    {
        let at = step.moment(way);
        if u64::from(self.from) < at {
            return Some(Added {
                by: self.by,
                from: self.from,
                until: self.until.min(at),
            });
        }
        let more = step.by(outside, at)?;
        let by = self.by.checked_add(more)?;
        Some(Added {
            by,
            from: self.from,
            until: self.until,
        })
    }

    /// Whether it is known how much is added at a moment.
    pub(crate) fn is_known_at(self, at: u32) -> bool
        ensures from { IsTrue result → self.from ≤ at }
        ensures until { IsTrue result → at < self.until }
    {
        self.from <= at && u64::from(at) < self.until
    }

    /// What the timeline comes to at a look, if that is known and fits.
    pub(crate) fn value_with(self, look: Look) -> Option<i64>
        ensures { (o : looked.Outside) (w : ways.Way) (steps : List taken.Step) → IsAddedBy o w steps self → IfSome result (λ v. v ≡ look.value +ℤ steps_on o w look.at steps) }
    {
        if self.is_known_at(look.at) {
            look.value.checked_add(self.by)
        } else {
            None
        }
    }
}

// How much is added from a moment on, and up to when, where the sums fit.
fn sum_at(outside: &Outside, change: &Change<'_>, t: u32) -> Option<Added>
    ensures { IfSome result (λ a. IsAddedBy outside.now change.now.way change.now.steps.now a) }
{
    let mut added = Added {
        by: 0,
        from: t,
        until: EVER,
    };
    let steps = change.steps;
    for step in steps {
        added = added.with(outside, *step, change.way)?;
    }
    Some(added)
}

/// The same. If the sums do not fit, it is known of no moment how much is added.
pub(crate) fn added_at(outside: &Outside, change: &Change<'_>, t: u32) -> Added
    ensures { IsAddedBy outside.now change.now.way change.now.steps.now result }
{
    match sum_at(outside, change, t) {
        Some(added) => added,
        None => Added::unknown(),
    }
}
