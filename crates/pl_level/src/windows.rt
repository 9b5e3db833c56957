ghost use Rattle.std.specs.Prelude.{◌≡◌, ◌<◌, ◌≤◌, ◌+◌, length, ◌≤ℤ◌, ◌+ℤ◌, ◌-ℤ◌, ◌^◌, ℕ, ℤ, pos, neg_ℤ, nat_le, true, false, OnOk, IfOk, max, min, if◌then◌else◌};
ghost use Rattle.pl_points.specs.Sums.{IsSmall};
ghost use Rattle.pl_points.specs.Points.{sum_to, is_out};
ghost use Rattle.pl_points.specs.Limits.{is_outside};
ghost use Rattle.pl_points.specs.declared.limit.Limit.TheVariants.{Below, Above};
ghost use Rattle.pl_points.specs.Spans.{AreSpans, covers};
ghost use Rattle.pl_points.specs.Mending.{mended};
ghost use Rattle.pl_points.specs.Counting.{walk_steps, points_after, goes_outside};
ghost use Rattle.pl_level.specs.Soundness.{AreChanges};

use crate::kept::Kept;
use crate::reservation::LevelChange;
use pl_points::{Ledger, Limit, Points, Span, Steps, calm_until};
use std::alloc::AllocError;

// The moments at which an effect changes the level.
pub(crate) fn window_of(present: Span, base: u32, at: u32) -> Span
    requires { present.from ≤ present.to }
    ensures from { result.from ≡ (if nat_le at base then present.to else min (max at present.from) present.to) }
    ensures to { result.to ≡ present.to }
{
    if at <= base {
        Span {
            from: present.to,
            to: present.to,
        }
    } else {
        Span {
            from: at.max(present.from).min(present.to),
            to: present.to,
        }
    }
}

// The sum up to the base's moment after an effect.
pub(crate) fn sum_before(before: i64, base: u32, at: u32, delta: i64) -> i64
    requires before { IsSmall before }
    requires delta { IsSmall delta }
    ensures { result ≡ before +ℤ (if nat_le at base then delta else pos 0) }
{
    if at <= base { before + delta } else { before }
}

// Between which sums of the points the level is within its limits.
#[derive(Clone, Copy)]
pub(crate) struct Sums {
    pub(crate) least: i64,
    pub(crate) most: i64,
}

// The sums at which the level is its least and its most.
pub(crate) fn sums_for(least: i64, most: i64, value: i64, before: i64) -> Sums
    requires least { IsSmall least }
    requires most { IsSmall most }
    requires value { IsSmall value }
    requires before { IsSmall before }
    ensures least { result.least ≡ (least -ℤ value) +ℤ before }
    ensures most { result.most ≡ (most -ℤ value) +ℤ before }
{
    Sums {
        least: least - value + before,
        most: most - value + before,
    }
}

// Whether a sum lies below the least or above the most of these sums.
fn is_out(sums: Sums, sum: i64) -> bool
    ensures { result ≡ is_out sums.least sums.most sum }
{
    sum < sums.least || sums.most < sum
}

// The first moment of the window at which the points add up to less than the least sum or more than the most, or the window's end.
pub(crate) fn first_out<P: Points, L: Ledger>(
    points: &P,
    sums: Sums,
    window: Span,
    steps: &mut Steps<L>,
) -> u32
    requires { window.from ≤ window.to }
    ensures low { window.from ≤ result }
    ensures bound { result ≤ window.to }
    ensures within { (t : ℕ) → window.from ≤ t → t < result → is_out sums.least sums.most (sum_to (P.points points.now) t) ≡ false }
    ensures leaves { result < window.to → is_out sums.least sums.most (sum_to (P.points points.now) result) ≡ true }
{
    let from = window.from;
    let sum = points.sum_to(from, steps);
    if from == window.to {
        return from;
    }
    if is_out(sums, sum) {
        return from;
    }
    match points.first_outside(from + 1, sum, sums.least, sums.most, steps) {
        Some((moment, _)) => moment.min(window.to),
        None => window.to,
    }
}

// The value of the level where the points add up to the sum.
pub(crate) fn value_for(value: i64, sum: i64, before: i64) -> i64
    requires value { IsSmall value }
    requires sum { IsSmall sum }
    requires before { IsSmall before }
    ensures { result ≡ value +ℤ (sum -ℤ before) }
{
    value + (sum - before)
}

// Mends both lists in the window. One walk goes to where the level is first outside either limit.
pub(crate) fn mend_both<P: Points, L: Ledger>(
    points: &P,
    low: &mut Kept,
    high: &mut Kept,
    sums: Sums,
    window: Span,
    steps: &mut Steps<L>,
) -> Result<LevelChange, AllocError>
    requires window { window.from ≤ window.to }
    requires low { AreSpans low.old }
    requires high { AreSpans high.old }
    ensures low_apart { OnOk result (AreSpans low.new) }
    ensures high_apart { OnOk result (AreSpans high.new) }
    ensures low_covers { OnOk result ((t : ℕ) → covers low.new t ≡ mended window.from window.to (λ x. is_outside (Below sums.least) (sum_to (P.points points.now) x)) low.old t) }
    ensures high_covers { OnOk result ((t : ℕ) → covers high.new t ≡ mended window.from window.to (λ x. is_outside (Above sums.most) (sum_to (P.points points.now) x)) high.old t) }
    ensures changes { IfOk result (λ c. AreChanges low.old low.new high.old high.new c) }
    ensures cost { steps.new ≤ steps.old + (walk_steps P.parts P.look_steps P.search_steps (length (P.points points.now)) (points_after (goes_outside (Below sums.least) (P.points points.now)) window.from (P.points points.now)) + walk_steps P.parts P.look_steps P.search_steps (length (P.points points.now)) (points_after (goes_outside (Above sums.most) (P.points points.now)) window.from (P.points points.now))) }
{
    let mark = calm_until(points, sums.least, sums.most, window, steps);
    let below = low.mend(points, Limit::Below(sums.least), window, mark, steps)?;
    let above = high.mend(points, Limit::Above(sums.most), window, mark, steps)?;
    Ok(LevelChange {
        low: below,
        high: above,
    })
}

// Takes out of both lists what lies before the moment.
pub(crate) fn forget_both(
    low: &mut Kept,
    high: &mut Kept,
    at: u32,
) -> Result<LevelChange, AllocError>
    requires low { AreSpans low.old }
    requires high { AreSpans high.old }
    ensures low_apart { OnOk result (AreSpans low.new) }
    ensures high_apart { OnOk result (AreSpans high.new) }
    ensures low_covers { OnOk result ((t : ℕ) → covers low.new t ≡ mended 0 at (λ _. false) low.old t) }
    ensures high_covers { OnOk result ((t : ℕ) → covers high.new t ≡ mended 0 at (λ _. false) high.old t) }
    ensures changes { IfOk result (λ c. AreChanges low.old low.new high.old high.new c) }
{
    let below = low.forget(at)?;
    let above = high.forget(at)?;
    Ok(LevelChange {
        low: below,
        high: above,
    })
}
