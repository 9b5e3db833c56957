ghost use Rattle.std.specs.Prelude.{◌≡◌, ◌<◌, ◌≤◌, ◌+◌, ◌&&◌, ◌||◌, not, true, false, ℕ, ℤ, Bool, [], ◌∷◌, OnOk, if◌then◌else◌};
ghost use Rattle.pl_points.specs.Sums.{IsSmall};
ghost use Rattle.pl_points.specs.Points.{sum_to, is_out, ArePoints};
ghost use Rattle.pl_points.specs.Counting.{walk_until, goes_outside};
ghost use Rattle.pl_points.specs.Passing.{Passes, IsLook, IsPart};
ghost use Rattle.pl_points.specs.Spans.{AreApart, covers, joined, span, within};
ghost use Rattle.pl_points.specs.Limits.{is_outside};

use crate::calm::next_crossing;
use crate::limit::Limit;
use crate::mark::Mark;
use crate::points::Points;
use crate::span::Span;
use crate::steps::{Ledger, Steps};
use std::alloc::AllocError;

fn is_outside(limit: Limit, value: i64) -> bool
    ensures { result ≡ is_outside limit value }
{
    match limit {
        Limit::Below(least) => value < least,
        Limit::Above(most) => most < value,
    }
}

// Puts a span after the others, joined to the last where they touch.
pub(crate) fn extend(spans: &mut Vec<Span>, from: u32, to: u32) -> Result<(), AllocError>
    ensures { OnOk result (spans.new.items ≡ joined spans.old.items (span from to ∷ [])) }
{
    let count = spans.len();
    if count > 0 && spans[count - 1].to == from {
        let begun = spans[count - 1].from;
        spans[count - 1] = Span { from: begun, to };
        Ok(())
    } else {
        spans.push(Span { from, to })?;
        Ok(())
    }
}

// The least and the most for which what is outside is outside the limit.
fn bounds_of(limit: Limit) -> (i64, i64)
    ensures { (z : ℤ) → IsSmall z → is_out result.0 result.1 z ≡ is_outside limit z }
{
    match limit {
        Limit::Below(least) => (least, i64::MAX),
        Limit::Above(most) => (i64::MIN, most),
    }
}

// The least and the most for which what is outside is inside the limit.
fn bounds_beyond(limit: Limit) -> (i64, i64)
    ensures { (z : ℤ) → IsSmall z → is_out result.0 result.1 z ≡ not (is_outside limit z) }
{
    match limit {
        Limit::Below(least) => (i64::MIN, least.saturating_sub(1)),
        Limit::Above(most) => (most.saturating_add(1), i64::MAX),
    }
}

// Goes to the next point, or to the end. The sum there is told where it lies in the window.
fn next_point<P: Points, L: Ledger>(
    points: &P,
    at: u32,
    sum: i64,
    to: u32,
    steps: &mut Steps<L>,
) -> (u32, i64)
    requires some { at < to }
    requires sum { sum ≡ sum_to (P.points points.now) at }
    ensures passes { Passes (λ z. z ≡ sum_to (P.points points.now) at) (P.points points.now) at to result.0 result.1 }
    ensures cost { IsLook (P.ahead points.now) P.look_steps (P.points points.now) at to result.0 steps.old steps.new }
{
    match points.first_from(at + 1, steps) {
        Some((moment, delta)) => {
            if moment < to {
                (moment, sum + delta)
            } else {
                (to, 0)
            }
        }
        None => (to, 0),
    }
}

// From outside the limit, goes to the next point after which the sum is inside, or to the end.
fn next_return<P: Points, L: Ledger>(
    points: &P,
    limit: Limit,
    at: u32,
    sum: i64,
    to: u32,
    steps: &mut Steps<L>,
) -> (u32, i64)
    requires some { at < to }
    requires sum { sum ≡ sum_to (P.points points.now) at }
    requires small { ArePoints (P.points points.now) }
    requires outside { is_outside limit sum ≡ true }
    ensures passes { Passes (λ z. is_outside limit z ≡ true) (P.points points.now) at to result.0 result.1 }
    ensures cost { IsLook (P.ahead points.now) P.search_steps (P.points points.now) at to result.0 steps.old steps.new }
    ensures leaves { result.0 < to → is_outside limit (sum_to (P.points points.now) result.0) ≡ false }
{
    let (least, most) = bounds_beyond(limit);
    next_crossing(points, least, most, at, sum, to, steps)
}

// From outside the limit, goes to the next point. If the sum is outside there too, it goes on to the
// next point after which the sum is inside, by a search that passes over many points at once.
fn pass_outside<P: Points, L: Ledger>(
    points: &P,
    limit: Limit,
    at: u32,
    sum: i64,
    to: u32,
    steps: &mut Steps<L>,
) -> (u32, i64)
    requires some { at < to }
    requires sum { sum ≡ sum_to (P.points points.now) at }
    requires small { ArePoints (P.points points.now) }
    requires outside { is_outside limit sum ≡ true }
    requires falls { (a b : ℕ) → a ≤ b → P.ahead points.now b ≤ P.ahead points.now a }
    ensures passes { Passes (λ z. is_outside limit z ≡ true) (P.points points.now) at to result.0 result.1 }
    ensures cost { IsPart (P.ahead points.now) P.look_steps P.search_steps (goes_outside limit (P.points points.now)) (P.points points.now) at to result.0 steps.old steps.new }
{
    let (moment, after) = next_point(points, at, sum, to, steps);
    if moment == to {
        return (to, 0);
    }
    if !is_outside(limit, after) {
        return (moment, after);
    }
    next_return(points, limit, moment, after, to, steps)
}

// From inside the limit, goes to the next point after which the sum is outside, or to the end.
fn pass_inside<P: Points, L: Ledger>(
    points: &P,
    limit: Limit,
    at: u32,
    sum: i64,
    to: u32,
    steps: &mut Steps<L>,
) -> (u32, i64)
    requires some { at < to }
    requires sum { sum ≡ sum_to (P.points points.now) at }
    requires small { ArePoints (P.points points.now) }
    requires inside { is_outside limit sum ≡ false }
    requires falls { (a b : ℕ) → a ≤ b → P.ahead points.now b ≤ P.ahead points.now a }
    ensures passes { Passes (λ z. is_outside limit z ≡ false) (P.points points.now) at to result.0 result.1 }
    ensures cost { IsPart (P.ahead points.now) P.look_steps P.search_steps (goes_outside limit (P.points points.now)) (P.points points.now) at to result.0 steps.old steps.new }
{
    let (least, most) = bounds_of(limit);
    next_crossing(points, least, most, at, sum, to, steps)
}

// Goes on while the sum stays on its side of the limit.
fn pass_side<P: Points, L: Ledger>(
    points: &P,
    limit: Limit,
    at: u32,
    sum: i64,
    to: u32,
    steps: &mut Steps<L>,
) -> (u32, i64)
    requires some { at < to }
    requires sum { sum ≡ sum_to (P.points points.now) at }
    requires small { ArePoints (P.points points.now) }
    requires falls { (a b : ℕ) → a ≤ b → P.ahead points.now b ≤ P.ahead points.now a }
    ensures passes { Passes (λ z. is_outside limit z ≡ is_outside limit (sum_to (P.points points.now) at)) (P.points points.now) at to result.0 result.1 }
    ensures cost { IsPart (P.ahead points.now) P.look_steps P.search_steps (goes_outside limit (P.points points.now)) (P.points points.now) at to result.0 steps.old steps.new }
{
    if is_outside(limit, sum) {
        pass_outside(points, limit, at, sum, to, steps)
    } else {
        pass_inside(points, limit, at, sum, to, steps)
    }
}

// Puts a span after the others if the sum is outside the limit in it.
fn push_if_outside(
    spans: &mut Vec<Span>,
    limit: Limit,
    value: i64,
    from: u32,
    to: u32,
) -> Result<(), AllocError>
    requires some { from < to }
    requires apart { AreApart 0 from spans.old.items }
    ensures apart { OnOk result (AreApart 0 to spans.new.items) }
    ensures covers { OnOk result ((t : ℕ) → covers spans.new.items t ≡ (covers spans.old.items t || (within from to t && is_outside limit value))) }
{
    if is_outside(limit, value) {
        extend(spans, from, to)
    } else {
        Ok(())
    }
}

// Puts the spans from the mark up to a moment after the others.
pub(crate) fn push_outside<P: Points, L: Ledger>(
    spans: &mut Vec<Span>,
    points: &P,
    limit: Limit,
    mark: Mark,
    to: u32,
    steps: &mut Steps<L>,
) -> Result<(), AllocError>
    requires some { mark.at ≤ to }
    requires apart { AreApart 0 mark.at spans.old.items }
    requires sum { mark.at < to → mark.sum ≡ sum_to (P.points points.now) mark.at }
    requires sound { ArePoints (P.points points.now) }
    requires falls { (a b : ℕ) → a ≤ b → P.ahead points.now b ≤ P.ahead points.now a }
    ensures apart { OnOk result (AreApart 0 to spans.new.items) }
    ensures covers { OnOk result ((t : ℕ) → covers spans.new.items t ≡ (covers spans.old.items t || (within mark.at to t && is_outside limit (sum_to (P.points points.now) t)))) }
    ensures cost { steps.new ≤ steps.old + walk_until (P.ahead points.now) P.look_steps P.search_steps (goes_outside limit (P.points points.now)) (P.points points.now) mark.at to }
{
    let mut at = mark.at;
    let mut sum = mark.sum;
    'pieces: while at < to {
        let (end, after) = pass_side(points, limit, at, sum, to, steps);
        push_if_outside(spans, limit, sum, at, end)?;
        at = end;
        sum = after;
    }
    Ok(())
}

/// Takes the mark on to where the sum is outside, or to a moment.
pub(crate) fn calm_mark<P: Points, L: Ledger>(
    points: &P,
    limit: Limit,
    mark: Mark,
    to: u32,
    steps: &mut Steps<L>,
) -> Mark
    requires some { mark.at ≤ to }
    requires sum { mark.at < to → mark.sum ≡ sum_to (P.points points.now) mark.at }
    requires sound { ArePoints (P.points points.now) }
    requires falls { (a b : ℕ) → a ≤ b → P.ahead points.now b ≤ P.ahead points.now a }
    ensures low { mark.at ≤ result.at }
    ensures bound { result.at ≤ to }
    ensures inside { (t : ℕ) → mark.at ≤ t → t < result.at → is_outside limit (sum_to (P.points points.now) t) ≡ false }
    ensures sum { result.at < to → result.sum ≡ sum_to (P.points points.now) result.at }
    ensures cost { steps.new + walk_until (P.ahead points.now) P.look_steps P.search_steps (goes_outside limit (P.points points.now)) (P.points points.now) result.at to ≤ steps.old + walk_until (P.ahead points.now) P.look_steps P.search_steps (goes_outside limit (P.points points.now)) (P.points points.now) mark.at to }
{
    if mark.at == to {
        return mark;
    }
    if is_outside(limit, mark.sum) {
        return mark;
    }
    let (at, sum) = pass_inside(points, limit, mark.at, mark.sum, to, steps);
    Mark { at, sum }
}
