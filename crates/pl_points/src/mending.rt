//! Maximal spans that are kept by mending them near a change.
ghost use Rattle.std.specs.Prelude.{◌≡◌, ◌<◌, ◌≤◌, ◌+◌, ◌++◌, ℕ, false, List, length, take, drop, OnOk, IfOk};
ghost use Rattle.pl_points.specs.Points.{sum_to, ArePoints};
ghost use Rattle.pl_points.specs.Spans.{AreSpans, covers};
ghost use Rattle.pl_points.specs.Limits.{is_outside};
ghost use Rattle.pl_points.specs.Mending.{mended};
ghost use Rattle.pl_points.specs.Counting.{walk_steps, walk_until, goes_outside, points_after};
ghost use Rattle.pl_points.specs.Changes.{IsChange};
ghost use Rattle.pl_points.specs.declared.span.Span.{Span};

use crate::comparing::compare;
use crate::cutting::{Touched, are_clear, keep_before, push_behind, touched_by};
use crate::limit::Limit;
use crate::mark::Mark;
use crate::pieces::{calm_mark, push_outside};
use crate::points::Points;
use crate::span::{Change, Span};
use crate::steps::{Ledger, Steps};
use pl_lists::Items;
use std::alloc::{AllocError, Global};

// The spans with the window as the points say it, where none lies before the mark.
fn renewed<P: Points, L: Ledger>(
    alloc: Global,
    old: &[Span],
    points: &P,
    limit: Limit,
    window: Span,
    mark: Mark,
    steps: &mut Steps<L>,
) -> Result<Vec<Span>, AllocError>
    requires low { window.from ≤ mark.at }
    requires bound { mark.at ≤ window.to }
    requires inside { (t : ℕ) → window.from ≤ t → t < mark.at → is_outside limit (sum_to (P.points points.now) t) ≡ false }
    requires sum { mark.at < window.to → mark.sum ≡ sum_to (P.points points.now) mark.at }
    requires sound { ArePoints (P.points points.now) }
    requires falls { (a b : ℕ) → a ≤ b → P.ahead points.now b ≤ P.ahead points.now a }
    requires apart { AreSpans old.now }
    ensures apart { IfOk result (λ v. AreSpans v.items) }
    ensures covers { IfOk result (λ v. (t : ℕ) → covers v.items t ≡ mended window.from window.to (λ x. is_outside limit (sum_to (P.points points.now) x)) old.now t) }
    ensures cost { steps.new ≤ steps.old + walk_until (P.ahead points.now) P.look_steps P.search_steps (goes_outside limit (P.points points.now)) (P.points points.now) mark.at window.to }
{
    let mut fresh = Vec::from_slice(alloc, old)?;
    keep_before(&mut fresh, window.from);
    push_outside(&mut fresh, points, limit, mark, window.to, steps)?;
    push_behind(&mut fresh, old, window.to)?;
    Ok(fresh)
}

// Puts the fresh spans in the place of those that were touched.
fn put_back(
    alloc: Global,
    kept: &mut Vec<Span>,
    touched: &Touched,
    fresh: Vec<Span>,
) -> Result<Change, AllocError>
    requires old { AreSpans touched.now.spans.items }
    requires new { AreSpans fresh.items }
    requires order { touched.now.begin ≤ touched.now.end }
    requires bound { touched.now.end ≤ length kept.old.items }
    ensures items { OnOk result (kept.new.items ≡ take touched.now.begin kept.old.items ++ (fresh.items ++ drop touched.now.end kept.old.items)) }
    ensures change { IfOk result (λ c. IsChange touched.now.spans.items fresh.items c) }
{
    let change = compare(alloc, &touched.spans, &fresh)?;
    kept.splice(touched.begin..touched.end, fresh)?;
    Ok(change)
}

// Mends the spans that a window may change.
fn mend_touched<P: Points, L: Ledger>(
    alloc: Global,
    kept: &mut Vec<Span>,
    points: &P,
    limit: Limit,
    window: Span,
    mark: Mark,
    steps: &mut Steps<L>,
) -> Result<Change, AllocError>
    requires low { window.from ≤ mark.at }
    requires bound { mark.at ≤ window.to }
    requires inside { (t : ℕ) → window.from ≤ t → t < mark.at → is_outside limit (sum_to (P.points points.now) t) ≡ false }
    requires sum { mark.at < window.to → mark.sum ≡ sum_to (P.points points.now) mark.at }
    requires sound { ArePoints (P.points points.now) }
    requires falls { (a b : ℕ) → a ≤ b → P.ahead points.now b ≤ P.ahead points.now a }
    requires apart { AreSpans kept.old.items }
    ensures apart { OnOk result (AreSpans kept.new.items) }
    ensures covers { OnOk result ((t : ℕ) → covers kept.new.items t ≡ mended window.from window.to (λ x. is_outside limit (sum_to (P.points points.now) x)) kept.old.items t) }
    ensures change { IfOk result (λ c. IsChange kept.old.items kept.new.items c) }
    ensures cost { steps.new ≤ steps.old + walk_until (P.ahead points.now) P.look_steps P.search_steps (goes_outside limit (P.points points.now)) (P.points points.now) mark.at window.to }
{
    let touched = touched_by(alloc, kept, window)?;
    let fresh = renewed(alloc, &touched.spans, points, limit, window, mark, steps)?;
    put_back(alloc, kept, &touched, fresh)
}

// Nothing went, and nothing came.
fn no_change(alloc: Global) -> Change
    ensures { (spans : List Span) → IsChange spans spans result }
{
    Change {
        went: Items::new(alloc),
        came: Items::new(alloc),
    }
}

/// Mends the spans as `mend`, where it is known that the sum is not outside before the mark.
pub fn mend_from<P: Points, L: Ledger>(
    alloc: Global,
    kept: &mut Vec<Span>,
    points: &P,
    limit: Limit,
    window: Span,
    mark: Mark,
    steps: &mut Steps<L>,
) -> Result<Change, AllocError>
    requires low { window.from ≤ mark.at }
    requires bound { mark.at ≤ window.to }
    requires inside { (t : ℕ) → window.from ≤ t → t < mark.at → is_outside limit (sum_to (P.points points.now) t) ≡ false }
    requires sum { mark.at < window.to → mark.sum ≡ sum_to (P.points points.now) mark.at }
    requires sound { ArePoints (P.points points.now) }
    requires falls { (a b : ℕ) → a ≤ b → P.ahead points.now b ≤ P.ahead points.now a }
    requires apart { AreSpans kept.old.items }
    ensures apart { OnOk result (AreSpans kept.new.items) }
    ensures covers { OnOk result ((t : ℕ) → covers kept.new.items t ≡ mended window.from window.to (λ x. is_outside limit (sum_to (P.points points.now) x)) kept.old.items t) }
    ensures change { IfOk result (λ c. IsChange kept.old.items kept.new.items c) }
    ensures cost { steps.new ≤ steps.old + walk_until (P.ahead points.now) P.look_steps P.search_steps (goes_outside limit (P.points points.now)) (P.points points.now) mark.at window.to }
{
    let mark = calm_mark(points, limit, mark, window.to, steps);
    if mark.at == window.to && are_clear(kept, window) {
        return Ok(no_change(alloc));
    }
    mend_touched(alloc, kept, points, limit, window, mark, steps)
}

/// Mends the spans in the window, as the points say it, and leaves them elsewhere as they were.
pub fn mend<P: Points, L: Ledger>(
    alloc: Global,
    kept: &mut Vec<Span>,
    points: &P,
    limit: Limit,
    window: Span,
    steps: &mut Steps<L>,
) -> Result<Change, AllocError>
    requires some { window.from ≤ window.to }
    requires apart { AreSpans kept.old.items }
    ensures apart { OnOk result (AreSpans kept.new.items) }
    ensures covers { OnOk result ((t : ℕ) → covers kept.new.items t ≡ mended window.from window.to (λ x. is_outside limit (sum_to (P.points points.now) x)) kept.old.items t) }
    ensures change { IfOk result (λ c. IsChange kept.old.items kept.new.items c) }
    ensures cost { steps.new ≤ steps.old + walk_steps P.parts P.look_steps P.search_steps (length (P.points points.now)) (points_after (goes_outside limit (P.points points.now)) window.from (P.points points.now)) }
{
    let sum = points.sum_to(window.from, steps);
    let mark = Mark {
        at: window.from,
        sum,
    };
    mend_from(alloc, kept, points, limit, window, mark, steps)
}

/// Takes out what lies before the moment.
pub fn forget(alloc: Global, kept: &mut Vec<Span>, at: u32) -> Result<Change, AllocError>
    requires { AreSpans kept.old.items }
    ensures apart { OnOk result (AreSpans kept.new.items) }
    ensures covers { OnOk result ((t : ℕ) → covers kept.new.items t ≡ mended 0 at (λ _. false) kept.old.items t) }
    ensures change { IfOk result (λ c. IsChange kept.old.items kept.new.items c) }
{
    let touched = touched_by(alloc, kept, Span { from: 0, to: at })?;
    let mut fresh = Vec::new(alloc);
    push_behind(&mut fresh, &touched.spans, at)?;
    put_back(alloc, kept, &touched, fresh)
}
