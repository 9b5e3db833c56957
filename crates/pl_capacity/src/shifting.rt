ghost use Rattle.std.specs.Prelude.{◌≡◌, ◌<◌, ◌≤◌, ◌+◌, ℕ, neg_ℤ, OnOk, IfOk, max, min};
ghost use Rattle.pl_points.specs.Points.{sum_to, merged, AreSmall};
ghost use Rattle.pl_points.specs.Limits.{is_outside};
ghost use Rattle.pl_points.specs.Counting.{shift_steps};
ghost use Rattle.pl_points.specs.Spans.{AreSpans, covers};
ghost use Rattle.pl_points.specs.Mending.{mended};
ghost use Rattle.pl_points.specs.Changes.{IsChange};

use pl_points::{Change, Ledger, Limit, Points, Span, Steps, mend};
use std::alloc::{AllocError, Global};

// The part of [from, to) that lies in the window.
fn part_of(window: Span, from: u32, to: u32) -> Span
    requires { window.from ≤ window.to }
    ensures from { result.from ≡ max window.from from }
    ensures to { result.to ≡ max (max window.from from) (min to window.to) }
{
    let begin = window.from.max(from);
    Span {
        from: begin,
        to: begin.max(to.min(window.to)),
    }
}

// Raises the sums from `from` up to but not at `to`, and mends the spans there.
pub(crate) fn shift<P: Points, L: Ledger>(
    alloc: Global,
    points: &mut P,
    spans: &mut Vec<Span>,
    most: i64,
    window: Span,
    from: u32,
    to: u32,
    delta: i64,
    back: i64,
    steps: &mut Steps<L>,
) -> Result<Change, AllocError>
    requires window { window.from ≤ window.to }
    requires back { back ≡ neg_ℤ delta }
    requires one { AreSmall (merged from delta (P.points points.old)) }
    requires both { AreSmall (merged to back (merged from delta (P.points points.old))) }
    requires apart { AreSpans spans.old.items }
    ensures points { OnOk result (P.points points.new ≡ merged to back (merged from delta (P.points points.old))) }
    ensures apart { OnOk result (AreSpans spans.new.items) }
    ensures covers { OnOk result ((t : ℕ) → covers spans.new.items t ≡ mended (max window.from from) (max (max window.from from) (min to window.to)) (λ x. is_outside (Limit.Above most) (sum_to (P.points points.new) x)) spans.old.items t) }
    ensures change { IfOk result (λ c. IsChange spans.old.items spans.new.items c) }
    ensures cost { steps.new ≤ steps.old + shift_steps P.parts P.change_steps P.look_steps P.search_steps (Limit.Above most) from to delta back (P.points points.old) }
{
    points.add(from, delta, steps)?;
    points.add(to, back, steps)?;
    let part = part_of(window, from, to);
    mend(alloc, spans, points, Limit::Above(most), part, steps)
}
