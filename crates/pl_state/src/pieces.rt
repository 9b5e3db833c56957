//! Where the state is another than a must asks for, piece by piece.
ghost use Rattle.std.specs.Prelude.{◌≡◌, ◌≤◌, ◌-◌, ◌∷◌, ◌==◌, not, [], OnOk, IfOk, if◌then◌else◌};
ghost use Rattle.pl_points.specs.Spans.{span, joined, spans_of};
ghost use Rattle.pl_state.specs.Sets.{AreInOrder, state_from};

use crate::sets::{Sets, next_moment, state_left};
use pl_points::Span;
use std::alloc::{AllocError, Global};

// Puts a span after the others, joined to the last where they touch.
fn extend(spans: &mut Vec<Span>, from: u32, to: u32) -> Result<(), AllocError>
    ensures { OnOk result (spans.new.items ≡ joined spans.old.items (span from to ∷ [])) }
{
    let count = spans.len();
    if count > 0 && spans[count - 1].to == from {
        let begun = spans[count - 1].from;
        spans[count - 1] = Span { from: begun, to };
        Ok(())
    } else {
        spans.push(Span { from, to })?;
        Ok(())
    }
}

// Puts the piece after the others where the must fails there.
fn push_piece(spans: &mut Vec<Span>, fails: bool, from: u32, to: u32) -> Result<(), AllocError>
    ensures { OnOk result (spans.new.items ≡ (if fails then joined spans.old.items
        (span from to ∷ []) else spans.old.items)) }
{
    if fails {
        extend(spans, from, to)
    } else {
        Ok(())
    }
}

// The maximal spans of the window in which the state is another.
pub(crate) fn failing_spans(
    alloc: Global,
    sets: &Sets,
    base: u32,
    value: u32,
    state: u32,
    window: Span,
) -> Result<Vec<Span>, AllocError>
    requires some { window.from ≤ window.to }
    requires ordered { AreInOrder 0 sets.now }
    ensures { IfOk result (λ v. v.items ≡ spans_of
        (λ t. not (state_from base t value sets.now == state)) window.from
        (window.to - window.from)) }
{
    let mut spans = Vec::new(alloc);
    let mut at = window.from;
    let mut passed = sets.passed_count(at);
    'pieces: while at < window.to {
        let end = next_moment(sets, passed, window.to);
        let found = state_left(sets, base, value, passed);
        push_piece(&mut spans, found != state, at, end)?;
        passed = sets.passed_from(passed, end);
        at = end;
    }
    Ok(spans)
}
