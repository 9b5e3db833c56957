ghost use Rattle.std.specs.Prelude.{◌≡◌, IfOk};
ghost use Rattle.pl_points.specs.Spans.{AreSpans};
ghost use Rattle.pl_points.specs.Changes.{IsChange, same_span};
ghost use Rattle.pl_lists.specs.Lists.{left_out, is_among};

use crate::cutting::begun_near;
use crate::span::{Change, Span};
use pl_lists::Items;
use std::alloc::{AllocError, Global};

fn is_same(one: Span, other: Span) -> bool
    ensures { result ≡ same_span one other }
{
    one.from == other.from && one.to == other.to
}

// `near` is where the last one that was sought stood; it changes no answer.
fn contains(spans: &[Span], span: Span, near: &mut usize) -> bool
    requires { AreSpans spans.now }
    ensures { result ≡ is_among same_span spans.now span }
{
    let at = begun_near(spans, *near, span.from);
    *near = at;
    if at == spans.len() {
        return false;
    }
    is_same(spans[at], span)
}

// Those that are not among the others.
fn missing_from(alloc: Global, others: &[Span], spans: &[Span]) -> Result<Vec<Span>, AllocError>
    requires { AreSpans others.now }
    ensures { IfOk result (λ v. v.items ≡ left_out same_span others.now spans.now) }
{
    let mut missing = Vec::new(alloc);
    let mut near = 0;
    for span in spans {
        if !contains(others, *span, &mut near) {
            missing.push(*span)?;
        }
    }
    Ok(missing)
}

pub(crate) fn compare(alloc: Global, old: &[Span], new: &[Span]) -> Result<Change, AllocError>
    requires old { AreSpans old.now }
    requires new { AreSpans new.now }
    ensures { IfOk result (λ c. IsChange old.now new.now c) }
{
    let went = missing_from(alloc, new, old)?;
    let came = missing_from(alloc, old, new)?;
    Ok(Change {
        went: Items::from_vec(went),
        came: Items::from_vec(came),
    })
}
