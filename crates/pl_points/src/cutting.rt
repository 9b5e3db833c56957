ghost use Rattle.std.specs.Prelude.{◌≡◌, ◌<◌, ◌≤◌, true, false, ℕ, suc, length, take, drop, OnOk, IfOk};
ghost use Rattle.pl_points.specs.Spans.{AreSpans, covers, joined, within};
ghost use Rattle.pl_lists.specs.Lists.{front, back};
ghost use Rattle.pl_points.specs.Mending.{ends_before, ends_by, begins_before, reached, beyond, before, behind, cut_last};

use crate::pieces::extend;
use crate::span::Span;
use std::alloc::{AllocError, Global};

// How many spans end before the moment.
fn ended_count(spans: &[Span], at: u32) -> usize
    requires { AreSpans spans.now }
    ensures bound { result ≤ length spans.now }
    ensures before { take result spans.now ≡ front (ends_before at) spans.now }
    ensures rest { drop result spans.now ≡ back (ends_before at) spans.now }
{
    spans.partition_point(|span| span.to < at)
}

// How many spans end by the moment.
fn passed_count(spans: &[Span], at: u32) -> usize
    requires { AreSpans spans.now }
    ensures bound { result ≤ length spans.now }
    ensures before { take result spans.now ≡ front (ends_by at) spans.now }
    ensures rest { drop result spans.now ≡ back (ends_by at) spans.now }
{
    spans.partition_point(|span| span.to <= at)
}

// How many spans begin before the moment.
fn begun_count(spans: &[Span], at: u32) -> usize
    requires { AreSpans spans.now }
    ensures bound { result ≤ length spans.now }
    ensures before { take result spans.now ≡ front (begins_before at) spans.now }
    ensures rest { drop result spans.now ≡ back (begins_before at) spans.now }
{
    spans.partition_point(|span| span.from < at)
}

// Whether the spans up to this place are those that begin before the moment.
fn is_last_begun(spans: &[Span], place: usize, at: u32) -> bool
    requires { AreSpans spans.now }
    ensures bound { result ≡ true → place < length spans.now }
    ensures rest { result ≡ true → drop (suc place) spans.now ≡ back (begins_before at) spans.now }
{
    if place >= spans.len() {
        return false;
    }
    if spans[place].from >= at {
        return false;
    }
    if place + 1 == spans.len() {
        return true;
    }
    at <= spans[place + 1].from
}

// How many spans begin before the moment, found at once where `near` is the place of the last of them.
pub(crate) fn begun_near(spans: &[Span], near: usize, at: u32) -> usize
    requires { AreSpans spans.now }
    ensures bound { result ≤ length spans.now }
    ensures rest { drop result spans.now ≡ back (begins_before at) spans.now }
{
    if is_last_begun(spans, near, at) {
        near + 1
    } else {
        begun_count(spans, at)
    }
}

// How many spans there are up to and with the first that reaches past the moment.
fn reached_count(spans: &[Span], at: u32) -> usize
    requires { AreSpans spans.now }
    ensures bound { result ≤ length spans.now }
    ensures front { take result spans.now ≡ reached at spans.now }
    ensures rest { drop result spans.now ≡ beyond at spans.now }
{
    let passed = passed_count(spans, at);
    if passed < spans.len() {
        passed + 1
    } else {
        passed
    }
}

// Whether none of the spans has a moment of the window.
pub(crate) fn are_clear(spans: &[Span], window: Span) -> bool
    requires { AreSpans spans.now }
    ensures { result ≡ true → (t : ℕ) → within window.from window.to t ≡ true → covers spans.now t ≡ false }
{
    let passed = passed_count(spans, window.from);
    if passed == spans.len() {
        return true;
    }
    window.to <= spans[passed].from
}

fn cut_end(spans: &mut Vec<Span>, at: u32)
    ensures { spans.new.items ≡ cut_last at spans.old.items }
{
    let count = spans.len();
    if count > 0 {
        let span = spans[count - 1];
        spans[count - 1] = Span {
            from: span.from,
            to: span.to.min(at),
        };
    }
}

// Leaves what lies before the moment.
pub(crate) fn keep_before(spans: &mut Vec<Span>, at: u32)
    requires { AreSpans spans.old.items }
    ensures { spans.new.items ≡ before at spans.old.items }
{
    let count = begun_count(spans, at);
    spans.truncate(count);
    cut_end(spans, at);
}

// Puts what lies of the old spans at the moment and after behind the others.
pub(crate) fn push_behind(spans: &mut Vec<Span>, old: &[Span], at: u32) -> Result<(), AllocError>
    requires { AreSpans old.now }
    ensures { OnOk result (spans.new.items ≡ joined spans.old.items (behind at old.now)) }
{
    let passed = passed_count(old, at);
    if passed == old.len() {
        return Ok(());
    }
    let span = old[passed];
    extend(spans, span.from.max(at), span.to)?;
    spans.extend_from_slice(&old[passed + 1..])?;
    Ok(())
}

// Of a list of spans, those that a window may change, and from which place up to which they stand.
#[derive(Drop)]
pub(crate) struct Touched {
    pub(crate) spans: Vec<Span>,
    pub(crate) begin: usize,
    pub(crate) end: usize,
}

pub(crate) fn touched_by(alloc: Global, kept: &[Span], window: Span) -> Result<Touched, AllocError>
    requires { AreSpans kept.now }
    ensures order { IfOk result (λ t. t.begin ≤ t.end) }
    ensures bound { IfOk result (λ t. t.end ≤ length kept.now) }
    ensures front { IfOk result (λ t. take t.begin kept.now ≡ front (ends_before window.from) kept.now) }
    ensures touched { IfOk result (λ t. t.spans.items ≡ reached window.to (back (ends_before window.from) kept.now)) }
    ensures apart { IfOk result (λ t. AreSpans t.spans.items) }
    ensures tail { IfOk result (λ t. drop t.end kept.now ≡ beyond window.to (back (ends_before window.from) kept.now)) }
{
    let begin = ended_count(kept, window.from);
    let rest = &kept[begin..];
    let reach = reached_count(rest, window.to);
    let spans = Vec::from_slice(alloc, &rest[..reach])?;
    Ok(Touched {
        spans,
        begin,
        end: begin + reach,
    })
}
