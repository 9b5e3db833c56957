ghost use Rattle.std.specs.Prelude.{◌≡◌, ◌≤◌, ◌+◌, ◌<◌, ◌^◌, ℕ, Bool, true, false, [], ◌∷◌, OnOk, IfOk, if◌then◌else◌};
ghost use Rattle.pl_points.specs.Points.{sum_to, ArePoints};
ghost use Rattle.pl_points.specs.Limits.{is_outside};
ghost use Rattle.pl_points.specs.Spans.{AreSpans, covers, span};
ghost use Rattle.pl_points.specs.Mending.{mended};
ghost use Rattle.pl_points.specs.Counting.{walk_until, goes_outside};
ghost use Rattle.pl_points.specs.Changes.{IsChange};

use pl_lists::Copied;
use pl_points::{Change, Ledger, Limit, Mark, Points, Span, Steps, forget, mend_from};
use std::alloc::{AllocError, Global};
use std::marker::Model;
use std::slice::from_ref;

/// A list of spans that can begin as one span without taking memory.
#[derive(Drop)]
pub(crate) struct Kept {
    alloc: Global,
    // Whether the list is still that one span.
    whole: bool,
    first: Span,
    spans: Vec<Span>,
}

impl Model for Kept {
    ghost use Rattle.std.specs.Prelude.{◌≡◌, true, List, [], ◌∷◌, if◌then◌else◌};
    ghost use Rattle.pl_points.specs.declared.span.Span.{Span};

    ghost Value = { List Span };

    ghost view = { λ k. if k.whole then k.first ∷ [] else k.spans.items };

    ghost invariant = { λ k. k.whole ≡ true → k.spans.items ≡ [] };
}

impl Kept {
    /// The span alone, or nothing.
    pub(crate) fn new(alloc: Global, whole: bool, first: Span) -> Kept
        ensures { result ≡ (if whole then first ∷ [] else []) }
    {
        Kept {
            alloc,
            whole,
            first,
            spans: Vec::new(alloc),
        }
    }

    pub(crate) fn as_slice(&self) -> &[Span]
        ensures { result.now ≡ self.now }
    {
        if self.whole {
            from_ref(&self.first)
        } else {
            &self.spans
        }
    }

    /// The list as a vector, with room for more.
    fn taken(&mut self) -> Result<Vec<Span>, AllocError>
        ensures { IfOk result (λ v. v.items ≡ self.old) }
    {
        let mut spans = std::mem::replace(&mut self.spans, Vec::new(self.alloc));
        if self.whole {
            self.whole = false;
            spans.push(self.first)?;
        }
        Ok(spans)
    }

    /// Mends the spans in the window, as the points say it, where none lies before the mark.
    pub(crate) fn mend<P: Points, L: Ledger>(
        &mut self,
        points: &P,
        limit: Limit,
        window: Span,
        mark: Mark,
        steps: &mut Steps<L>,
    ) -> Result<Change, AllocError>
        requires low { window.from ≤ mark.at }
        requires bound { mark.at ≤ window.to }
        requires inside { (t : ℕ) → window.from ≤ t → t < mark.at → is_outside limit (sum_to (P.points points.now) t) ≡ false }
        requires sum { mark.at < window.to → mark.sum ≡ sum_to (P.points points.now) mark.at }
        requires sound { ArePoints (P.points points.now) }
        requires falls { (a b : ℕ) → a ≤ b → P.ahead points.now b ≤ P.ahead points.now a }
        requires apart { AreSpans self.old }
        ensures apart { OnOk result (AreSpans self.new) }
        ensures covers { OnOk result ((t : ℕ) → covers self.new t ≡ mended window.from window.to (λ x. is_outside limit (sum_to (P.points points.now) x)) self.old t) }
        ensures change { IfOk result (λ c. IsChange self.old self.new c) }
        ensures cost { steps.new ≤ steps.old + walk_until (P.ahead points.now) P.look_steps P.search_steps (goes_outside limit (P.points points.now)) (P.points points.now) mark.at window.to }
    {
        let mut spans = self.taken()?;
        let change = mend_from(self.alloc, &mut spans, points, limit, window, mark, steps)?;
        self.whole = false;
        self.spans = spans;
        Ok(change)
    }

    /// Takes out what lies before the moment.
    pub(crate) fn forget(&mut self, at: u32) -> Result<Change, AllocError>
        requires { AreSpans self.old }
        ensures apart { OnOk result (AreSpans self.new) }
        ensures covers { OnOk result ((t : ℕ) → covers self.new t ≡ mended 0 at (λ _. false) self.old t) }
        ensures change { IfOk result (λ c. IsChange self.old self.new c) }
    {
        let mut spans = self.taken()?;
        let change = forget(self.alloc, &mut spans, at)?;
        self.whole = false;
        self.spans = spans;
        Ok(change)
    }
}

impl Copied for Kept {
    fn copy(&self, alloc: Global) -> Result<Kept, AllocError> {
        Ok(Kept {
            alloc,
            whole: self.whole,
            first: self.first,
            spans: Vec::from_slice(alloc, self.spans.as_slice())?,
        })
    }
}
