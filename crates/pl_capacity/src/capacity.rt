ghost use Rattle.std.specs.Prelude.{◌≡◌, ◌<◌, ◌≤◌, ◌+◌, ◌≤ℤ◌, neg_ℤ, ◌^◌, pos, true, false, [], ◌∷◌, ◌++◌, length, OnOk, OnErr, IfOk, IsErr};
ghost use Rattle.pl_points.specs.Changes.{IsChange};
ghost use Rattle.pl_points.specs.Standing.{without, stands, noted};
ghost use Rattle.pl_capacity.specs.Soundness.{IsShift};
ghost use Rattle.pl_capacity.specs.Uses.{IsUse, use_of, same_use, used, spans_now, use_steps};

use crate::reservation::Use;
use crate::shifting::shift;
use pl_lists::Copied;
use pl_points::{Change, Ledger, Noted, Points, Span, Steps, Told, forget};
use std::alloc::{AllocError, Global};
use std::marker::Model;

/// A capacity over its change points. Contracts see the uses that stand, oldest first.
#[derive(Drop)]
pub struct Capacity<P: Points> {
    alloc: Global,
    horizon: u32,
    most: i64,
    moment: u32,
    spoiled: bool,
    points: P,
    spans: Vec<Span>,
    notes: Told<Noted<Use>>,
}

impl<P: Points> Model for Capacity<P> {
    ghost use Rattle.std.specs.Prelude.{◌≡◌, false};
    ghost use Rattle.pl_capacity.specs.Uses.{Standing, state_of};
    ghost use Rattle.pl_capacity.specs.Soundness.{IsSound};

    ghost Value = { Standing };

    ghost view = { λ c. state_of c.spoiled c.horizon c.most c.moment c.notes.items };

    ghost invariant = { λ c. c.spoiled ≡ false → IsSound (state_of c.spoiled c.horizon c.most c.moment c.notes.items) (P.points c.points) c.spans.items };
}

impl<P: Points> Capacity<P> {
    /// A capacity with nothing in use, at the moment 0.
    pub fn new(alloc: Global, horizon: u32, most: i64, points: P) -> Capacity<P>
        requires most { pos 0 ≤ℤ most }
        requires points { P.points points ≡ [] }
        ensures { result ≡ record { spoiled = false; horizon = horizon; most = most; moment = 0; uses = [] } }
    {
        Capacity {
            alloc,
            horizon,
            most,
            moment: 0,
            spoiled: false,
            points,
            spans: Vec::new(alloc),
            notes: Told::new(),
        }
    }

    /// Takes the amount from `from` up to but not at `to`. On want of memory the timeline is spoiled.
    pub fn add<L: Ledger>(
        &mut self,
        from: u32,
        to: u32,
        amount: i64,
        steps: &mut Steps<L>,
    ) -> Result<Change, AllocError>
        requires is_use { IsUse (use_of from to amount) }
        requires few { self.old.spoiled ≡ false → length self.old.uses ≤ 319999 }
        ensures ok { OnOk result (self.new ≡ record self.old { uses = self.old.uses ++ use_of from to amount ∷ [] }) }
        ensures change { IfOk result (λ c. IsChange (spans_now self.old) (spans_now self.new) c) }
        ensures unspoiled { OnOk result (self.old.spoiled ≡ false) }
        ensures err { OnErr result (self.new.spoiled ≡ true) }
        ensures after_spoil { self.old.spoiled ≡ true → IsErr result }
        ensures cost { self.old.spoiled ≡ false → steps.new ≤ steps.old + use_steps P.parts P.change_steps P.look_steps P.search_steps self.old from to amount (neg_ℤ amount) }
        ensures idle { self.old.spoiled ≡ true → steps.new ≡ steps.old }
    {
        if self.spoiled {
            return Err(AllocError);
        }
        self.changed(
            from,
            to,
            amount,
            Noted::Came(Use { from, to, amount }),
            steps,
        )
    }

    /// Gives back a use that stands. On want of memory the timeline is spoiled.
    pub fn remove<L: Ledger>(
        &mut self,
        from: u32,
        to: u32,
        amount: i64,
        steps: &mut Steps<L>,
    ) -> Result<Change, AllocError>
        requires { self.old.spoiled ≡ false → stands same_use (use_of from to amount) self.old.uses ≡ true }
        ensures ok { OnOk result (self.new ≡ record self.old { uses = without same_use (use_of from to amount) self.old.uses }) }
        ensures change { IfOk result (λ c. IsChange (spans_now self.old) (spans_now self.new) c) }
        ensures unspoiled { OnOk result (self.old.spoiled ≡ false) }
        ensures err { OnErr result (self.new.spoiled ≡ true) }
        ensures after_spoil { self.old.spoiled ≡ true → IsErr result }
        ensures cost { self.old.spoiled ≡ false → steps.new ≤ steps.old + use_steps P.parts P.change_steps P.look_steps P.search_steps self.old from to (neg_ℤ amount) amount }
        ensures idle { self.old.spoiled ≡ true → steps.new ≡ steps.old }
    {
        if self.spoiled {
            return Err(AllocError);
        }
        self.changed(
            from,
            to,
            -amount,
            Noted::Went(Use { from, to, amount }),
            steps,
        )
    }

    // Notes a use that came or went, which adds the amount to what is in use from `from` up to but not at `to`.
    fn changed<L: Ledger>(
        &mut self,
        from: u32,
        to: u32,
        added: i64,
        note: Noted<Use>,
        steps: &mut Steps<L>,
    ) -> Result<Change, AllocError>
        requires unspoiled { self.old.spoiled ≡ false }
        requires shift { IsShift from to added self.old.uses (noted same_use self.old.uses note) }
        ensures ok { OnOk result (self.new ≡ record self.old { uses = noted same_use self.old.uses note }) }
        ensures change { IfOk result (λ c. IsChange (spans_now self.old) (spans_now self.new) c) }
        ensures err { OnErr result (self.new.spoiled ≡ true) }
        ensures cost { steps.new ≤ steps.old + use_steps P.parts P.change_steps P.look_steps P.search_steps self.old from to added (neg_ℤ added) }
    {
        self.spoiled = true;
        let window = Span {
            from: self.moment,
            to: self.horizon,
        };
        let change = shift(
            self.alloc,
            &mut self.points,
            &mut self.spans,
            self.most,
            window,
            from,
            to,
            added,
            -added,
            steps,
        )?;
        self.notes = self.notes.with(&note);
        self.spoiled = false;
        Ok(change)
    }

    /// Moves the present moment on. On want of memory the timeline is spoiled.
    pub fn advance<L: Ledger>(
        &mut self,
        now: u32,
        _steps: &mut Steps<L>,
    ) -> Result<Change, AllocError>
        requires later { self.old.spoiled ≡ false → self.old.moment ≤ now }
        requires bound { self.old.spoiled ≡ false → now ≤ self.old.horizon }
        ensures ok { OnOk result (self.new ≡ record self.old { moment = now }) }
        ensures change { IfOk result (λ c. IsChange (spans_now self.old) (spans_now self.new) c) }
        ensures unspoiled { OnOk result (self.old.spoiled ≡ false) }
        ensures err { OnErr result (self.new.spoiled ≡ true) }
        ensures after_spoil { self.old.spoiled ≡ true → IsErr result }
    {
        if self.spoiled {
            return Err(AllocError);
        }
        self.spoiled = true;
        let change = forget(self.alloc, &mut self.spans, now)?;
        self.moment = now;
        self.spoiled = false;
        Ok(change)
    }

    /// What is in use at a moment.
    pub fn at<L: Ledger>(&self, t: u32, steps: &mut Steps<L>) -> i64
        requires now { self.now.spoiled ≡ false → self.now.moment ≤ t }
        requires before_horizon { self.now.spoiled ≡ false → t < self.now.horizon }
        ensures { self.now.spoiled ≡ false → result ≡ used self.now.uses t }
    {
        self.points.sum_to(t, steps)
    }

    /// The maximal spans at which more is in use than the most.
    pub fn spans(&self) -> &[Span]
        ensures { self.now.spoiled ≡ false → result.now ≡ spans_now self.now }
    {
        &self.spans
    }

    /// Whether a change failed for want of memory: the spans then say nothing, and each further change fails.
    pub fn spoiled(&self) -> bool
        ensures { result ≡ self.now.spoiled }
    {
        self.spoiled
    }
}

impl<P: Points + Copied> Copied for Capacity<P> {
    fn copy(&self, alloc: Global) -> Result<Capacity<P>, AllocError> {
        let points = self.points.copy(alloc)?;
        let spans = Vec::from_slice(alloc, self.spans.as_slice())?;
        Ok(Capacity {
            alloc,
            horizon: self.horizon,
            most: self.most,
            moment: self.moment,
            spoiled: self.spoiled,
            points,
            spans,
            notes: self.notes.again(),
        })
    }
}
