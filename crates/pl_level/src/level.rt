ghost use Rattle.std.specs.Prelude.{◌≡◌, ◌<◌, ◌≤◌, ◌+◌, neg_ℤ, true, false, [], ◌∷◌, ◌++◌, length, OnOk, OnErr, IfOk, IsErr};
ghost use Rattle.pl_points.specs.Changes.{IsChange};
ghost use Rattle.pl_points.specs.Standing.{without, stands, noted};
ghost use Rattle.pl_level.specs.Effects.{IsEffect, IsValue, effect_of, same_effect, low_now, high_now, effect_steps};
ghost use Rattle.pl_level.specs.Soundness.{AreChanges, IsShift};

use crate::kept::Kept;
use crate::reservation::{Effect, LevelChange};
use crate::windows::{forget_both, mend_both, sum_before, sums_for, window_of};
use pl_lists::Copied;
use pl_points::{Ledger, Noted, Points, Span, Steps, Told};
use std::alloc::{AllocError, Global};
use std::marker::Model;

/// A level over its change points. Contracts see the effects that stand, oldest first.
#[derive(Drop)]
pub struct Level<P: Points> {
    alloc: Global,
    horizon: u32,
    least: i64,
    most: i64,
    moment: u32,
    base: u32,
    pub(crate) value: i64,
    // The sum of the points up to the base's moment.
    pub(crate) before: i64,
    pub(crate) spoiled: bool,
    pub(crate) points: P,
    low: Kept,
    high: Kept,
    notes: Told<Noted<Effect>>,
}

impl<P: Points> Model for Level<P> {
    ghost use Rattle.std.specs.Prelude.{◌≡◌, false};
    ghost use Rattle.pl_level.specs.Effects.{Standing, state_of};
    ghost use Rattle.pl_level.specs.Soundness.{IsSound};

    ghost Value = { Standing };

    ghost view = { λ c. state_of c.spoiled c.horizon c.least c.most c.moment c.base c.value c.notes.items };

    ghost invariant = { λ c. c.spoiled ≡ false → IsSound (state_of c.spoiled c.horizon c.least c.most c.moment c.base c.value c.notes.items) c.before (P.points c.points) c.low c.high };
}

impl<P: Points> Level<P> {
    /// A level with its start value and no effects, at the moment 0.
    pub fn new(
        alloc: Global,
        horizon: u32,
        least: i64,
        most: i64,
        start: i64,
        points: P,
    ) -> Level<P>
        requires least { IsValue least }
        requires most { IsValue most }
        requires start { IsValue start }
        requires horizon { 0 < horizon }
        requires points { P.points points ≡ [] }
        ensures { result ≡ record { spoiled = false; horizon = horizon; least = least; most = most; moment = 0; base = 0; value = start; effects = [] } }
    {
        let whole = Span {
            from: 0,
            to: horizon,
        };
        Level {
            alloc,
            horizon,
            least,
            most,
            moment: 0,
            base: 0,
            value: start,
            before: 0,
            spoiled: false,
            points,
            low: Kept::new(alloc, start < least, whole),
            high: Kept::new(alloc, most < start, whole),
            notes: Told::new(),
        }
    }

    /// Adds the delta from the moment on. On want of memory the timeline is spoiled.
    pub fn add<L: Ledger>(
        &mut self,
        at: u32,
        delta: i64,
        steps: &mut Steps<L>,
    ) -> Result<LevelChange, AllocError>
        requires is_effect { IsEffect (effect_of at delta) }
        requires few { self.old.spoiled ≡ false → length self.old.effects ≤ 319999 }
        ensures ok { OnOk result (self.new ≡ record self.old { effects = self.old.effects ++ effect_of at delta ∷ [] }) }
        ensures change { IfOk result (λ c. AreChanges (low_now self.old) (low_now self.new) (high_now self.old) (high_now self.new) c) }
        ensures unspoiled { OnOk result (self.old.spoiled ≡ false) }
        ensures err { OnErr result (self.new.spoiled ≡ true) }
        ensures after_spoil { self.old.spoiled ≡ true → IsErr result }
        ensures cost { self.old.spoiled ≡ false → steps.new ≤ steps.old + effect_steps P.parts P.change_steps P.look_steps P.search_steps self.old (self.old.effects ++ effect_of at delta ∷ []) at delta }
        ensures idle { self.old.spoiled ≡ true → steps.new ≡ steps.old }
    {
        if self.spoiled {
            return Err(AllocError);
        }
        self.changed(at, delta, Noted::Came(Effect { at, delta }), steps)
    }

    /// Takes out an effect that stands. On want of memory the timeline is spoiled.
    pub fn remove<L: Ledger>(
        &mut self,
        at: u32,
        delta: i64,
        steps: &mut Steps<L>,
    ) -> Result<LevelChange, AllocError>
        requires { self.old.spoiled ≡ false → stands same_effect (effect_of at delta) self.old.effects ≡ true }
        ensures ok { OnOk result (self.new ≡ record self.old { effects = without same_effect (effect_of at delta) self.old.effects }) }
        ensures change { IfOk result (λ c. AreChanges (low_now self.old) (low_now self.new) (high_now self.old) (high_now self.new) c) }
        ensures unspoiled { OnOk result (self.old.spoiled ≡ false) }
        ensures err { OnErr result (self.new.spoiled ≡ true) }
        ensures after_spoil { self.old.spoiled ≡ true → IsErr result }
        ensures cost { self.old.spoiled ≡ false → steps.new ≤ steps.old + effect_steps P.parts P.change_steps P.look_steps P.search_steps self.old (without same_effect (effect_of at delta) self.old.effects) at (neg_ℤ delta) }
        ensures idle { self.old.spoiled ≡ true → steps.new ≡ steps.old }
    {
        if self.spoiled {
            return Err(AllocError);
        }
        self.changed(at, -delta, Noted::Went(Effect { at, delta }), steps)
    }

    // Notes what came or went, which adds the amount to the level from the moment on, and mends both lists there.
    fn changed<L: Ledger>(
        &mut self,
        at: u32,
        added: i64,
        note: Noted<Effect>,
        steps: &mut Steps<L>,
    ) -> Result<LevelChange, AllocError>
        requires unspoiled { self.old.spoiled ≡ false }
        requires shift { IsShift at added self.old.effects (noted same_effect self.old.effects note) }
        ensures ok { OnOk result (self.new ≡ record self.old { effects = noted same_effect self.old.effects note }) }
        ensures change { IfOk result (λ c. AreChanges (low_now self.old) (low_now self.new) (high_now self.old) (high_now self.new) c) }
        ensures err { OnErr result (self.new.spoiled ≡ true) }
        ensures cost { steps.new ≤ steps.old + effect_steps P.parts P.change_steps P.look_steps P.search_steps self.old (noted same_effect self.old.effects note) at added }
    {
        self.spoiled = true;
        self.points.add(at, added, steps)?;
        self.before = sum_before(self.before, self.base, at, added);
        let sums = sums_for(self.least, self.most, self.value, self.before);
        let present = Span {
            from: self.moment,
            to: self.horizon,
        };
        let near = window_of(present, self.base, at);
        let change = mend_both(
            &self.points,
            &mut self.low,
            &mut self.high,
            sums,
            near,
            steps,
        )?;
        self.notes = self.notes.with(&note);
        self.spoiled = false;
        Ok(change)
    }

    /// Sets the base at the present moment: effects up to it count no more. On want of memory the timeline is spoiled.
    pub fn rebase<L: Ledger>(
        &mut self,
        value: i64,
        steps: &mut Steps<L>,
    ) -> Result<LevelChange, AllocError>
        requires { IsValue value }
        ensures ok { OnOk result (self.new ≡ record self.old { base = self.old.moment; value = value }) }
        ensures change { IfOk result (λ c. AreChanges (low_now self.old) (low_now self.new) (high_now self.old) (high_now self.new) c) }
        ensures unspoiled { OnOk result (self.old.spoiled ≡ false) }
        ensures err { OnErr result (self.new.spoiled ≡ true) }
        ensures after_spoil { self.old.spoiled ≡ true → IsErr result }
    {
        if self.spoiled {
            return Err(AllocError);
        }
        self.spoiled = true;
        self.before = self.points.sum_to(self.moment, steps);
        let present = Span {
            from: self.moment,
            to: self.horizon,
        };
        let sums = sums_for(self.least, self.most, value, self.before);
        let change = mend_both(
            &self.points,
            &mut self.low,
            &mut self.high,
            sums,
            present,
            steps,
        )?;
        self.base = self.moment;
        self.value = value;
        self.spoiled = false;
        Ok(change)
    }

    /// Moves the present moment on. On want of memory the timeline is spoiled.
    pub fn advance<L: Ledger>(
        &mut self,
        now: u32,
        _steps: &mut Steps<L>,
    ) -> Result<LevelChange, AllocError>
        requires later { self.old.spoiled ≡ false → self.old.moment ≤ now }
        requires bound { self.old.spoiled ≡ false → now ≤ self.old.horizon }
        ensures ok { OnOk result (self.new ≡ record self.old { moment = now }) }
        ensures change { IfOk result (λ c. AreChanges (low_now self.old) (low_now self.new) (high_now self.old) (high_now self.new) c) }
        ensures unspoiled { OnOk result (self.old.spoiled ≡ false) }
        ensures err { OnErr result (self.new.spoiled ≡ true) }
        ensures after_spoil { self.old.spoiled ≡ true → IsErr result }
    {
        if self.spoiled {
            return Err(AllocError);
        }
        self.spoiled = true;
        let change = forget_both(&mut self.low, &mut self.high, now)?;
        self.moment = now;
        self.spoiled = false;
        Ok(change)
    }

    /// The maximal spans at which the level is below its least.
    pub fn low_spans(&self) -> &[Span]
        ensures { self.now.spoiled ≡ false → result.now ≡ low_now self.now }
    {
        self.low.as_slice()
    }

    /// The maximal spans at which the level is above its most.
    pub fn high_spans(&self) -> &[Span]
        ensures { self.now.spoiled ≡ false → result.now ≡ high_now self.now }
    {
        self.high.as_slice()
    }

    /// Whether a change failed for want of memory: the spans then say nothing, and each further change fails.
    pub fn spoiled(&self) -> bool
        ensures { result ≡ self.now.spoiled }
    {
        self.spoiled
    }
}

impl<P: Points + Copied> Copied for Level<P> {
    fn copy(&self, alloc: Global) -> Result<Level<P>, AllocError> {
        let points = self.points.copy(alloc)?;
        let low = self.low.copy(alloc)?;
        let high = self.high.copy(alloc)?;
        Ok(Level {
            alloc,
            horizon: self.horizon,
            least: self.least,
            most: self.most,
            moment: self.moment,
            base: self.base,
            value: self.value,
            before: self.before,
            spoiled: self.spoiled,
            points,
            low,
            high,
            notes: self.notes.again(),
        })
    }
}
