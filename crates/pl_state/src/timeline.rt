ghost use Rattle.std.specs.Prelude.{◌≡◌, ◌↔◌, ◌<◌, ◌≤◌, true, false, [], OnOk, OnErr, IfOk, IsErr};
ghost use Rattle.pl_points.specs.Standing.{without};
ghost use Rattle.pl_state.specs.Sets.{setting_of, same_setting, with_set};
ghost use Rattle.pl_state.specs.Musts.{must_of, same_must, with_must, holds_at};
ghost use Rattle.pl_state.specs.Keys.{AreSorted, Has};
ghost use Rattle.pl_state.specs.Sorted.{bad_key};
ghost use Rattle.pl_state.specs.declared.reservation.Must.{Must};
ghost use Rattle.pl_state.specs.Timelines.{AreChanges, state_at, broken_now, bad_now};
ghost use Rattle.pl_state.specs.Keeping.{after, IsTimely};

use crate::answer::{BadSet, BrokenMust, StateChange};
use crate::change::Change;
use crate::kept::{Kept, Told};
use crate::musts::Musts;
use crate::present::Present;
use crate::reservation::{Must, Setting};
use crate::sets::{Sets, state_of};
use pl_lists::Copied;
use std::alloc::{AllocError, Global};
use std::marker::Model;

/// A state timeline. Contracts see the sets that stand by (moment, id, index), and the musts by (id, index).
#[derive(Drop)]
pub struct StateTimeline {
    spoiled: bool,
    pub(crate) kept: Kept,
}

impl Model for StateTimeline {
    ghost use Rattle.std.specs.Prelude.{◌≡◌, false};
    ghost use Rattle.pl_state.specs.Timelines.{Standing};
    ghost use Rattle.pl_state.specs.Keeping.{state_of, IsKept};

    ghost Value = { Standing };

    ghost view = { λ c. state_of c.spoiled c.kept };

    ghost invariant = { λ c. c.spoiled ≡ false → IsKept c.kept };
}

impl StateTimeline {
    /// A state timeline with its start state, without sets and musts, at the moment 0.
    pub fn new(
        alloc: Global,
        horizon: u32,
        _states: u32,
        start: u32,
        any: bool,
        steps: &[(u32, u32)],
    ) -> Result<StateTimeline, AllocError>
        ensures { IfOk result (λ l. l ≡ record {
          spoiled = false;
          horizon = horizon;
          any = any;
          steps = steps.now;
          moment = 0;
          base = 0;
          value = start;
          sets = [];
          musts = [];
        }) }
    {
        let steps = Vec::from_slice(alloc, steps)?;
        let kept = Kept {
            alloc,
            any,
            steps,
            present: Present {
                moment: 0,
                horizon,
                base: 0,
                value: start,
            },
            sets: Sets::new(alloc),
            musts: Musts::new(alloc),
            told: Told {
                broken: Vec::new(alloc),
                bad: Vec::new(alloc),
            },
        };
        Ok(StateTimeline {
            spoiled: false,
            kept,
        })
    }

    /// Sets the state at the moment. On want of memory the timeline is spoiled.
    pub fn put(
        &mut self,
        at: u32,
        id: u32,
        index: u32,
        state: u32,
    ) -> Result<StateChange, AllocError>
        requires { 1 ≤ at }
        ensures ok { OnOk result (self.new ≡ record self.old
            { sets = with_set (setting_of at id index state) self.old.sets }) }
        ensures change { IfOk result (λ c. AreChanges (broken_now self.old) (broken_now self.new)
            (bad_now self.old) (bad_now self.new) c) }
        ensures unspoiled { OnOk result (self.old.spoiled ≡ false) }
        ensures err { OnErr result (self.new.spoiled ≡ true) }
        ensures after_spoil { self.old.spoiled ≡ true → IsErr result }
    {
        self.changed(Change::Put(Setting {
            at,
            id,
            index,
            state,
        }))
    }

    /// Takes out a set that stands. On want of memory the timeline is spoiled.
    pub fn take(
        &mut self,
        at: u32,
        id: u32,
        index: u32,
        state: u32,
    ) -> Result<StateChange, AllocError>
        ensures ok { OnOk result (self.new ≡ record self.old
            { sets = without same_setting (setting_of at id index state) self.old.sets }) }
        ensures change { IfOk result (λ c. AreChanges (broken_now self.old) (broken_now self.new)
            (bad_now self.old) (bad_now self.new) c) }
        ensures unspoiled { OnOk result (self.old.spoiled ≡ false) }
        ensures err { OnErr result (self.new.spoiled ≡ true) }
        ensures after_spoil { self.old.spoiled ≡ true → IsErr result }
    {
        self.changed(Change::Take(Setting {
            at,
            id,
            index,
            state,
        }))
    }

    /// Needs the state from `from` up to but not at `to`. On want of memory the timeline is spoiled.
    pub fn need(
        &mut self,
        from: u32,
        to: u32,
        id: u32,
        index: u32,
        state: u32,
    ) -> Result<StateChange, AllocError>
        ensures ok { OnOk result (self.new ≡ record self.old
            { musts = with_must (must_of from to id index state) self.old.musts }) }
        ensures change { IfOk result (λ c. AreChanges (broken_now self.old) (broken_now self.new)
            (bad_now self.old) (bad_now self.new) c) }
        ensures unspoiled { OnOk result (self.old.spoiled ≡ false) }
        ensures err { OnErr result (self.new.spoiled ≡ true) }
        ensures after_spoil { self.old.spoiled ≡ true → IsErr result }
    {
        self.changed(Change::Need(Must {
            from,
            to,
            id,
            index,
            state,
        }))
    }

    /// Takes out a must that stands. On want of memory the timeline is spoiled.
    pub fn free(
        &mut self,
        from: u32,
        to: u32,
        id: u32,
        index: u32,
        state: u32,
    ) -> Result<StateChange, AllocError>
        ensures ok { OnOk result (self.new ≡ record self.old
            { musts = without same_must (must_of from to id index state) self.old.musts }) }
        ensures change { IfOk result (λ c. AreChanges (broken_now self.old) (broken_now self.new)
            (bad_now self.old) (bad_now self.new) c) }
        ensures unspoiled { OnOk result (self.old.spoiled ≡ false) }
        ensures err { OnErr result (self.new.spoiled ≡ true) }
        ensures after_spoil { self.old.spoiled ≡ true → IsErr result }
    {
        self.changed(Change::Free(Must {
            from,
            to,
            id,
            index,
            state,
        }))
    }

    /// Sets the base at the present moment: sets up to it count no more. On want of memory the timeline is spoiled.
    pub fn rebase(&mut self, state: u32) -> Result<StateChange, AllocError>
        ensures ok { OnOk result (self.new ≡ record self.old
            { base = self.old.moment; value = state }) }
        ensures change { IfOk result (λ c. AreChanges (broken_now self.old) (broken_now self.new)
            (bad_now self.old) (bad_now self.new) c) }
        ensures unspoiled { OnOk result (self.old.spoiled ≡ false) }
        ensures err { OnErr result (self.new.spoiled ≡ true) }
        ensures after_spoil { self.old.spoiled ≡ true → IsErr result }
    {
        self.changed(Change::Rebase(state))
    }

    /// Moves the present moment on. On want of memory the timeline is spoiled.
    pub fn advance(&mut self, now: u32) -> Result<StateChange, AllocError>
        requires later { self.old.spoiled ≡ false → self.old.moment ≤ now }
        requires bound { self.old.spoiled ≡ false → now ≤ self.old.horizon }
        ensures ok { OnOk result (self.new ≡ record self.old { moment = now }) }
        ensures change { IfOk result (λ c. AreChanges (broken_now self.old) (broken_now self.new)
            (bad_now self.old) (bad_now self.new) c) }
        ensures unspoiled { OnOk result (self.old.spoiled ≡ false) }
        ensures err { OnErr result (self.new.spoiled ≡ true) }
        ensures after_spoil { self.old.spoiled ≡ true → IsErr result }
    {
        self.changed(Change::Advance(now))
    }

    // Makes the change, where no earlier one failed.
    fn changed(&mut self, change: Change) -> Result<StateChange, AllocError>
        requires { self.old.spoiled ≡ false → IsTimely change self.old }
        ensures ok { OnOk result (self.new ≡ after change self.old) }
        ensures change { IfOk result (λ c. AreChanges (broken_now self.old) (broken_now self.new)
            (bad_now self.old) (bad_now self.new) c) }
        ensures unspoiled { OnOk result (self.old.spoiled ≡ false) }
        ensures err { OnErr result (self.new.spoiled ≡ true) }
        ensures after_spoil { self.old.spoiled ≡ true → IsErr result }
    {
        if self.spoiled {
            return Err(AllocError);
        }
        self.spoiled = true;
        let told = self.kept.make(change)?;
        self.spoiled = false;
        Ok(told)
    }

    /// The state at a moment.
    pub fn at(&self, t: u32) -> u32
        requires now { self.now.spoiled ≡ false → self.now.moment ≤ t }
        requires before_horizon { self.now.spoiled ≡ false → t < self.now.horizon }
        ensures { self.now.spoiled ≡ false → result ≡ state_at self.now t }
    {
        if self.spoiled {
            return self.kept.present.value;
        }
        let present = self.kept.present;
        state_of(&self.kept.sets, present.base, present.value, t)
    }

    /// The musts that need their states at a moment.
    pub fn musts_at(&self, alloc: Global, t: u32) -> Result<Vec<Must>, AllocError>
        ensures { IfOk result (λ v. (m : Must) → Has m v.items ↔ (Has m self.now.musts × (holds_at t m ≡ true))) }
    {
        let musts = self.kept.musts.at(alloc, t)?;
        Ok(musts)
    }

    /// Where musts are broken, by (id, index, from).
    pub fn broken_musts(&self) -> &[BrokenMust]
        ensures { self.now.spoiled ≡ false → result.now ≡ broken_now self.now }
    {
        &self.kept.told.broken
    }

    /// The sets that take a step that is not allowed, by (moment, id, index).
    pub fn bad_steps(&self) -> &[BadSet]
        ensures told { self.now.spoiled ≡ false → result.now ≡ bad_now self.now }
        ensures sorted { self.now.spoiled ≡ false → AreSorted bad_key result.now }
    {
        &self.kept.told.bad
    }

    /// Whether a change failed for want of memory: what is told then says nothing, and each further change fails.
    pub fn spoiled(&self) -> bool
        ensures { result ≡ self.now.spoiled }
    {
        self.spoiled
    }
}

impl Copied for StateTimeline {
    fn copy(&self, alloc: Global) -> Result<StateTimeline, AllocError> {
        let kept = &self.kept;
        let steps = Vec::from_slice(alloc, kept.steps.as_slice())?;
        let sets = kept.sets.copy(alloc)?;
        let musts = kept.musts.copy(alloc)?;
        let broken = Vec::from_slice(alloc, kept.told.broken.as_slice())?;
        let bad = Vec::from_slice(alloc, kept.told.bad.as_slice())?;
        Ok(StateTimeline {
            spoiled: self.spoiled,
            kept: Kept {
                alloc,
                any: kept.any,
                steps,
                present: kept.present,
                sets,
                musts,
                told: Told { broken, bad },
            },
        })
    }
}
