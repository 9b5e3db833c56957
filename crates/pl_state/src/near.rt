//! Both lists mended near a change.
ghost use Rattle.std.specs.Prelude.{◌≡◌, ◌≤◌, [], ◌∷◌, false, length, take, drop, OnOk, IfOk};
ghost use Rattle.pl_lists.specs.Lists.{front, back, left_out};
ghost use Rattle.pl_state.specs.Keys.{AreSorted};
ghost use Rattle.pl_state.specs.Sets.{AreInOrder};
ghost use Rattle.pl_state.specs.Sorted.{bad_key};
ghost use Rattle.pl_state.specs.Timelines.{bad_now, same_bad, same_broken};
ghost use Rattle.pl_state.specs.Near.{bad_before, bad_by, group_key, AreBadInOrder, AreRightBut};
ghost use Rattle.pl_state.specs.Present.{broken_at, bad_at, group_at, WasRight, IsRightBut};
ghost use Rattle.pl_state.specs.Keeping.{state_of, IsMended};

use crate::answer::{BadSet, BrokenMust, StateChange};
use crate::groups::renew;
use crate::kept::Kept;
use crate::key::Key;
use crate::listed::{Difference, answer, exchange};
use crate::musts::Musts;
use crate::present::Present;
use crate::sets::{Sets, bad_near};
use pl_lists::Items;
use pl_points::Span;
use std::alloc::{AllocError, Global};

// How many of them come before the moment.
fn begun_count(bad: &[BadSet], at: u32) -> usize
    requires { AreBadInOrder 0 bad.now }
    ensures bound { result ≤ length bad.now }
    ensures before { take result bad.now ≡ front (bad_before at) bad.now }
    ensures rest { drop result bad.now ≡ back (bad_before at) bad.now }
{
    bad.partition_point(|set| set.at < at)
}

// How many of them are at the moment or before it.
fn passed_count(bad: &[BadSet], at: u32) -> usize
    requires { AreBadInOrder 0 bad.now }
    ensures bound { result ≤ length bad.now }
    ensures rest { drop result bad.now ≡ back (bad_by at) bad.now }
{
    bad.partition_point(|set| set.at <= at)
}

// Works the steps of the sets in the window out anew, and leaves the others as they are.
fn mend_steps(
    alloc: Global,
    any: bool,
    steps: &[(u32, u32)],
    present: Present,
    near: Span,
    sets: &Sets,
    bad: &mut Vec<BadSet>,
) -> Result<Difference<BadSet>, AllocError>
    requires near { near.from ≤ near.to }
    requires bound { near.from ≤ present.horizon }
    requires ordered { AreInOrder 0 sets.now }
    requires sorted { AreSorted bad_key bad.old.items }
    requires before { front (bad_before near.from) bad.old.items
        ≡ front (bad_before near.from) (bad_at any steps.now present sets.now) }
    requires behind { back (bad_by near.to) bad.old.items
        ≡ back (bad_by near.to) (bad_at any steps.now present sets.now) }
    ensures bad { OnOk result (bad.new.items ≡ bad_at any steps.now present sets.now) }
    ensures sorted { OnOk result (AreSorted bad_key bad.new.items) }
    ensures went { IfOk result (λ d. d.went ≡ left_out same_bad bad.new.items bad.old.items) }
    ensures came { IfOk result (λ d. d.came ≡ left_out same_bad bad.old.items bad.new.items) }
{
    // If any step is allowed and none is listed as not allowed, there is none to be listed.
    if any && bad.is_empty() {
        return Ok(no_steps(alloc));
    }
    let counted = Span {
        from: present.base,
        to: present.horizon,
    };
    let fresh = bad_near(
        alloc,
        any,
        steps,
        counted,
        present.moment,
        present.value,
        near,
        sets,
    )?;
    let begin = begun_count(bad, near.from);
    let count = passed_count(&bad[begin..], near.to);
    let difference = exchange(alloc, bad, begin, begin + count, &fresh)?;
    Ok(difference)
}

// Works out anew where the musts with moments of the window are broken, and leaves the others as they are.
fn mend_musts(
    alloc: Global,
    present: Present,
    near: Span,
    sets: &Sets,
    musts: &Musts,
    broken: &mut Vec<BrokenMust>,
) -> Result<Difference<BrokenMust>, AllocError>
    requires ordered { AreInOrder 0 sets.now }
    requires was { WasRight near present sets.now musts.now broken.old.items }
    ensures broken { OnOk result (broken.new.items ≡ broken_at present sets.now musts.now) }
    ensures went { IfOk result (λ d. d.went ≡ left_out same_broken broken.new.items
        broken.old.items) }
    ensures came { IfOk result (λ d. d.came ≡ left_out same_broken broken.old.items
        broken.new.items) }
{
    let keys = musts.touched(alloc, near)?;
    let difference = renew(alloc, sets, present, musts, &keys, broken)?;
    Ok(difference)
}

// Steps that stay as they are.
fn no_steps(alloc: Global) -> Difference<BadSet>
    ensures went { result.went ≡ [] }
    ensures came { result.came ≡ [] }
{
    Difference {
        went: Items::new(alloc),
        came: Items::new(alloc),
    }
}

impl Kept {
    /// Moves to the present, and mends both lists in the window. Elsewhere they are right as they stand.
    pub(crate) fn mend_near(
        &mut self,
        present: Present,
        near: Span,
    ) -> Result<StateChange, AllocError>
        requires time { present.moment ≤ present.horizon }
        requires based { present.base ≤ present.moment }
        requires right { IsRightBut near self.old.any self.old.steps.items present self.old.sets
            self.old.musts self.old.told.broken.items self.old.told.bad.items }
        requires sorted { AreSorted bad_key self.old.told.bad.items }
        ensures { IfOk result (λ told. IsMended present self.old self.new told) }
    {
        let of_musts = mend_musts(
            self.alloc,
            present,
            near,
            &self.sets,
            &self.musts,
            &mut self.told.broken,
        )?;
        let of_steps = mend_steps(
            self.alloc,
            self.any,
            &self.steps,
            present,
            near,
            &self.sets,
            &mut self.told.bad,
        )?;
        self.present = present;
        Ok(answer(of_musts, of_steps))
    }

    /// Works out anew where the musts with the key are broken. All others are right as they stand.
    pub(crate) fn mend_must(&mut self, key: Key) -> Result<StateChange, AllocError>
        requires time { self.old.present.moment ≤ self.old.present.horizon }
        requires based { self.old.present.base ≤ self.old.present.moment }
        requires ordered { AreInOrder 0 self.old.sets }
        requires sorted { AreSorted group_key self.old.told.broken.items }
        requires right { AreRightBut (key ∷ []) (group_at self.old.present self.old.sets)
            self.old.musts self.old.told.broken.items }
        requires steps { self.old.told.bad.items ≡ bad_now (state_of false self.old) }
        requires steps_sorted { AreSorted bad_key self.old.told.bad.items }
        ensures { IfOk result (λ told. IsMended self.old.present self.old self.new told) }
    {
        let of_musts = renew(
            self.alloc,
            &self.sets,
            self.present,
            &self.musts,
            &[key],
            &mut self.told.broken,
        )?;
        Ok(answer(of_musts, no_steps(self.alloc)))
    }
}
