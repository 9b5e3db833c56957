ghost use Rattle.std.specs.Prelude.{◌≡◌, ◌<◌, ◌≤◌, ◌-◌, [], ℕ, List, length, take, drop, min, max, slice_index_or, OnOk, IfOk};
ghost use Rattle.pl_lists.specs.Lists.{front, back};
ghost use Rattle.pl_points.specs.Standing.{without};
ghost use Rattle.pl_state.specs.Sets.{set_key, set_before, same_setting, with_set, state_from, is_allowed, bad_from, is_passed, AreInOrder, last_by};
ghost use Rattle.pl_state.specs.Keys.{AreSorted};
ghost use Rattle.pl_state.specs.Near.{next_moment, rest_after, comes_before, state_before};

use crate::allowed::bad_of;
use crate::answer::BadSet;
use crate::bound::Bound;
use crate::finding::position_in;
use crate::key::{Key, Keyed};
use crate::reservation::Setting;
use crate::rows::Rows;
use pl_points::Span;
use std::alloc::{AllocError, Global};
use std::marker::Model;

/// The sets that stand, by (moment, id, index).
#[derive(Drop)]
pub(crate) struct Sets {
    items: Rows<Setting>,
}

impl Model for Sets {
    ghost use Rattle.std.specs.Prelude.{List};
    ghost use Rattle.pl_state.specs.declared.reservation.Setting.{Setting};
    ghost use Rattle.pl_state.specs.Keys.{AreSorted};
    ghost use Rattle.pl_state.specs.Sets.{set_key};

    ghost Value = { List Setting };

    ghost view = { λ c. c.items };

    ghost invariant = { λ c. AreSorted set_key c.items };
}

impl Keyed for Setting {
    ghost key = { set_key };

    ghost same = { same_setting };

    fn key(&self) -> Key {
        Key {
            at: self.at,
            id: self.id,
            index: self.index,
        }
    }

    fn is_same(&self, other: &Setting) -> bool {
        self.at == other.at
            && (self.id == other.id && (self.index == other.index && self.state == other.state))
    }
}

impl Sets {
    pub(crate) fn new(alloc: Global) -> Sets
        ensures { result ≡ [] }
    {
        Sets {
            items: Rows::new(alloc),
        }
    }

    pub(crate) fn copy(&self, alloc: Global) -> Result<Sets, AllocError>
        ensures { IfOk result (λ c. c ≡ self.now) }
    {
        Ok(Sets {
            items: self.items.copy(alloc)?,
        })
    }

    fn len(&self) -> usize
        ensures { result ≡ length self.now }
    {
        self.items.len()
    }

    fn at(&self, place: usize) -> Setting
        requires { place < length self.now }
        ensures { result ≡ slice_index_or self.now place result }
    {
        self.items.at(place)
    }

    // How many sets come before the moment.
    fn begun_count(&self, at: u32) -> usize
        ensures bound { result ≤ length self.now }
        ensures front { take result self.now ≡ front (comes_before at) self.now }
        ensures rest { drop result self.now ≡ back (comes_before at) self.now }
    {
        self.items.count(Bound::Earlier(at))
    }

    // How many sets are at the moment or before it.
    pub(crate) fn passed_count(&self, at: u32) -> usize
        ensures bound { result ≤ length self.now }
        ensures front { take result self.now ≡ front (is_passed at) self.now }
        ensures rest { drop result self.now ≡ back (is_passed at) self.now }
    {
        self.items.count(Bound::By(at))
    }

    // The last set at the moment or before it.
    pub(crate) fn last_by(&self, at: u32) -> Option<Setting>
        ensures { result ≡ last_by at self.now }
    {
        let count = self.passed_count(at);
        if count == 0 {
            return None;
        }
        Some(self.at(count - 1))
    }

    // The place behind the sets from a place on that are at the moment or before it.
    pub(crate) fn passed_from(&self, from: usize, at: u32) -> usize
        requires { from ≤ length self.now }
        ensures sorted { AreSorted set_key self.now }
        ensures low { from ≤ result }
        ensures bound { result ≤ length self.now }
        ensures front { take (result - from) (drop from self.now)
            ≡ front (is_passed at) (drop from self.now) }
        ensures rest { drop result self.now ≡ back (is_passed at) (drop from self.now) }
    {
        self.items.end_near(from, Bound::By(at))
    }

    // So many sets from the place on.
    fn part(&self, alloc: Global, from: usize, count: usize) -> Result<Vec<Setting>, AllocError>
        ensures { IfOk result (λ v. v.items ≡ take count (drop from self.now)) }
    {
        let part = self.items.part(alloc, from, count)?;
        Ok(part)
    }
}

// The moment of the first set from the place on, at most the horizon.
pub(crate) fn next_moment(sets: &Sets, from: usize, horizon: u32) -> u32
    ensures { result ≡ next_moment horizon (drop from sets.now) }
{
    if from < sets.len() {
        sets.at(from).at.min(horizon)
    } else {
        horizon
    }
}

// The moments from one set up to the next, which stands at the place.
fn window_from(sets: &Sets, next: usize, at: u32, horizon: u32) -> Span
    ensures from { result.from ≡ min at horizon }
    ensures to { result.to ≡ max (next_moment horizon (drop next sets.now)) (min at horizon) }
{
    let from = at.min(horizon);
    Span {
        from,
        to: next_moment(sets, next, horizon).max(from),
    }
}

// Puts the set in its place, and says at which moments it counts.
pub(crate) fn insert_set(sets: &mut Sets, set: Setting, horizon: u32) -> Result<Span, AllocError>
    ensures items { OnOk result (sets.new ≡ with_set set sets.old) }
    ensures from { IfOk result (λ w. w.from ≡ min set.at horizon) }
    ensures to { IfOk result (λ w. w.to ≡ max (next_moment horizon (back (set_before set) sets.old))
        (min set.at horizon)) }
{
    let place = sets.items.count(Bound::Before(set.key()));
    let near = window_from(sets, place, set.at, horizon);
    sets.items.insert(place, set)?;
    Ok(near)
}

// Takes the first such set out, and says at which moments it counted.
pub(crate) fn remove_set(sets: &mut Sets, set: Setting, horizon: u32) -> Span
    ensures items { sets.new ≡ without same_setting set sets.old }
    ensures from { result.from ≡ min set.at horizon }
    ensures to { result.to ≡ max (next_moment horizon (rest_after same_setting set sets.old))
        (min set.at horizon) }
{
    match position_in(&sets.items, &set) {
        Some(place) => {
            sets.items.remove(place);
            window_from(sets, place, set.at, horizon)
        }
        None => window_from(sets, sets.len(), set.at, horizon),
    }
}

// The moment of the first set after the base, at most the horizon.
pub(crate) fn end_of_base(sets: &Sets, base: u32, horizon: u32) -> u32
    requires { base ≤ horizon }
    ensures end { result ≡ next_moment horizon (back (is_passed base) sets.now) }
    ensures later { base ≤ result }
{
    let count = sets.passed_count(base);
    next_moment(sets, count, horizon)
}

// The state that the first sets leave, which are all that are at a moment or before it.
pub(crate) fn state_left(sets: &Sets, base: u32, value: u32, count: usize) -> u32
    requires ordered { AreInOrder 0 sets.now }
    requires bound { count ≤ length sets.now }
    ensures { (at : ℕ) → take count sets.now ≡ front (is_passed at) sets.now → result ≡ state_from base at value sets.now }
{
    if count == 0 {
        return value;
    }
    let last = sets.at(count - 1);
    if base < last.at { last.state } else { value }
}

// The state that the sets before the moment leave, so many.
fn state_before(sets: &Sets, base: u32, value: u32, at: u32, begun: usize) -> u32
    requires ordered { AreInOrder 0 sets.now }
    requires bound { begun ≤ length sets.now }
    requires begun { take begun sets.now ≡ front (comes_before at) sets.now }
    ensures { result ≡ state_before base at value sets.now }
{
    if at == 0 {
        value
    } else {
        state_left(sets, base, value, begun)
    }
}

// The sets of a part whose step is not allowed.
fn bad_within(
    alloc: Global,
    any: bool,
    steps: &[(u32, u32)],
    counted: Span,
    moment: u32,
    value: u32,
    sets: &Sets,
    begin: usize,
    count: usize,
) -> Result<Vec<BadSet>, AllocError>
    ensures { IfOk result (λ v. v.items ≡ bad_from
        (is_allowed any steps.now) counted.from counted.to moment value (take count (drop begin sets.now))) }
{
    match sets.items.within(begin, count) {
        Some(part) => bad_of(alloc, any, steps, counted, moment, value, part),
        None => {
            let part = sets.part(alloc, begin, count)?;
            bad_of(alloc, any, steps, counted, moment, value, &part)
        }
    }
}

// The sets of the window whose step is not allowed.
pub(crate) fn bad_near(
    alloc: Global,
    any: bool,
    steps: &[(u32, u32)],
    counted: Span,
    moment: u32,
    value: u32,
    near: Span,
    sets: &Sets,
) -> Result<Vec<BadSet>, AllocError>
    requires { AreInOrder 0 sets.now }
    ensures sorted { OnOk result (AreSorted set_key sets.now) }
    ensures bad { IfOk result (λ v. v.items ≡ bad_from
        (is_allowed any steps.now) counted.from counted.to moment
        (state_before counted.from near.from value sets.now)
        (front (is_passed near.to) (back (comes_before near.from) sets.now))) }
{
    let begin = sets.begun_count(near.from);
    let state = state_before(sets, counted.from, value, near.from, begin);
    let count = sets.passed_from(begin, near.to) - begin;
    let bad = bad_within(
        alloc, any, steps, counted, moment, state, sets, begin, count,
    )?;
    Ok(bad)
}

// The state at the moment.
pub(crate) fn state_of(sets: &Sets, base: u32, value: u32, at: u32) -> u32
    requires { AreInOrder 0 sets.now }
    ensures { result ≡ state_from base at value sets.now }
{
    let count = sets.passed_count(at);
    state_left(sets, base, value, count)
}
