ghost use Rattle.std.specs.Prelude.{◌≡◌, ◌↔◌, ◌≤◌, ◌-◌, length, take, drop, ◌++◌, ◌==◌, true, not, max, min, [], OnOk, IfOk};
ghost use Rattle.pl_lists.specs.Lists.{back};
ghost use Rattle.pl_points.specs.Spans.{spans_of};
ghost use Rattle.pl_points.specs.Standing.{without};
ghost use Rattle.pl_state.specs.Keys.{is_before, AreSorted, AreRising, Has, IsRun};
ghost use Rattle.pl_state.specs.Sets.{AreInOrder, state_from};
ghost use Rattle.pl_state.specs.declared.reservation.Must.{Must};
ghost use Rattle.pl_state.specs.Musts.{must_key, same_must, with_must, holds_at, broken_spans};
ghost use Rattle.pl_state.specs.Near.{touches};
ghost use Rattle.pl_state.specs.Present.{group_at, broken_at};

use crate::answer::BrokenMust;
use crate::bound::Bound;
use crate::finding::{position_in, run_in};
use crate::key::{Key, Keyed, Run};
use crate::pieces::failing_spans;
use crate::present::Present;
use crate::reservation::Must;
use crate::rows::Rows;
use crate::sets::Sets;
use crate::starts::Starts;
use pl_points::Span;
use std::alloc::{AllocError, Global};
use std::marker::Model;

/// The musts that stand, by (id, index), and beside them by their starts.
#[derive(Drop)]
pub(crate) struct Musts {
    items: Rows<Must>,
    starts: Starts,
}

impl Model for Musts {
    ghost use Rattle.std.specs.Prelude.{List};
    ghost use Rattle.pl_state.specs.declared.reservation.Must.{Must};
    ghost use Rattle.pl_state.specs.Starts.{AreKept};

    ghost Value = { List Must };

    ghost view = { λ c. c.items };

    ghost invariant = { λ c. AreKept c.items c.starts };
}

impl Keyed for Must {
    ghost key = { must_key };

    ghost same = { same_must };

    fn key(&self) -> Key {
        Key {
            at: 0,
            id: self.id,
            index: self.index,
        }
    }

    fn is_same(&self, other: &Must) -> bool {
        self.from == other.from
            && (self.to == other.to
                && (self.id == other.id
                    && (self.index == other.index && self.state == other.state)))
    }
}

impl Musts {
    pub(crate) fn new(alloc: Global) -> Musts
        ensures { result ≡ [] }
    {
        Musts {
            items: Rows::new(alloc),
            starts: Starts::new(alloc),
        }
    }

    pub(crate) fn len(&self) -> usize
        ensures { result ≡ length self.now }
    {
        self.items.len()
    }

    /// How many come before the key.
    pub(crate) fn begun_count(&self, key: Key) -> usize
        ensures sorted { AreSorted must_key self.now }
        ensures bound { result ≤ length self.now }
        ensures rest { drop result self.now ≡ back (is_before must_key key) self.now }
    {
        self.items.count(Bound::Before(key))
    }

    /// Where those with the key stand, from a place on.
    pub(crate) fn run_of(&self, from: usize, key: Key) -> Run
        requires { from ≤ length self.now }
        ensures sorted { AreSorted must_key self.now }
        ensures begin { from ≤ result.begin }
        ensures behind { result.begin ≤ result.behind }
        ensures bound { result.behind ≤ length self.now }
        ensures cut { IsRun must_key key self.now from result.begin result.behind }
    {
        run_in(&self.items, from, key)
    }

    /// Where those of a run are broken.
    pub(crate) fn groups_in(
        &self,
        alloc: Global,
        sets: &Sets,
        present: Present,
        run: Run,
    ) -> Result<Vec<BrokenMust>, AllocError>
        requires run { run.begin ≤ run.behind }
        requires ordered { AreInOrder 0 sets.now }
        ensures { IfOk result (λ v. v.items ≡ broken_at present sets.now (take (run.behind - run.begin) (drop run.begin self.now))) }
    {
        let count = run.behind - run.begin;
        match self.items.within(run.begin, count) {
            Some(musts) => groups_of(alloc, sets, present, musts),
            None => {
                let musts = self.items.part(alloc, run.begin, count)?;
                groups_of(alloc, sets, present, &musts)
            }
        }
    }

    pub(crate) fn copy(&self, alloc: Global) -> Result<Musts, AllocError>
        ensures { IfOk result (λ c. c ≡ self.now) }
    {
        Ok(Musts {
            items: self.items.copy(alloc)?,
            starts: self.starts.copy(alloc)?,
        })
    }

    /// Puts the must in its place.
    pub(crate) fn insert(&mut self, must: Must) -> Result<(), AllocError>
        ensures sorted { AreSorted must_key self.old }
        ensures ok { OnOk result (self.new ≡ with_must must self.old) }
    {
        let place = self.items.count(Bound::Before(must.key()));
        self.starts.insert(must)?;
        match self.items.insert(place, must) {
            Ok(()) => Ok(()),
            Err(failed) => {
                self.starts.remove(must);
                Err(failed)
            }
        }
    }

    /// Takes the first such must out.
    pub(crate) fn remove(&mut self, must: Must)
        ensures sorted { AreSorted must_key self.old }
        ensures gone { self.new ≡ without same_must must self.old }
    {
        self.starts.remove(must);
        match position_in(&self.items, &must) {
            Some(place) => {
                self.items.remove(place);
            }
            None => {}
        }
    }

    /// The keys of those that have moments of the window.
    pub(crate) fn touched(&self, alloc: Global, near: Span) -> Result<Vec<Key>, AllocError>
        ensures sorted { AreSorted must_key self.now }
        ensures rising { IfOk result (λ v. AreRising v.items) }
        ensures each { IfOk result (λ v. (m : Must) → Has m self.now → touches near m ≡ true
            → Has (must_key m) v.items) }
    {
        let keys = self.starts.touched(alloc, near)?;
        Ok(keys)
    }

    /// The musts that need their states at the moment.
    pub(crate) fn at(&self, alloc: Global, t: u32) -> Result<Vec<Must>, AllocError>
        ensures { IfOk result (λ v. (m : Must) → Has m v.items ↔ (Has m self.now × (holds_at t m ≡ true))) }
    {
        let musts = self.starts.at(alloc, t)?;
        Ok(musts)
    }
}

// The moments of a must from the present one up to the horizon.
fn window_of(present: Span, from: u32, to: u32) -> Span
    ensures from { result.from ≡ max from present.from }
    ensures to { result.to ≡ max (min to present.to) (max from present.from) }
{
    let begin = from.max(present.from);
    Span {
        from: begin,
        to: to.min(present.to).max(begin),
    }
}

// Where the must is broken, from the present moment up to the horizon.
fn spans_of_must(
    alloc: Global,
    sets: &Sets,
    base: u32,
    value: u32,
    present: Span,
    must: Must,
) -> Result<Vec<Span>, AllocError>
    requires { AreInOrder 0 sets.now }
    ensures { IfOk result (λ v. v.items ≡ spans_of
        (λ t. not (state_from base t value sets.now == must.state)) (max must.from present.from)
        (min must.to present.to - max must.from present.from)) }
{
    let window = window_of(present, must.from, must.to);
    failing_spans(alloc, sets, base, value, must.state, window)
}

fn push_broken(broken: &mut Vec<BrokenMust>, must: Must, spans: &[Span]) -> Result<(), AllocError>
    ensures { OnOk result (broken.new.items ≡ broken.old.items ++ broken_spans must spans.now) }
{
    for span in spans {
        broken.push(BrokenMust {
            id: must.id,
            index: must.index,
            from: span.from,
            to: span.to,
        })?;
    }
    Ok(())
}

// Where the must is broken.
fn push_group(
    alloc: Global,
    sets: &Sets,
    present: Present,
    must: Must,
    broken: &mut Vec<BrokenMust>,
) -> Result<(), AllocError>
    requires { AreInOrder 0 sets.now }
    ensures { OnOk result (broken.new.items ≡ broken.old.items ++ group_at present sets.now must) }
{
    let window = Span {
        from: present.moment,
        to: present.horizon,
    };
    let spans = spans_of_must(alloc, sets, present.base, present.value, window, must)?;
    push_broken(broken, must, &spans)?;
    Ok(())
}

// Where the musts are broken.
fn groups_of(
    alloc: Global,
    sets: &Sets,
    present: Present,
    musts: &[Must],
) -> Result<Vec<BrokenMust>, AllocError>
    requires { AreInOrder 0 sets.now }
    ensures { IfOk result (λ v. v.items ≡ broken_at present sets.now musts.now) }
{
    let mut broken = Vec::new(alloc);
    for must in musts {
        push_group(alloc, sets, present, *must, &mut broken)?;
    }
    Ok(broken)
}
