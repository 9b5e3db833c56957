ghost use Rattle.std.specs.Prelude.{◌≡◌, ◌↔◌, [], true, take, drop, OnOk, OnErr, IfOk};
ghost use Rattle.pl_points.specs.Standing.{without};
ghost use Rattle.pl_state.specs.declared.reservation.Must.{Must};
ghost use Rattle.pl_state.specs.Keys.{AreSorted, AreRising, Has};
ghost use Rattle.pl_state.specs.Musts.{must_key, holds_at};
ghost use Rattle.pl_state.specs.Starts.{started, start_key, same_started, with_started, holding_at};
ghost use Rattle.pl_state.specs.Near.{touches, touched_keys};

use crate::bound::Bound;
use crate::finding::position_in;
use crate::key::{Key, Keyed};
use crate::reservation::{Must, Started};
use crate::rows::Rows;
use pl_points::Span;
use std::alloc::{AllocError, Global};
use std::marker::Model;

impl Keyed for Started {
    ghost use Rattle.pl_state.specs.Starts.{start_key, same_started};

    ghost key = { start_key };

    ghost same = { same_started };

    fn key(&self) -> Key {
        Key {
            at: self.must.from,
            id: self.must.id,
            index: self.must.index,
        }
    }

    fn is_same(&self, other: &Started) -> bool {
        self.must.is_same(&other.must)
    }
}

/// The musts by (start, id, index), none of which is longer than the longest that ever stood.
#[derive(Drop)]
pub(crate) struct Starts {
    items: Rows<Started>,
    longest: u32,
}

impl Model for Starts {
    ghost use Rattle.std.specs.Prelude.{List};
    ghost use Rattle.pl_state.specs.declared.reservation.Started.{Started};
    ghost use Rattle.pl_state.specs.Starts.{IsIndex};

    ghost Value = { List Started };

    ghost view = { λ c. c.items };

    ghost invariant = { λ c. IsIndex c.longest c.items };
}

// Whether the must has moments of the window.
fn touches(near: Span, must: Must) -> bool
    ensures { result ≡ touches near must }
{
    must.from < near.to && near.from < must.to
}

// The keys of those that have moments of the window.
fn touched_keys(alloc: Global, near: Span, starts: &[Started]) -> Result<Vec<Key>, AllocError>
    ensures { IfOk result (λ v. v.items ≡ touched_keys near starts.now) }
{
    let mut keys = Vec::new(alloc);
    for start in starts {
        if touches(near, start.must) {
            keys.push(start.must.key())?;
        }
    }
    Ok(keys)
}

// Whether the must needs its state at the moment.
fn holds_at(t: u32, must: Must) -> bool
    ensures { result ≡ holds_at t must }
{
    must.from <= t && t < must.to
}

// The musts among these that need their states at the moment.
fn holding_at(alloc: Global, t: u32, starts: &[Started]) -> Result<Vec<Must>, AllocError>
    ensures { IfOk result (λ v. v.items ≡ holding_at t starts.now) }
{
    let mut musts = Vec::new(alloc);
    for start in starts {
        if holds_at(t, start.must) {
            musts.push(start.must)?;
        }
    }
    Ok(musts)
}

impl Starts {
    pub(crate) fn new(alloc: Global) -> Starts
        ensures { result ≡ [] }
    {
        Starts {
            items: Rows::new(alloc),
            longest: 0,
        }
    }

    pub(crate) fn copy(&self, alloc: Global) -> Result<Starts, AllocError>
        ensures { IfOk result (λ c. c ≡ self.now) }
    {
        Ok(Starts {
            items: self.items.copy(alloc)?,
            longest: self.longest,
        })
    }

    pub(crate) fn insert(&mut self, must: Must) -> Result<(), AllocError>
        ensures ok { OnOk result (self.new ≡ with_started (started must) self.old) }
        ensures err { OnErr result (self.new ≡ self.old) }
    {
        let start = Started { must };
        let place = self.items.count(Bound::Before(start.key()));
        self.longest = self.longest.max(must.to.saturating_sub(must.from));
        self.items.insert(place, start)?;
        Ok(())
    }

    /// Takes the first such must out.
    pub(crate) fn remove(&mut self, must: Must)
        ensures { self.new ≡ without same_started (started must) self.old }
    {
        if let Some(place) = position_in(&self.items, &Started { must }) {
            self.items.remove(place);
        }
    }

    // The same of so many musts from a place on.
    fn touched_in(
        &self,
        alloc: Global,
        near: Span,
        begin: usize,
        count: usize,
    ) -> Result<Vec<Key>, AllocError>
        ensures { IfOk result (λ v. v.items ≡ touched_keys near (take count (drop begin self.now))) }
    {
        match self.items.within(begin, count) {
            Some(starts) => touched_keys(alloc, near, starts),
            None => {
                let starts = self.items.part(alloc, begin, count)?;
                touched_keys(alloc, near, &starts)
            }
        }
    }

    /// The keys of the musts that have moments of the window.
    pub(crate) fn touched(&self, alloc: Global, near: Span) -> Result<Vec<Key>, AllocError>
        ensures rising { IfOk result (λ v. AreRising v.items) }
        ensures each { IfOk result (λ v. (m : Must) → Has (started m) self.now
            → touches near m ≡ true → Has (must_key m) v.items) }
    {
        let begin = Key {
            at: near.from.saturating_sub(self.longest),
            id: 0,
            index: 0,
        };
        let behind = Key {
            at: near.to,
            id: 0,
            index: 0,
        };
        let first = self.items.count(Bound::Before(begin));
        let end = self.items.end_near(first, Bound::Before(behind));
        let mut keys = self.touched_in(alloc, near, first, end - first)?;
        keys.sort_unstable();
        Ok(keys)
    }

    /// The musts that need their states at the moment.
    pub(crate) fn at(&self, alloc: Global, t: u32) -> Result<Vec<Must>, AllocError>
        ensures { IfOk result (λ v. (m : Must) → Has m v.items ↔ (Has (started m) self.now × (holds_at t m ≡ true))) }
    {
        let begin = Key {
            at: t.saturating_sub(self.longest),
            id: 0,
            index: 0,
        };
        let first = self.items.count(Bound::Before(begin));
        let end = self.items.end_near(first, Bound::By(t));
        let starts = self.items.part(alloc, first, end - first)?;
        let musts = holding_at(alloc, t, &starts)?;
        Ok(musts)
    }
}
