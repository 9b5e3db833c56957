//! A sorted list in rows, so that an item that comes or goes moves no more than a row.
ghost use Rattle.std.specs.Prelude.{◌≡◌, ◌<◌, ◌≤◌, ◌+◌, ◌-◌, ◌^◌, ◌++◌, ◌∷◌, [], suc, length, take, drop, slice_index_or, OnOk, OnErr, IfOk, IfSome, MatchOption};
ghost use Rattle.pl_lists.specs.Lists.{front, back};
ghost use Rattle.pl_state.specs.Keys.{AreSorted};
ghost use Rattle.pl_state.specs.Rows.{is_covered, last_passes, together, AreFilled, EndsAt};

use crate::bound::Bound;
use crate::filling::{begin, insert_into, spot_of, take_out};
use crate::key::Keyed;
use crate::row::Row;
use std::alloc::{AllocError, Global};
use std::marker::Model;

// So many items are looked at one by one before those behind them are searched.
const FEW: usize = 4;

/// A list in rows of 1 to 512 items.
#[derive(Drop)]
pub(crate) struct Rows<T> {
    alloc: Global,
    count: usize,
    rows: Vec<Row<T>>,
}

impl<T> Model for Rows<T> {
    ghost use Rattle.std.specs.Prelude.{List};
    ghost use Rattle.pl_state.specs.Rows.{together, AreRows};

    ghost Value = { List T };

    ghost view = { λ r. together r.rows.items };

    ghost invariant = { λ r. AreRows r.count r.rows.items };
}

// How many rows end within the bound. Most searches end in one of the last rows.
fn covered_count<T: Keyed>(rows: &[Row<T>], bound: Bound) -> usize
    requires filled { AreFilled rows.now }
    requires sorted { AreSorted T.key (together rows.now) }
    ensures bound { result ≤ length rows.now }
    ensures front { take result rows.now
        ≡ front (last_passes (is_covered T.key bound)) rows.now }
    ensures rest { drop result rows.now
        ≡ back (last_passes (is_covered T.key bound)) rows.now }
{
    for passed in 0..rows.len() {
        let row = rows.len() - passed;
        if rows[row - 1].is_covered(bound) {
            return row;
        }
    }
    0
}

// How many items come before the first that lies outside the bound, if that is one of the first few.
fn few_covered<T: Keyed>(items: &[T], bound: Bound) -> Option<usize>
    ensures { IfSome result (λ n. EndsAt (is_covered T.key bound) items.now n) }
{
    for place in 0..items.len().min(FEW) {
        if !bound.covers(items[place].key()) {
            return Some(place);
        }
    }
    None
}

// How many items the rows have.
fn length_of<T: Keyed>(rows: &[Row<T>]) -> usize
    requires { length (together rows.now) < 2 ^ 64 }
    ensures { result ≡ length (together rows.now) }
{
    let mut count = 0;
    for row in rows {
        count += row.len();
    }
    count
}

impl<T: Keyed> Rows<T> {
    pub(crate) fn new(alloc: Global) -> Rows<T>
        ensures { result ≡ [] }
    {
        Rows {
            alloc,
            count: 0,
            rows: Vec::new(alloc),
        }
    }

    pub(crate) fn copy(&self, alloc: Global) -> Result<Rows<T>, AllocError>
        ensures { IfOk result (λ c. c ≡ self.now) }
    {
        let mut rows = Vec::new(alloc);
        for row in &self.rows {
            rows.push(Row::from_slice(alloc, row.as_slice())?)?;
        }
        Ok(Rows {
            alloc,
            count: self.count,
            rows,
        })
    }

    pub(crate) fn len(&self) -> usize
        ensures { result ≡ length self.now }
    {
        self.count
    }

    pub(crate) fn at(&self, place: usize) -> T
        requires { place < length self.now }
        ensures { result ≡ slice_index_or self.now place result }
    {
        let spot = spot_of(&self.rows, self.count, place);
        self.rows[spot.row].as_slice()[spot.at]
    }

    /// Puts the item at the place.
    pub(crate) fn insert(&mut self, place: usize, item: T) -> Result<(), AllocError>
        requires { place ≤ length self.old }
        ensures ok { OnOk result (self.new ≡ take place self.old ++ item ∷ drop place self.old) }
        ensures err { OnErr result (self.new ≡ self.old) }
    {
        if self.count == usize::MAX {
            return Err(AllocError);
        }
        if self.rows.is_empty() {
            begin(self.alloc, &mut self.rows, item)?;
        } else {
            insert_into(self.alloc, &mut self.rows, self.count, place, item)?;
        }
        self.count += 1;
        Ok(())
    }

    /// Takes the item at the place out.
    pub(crate) fn remove(&mut self, place: usize)
        requires { place < length self.old }
        ensures { self.new ≡ take place self.old ++ drop (suc place) self.old }
    {
        let spot = spot_of(&self.rows, self.count, place);
        take_out(&mut self.rows, spot.row, spot.at);
        self.count -= 1;
    }

    /// How many items lie within the bound. It is inlined, since each caller has a bound of one sort.
    #[inline(always)]
    pub(crate) fn count(&self, bound: Bound) -> usize
        requires { AreSorted T.key self.now }
        ensures bound { result ≤ length self.now }
        ensures front { take result self.now ≡ front (is_covered T.key bound) self.now }
        ensures rest { drop result self.now ≡ back (is_covered T.key bound) self.now }
    {
        let whole = self.len();
        let row = covered_count(&self.rows, bound);
        if row == self.rows.len() {
            return whole;
        }
        whole - length_of(&self.rows[row..]) + self.rows[row].count(bound)
    }

    /// The place behind the items from a place on that lie within the bound.
    pub(crate) fn end_from(&self, from: usize, bound: Bound) -> usize
        requires from { from ≤ length self.now }
        requires sorted { AreSorted T.key self.now }
        ensures low { from ≤ result }
        ensures bound { result ≤ length self.now }
        ensures front { take (result - from) (drop from self.now)
            ≡ front (is_covered T.key bound) (drop from self.now) }
        ensures rest { drop result self.now
            ≡ back (is_covered T.key bound) (drop from self.now) }
    {
        self.count(bound).max(from)
    }

    /// The same, where these items are most likely few.
    pub(crate) fn end_near(&self, from: usize, bound: Bound) -> usize
        requires from { from ≤ length self.now }
        requires sorted { AreSorted T.key self.now }
        ensures low { from ≤ result }
        ensures bound { result ≤ length self.now }
        ensures front { take (result - from) (drop from self.now)
            ≡ front (is_covered T.key bound) (drop from self.now) }
        ensures rest { drop result self.now
            ≡ back (is_covered T.key bound) (drop from self.now) }
    {
        let whole = self.len();
        prove!(from <= whole);
        match self.few_from(from, bound) {
            Some(few) => from + few,
            None => self.end_from(from, bound),
        }
    }

    // How many items from the place on come before the first that lies outside the bound, if a look
    // at a few of its row shows it.
    fn few_from(&self, from: usize, bound: Bound) -> Option<usize>
        ensures { IfSome result (λ n. EndsAt (is_covered T.key bound) (drop from self.now) n) }
    {
        match self.row_from(from) {
            Some(items) => few_covered(items, bound),
            None => None,
        }
    }

    // The items of one row from the place on, if an item stands there.
    fn row_from(&self, from: usize) -> Option<&[T]>
        ensures { MatchOption result (drop from self.now ≡ []) (λ v. (0 < length v.now) × (v.now ≡ take (length v.now) (drop from self.now))) }
    {
        if from >= self.count {
            return None;
        }
        let spot = spot_of(&self.rows, self.count, from);
        Some(&self.rows[spot.row].as_slice()[spot.at..])
    }

    /// So many items from the place on, where one row has them all.
    pub(crate) fn within(&self, from: usize, count: usize) -> Option<&[T]>
        ensures { IfSome result (λ v. v.now ≡ take count (drop from self.now)) }
    {
        match self.row_from(from) {
            Some(items) => {
                if count > items.len() {
                    return None;
                }
                Some(&items[..count])
            }
            None => None,
        }
    }

    /// So many items from the place on.
    pub(crate) fn part(
        &self,
        alloc: Global,
        from: usize,
        count: usize,
    ) -> Result<Vec<T>, AllocError>
        ensures { IfOk result (λ v. v.items ≡ take count (drop from self.now)) }
    {
        let mut part = Vec::new(alloc);
        let mut skipped = from;
        let mut left = count;
        for row in &self.rows {
            if left == 0 {
                return Ok(part);
            }
            let items = row.as_slice();
            let begin = items.len().min(skipped);
            let taken = (items.len() - begin).min(left);
            part.extend_from_slice(&items[begin..begin + taken])?;
            skipped -= begin;
            left -= taken;
        }
        Ok(part)
    }
}
