ghost use Rattle.std.specs.Prelude.{◌≡◌, ◌<◌, ◌≤◌, ◌+◌, ◌^◌, true, suc, ℕ, ℤ, pos, [], ◌++◌, List, length, take, drop, OnOk, OnErr};
ghost use Rattle.pl_points.specs.Points.{sum_to, first_from, merged, AreSmall, ArePoints, RiseFrom};
ghost use Rattle.pl_points.specs.Points.{is_before, put, points_from, ahead_of, AreNear, IsNear};
ghost use Rattle.pl_lists.specs.Lists.{front, back};

use crate::points::Points;
use crate::searching::leaving;
use crate::steps::{Ledger, Steps};
use pl_lists::Copied;
use std::alloc::{AllocError, Global};
use std::marker::Model;

/// Points as a sorted vector.
#[derive(Drop)]
pub struct PlainPoints {
    points: Vec<(u32, i64)>,
    alloc: Global,
}

impl Model for PlainPoints {
    ghost Value = { List (ℕ × ℤ) };

    ghost view = { λ p. p.points.items };

    ghost invariant = { λ p. ArePoints p.points.items × (length p.points.items < 2 ^ 32) };
}

impl PlainPoints {
    /// No points yet.
    pub fn new(alloc: Global) -> PlainPoints
        ensures { result ≡ [] }
    {
        PlainPoints {
            points: Vec::new(alloc),
            alloc,
        }
    }
}

/// How many points lie before the moment.
pub fn place_of(points: &[(u32, i64)], at: u32) -> usize
    requires { RiseFrom 0 points.now }
    ensures bound { result ≤ length points.now }
    ensures before { take result points.now ≡ front (is_before at) points.now }
    ensures rest { drop result points.now ≡ back (is_before at) points.now }
{
    points.partition_point(|point| point.0 < at)
}

// Whether the points up to this place are those that lie before the moment.
fn is_last_before(points: &[(u32, i64)], place: usize, at: u32) -> bool
    requires { RiseFrom 0 points.now }
    ensures bound { result ≡ true → place < length points.now }
    ensures before { result ≡ true → take (suc place) points.now ≡ front (is_before at) points.now }
    ensures rest { result ≡ true → drop (suc place) points.now ≡ back (is_before at) points.now }
{
    if place >= points.len() {
        return false;
    }
    if points[place].0 >= at {
        return false;
    }
    if place + 1 == points.len() {
        return true;
    }
    at <= points[place + 1].0
}

// How many points lie before the moment, found at once where `near` is the place of the last of them.
fn place_near(points: &[(u32, i64)], near: usize, at: u32) -> usize
    requires { RiseFrom 0 points.now }
    ensures bound { result ≤ length points.now }
    ensures before { take result points.now ≡ front (is_before at) points.now }
    ensures rest { drop result points.now ≡ back (is_before at) points.now }
{
    if is_last_before(points, near, at) {
        near + 1
    } else {
        place_of(points, at)
    }
}

// Writes the point over the one at its place, or takes that one out where the delta is 0.
fn put_over(points: &mut Vec<(u32, i64)>, place: usize, at: u32, delta: i64)
    requires { place < length points.old.items }
    ensures { points.new.items ≡ take place points.old.items ++ put at delta (drop (suc place) points.old.items) }
{
    if delta == 0 {
        points.remove(place);
    } else {
        points[place] = (at, delta);
    }
}

// Puts the point in at its place, unless its delta is 0.
fn put_in(points: &mut Vec<(u32, i64)>, place: usize, at: u32, delta: i64) -> Result<(), AllocError>
    requires { place ≤ length points.old.items }
    ensures ok { OnOk result (points.new.items ≡ take place points.old.items ++ put at delta (drop place points.old.items)) }
    ensures err { OnErr result (points.new.items ≡ points.old.items) }
{
    if delta == 0 {
        return Ok(());
    }
    points.insert(place, (at, delta))?;
    Ok(())
}

/// Merges the delta into the points, which lie by rising moments.
pub fn merge(points: &mut Vec<(u32, i64)>, at: u32, delta: i64) -> Result<(), AllocError>
    requires rising { RiseFrom 0 points.old.items }
    requires near { AreNear (pos 0) points.old.items }
    requires delta { IsNear delta }
    ensures ok { OnOk result (points.new.items ≡ merged at delta points.old.items) }
    ensures err { OnErr result (points.new.items ≡ points.old.items) }
{
    let place = place_of(points, at);
    if place < points.len() && points[place].0 == at {
        let sum = points[place].1 + delta;
        put_over(points, place, at, sum);
        Ok(())
    } else {
        put_in(points, place, at, delta)
    }
}

impl Points for PlainPoints {
    ghost points = { λ p. p };

    ghost ahead = { points_from };

    ghost parts = { λ n. n };

    ghost change_steps = { 1 };

    ghost look_steps = { 1 };

    ghost search_steps = { 2 };

    fn add<L: Ledger>(
        &mut self,
        at: u32,
        delta: i64,
        steps: &mut Steps<L>,
    ) -> Result<(), AllocError> {
        steps.tick();
        if self.points.len() >= u32::MAX as usize {
            return Err(AllocError);
        }
        merge(&mut self.points, at, delta)
    }

    fn first_from<L: Ledger>(&self, at: u32, steps: &mut Steps<L>) -> Option<(u32, i64)> {
        steps.tick();
        let place = place_near(&self.points, steps.near(), at);
        steps.stand_at(place);
        if place < self.points.len() {
            Some(self.points[place])
        } else {
            None
        }
    }

    fn first_outside<L: Ledger>(
        &self,
        from: u32,
        before: i64,
        least: i64,
        most: i64,
        steps: &mut Steps<L>,
    ) -> Option<(u32, i64)> {
        steps.tick();
        let place = place_near(&self.points, steps.near(), from);
        steps.stand_at(place.wrapping_sub(1));
        leaving(&self.points[place..], before, least, most, steps)
    }

    fn sum_to<L: Ledger>(&self, at: u32, steps: &mut Steps<L>) -> i64 {
        steps.tick();
        let mut sum: i64 = 0;
        for point in self.points.as_slice() {
            if at < point.0 {
                return sum;
            }
            steps.tick();
            sum += point.1;
        }
        sum
    }

    fn len(&self) -> u32 {
        self.points.len() as u32
    }
}

impl Copied for PlainPoints {
    fn copy(&self, alloc: Global) -> Result<PlainPoints, AllocError> {
        Ok(PlainPoints {
            points: Vec::from_slice(alloc, self.points.as_slice())?,
            alloc,
        })
    }
}
