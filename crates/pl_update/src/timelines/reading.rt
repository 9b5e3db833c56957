//! What timelines come to and need at a moment, and how long a level stays between two bounds.
ghost use Rattle.std.specs.Prelude.{◌≡◌, ◌↔◌, ◌<◌, ◌≤◌, ℕ, true, false, slice_get, IfOk};
ghost use Rattle.pl_points.specs.Sums.{IsSmall};
ghost use Rattle.pl_points.specs.Points.{is_out};
ghost use Rattle.pl_state.specs.declared.reservation.Must.{Must};
ghost use Rattle.pl_state.specs.Keys.{Has};
ghost use Rattle.pl_state.specs.Musts.{holds_at};
ghost use Rattle.pl_state.specs.Sets.{last_by};
ghost use Rattle.pl_update.specs.Timelines.Readings.{IsCapacityAt, IsLevelAt, IsLevelIn, AreStatesAt, used_of, level_of, state_of, sets_standing, musts_standing};

use crate::timelines::line::Line;
use crate::timelines::lines::Lines;
use pl_points::{Quiet, Span, Steps};
use pl_state::{Must, Setting};
use std::alloc::{AllocError, Global};

impl Lines {
    /// What is in use of a capacity.
    pub fn use_at(&self, line: u32, t: u32) -> i64
        requires { IsCapacityAt t (slice_get self.now line) }
        ensures { result ≡ used_of t (slice_get self.now line) }
    {
        match &self.all[line as usize] {
            Line::Capacity(capacity) => capacity.at(t, &mut Steps::new(Quiet)),
            _ => unreachable!(),
        }
    }

    /// The level.
    pub fn level_at(&self, line: u32, t: u32) -> i64
        requires { IsLevelAt t (slice_get self.now line) }
        ensures { result ≡ level_of t (slice_get self.now line) }
    {
        match &self.all[line as usize] {
            Line::Level(level) => level.at(t, &mut Steps::new(Quiet)),
            _ => unreachable!(),
        }
    }

    /// The first moment from `from` on and before `to` at which the level is below `least` or above `most`, or else `to`.
    pub fn level_until(&self, line: u32, from: u32, to: u32, least: i64, most: i64) -> u32
        requires window { IsLevelIn from to (slice_get self.now line) }
        requires least { IsSmall least }
        requires most { IsSmall most }
        ensures low { from ≤ result }
        ensures bound { result ≤ to }
        ensures within { (t : ℕ) → from ≤ t → t < result → is_out least most (level_of t (slice_get self.now line)) ≡ false }
        ensures leaves { result < to → is_out least most (level_of result (slice_get self.now line)) ≡ true }
    {
        match &self.all[line as usize] {
            Line::Level(level) => {
                level.within_until(least, most, Span { from, to }, &mut Steps::new(Quiet))
            }
            _ => unreachable!(),
        }
    }

    /// The number of the state.
    pub fn state_at(&self, line: u32, t: u32) -> u32
        requires { AreStatesAt t (slice_get self.now line) }
        ensures { result ≡ state_of t (slice_get self.now line) }
    {
        match &self.all[line as usize] {
            Line::States(states) => states.at(t),
            _ => unreachable!(),
        }
    }

    /// The last set of the states that is at a moment or before it, if there is one.
    pub fn last_set(&self, line: u32, t: u32) -> Option<Setting>
        requires { AreStatesAt t (slice_get self.now line) }
        ensures { result ≡ last_by t (sets_standing (slice_get self.now line)) }
    {
        match &self.all[line as usize] {
            Line::States(states) => states.last_set(t),
            _ => unreachable!(),
        }
    }

    /// The musts that need their states at a moment.
    pub fn musts_at(&self, alloc: Global, line: u32, t: u32) -> Result<Vec<Must>, AllocError>
        requires { AreStatesAt t (slice_get self.now line) }
        ensures { IfOk result (λ v. (m : Must) → Has m v.items ↔ (Has m (musts_standing (slice_get self.now line)) × (holds_at t m ≡ true))) }
    {
        match &self.all[line as usize] {
            Line::States(states) => states.musts_at(alloc, t),
            _ => unreachable!(),
        }
    }
}
