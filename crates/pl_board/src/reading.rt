ghost use Rattle.std.specs.Prelude.{◌≡◌, ◌↔◌, ◌≤◌, ◌<◌, ℕ, true, false, slice_get, IfOk};
ghost use Rattle.std.specs.Option.{option_copied};
ghost use Rattle.pl_model.specs.Checked.{IsCapacityLine, IsLevelLine};
ghost use Rattle.pl_points.specs.Sums.{IsSmall};
ghost use Rattle.pl_points.specs.Points.{is_out};
ghost use Rattle.pl_semantics.specs.Demands.{demands_of, sets_of, musts_of, use_at, level_at, state_at};
ghost use Rattle.pl_detect.specs.Based.{IsStateLine};
ghost use Rattle.pl_semantics.specs.PlanStates.{floor_of};
ghost use Rattle.pl_state.specs.declared.reservation.Must.{Must};
ghost use Rattle.pl_state.specs.Keys.{Has};
ghost use Rattle.pl_state.specs.Musts.{holds_at};
ghost use Rattle.pl_state.specs.Sets.{last_by};
ghost use Rattle.pl_update.specs.Evaluations.Kept.{come_to};

use crate::board::Board;
use pl_facts::{Bases, Goals};
use pl_model::Model;
use pl_plan::{Evaluated, Plan};
use pl_state::{Must, Setting};
use std::alloc::AllocError;

impl Board {
    /// The model that is planned for.
    pub fn model(&self) -> &Model
        ensures { result.now ≡ self.now.state.model }
    {
        self.state().model.get()
    }

    /// What is placed.
    pub fn plan(&self) -> &Plan
        ensures { result.now ≡ self.now.state.plan }
    {
        &self.state().plan
    }

    /// What the live activity of this id comes to. It is kept, so nothing is worked out.
    pub fn evaluated(&self, id: u32) -> Option<&Evaluated>
        requires { self.now.spoiled ≡ false }
        ensures { option_copied result ≡ come_to self.now.state.model self.now.state.plan.activities id }
    {
        self.watched().values.of(id)
    }

    /// The accepted goals, dropped ones too.
    pub fn goals(&self) -> &Goals
        ensures { result.now ≡ self.now.state.goals }
    {
        &self.state().goals
    }

    /// What was told last of each timeline.
    pub fn bases(&self) -> &Bases
        ensures { result.now ≡ self.now.state.bases }
    {
        &self.state().bases
    }

    /// The present.
    pub fn now(&self) -> u32
        ensures { result ≡ self.now.state.moment }
    {
        self.state().moment
    }

    /// What starts before this is committed.
    pub fn committed(&self) -> u32
        ensures { result ≡ self.now.state.committed }
    {
        self.state().committed
    }

    /// The least start that a repair may give. A spoiled board tells any number here.
    pub fn floor(&self) -> u32
        ensures { self.now.spoiled ≡ false → result ≡ floor_of self.now.state }
    {
        if self.spoiled() {
            return 0;
        }
        self.state().floor()
    }

    /// The id of the next activity.
    pub fn next_id(&self) -> u32
        ensures { result ≡ self.now.state.next_id }
    {
        self.state().next_id
    }

    /// How many activities may be live.
    pub fn live_limit(&self) -> u32
        ensures { result ≡ self.now.state.live_limit }
    {
        self.state().live_limit
    }

    /// How much of a capacity is in use at a moment. A spoiled board may be asked for any, and tells any number.
    pub fn use_at(&self, line: u32, t: u32) -> i64
        requires capacity { self.now.spoiled ≡ false → IsCapacityLine (slice_get self.now.state.model.timelines line) }
        requires now { self.now.spoiled ≡ false → self.now.state.moment ≤ t }
        requires before_horizon { self.now.spoiled ≡ false → t < self.now.state.model.horizon }
        ensures { self.now.spoiled ≡ false → result ≡ use_at self.now.state line t }
    {
        if self.spoiled() {
            return 0;
        }
        self.watched().lines.use_at(line, t)
    }

    /// The level at a moment, under the same conditions.
    pub fn level_at(&self, line: u32, t: u32) -> i64
        requires level { self.now.spoiled ≡ false → IsLevelLine (slice_get self.now.state.model.timelines line) }
        requires now { self.now.spoiled ≡ false → self.now.state.moment ≤ t }
        requires before_horizon { self.now.spoiled ≡ false → t < self.now.state.model.horizon }
        ensures { self.now.spoiled ≡ false → result ≡ level_at self.now.state line t }
    {
        if self.spoiled() {
            return 0;
        }
        self.watched().lines.level_at(line, t)
    }

    /// The first moment from `from` on and before `to` at which the level is below `least` or above `most`, or else `to`,
    /// under conditions like those of `level_at`.
    pub fn level_until(&self, line: u32, from: u32, to: u32, least: i64, most: i64) -> u32
        requires level { self.now.spoiled ≡ false → IsLevelLine (slice_get self.now.state.model.timelines line) }
        requires now { self.now.spoiled ≡ false → self.now.state.moment ≤ from }
        requires order { self.now.spoiled ≡ false → from ≤ to }
        requires horizon { self.now.spoiled ≡ false → to ≤ self.now.state.model.horizon }
        requires least { IsSmall least }
        requires most { IsSmall most }
        ensures low { from ≤ result }
        ensures bound { from ≤ to → result ≤ to }
        ensures within { self.now.spoiled ≡ false → (t : ℕ) → from ≤ t → t < result → is_out least most (level_at self.now.state line t) ≡ false }
        ensures leaves { self.now.spoiled ≡ false → result < to → is_out least most (level_at self.now.state line result) ≡ true }
    {
        if self.spoiled() {
            return from;
        }
        self.watched()
            .lines
            .level_until(line, from, to, least, most)
    }

    /// The number of the state at a moment, under the same conditions.
    pub fn state_at(&self, line: u32, t: u32) -> u32
        requires states { self.now.spoiled ≡ false → IsStateLine (slice_get self.now.state.model.timelines line) }
        requires now { self.now.spoiled ≡ false → self.now.state.moment ≤ t }
        requires before_horizon { self.now.spoiled ≡ false → t < self.now.state.model.horizon }
        ensures { self.now.spoiled ≡ false → result ≡ state_at self.now.state line t }
    {
        if self.spoiled() {
            return 0;
        }
        self.watched().lines.state_at(line, t)
    }

    /// The last set of the timeline that is at a moment or before it, if there is one, under the same conditions. A spoiled board tells none.
    pub fn last_set(&self, line: u32, t: u32) -> Option<Setting>
        requires states { self.now.spoiled ≡ false → IsStateLine (slice_get self.now.state.model.timelines line) }
        requires now { self.now.spoiled ≡ false → self.now.state.moment ≤ t }
        requires before_horizon { self.now.spoiled ≡ false → t < self.now.state.model.horizon }
        ensures { self.now.spoiled ≡ false → result ≡ last_by t (sets_of line (demands_of self.now.state)) }
    {
        if self.spoiled() {
            return None;
        }
        self.watched().lines.last_set(line, t)
    }

    /// The musts that need their states of the timeline at a moment, under the same conditions. A spoiled board tells none.
    pub fn musts_at(&self, line: u32, t: u32) -> Result<Vec<Must>, AllocError>
        requires states { self.now.spoiled ≡ false → IsStateLine (slice_get self.now.state.model.timelines line) }
        requires now { self.now.spoiled ≡ false → self.now.state.moment ≤ t }
        requires before_horizon { self.now.spoiled ≡ false → t < self.now.state.model.horizon }
        ensures { self.now.spoiled ≡ false → IfOk result (λ v. (m : Must) → Has m v.items ↔ (Has m (musts_of line (demands_of self.now.state)) × (holds_at t m ≡ true))) }
    {
        if self.spoiled() {
            return Ok(Vec::new(self.alloc()));
        }
        self.watched().lines.musts_at(self.alloc(), line, t)
    }
}
