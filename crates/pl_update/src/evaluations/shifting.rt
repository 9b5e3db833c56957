//! Activities that come again at other starts: nothing is worked out anew.
ghost use Rattle.std.specs.Prelude.{◌≡◌, Some, map};
ghost use Rattle.std.specs.Bool.{Decides};
ghost use Rattle.std.specs.Option.{option_map};
ghost use Rattle.pl_plan.specs.Activities.{activity_of};
ghost use Rattle.pl_plan.specs.Trees.{id_of};
ghost use Rattle.pl_update.specs.Evaluations.Shifted.{still, start_before, IsElsewhere, IsShift, KeepsShifted};

use crate::evaluations::evaluations::Evaluations;
use pl_plan::Activity;
use pl_semantics::PlanState;

// Whether those that come have the ids that go, in the same order.
fn have_the_same_ids(gone: &[u32], placed: &[Activity]) -> bool
    ensures { Decides result (gone.now ≡ map id_of placed.now) }
{
    if placed.len() != gone.len() {
        return false;
    }
    for (place, id) in gone.iter().enumerate() {
        if placed[place].id != *id {
            return false;
        }
    }
    true
}

fn stand_alike(a: &Activity, b: &Activity) -> bool
    ensures { Decides result ((b.now.id ≡ a.now.id) × (b.now.kind ≡ a.now.kind) × (b.now.parent ≡ a.now.parent)) }
{
    a.id == b.id && a.kind == b.kind && a.parent == b.parent
}

fn are_set_alike(a: &Activity, b: &Activity) -> bool
    ensures { Decides result (b.now.set ≡ a.now.set) }
{
    a.set.as_slice() == b.set.as_slice()
}

fn are_made_alike(a: &Activity, b: &Activity) -> bool
    ensures { Decides result ((b.now.goal ≡ a.now.goal) × (b.now.detail ≡ a.now.detail) × (b.now.set ≡ a.now.set)) }
{
    a.goal == b.goal && a.detail == b.detail && are_set_alike(a, b)
}

fn are_ended_alike(a: &Activity, b: &Activity) -> bool
    ensures { Decides result (b.now.measured ≡ a.now.measured) }
{
    a.measured == b.measured
}

fn are_alike(a: &Activity, b: &Activity) -> bool
    ensures { Decides result (still b.now ≡ still a.now) }
{
    stand_alike(a, b) && are_made_alike(a, b) && are_ended_alike(a, b)
}

// Whether an activity is, but for its start, the live one of its id, and its end was not measured.
fn is_elsewhere(s: &PlanState, a: &Activity) -> bool
    ensures { Decides result (IsElsewhere s.now.plan.activities a.now) }
{
    a.measured.is_none() && is_live_elsewhere(s, a)
}

// Whether an activity is, but for its start, the live one of its id.
fn is_live_elsewhere(s: &PlanState, a: &Activity) -> bool
    ensures { Decides result (option_map still (activity_of a.now.id s.now.plan.activities) ≡ Some (still a.now)) }
{
    match s.plan.get(a.id) {
        Some(b) => are_alike(a, b),
        None => false,
    }
}

/// Whether those that come are those that go, at other starts at most, and none has a measured end.
pub(crate) fn is_shift(s: &PlanState, gone: &[u32], placed: &[Activity]) -> bool
    ensures { Decides result (IsShift s.now.plan.activities gone.now placed.now) }
{
    if !have_the_same_ids(gone, placed) {
        return false;
    }
    for a in placed {
        if !is_elsewhere(s, a) {
            return false;
        }
    }
    true
}

// The start of the live activity of its id.
fn start_before(s: &PlanState, a: &Activity) -> u32
    ensures { result ≡ start_before s.now.plan.activities a.now }
{
    match s.plan.get(a.id) {
        Some(b) => b.start,
        None => a.start,
    }
}

impl Evaluations {
    /// Before activities come again at other starts: moves the ends that are kept along with them.
    pub(crate) fn shift(&mut self, s: &PlanState, placed: &[Activity])
        ensures { KeepsShifted s.now placed.now self.old self.new }
    {
        for a in placed {
            self.move_end(a.id, start_before(s, a), a.start);
        }
    }
}
