//! What a look at the activities of a plan finds.
ghost use Rattle.std.specs.Prelude.{◌≡◌, ℕ, ◌<◌, ◌≤◌, [], ◌∷◌, ◌++◌, All, List, length, drop, OnOk, IfOk};
ghost use Rattle.pl_plan.specs.Activities.{RiseFrom, AreRising};
ghost use Rattle.pl_machine.specs.declared.id_range.IdRange.{IdRange};
ghost use Rattle.pl_machine.specs.Calm.{StartsNone, next_start, AreRanges, IsKnown};
ghost use Rattle.pl_machine.specs.Looking.{starts_in, HasLooked, SeesTo};

use crate::counting::{behind, count_below, count_few_below, first_of};
use crate::id_range::IdRange;
use crate::period::Period;
use crate::starting::{is_due_since, nearer};
use crate::unsettled::{add_ranges, first_open};
use pl_model::Model;
use pl_plan::Activity;
use std::alloc::{AllocError, Global};

// If no more activities than this are behind what was seen, no ranges are made of them.
const FEW: usize = 48;

/// What was found at the activities that were looked at, by rising id.
#[derive(Drop)]
pub(crate) struct Found {
    /// The starts of those that have come to be due, with their ids.
    pub(crate) starts: Vec<(u32, u32)>,
    /// Each one is settled, or its id is in one of these ranges.
    pub(crate) ranges: Vec<IdRange>,
    /// None of them starts after the present and before this moment.
    pub(crate) next_start: u32,
}

fn add_start(
    starts: &mut Vec<(u32, u32)>,
    model: &Model,
    period: Period,
    activity: &Activity,
) -> Result<(), AllocError>
    requires { activity.now.kind < length model.now.kinds }
    ensures { OnOk result (starts.new.items ≡ starts.old.items ++ starts_in model.now period (activity.now ∷ [])) }
{
    if is_due_since(model, period, activity) {
        starts.push((activity.start, activity.id))?;
    }
    Ok(())
}

/// Adds the starts of those of the activities that have come to be due, and answers the next start.
fn add_starts(
    starts: &mut Vec<(u32, u32)>,
    model: &Model,
    period: Period,
    activities: &[Activity],
    before: u32,
) -> Result<u32, AllocError>
    requires { All (λ a. a.kind < length model.now.kinds) activities.now }
    ensures starts { OnOk result (starts.new.items ≡ starts.old.items ++ starts_in model.now period activities.now) }
    ensures next { IfOk result (λ next. next ≡ next_start period.moment before activities.now) }
{
    let mut next = before;
    for activity in activities {
        add_start(starts, model, period, activity)?;
        next = nearer(period.moment, next, activity.start);
    }
    Ok(next)
}

impl Found {
    pub(crate) fn new(alloc: Global) -> Found {
        Found {
            starts: Vec::new(alloc),
            ranges: Vec::new(alloc),
            next_start: u32::MAX,
        }
    }

    /// Forgets what the last look found.
    fn clear(&mut self)
        ensures starts { self.new.starts.items ≡ [] }
        ensures ranges { self.new.ranges.items ≡ [] }
        ensures next { self.new.next_start ≡ 4294967295 }
    {
        self.starts.clear();
        self.ranges.clear();
        self.next_start = u32::MAX;
    }

    /// Looks at the activities whose ids are in a range, and answers the place behind them.
    fn see_range(
        &mut self,
        model: &Model,
        period: Period,
        activities: &[Activity],
        place: usize,
        range: IdRange,
    ) -> Result<usize, AllocError>
        requires rising { AreRising activities.now }
        requires kinds { All (λ a. a.kind < length model.now.kinds) activities.now }
        requires below { All (λ a. a.id < 4294967295) activities.now }
        requires later { period.before ≤ period.moment }
        requires place { place ≤ length activities.now }
        ensures { IfOk result (λ end. (seen : ℕ) (left : List IdRange)
            → HasLooked model.now period activities.now seen place (range ∷ left) self.old.starts.items self.old.ranges.items self.old.next_start
            → HasLooked model.now period activities.now seen end left self.new.starts.items self.new.ranges.items self.new.next_start) }
    {
        let others = behind(activities, place);
        let skipped = count_below(others, range.from);
        let rest = behind(others, skipped);
        let count = count_few_below(rest, range.to);
        let within = first_of(rest, count);
        self.next_start = add_starts(&mut self.starts, model, period, within, self.next_start)?;
        add_ranges(&mut self.ranges, period, within, range.from)?;
        Ok(place + skipped + count)
    }

    /// Looks at the activities whose ids are in the ranges, and answers the place behind them.
    fn see_ranges(
        &mut self,
        model: &Model,
        period: Period,
        activities: &[Activity],
        ranges: &[IdRange],
        seen: u32,
    ) -> Result<usize, AllocError>
        requires rising { AreRising activities.now }
        requires kinds { All (λ a. a.kind < length model.now.kinds) activities.now }
        requires below { All (λ a. a.id < 4294967295) activities.now }
        requires later { period.before ≤ period.moment }
        requires looked { HasLooked model.now period activities.now seen 0 ranges.now self.old.starts.items self.old.ranges.items self.old.next_start }
        ensures { IfOk result (λ end. HasLooked model.now period activities.now seen end [] self.new.starts.items self.new.ranges.items self.new.next_start) }
    {
        let mut place = 0;
        for range in ranges {
            place = self.see_range(model, period, activities, place, *range)?;
        }
        Ok(place)
    }

    /// Looks at the activities behind what was seen, and answers the id up to which all are seen now.
    fn see_rest(
        &mut self,
        model: &Model,
        period: Period,
        activities: &[Activity],
        seen: u32,
        next_id: u32,
    ) -> Result<u32, AllocError>
        requires rising { RiseFrom seen activities.now }
        requires kinds { All (λ a. a.kind < length model.now.kinds) activities.now }
        requires ids { All (λ a. a.id < next_id) activities.now }
        requires seen { seen ≤ next_id }
        ensures starts { OnOk result (self.new.starts.items ≡ self.old.starts.items ++ starts_in model.now period activities.now) }
        ensures next { OnOk result (self.new.next_start ≡ next_start period.moment self.old.next_start activities.now) }
        ensures ranges { IfOk result (λ end. SeesTo period seen next_id end activities.now self.old.ranges.items self.new.ranges.items) }
    {
        self.next_start = add_starts(&mut self.starts, model, period, activities, self.next_start)?;
        if activities.len() <= FEW {
            return Ok(first_open(period, activities, next_id));
        }
        add_ranges(&mut self.ranges, period, activities, seen)?;
        Ok(next_id)
    }

    /// Looks at the activities that may not be settled, and answers the id up to which all are seen now.
    pub(crate) fn look(
        &mut self,
        model: &Model,
        period: Period,
        activities: &[Activity],
        ranges: &[IdRange],
        seen: u32,
        next_id: u32,
    ) -> Result<u32, AllocError>
        requires rising { AreRising activities.now }
        requires kinds { All (λ a. a.kind < length model.now.kinds) activities.now }
        requires ids { All (λ a. a.id < next_id) activities.now }
        requires later { period.before ≤ period.moment }
        requires known { All (IsKnown period.before period.committed seen ranges.now) activities.now }
        requires order { AreRanges 0 ranges.now seen }
        requires seen { seen ≤ next_id }
        ensures starts { OnOk result (self.new.starts.items ≡ starts_in model.now period activities.now) }
        ensures calm { OnOk result (StartsNone period.moment self.new.next_start activities.now) }
        ensures known { IfOk result (λ end. All (IsKnown period.moment period.committed end self.new.ranges.items) activities.now) }
        ensures order { IfOk result (λ end. AreRanges 0 self.new.ranges.items end) }
        ensures seen { IfOk result (λ end. end ≤ next_id) }
    {
        self.clear();
        let place = self.see_ranges(model, period, activities, ranges, seen)?;
        let others = behind(activities, place);
        let skipped = count_below(others, seen);
        let rest = behind(others, skipped);
        let end = self.see_rest(model, period, rest, seen, next_id)?;
        Ok(end)
    }
}
