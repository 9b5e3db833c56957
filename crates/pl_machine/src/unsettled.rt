//! Which activities are not settled, as ranges of ids.
ghost use Rattle.std.specs.Prelude.{◌≡◌, ℕ, ◌<◌, ◌≤◌, ◌⊎◌, ◌++◌, All, true, OnOk, IfOk};
ghost use Rattle.pl_plan.specs.Activities.{RiseFrom, AreRising};
ghost use Rattle.pl_machine.specs.Calm.{is_settled};
ghost use Rattle.pl_machine.specs.Looking.{AddsRanges};
ghost use Rattle.pl_machine.specs.IdRanges.{as_list, kept_apart, grown, last_after, ended_by};

use crate::id_range::IdRange;
use crate::period::Period;
use crate::starting::is_settled;
use pl_plan::Activity;
use std::alloc::AllocError;

// Two ids of activities that are not settled come into one range if they are nearer to each other than this.
const NEAR: u32 = 8;

// Adds a range, unless no id is in it.
fn add_range(ranges: &mut Vec<IdRange>, range: IdRange) -> Result<(), AllocError>
    ensures { OnOk result (ranges.new.items ≡ ranges.old.items ++ as_list range) }
{
    if range.from < range.to {
        ranges.push(range)?;
    }
    Ok(())
}

// The last range with one more id, or a range of its own for the id.
fn add_id(ranges: &mut Vec<IdRange>, last: IdRange, id: u32) -> Result<IdRange, AllocError>
    requires behind { last.to ≤ id }
    requires below { id < 4294967295 }
    ensures apart { OnOk result (ranges.new.items ≡ ranges.old.items ++ kept_apart last id) }
    ensures last { IfOk result (λ r. r ≡ grown last id) }
{
    if id - last.to < NEAR {
        return Ok(IdRange {
            from: last.from,
            to: id + 1,
        });
    }
    add_range(ranges, last)?;
    Ok(IdRange {
        from: id,
        to: id + 1,
    })
}

// The last range behind an activity whose id is not below it.
fn add_activity(
    ranges: &mut Vec<IdRange>,
    last: IdRange,
    period: Period,
    activity: &Activity,
) -> Result<IdRange, AllocError>
    requires behind { last.to ≤ activity.now.id }
    requires below { activity.now.id < 4294967295 }
    ensures apart { OnOk result (ranges.new.items ≡ ranges.old.items ++ ended_by period.moment period.committed last activity.now) }
    ensures last { IfOk result (λ r. r ≡ last_after period.moment period.committed last activity.now) }
{
    if is_settled(period, activity) {
        Ok(last)
    } else {
        add_id(ranges, last, activity.id)
    }
}

/// Adds ranges for those of the activities that are not settled, from an id on.
pub(crate) fn add_ranges(
    ranges: &mut Vec<IdRange>,
    period: Period,
    activities: &[Activity],
    from: u32,
) -> Result<(), AllocError>
    requires rising { RiseFrom from activities.now }
    requires below { All (λ a. a.id < 4294967295) activities.now }
    ensures { OnOk result (AddsRanges period from activities.now ranges.old.items ranges.new.items) }
{
    let mut last = IdRange { from, to: from };
    for activity in activities {
        last = add_activity(ranges, last, period, activity)?;
    }
    add_range(ranges, last)?;
    Ok(())
}

/// The least id of an activity that is not settled, or the next id if all are settled.
pub(crate) fn first_open(period: Period, activities: &[Activity], next_id: u32) -> u32
    requires rising { AreRising activities.now }
    ensures each { All (λ a. (is_settled period.moment period.committed a ≡ true) ⊎ (result ≤ a.id)) activities.now }
    ensures least { (id : ℕ) → id ≤ next_id → All (λ a. id ≤ a.id) activities.now → id ≤ result }
    ensures most { All (λ a. a.id < next_id) activities.now → result ≤ next_id }
{
    for activity in activities {
        if !is_settled(period, activity) {
            return activity.id;
        }
    }
    next_id
}
