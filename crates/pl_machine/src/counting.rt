//! How many activities at the front of a list have lower ids than a given one.
ghost use Rattle.std.specs.Prelude.{◌≡◌, ◌≤◌, length, take, drop};
ghost use Rattle.pl_plan.specs.Activities.{AreRising};
ghost use Rattle.pl_machine.specs.Looking.{AreBelow};

use pl_plan::Activity;

fn count_all_below(activities: &[Activity], id: u32) -> usize
    requires { AreRising activities.now }
    ensures { AreBelow id result activities.now }
{
    activities.partition_point(|activity| activity.id < id)
}

/// How many of the activities have lower ids. Mostly none has, and a look at the first one shows it.
pub(crate) fn count_below(activities: &[Activity], id: u32) -> usize
    requires { AreRising activities.now }
    ensures { AreBelow id result activities.now }
{
    match activities.first() {
        Some(activity) if id <= activity.id => 0,
        _ => count_all_below(activities, id),
    }
}

/// The same, for where few have.
pub(crate) fn count_few_below(activities: &[Activity], id: u32) -> usize
    requires { AreRising activities.now }
    ensures { AreBelow id result activities.now }
{
    for (place, activity) in activities.iter().enumerate() {
        if id <= activity.id {
            return place;
        }
    }
    activities.len()
}

/// The activities from a place on.
pub(crate) fn behind(activities: &[Activity], place: usize) -> &[Activity]
    requires { place ≤ length activities.now }
    ensures { result.now ≡ drop place activities.now }
{
    &activities[place..]
}

/// This many activities at the front of the list.
pub(crate) fn first_of(activities: &[Activity], count: usize) -> &[Activity]
    requires { count ≤ length activities.now }
    ensures { result.now ≡ take count activities.now }
{
    &activities[..count]
}
