//! A few activities by rising id.
ghost use Rattle.std.specs.Prelude.{◌≡◌, ℕ, nat_eq, nat_lt, IfOk, is_some};
ghost use Rattle.std.specs.Option.{option_map};
ghost use Rattle.std.specs.List.{position_or_len, prefix_len};
ghost use Rattle.pl_plan.specs.declared.activity.Activity.{Activity};
ghost use Rattle.pl_plan.specs.Activities as plan;

use pl_lists::Items;
use pl_plan::Activity;
use std::alloc::AllocError;

/// The activity of this id.
pub(crate) fn find(activities: &[Activity], id: u32) -> Option<&Activity>
    ensures { option_map (λ a. a.now) result ≡ plan.activity_of id activities.now }
{
    for a in activities {
        if a.id == id {
            return Some(a);
        }
    }
    None
}

/// Whether an activity of this id is among them.
pub(crate) fn has(activities: &[Activity], id: u32) -> bool
    ensures { result ≡ is_some (plan.activity_of id activities.now) }
{
    for a in activities {
        if a.id == id {
            return true;
        }
    }
    false
}

// How many have smaller ids, from the first on.
fn smaller(activities: &[Activity], id: u32) -> usize
    ensures { result ≡ prefix_len (λ (a : Activity). nat_lt a.id id) activities.now }
{
    for (place, a) in activities.iter().enumerate() {
        if id <= a.id {
            return place;
        }
    }
    activities.len()
}

// The place of the one of this id, or how many they are if it is not among them.
fn place_of(activities: &[Activity], id: u32) -> usize
    ensures { result ≡ position_or_len (λ (a : Activity). nat_eq a.id id) activities.now }
{
    for (place, a) in activities.iter().enumerate() {
        if a.id == id {
            return place;
        }
    }
    activities.len()
}

/// With one more, before the first of a larger id.
pub(crate) fn with(activities: Items<Activity>, a: Activity) -> Result<Items<Activity>, AllocError>
    ensures { IfOk result (λ l. l ≡ plan.placed a activities) }
{
    let mut list = activities.into_vec();
    let at = smaller(list.as_slice(), a.id);
    list.insert(at, a)?;
    Ok(Items::from_vec(list))
}

/// Without the one of this id.
pub(crate) fn without(activities: Items<Activity>, id: u32) -> Items<Activity>
    ensures { result ≡ plan.without id activities }
{
    let mut list = activities.into_vec();
    let at = place_of(list.as_slice(), id);
    if at < list.len() {
        list.remove(at);
        return Items::from_vec(list);
    }
    Items::from_vec(list)
}
