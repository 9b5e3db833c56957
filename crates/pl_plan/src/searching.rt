//! Where the activity of an id stands among activities of rising ids.
//!
//! Most look-ups are for activities near the end, and mostly no id is missing between such an activity and the last one: then the place
//! follows from the id.
ghost use Rattle.std.specs.Prelude.{IfOk, IfErr, IfSome, IsTrue, length};
ghost use Rattle.pl_plan.specs.Activities.{AreRising};
ghost use Rattle.pl_plan.specs.Places.{IsPlaceOf, IsGapFor};

use crate::activity::Activity;

// Whether all ids are less than this one, so that an activity of it would go to the end.
fn is_above_all(activities: &[Activity], id: u32) -> bool
    requires rising { AreRising activities.now }
    ensures { IsTrue result → IsGapFor id activities.now (length activities.now) }
{
    match activities.last() {
        Some(last) => last.id < id,
        None => true,
    }
}

// The place that is as far before the last one as the id is below the last id, if the activity of this id stands there.
fn guess(activities: &[Activity], id: u32) -> Option<usize>
    requires rising { AreRising activities.now }
    ensures { IfSome result (IsPlaceOf id activities.now) }
{
    let last = activities.last()?;
    let behind = last.id.checked_sub(id)? as usize;
    let at = activities.len().checked_sub(1 + behind)?;
    let found = activities.get(at)?;
    if found.id == id { Some(at) } else { None }
}

fn search_all(activities: &[Activity], id: u32) -> Result<usize, usize>
    requires rising { AreRising activities.now }
    ensures found { IfOk result (IsPlaceOf id activities.now) }
    ensures absent { IfErr result (IsGapFor id activities.now) }
{
    activities.binary_search_by_key(&id, |a| a.id)
}

/// Where the activity of this id is, or where it would go.
pub(crate) fn search(activities: &[Activity], id: u32) -> Result<usize, usize>
    requires rising { AreRising activities.now }
    ensures found { IfOk result (IsPlaceOf id activities.now) }
    ensures absent { IfErr result (IsGapFor id activities.now) }
{
    if is_above_all(activities, id) {
        return Err(activities.len());
    }
    match guess(activities, id) {
        Some(at) => Ok(at),
        None => search_all(activities, id),
    }
}
