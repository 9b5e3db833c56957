//! Marks by which a search knows plans that it has seen. Plans that differ may have one mark: then one of them is not looked at.

use pl_moves::Trial;
use pl_plan::{Activity, Plan};

// Two odd numbers whose bits look random.
const STEP: u64 = 0x9e37_79b9_7f4a_7c15;

const NOISE: u64 = 0xbf58_476d_1ce4_e5b9;

// Spreads a number over all bits.
fn mixed(number: u64) -> u64 {
    let once = (number ^ (number >> 30)).wrapping_mul(NOISE);
    let twice = (once ^ (once >> 27)).wrapping_mul(STEP);
    twice ^ (twice >> 31)
}

/// The mark of something that has this mark so far, once this number is added to it.
pub(crate) fn mark_then(mark: u64, number: u64) -> u64 {
    mixed(mark.wrapping_add(STEP) ^ number)
}

fn number_of(number: Option<u32>) -> u64 {
    match number {
        Some(number) => u64::from(number) + 1,
        None => 0,
    }
}

/// The mark of a value.
pub(crate) fn mark_of_value(value: Option<i64>) -> u64 {
    match value {
        Some(value) if value < 0 => mark_then(1, value.unsigned_abs()),
        Some(value) => mark_then(2, value.unsigned_abs()),
        None => 3,
    }
}

fn slot_of(a: &Activity) -> Option<u32> {
    match a.parent {
        Some((_, slot)) => Some(slot),
        None => None,
    }
}

// The mark of an activity, which does not depend on its id.
fn mark_of(a: &Activity) -> u64 {
    let mut mark = mark_then(u64::from(a.kind), u64::from(a.start));
    mark = mark_then(mark, number_of(a.goal));
    mark = mark_then(mark, number_of(a.detail));
    mark = mark_then(mark, number_of(slot_of(a)));
    for value in a.set.as_slice() {
        mark = mark_then(mark, mark_of_value(*value));
    }
    mark
}

// The sum of the marks of some activities, so that their order makes no difference.
fn mark_of_all(activities: &[Activity]) -> u64 {
    let mut mark: u64 = 0;
    for activity in activities {
        mark = mark.wrapping_add(mark_of(activity));
    }
    mark
}

/// The mark of a plan.
pub(crate) fn mark_of_plan(plan: &Plan) -> u64 {
    mark_of_all(plan.activities())
}

/// The mark of what a move makes of a plan of this mark.
pub(crate) fn mark_behind(mark: u64, trial: &Trial) -> u64 {
    mark.wrapping_sub(mark_of_all(&trial.undo.placed))
        .wrapping_add(mark_of_all(&trial.change.placed))
}
