//! Activities that are the same, or the same but for their ids.
ghost use Rattle.std.specs.Prelude.{◌≡◌, IsTrue, Some, None, length};
ghost use Rattle.pl_lists.specs.Lists.{Pairwise};
ghost use Rattle.pl_plan.specs.Activities.{activity_of};
ghost use Rattle.pl_memo.specs.Renames.{AreTwins};

use crate::rows::find;
use pl_plan::Activity;

// Whether what two activities say of their places in the plan is the same, but for their ids.
fn have_same_place(a: &Activity, b: &Activity) -> bool
    ensures kind { IsTrue result → a.now.kind ≡ b.now.kind }
    ensures start { IsTrue result → a.now.start ≡ b.now.start }
    ensures parent { IsTrue result → a.now.parent ≡ b.now.parent }
    ensures goal { IsTrue result → a.now.goal ≡ b.now.goal }
{
    if a.kind != b.kind || a.start != b.start {
        return false;
    }
    a.parent == b.parent && a.goal == b.goal
}

fn are_same_values(values: &[Option<i64>], others: &[Option<i64>]) -> bool
    requires { length values.now ≡ length others.now }
    ensures { IsTrue result → values.now ≡ others.now }
{
    for (place, value) in values.iter().enumerate() {
        if *value != others[place] {
            return false;
        }
    }
    true
}

// Whether what was chosen, set and measured of two activities is the same.
fn have_same_values(a: &Activity, b: &Activity) -> bool
    ensures detail { IsTrue result → a.now.detail ≡ b.now.detail }
    ensures set { IsTrue result → a.now.set ≡ b.now.set }
    ensures measured { IsTrue result → a.now.measured ≡ b.now.measured }
{
    if a.detail != b.detail || a.measured != b.measured {
        return false;
    }
    if a.set.len() != b.set.len() {
        return false;
    }
    are_same_values(a.set.as_slice(), b.set.as_slice())
}

fn is_same_but_id(a: &Activity, b: &Activity) -> bool
    ensures { IsTrue result → (record a.now { id = 0 }) ≡ (record b.now { id = 0 }) }
{
    have_same_place(a, b) && have_same_values(a, b)
}

/// Whether two activities are the same in all that they say.
pub(crate) fn is_same(a: &Activity, b: &Activity) -> bool
    ensures { IsTrue result → a.now ≡ b.now }
{
    a.id == b.id && is_same_but_id(a, b)
}

/// Whether just this activity stands among others.
pub(crate) fn stands(activities: &[Activity], a: &Activity) -> bool
    ensures { IsTrue result → activity_of a.now.id activities.now ≡ Some a.now }
{
    match find(activities, a.id) {
        Some(b) => is_same(b, a),
        None => false,
    }
}

// Whether two activities are roots and the same but for their ids.
fn are_twins(a: &Activity, b: &Activity) -> bool
    ensures { IsTrue result → AreTwins a.now b.now }
{
    a.parent.is_none() && is_same_but_id(a, b)
}

/// Whether the lists are the same.
pub(crate) fn are_same(all: &[Activity], others: &[Activity]) -> bool
    requires { length all.now ≡ length others.now }
    ensures { IsTrue result → all.now ≡ others.now }
{
    for (place, a) in all.iter().enumerate() {
        if !is_same(a, &others[place]) {
            return false;
        }
    }
    true
}

/// Whether each of the first list is a root, and the same but for its id as the one at its place in the other list.
pub(crate) fn are_all_twins(all: &[Activity], others: &[Activity]) -> bool
    requires { length all.now ≡ length others.now }
    ensures { IsTrue result → Pairwise AreTwins all.now others.now }
{
    for (place, a) in all.iter().enumerate() {
        if !are_twins(a, &others[place]) {
            return false;
        }
    }
    true
}
