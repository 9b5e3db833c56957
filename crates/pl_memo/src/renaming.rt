//! Whether a plan differs from another one by the ids of its newest roots alone, and moves under the other ids.
ghost use Rattle.std.specs.Prelude.{◌≡◌, ◌++◌, IsTrue, length, map};
ghost use Rattle.pl_plan.specs.Activities.{AreRising};
ghost use Rattle.pl_memo.specs.Renames.{OnlyRenames, renamed, renamed_move};

use crate::difference::Difference;
use crate::same::{are_all_twins, are_same};
use pl_plan::{Activity, RepairMove};

// Whether all of the rest have smaller ids than those that are gone.
fn stand_before(rest: &[Activity], gone: &[Activity]) -> bool
    requires rest { AreRising rest.now }
    requires gone { AreRising gone.now }
    ensures { IsTrue result → AreRising (rest.now ++ gone.now) }
{
    match (rest.last(), gone.first()) {
        (Some(a), Some(b)) => a.id < b.id,
        _ => true,
    }
}

/// Whether the difference gives other ids to the newest of these activities and changes nothing else.
pub(crate) fn only_renames(since: &Difference, activities: &[Activity]) -> bool
    requires rising { AreRising activities.now }
    requires gone { AreRising since.now.gone }
    ensures { IsTrue result → OnlyRenames since.now activities.now }
{
    let gone = since.gone.as_slice();
    let placed = since.placed.as_slice();
    if gone.len() != placed.len() || activities.len() < placed.len() {
        return false;
    }
    let (rest, newest) = activities.split_at(activities.len() - placed.len());
    if !are_same(newest, placed) {
        return false;
    }
    if !stand_before(rest, gone) {
        return false;
    }
    are_all_twins(gone, placed)
}

// The id that stands for this one.
fn renamed(gone: &[Activity], placed: &[Activity], id: u32) -> u32
    requires { length gone.now ≡ length placed.now }
    ensures { result ≡ renamed gone.now placed.now id }
{
    for (place, a) in gone.iter().enumerate() {
        if a.id == id {
            return placed[place].id;
        }
    }
    id
}

fn renamed_by(since: &Difference, id: u32) -> u32
    requires { length since.now.gone ≡ length since.now.placed }
    ensures { result ≡ renamed since.now.gone since.now.placed id }
{
    renamed(since.gone.as_slice(), since.placed.as_slice(), id)
}

// The move with the ids that stand for its own.
fn renamed_move(since: &Difference, mv: &RepairMove) -> RepairMove
    requires { length since.now.gone ≡ length since.now.placed }
    ensures { result ≡ renamed_move since.now mv.now }
{
    match *mv {
        RepairMove::Delete { id } => RepairMove::Delete {
            id: renamed_by(since, id),
        },
        RepairMove::Shift { id, start } => RepairMove::Shift {
            id: renamed_by(since, id),
            start,
        },
        RepairMove::Detail { id, alternative } => RepairMove::Detail {
            id: renamed_by(since, id),
            alternative,
        },
        RepairMove::Abstract { id } => RepairMove::Abstract {
            id: renamed_by(since, id),
        },
        RepairMove::Assign { id, param, value } => RepairMove::Assign {
            id: renamed_by(since, id),
            param,
            value,
        },
        RepairMove::Add { .. } | RepairMove::Drop { .. } => *mv,
    }
}

// Whether the other move is this one with the ids that stand for its own.
fn is_renamed(since: &Difference, mv: &RepairMove, other: &RepairMove) -> bool
    requires { length since.now.gone ≡ length since.now.placed }
    ensures { IsTrue result → renamed_move since.now mv.now ≡ other.now }
{
    renamed_move(since, mv) == *other
}

/// Whether the others are the moves with the ids that stand for their own.
pub(crate) fn are_renamed(since: &Difference, moves: &[RepairMove], others: &[RepairMove]) -> bool
    requires twins { length since.now.gone ≡ length since.now.placed }
    requires count { length moves.now ≡ length others.now }
    ensures { IsTrue result → map (renamed_move since.now) moves.now ≡ others.now }
{
    for (place, mv) in moves.iter().enumerate() {
        if !is_renamed(since, mv, &others[place]) {
            return false;
        }
    }
    true
}
