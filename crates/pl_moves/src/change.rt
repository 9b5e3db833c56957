ghost use Rattle.std.specs.Prelude.{◌≡◌, ◌+◌, ◌^◌, ◌<◌, ◌≤◌, [], ◌∷◌, ◌++◌, IfOk, OnOk, Some, None, map, filter, slice_set};
ghost use Rattle.pl_plan.specs.Trees.{subtree_of};
ghost use Rattle.pl_semantics.specs.PlanStates.{found, of_found};
ghost use Rattle.pl_semantics.specs.Whole.{IsWhole};
ghost use Rattle.pl_semantics.specs.Moves.{is_under, moved, moved_with, root_for, with_value};
ghost use Rattle.pl_moves.specs.Changes.{IsNamedLive, IsNear, assigned, gone_by, placed_by, undetailed, with_children};
ghost use Rattle.pl_moves.specs.Undone.{alone, picked};

use crate::children::{add_children, root_for};
use crate::gone::gone_by;
use crate::starts::alternative_at;
use pl_lists::{Copied, Items};
use pl_plan::{Activity, RepairMove};
use pl_semantics::PlanState;
use std::alloc::{AllocError, Global};

/// The ids of the activities that go, and the activities that come.
#[derive(Drop)]
pub struct Change {
    pub gone: Vec<u32>,
    pub placed: Vec<Activity>,
}

fn single(alloc: Global, a: Activity) -> Result<Vec<Activity>, AllocError>
    ensures { IfOk result (λ all. all.items ≡ a ∷ []) }
{
    let mut all = Vec::with_capacity(alloc, 1)?;
    all.push(a)?;
    Ok(all)
}

/// A copy, shifted by as much as an activity whose start goes from `from` to `to`.
pub(crate) fn moved(alloc: Global, a: &Activity, from: u32, to: u32) -> Result<Activity, AllocError>
    requires { a.now.start + to < 2 ^ 32 }
    ensures { IfOk result (λ b. b ≡ moved from to a.now) }
{
    let mut a = a.copy(alloc)?;
    a.start = (a.start + to).saturating_sub(from);
    Ok(a)
}

fn put_value(set: &mut Vec<Option<i64>>, number: u8, value: i64)
    ensures { set.new.items ≡ slice_set set.old.items number (Some value) }
{
    let number = number as usize;
    if number < set.len() {
        set[number] = Some(value);
    }
}

fn with_value(alloc: Global, a: &Activity, number: u8, value: i64) -> Result<Activity, AllocError>
    ensures { IfOk result (λ b. b ≡ with_value number value a.now) }
{
    let mut a = a.copy(alloc)?;
    let mut set = a.set.copy(alloc)?.into_vec();
    put_value(&mut set, number, value);
    a.set = Items::from_vec(set);
    Ok(a)
}

// A copy, with the value set if it is the activity of this id.
fn assigned(
    alloc: Global,
    a: &Activity,
    id: u32,
    number: u8,
    value: i64,
) -> Result<Activity, AllocError>
    ensures { IfOk result (λ b. b ≡ assigned id number value a.now) }
{
    if a.id == id {
        with_value(alloc, a, number, value)
    } else {
        a.copy(alloc)
    }
}

fn with_detail(alloc: Global, a: &Activity, detail: Option<u32>) -> Result<Activity, AllocError>
    ensures { IfOk result (λ b. b ≡ record a.now { detail = detail }) }
{
    let mut a = a.copy(alloc)?;
    a.detail = detail;
    Ok(a)
}

fn add_moved(
    alloc: Global,
    s: &PlanState,
    id: u32,
    top: &Activity,
    to: u32,
    all: &mut Vec<Activity>,
) -> Result<(), AllocError>
    requires whole { IsWhole s.now }
    requires near { to ≤ 10000000 }
    ensures { OnOk result (all.new.items ≡ all.old.items ++ map (moved top.now.start to) (of_found alone (found s.now id))) }
{
    match s.plan.get(id) {
        Some(a) => {
            all.push(moved(alloc, a, top.start, to)?)?;
            Ok(())
        }
        None => Ok(()),
    }
}

// The activities of these ids, shifted by as much as the activity from which they descend.
fn shift_all(
    alloc: Global,
    s: &PlanState,
    ids: &[u32],
    top: &Activity,
    to: u32,
) -> Result<Vec<Activity>, AllocError>
    requires whole { IsWhole s.now }
    requires near { to ≤ 10000000 }
    ensures { IfOk result (λ all. all.items ≡ map (moved top.now.start to) (picked s.now.plan.activities ids.now)) }
{
    let mut all = Vec::with_capacity(alloc, ids.len())?;
    for id in ids {
        add_moved(alloc, s, *id, top, to, &mut all)?;
    }
    Ok(all)
}

fn shift(
    alloc: Global,
    s: &PlanState,
    id: u32,
    ids: &[u32],
    to: u32,
) -> Result<Vec<Activity>, AllocError>
    requires whole { IsWhole s.now }
    requires near { to ≤ 10000000 }
    requires ids { ids.now ≡ subtree_of id s.now.plan.activities }
    ensures { IfOk result (λ all. all.items ≡ moved_with s.now to (found s.now id)) }
{
    match s.plan.get(id) {
        Some(top) => shift_all(alloc, s, ids, top, to),
        None => Ok(Vec::new(alloc)),
    }
}

fn add_assigned(
    alloc: Global,
    s: &PlanState,
    id: u32,
    top: u32,
    number: u8,
    value: i64,
    all: &mut Vec<Activity>,
) -> Result<(), AllocError>
    requires whole { IsWhole s.now }
    ensures { OnOk result (all.new.items ≡ all.old.items ++ map (assigned top number value) (of_found alone (found s.now id))) }
{
    match s.plan.get(id) {
        Some(a) => {
            all.push(assigned(alloc, a, top, number, value)?)?;
            Ok(())
        }
        None => Ok(()),
    }
}

// The activities of these ids, with the value set at the one at the top.
fn assign_all(
    alloc: Global,
    s: &PlanState,
    ids: &[u32],
    top: u32,
    number: u8,
    value: i64,
) -> Result<Vec<Activity>, AllocError>
    requires whole { IsWhole s.now }
    ensures { IfOk result (λ all. all.items ≡ map (assigned top number value) (picked s.now.plan.activities ids.now)) }
{
    let mut all = Vec::with_capacity(alloc, ids.len())?;
    for id in ids {
        add_assigned(alloc, s, *id, top, number, value, &mut all)?;
    }
    Ok(all)
}

// The activities of the subtree, with the value set at the one at its top.
fn assign(
    alloc: Global,
    s: &PlanState,
    id: u32,
    ids: &[u32],
    number: u8,
    value: i64,
) -> Result<Vec<Activity>, AllocError>
    requires whole { IsWhole s.now }
    requires ids { ids.now ≡ subtree_of id s.now.plan.activities }
    ensures { IfOk result (λ all. all.items ≡ map (assigned id number value) (filter (is_under s.now id) s.now.plan.activities)) }
{
    assign_all(alloc, s, ids, id, number, value)
}

fn detail_one(
    alloc: Global,
    s: &PlanState,
    a: &Activity,
    alternative: u32,
) -> Result<Vec<Activity>, AllocError>
    requires whole { IsWhole s.now }
    requires start { a.now.start ≤ 10000000 }
    ensures { IfOk result (λ all. all.items ≡ with_children s.now alternative a.now) }
{
    let mut all = single(alloc, with_detail(alloc, a, Some(alternative))?)?;
    match alternative_at(s, a, alternative) {
        Some(of) => {
            add_children(
                alloc,
                s,
                a,
                of.slots.as_slice(),
                of.offsets.as_slice(),
                &mut all,
            )?;
            Ok(all)
        }
        None => Ok(all),
    }
}

fn detail(
    alloc: Global,
    s: &PlanState,
    id: u32,
    alternative: u32,
) -> Result<Vec<Activity>, AllocError>
    requires { IsWhole s.now }
    ensures { IfOk result (λ all. all.items ≡ of_found (with_children s.now alternative) (found s.now id)) }
{
    match s.plan.get(id) {
        Some(a) => detail_one(alloc, s, a, alternative),
        None => Ok(Vec::new(alloc)),
    }
}

fn without_detail(alloc: Global, s: &PlanState, id: u32) -> Result<Vec<Activity>, AllocError>
    ensures { IfOk result (λ all. all.items ≡ of_found undetailed (found s.now id)) }
{
    match s.plan.get(id) {
        Some(a) => single(alloc, with_detail(alloc, a, None)?),
        None => Ok(Vec::new(alloc)),
    }
}

fn add(
    alloc: Global,
    s: &PlanState,
    kind: u32,
    start: u32,
    goal: Option<u32>,
) -> Result<Vec<Activity>, AllocError>
    ensures { IfOk result (λ all. all.items ≡ root_for s.now kind start goal ∷ []) }
{
    single(alloc, root_for(alloc, s, kind, start, goal)?)
}

fn placed_by(
    alloc: Global,
    s: &PlanState,
    mv: &RepairMove,
    gone: &[u32],
) -> Result<Vec<Activity>, AllocError>
    requires whole { IsWhole s.now }
    requires near { IsNear mv.now }
    requires gone { gone.now ≡ gone_by s.now mv.now }
    ensures { IfOk result (λ all. all.items ≡ placed_by s.now mv.now) }
{
    match *mv {
        RepairMove::Add { kind, start, goal } => add(alloc, s, kind, start, goal),
        RepairMove::Delete { .. } => Ok(Vec::new(alloc)),
        RepairMove::Shift { id, start } => shift(alloc, s, id, gone, start),
        RepairMove::Detail { id, alternative } => detail(alloc, s, id, alternative),
        RepairMove::Abstract { id } => without_detail(alloc, s, id),
        RepairMove::Assign { id, param, value } => assign(alloc, s, id, gone, param, value),
        RepairMove::Drop { .. } => Ok(Vec::new(alloc)),
    }
}

/// Which activities the move takes out of the plan, and which it puts in.
pub(crate) fn change_of(alloc: Global, s: &PlanState, mv: &RepairMove) -> Result<Change, AllocError>
    requires whole { IsWhole s.now }
    requires named { IsNamedLive s.now mv.now }
    requires near { IsNear mv.now }
    ensures gone { IfOk result (λ c. c.gone.items ≡ gone_by s.now mv.now) }
    ensures placed { IfOk result (λ c. c.placed.items ≡ placed_by s.now mv.now) }
{
    let gone = gone_by(alloc, s, mv)?;
    let placed = placed_by(alloc, s, mv, &gone)?;
    Ok(Change { gone, placed })
}
