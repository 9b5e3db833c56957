ghost use Rattle.std.specs.Prelude.{◌≡◌, ◌+◌, ◌^◌, ◌<◌, ◌≤◌, ◌++◌, IfOk, OnOk, None, length, replicate, slice_get, option_and_then};
ghost use Rattle.pl_model.specs.Checked.{params_of};
ghost use Rattle.pl_semantics.specs.PlanStates.{goal_at};
ghost use Rattle.pl_semantics.specs.Whole.{IsWhole};
ghost use Rattle.pl_semantics.specs.Moves.{child_for, children_from, presets_of, root_for, unset_row};
ghost use Rattle.pl_moves.specs.Sides.{ArePaired};

use pl_lists::{Copied, Items};
use pl_model::Slot;
use pl_plan::Activity;
use pl_semantics::PlanState;
use std::alloc::{AllocError, Global};

fn nothing_set(alloc: Global, count: usize) -> Result<Items<Option<i64>>, AllocError>
    ensures { IfOk result (λ row. row ≡ replicate count None) }
{
    Ok(Items::from_vec(vec![in alloc; None; count]?))
}

fn count_of_params(s: &PlanState, kind: u32) -> usize
    ensures { result ≡ length (params_of (slice_get s.now.model.kinds kind)) }
{
    match s.model.get().kinds.as_slice().get(kind as usize) {
        Some(kind) => kind.params.len(),
        None => 0,
    }
}

fn unset_row(alloc: Global, s: &PlanState, kind: u32) -> Result<Items<Option<i64>>, AllocError>
    ensures { IfOk result (λ row. row ≡ unset_row s.now kind) }
{
    nothing_set(alloc, count_of_params(s, kind))
}

// The presets of the goal, if there is one; else nothing is set.
fn presets(
    alloc: Global,
    s: &PlanState,
    kind: u32,
    goal: Option<u32>,
) -> Result<Items<Option<i64>>, AllocError>
    ensures { IfOk result (λ row. row ≡ presets_of (unset_row s.now kind) (option_and_then (goal_at s.now) goal)) }
{
    match goal {
        Some(number) => match s.goals.get(number) {
            Some(goal) => goal.presets.copy(alloc),
            None => unset_row(alloc, s, kind),
        },
        None => unset_row(alloc, s, kind),
    }
}

/// The root that a move adds: it has the next id.
pub fn root_for(
    alloc: Global,
    s: &PlanState,
    kind: u32,
    start: u32,
    goal: Option<u32>,
) -> Result<Activity, AllocError>
    ensures { IfOk result (λ a. a ≡ root_for s.now kind start goal) }
{
    Ok(Activity {
        id: s.next_id,
        kind,
        start,
        parent: None,
        goal,
        detail: None,
        set: presets(alloc, s, kind, goal)?,
        measured: None,
    })
}

fn child_for(
    alloc: Global,
    s: &PlanState,
    parent: u32,
    number: u32,
    slot: &Slot,
    start: u32,
) -> Result<Activity, AllocError>
    requires { s.now.next_id + number < 2 ^ 32 }
    ensures { IfOk result (λ a. a ≡ child_for s.now parent number (s.now.next_id + number) slot.now start) }
{
    Ok(Activity {
        id: s.next_id + number,
        kind: slot.kind,
        start,
        parent: Some((parent, number)),
        goal: None,
        detail: None,
        set: unset_row(alloc, s, slot.kind)?,
        measured: None,
    })
}

/// Adds a child for each slot.
pub(crate) fn add_children(
    alloc: Global,
    s: &PlanState,
    parent: &Activity,
    slots: &[Slot],
    offsets: &[u32],
    all: &mut Vec<Activity>,
) -> Result<(), AllocError>
    requires whole { IsWhole s.now }
    requires paired { ArePaired slots.now offsets.now }
    requires start { parent.now.start ≤ 10000000 }
    ensures { OnOk result (all.new.items ≡ all.old.items ++ children_from s.now parent.now 0 slots.now offsets.now) }
{
    for (number, slot) in slots.iter().enumerate() {
        let start = parent.start + offsets[number];
        all.push(child_for(alloc, s, parent.id, number as u32, slot, start)?)?;
    }
    Ok(())
}
