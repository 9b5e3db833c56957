ghost use Rattle.std.specs.Prelude.{◌≡◌, ◌<◌, length, map, IfOk, OnOk, if◌then◌else◌};
ghost use Rattle.std.specs.BTreeSet.{insert_key};
ghost use Rattle.pl_plan.specs.Activities.{AreRising};
ghost use Rattle.pl_plan.specs.Fitting.{Fits};
ghost use Rattle.pl_entry.specs.Due.{is_due, start_of, start_cmp, due_starts, due_of, AreDue};

use pl_model::Model;
use pl_plan::{Activity, Plan};
use std::alloc::{AllocError, Global};
use std::collections::BTreeSet;

fn is_due(model: &Model, activity: &Activity, now: u32, c: u32) -> bool
    requires { activity.now.kind < length model.now.kinds }
    ensures { result ≡ is_due model.now now c activity.now }
{
    let kind = &model.kinds.as_slice()[activity.kind as usize];
    activity.start < c && activity.start <= now && kind.alternatives.is_empty()
}

fn add_if_due(
    starts: &mut BTreeSet<(u32, u32)>,
    model: &Model,
    activity: &Activity,
    now: u32,
    c: u32,
) -> Result<(), AllocError>
    requires { activity.now.kind < length model.now.kinds }
    ensures { OnOk result (starts.new.keys ≡ (if is_due model.now now c activity.now then insert_key start_cmp starts.old.keys (start_of activity.now) else starts.old.keys)) }
{
    if is_due(model, activity, now, c) {
        starts.insert((activity.start, activity.id))?;
    }
    Ok(())
}

fn due_starts(
    alloc: Global,
    model: &Model,
    plan: &Plan,
    now: u32,
    c: u32,
) -> Result<BTreeSet<(u32, u32)>, AllocError>
    requires { Fits model.now plan.now.activities }
    ensures starts { IfOk result (λ starts. starts.keys ≡ due_starts model.now plan.now.activities now c) }
    ensures rising { AreRising plan.now.activities }
{
    let mut starts = BTreeSet::new(alloc);
    for activity in plan.activities() {
        add_if_due(&mut starts, model, activity, now, c)?;
    }
    Ok(starts)
}

fn ids_in(alloc: Global, starts: &BTreeSet<(u32, u32)>) -> Result<Vec<u32>, AllocError>
    ensures { IfOk result (λ ids. ids.items ≡ map (λ s. s.1) starts.now.keys) }
{
    let mut ids = Vec::new(alloc);
    for (_, id) in starts {
        ids.push(*id)?;
    }
    Ok(ids)
}

/// The ids of the due activities, by start, and by id where starts are equal. A start below `c` is committed.
pub fn due(
    alloc: Global,
    model: &Model,
    plan: &Plan,
    now: u32,
    c: u32,
) -> Result<Vec<u32>, AllocError>
    requires { Fits model.now plan.now.activities }
    ensures ids { IfOk result (λ ids. ids.items ≡ due_of model.now plan.now.activities now c) }
    ensures means { IfOk result (λ ids. AreDue model.now plan.now.activities now c ids.items) }
{
    let starts = due_starts(alloc, model, plan, now, c)?;
    ids_in(alloc, &starts)
}
