//! Shifts and additions of activities, with starts at which an activity may start.
ghost use Rattle.std.specs.Prelude.{◌≡◌, ℕ, ◌++◌, OnOk};
ghost use Rattle.std.specs.List.{flat_map};
ghost use Rattle.std.specs.Option.{option_map, option_to_list};
ghost use Rattle.pl_plan.specs.declared.repair.RepairMove.{RepairMove};
ghost use Rattle.pl_plan.specs.declared.repair.RepairMove.TheVariants.{Add};
ghost use Rattle.pl_semantics.specs.Starts.{starting, shift_to};
ghost use Rattle.pl_cand.specs.Telling.{is_shift_to, may_start};

use pl_plan::RepairMove;
use pl_semantics::PlanState;
use std::alloc::AllocError;

// The moment, if an activity may start then, which is from 1 on and before the horizon.
fn start_in(state: &PlanState, start: i64) -> Option<u32>
    ensures { (make : ℕ → RepairMove) → option_to_list (option_map make result) ≡ starting state.now make start }
{
    if 1 <= start && start < i64::from(state.model.get().horizon) {
        Some(start as u32)
    } else {
        None
    }
}

/// Appends a shift, unless no activity may start then.
pub(crate) fn add_shift(
    state: &PlanState,
    id: u32,
    start: i64,
    out: &mut Vec<RepairMove>,
) -> Result<(), AllocError>
    ensures { OnOk result (out.new.items ≡ out.old.items ++ starting state.now (shift_to id) start) }
{
    match start_in(state, start) {
        Some(start) => Ok(out.push(RepairMove::Shift { id, start })?),
        None => Ok(()),
    }
}

// Appends the addition of an activity, unless no activity may start then.
fn add_new(
    state: &PlanState,
    kind: u32,
    goal: Option<u32>,
    start: i64,
    out: &mut Vec<RepairMove>,
) -> Result<(), AllocError>
    ensures { OnOk result (out.new.items ≡ out.old.items ++ starting state.now (λ start. Add kind start goal) start) }
{
    match start_in(state, start) {
        Some(start) => Ok(out.push(RepairMove::Add { kind, start, goal })?),
        None => Ok(()),
    }
}

/// Appends the shifts of one activity to these starts.
pub(crate) fn add_shifts(
    state: &PlanState,
    id: u32,
    starts: &[i64],
    out: &mut Vec<RepairMove>,
) -> Result<(), AllocError>
    ensures { OnOk result (out.new.items ≡ out.old.items ++ flat_map (starting state.now (shift_to id)) starts.now) }
{
    for start in starts {
        add_shift(state, id, *start, out)?;
    }
    Ok(())
}

/// Appends additions of activities of one kind with these starts.
pub(crate) fn add_news(
    state: &PlanState,
    kind: u32,
    goal: Option<u32>,
    starts: &[i64],
    out: &mut Vec<RepairMove>,
) -> Result<(), AllocError>
    ensures { OnOk result (out.new.items ≡ out.old.items ++ flat_map (starting state.now (λ start. Add kind start goal)) starts.now) }
{
    for start in starts {
        add_new(state, kind, goal, *start, out)?;
    }
    Ok(())
}

/// Whether an activity may start then, which is from 1 on and before the horizon.
pub(crate) fn may_start(state: &PlanState, start: u32) -> bool
    ensures { result ≡ may_start state.now start }
{
    1 <= start && start < state.model.get().horizon
}

/// Whether a move is the shift of this activity to this start, and an activity may start then.
pub(crate) fn is_shift_to(state: &PlanState, a: u32, to: i64, mv: &RepairMove) -> bool
    ensures { result ≡ is_shift_to state.now a to mv.now }
{
    match *mv {
        RepairMove::Shift { id, start } => id == a
            && may_start(state, start)
            && i64::from(start) == to,
        _ => false,
    }
}
