//! Which moves make sense and change something.
ghost use Rattle.std.specs.Prelude.{◌≡◌, Some};
ghost use Rattle.pl_plan.specs.Activities.{activity_of};
ghost use Rattle.pl_semantics.specs.Whole.{IsWhole};
ghost use Rattle.pl_semantics.specs.PlanStates.{found};
ghost use Rattle.pl_semantics.specs.Activities.{value_in};
ghost use Rattle.pl_semantics.specs.Candidates.{changes_nothing, has_start, has_value, is_value, is_worth};

use pl_moves::is_proper;
use pl_plan::{Activity, RepairMove};
use pl_semantics::PlanState;

fn has_start(state: &PlanState, id: u32, start: u32) -> bool
    ensures { result ≡ has_start start (found state.now id) }
{
    match state.plan.get(id) {
        Some(a) => a.start == start,
        None => false,
    }
}

// The value of a parameter, if the kind of a live activity has this parameter.
fn value_in(state: &PlanState, a: &Activity, number: u8) -> Option<i64>
    requires whole { IsWhole state.now }
    requires live { activity_of a.now.id state.now.plan.activities ≡ Some a.now }
    ensures { result ≡ value_in state.now a.now number }
{
    if (number as usize) < state.params_of(a).len() {
        state.plan.value(state.model.get(), a.id, number)
    } else {
        None
    }
}

fn is_value(value: i64, present: Option<i64>) -> bool
    ensures { result ≡ is_value value present }
{
    match present {
        Some(present) => value == present,
        None => false,
    }
}

fn has_value(state: &PlanState, id: u32, number: u8, value: i64) -> bool
    requires { IsWhole state.now }
    ensures { result ≡ has_value state.now number value (found state.now id) }
{
    match state.live(id) {
        Some(a) => is_value(value, value_in(state, a, number)),
        None => false,
    }
}

// Whether the move is a shift to the present start, or an assignment of the present value.
fn changes_nothing(state: &PlanState, mv: &RepairMove) -> bool
    requires { IsWhole state.now }
    ensures { result ≡ changes_nothing state.now mv.now }
{
    match *mv {
        RepairMove::Shift { id, start } => has_start(state, id, start),
        RepairMove::Assign { id, param, value } => has_value(state, id, param, value),
        _ => false,
    }
}

/// Whether the move makes sense and changes something.
pub(crate) fn is_worth(state: &PlanState, mv: &RepairMove) -> bool
    requires { IsWhole state.now }
    ensures { result ≡ is_worth state.now mv.now }
{
    is_proper(state, mv) && !changes_nothing(state, mv)
}
