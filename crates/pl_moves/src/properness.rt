ghost use Rattle.std.specs.Prelude.{◌≡◌, ◌&&◌, false, not, nat_lt, length, is_none, is_some};
ghost use Rattle.pl_plan.specs.Values.{binding_of};
ghost use Rattle.pl_semantics.specs.PlanStates.{found, goal_at, is_open};
ghost use Rattle.pl_semantics.specs.Moves.{holds, alternatives_at, is_free, is_proper, is_set_origin, is_wanted, takes_value};

use pl_board::Board;
use pl_model::{Expr, Origin, Param};
use pl_plan::{Activity, RepairMove};
use pl_semantics::PlanState;

fn is_unbound(bindings: &[(u8, Expr)], number: u8) -> bool
    ensures { result ≡ is_none (binding_of number bindings.now) }
{
    for (bound, _) in bindings {
        if *bound == number {
            return false;
        }
    }
    true
}

fn is_set(origin: &Origin) -> bool
    ensures { result ≡ is_set_origin origin.now }
{
    match origin {
        Origin::Free(_) => true,
        Origin::Dependent(_) => false,
    }
}

/// Whether the parameter of this number is free: neither its parent binds it, nor does it depend on other parameters.
pub fn is_free(bindings: &[(u8, Expr)], number: u8, param: &Param) -> bool
    ensures { result ≡ is_free bindings.now (number, param.now) }
{
    is_unbound(bindings, number) && is_set(&param.origin)
}

// Whether the parameter is free, and the value lies within its limits.
fn takes_value(s: &PlanState, a: &Activity, number: u8, value: i64) -> bool
    ensures { result ≡ takes_value s.now a.now number value }
{
    match s.params_of(a).get(number as usize) {
        Some(param) => {
            is_free(s.bindings_of(a), number, param) && param.low <= value && value <= param.high
        }
        None => false,
    }
}

// Whether there is no goal, or an open one of this kind.
fn is_wanted(s: &PlanState, kind: u32, goal: Option<u32>) -> bool
    ensures { result ≡ is_wanted s.now kind goal }
{
    match goal {
        Some(number) => match s.goals.get(number) {
            Some(goal) => s.is_open(goal) && goal.kind == kind,
            None => false,
        },
        None => true,
    }
}

fn can_drop(s: &PlanState, number: u32) -> bool
    ensures { result ≡ holds (λ g. is_open s.now g && not g.must) (goal_at s.now number) }
{
    match s.goals.get(number) {
        Some(goal) => s.is_open(goal) && !goal.must,
        None => false,
    }
}

fn is_root(s: &PlanState, id: u32) -> bool
    ensures { result ≡ holds (λ a. is_none a.parent) (found s.now id) }
{
    match s.plan.get(id) {
        Some(a) => a.parent.is_none(),
        None => false,
    }
}

fn is_detailed(s: &PlanState, id: u32) -> bool
    ensures { result ≡ holds (λ a. is_some a.detail) (found s.now id) }
{
    match s.plan.get(id) {
        Some(a) => a.detail.is_some(),
        None => false,
    }
}

// Whether no alternative is chosen, and the kind has this one.
fn can_detail(s: &PlanState, id: u32, alternative: u32) -> bool
    ensures { result ≡ holds (λ a. is_none a.detail && nat_lt alternative (length (alternatives_at s.now a))) (found s.now id) }
{
    match s.plan.get(id) {
        Some(a) => a.detail.is_none() && (alternative as usize) < s.alternatives_of(a).len(),
        None => false,
    }
}

fn can_assign(s: &PlanState, id: u32, number: u8, value: i64) -> bool
    ensures { result ≡ holds (λ a. takes_value s.now a number value) (found s.now id) }
{
    match s.plan.get(id) {
        Some(a) => takes_value(s, a, number, value),
        None => false,
    }
}

fn can_add(s: &PlanState, kind: u32, goal: Option<u32>) -> bool
    ensures { result ≡ (nat_lt kind (length s.now.model.kinds) && is_wanted s.now kind goal) }
{
    (kind as usize) < s.model.get().kinds.len() && is_wanted(s, kind, goal)
}

/// Whether the move makes sense in this plan state, whether it is refused or not.
#[tactic(auto, unfolding(pl_semantics::specs::Moves::is_proper))]
pub fn is_proper(s: &PlanState, mv: &RepairMove) -> bool
    ensures { result ≡ is_proper s.now mv.now }
{
    match *mv {
        RepairMove::Add { kind, goal, .. } => can_add(s, kind, goal),
        RepairMove::Delete { id } => is_root(s, id),
        RepairMove::Shift { id, .. } => s.plan.get(id).is_some(),
        RepairMove::Detail { id, alternative } => can_detail(s, id, alternative),
        RepairMove::Abstract { id } => is_detailed(s, id),
        RepairMove::Assign { id, param, value } => can_assign(s, id, param, value),
        RepairMove::Drop { goal } => can_drop(s, goal),
    }
}

/// The same on a board.
pub fn proper(board: &Board, mv: &RepairMove) -> bool
    requires { board.now.spoiled ≡ false }
    ensures { result ≡ is_proper board.now.state mv.now }
{
    is_proper(board.state(), mv)
}
