//! Checks that each name is known, and puts its number in its place.
ghost use Rattle.std.specs.Prelude.{◌≡◌, ◌≤◌, length, IfOk};
ghost use Rattle.pl_model.specs.Values.{NamesBelow};
ghost use Rattle.pl_check.specs.Judgements.{Gives, each_made};
ghost use Rattle.pl_check.specs.Sizes.{IsSmallLine};
ghost use Rattle.pl_check.specs.Finding.{known};
ghost use Rattle.pl_check.specs.Numbering.{numbered, state_number, numbered_step, numbered_line, numbered_origin, numbered_param, numbered_params};

use crate::fault::ModelFault;
use crate::finding::{param_named, state_named};
use pl_lists::{Boxed, Copied, Items};
use pl_model::{Expr, Name, Origin, Param, Timeline};
use pl_syntax::{AstExpr, AstOrigin, AstParam, AstTimeline};
use std::alloc::Global;

/// What was found for the name, or else the name is unknown.
pub fn known<T: Drop>(alloc: Global, name: &Name, found: Option<T>) -> Result<T, ModelFault>
    ensures { Gives result (known name.now found) }
{
    match found {
        Some(found) => Ok(found),
        None => Err(ModelFault::Unknown(name.copy(alloc)?)),
    }
}

/// The expression, its names replaced by the places of the kind's parameters.
pub fn number_expr(alloc: Global, params: &[AstParam], expr: &AstExpr) -> Result<Expr, ModelFault>
    requires { length params.now ≤ 16 }
    ensures gives { Gives result (numbered params.now expr.now) }
    ensures below { IfOk result (NamesBelow (length params.now)) }
{
    match expr {
        AstExpr::Num(number) => Ok(Expr::Num(*number)),
        AstExpr::Name(name) => {
            let param = known(alloc, name, param_named(params, name.as_slice()))?;
            Ok(Expr::Param(param))
        }
        AstExpr::Apply(op, left, right) => {
            let left = number_expr(alloc, params, left.get())?;
            let right = number_expr(alloc, params, right.get())?;
            Ok(Expr::Apply(*op, Boxed::new(alloc, left)?, Boxed::new(alloc, right)?))
        }
    }
}

/// The place of the state of this name among the states of its timeline, from 0.
pub fn number_state(alloc: Global, states: &[Name], name: &Name) -> Result<u32, ModelFault>
    requires { length states.now ≤ 32 }
    ensures { Gives result (state_number states.now name.now) }
{
    known(alloc, name, state_named(states, name.as_slice()))
}

fn number_step(
    alloc: Global,
    states: &[Name],
    step: &(Name, Name),
) -> Result<(u32, u32), ModelFault>
    requires { length states.now ≤ 32 }
    ensures { Gives result (numbered_step states.now step.now) }
{
    let from = number_state(alloc, states, &step.0)?;
    let to = number_state(alloc, states, &step.1)?;
    Ok((from, to))
}

#[tactic(auto, using(crate::proofs::LoopLemmas::made_whole))]
fn number_steps(
    alloc: Global,
    states: &[Name],
    steps: &[(Name, Name)],
) -> Result<Items<(u32, u32)>, ModelFault>
    requires { length states.now ≤ 32 }
    ensures { Gives result (each_made (numbered_step states.now) steps.now) }
{
    let mut all = Items::new(alloc);
    for step in steps {
        all.push(number_step(alloc, states, step)?)?;
    }
    Ok(all)
}

/// The timeline, the names in its start and steps replaced by the places of its states.
pub fn number_line(alloc: Global, line: &AstTimeline) -> Result<Timeline, ModelFault>
    requires { IsSmallLine line.now }
    ensures { Gives result (numbered_line line.now) }
{
    match line {
        AstTimeline::Capacity { name, most } => Ok(Timeline::Capacity {
            name: name.copy(alloc)?,
            most: *most,
        }),
        AstTimeline::Level {
            name,
            least,
            most,
            start,
        } => Ok(Timeline::Level {
            name: name.copy(alloc)?,
            least: *least,
            most: *most,
            start: *start,
        }),
        AstTimeline::States {
            name,
            states,
            start,
            any,
            steps,
        } => {
            let first = number_state(alloc, states.as_slice(), start)?;
            let moves = number_steps(alloc, states.as_slice(), steps.as_slice())?;
            Ok(Timeline::States {
                name: name.copy(alloc)?,
                states: states.copy(alloc)?,
                start: first,
                any: *any,
                steps: moves,
            })
        }
    }
}

fn number_origin(
    alloc: Global,
    params: &[AstParam],
    origin: &AstOrigin,
) -> Result<Origin, ModelFault>
    requires { length params.now ≤ 16 }
    ensures { Gives result (numbered_origin params.now origin.now) }
{
    match origin {
        AstOrigin::Plain => Ok(Origin::Free(None)),
        AstOrigin::Default(value) => Ok(Origin::Free(Some(*value))),
        AstOrigin::Equals(value) => Ok(Origin::Dependent(number_expr(alloc, params, value)?)),
    }
}

fn number_param(alloc: Global, params: &[AstParam], param: &AstParam) -> Result<Param, ModelFault>
    requires { length params.now ≤ 16 }
    ensures { Gives result (numbered_param params.now param.now) }
{
    let origin = number_origin(alloc, params, &param.origin)?;
    Ok(Param {
        name: param.name.copy(alloc)?,
        low: param.low,
        high: param.high,
        origin,
    })
}

/// The parameters of a kind, the names in their expressions replaced by the parameters' places.
#[tactic(auto, using(crate::proofs::LoopLemmas::made_whole), unfolding(crate::specs::Numbering::numbered_params))]
pub fn number_params(alloc: Global, params: &[AstParam]) -> Result<Items<Param>, ModelFault>
    requires { length params.now ≤ 16 }
    ensures gives { Gives result (numbered_params params.now) }
    ensures each_param { IfOk result (λ made. length made ≡ length params.now) }
{
    let mut all = Items::new(alloc);
    for param in params {
        all.push(number_param(alloc, params, param)?)?;
    }
    Ok(all)
}
