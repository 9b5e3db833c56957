ghost use Rattle.std.specs.Prelude.{◌≡◌, ◌≤◌, ◌^◌, length};
ghost use Rattle.std.specs.List.{list_all};
ghost use Rattle.pl_text.specs.Tokens.{token_text};
ghost use Rattle.pl_msg.specs.Reads.{Gives};
ghost use Rattle.pl_msg.specs.Names.{kind_named};
ghost use Rattle.pl_msg.specs.Goals.{names_free, is_in_range, given, place_in, places_in, goal_of_kind, goal_with, goal_in};

use crate::fault::ParseFault;
use crate::forms::{GoalForm, form_of};
use crate::names::{is_free, kind_named};
use crate::presets::{Preset, value_of};
use pl_facts::Goal;
use pl_lists::Items;
use pl_model::{Kind, Model, Param};
use pl_text::{Token, token_text};
use std::alloc::Global;

/// Whether the preset names a parameter that is declared without `=`.
fn names_free(line: &[u8], params: &[Param], preset: &Preset) -> bool
    ensures { result ≡ names_free line.now params.now preset.now }
{
    let name = token_text(line, &preset.name);
    params.iter().any(|param| param.name.as_slice() == name && is_free(&param.origin))
}

fn all_name_free(line: &[u8], params: &[Param], presets: &[Preset]) -> bool
    ensures { result ≡ list_all (names_free line.now params.now) presets.now }
{
    presets
        .iter()
        .all(|preset| names_free(line, params, preset))
}

fn is_in_range(horizon: u32, form: &GoalForm) -> bool
    ensures { result ≡ is_in_range horizon form.now }
{
    1 <= form.number
        && form.number <= 1_000_000_000
        && form.earliest <= form.latest
        && form.latest < u64::from(horizon)
}

/// What the presets give the parameter.
fn given(line: &[u8], presets: &[Preset], param: &Param) -> Option<u64>
    ensures { result ≡ given line.now presets.now param.now }
{
    if is_free(&param.origin) {
        value_of(line, presets, param.name.as_slice())
    } else {
        None
    }
}

fn place_of(param: &Param, value: Option<u64>) -> Result<Option<i64>, ParseFault>
    ensures { result ≡ place_in param.now value }
{
    match value {
        None => Ok(None),
        Some(value) => {
            let value = i128::from(value);
            if i128::from(param.low) <= value && value <= i128::from(param.high) {
                Ok(Some(value as i64))
            } else {
                Err(ParseFault::OutOfRange)
            }
        }
    }
}

/// A place for each parameter, with its preset or none.
#[tactic(auto, unfolding(crate::specs::Goals::places_in))]
fn places_of(
    alloc: Global,
    line: &[u8],
    presets: &[Preset],
    params: &[Param],
) -> Result<Items<Option<i64>>, ParseFault>
    ensures { Gives result (places_in line.now presets.now params.now) }
{
    let mut places = Items::from_vec(Vec::with_capacity(alloc, params.len())?);
    for param in params {
        places.push(place_of(param, given(line, presets, param))?)?;
    }
    Ok(places)
}

#[tactic(auto, unfolding(crate::specs::Goals::goal_of_kind))]
fn goal_of_kind(
    alloc: Global,
    horizon: u32,
    line: &[u8],
    form: &GoalForm,
    number: u32,
    kind: &Kind,
) -> Result<Goal, ParseFault>
    ensures { Gives result (goal_of_kind horizon line.now form.now number kind.now) }
{
    let params = kind.params.as_slice();
    if !all_name_free(line, params, form.presets.as_slice()) {
        return Err(ParseFault::UnknownName);
    }
    if !is_in_range(horizon, form) {
        return Err(ParseFault::OutOfRange);
    }
    let presets = places_of(alloc, line, form.presets.as_slice(), params)?;
    Ok(Goal {
        number: form.number as u32,
        kind: number,
        earliest: form.earliest as u32,
        latest: form.latest as u32,
        must: form.must,
        presets,
        dropped: false,
    })
}

fn goal_with(alloc: Global, model: &Model, line: &[u8], form: &GoalForm) -> Result<Goal, ParseFault>
    requires { length model.now.kinds ≤ 2 ^ 32 }
    ensures { Gives result (goal_with model.now.horizon line.now form.now (kind_named model.now (token_text line.now form.now.kind))) }
{
    match kind_named(model, token_text(line, &form.kind)) {
        Some((number, kind)) => goal_of_kind(alloc, model.horizon, line, form, number, kind),
        None => Err(ParseFault::UnknownName),
    }
}

/// The goal that is written behind the word `goal`.
#[tactic(auto, unfolding(crate::specs::Goals::goal_in))]
pub fn goal_of(
    alloc: Global,
    model: &Model,
    line: &[u8],
    tokens: &[Token],
) -> Result<Goal, ParseFault>
    requires { length model.now.kinds ≤ 2 ^ 32 }
    ensures { Gives result (goal_in model.now line.now tokens.now) }
{
    let form = form_of(alloc, line, tokens)?;
    let goal = goal_with(alloc, model, line, &form)?;
    Ok(goal)
}
