ghost use Rattle.std.specs.Prelude.{◌≡◌, ◌<◌, ◌≤◌, ◌^◌, length, option_map, IfOk};
ghost use Rattle.pl_model.specs.Checked.{IsChecked};
ghost use Rattle.pl_msg.specs.Reads.{Gives};
ghost use Rattle.pl_prefs.specs.Prefers.{param_named, param_by, weight_of, early_with, late_with, value_with, level_with, prefer_with, prefer_of, IsPreferOf};

use crate::form::PreferForm;
use crate::forms::form_of;
use crate::prefer::Prefer;
use pl_model::{Model, Param};
use pl_msg::{ParseFault, kind_of, level_of, tokens_of};
use pl_text::{Token, token_text};
use std::alloc::Global;

/// The greatest weight.
const MOST: u64 = 1_000;

// The number of the parameter of this name.
fn param_named(params: &[Param], name: &[u8]) -> Option<u8>
    requires { length params.now ≤ 16 }
    ensures { result ≡ option_map (λ p. p.0) (param_named params.now name.now) }
{
    for (number, param) in params.iter().enumerate() {
        if param.name.as_slice() == name {
            return Some(number as u8);
        }
    }
    None
}

// The number of the parameter that a token names.
fn param_of(params: &[Param], line: &[u8], param: &Token) -> Result<u8, ParseFault>
    requires { length params.now ≤ 16 }
    ensures { result ≡ param_by params.now line.now param.now }
{
    match param_named(params, token_text(line, param)) {
        Some(number) => Ok(number),
        None => Err(ParseFault::UnknownName),
    }
}

fn weight_of(number: u64) -> Result<i64, ParseFault>
    ensures { result ≡ weight_of number }
{
    if 1 <= number && number <= MOST {
        Ok(number as i64)
    } else {
        Err(ParseFault::OutOfRange)
    }
}

#[tactic(auto, unfolding(crate::specs::Prefers::early_with))]
fn early(model: &Model, line: &[u8], kind: &Token, weight: u64) -> Result<Prefer, ParseFault>
    requires { IsChecked model.now }
    ensures { result ≡ early_with model.now line.now kind.now weight }
{
    let (number, _) = kind_of(model, line, kind)?;
    let weight = weight_of(weight)?;
    Ok(Prefer::Early(number, weight))
}

#[tactic(auto, unfolding(crate::specs::Prefers::late_with))]
fn late(model: &Model, line: &[u8], kind: &Token, weight: u64) -> Result<Prefer, ParseFault>
    requires { IsChecked model.now }
    ensures { result ≡ late_with model.now line.now kind.now weight }
{
    let (number, _) = kind_of(model, line, kind)?;
    let weight = weight_of(weight)?;
    Ok(Prefer::Late(number, weight))
}

#[tactic(auto, unfolding(crate::specs::Prefers::value_with))]
fn value(
    model: &Model,
    line: &[u8],
    kind: &Token,
    param: &Token,
    weight: u64,
) -> Result<Prefer, ParseFault>
    requires { IsChecked model.now }
    ensures { result ≡ value_with model.now line.now kind.now param.now weight }
{
    let (number, kind) = kind_of(model, line, kind)?;
    let param = param_of(kind.params.as_slice(), line, param)?;
    let weight = weight_of(weight)?;
    Ok(Prefer::Value(number, param, weight))
}

#[tactic(auto, unfolding(crate::specs::Prefers::level_with))]
fn level(model: &Model, line: &[u8], level: &Token, weight: u64) -> Result<Prefer, ParseFault>
    requires { IsChecked model.now }
    ensures { result ≡ level_with model.now line.now level.now weight }
{
    let number = level_of(model, line, level)?;
    let weight = weight_of(weight)?;
    Ok(Prefer::Level(number, weight))
}

// The preference of this form: its names are looked up, and its weight is checked.
fn prefer_with(model: &Model, line: &[u8], form: &PreferForm) -> Result<Prefer, ParseFault>
    requires { IsChecked model.now }
    ensures { result ≡ prefer_with model.now line.now form.now }
{
    match form {
        PreferForm::Early(kind, weight) => early(model, line, kind, *weight),
        PreferForm::Late(kind, weight) => late(model, line, kind, *weight),
        PreferForm::Value(kind, param, weight) => value(model, line, kind, param, *weight),
        PreferForm::Level(name, weight) => level(model, line, name, *weight),
    }
}

/// The preference of a line, for a checked model.
#[tactic(auto, unfolding(crate::specs::Prefers::prefer_of))]
pub fn read_prefer(alloc: Global, model: &Model, line: &[u8]) -> Result<Prefer, ParseFault>
    requires checked { IsChecked model.now }
    requires short { length line.now < 2 ^ 32 }
    // The preference or the first fault, unless memory runs out.
    ensures answers { Gives result (prefer_of model.now line.now) }
    // What it names is there, and its weight is in range.
    ensures within { IfOk result (IsPreferOf model.now) }
{
    let tokens = tokens_of(alloc, line)?;
    let form = form_of(line, &tokens)?;
    prefer_with(model, line, &form)
}
