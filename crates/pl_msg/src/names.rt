ghost use Rattle.std.specs.Prelude.{◌≡◌, ◌<◌, ◌≤◌, ◌^◌, length, option_map, IfOk, IfSome, Some, slice_get, All};
ghost use Rattle.std.specs.Result.{result_map_both};
ghost use Rattle.pl_model.specs.Checked.{IsChecked};
ghost use Rattle.pl_msg.specs.Names.{kind_named, timeline_name, timeline_named, state_named, is_free, kind_in, level_in};
ghost use Rattle.pl_msg.specs.Limits.{HasFewStates};

use crate::fault::ParseFault;
use pl_model::{Kind, Model, Name, Origin, Timeline};
use pl_text::{Token, token_text};

/// The kind of this name, with its number.
pub fn kind_named<'a>(model: &'a Model, name: &[u8]) -> Option<(u32, &'a Kind)>
    requires { length model.now.kinds ≤ 2 ^ 32 }
    ensures found { option_map (λ p. (p.0, p.1.now)) result ≡ kind_named model.now name.now }
{
    let kinds = model.kinds.as_slice();
    for (place, kind) in kinds.iter().enumerate() {
        if kind.name.as_slice() == name {
            return Some((place as u32, kind));
        }
    }
    None
}

fn timeline_name(timeline: &Timeline) -> &[u8]
    ensures { result.now ≡ timeline_name timeline.now }
{
    match timeline {
        Timeline::Capacity { name, .. } => name.as_slice(),
        Timeline::Level { name, .. } => name.as_slice(),
        Timeline::States { name, .. } => name.as_slice(),
    }
}

/// The timeline of this name, with its number.
pub fn timeline_named<'a>(model: &'a Model, name: &[u8]) -> Option<(u32, &'a Timeline)>
    requires few { length model.now.timelines ≤ 2 ^ 32 }
    requires states { All HasFewStates model.now.timelines }
    ensures found { option_map (λ p. (p.0, p.1.now)) result ≡ timeline_named model.now name.now }
    ensures states { IfSome result (λ p. HasFewStates p.1.now) }
{
    let timelines = model.timelines.as_slice();
    for (place, timeline) in timelines.iter().enumerate() {
        if timeline_name(timeline) == name {
            return Some((place as u32, timeline));
        }
    }
    None
}

/// The number of the state of this name.
pub fn state_named(states: &[Name], name: &[u8]) -> Option<u32>
    requires { length states.now ≤ 2 ^ 32 }
    ensures value { result ≡ state_named states.now name.now }
{
    for (place, state) in states.iter().enumerate() {
        if state.as_slice() == name {
            return Some(place as u32);
        }
    }
    None
}

/// Whether a parameter is declared without `=`.
pub fn is_free(origin: &Origin) -> bool
    ensures { result ≡ is_free origin.now }
{
    match origin {
        Origin::Free(_) => true,
        Origin::Dependent(_) => false,
    }
}

/// The kind of a checked model that a token of a line names, with its number.
pub fn kind_of<'a>(
    model: &'a Model,
    line: &[u8],
    token: &Token,
) -> Result<(u32, &'a Kind), ParseFault>
    requires { IsChecked model.now }
    ensures value { result_map_both (λ p. (p.0, p.1.now)) (λ e. e) result ≡ kind_in model.now line.now token.now }
    ensures few { IfOk result (λ p. length p.1.now.params ≤ 16) }
{
    match kind_named(model, token_text(line, token)) {
        Some(found) => Ok(found),
        None => Err(ParseFault::UnknownName),
    }
}

/// The number of the level of a checked model that a token of a line names.
#[tactic(auto, using(crate::proofs::Naming::is_numbered_model))]
pub fn level_of(model: &Model, line: &[u8], token: &Token) -> Result<u32, ParseFault>
    requires { IsChecked model.now }
    ensures { result ≡ level_in model.now line.now token.now }
{
    match timeline_named(model, token_text(line, token)) {
        Some((number, Timeline::Level { .. })) => Ok(number),
        _ => Err(ParseFault::UnknownName),
    }
}
