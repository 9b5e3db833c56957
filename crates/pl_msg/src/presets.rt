ghost use Rattle.std.specs.Prelude.{◌≡◌, ◌<◌, length, IfOk};
ghost use Rattle.std.specs.List.{list_any};
ghost use Rattle.pl_msg.specs.Reads.{Gives, Shows};
ghost use Rattle.pl_msg.specs.Goals.{preset_in, preset_at, is_named, are_distinct, presets_in, each_preset, value_of};

use crate::fault::ParseFault;
use crate::words::{name_of, number_of, says};
use pl_lists::Items;
use pl_text::{Token, token_text};
use std::alloc::Global;

/// `NAME = VALUE` behind a goal. The name is a token of the line.
#[derive(Clone, Copy)]
pub struct Preset {
    pub name: Token,
    pub value: u64,
}

#[tactic(auto, unfolding(crate::specs::Goals::preset_in))]
fn preset_of(line: &[u8], name: &Token, equals: &Token, value: &Token) -> Result<Preset, ParseFault>
    ensures { result ≡ preset_in line.now name.now equals.now value.now }
{
    if !says(line, equals, b"=") {
        return Err(ParseFault::BadLine);
    }
    let name = name_of(line, name)?;
    let value = number_of(value)?;
    Ok(Preset { name, value })
}

/// The preset at the front of the tokens, and what is behind it.
fn preset_at<'a>(line: &[u8], tokens: &'a [Token]) -> Result<(Preset, &'a [Token]), ParseFault>
    ensures preset { Shows (λ p. (p.0, p.1.now)) result (preset_at line.now tokens.now) }
    ensures shorter { IfOk result (λ p. length p.1.now < length tokens.now) }
{
    match tokens {
        [name, equals, value, more @ ..] => Ok((preset_of(line, name, equals, value)?, more)),
        _ => Err(ParseFault::BadLine),
    }
}

fn each_preset(alloc: Global, line: &[u8], tokens: &[Token]) -> Result<Items<Preset>, ParseFault>
    ensures { Gives result (each_preset line.now tokens.now) }
{
    let mut presets = Items::new(alloc);
    let mut rest = tokens;
    'presets: while !rest.is_empty() {
        let (preset, more) = preset_at(line, rest)?;
        presets.push(preset)?;
        rest = more;
    }
    Ok(presets)
}

fn is_named(line: &[u8], name: &[u8], preset: &Preset) -> bool
    ensures { result ≡ is_named line.now name.now preset.now }
{
    token_text(line, &preset.name) == name
}

fn any_is_named(line: &[u8], name: &[u8], presets: &[Preset]) -> bool
    ensures { result ≡ list_any (is_named line.now name.now) presets.now }
{
    presets.iter().any(|preset| is_named(line, name, preset))
}

fn are_distinct(line: &[u8], presets: &[Preset]) -> bool
    ensures { result ≡ are_distinct line.now presets.now }
{
    let mut rest = presets;
    'presets: while let [first, more @ ..] = rest {
        let name = token_text(line, &first.name);
        if any_is_named(line, name, more) {
            return false;
        }
        rest = more;
    }
    true
}

/// The presets of a goal, each of another name.
#[tactic(auto, unfolding(crate::specs::Goals::presets_in))]
pub fn presets_of(alloc: Global, line: &[u8], tokens: &[Token]) -> Result<Items<Preset>, ParseFault>
    ensures { Gives result (presets_in line.now tokens.now) }
{
    let presets = each_preset(alloc, line, tokens)?;
    if are_distinct(line, presets.as_slice()) {
        Ok(presets)
    } else {
        Err(ParseFault::BadLine)
    }
}

/// The value that the presets give the name.
pub fn value_of(line: &[u8], presets: &[Preset], name: &[u8]) -> Option<u64>
    ensures { result ≡ value_of line.now presets.now name.now }
{
    for preset in presets {
        if is_named(line, name, preset) {
            return Some(preset.value);
        }
    }
    None
}
