ghost use Rattle.std.specs.Prelude.{◌≡◌, ◌≤◌, ◌^◌, length};
ghost use Rattle.pl_text.specs.Tokens.{token_text};
ghost use Rattle.pl_msg.specs.Telemetry.{value_by, level_by, state_by, told_by, telemetry_in};
ghost use Rattle.pl_msg.specs.Names.{timeline_named};
ghost use Rattle.pl_msg.specs.Limits.{IsNumbered};

use crate::fault::ParseFault;
use crate::message::Message;
use crate::names::{state_named, timeline_named};
use crate::words::name_of;
use pl_model::{Model, Name, Timeline};
use pl_text::{Token, TokenKind, token_text};

/// A value as it is written, a name as a token of the line.
#[derive(Clone, Copy)]
pub enum Value {
    Number(u64),
    Name(Token),
}

fn value_of(line: &[u8], token: &Token) -> Result<Value, ParseFault>
    ensures { result ≡ value_by line.now token.now token.now.kind }
{
    match token.kind {
        TokenKind::Number(number) => Ok(Value::Number(number)),
        TokenKind::Name => Ok(Value::Name(name_of(line, token)?)),
        TokenKind::Symbol(_) => Err(ParseFault::BadLine),
    }
}

fn level_of(number: u32, value: Value) -> Result<Message, ParseFault>
    ensures { result ≡ level_by number value }
{
    match value {
        Value::Number(value) => {
            if value <= 1_000_000_000_000 {
                Ok(Message::TeleLevel(number, value as i64))
            } else {
                Err(ParseFault::OutOfRange)
            }
        }
        Value::Name(_) => Err(ParseFault::OutOfRange),
    }
}

fn state_of(number: u32, states: &[Name], line: &[u8], value: Value) -> Result<Message, ParseFault>
    requires { length states.now ≤ 2 ^ 32 }
    ensures { result ≡ state_by number states.now line.now value }
{
    match value {
        Value::Number(_) => Err(ParseFault::UnknownName),
        Value::Name(name) => match state_named(states, token_text(line, &name)) {
            Some(state) => Ok(Message::TeleState(number, state)),
            None => Err(ParseFault::UnknownName),
        },
    }
}

fn told_of(
    model: &Model,
    line: &[u8],
    timeline: &Token,
    value: Value,
) -> Result<Message, ParseFault>
    requires { IsNumbered model.now }
    ensures { result ≡ told_by line.now value (timeline_named model.now (token_text line.now timeline.now)) }
{
    match timeline_named(model, token_text(line, timeline)) {
        None => Err(ParseFault::UnknownName),
        Some((_, Timeline::Capacity { .. })) => Err(ParseFault::UnknownName),
        Some((number, Timeline::Level { .. })) => level_of(number, value),
        Some((number, Timeline::States { states, .. })) => {
            state_of(number, states.as_slice(), line, value)
        }
    }
}

/// The telemetry that is written behind the word `tele`.
#[tactic(auto, unfolding(crate::specs::Telemetry::telemetry_in))]
pub fn telemetry_of(model: &Model, line: &[u8], tokens: &[Token]) -> Result<Message, ParseFault>
    requires { IsNumbered model.now }
    ensures { result ≡ telemetry_in model.now line.now tokens.now }
{
    match tokens {
        [timeline, value] => {
            let timeline = name_of(line, timeline)?;
            let value = value_of(line, value)?;
            told_of(model, line, &timeline, value)
        }
        _ => Err(ParseFault::BadLine),
    }
}
