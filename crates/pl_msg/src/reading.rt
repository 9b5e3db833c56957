ghost use Rattle.std.specs.Prelude.{◌≡◌, ◌<◌, ◌^◌, ◌∷◌, length, IfOk};
ghost use Rattle.pl_msg.specs.Reads.{Gives};
ghost use Rattle.pl_msg.specs.Messages.{tick_in, ended_by, until_in, halt_in, end_in, said_in, message_of};
ghost use Rattle.pl_msg.specs.Limits.{IsNumbered, IsWithin};

use crate::fault::ParseFault;
use crate::goals::goal_of;
use crate::message::Message;
use crate::telemetry::telemetry_of;
use crate::words::{number_of, says, tokens_of};
use pl_model::Model;
use pl_text::Token;
use std::alloc::Global;

fn tick_of(tokens: &[Token]) -> Result<Message, ParseFault>
    ensures { result ≡ tick_in tokens.now }
{
    match tokens {
        [moment] => Ok(Message::Tick(number_of(moment)?)),
        _ => Err(ParseFault::BadLine),
    }
}

/// A moment past the horizon is out of range, whatever the id is.
fn ended_by(model: &Model, id: u64, moment: u64) -> Result<Message, ParseFault>
    ensures { result ≡ ended_by model.now.horizon id moment }
{
    if moment <= u64::from(model.horizon) {
        Ok(Message::Until(id, moment as u32))
    } else {
        Err(ParseFault::OutOfRange)
    }
}

fn until_of(model: &Model, tokens: &[Token]) -> Result<Message, ParseFault>
    ensures { result ≡ until_in model.now tokens.now }
{
    match tokens {
        [id, moment] => {
            let id = number_of(id)?;
            let moment = number_of(moment)?;
            ended_by(model, id, moment)
        }
        _ => Err(ParseFault::BadLine),
    }
}

fn halt_of(tokens: &[Token]) -> Result<Message, ParseFault>
    ensures { result ≡ halt_in tokens.now }
{
    match tokens {
        [] => Ok(Message::Halt),
        _ => Err(ParseFault::BadLine),
    }
}

fn end_of(tokens: &[Token]) -> Result<Message, ParseFault>
    ensures { result ≡ end_in tokens.now }
{
    match tokens {
        [] => Ok(Message::End),
        _ => Err(ParseFault::BadLine),
    }
}

#[tactic(auto, unfolding(crate::specs::Messages::said_in))]
fn said_by(
    alloc: Global,
    model: &Model,
    line: &[u8],
    word: &Token,
    tokens: &[Token],
) -> Result<Message, ParseFault>
    requires { IsNumbered model.now }
    ensures { Gives result (said_in model.now line.now (word.now ∷ tokens.now)) }
{
    if says(line, word, b"goal") {
        Ok(Message::Goal(goal_of(alloc, model, line, tokens)?))
    } else if says(line, word, b"tele") {
        telemetry_of(model, line, tokens)
    } else if says(line, word, b"tick") {
        tick_of(tokens)
    } else if says(line, word, b"until") {
        until_of(model, tokens)
    } else if says(line, word, b"halt") {
        halt_of(tokens)
    } else if says(line, word, b"end") {
        end_of(tokens)
    } else {
        Err(ParseFault::BadLine)
    }
}

#[tactic(auto, unfolding(crate::specs::Messages::said_in))]
fn said_of(
    alloc: Global,
    model: &Model,
    line: &[u8],
    tokens: &[Token],
) -> Result<Message, ParseFault>
    requires { IsNumbered model.now }
    ensures { Gives result (said_in model.now line.now tokens.now) }
{
    match tokens {
        [word, tokens @ ..] => said_by(alloc, model, line, word, tokens),
        [] => Err(ParseFault::BadLine),
    }
}

/// The message of a line, for a model as `check` answers it.
#[tactic(auto, using(crate::proofs::Within::said_fits), unfolding(crate::specs::Messages::message_of))]
pub fn read_message(alloc: Global, line: &[u8], model: &Model) -> Result<Message, ParseFault>
    requires numbered { IsNumbered model.now }
    requires short { length line.now < 2 ^ 32 }
    // The message or the first fault, unless memory runs out.
    ensures answers { Gives result (message_of model.now line.now) }
    // Each number is within its limits.
    ensures within { IfOk result (IsWithin model.now) }
{
    let tokens = tokens_of(alloc, line)?;
    let message = said_of(alloc, model, line, tokens.as_slice())?;
    Ok(message)
}
