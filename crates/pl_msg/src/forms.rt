ghost use Rattle.std.specs.Prelude.{◌≡◌};
ghost use Rattle.pl_msg.specs.Reads.{Gives};
ghost use Rattle.pl_msg.specs.Goals.{must_in, form_in};

use crate::fault::ParseFault;
use crate::presets::{Preset, presets_of};
use crate::words::{name_of, number_of, says};
use pl_lists::Items;
use pl_text::Token;
use std::alloc::Global;

/// A goal as it is written, its names as tokens of the line.
#[derive(Drop)]
pub struct GoalForm {
    pub number: u64,
    pub kind: Token,
    pub earliest: u64,
    pub latest: u64,
    pub must: bool,
    pub presets: Items<Preset>,
}

fn must_of(line: &[u8], token: &Token) -> Result<bool, ParseFault>
    ensures { result ≡ must_in line.now token.now }
{
    if says(line, token, b"must") {
        Ok(true)
    } else if says(line, token, b"may") {
        Ok(false)
    } else {
        Err(ParseFault::BadLine)
    }
}

/// What is written behind the word `goal`.
#[tactic(auto, unfolding(crate::specs::Goals::form_in))]
pub fn form_of(alloc: Global, line: &[u8], tokens: &[Token]) -> Result<GoalForm, ParseFault>
    ensures { Gives result (form_in line.now tokens.now) }
{
    match tokens {
        [number, kind, earliest, latest, will, presets @ ..] => Ok(GoalForm {
            number: number_of(number)?,
            kind: name_of(line, kind)?,
            earliest: number_of(earliest)?,
            latest: number_of(latest)?,
            must: must_of(line, will)?,
            presets: presets_of(alloc, line, presets)?,
        }),
        _ => Err(ParseFault::BadLine),
    }
}
