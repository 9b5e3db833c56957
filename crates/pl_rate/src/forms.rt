ghost use Rattle.std.specs.Prelude.{◌≡◌, ◌∷◌, IfOk, ◌<◌, ◌^◌, length};
ghost use Rattle.pl_rate.specs.Rates.{change_in, rate_in, drift_in, form_in};

use crate::form::{Change, RateForm};
use pl_msg::{ParseFault, name_of, number_of, says};
use pl_text::Token;

// A number, after at most one `-`.
#[tactic(auto, unfolding(crate::specs::Rates::change_in))]
fn change_of(line: &[u8], tokens: &[Token]) -> Result<Change, ParseFault>
    ensures { result ≡ change_in line.now tokens.now }
{
    match tokens {
        [number] => {
            let amount = number_of(number)?;
            Ok(Change {
                down: false,
                amount,
            })
        }
        [minus, number] => {
            if says(line, minus, b"-") {
                let amount = number_of(number)?;
                Ok(Change { down: true, amount })
            } else {
                Err(ParseFault::BadLine)
            }
        }
        _ => Err(ParseFault::BadLine),
    }
}

#[tactic(auto, unfolding(crate::specs::Rates::rate_in))]
fn rate_by(line: &[u8], tokens: &[Token]) -> Result<RateForm, ParseFault>
    ensures { result ≡ rate_in line.now tokens.now }
{
    match tokens {
        [kind, level, tokens @ ..] => {
            let kind = name_of(line, kind)?;
            let level = name_of(line, level)?;
            let change = change_of(line, tokens)?;
            Ok(RateForm {
                kind: Some(kind),
                level,
                change,
            })
        }
        _ => Err(ParseFault::BadLine),
    }
}

#[tactic(auto, unfolding(crate::specs::Rates::drift_in))]
fn drift_by(line: &[u8], tokens: &[Token]) -> Result<RateForm, ParseFault>
    ensures { result ≡ drift_in line.now tokens.now }
{
    match tokens {
        [level, tokens @ ..] => {
            let level = name_of(line, level)?;
            let change = change_of(line, tokens)?;
            Ok(RateForm {
                kind: None,
                level,
                change,
            })
        }
        [] => Err(ParseFault::BadLine),
    }
}

/// The form of a line by its first word.
#[tactic(auto, unfolding(crate::specs::Rates::form_in))]
pub(crate) fn form_of(line: &[u8], tokens: &[Token]) -> Result<RateForm, ParseFault>
    ensures { result ≡ form_in line.now tokens.now }
{
    match tokens {
        [] => Err(ParseFault::BadLine),
        [word, tokens @ ..] => {
            if says(line, word, b"rate") {
                rate_by(line, tokens)
            } else if says(line, word, b"drift") {
                drift_by(line, tokens)
            } else {
                Err(ParseFault::BadLine)
            }
        }
    }
}
