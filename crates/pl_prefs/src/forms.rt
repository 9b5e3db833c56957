ghost use Rattle.std.specs.Prelude.{◌≡◌, ◌∷◌, IfOk, ◌<◌, ◌^◌, length};
ghost use Rattle.pl_prefs.specs.Prefers.{by_start, by_value, kind_form_in, level_form_in, preferred_in, form_in};

use crate::form::PreferForm;
use pl_msg::{ParseFault, name_of, number_of, says};
use pl_text::Token;

// The form by the word `early` or `late`.
#[tactic(auto, unfolding(crate::specs::Prefers::by_start))]
fn start_form(
    line: &[u8],
    kind: Token,
    word: &Token,
    weight: &Token,
) -> Result<PreferForm, ParseFault>
    ensures { result ≡ by_start line.now kind word.now weight.now }
{
    let number = number_of(weight)?;
    if says(line, word, b"early") {
        Ok(PreferForm::Early(kind, number))
    } else if says(line, word, b"late") {
        Ok(PreferForm::Late(kind, number))
    } else {
        Err(ParseFault::BadLine)
    }
}

// The form by the word `value`, with the parameter.
#[tactic(auto, unfolding(crate::specs::Prefers::by_value))]
fn value_form(
    line: &[u8],
    kind: Token,
    word: &Token,
    param: &Token,
    weight: &Token,
) -> Result<PreferForm, ParseFault>
    ensures { result ≡ by_value line.now kind word.now param.now weight.now }
{
    if says(line, word, b"value") {
        let name = name_of(line, param)?;
        let number = number_of(weight)?;
        Ok(PreferForm::Value(kind, name, number))
    } else {
        Err(ParseFault::BadLine)
    }
}

// The form behind the name of a kind.
#[tactic(auto, unfolding(crate::specs::Prefers::kind_form_in, crate::specs::Prefers::behind_kind))]
fn kind_form(line: &[u8], kind: &Token, tokens: &[Token]) -> Result<PreferForm, ParseFault>
    ensures { result ≡ kind_form_in line.now kind.now tokens.now }
{
    let kind = name_of(line, kind)?;
    match tokens {
        [word, weight] => start_form(line, kind, word, weight),
        [word, param, weight] => value_form(line, kind, word, param, weight),
        _ => Err(ParseFault::BadLine),
    }
}

// The form behind the word `level`.
#[tactic(auto, unfolding(crate::specs::Prefers::level_form_in))]
fn level_form(line: &[u8], tokens: &[Token]) -> Result<PreferForm, ParseFault>
    ensures { result ≡ level_form_in line.now tokens.now }
{
    match tokens {
        [level, weight] => {
            let name = name_of(line, level)?;
            let number = number_of(weight)?;
            Ok(PreferForm::Level(name, number))
        }
        _ => Err(ParseFault::BadLine),
    }
}

// The form behind the word `prefer`.
#[tactic(auto, unfolding(crate::specs::Prefers::preferred_in))]
fn preferred(line: &[u8], tokens: &[Token]) -> Result<PreferForm, ParseFault>
    ensures { result ≡ preferred_in line.now tokens.now }
{
    match tokens {
        [] => Err(ParseFault::BadLine),
        [subject, tokens @ ..] => {
            if says(line, subject, b"level") {
                level_form(line, tokens)
            } else {
                kind_form(line, subject, tokens)
            }
        }
    }
}

/// The form of a line.
#[tactic(auto, unfolding(crate::specs::Prefers::form_in))]
pub(crate) fn form_of(line: &[u8], tokens: &[Token]) -> Result<PreferForm, ParseFault>
    ensures { result ≡ form_in line.now tokens.now }
{
    match tokens {
        [] => Err(ParseFault::BadLine),
        [word, tokens @ ..] => {
            if says(line, word, b"prefer") {
                preferred(line, tokens)
            } else {
                Err(ParseFault::BadLine)
            }
        }
    }
}
