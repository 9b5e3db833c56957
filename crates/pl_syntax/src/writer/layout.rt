ghost use Rattle.std.specs.Prelude.{◌≡◌, ◌++◌, ◌∷◌, [], OnOk, IfOk, if◌then◌else◌, unsigned_abs};
ghost use Rattle.std.specs.Fmt.{decimal};
ghost use Rattle.pl_syntax.specs.declared.token.Token.TheVariants as token;
ghost use Rattle.pl_syntax.specs.Canonical.{token_text, begins_line, breaks, in_states_behind, laid, text_of};

use crate::{Symbol, Token};
use pl_text::Word;
use std::alloc::{AllocError, Global};

fn push_magnitude(number: i64, alloc: Global, out: &mut Vec<u8>) -> Result<(), AllocError>
    ensures { OnOk result (out.new.items ≡ out.old.items ++ decimal (unsigned_abs number)) }
{
    let digits = number.unsigned_abs().to_string(alloc)?;
    out.extend_from_slice(digits.as_bytes())?;
    Ok(())
}

fn push_number(number: i64, alloc: Global, out: &mut Vec<u8>) -> Result<(), AllocError>
    ensures { OnOk result (out.new.items ≡ out.old.items ++ token_text (token.Number number)) }
{
    if number < 0 {
        out.extend_from_slice(b"- ")?;
    }
    push_magnitude(number, alloc, out)?;
    Ok(())
}

fn push_token(token: &Token, alloc: Global, out: &mut Vec<u8>) -> Result<(), AllocError>
    ensures { OnOk result (out.new.items ≡ out.old.items ++ token_text token.now) }
{
    match token {
        Token::Word(word) => {
            out.extend_from_slice(word.text().as_bytes())?;
            Ok(())
        }
        Token::Name(name) => {
            out.extend_from_slice(name.as_slice())?;
            Ok(())
        }
        Token::Number(number) => {
            push_number(*number, alloc, out)?;
            Ok(())
        }
        Token::Symbol(symbol) => {
            out.push(symbol.byte())?;
            Ok(())
        }
    }
}

fn begins_line(word: Word) -> bool
    ensures { result ≡ begins_line word }
{
    matches!(
        word,
        Word::Lead
            | Word::Capacity
            | Word::Level
            | Word::State
            | Word::Kind
            | Word::Param
            | Word::Duration
            | Word::Use
            | Word::Raise
            | Word::Lower
            | Word::Set
            | Word::Must
            | Word::Link
            | Word::Alternative
            | Word::Slot
            | Word::Order
    )
}

/// Whether a new line begins before the token.
fn breaks(in_states: bool, token: &Token) -> bool
    ensures { result ≡ breaks in_states token.now }
{
    match token {
        Token::Word(word) => begins_line(*word),
        Token::Symbol(Symbol::CloseBrace) => !in_states,
        _ => false,
    }
}

/// Whether the states of a timeline are open behind the token.
fn in_states_behind(in_states: bool, token: &Token) -> bool
    ensures { result ≡ in_states_behind in_states token.now }
{
    match token {
        Token::Word(Word::State) => true,
        Token::Symbol(Symbol::CloseBrace) => false,
        _ => in_states,
    }
}

fn push_behind(
    in_states: bool,
    token: &Token,
    alloc: Global,
    out: &mut Vec<u8>,
) -> Result<(), AllocError>
    ensures { OnOk result (out.new.items ≡ out.old.items ++ (if breaks in_states token.now then 10 else 32) ∷ token_text token.now) }
{
    out.push(if breaks(in_states, token) {
        b'\n'
    } else {
        b' '
    })?;
    push_token(token, alloc, out)?;
    Ok(())
}

fn push_rest(
    in_states: bool,
    tokens: &[Token],
    alloc: Global,
    out: &mut Vec<u8>,
) -> Result<(), AllocError>
    ensures { OnOk result (out.new.items ≡ out.old.items ++ laid in_states tokens.now) }
{
    let mut in_states = in_states;
    for token in tokens {
        push_behind(in_states, token, alloc, out)?;
        in_states = in_states_behind(in_states, token);
    }
    out.push(b'\n')?;
    Ok(())
}

/// The text of tokens.
pub fn lay_out(alloc: Global, tokens: &[Token]) -> Result<Vec<u8>, AllocError>
    ensures { IfOk result (λ text. text.items ≡ text_of tokens.now) }
{
    let mut out = Vec::new(alloc);
    match tokens {
        [first, rest @ ..] => {
            push_token(first, alloc, &mut out)?;
            push_rest(in_states_behind(false, first), rest, alloc, &mut out)?;
            Ok(out)
        }
        [] => {
            out.push(b'\n')?;
            Ok(out)
        }
    }
}
