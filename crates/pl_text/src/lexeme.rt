ghost use Rattle.std.specs.Prelude.{◌≡◌, true, ◌<◌, ◌≤◌, ◌^◌, ◌+◌, length, IfOk};
ghost use Rattle.std.specs.List.{prefix_len, AllPass};
ghost use Rattle.pl_text.specs.Bytes.{is_name_byte, is_number_byte, in_line};
ghost use Rattle.pl_lists.specs.Judgements.{Gives};
ghost use Rattle.pl_text.specs.Tokens.{number_value, named, numbered, lexeme_of, is_memory};

use crate::class::{Class, class_of, is_name_byte, is_number_byte};
use crate::fault::TextFault;
use crate::token::TokenKind;

/// What comes next in a text: a token, or a blank or a comment, and how many bytes it takes.
#[derive(Clone, Copy, PartialEq, Eq)]
pub struct Lexeme {
    pub kind: Option<TokenKind>,
    pub len: u32,
}

#[tactic(auto, using(crate::proofs::Scanning::prefix_within))]
fn name_len(text: &[u8]) -> usize
    ensures value { result ≡ prefix_len is_name_byte text.now }
    ensures within { result ≤ length text.now }
{
    text.iter().take_while(|byte| is_name_byte(**byte)).count()
}

#[tactic(auto, using(crate::proofs::Scanning::prefix_within))]
fn digits_len(text: &[u8]) -> usize
    ensures value { result ≡ prefix_len is_number_byte text.now }
    ensures within { result ≤ length text.now }
{
    text.iter()
        .take_while(|byte| is_number_byte(**byte))
        .count()
}

#[tactic(auto, using(crate::proofs::Scanning::prefix_within))]
fn line_len(text: &[u8]) -> usize
    ensures value { result ≡ prefix_len in_line text.now }
    ensures within { result ≤ length text.now }
{
    text.iter().take_while(|byte| **byte != b'\n').count()
}

/// The value of a number, by its first digit and the others.
fn number_value(first: u8, digits: &[u8]) -> u64
    requires digits { AllPass is_number_byte digits.now }
    requires first { is_number_byte first ≡ true }
    requires short { length digits.now < 18 }
    ensures { result ≡ number_value first digits.now }
{
    let mut value = u64::from(first - b'0');
    for digit in digits {
        value = value * 10 + u64::from(*digit - b'0');
    }
    value
}

fn name(rest: &[u8], at: u32) -> Result<Lexeme, TextFault>
    requires { length rest.now < 2 ^ 32 }
    ensures value { Gives is_memory result (named at (prefix_len is_name_byte rest.now + 1)) }
    ensures within { IfOk result (λ l. (1 ≤ l.len) × (l.len ≤ length rest.now + 1)) }
{
    let behind = name_len(rest);
    if behind >= 32 {
        return Err(TextFault::BadName(at));
    }
    Ok(Lexeme {
        kind: Some(TokenKind::Name),
        len: behind as u32 + 1,
    })
}

fn number(first: u8, rest: &[u8], at: u32) -> Result<Lexeme, TextFault>
    requires digit { is_number_byte first ≡ true }
    requires short { length rest.now < 2 ^ 32 }
    ensures value { Gives is_memory result (numbered at (prefix_len is_number_byte rest.now + 1) first rest.now) }
    ensures within { IfOk result (λ l. (1 ≤ l.len) × (l.len ≤ length rest.now + 1)) }
{
    let behind = digits_len(rest);
    if behind >= 18 {
        return Err(TextFault::BadNumber(at));
    }
    let value = number_value(first, &rest[..behind]);
    Ok(Lexeme {
        kind: Some(TokenKind::Number(value)),
        len: behind as u32 + 1,
    })
}

#[tactic(auto, unfolding(crate::specs::Tokens::lexeme_of))]
/// What the text `first` and `rest` begins with, at the place `at`.
pub fn next_lexeme(first: u8, rest: &[u8], at: u32) -> Result<Lexeme, TextFault>
    requires { length rest.now + 1 < 2 ^ 32 }
    ensures value { Gives is_memory result (lexeme_of at first rest.now) }
    ensures within { IfOk result (λ l. (1 ≤ l.len) × (l.len ≤ length rest.now + 1)) }
{
    match class_of(first) {
        Class::Blank => Ok(Lexeme { kind: None, len: 1 }),
        Class::Comment => Ok(Lexeme {
            kind: None,
            len: line_len(rest) as u32 + 1,
        }),
        Class::Letter => name(rest, at),
        Class::Digit => number(first, rest, at),
        Class::Symbol => Ok(Lexeme {
            kind: Some(TokenKind::Symbol(first)),
            len: 1,
        }),
        Class::Bad => Err(TextFault::BadByte(at)),
    }
}
