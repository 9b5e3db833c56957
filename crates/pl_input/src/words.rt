ghost use Rattle.std.specs.Prelude.{◌≡◌, ◌<◌, ◌^◌, length, Ok, Err, IfOk, MatchResult, IfSome, OnErr};
ghost use Rattle.pl_text.specs.Tokens.{tokens_of};
ghost use Rattle.pl_input.specs.Words.{is_only, is_line_of, begin_word, is_space, is_blank_line};
ghost use Rattle.pl_input.specs.Tokens.{GivesTokens};

use pl_msg::says;
use pl_text::{TextFault, Token, tokens};
use std::alloc::{AllocError, Global};

/// The tokens of a line, or none where it has a fault.
fn line_tokens(alloc: Global, line: &[u8]) -> Result<Option<Vec<Token>>, AllocError>
    requires { length line.now < 2 ^ 32 }
    ensures { IfOk result (GivesTokens (tokens_of line.now)) }
{
    match tokens(alloc, line) {
        Ok(tokens) => Ok(Some(tokens)),
        Err(TextFault::Memory) => Err(AllocError),
        Err(_) => Ok(None),
    }
}

fn is_only(word: &[u8], line: &[u8], tokens: &[Token]) -> bool
    ensures { result ≡ is_only word.now line.now (Ok tokens.now) }
{
    match tokens {
        [token] => says(line, token, word),
        _ => false,
    }
}

/// Whether the only token of a line is this word.
#[tactic(auto, unfolding(crate::specs::Words::is_line_of))]
pub fn is_line_of(alloc: Global, word: &[u8], line: &[u8]) -> Result<bool, AllocError>
    requires { length line.now < 2 ^ 32 }
    ensures { IfOk result (λ is. is ≡ is_line_of word.now line.now) }
{
    match line_tokens(alloc, line)? {
        Some(tokens) => Ok(is_only(word, line, tokens.as_slice())),
        None => Ok(false),
    }
}

/// Whether the only token of a line is `begin`.
pub fn is_begin_line(alloc: Global, line: &[u8]) -> Result<bool, AllocError>
    requires { length line.now < 2 ^ 32 }
    ensures { IfOk result (λ is. is ≡ is_line_of begin_word line.now) }
{
    is_line_of(alloc, b"begin", line)
}

fn is_space(byte: u8) -> bool
    ensures { result ≡ is_space byte }
{
    byte == b' ' || byte == b'\t' || byte == b'\r'
}

/// Whether every byte before the first `#` of a line is a space, a tab or a carriage return.
#[tactic(auto, unfolding(crate::specs::Words::is_blank_line))]
pub fn is_blank_line(line: &[u8]) -> bool
    ensures { result ≡ is_blank_line line.now }
{
    line.iter()
        .take_while(|byte| **byte != b'#')
        .all(|byte| is_space(*byte))
}
