ghost use Rattle.std.specs.Prelude.{◌≡◌, ◌<◌, ◌^◌, length};
ghost use Rattle.pl_msg.specs.Reads.{Shows};
ghost use Rattle.pl_msg.specs.Words.{says, number_in, name_in, tokens_in};

use crate::fault::ParseFault;
use pl_text::{TextFault, Token, TokenKind, is_name, token_text, tokens};
use std::alloc::Global;

/// Whether a token of a line is written so.
pub fn says(line: &[u8], token: &Token, text: &[u8]) -> bool
    ensures { result ≡ says line.now token.now text.now }
{
    token_text(line, token) == text
}

/// The number that the token is, or else the line is bad.
pub fn number_of(token: &Token) -> Result<u64, ParseFault>
    ensures { result ≡ number_in token.now.kind }
{
    match token.kind {
        TokenKind::Number(number) => Ok(number),
        TokenKind::Name => Err(ParseFault::BadLine),
        TokenKind::Symbol(_) => Err(ParseFault::BadLine),
    }
}

/// The token, where it is a name.
#[tactic(auto, unfolding(crate::specs::Words::name_in))]
pub fn name_of(line: &[u8], token: &Token) -> Result<Token, ParseFault>
    ensures { result ≡ name_in line.now token.now }
{
    if is_name(token_text(line, token)) {
        Ok(*token)
    } else {
        Err(ParseFault::BadLine)
    }
}

/// The tokens of a line; a fault in one makes it a bad line.
pub fn tokens_of(alloc: Global, line: &[u8]) -> Result<Vec<Token>, ParseFault>
    requires { length line.now < 2 ^ 32 }
    ensures { Shows (λ tokens. tokens.items) result (tokens_in line.now) }
{
    match tokens(alloc, line) {
        Ok(tokens) => Ok(tokens),
        Err(TextFault::Memory) => Err(ParseFault::Memory),
        Err(_) => Err(ParseFault::BadLine),
    }
}
