ghost use Rattle.std.specs.Prelude.{◌≡◌, ◌≤◌, length, IfOk};
ghost use Rattle.std.specs.List.{All};
ghost use Rattle.pl_text.specs.declared.token.TokenKind.TheVariants as kind;
ghost use Rattle.pl_syntax.specs.Marks.{bytes_of, mark_of, marks_of, mark_by, place_of, IsMarked, HasMark};

use crate::{Symbol, Token};
use pl_lists::Items;
use pl_text::{TokenKind, word_of};
use std::alloc::{AllocError, Global};

fn owned(alloc: Global, bytes: &[u8]) -> Result<Items<u8>, AllocError>
    ensures { IfOk result (λ name. name ≡ bytes.now) }
{
    Ok(Items::from_vec(bytes.to_vec(alloc)?))
}

fn name_or_word(alloc: Global, bytes: &[u8]) -> Result<Token, AllocError>
    ensures { IfOk result (λ t. t ≡ mark_by kind.Name bytes.now) }
{
    match word_of(bytes) {
        Some(word) => Ok(Token::Word(word)),
        None => Ok(Token::Name(owned(alloc, bytes)?)),
    }
}

/// The token as the grammar sees it.
#[tactic(auto, unfolding(crate::specs::Marks::mark_of))]
fn mark(alloc: Global, text: &[u8], token: &pl_text::Token) -> Result<Token, AllocError>
    requires { IsMarked text.now token.now }
    ensures { IfOk result (λ t. t ≡ mark_of text.now token.now) }
{
    match token.kind {
        TokenKind::Name => { name_or_word(alloc, &text[token.from as usize..token.to as usize]) }
        TokenKind::Number(value) => Ok(Token::Number(value as i64)),
        TokenKind::Symbol(byte) => Ok(Token::Symbol(Symbol::of_byte(byte).unwrap())),
    }
}

/// The tokens as the grammar sees them, in their order.
pub fn marks(
    alloc: Global,
    text: &[u8],
    tokens: &[pl_text::Token],
) -> Result<Vec<Token>, AllocError>
    requires { All (IsMarked text.now) tokens.now }
    ensures { IfOk result (λ found. found.items ≡ marks_of text.now tokens.now) }
{
    let mut found = Vec::with_capacity(alloc, tokens.len())?;
    for token in tokens {
        found.push(mark(alloc, text, token)?)?;
    }
    Ok(found)
}

/// Where the token begins, or where the text ends.
pub fn place(tokens: &[pl_text::Token], index: usize, end: u32) -> u32
    ensures { result ≡ place_of tokens.now index end }
{
    match tokens.get(index) {
        Some(token) => token.from,
        None => end,
    }
}
