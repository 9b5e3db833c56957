ghost use Rattle.std.specs.Prelude.{◌≡◌};
ghost use Rattle.pl_text.specs.Tokens.{token_text};

use crate::token::Token;

/// The bytes of a token of a text, and none where the token is not within the text.
pub fn token_text<'a>(text: &'a [u8], token: &Token) -> &'a [u8]
    ensures { result.now ≡ token_text text.now token.now }
{
    let from = token.from as usize;
    let to = token.to as usize;
    if from <= to && to <= text.len() {
        &text[from..to]
    } else {
        &[]
    }
}
