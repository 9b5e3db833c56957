ghost use Rattle.std.specs.Prelude.{◌≡◌};
ghost use Rattle.pl_syntax.specs.Tokens.{word_number, symbol_number, same};
ghost use Rattle.pl_syntax.specs.declared.token.Token.TheVariants as tokens;

use crate::symbol::Symbol;
use pl_lists::Items;
use pl_text::Word;

/// A token as a grammar sees it, without its place.
#[derive(Drop)]
pub enum Token {
    Number(i64),
    Name(Items<u8>),
    Word(Word),
    Symbol(Symbol),
}

fn word_number(word: Word) -> u8
    ensures { result ≡ word_number word }
{
    word as u8
}

fn symbol_number(symbol: Symbol) -> u8
    ensures { result ≡ symbol_number symbol }
{
    symbol as u8
}

impl Token {
    /// Whether it is this reserved word.
    pub fn is_word(&self, word: Word) -> bool
        ensures { result ≡ same self.now (tokens.Word word) }
    {
        match self {
            Token::Word(found) => word_number(*found) == word_number(word),
            _ => false,
        }
    }

    /// Whether it is this symbol.
    pub fn is_symbol(&self, symbol: Symbol) -> bool
        ensures { result ≡ same self.now (tokens.Symbol symbol) }
    {
        match self {
            Token::Symbol(found) => symbol_number(*found) == symbol_number(symbol),
            _ => false,
        }
    }
}
