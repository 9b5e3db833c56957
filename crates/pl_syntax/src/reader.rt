ghost use Rattle.std.specs.Prelude.{◌≡◌, ◌<◌, ◌^◌, ◌+◌, ◌∷◌, length, IfOk, IfSome};
ghost use Rattle.pl_syntax.specs.declared.token.Token.TheVariants as token;
ghost use Rattle.pl_syntax.specs.Tokens.{is_word, is_symbol};
ghost use Rattle.pl_syntax.specs.Parsing.{natural_of, number_of, name_of, class_at, decoded, expect, eats, next_is};
ghost use Rattle.pl_syntax.specs.Reading.{name_at, number_at, signed_at, point_at, place_at, is_name_token};
ghost use Rattle.pl_syntax.specs.Gives.{Gives, Ate};

mod alternatives;
mod expressions;
mod kinds;
mod reservations;
mod timelines;
mod whole;

use crate::fault::Stopped;
use crate::{Symbol, Token};
use pl_lists::Copied;
use pl_model::{Name, Point};
use pl_text::Word;
use std::alloc::Global;

/// The tokens that are left.
#[derive(Drop)]
pub struct Reader<'a> {
    alloc: Global,
    rest: &'a [Token],
}

fn natural_of(number: i64) -> Option<u64>
    ensures value { result ≡ natural_of number }
    ensures small { IfSome result (λ n. n < 2 ^ 63) }
{
    if number < 0 {
        None
    } else {
        Some(number.unsigned_abs())
    }
}

impl<'a> Reader<'a> {
    /// Over all tokens of a text.
    pub fn new(alloc: Global, tokens: &'a [Token]) -> Self
        ensures { result.rest.now ≡ tokens.now }
    {
        Reader {
            alloc,
            rest: tokens,
        }
    }

    fn expect_word(&mut self, word: Word) -> Result<(), Stopped>
        ensures { Gives result self.new.rest.now (expect (token.Word word) self.old.rest.now) }
    {
        match self.rest {
            [first, rest @ ..] => {
                if !first.is_word(word) {
                    return Err(Stopped::Unexpected(self.rest.len()));
                }
                self.rest = rest;
                Ok(())
            }
            [] => Err(Stopped::Unexpected(0)),
        }
    }

    fn expect_symbol(&mut self, symbol: Symbol) -> Result<(), Stopped>
        ensures { Gives result self.new.rest.now (expect (token.Symbol symbol) self.old.rest.now) }
    {
        match self.rest {
            [first, rest @ ..] => {
                if !first.is_symbol(symbol) {
                    return Err(Stopped::Unexpected(self.rest.len()));
                }
                self.rest = rest;
                Ok(())
            }
            [] => Err(Stopped::Unexpected(0)),
        }
    }

    /// Takes the symbol, where it comes next.
    fn eat_symbol(&mut self, symbol: Symbol) -> bool
        ensures { Ate result self.old.rest.now self.new.rest.now (eats (token.Symbol symbol) self.old.rest.now) }
    {
        match self.rest {
            [first, rest @ ..] => {
                if !first.is_symbol(symbol) {
                    return false;
                }
                self.rest = rest;
                true
            }
            [] => false,
        }
    }

    fn sees_word(&self, word: Word) -> bool
        ensures { result ≡ next_is (is_word word) self.now.rest.now }
    {
        match self.rest {
            [first, ..] => first.is_word(word),
            [] => false,
        }
    }

    fn sees_symbol(&self, symbol: Symbol) -> bool
        ensures { result ≡ next_is (is_symbol symbol) self.now.rest.now }
    {
        match self.rest {
            [first, ..] => first.is_symbol(symbol),
            [] => false,
        }
    }

    fn sees_name(&self) -> bool
        ensures { result ≡ next_is is_name_token self.now.rest.now }
    {
        match self.rest {
            [Token::Name(_), ..] => true,
            _ => false,
        }
    }

    fn name(&mut self) -> Result<Name, Stopped>
        ensures { Gives result self.new.rest.now (name_at self.old.rest.now) }
    {
        match self.rest {
            [Token::Name(name), rest @ ..] => {
                let name = name.copy(self.alloc)?;
                self.rest = rest;
                Ok(name)
            }
            _ => Err(Stopped::Unexpected(self.rest.len())),
        }
    }

    /// Takes a number, behind which `rest` is left.
    fn take_number(&mut self, number: i64, rest: &'a [Token]) -> Result<u64, Stopped>
        requires { length rest.now + 1 < 2 ^ 64 }
        ensures value { Gives result self.new.rest.now (decoded (natural_of number) (token.Number number) rest.now) }
        ensures small { IfOk result (λ n. n < 2 ^ 63) }
    {
        match natural_of(number) {
            Some(value) => {
                self.rest = rest;
                Ok(value)
            }
            None => Err(Stopped::Unexpected(rest.len() + 1)),
        }
    }

    fn natural(&mut self) -> Result<u64, Stopped>
        ensures value { Gives result self.new.rest.now (class_at number_of self.old.rest.now) }
        ensures small { IfOk result (λ n. n < 2 ^ 63) }
    {
        match self.rest {
            [Token::Number(number), rest @ ..] => self.take_number(*number, rest),
            _ => Err(Stopped::Unexpected(self.rest.len())),
        }
    }

    fn number(&mut self) -> Result<i64, Stopped>
        ensures { Gives result self.new.rest.now (number_at self.old.rest.now) }
    {
        let value = self.natural()?;
        Ok(value as i64)
    }

    #[tactic(auto, unfolding(crate::specs::Reading::signed_at))]
    fn signed(&mut self) -> Result<i64, Stopped>
        ensures { Gives result self.new.rest.now (signed_at self.old.rest.now) }
    {
        if self.sees_symbol(Symbol::Minus) {
            self.expect_symbol(Symbol::Minus)?;
            let value = self.natural()?;
            return Ok(-(value as i64));
        }
        let value = self.number()?;
        Ok(value)
    }

    fn point(&mut self) -> Result<Point, Stopped>
        ensures { Gives result self.new.rest.now (point_at self.old.rest.now) }
    {
        match self.rest {
            [Token::Word(Word::Start), rest @ ..] => {
                self.rest = rest;
                Ok(Point::Start)
            }
            [Token::Word(Word::End), rest @ ..] => {
                self.rest = rest;
                Ok(Point::End)
            }
            _ => Err(Stopped::Unexpected(self.rest.len())),
        }
    }

    fn place(&mut self) -> Result<Option<Name>, Stopped>
        ensures { Gives result self.new.rest.now (place_at self.old.rest.now) }
    {
        match self.rest {
            [Token::Name(name), rest @ ..] => {
                let name = name.copy(self.alloc)?;
                self.rest = rest;
                Ok(Some(name))
            }
            [Token::Word(Word::Parent), rest @ ..] => {
                self.rest = rest;
                Ok(None)
            }
            _ => Err(Stopped::Unexpected(self.rest.len())),
        }
    }
}
