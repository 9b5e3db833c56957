ghost use Rattle.std.specs.Prelude.{◌≡◌};
ghost use Rattle.pl_syntax.specs.Reading.{origin_at, param_at, params_at, kind_at};
ghost use Rattle.pl_syntax.specs.Gives.{Gives};

use super::Reader;
use crate::fault::Stopped;
use crate::kinds::AstKind;
use crate::parameters::{AstOrigin, AstParam};
use crate::{Symbol, Token};
use pl_lists::Items;
use pl_text::Word;

impl<'a> Reader<'a> {
    #[tactic(auto, unfolding(crate::specs::Reading::origin_at))]
    fn origin(&mut self) -> Result<AstOrigin, Stopped>
        ensures { Gives result self.new.rest.now (origin_at 32 32 self.old.rest.now) }
    {
        match self.rest {
            [Token::Word(Word::Default), ..] => {
                self.expect_word(Word::Default)?;
                let value = self.number()?;
                Ok(AstOrigin::Default(value))
            }
            [Token::Symbol(Symbol::Equals), ..] => {
                self.expect_symbol(Symbol::Equals)?;
                let (value, _) = self.expr(32, 32)?;
                Ok(AstOrigin::Equals(value))
            }
            _ => Ok(AstOrigin::Plain),
        }
    }

    #[tactic(auto, unfolding(crate::specs::Reading::param_at))]
    fn param(&mut self) -> Result<AstParam, Stopped>
        ensures { Gives result self.new.rest.now (param_at 32 32 self.old.rest.now) }
    {
        self.expect_word(Word::Param)?;
        let name = self.name()?;
        let low = self.number()?;
        let high = self.number()?;
        let origin = self.origin()?;
        Ok(AstParam {
            name,
            low,
            high,
            origin,
        })
    }

    #[tactic(auto, using(crate::proofs::Turns::many_goes, crate::proofs::Turns::many_fails, crate::proofs::Turns::many_stops, crate::proofs::Turns::many_ends), unfolding(crate::specs::Reading::params_at))]
    fn params(&mut self) -> Result<Items<AstParam>, Stopped>
        ensures { Gives result self.new.rest.now (params_at 32 32 self.old.rest.now) }
    {
        let mut params = Items::new(self.alloc);
        'params: for _ in 0..self.rest.len() {
            if !self.sees_word(Word::Param) {
                return Ok(params);
            }
            let param = self.param()?;
            params.push(param)?;
        }
        Ok(params)
    }

    /// Takes a kind of activity.
    #[tactic(auto, unfolding(crate::specs::Reading::kind_at))]
    pub fn kind(&mut self) -> Result<AstKind, Stopped>
        ensures { Gives result self.new.rest.now (kind_at 32 32 self.old.rest.now) }
    {
        self.expect_word(Word::Kind)?;
        let name = self.name()?;
        self.expect_symbol(Symbol::OpenBrace)?;
        let params = self.params()?;
        self.expect_word(Word::Duration)?;
        let (duration, _) = self.expr(32, 32)?;
        let reservations = self.reservations()?;
        let links = self.links()?;
        let alternatives = self.alternatives()?;
        self.expect_symbol(Symbol::CloseBrace)?;
        Ok(AstKind {
            name,
            params,
            duration,
            reservations,
            links,
            alternatives,
        })
    }
}
