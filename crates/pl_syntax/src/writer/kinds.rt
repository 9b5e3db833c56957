ghost use Rattle.std.specs.Prelude.{◌≡◌, ◌++◌, OnOk};
ghost use Rattle.pl_syntax.specs.Canonical.{origin_tokens, param_tokens, when_tokens, reservation_tokens, link_tokens, kind_tokens};

use super::{Written, push_each, push_name, push_number, push_point, push_symbol, push_word};
use crate::kinds::AstKind;
use crate::links::AstLink;
use crate::parameters::{AstOrigin, AstParam};
use crate::reservations::AstReservation;
use crate::{Symbol, Token};
use pl_lists::Items;
use pl_model::Point;
use pl_text::Word;
use std::alloc::{AllocError, Global};

impl Written for AstOrigin {
    ghost tokens = { origin_tokens };

    fn push(&self, alloc: Global, out: &mut Items<Token>) -> Result<(), AllocError> {
        match self {
            AstOrigin::Plain => Ok(()),
            AstOrigin::Default(value) => {
                push_word(Word::Default, out)?;
                push_number(*value, out)?;
                Ok(())
            }
            AstOrigin::Equals(value) => {
                push_symbol(Symbol::Equals, out)?;
                value.push(alloc, out)?;
                Ok(())
            }
        }
    }
}

impl Written for AstParam {
    ghost tokens = { param_tokens };

    fn push(&self, alloc: Global, out: &mut Items<Token>) -> Result<(), AllocError> {
        push_word(Word::Param, out)?;
        push_name(&self.name, alloc, out)?;
        push_number(self.low, out)?;
        push_number(self.high, out)?;
        self.origin.push(alloc, out)?;
        Ok(())
    }
}

fn push_when(point: Point, out: &mut Items<Token>) -> Result<(), AllocError>
    ensures { OnOk result (out.new ≡ out.old ++ when_tokens point) }
{
    push_word(Word::At, out)?;
    push_point(point, out)?;
    Ok(())
}

impl Written for AstReservation {
    ghost tokens = { reservation_tokens };

    fn push(&self, alloc: Global, out: &mut Items<Token>) -> Result<(), AllocError> {
        match self {
            AstReservation::Take(name, amount) => {
                push_word(Word::Use, out)?;
                push_name(name, alloc, out)?;
                amount.push(alloc, out)?;
                Ok(())
            }
            AstReservation::Raise(name, amount, point) => {
                push_word(Word::Raise, out)?;
                push_name(name, alloc, out)?;
                amount.push(alloc, out)?;
                push_when(*point, out)?;
                Ok(())
            }
            AstReservation::Lower(name, amount, point) => {
                push_word(Word::Lower, out)?;
                push_name(name, alloc, out)?;
                amount.push(alloc, out)?;
                push_when(*point, out)?;
                Ok(())
            }
            AstReservation::Put(name, state, point) => {
                push_word(Word::Set, out)?;
                push_name(name, alloc, out)?;
                push_name(state, alloc, out)?;
                push_when(*point, out)?;
                Ok(())
            }
            AstReservation::Must(name, state) => {
                push_word(Word::Must, out)?;
                push_name(name, alloc, out)?;
                push_name(state, alloc, out)?;
                Ok(())
            }
        }
    }
}

impl Written for AstLink {
    ghost tokens = { link_tokens };

    fn push(&self, alloc: Global, out: &mut Items<Token>) -> Result<(), AllocError> {
        push_word(Word::Link, out)?;
        push_point(self.mine, out)?;
        push_name(&self.kind, alloc, out)?;
        push_point(self.theirs, out)?;
        push_number(self.low, out)?;
        push_number(self.high, out)?;
        Ok(())
    }
}

impl Written for AstKind {
    ghost tokens = { kind_tokens };

    fn push(&self, alloc: Global, out: &mut Items<Token>) -> Result<(), AllocError> {
        push_word(Word::Kind, out)?;
        push_name(&self.name, alloc, out)?;
        push_symbol(Symbol::OpenBrace, out)?;
        push_each(self.params.as_slice(), alloc, out)?;
        push_word(Word::Duration, out)?;
        self.duration.push(alloc, out)?;
        push_each(self.reservations.as_slice(), alloc, out)?;
        push_each(self.links.as_slice(), alloc, out)?;
        push_each(self.alternatives.as_slice(), alloc, out)?;
        push_symbol(Symbol::CloseBrace, out)?;
        Ok(())
    }
}
