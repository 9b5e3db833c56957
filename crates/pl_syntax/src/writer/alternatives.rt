ghost use Rattle.std.specs.Prelude.{◌≡◌, ◌++◌, OnOk, flat_map};
ghost use Rattle.pl_syntax.specs.Canonical.{binding_tokens, further_tokens, bindings_tokens, slot_tokens, order_tokens, alternative_tokens};

use super::{
    Written, push_each, push_name, push_number, push_place, push_point, push_symbol, push_word,
};
use crate::alternatives::{AstAlternative, AstOrder, AstSlot};
use crate::expressions::AstExpr;
use crate::{Symbol, Token};
use pl_lists::Items;
use pl_model::Name;
use pl_text::Word;
use std::alloc::{AllocError, Global};

impl Written for (Name, AstExpr) {
    ghost tokens = { binding_tokens };

    fn push(&self, alloc: Global, out: &mut Items<Token>) -> Result<(), AllocError> {
        push_name(&self.0, alloc, out)?;
        push_symbol(Symbol::Equals, out)?;
        self.1.push(alloc, out)?;
        Ok(())
    }
}

fn push_further(
    binding: &(Name, AstExpr),
    alloc: Global,
    out: &mut Items<Token>,
) -> Result<(), AllocError>
    ensures { OnOk result (out.new ≡ out.old ++ further_tokens binding.now) }
{
    push_symbol(Symbol::Comma, out)?;
    binding.push(alloc, out)?;
    Ok(())
}

fn push_all_further(
    bindings: &[(Name, AstExpr)],
    alloc: Global,
    out: &mut Items<Token>,
) -> Result<(), AllocError>
    ensures { OnOk result (out.new ≡ out.old ++ flat_map further_tokens bindings.now) }
{
    for binding in bindings {
        push_further(binding, alloc, out)?;
    }
    Ok(())
}

fn push_bindings(
    bindings: &[(Name, AstExpr)],
    alloc: Global,
    out: &mut Items<Token>,
) -> Result<(), AllocError>
    ensures { OnOk result (out.new ≡ out.old ++ bindings_tokens bindings.now) }
{
    match bindings {
        [first, rest @ ..] => {
            push_symbol(Symbol::Open, out)?;
            first.push(alloc, out)?;
            push_all_further(rest, alloc, out)?;
            push_symbol(Symbol::Close, out)?;
            Ok(())
        }
        [] => Ok(()),
    }
}

impl Written for AstSlot {
    ghost tokens = { slot_tokens };

    fn push(&self, alloc: Global, out: &mut Items<Token>) -> Result<(), AllocError> {
        push_word(Word::Slot, out)?;
        push_name(&self.name, alloc, out)?;
        push_name(&self.kind, alloc, out)?;
        push_bindings(self.bindings.as_slice(), alloc, out)?;
        Ok(())
    }
}

impl Written for AstOrder {
    ghost tokens = { order_tokens };

    fn push(&self, alloc: Global, out: &mut Items<Token>) -> Result<(), AllocError> {
        push_word(Word::Order, out)?;
        push_place(&self.first, alloc, out)?;
        push_point(self.first_end, out)?;
        push_place(&self.second, alloc, out)?;
        push_point(self.second_end, out)?;
        push_number(self.low, out)?;
        push_number(self.high, out)?;
        Ok(())
    }
}

impl Written for AstAlternative {
    ghost tokens = { alternative_tokens };

    fn push(&self, alloc: Global, out: &mut Items<Token>) -> Result<(), AllocError> {
        push_word(Word::Alternative, out)?;
        push_symbol(Symbol::OpenBrace, out)?;
        push_each(self.slots.as_slice(), alloc, out)?;
        push_each(self.orders.as_slice(), alloc, out)?;
        push_symbol(Symbol::CloseBrace, out)?;
        Ok(())
    }
}
